//! What the lines of the narrow form declare and assign.
ghost use Rattle.std.specs.Prelude.{◌≡◌, option_map, None, Some};
ghost use Rattle.std.specs.Option.{option_copied};
ghost use Rattle.pm_job.specs.Form as spec;

use crate::component::{Expression, Operand};
use crate::spelling::{cut, is_new_name, numeral_below, operator_of, role_of, value_where_it_fits};
use crate::words::{without_ending, without_prefix};
use pm_bits::Op;
use pm_design::{Role, Signal};

/// What a line declares.
#[derive(Clone, Copy)]
pub(crate) struct Declaration<'a> {
    pub name: &'a [u8],
    pub role: Role,
    pub width: u32,
}

/// What `s.NAME = InPort( W )` declares.
#[tactic(auto, unfolding(crate::specs::Form::declaration_of))]
pub(crate) fn declaration_of(line: &[u8]) -> Option<Declaration<'_>>
    ensures { option_map spec.signal_in result ≡ spec.declaration_of line.now }
{
    let text = without_prefix(line, b"    s.")?;
    let (name, rest) = cut(text)?;
    let rest = without_prefix(rest, b"= ")?;
    let (port, rest) = cut(rest)?;
    let (width, close) = cut(rest)?;
    if close != b")".as_slice() {
        return None;
    }
    declared_as(name, port, width)
}

fn declared_as<'a>(name: &'a [u8], port: &[u8], width: &[u8]) -> Option<Declaration<'a>>
    ensures { option_map spec.signal_in result ≡ spec.signal_of name.entry.now port.now width.now }
{
    if !is_new_name(name) {
        return None;
    }
    let role = role_of(port)?;
    let width = numeral_below(1 << 32, width)?;
    Some(Declaration {
        name,
        role,
        width: width as u32,
    })
}

/// The index of the signal of this name.
#[tactic(auto, unfolding(crate::specs::Form::index_of))]
pub(crate) fn index_of(signals: &[Signal], name: &[u8]) -> Option<usize>
    ensures { result ≡ spec.index_of signals.now name.now }
{
    for index in 0..signals.len() {
        if signals[index].name.as_slice() == name {
            return Some(index);
        }
    }
    None
}

#[tactic(auto, unfolding(crate::specs::Form::operand_of))]
fn operand_of(signals: &[Signal], width: u32, term: &[u8]) -> Option<Operand>
    ensures { result ≡ spec.operand_of signals.now width term.now }
{
    match without_prefix(term, b"s.") {
        Some(name) => Some(Operand::Signal(index_of(signals, name)?)),
        None => {
            let number = numeral_below(1 << 63, term)?;
            Some(Operand::Constant(value_where_it_fits(width, number)?))
        }
    }
}

fn is_constant(operand: &Operand) -> bool
    ensures { result ≡ spec.is_constant operand.now }
{
    match *operand {
        Operand::Signal(_) => false,
        Operand::Constant(_) => true,
    }
}

#[tactic(auto, unfolding(crate::specs::Form::both_of))]
fn both_of(op: Op, a: Operand, b: Operand) -> Option<Expression>
    ensures { result ≡ spec.both_of op a b }
{
    if is_constant(&a) && is_constant(&b) {
        None
    } else {
        Some(Expression::Both(op, a, b))
    }
}

#[tactic(auto, unfolding(crate::specs::Form::double_of))]
fn double_of(signals: &[Signal], width: u32, a: &[u8], sign: &[u8], b: &[u8]) -> Option<Expression>
    ensures { result ≡ spec.double_of signals.now width a.now sign.now b.now }
{
    let op = operator_of(sign)?;
    let first = operand_of(signals, width, a)?;
    let second = operand_of(signals, width, b)?;
    both_of(op, first, second)
}

#[tactic(auto, unfolding(crate::specs::Form::expression_of))]
fn expression_of(signals: &[Signal], width: u32, text: &[u8]) -> Option<Expression>
    ensures { result ≡ spec.expression_of signals.now width text.now }
{
    match cut(text) {
        Some((a, rest)) => {
            let (sign, b) = cut(rest)?;
            double_of(signals, width, a, sign, b)
        }
        None => Some(Expression::Just(operand_of(signals, width, text)?)),
    }
}

/// The target and the value of `s.NAME @= E`.
#[tactic(auto, unfolding(crate::specs::Form::assignment_of))]
pub(crate) fn assignment_of(signals: &[Signal], line: &[u8]) -> Option<(usize, Expression)>
    ensures { result ≡ spec.assignment_of signals.now line.now }
{
    let text = without_prefix(line, b"      s.")?;
    let (name, rest) = cut(text)?;
    let value = without_prefix(rest, b"@= ")?;
    let target = index_of(signals, name)?;
    let width = width_at(signals, target)?;
    let value = expression_of(signals, width, value)?;
    Some((target, value))
}

fn width_at(signals: &[Signal], index: usize) -> Option<u32>
    ensures { result ≡ spec.width_at signals.now index }
{
    Some(signals.get(index)?.width)
}

/// The name of `def NAME():`.
#[tactic(auto, unfolding(crate::specs::Form::block_name))]
pub(crate) fn block_name(line: &[u8]) -> Option<&[u8]>
    ensures { option_copied result ≡ spec.block_name line.now }
{
    let text = without_prefix(line, b"    def ")?;
    let name = without_ending(text, b"():")?;
    if is_new_name(name) { Some(name) } else { None }
}
