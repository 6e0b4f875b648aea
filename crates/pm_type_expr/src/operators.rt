//! Operators on values.
ghost use Rattle.std.specs.Prelude.{◌≡◌};
ghost use Rattle.pm_typing.specs.Counted.{Counts};
ghost use Rattle.pm_typing.specs.Operators as spec;
ghost use Rattle.pm_typing.specs.Things.{thing_in};

use crate::operands::{bits_of, fitted, is_bits};
use pm_bits::Op;
use pm_design::Ex;
use pm_io::Boxed;
use pm_syn::{BinaryOp, UnaryOp};
use pm_typing::{Operand, Tally, Thing, TypeFault};
use pm_values::{ValueType, applied, operated};
use std::alloc::Global;

/// The integer of a literal, which has at most 63 bits.
#[tactic(auto, unfolding(pm_typing::specs::Operators::literal))]
pub(crate) fn literal<'a>(line: u32, number: u128) -> Result<Thing<'a>, TypeFault>
    ensures { thing_in result ≡ spec.literal line number }
{
    match i64::try_from(number) {
        Ok(number) => Ok(Thing::Int(number)),
        Err(_) => Err(TypeFault::ConstRange(line)),
    }
}

fn integer_or<'a>(line: u32, number: Option<i64>) -> Result<Thing<'a>, TypeFault>
    ensures { thing_in result ≡ spec.integer_or line number }
{
    match number {
        Some(number) => Ok(Thing::Int(number)),
        None => Err(TypeFault::ConstRange(line)),
    }
}

// The operator that typed bodies have for it.
#[tactic(auto, unfolding(pm_typing::specs::Operators::op_of))]
fn op_of(op: BinaryOp) -> Option<Op>
    ensures { result ≡ spec.op_of op }
{
    match op {
        BinaryOp::Or | BinaryOp::BitOr => Some(Op::Or),
        BinaryOp::And | BinaryOp::BitAnd => Some(Op::And),
        BinaryOp::Eq => Some(Op::Eq),
        BinaryOp::Ne => Some(Op::Ne),
        BinaryOp::Lt => Some(Op::Lt),
        BinaryOp::Le => Some(Op::Le),
        BinaryOp::Gt => Some(Op::Gt),
        BinaryOp::Ge => Some(Op::Ge),
        BinaryOp::BitXor => Some(Op::Xor),
        BinaryOp::Shl => Some(Op::Shl),
        BinaryOp::Shr => Some(Op::Shr),
        BinaryOp::Add => Some(Op::Add),
        BinaryOp::Sub => Some(Op::Sub),
        BinaryOp::Mul => Some(Op::Mul),
        BinaryOp::FloorDiv | BinaryOp::Mod | BinaryOp::Pow => None,
    }
}

// Whether the operator takes operands of the type.
#[tactic(auto, unfolding(pm_typing::specs::Operators::suits))]
fn suits(op: BinaryOp, ty: ValueType) -> bool
    ensures { result ≡ spec.suits op ty }
{
    match op {
        BinaryOp::Or | BinaryOp::And => is_bits(ty) && ty.width == 1,
        BinaryOp::Eq | BinaryOp::Ne => true,
        _ => is_bits(ty),
    }
}

// The type of a result, by the operands' type.
#[tactic(auto, unfolding(pm_typing::specs::Operators::result_type))]
fn result_type(op: Op, ty: ValueType) -> ValueType
    ensures { result ≡ spec.result_type op ty }
{
    match op {
        Op::Eq | Op::Ne | Op::Lt | Op::Le | Op::Gt | Op::Ge => bits_of(1),
        _ => ty,
    }
}

#[tactic(auto, unfolding(pm_typing::specs::Operators::combined))]
fn combined<'a>(
    alloc: Global,
    tally: &mut Tally,
    op: Op,
    e: Boxed<Ex>,
    f: Boxed<Ex>,
    ty: ValueType,
) -> Result<Thing<'a>, TypeFault>
    ensures { Counts (spec.combined op e f ty tally.old) (thing_in result) tally.new }
{
    tally.node()?;
    let e = Boxed::new(alloc, Ex::Bin(op, e, f))?;
    Ok(Thing::Bits(e, result_type(op, ty)))
}

fn joined_at<'a>(
    alloc: Global,
    tally: &mut Tally,
    line: u32,
    op: Op,
    ty: ValueType,
    x: Operand,
    y: Operand,
) -> Result<Thing<'a>, TypeFault>
    ensures { Counts (spec.joined_at line op ty x y tally.old) (thing_in result) tally.new }
{
    let e = fitted(alloc, tally, line, ty, x)?;
    let f = fitted(alloc, tally, line, ty, y)?;
    combined(alloc, tally, op, e, f, ty)
}

#[tactic(auto, unfolding(pm_typing::specs::Operators::joined))]
fn joined<'a>(
    alloc: Global,
    tally: &mut Tally,
    line: u32,
    op: BinaryOp,
    ty: ValueType,
    x: Operand,
    y: Operand,
) -> Result<Thing<'a>, TypeFault>
    ensures { Counts (spec.operation_if line op (spec.op_of op) ty x y tally.old) (thing_in result) tally.new }
{
    match op_of(op) {
        Some(made) => {
            if suits(op, ty) {
                joined_at(alloc, tally, line, made, ty, x, y)
            } else {
                Err(TypeFault::WidthMismatch(line))
            }
        }
        None => Err(TypeFault::NotAllowedHere(line)),
    }
}

/// An operation on two values. On integers alone it is computed.
#[tactic(auto, unfolding(pm_typing::specs::Operators::operation))]
pub(crate) fn operation<'a>(
    alloc: Global,
    tally: &mut Tally,
    line: u32,
    op: BinaryOp,
    x: Operand,
    y: Operand,
) -> Result<Thing<'a>, TypeFault>
    ensures { Counts (spec.operation line op x y tally.old) (thing_in result) tally.new }
{
    match x {
        Operand::Int(first) => match y {
            Operand::Int(second) => integer_or(line, operated(op, first, second)),
            Operand::Bits(f, ty) => {
                let x = Operand::Int(first);
                joined(alloc, tally, line, op, ty, x, Operand::Bits(f, ty))
            }
        },
        Operand::Bits(e, ty) => joined(alloc, tally, line, op, ty, Operand::Bits(e, ty), y),
    }
}

fn complement_suits(op: UnaryOp, ty: ValueType) -> bool
    ensures { result ≡ spec.complement_suits op ty }
{
    match op {
        UnaryOp::Not => is_bits(ty) && ty.width == 1,
        UnaryOp::Minus | UnaryOp::Plus | UnaryOp::Invert => is_bits(ty),
    }
}

#[tactic(auto, unfolding(pm_typing::specs::Operators::complement))]
fn complement<'a>(
    alloc: Global,
    tally: &mut Tally,
    line: u32,
    op: UnaryOp,
    e: Boxed<Ex>,
    ty: ValueType,
) -> Result<Thing<'a>, TypeFault>
    ensures { Counts (spec.complement line op e ty tally.old) (thing_in result) tally.new }
{
    if !complement_suits(op, ty) {
        return Err(TypeFault::WidthMismatch(line));
    }
    tally.node()?;
    Ok(Thing::Bits(Boxed::new(alloc, Ex::Not(e))?, ty))
}

fn applied_bits<'a>(
    alloc: Global,
    tally: &mut Tally,
    line: u32,
    op: UnaryOp,
    e: Boxed<Ex>,
    ty: ValueType,
) -> Result<Thing<'a>, TypeFault>
    ensures { Counts (spec.applied_bits line op e ty tally.old) (thing_in result) tally.new }
{
    match op {
        UnaryOp::Minus | UnaryOp::Plus => Err(TypeFault::NotAllowedHere(line)),
        UnaryOp::Invert | UnaryOp::Not => complement(alloc, tally, line, op, e, ty),
    }
}

/// An operator before a value. On an integer it is computed.
#[tactic(auto, unfolding(pm_typing::specs::Operators::application))]
pub(crate) fn application<'a>(
    alloc: Global,
    tally: &mut Tally,
    line: u32,
    op: UnaryOp,
    operand: Operand,
) -> Result<Thing<'a>, TypeFault>
    ensures { Counts (spec.application line op operand tally.old) (thing_in result) tally.new }
{
    match operand {
        Operand::Int(number) => integer_or(line, applied(op, number)),
        Operand::Bits(e, ty) => applied_bits(alloc, tally, line, op, e, ty),
    }
}

#[tactic(auto, unfolding(pm_typing::specs::Operators::selected))]
fn selected<'a>(
    alloc: Global,
    tally: &mut Tally,
    c: Boxed<Ex>,
    e: Boxed<Ex>,
    f: Boxed<Ex>,
    ty: ValueType,
) -> Result<Thing<'a>, TypeFault>
    ensures { Counts (spec.selected c e f ty tally.old) (thing_in result) tally.new }
{
    tally.node()?;
    Ok(Thing::Bits(Boxed::new(alloc, Ex::Cond(c, e, f))?, ty))
}

#[tactic(auto, unfolding(pm_typing::specs::Operators::selection))]
fn selection<'a>(
    alloc: Global,
    tally: &mut Tally,
    line: u32,
    c: Boxed<Ex>,
    ty: ValueType,
    x: Operand,
    y: Operand,
) -> Result<Thing<'a>, TypeFault>
    ensures { Counts (spec.selection line c ty x y tally.old) (thing_in result) tally.new }
{
    let e = fitted(alloc, tally, line, ty, x)?;
    let f = fitted(alloc, tally, line, ty, y)?;
    selected(alloc, tally, c, e, f, ty)
}

/// One of two values, by a condition.
#[tactic(auto, unfolding(pm_typing::specs::Operators::either))]
pub(crate) fn either<'a>(
    alloc: Global,
    tally: &mut Tally,
    line: u32,
    c: Boxed<Ex>,
    x: Operand,
    y: Operand,
) -> Result<Thing<'a>, TypeFault>
    ensures { Counts (spec.either line c x y tally.old) (thing_in result) tally.new }
{
    match x {
        Operand::Int(first) => match y {
            Operand::Int(_) => Err(TypeFault::WidthMismatch(line)),
            Operand::Bits(f, ty) => {
                let x = Operand::Int(first);
                selection(alloc, tally, line, c, ty, x, Operand::Bits(f, ty))
            }
        },
        Operand::Bits(e, ty) => selection(alloc, tally, line, c, ty, Operand::Bits(e, ty), y),
    }
}
