//! Literals, operators on values, and ranges.
ghost use Rattle.std.specs.Prelude.{◌≡◌};
ghost use Rattle.std.specs.Option.{option_copied};
ghost use Rattle.pm_elab.specs.Expressions as spec;
ghost use Rattle.pm_values.specs.Integers.{truth as truth_of};

use crate::function::only;
use pm_design::Term;
use pm_elab::{Given, constant, literal_constant};
use pm_syn::BinaryOp;
use pm_values::{BuildFault, Range, Value, copy_term};

/// The integer of a literal, which has at most 63 bits.
#[tactic(auto, unfolding(pm_elab::specs::Expressions::literal))]
pub fn literal(line: u32, number: u128) -> Result<Value, BuildFault>
    ensures { result ≡ spec.literal line number }
{
    match i64::try_from(number) {
        Ok(number) => Ok(Value::Int(number)),
        Err(_) => Err(BuildFault::IntRange(line)),
    }
}

/// 1 for true and 0 for false.
pub fn truth(holds: bool) -> i64
    ensures { result ≡ truth_of holds }
{
    if holds { 1 } else { 0 }
}

/// The integer, or `IntRange` if there is none.
pub fn integer_or(line: u32, number: Option<i64>) -> Result<Value, BuildFault>
    ensures { result ≡ spec.integer_or line number }
{
    match number {
        Some(number) => Ok(Value::Int(number)),
        None => Err(BuildFault::IntRange(line)),
    }
}

/// Whether the first operand settles the result.
#[tactic(auto, unfolding(pm_elab::specs::Expressions::settles))]
pub fn settles(op: BinaryOp, first: i64) -> bool
    ensures { result ≡ spec.settles op first }
{
    match op {
        BinaryOp::Or => first != 0,
        BinaryOp::And => first == 0,
        _ => false,
    }
}

/// The term of a constraint that the value is, if it is one.
#[tactic(auto, unfolding(pm_elab::specs::Expressions::term_in))]
pub fn term_in(value: &Value) -> Option<&Term>
    ensures { option_copied result ≡ spec.term_in value.now }
{
    match value {
        Value::Term(term) => Some(term),
        _ => None,
    }
}

/// A constraint of two terms.
#[tactic(auto, unfolding(pm_elab::specs::Expressions::rule))]
pub fn rule(line: u32, op: BinaryOp, term: &Term, value: &Value) -> Result<Value, BuildFault>
    ensures { result ≡ spec.rule line op term.now value.now }
{
    match (op, term_in(value)) {
        (BinaryOp::Lt, Some(other)) => Ok(Value::Rule(copy_term(term), copy_term(other))),
        (BinaryOp::Gt, Some(other)) => Ok(Value::Rule(copy_term(other), copy_term(term))),
        _ => Err(BuildFault::WrongKind(line)),
    }
}

/// Whether terms are compared by the operator.
#[tactic(auto, unfolding(pm_elab::specs::Expressions::orders))]
pub fn orders(op: BinaryOp) -> bool
    ensures { result ≡ spec.orders op }
{
    match op {
        BinaryOp::Lt | BinaryOp::Gt => true,
        _ => false,
    }
}

fn range_by(line: u32, start: i64, stop: i64, step: i64) -> Result<Range, BuildFault>
    ensures { result ≡ spec.range_by line start stop step }
{
    match Range::new(start, stop, step) {
        Some(range) => Ok(range),
        None => Err(BuildFault::IntRange(line)),
    }
}

/// The range of one to three integers.
#[tactic(auto, unfolding(pm_elab::specs::Expressions::range_of))]
pub fn range_of(line: u32, numbers: &[i64]) -> Result<Range, BuildFault>
    ensures { result ≡ spec.range_of line numbers.now }
{
    match numbers {
        [stop] => range_by(line, 0, *stop, 1),
        [start, stop] => range_by(line, *start, *stop, 1),
        [start, stop, step] => range_by(line, *start, *stop, *step),
        _ => Err(BuildFault::BadArguments(line)),
    }
}

/// The constant of a width that the one value is.
#[tactic(auto, unfolding(pm_elab::specs::Expressions::constant_given))]
pub fn constant_given(line: u32, width: u32, given: &[Given]) -> Result<Value, BuildFault>
    ensures { result ≡ spec.constant_given line width given.now }
{
    let value = only(line, given)?;
    Ok(Value::Const(constant(line, width, value)?))
}

/// The constant of a width that a literal is.
#[tactic(auto, unfolding(pm_elab::specs::Expressions::constant_literal))]
pub fn constant_literal(line: u32, width: u32, number: u128) -> Result<Value, BuildFault>
    ensures { result ≡ spec.constant_literal line width number }
{
    Ok(Value::Const(literal_constant(line, width, number)?))
}
