//! Connections of two ends.
ghost use Rattle.std.specs.Prelude.{◌≡◌};
ghost use Rattle.pm_elab.specs.Elab.{Changes};
ghost use Rattle.pm_elab.specs.Connections as spec;

use crate::types::{equal_calls, same_type};
use pm_bits::Bits;
use pm_design::{Bind, Callee, Join, Part, Tie};
use pm_elab::{Frame, MadeKind, constant_of};
use pm_values::{BuildFault, Reference, Taken, Value, ValueType};
use std::alloc::Global;

/// Whether the part is the component's own `reset`.
#[tactic(auto, unfolding(pm_elab::specs::Connections::is_reset))]
fn is_reset(part: &Part) -> bool
    ensures { result ≡ spec.is_reset part.now }
{
    part.owner == 0 && part.signal == 0
}

fn type_of_reference(reference: &Reference) -> ValueType
    ensures { result ≡ spec.type_of_reference reference.now }
{
    ValueType {
        width: reference.part.width,
        shape: reference.shape,
    }
}

/// Connects two signals.
#[tactic(auto, unfolding(pm_elab::specs::Connections::join_signals))]
fn join_signals(
    a: &Reference,
    b: &Reference,
    frame: &mut Frame,
    line: u32,
) -> Result<(), BuildFault>
    ensures { Changes (spec.join_signals a.now b.now line frame.old) result frame.new }
{
    if is_reset(&a.part) || is_reset(&b.part) {
        return Err(BuildFault::WrongKind(line));
    }
    let equal_types = same_type(type_of_reference(a), type_of_reference(b));
    frame.kind.joins.push(Join {
        line,
        a: a.part,
        b: b.part,
        equal_types,
    })?;
    Ok(())
}

/// Ties a signal to a constant, or to none that fits it.
#[tactic(auto, unfolding(pm_elab::specs::Connections::tie))]
fn tie(
    reference: &Reference,
    value: Option<Bits>,
    frame: &mut Frame,
    line: u32,
) -> Result<(), BuildFault>
    ensures { Changes (spec.tie reference.now value line frame.old) result frame.new }
{
    if is_reset(&reference.part) {
        return Err(BuildFault::WrongKind(line));
    }
    frame.kind.ties.push(Tie {
        line,
        part: reference.part,
        value,
    })?;
    Ok(())
}

/// An integer as a constant of a signal.
#[tactic(auto, unfolding(pm_elab::specs::Connections::tied_int))]
fn tied_int(reference: &Reference, number: i64) -> Option<Bits>
    ensures { result ≡ spec.tied_int reference.now number }
{
    match reference.shape {
        Some(_) => None,
        None => constant_of(reference.part.width, number),
    }
}

/// A constant as one of a signal.
#[tactic(auto, unfolding(pm_elab::specs::Connections::tied_constant))]
fn tied_constant(reference: &Reference, bits: Bits) -> Option<Bits>
    ensures { result ≡ spec.tied_constant reference.now bits }
{
    match reference.shape {
        Some(_) => None,
        None => {
            if bits.width() == reference.part.width {
                Some(bits)
            } else {
                None
            }
        }
    }
}

/// Ties a signal to an integer.
#[tactic(auto, unfolding(pm_elab::specs::Connections::tie_int))]
fn tie_int(
    reference: &Reference,
    number: i64,
    frame: &mut Frame,
    line: u32,
) -> Result<(), BuildFault>
    ensures { Changes (spec.tie_int reference.now number line frame.old) result frame.new }
{
    tie(reference, tied_int(reference, number), frame, line)
}

/// Ties a signal to a constant.
#[tactic(auto, unfolding(pm_elab::specs::Connections::tie_constant))]
fn tie_constant(
    reference: &Reference,
    bits: Bits,
    frame: &mut Frame,
    line: u32,
) -> Result<(), BuildFault>
    ensures { Changes (spec.tie_constant reference.now bits line frame.old) result frame.new }
{
    tie(reference, tied_constant(reference, bits), frame, line)
}

#[tactic(auto, unfolding(pm_elab::specs::Connections::is_caller))]
fn is_caller(callee: Callee) -> bool
    ensures { result ≡ spec.is_caller callee }
{
    match callee {
        Callee::Port(_) | Callee::ChildPort(_, _) => true,
        Callee::Own(_) | Callee::Child(_, _) => false,
    }
}

/// Connects a caller port to a method or to another caller port.
#[tactic(auto, unfolding(pm_elab::specs::Connections::bind))]
fn bind(
    alloc: Global,
    kinds: &[MadeKind],
    a: Callee,
    b: Callee,
    frame: &mut Frame,
    line: u32,
) -> Result<(), BuildFault>
    ensures { Changes (spec.bind kinds.now a b line frame.old) result frame.new }
{
    if !is_caller(a) && !is_caller(b) {
        return Err(BuildFault::WrongKind(line));
    }
    let equal_types = equal_calls(alloc, kinds, frame, a, b)?;
    frame.kind.binds.push(Bind {
        line,
        a,
        b,
        equal_types,
    })?;
    Ok(())
}

/// Connects a signal to what is at the other end.
#[tactic(auto, unfolding(pm_elab::specs::Connections::signal_end))]
pub(crate) fn signal_end(
    reference: &Reference,
    other: &Value,
    frame: &mut Frame,
    line: u32,
) -> Result<(), BuildFault>
    ensures { Changes (spec.signal_end reference.now other.now line frame.old) result frame.new }
{
    match other {
        Value::Taken(Taken::Signal(signal)) => join_signals(reference, signal, frame, line),
        Value::Int(number) => tie_int(reference, *number, frame, line),
        Value::Const(bits) => tie_constant(reference, *bits, frame, line),
        _ => Err(BuildFault::WrongKind(line)),
    }
}

/// Ties what is at the other end to an integer.
#[tactic(auto, unfolding(pm_elab::specs::Connections::int_end))]
pub(crate) fn int_end(
    number: &i64,
    other: &Value,
    frame: &mut Frame,
    line: u32,
) -> Result<(), BuildFault>
    ensures { Changes (spec.int_end number.now other.now line frame.old) result frame.new }
{
    match other {
        Value::Taken(Taken::Signal(signal)) => tie_int(signal, *number, frame, line),
        _ => Err(BuildFault::WrongKind(line)),
    }
}

/// Ties what is at the other end to a constant.
#[tactic(auto, unfolding(pm_elab::specs::Connections::constant_end))]
pub(crate) fn constant_end(
    bits: Bits,
    other: &Value,
    frame: &mut Frame,
    line: u32,
) -> Result<(), BuildFault>
    ensures { Changes (spec.constant_end bits other.now line frame.old) result frame.new }
{
    match other {
        Value::Taken(Taken::Signal(signal)) => tie_constant(signal, bits, frame, line),
        _ => Err(BuildFault::WrongKind(line)),
    }
}

/// Connects a method or a caller port to what is at the other end.
#[tactic(auto, unfolding(pm_elab::specs::Connections::method_end))]
pub(crate) fn method_end(
    alloc: Global,
    kinds: &[MadeKind],
    callee: Callee,
    other: &Value,
    frame: &mut Frame,
    line: u32,
) -> Result<(), BuildFault>
    ensures { Changes (spec.method_end kinds.now callee other.now line frame.old) result frame.new }
{
    match other {
        Value::Taken(Taken::Method(method)) => bind(alloc, kinds, callee, *method, frame, line),
        _ => Err(BuildFault::WrongKind(line)),
    }
}

/// Connects two ends: signals, a signal and a constant, or a caller port and what it calls.
#[tactic(auto, unfolding(pm_elab::specs::Connections::ends))]
pub(crate) fn ends(
    alloc: Global,
    kinds: &[MadeKind],
    a: &Value,
    b: &Value,
    frame: &mut Frame,
    line: u32,
) -> Result<(), BuildFault>
    ensures { Changes (spec.ends kinds.now a.now b.now line frame.old) result frame.new }
{
    match a {
        Value::Taken(Taken::Signal(signal)) => signal_end(signal, b, frame, line),
        Value::Taken(Taken::Method(callee)) => method_end(alloc, kinds, *callee, b, frame, line),
        Value::Int(number) => int_end(number, b, frame, line),
        Value::Const(bits) => constant_end(*bits, b, frame, line),
        _ => Err(BuildFault::WrongKind(line)),
    }
}
