//! Bits, slices and elements.
ghost use Rattle.std.specs.Prelude.{◌≡◌};
ghost use Rattle.pm_elab.specs.Attributes as spec;
ghost use Rattle.pm_elab.specs.Elab.{Gives};
ghost use Rattle.pm_names.specs.Found.{found_in, value_of};

use crate::found::Found;
use pm_design::Part;
use pm_elab::item;
use pm_values::{BuildFault, Form, Reference, Taken, Value, copy};
use std::alloc::Global;

/// The bit of the reference at an index from 0, or `IntRange`.
#[tactic(auto, unfolding(pm_elab::specs::Attributes::bit))]
pub fn bit(line: u32, reference: &Reference, index: i64) -> Result<Reference, BuildFault>
    ensures { Gives (spec.bit line reference.now index) result }
{
    if index < 0 || reference.part.width as i64 <= index {
        return Err(BuildFault::IntRange(line));
    }
    let lo = reference
        .part
        .lo
        .checked_add(index as u32)
        .ok_or(BuildFault::NoMemory)?;
    Ok(Reference {
        part: Part {
            lo,
            width: 1,
            ..reference.part
        },
        shape: None,
        role: reference.role,
        form: Form::Bit,
    })
}

/// The bits from `lo` to `hi - 1`, at least one, or `IntRange`.
#[tactic(auto, unfolding(pm_elab::specs::Attributes::bits_between))]
pub fn bits_between(
    line: u32,
    reference: &Reference,
    lo: i64,
    hi: i64,
) -> Result<Reference, BuildFault>
    ensures { Gives (spec.bits_between line reference.now lo hi) result }
{
    if lo < 0 || hi <= lo || (reference.part.width as i64) < hi {
        return Err(BuildFault::IntRange(line));
    }
    let lowest = reference
        .part
        .lo
        .checked_add(lo as u32)
        .ok_or(BuildFault::NoMemory)?;
    Ok(Reference {
        part: Part {
            lo: lowest,
            width: (hi - lo) as u32,
            ..reference.part
        },
        shape: None,
        role: reference.role,
        form: Form::Slice,
    })
}

/// Refuses a value that has no elements: only lists and signals have some.
#[tactic(auto, unfolding(pm_elab::specs::Attributes::indexable))]
pub fn indexable(line: u32, value: &Value) -> Result<(), BuildFault>
    ensures { result ≡ spec.indexable line value.now }
{
    match value {
        Value::Items(_) | Value::Taken(Taken::Signal(_)) | Value::Taken(Taken::FarSignal(_)) => Ok(
            (),
        ),
        _ => Err(BuildFault::WrongKind(line)),
    }
}

/// Refuses a value that has no slices: only signals have some.
#[tactic(auto, unfolding(pm_elab::specs::Attributes::sliceable))]
pub fn sliceable(line: u32, value: &Value) -> Result<(), BuildFault>
    ensures { result ≡ spec.sliceable line value.now }
{
    match value {
        Value::Taken(Taken::Signal(_)) | Value::Taken(Taken::FarSignal(_)) => Ok(()),
        _ => Err(BuildFault::WrongKind(line)),
    }
}

// The element of a list, copied, or the bit of a signal.
#[tactic(auto, unfolding(pm_elab::specs::Attributes::element))]
fn made_element(alloc: Global, line: u32, value: &Value, index: i64) -> Result<Value, BuildFault>
    ensures { Gives (spec.element line value.now index) result }
{
    match value {
        Value::Items(items) => {
            let value = item(line, items, index)?;
            Ok(copy(alloc, value)?)
        }
        Value::Taken(Taken::Signal(reference)) => {
            Ok(Value::Taken(Taken::Signal(bit(line, reference, index)?)))
        }
        Value::Taken(Taken::FarSignal(reference)) => {
            Ok(Value::Taken(Taken::FarSignal(bit(line, reference, index)?)))
        }
        _ => Err(BuildFault::WrongKind(line)),
    }
}

#[tactic(auto, unfolding(pm_elab::specs::Attributes::element))]
fn kept_element<'a>(
    alloc: Global,
    line: u32,
    value: &'a Value,
    index: i64,
) -> Result<Found<'a>, BuildFault>
    ensures { Gives (spec.element line value.now index) (found_in result) }
{
    match value {
        Value::Items(items) => Ok(Found::Kept(item(line, items, index)?)),
        _ => Ok(Found::Made(made_element(alloc, line, value, index)?)),
    }
}

/// The element of a list, or the bit of a signal.
pub fn element<'a>(
    alloc: Global,
    line: u32,
    base: &Found<'a>,
    index: i64,
) -> Result<Found<'a>, BuildFault>
    ensures { Gives (spec.element line (value_of base.now) index) (found_in result) }
{
    match base {
        Found::Kept(value) => kept_element(alloc, line, *value, index),
        Found::Made(value) => Ok(Found::Made(made_element(alloc, line, value, index)?)),
    }
}

/// The slice of a signal.
#[tactic(auto, unfolding(pm_elab::specs::Attributes::slice))]
pub fn slice(line: u32, value: &Value, lo: i64, hi: i64) -> Result<Value, BuildFault>
    ensures { Gives (spec.slice line value.now lo hi) result }
{
    match value {
        Value::Taken(Taken::Signal(reference)) => Ok(Value::Taken(Taken::Signal(bits_between(
            line, reference, lo, hi,
        )?))),
        Value::Taken(Taken::FarSignal(reference)) => Ok(Value::Taken(Taken::FarSignal(bits_between(
            line, reference, lo, hi,
        )?))),
        _ => Err(BuildFault::WrongKind(line)),
    }
}
