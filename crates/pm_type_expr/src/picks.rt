//! Elements by an index that is Bits.
ghost use Rattle.std.specs.Prelude.{◌≡◌, ◌^◌, [], min, IfOk};
ghost use Rattle.pm_typing.specs.Counted.{Counts, Gives};
ghost use Rattle.pm_typing.specs.Operands.{typed};
ghost use Rattle.pm_typing.specs.Picks as spec;
ghost use Rattle.pm_typing.specs.Things.{thing_in, thing_of};

use crate::names::seen;
use crate::operands::{is_bits, same_type};
use crate::references::{cut_part, element_type, type_of};
use pm_design::Ex;
use pm_io::{Boxed, List, NoMemory};
use pm_typing::{Cut, Tally, Thing, TypeFault};
use pm_values::{Form, Reference, Value, ValueType};
use std::alloc::Global;

fn signal_at(line: u32, thing: Thing<'_>) -> Result<Reference, TypeFault>
    ensures { result ≡ spec.signal_at line (thing_of thing.entry) }
{
    match thing {
        Thing::Signal(reference) => Ok(reference),
        _ => Err(TypeFault::NotAllowedHere(line)),
    }
}

#[tactic(auto, unfolding(pm_typing::specs::Picks::signal_seen))]
fn signal_seen(line: u32, whose: Option<u32>, value: &Value) -> Result<Reference, TypeFault>
    ensures { Gives (spec.signal_seen line whose value.now) result }
{
    let thing = seen(line, whose, value)?;
    signal_at(line, thing)
}

#[tactic(auto, unfolding(pm_typing::specs::Picks::signals_seen))]
fn signals_seen(
    alloc: Global,
    line: u32,
    whose: Option<u32>,
    values: &[Value],
) -> Result<List<Reference>, TypeFault>
    ensures { Gives (spec.signals_seen line whose [] values.now) result }
{
    let mut references = List::new(alloc);
    for value in values {
        references.push(signal_seen(line, whose, value)?)?;
    }
    Ok(references)
}

fn filled(line: u32, references: List<Reference>) -> Result<List<Reference>, TypeFault>
    ensures { result ≡ spec.filled line references }
{
    if references.is_empty() {
        Err(TypeFault::NotAllowedHere(line))
    } else {
        Ok(references)
    }
}

fn has_bits(form: Form) -> bool
    ensures { result ≡ spec.has_bits form }
{
    match form {
        Form::Whole | Form::Field => true,
        Form::Slice | Form::Bit => false,
    }
}

fn bit_part(reference: &Reference, index: u32) -> Result<Reference, NoMemory>
    ensures { IfOk result (λ part. part ≡ spec.bit_part reference.now index) }
{
    let cut = Cut {
        lo: index,
        width: 1,
        form: Form::Bit,
    };
    cut_part(cut, reference)
}

#[tactic(auto, unfolding(pm_typing::specs::Picks::bits_from), using(crate::proofs::Reached::bits_more, crate::proofs::Reached::bits_none))]
fn bit_parts(alloc: Global, reference: &Reference) -> Result<List<Reference>, NoMemory>
    ensures { IfOk result (λ parts. parts ≡ spec.bit_parts reference.now) }
{
    let mut parts = List::new(alloc);
    for index in 0..reference.part.width {
        parts.push(bit_part(reference, index)?)?;
    }
    Ok(parts)
}

// What an index chooses among.
#[tactic(auto, unfolding(pm_typing::specs::Picks::elements))]
fn elements(alloc: Global, line: u32, thing: Thing<'_>) -> Result<List<Reference>, TypeFault>
    ensures { Gives (spec.elements line (thing_of thing.entry)) result }
{
    match thing {
        Thing::Signal(reference) => {
            if has_bits(reference.form) {
                Ok(bit_parts(alloc, &reference)?)
            } else {
                Err(TypeFault::NotAllowedHere(line))
            }
        }
        Thing::Items(whose, items) => {
            let references = signals_seen(alloc, line, whose, items.as_slice())?;
            filled(line, references)
        }
        _ => Err(TypeFault::NotAllowedHere(line)),
    }
}

#[tactic(auto, unfolding(pm_typing::specs::Picks::are_alike))]
fn are_alike(references: &[Reference]) -> bool
    ensures { result ≡ spec.are_alike references.now }
{
    let ty = element_type(references);
    for reference in references {
        if !same_type(type_of(reference), ty) {
            return false;
        }
    }
    true
}

// How many of so many elements have a number that fits the width.
#[tactic(auto, using(crate::proofs::Reached::far))]
fn reached(width: u32, length: usize) -> usize
    ensures { result ≡ min length (2 ^ width) }
{
    if width < 64 {
        let count = 1u64 << width;
        if count < length as u64 {
            count as usize
        } else {
            length
        }
    } else {
        length
    }
}

// The elements whose number fits the width.
#[tactic(auto, using(crate::proofs::Reached::take_min))]
fn in_reach(
    alloc: Global,
    width: u32,
    references: &[Reference],
) -> Result<List<Reference>, NoMemory>
    ensures { IfOk result (λ parts. parts ≡ spec.in_reach width references.now) }
{
    let count = reached(width, references.len());
    Ok(List::from_slice(alloc, &references[..count])?)
}

#[tactic(auto, unfolding(pm_typing::specs::Picks::picked))]
fn picked<'a>(
    alloc: Global,
    tally: &mut Tally,
    line: u32,
    inside: bool,
    index: Boxed<Ex>,
    ty: ValueType,
    references: &[Reference],
) -> Result<Thing<'a>, TypeFault>
    ensures { Counts (spec.picked line inside (typed index ty) references.now tally.old) (thing_in result) tally.new }
{
    if !are_alike(references) {
        return Err(TypeFault::WidthMismatch(line));
    }
    if inside {
        return Err(TypeFault::NotAllowedHere(line));
    }
    let reached = in_reach(alloc, ty.width, references)?;
    tally.nodes(reached.len())?;
    Ok(Thing::Pick(index, reached))
}

/// `x[e]`, where e is Bits.
#[tactic(auto, unfolding(pm_typing::specs::Picks::dynamic))]
pub(crate) fn dynamic<'a>(
    alloc: Global,
    tally: &mut Tally,
    line: u32,
    inside: bool,
    index: Boxed<Ex>,
    ty: ValueType,
    thing: Thing<'_>,
) -> Result<Thing<'a>, TypeFault>
    ensures { Counts (spec.dynamic line inside (typed index ty) (thing_of thing.entry) tally.old) (thing_in result) tally.new }
{
    if !is_bits(ty) {
        return Err(TypeFault::WidthMismatch(line));
    }
    let references = elements(alloc, line, thing)?;
    picked(alloc, tally, line, inside, index, ty, references.as_slice())
}
