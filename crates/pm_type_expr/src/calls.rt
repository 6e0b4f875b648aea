//! Calls of types, and values for places of several types.
ghost use Rattle.std.specs.Prelude.{◌≡◌, [], map, IfOk};
ghost use Rattle.pm_elab.specs.Values as elab;
ghost use Rattle.pm_typing.specs.Calls as spec;
ghost use Rattle.pm_typing.specs.Counted.{Counts};
ghost use Rattle.pm_typing.specs.Sites.{scope_of};
ghost use Rattle.pm_typing.specs.Things.{thing_in};

use crate::functions::only_integer;
use crate::operands::{bits_of, constant, fitted};
use crate::queue::Queue;
use pm_bits::Bits;
use pm_design::{Callee, Ex, Field};
use pm_io::{Boxed, List, NoMemory};
use pm_typing::{Operand, Scope, Tally, Thing, TypeFault};
use pm_values::ValueType;
use std::alloc::Global;

fn literal_if<'a>(
    alloc: Global,
    tally: &mut Tally,
    line: u32,
    width: u32,
    bits: Option<Bits>,
) -> Result<Thing<'a>, TypeFault>
    ensures { Counts (spec.literal_if line width bits tally.old) (thing_in result) tally.new }
{
    match bits {
        Some(bits) => {
            tally.node()?;
            Ok(Thing::Bits(Boxed::new(alloc, Ex::Const(bits))?, bits_of(width)))
        }
        None => Err(TypeFault::ConstRange(line)),
    }
}

fn literal_of(width: u32, number: u128) -> Option<Bits>
    ensures { result ≡ elab.literal_of width number }
{
    Bits::new(width, number)
}

/// The constant that a literal is, which may have more than 63 bits.
#[tactic(auto, unfolding(pm_typing::specs::Calls::literal_constant))]
pub(crate) fn literal_constant<'a>(
    alloc: Global,
    tally: &mut Tally,
    line: u32,
    width: u32,
    number: u128,
) -> Result<Thing<'a>, TypeFault>
    ensures { Counts (spec.literal_constant line width number tally.old) (thing_in result) tally.new }
{
    literal_if(alloc, tally, line, width, literal_of(width, number))
}

#[tactic(auto, unfolding(pm_typing::specs::Calls::constant_thing))]
fn constant_thing<'a>(
    alloc: Global,
    tally: &mut Tally,
    line: u32,
    width: u32,
    number: i64,
) -> Result<Thing<'a>, TypeFault>
    ensures { Counts (spec.constant_thing line width number tally.old) (thing_in result) tally.new }
{
    let e = constant(alloc, tally, line, width, number)?;
    Ok(Thing::Bits(e, bits_of(width)))
}

/// The constant of a width that the one argument, an integer, is.
#[tactic(auto, unfolding(pm_typing::specs::Calls::constant_call))]
pub(crate) fn constant_call<'a>(
    alloc: Global,
    tally: &mut Tally,
    line: u32,
    width: u32,
    named: bool,
    operands: &[Operand],
) -> Result<Thing<'a>, TypeFault>
    ensures { Counts (spec.constant_call line width named operands.now tally.old) (thing_in result) tally.new }
{
    if named {
        return Err(TypeFault::NotAllowedHere(line));
    }
    let number = only_integer(line, operands)?;
    constant_thing(alloc, tally, line, width, number)
}

/// Expressions that fit the types, one for each.
#[tactic(auto, unfolding(pm_typing::specs::Calls::fitted_from), using(crate::proofs::ForPlaces::fitted_none))]
pub fn fitted_values(
    alloc: Global,
    tally: &mut Tally,
    line: u32,
    types: &[ValueType],
    operands: List<Operand>,
) -> Result<List<Ex>, TypeFault>
    ensures { Counts (spec.fitted_from line [] types.now operands tally.old) result tally.new }
{
    let mut queue = Queue::new(alloc, operands)?;
    let mut values = List::new(alloc);
    for ty in types {
        let Some(operand) = queue.next() else {
            return Ok(values);
        };
        let e = fitted(alloc, tally, line, *ty, operand)?;
        values.push(e.into_inner())?;
    }
    Ok(values)
}

fn field_type(field: &Field) -> ValueType
    ensures { result ≡ spec.field_type field.now }
{
    ValueType {
        width: field.width,
        shape: field.shape,
    }
}

fn types_of(alloc: Global, fields: &[Field]) -> Result<List<ValueType>, NoMemory>
    ensures { IfOk result (λ types. types ≡ map spec.field_type fields.now) }
{
    let mut types = List::new(alloc);
    for field in fields {
        types.push(field_type(field))?;
    }
    Ok(types)
}

/// The types of a bitstruct's fields.
#[tactic(auto, unfolding(pm_typing::specs::Calls::field_types))]
pub(crate) fn field_types(
    alloc: Global,
    scope: &Scope<'_>,
    shape: u32,
) -> Result<List<ValueType>, NoMemory>
    ensures { IfOk result (λ types. types ≡ spec.field_types (scope_of scope.now) shape) }
{
    match scope.design.design.shapes.get(shape as usize) {
        Some(shape) => types_of(alloc, shape.fields.as_slice()),
        None => Ok(List::new(alloc)),
    }
}

#[tactic(auto, unfolding(pm_typing::specs::Calls::packed))]
fn packed<'a>(
    alloc: Global,
    tally: &mut Tally,
    line: u32,
    ty: ValueType,
    fields: &[ValueType],
    operands: List<Operand>,
) -> Result<Thing<'a>, TypeFault>
    ensures { Counts (spec.packed line ty fields.now operands tally.old) (thing_in result) tally.new }
{
    let values = fitted_values(alloc, tally, line, fields, operands)?;
    tally.node()?;
    Ok(Thing::Bits(Boxed::new(alloc, Ex::Cat(values))?, ty))
}

/// A bitstruct of a value for each field.
#[tactic(auto, unfolding(pm_typing::specs::Calls::struct_value))]
pub(crate) fn struct_value<'a>(
    alloc: Global,
    tally: &mut Tally,
    line: u32,
    ty: ValueType,
    fields: &[ValueType],
    named: bool,
    operands: List<Operand>,
) -> Result<Thing<'a>, TypeFault>
    ensures { Counts (spec.struct_value line ty fields.now named operands tally.old) (thing_in result) tally.new }
{
    if named {
        return Err(TypeFault::NotAllowedHere(line));
    }
    if operands.len() != fields.len() {
        return Err(TypeFault::WidthMismatch(line));
    }
    packed(alloc, tally, line, ty, fields, operands)
}

/// Whether a method is ready.
#[tactic(auto, unfolding(pm_typing::specs::Calls::ready_call))]
pub(crate) fn ready_call<'a>(
    alloc: Global,
    tally: &mut Tally,
    line: u32,
    callee: Callee,
    bare: bool,
) -> Result<Thing<'a>, TypeFault>
    ensures { Counts (spec.ready_call line callee bare tally.old) (thing_in result) tally.new }
{
    if !bare {
        return Err(TypeFault::NotAllowedHere(line));
    }
    tally.node()?;
    Ok(Thing::Bits(Boxed::new(alloc, Ex::Ready(callee))?, bits_of(1)))
}
