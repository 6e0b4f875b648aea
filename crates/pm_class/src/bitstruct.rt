//! Fields of bitstructs.
ghost use Rattle.std.specs.Prelude.{◌≡◌, ◌+◌, Ok, map};
ghost use Rattle.pm_elab.specs.Elab.{Elabs, Gives};
ghost use Rattle.pm_elab.specs.Files as spec;

use crate::moving::reversed;
use crate::number::number_of;
use pm_design::{Field, Shape};
use pm_elab::Elaboration;
use pm_io::{List, Text};
use pm_values::{BuildFault, ValueType};
use std::alloc::Global;

/// The sum of two widths.
fn widened(width: u32, by: u32) -> Result<u32, BuildFault>
    ensures { Gives (Ok (width + by)) result }
{
    match width.checked_add(by) {
        Some(width) => Ok(width),
        None => Err(BuildFault::NoMemory),
    }
}

/// The width of all fields.
fn width_of_fields(fields: &[Field]) -> Result<u32, BuildFault>
    ensures { Gives (Ok (spec.width_of_fields fields.now)) result }
{
    let mut width = 0;
    for field in fields {
        width = widened(width, field.width)?;
    }
    Ok(width)
}

/// A field further up.
fn raised(by: u32, field: Field) -> Result<Field, BuildFault>
    ensures { Gives (Ok (spec.raised by field)) result }
{
    let lo = widened(field.lo, by)?;
    Ok(Field {
        name: field.name,
        lo,
        width: field.width,
        shape: field.shape,
    })
}

fn all_raised(alloc: Global, by: u32, fields: List<Field>) -> Result<List<Field>, BuildFault>
    ensures { Gives (Ok (map (spec.raised by) fields)) result }
{
    let mut rest = reversed(alloc, fields)?;
    let mut fields = List::new(alloc);
    while let Some(field) = rest.pop() {
        fields.push(raised(by, field)?)?;
    }
    Ok(fields)
}

/// A further field: those before it move up by its width.
#[tactic(auto, unfolding(pm_elab::specs::Files::field_added))]
pub fn field_added(
    alloc: Global,
    fields: List<Field>,
    name: &[u8],
    ty: ValueType,
) -> Result<List<Field>, BuildFault>
    ensures { Gives (Ok (spec.field_added fields name.now ty)) result }
{
    let name = Text::from_slice(alloc, name)?;
    let mut fields = all_raised(alloc, ty.width, fields)?;
    fields.push(Field {
        name,
        lo: 0,
        width: ty.width,
        shape: ty.shape,
    })?;
    Ok(fields)
}

/// Whether a field of the name stands already.
#[tactic(auto, unfolding(pm_elab::specs::Files::has_field))]
pub fn has_field(fields: &[Field], name: &[u8]) -> bool
    ensures { result ≡ spec.has_field fields.now name.now }
{
    fields.iter().any(|field| field.name.as_slice() == name)
}

/// A field of a new name, within 128 bits in all.
#[tactic(auto, unfolding(pm_elab::specs::Files::field_put))]
pub fn field_put(
    alloc: Global,
    line: u32,
    fields: List<Field>,
    name: &[u8],
    ty: ValueType,
) -> Result<List<Field>, BuildFault>
    ensures { Gives (spec.field_put line fields name.now ty) result }
{
    let width = width_of_fields(fields.as_slice())?;
    if widened(width, ty.width)? > 128 {
        return Err(BuildFault::WidthRange(line));
    }
    if has_field(fields.as_slice(), name) {
        return Err(BuildFault::SameName(line));
    }
    field_added(alloc, fields, name, ty)
}

fn shape(alloc: Global, name: &[u8], fields: List<Field>, width: u32) -> Result<Shape, BuildFault>
    ensures { Gives (Ok (record { name = name.now; fields = fields; width = width })) result }
{
    let name = Text::from_slice(alloc, name)?;
    Ok(Shape {
        name,
        fields,
        width,
    })
}

/// Puts a bitstruct, which has a field, behind those that were made before, and gives its type.
#[tactic(auto, unfolding(pm_elab::specs::Files::shape_put))]
pub fn shape_put(
    alloc: Global,
    elaboration: &mut Elaboration,
    line: u32,
    name: &[u8],
    fields: List<Field>,
) -> Result<ValueType, BuildFault>
    ensures { Elabs (spec.shape_put line name.now fields elaboration.old) result elaboration.new }
{
    if fields.is_empty() {
        return Err(BuildFault::WidthRange(line));
    }
    let width = width_of_fields(fields.as_slice())?;
    let number = number_of(elaboration.shapes.len())?;
    let shape = shape(alloc, name, fields, width)?;
    elaboration.shapes.push(shape)?;
    Ok(ValueType {
        width,
        shape: Some(number),
    })
}
