//! Attributes, fields, bits and slices.
ghost use Rattle.std.specs.Prelude.{◌≡◌, IfOk};
ghost use Rattle.std.specs.Option.{option_copied};
ghost use Rattle.pm_elab.specs.Attributes as attributes;
ghost use Rattle.pm_typing.specs.Counted.{Gives};
ghost use Rattle.pm_typing.specs.Operands as operands;
ghost use Rattle.pm_typing.specs.References as spec;
ghost use Rattle.pm_typing.specs.Sites.{scope_of};
ghost use Rattle.pm_typing.specs.Things.{thing_in, thing_of};

use crate::names::{attribute_in, child_attribute, member_thing, state_attribute};
use pm_design::{Ex, Field, Part, Shape};
use pm_io::{Boxed, List, NoMemory};
use pm_typing::{Cut, Scope, Thing, TypeFault};
use pm_values::{Form, Reference, ValueType};
use std::alloc::Global;

/// The type of what a reference names.
pub fn type_of(reference: &Reference) -> ValueType
    ensures { result ≡ spec.type_of reference.now }
{
    ValueType {
        width: reference.part.width,
        shape: reference.shape,
    }
}

/// The type of the elements of a list, or Bits of no width if it has none.
pub fn element_type(elements: &[Reference]) -> ValueType
    ensures { result ≡ spec.element_type elements.now }
{
    match elements {
        [] => ValueType {
            width: 0,
            shape: None,
        },
        [first, ..] => type_of(first),
    }
}

/// The parts of references.
#[tactic(auto, unfolding(pm_typing::specs::Operands::parts_of))]
pub fn parts_of(alloc: Global, references: &[Reference]) -> Result<List<Part>, NoMemory>
    ensures { IfOk result (λ parts. parts ≡ operands.parts_of references.now) }
{
    let mut parts = List::new(alloc);
    for reference in references {
        parts.push(reference.part)?;
    }
    Ok(parts)
}

fn field_in<'a>(fields: &'a [Field], name: &[u8]) -> Option<&'a Field>
    ensures { option_copied result ≡ attributes.field_in fields.now name.now }
{
    for field in fields {
        if field.name.as_slice() == name {
            return Some(field);
        }
    }
    None
}

fn field_of_shape<'a>(shape: Option<&'a Shape>, name: &[u8]) -> Option<&'a Field>
    ensures { option_copied result ≡ attributes.field_of_shape (option_copied shape.entry) name.now }
{
    field_in(shape?.fields.as_slice(), name)
}

fn shape_at(shapes: &List<Shape>, shape: Option<u32>) -> Option<&Shape>
    ensures { option_copied result ≡ attributes.shape_at shapes.now shape }
{
    shapes.get(shape? as usize)
}

// The field of a type.
fn field_of<'a>(shapes: &'a List<Shape>, ty: ValueType, name: &[u8]) -> Option<&'a Field>
    ensures { option_copied result ≡ spec.field_of shapes.now ty name.now }
{
    field_of_shape(shape_at(shapes, ty.shape), name)
}

fn field_part(reference: &Reference, field: &Field) -> Result<Reference, NoMemory>
    ensures { IfOk result (λ part. part ≡ attributes.field_part reference.now field.now) }
{
    let lo = reference.part.lo.checked_add(field.lo).ok_or(NoMemory)?;
    Ok(Reference {
        part: Part {
            lo,
            width: field.width,
            ..reference.part
        },
        shape: field.shape,
        role: reference.role,
        form: Form::Field,
    })
}

fn signal_field<'a>(
    line: u32,
    reference: &Reference,
    field: Option<&Field>,
) -> Result<Thing<'a>, TypeFault>
    ensures { Gives (spec.signal_field line reference.now (option_copied field.entry)) (thing_in result) }
{
    match field {
        Some(field) => Ok(Thing::Signal(field_part(reference, field)?)),
        None => Err(TypeFault::MaybeUnbound(line)),
    }
}

fn temporary_field<'a>(
    line: u32,
    temp: u32,
    lo: u32,
    field: Option<&Field>,
) -> Result<Thing<'a>, TypeFault>
    ensures { Gives (spec.temporary_field line temp lo (option_copied field.entry)) (thing_in result) }
{
    let Some(field) = field else {
        return Err(TypeFault::MaybeUnbound(line));
    };
    let lo = lo.checked_add(field.lo).ok_or(TypeFault::NoMemory)?;
    let ty = ValueType {
        width: field.width,
        shape: field.shape,
    };
    Ok(Thing::Temp(temp, lo, ty))
}

#[tactic(auto, unfolding(pm_typing::specs::References::field_parts))]
fn field_parts(
    alloc: Global,
    field: &Field,
    elements: &[Reference],
) -> Result<List<Reference>, NoMemory>
    ensures { IfOk result (λ parts. parts ≡ spec.field_parts field.now elements.now) }
{
    let mut parts = List::new(alloc);
    for element in elements {
        parts.push(field_part(element, field)?)?;
    }
    Ok(parts)
}

fn pick_field<'a>(
    alloc: Global,
    line: u32,
    index: Boxed<Ex>,
    elements: &[Reference],
    field: Option<&Field>,
) -> Result<Thing<'a>, TypeFault>
    ensures { Gives (spec.pick_field line index elements.now (option_copied field.entry)) (thing_in result) }
{
    match field {
        Some(field) => {
            let parts = field_parts(alloc, field, elements)?;
            Ok(Thing::Pick(index, parts))
        }
        None => Err(TypeFault::MaybeUnbound(line)),
    }
}

#[tactic(auto, unfolding(pm_typing::specs::References::type_attribute))]
fn type_attribute<'a>(line: u32, ty: ValueType, name: &[u8]) -> Result<Thing<'a>, TypeFault>
    ensures { thing_in result ≡ spec.type_attribute line ty name.now }
{
    if name == b"nbits".as_slice() {
        Ok(Thing::Int(i64::from(ty.width)))
    } else {
        Err(TypeFault::MaybeUnbound(line))
    }
}

fn method_attribute<'a>(line: u32, ready: Thing<'a>, name: &[u8]) -> Result<Thing<'a>, TypeFault>
    ensures { thing_in result ≡ spec.method_attribute line (thing_of ready.entry) name.now }
{
    if name == b"rdy".as_slice() {
        Ok(ready)
    } else {
        Err(TypeFault::MaybeUnbound(line))
    }
}

/// An attribute of a thing.
#[tactic(auto, unfolding(pm_typing::specs::References::attribute))]
pub(crate) fn attribute<'a>(
    alloc: Global,
    scope: &Scope<'a>,
    line: u32,
    name: &[u8],
    thing: Thing<'a>,
) -> Result<Thing<'a>, TypeFault>
    ensures { Gives (spec.attribute (scope_of scope.now) line name.now (thing_of thing.entry)) (thing_in result) }
{
    let shapes = &scope.design.design.shapes;
    match thing {
        Thing::Own => attribute_in(line, None, scope.raw, name),
        Thing::Child(child) => child_attribute(scope, line, child, name),
        Thing::Members(whose, members) => member_thing(line, whose, members, name),
        Thing::Type(ty) => type_attribute(line, ty, name),
        Thing::State(state) => state_attribute(scope, line, state, name),
        Thing::Method(callee) => method_attribute(line, Thing::Ready(callee), name),
        Thing::Signal(reference) => {
            signal_field(
                line,
                &reference,
                field_of(shapes, type_of(&reference), name),
            )
        }
        Thing::Temp(temp, lo, ty) => temporary_field(line, temp, lo, field_of(shapes, ty, name)),
        Thing::Pick(index, elements) => {
            let field = field_of(shapes, element_type(elements.as_slice()), name);
            pick_field(alloc, line, index, elements.as_slice(), field)
        }
        Thing::Bits(_, _) => Err(TypeFault::NotAllowedHere(line)),
        Thing::Int(_)
        | Thing::Const(_)
        | Thing::Class
        | Thing::Items(_, _)
        | Thing::Change(_, _)
        | Thing::Ready(_)
        | Thing::Function(_) => Err(TypeFault::MaybeUnbound(line)),
    }
}

#[tactic(auto, unfolding(pm_typing::specs::References::slice_range))]
fn slice_range(width: u32, lo: i64, hi: i64) -> Option<Cut>
    ensures { result ≡ spec.slice_range width lo hi }
{
    if lo < 0 || hi <= lo || (width as i64) < hi {
        return None;
    }
    Some(Cut {
        lo: lo as u32,
        width: (hi - lo) as u32,
        form: Form::Slice,
    })
}

#[tactic(auto, unfolding(pm_typing::specs::References::bit_range))]
fn bit_range(width: u32, index: i64) -> Option<Cut>
    ensures { result ≡ spec.bit_range width index }
{
    if index < 0 || (width as i64) <= index {
        return None;
    }
    Some(Cut {
        lo: index as u32,
        width: 1,
        form: Form::Bit,
    })
}

/// Some bits of what a reference names.
pub(crate) fn cut_part(cut: Cut, reference: &Reference) -> Result<Reference, NoMemory>
    ensures { IfOk result (λ part. part ≡ spec.cut_part cut reference.now) }
{
    let lo = reference.part.lo.checked_add(cut.lo).ok_or(NoMemory)?;
    Ok(Reference {
        part: Part {
            lo,
            width: cut.width,
            ..reference.part
        },
        shape: None,
        role: reference.role,
        form: cut.form,
    })
}

#[tactic(auto, unfolding(pm_typing::specs::References::cut_parts))]
fn cut_parts(alloc: Global, cut: Cut, elements: &[Reference]) -> Result<List<Reference>, NoMemory>
    ensures { IfOk result (λ parts. parts ≡ spec.cut_parts cut elements.now) }
{
    let mut parts = List::new(alloc);
    for element in elements {
        parts.push(cut_part(cut, element)?)?;
    }
    Ok(parts)
}

#[tactic(auto, unfolding(pm_typing::specs::References::cut_width))]
fn cut_width(line: u32, thing: &Thing<'_>) -> Result<u32, TypeFault>
    ensures { result ≡ spec.cut_width line (thing_of thing.now) }
{
    match thing {
        Thing::Signal(reference) => Ok(reference.part.width),
        Thing::Temp(_, _, ty) => Ok(ty.width),
        Thing::Pick(_, elements) => Ok(element_type(elements.as_slice()).width),
        _ => Err(TypeFault::NotAllowedHere(line)),
    }
}

fn cut_temporary<'a>(temp: u32, lo: u32, cut: Cut) -> Result<Thing<'a>, NoMemory>
    ensures { IfOk result (λ thing. thing_of thing ≡ spec.temporary_cut temp lo cut) }
{
    let lo = lo.checked_add(cut.lo).ok_or(NoMemory)?;
    let ty = ValueType {
        width: cut.width,
        shape: None,
    };
    Ok(Thing::Temp(temp, lo, ty))
}

fn cut_at<'a>(alloc: Global, line: u32, cut: Cut, thing: Thing<'a>) -> Result<Thing<'a>, TypeFault>
    ensures { Gives (spec.cut_at line cut (thing_of thing.entry)) (thing_in result) }
{
    match thing {
        Thing::Signal(reference) => Ok(Thing::Signal(cut_part(cut, &reference)?)),
        Thing::Temp(temp, lo, _) => Ok(cut_temporary(temp, lo, cut)?),
        Thing::Pick(index, elements) => {
            let parts = cut_parts(alloc, cut, elements.as_slice())?;
            Ok(Thing::Pick(index, parts))
        }
        _ => Err(TypeFault::NotAllowedHere(line)),
    }
}

#[tactic(auto, unfolding(pm_typing::specs::References::cut))]
fn cut<'a>(
    alloc: Global,
    line: u32,
    cut: Option<Cut>,
    thing: Thing<'a>,
) -> Result<Thing<'a>, TypeFault>
    ensures { Gives (spec.cut line cut (thing_of thing.entry)) (thing_in result) }
{
    match cut {
        Some(cut) => cut_at(alloc, line, cut, thing),
        None => Err(TypeFault::IndexRange(line)),
    }
}

#[tactic(auto, unfolding(pm_typing::specs::References::slice))]
fn slice<'a>(
    alloc: Global,
    line: u32,
    lo: i64,
    hi: i64,
    thing: Thing<'a>,
) -> Result<Thing<'a>, TypeFault>
    ensures { Gives (spec.slice line lo hi (thing_of thing.entry)) (thing_in result) }
{
    let width = cut_width(line, &thing)?;
    cut(alloc, line, slice_range(width, lo, hi), thing)
}

/// `x[lo:hi]`.
#[tactic(auto, unfolding(pm_typing::specs::References::sliced))]
pub(crate) fn sliced<'a>(
    alloc: Global,
    line: u32,
    lo: &Thing<'_>,
    hi: &Thing<'_>,
    thing: Thing<'a>,
) -> Result<Thing<'a>, TypeFault>
    ensures { Gives (spec.sliced line (thing_of lo.now) (thing_of hi.now) (thing_of thing.entry)) (thing_in result) }
{
    match (lo, hi) {
        (Thing::Int(lo), Thing::Int(hi)) => slice(alloc, line, *lo, *hi, thing),
        _ => Err(TypeFault::NotAllowedHere(line)),
    }
}

/// The bit `x[k]`.
#[tactic(auto, unfolding(pm_typing::specs::References::bit))]
pub(crate) fn bit<'a>(
    alloc: Global,
    line: u32,
    index: i64,
    thing: Thing<'a>,
) -> Result<Thing<'a>, TypeFault>
    ensures { Gives (spec.bit line index (thing_of thing.entry)) (thing_in result) }
{
    let width = cut_width(line, &thing)?;
    cut(alloc, line, bit_range(width, index), thing)
}
