//! Attributes.
ghost use Rattle.std.specs.Prelude.{◌≡◌, IfOk};
ghost use Rattle.std.specs.Option.{option_copied};
ghost use Rattle.pm_elab.specs.Attributes as spec;
ghost use Rattle.pm_elab.specs.Elab.{Gives, lent};
ghost use Rattle.pm_elab.specs.Sites.{site_of};
ghost use Rattle.pm_names.specs.Found.{found_in, value_of};

use crate::found::Found;
use crate::view::{View, member_seen, viewed};
use pm_design::{Field, Part, Shape};
use pm_elab::{ConstructedClass, Elaboration, Frame, MadeKind, Site, kind_of_child, member_named};
use pm_io::{List, NoMemory};
use pm_values::{BuildFault, Form, Reference, Taken, Value, copy};
use std::alloc::Global;

fn field_in<'a>(fields: &'a [Field], name: &[u8]) -> Option<&'a Field>
    ensures { option_copied result ≡ spec.field_in fields.now name.now }
{
    for field in fields {
        if field.name.as_slice() == name {
            return Some(field);
        }
    }
    None
}

fn field_of_shape<'a>(shape: Option<&'a Shape>, name: &[u8]) -> Option<&'a Field>
    ensures { option_copied result ≡ spec.field_of_shape (option_copied shape.entry) name.now }
{
    field_in(shape?.fields.as_slice(), name)
}

fn shape_at(shapes: &List<Shape>, shape: Option<u32>) -> Option<&Shape>
    ensures { option_copied result ≡ spec.shape_at shapes.now shape }
{
    shapes.get(shape? as usize)
}

fn field_part(reference: &Reference, field: &Field) -> Result<Reference, NoMemory>
    ensures { IfOk result (λ part. part ≡ spec.field_part reference.now field.now) }
{
    let lo = reference.part.lo.checked_add(field.lo).ok_or(NoMemory)?;
    Ok(Reference {
        part: Part {
            lo,
            width: field.width,
            ..reference.part
        },
        shape: field.shape,
        role: reference.role,
        form: Form::Field,
    })
}

/// The field of the reference's bitstruct, if it is one and has a field of this name.
#[tactic(auto, unfolding(pm_elab::specs::Attributes::field_named))]
pub fn field_named(
    shapes: &List<Shape>,
    reference: &Reference,
    name: &[u8],
) -> Result<Option<Reference>, NoMemory>
    ensures { IfOk result (λ field. field ≡ spec.field_named shapes.now reference.now name.now) }
{
    match field_of_shape(shape_at(shapes, reference.shape), name) {
        Some(field) => Ok(Some(field_part(reference, field)?)),
        None => Ok(None),
    }
}

fn kind_attribute(
    alloc: Global,
    child: Option<u32>,
    kind: Option<&MadeKind>,
    name: &[u8],
) -> Result<Option<Value>, NoMemory>
    ensures { IfOk result (λ value. value ≡ spec.kind_attribute child (option_copied kind.entry) name.now) }
{
    let Some(kind) = kind else {
        return Ok(None);
    };
    let view = View {
        child,
        children: &kind.kind.children,
    };
    match kind.raw.attributes.get(name) {
        Some(value) => Ok(Some(viewed(alloc, &view, value)?)),
        None => Ok(None),
    }
}

fn child_attribute(
    alloc: Global,
    kinds: &List<MadeKind>,
    frame: Option<&Frame>,
    child: u32,
    name: &[u8],
) -> Result<Option<Value>, NoMemory>
    ensures { IfOk result (λ value. value ≡ spec.child_attribute kinds.now (option_copied frame.entry) child name.now) }
{
    match frame {
        Some(frame) => {
            let kind = kind_of_child(&frame.kind.children, child);
            kind_attribute(alloc, Some(child), kinds.get(kind as usize), name)
        }
        None => Ok(None),
    }
}

/// An attribute of what an attribute has taken, if it has one of this name.
#[tactic(auto, unfolding(pm_elab::specs::Attributes::taken_attribute))]
pub fn taken_attribute(
    alloc: Global,
    elaboration: &Elaboration,
    frame: Option<&Frame>,
    taken: &Taken,
    name: &[u8],
) -> Result<Option<Value>, NoMemory>
    ensures { IfOk result (λ value. value ≡ spec.taken_attribute elaboration.now (option_copied frame.entry) taken.now name.now) }
{
    match taken {
        Taken::Signal(reference) => match field_named(&elaboration.shapes, reference, name)? {
            Some(field) => Ok(Some(Value::Taken(Taken::Signal(field)))),
            None => Ok(None),
        },
        Taken::FarSignal(reference) => match field_named(&elaboration.shapes, reference, name)? {
            Some(field) => Ok(Some(Value::Taken(Taken::FarSignal(field)))),
            None => Ok(None),
        },
        Taken::Child(child) => child_attribute(alloc, &elaboration.kinds, frame, *child, name),
        Taken::Descendant(kind) => {
            kind_attribute(alloc, None, elaboration.kinds.get(*kind as usize), name)
        }
        _ => Ok(None),
    }
}

#[tactic(auto, unfolding(pm_elab::specs::Attributes::component_attribute))]
fn component_attribute<'a>(
    line: u32,
    frame: &'a Frame,
    name: &[u8],
) -> Result<&'a Value, BuildFault>
    ensures { lent result ≡ spec.component_attribute line frame.now name.now }
{
    if name == b"clk".as_slice() {
        return Err(BuildFault::WrongKind(line));
    }
    match frame.raw.attributes.get(name) {
        Some(value) => Ok(value),
        None => Err(BuildFault::Unbound(line)),
    }
}

#[tactic(auto, unfolding(pm_elab::specs::Attributes::interface_attribute))]
fn interface_attribute(
    alloc: Global,
    line: u32,
    frame: &Frame,
    name: &[u8],
) -> Result<Value, BuildFault>
    ensures { Gives (spec.interface_attribute line frame.now name.now) result }
{
    match frame.raw.attributes.get(name) {
        Some(value) => Ok(member_seen(alloc, value)?),
        None => Err(BuildFault::Unbound(line)),
    }
}

fn attribute_of_own<'a>(
    alloc: Global,
    line: u32,
    frame: &'a Frame,
    name: &[u8],
) -> Result<Found<'a>, BuildFault>
    ensures { Gives (spec.attribute_of_own frame.now.class line frame.now name.now) (found_in result) }
{
    match frame.class {
        ConstructedClass::Component => Ok(Found::Kept(component_attribute(line, frame, name)?)),
        ConstructedClass::Interface => {
            Ok(Found::Made(interface_attribute(alloc, line, frame, name)?))
        }
    }
}

/// An attribute of `s`.
#[tactic(auto, unfolding(pm_elab::specs::Attributes::own_attribute))]
pub fn own_attribute<'a>(
    alloc: Global,
    site: &Site<'a>,
    name: &[u8],
) -> Result<Found<'a>, BuildFault>
    ensures { Gives (spec.own_attribute (site_of site.now) name.now) (found_in result) }
{
    match site.frame {
        Some(frame) => attribute_of_own(alloc, site.line, frame, name),
        None => Err(BuildFault::Unbound(site.line)),
    }
}

// An attribute of a value that isn't kept, or is no interface.
#[tactic(auto, unfolding(pm_elab::specs::Attributes::attribute))]
fn made_attribute<'a>(
    alloc: Global,
    elaboration: &Elaboration,
    site: &Site<'a>,
    name: &[u8],
    value: &Value,
) -> Result<Found<'a>, BuildFault>
    ensures { Gives (spec.attribute elaboration.now (site_of site.now) name.now value.now) (found_in result) }
{
    match value {
        Value::Own => own_attribute(alloc, site, name),
        Value::Type(ty) if name == b"nbits".as_slice() => {
            Ok(Found::Made(Value::Int(ty.width as i64)))
        }
        Value::Taken(taken) => {
            match taken_attribute(alloc, elaboration, site.frame, taken, name)? {
                Some(value) => Ok(Found::Made(value)),
                None => Err(BuildFault::Unbound(site.line)),
            }
        }
        Value::Interface(members) => match member_named(members.as_slice(), name) {
            Some(value) => Ok(Found::Made(copy(alloc, value)?)),
            None => Err(BuildFault::Unbound(site.line)),
        },
        _ => Err(BuildFault::Unbound(site.line)),
    }
}

#[tactic(auto, unfolding(pm_elab::specs::Attributes::attribute))]
fn kept_attribute<'a>(
    alloc: Global,
    elaboration: &Elaboration,
    site: &Site<'a>,
    name: &[u8],
    value: &'a Value,
) -> Result<Found<'a>, BuildFault>
    ensures { Gives (spec.attribute elaboration.now (site_of site.now) name.now value.now) (found_in result) }
{
    match value {
        Value::Interface(members) => match member_named(members.as_slice(), name) {
            Some(value) => Ok(Found::Kept(value)),
            None => Err(BuildFault::Unbound(site.line)),
        },
        _ => made_attribute(alloc, elaboration, site, name, value),
    }
}

/// An attribute of a value.
pub fn attribute<'a>(
    alloc: Global,
    elaboration: &Elaboration,
    site: &Site<'a>,
    name: &[u8],
    base: &Found<'a>,
) -> Result<Found<'a>, BuildFault>
    ensures { Gives (spec.attribute elaboration.now (site_of site.now) name.now (value_of base.now)) (found_in result) }
{
    match base {
        Found::Kept(value) => kept_attribute(alloc, elaboration, site, name, *value),
        Found::Made(value) => made_attribute(alloc, elaboration, site, name, value),
    }
}
