//! How names and attributes take values.
ghost use Rattle.std.specs.Prelude.{◌≡◌, IfOk, Ok};
ghost use Rattle.pm_elab.specs.Elab.{Changes};
ghost use Rattle.pm_elab.specs.Placing as spec;

use crate::placing::place;
use pm_elab::{
    ConstructedClass, Frame, Local, MadeKind, Target, is_attribute, is_member, is_settled,
};
use pm_io::{NoMemory, Text};
use pm_syn::Expr;
use pm_values::{BuildFault, Value};
use std::alloc::Global;

/// A name of `construct` stands for the value from now on.
#[tactic(auto, unfolding(pm_elab::specs::Placing::local_put))]
pub fn local_put(
    alloc: Global,
    frame: &mut Frame,
    name: &[u8],
    value: Value,
) -> Result<(), BuildFault>
    ensures { Changes (Ok (spec.local_put name.now value frame.old)) result frame.new }
{
    let reassigned = frame.raw.locals.contains(name);
    frame
        .raw
        .locals
        .put(alloc, name, Local { value, reassigned })?;
    Ok(())
}

/// An attribute stands for the value from now on.
#[tactic(auto, unfolding(pm_elab::specs::Placing::attribute_set))]
pub fn attribute_set(
    alloc: Global,
    frame: &mut Frame,
    name: &[u8],
    value: Value,
) -> Result<(), BuildFault>
    ensures { Changes (Ok (spec.attribute_set name.now value frame.old)) result frame.new }
{
    frame.raw.attributes.put(alloc, name, value)?;
    Ok(())
}

/// An attribute of a component takes a value.
#[tactic(auto, unfolding(pm_elab::specs::Placing::component_attribute))]
fn component_attribute(
    alloc: Global,
    kinds: &[MadeKind],
    frame: &mut Frame,
    name: &[u8],
    value: &Value,
    line: u32,
) -> Result<(), BuildFault>
    ensures { Changes (spec.component_attribute kinds.now name.now value.now line frame.old) result frame.new }
{
    if name == b"clk".as_slice() {
        return Err(BuildFault::WrongKind(line));
    }
    if !is_attribute(value) {
        return Err(BuildFault::WrongKind(line));
    }
    if frame.raw.attributes.contains(name) {
        return Err(BuildFault::SameName(line));
    }
    let taken = place(alloc, value, kinds, frame, name, line)?;
    attribute_set(alloc, frame, name, taken)
}

/// A member of an interface takes a value.
#[tactic(auto, unfolding(pm_elab::specs::Placing::interface_member))]
fn interface_member(
    alloc: Global,
    frame: &mut Frame,
    name: &[u8],
    value: Value,
    line: u32,
) -> Result<(), BuildFault>
    ensures { Changes (spec.interface_member name.now value line frame.old) result frame.new }
{
    if !is_member(&value) {
        return Err(BuildFault::WrongKind(line));
    }
    if frame.raw.attributes.contains(name) {
        return Err(BuildFault::SameName(line));
    }
    attribute_set(alloc, frame, name, value)
}

/// An attribute of `s` takes a value.
#[tactic(auto, unfolding(pm_elab::specs::Placing::attribute_put))]
pub fn attribute_put(
    alloc: Global,
    kinds: &[MadeKind],
    frame: &mut Frame,
    name: &[u8],
    value: Value,
    line: u32,
) -> Result<(), BuildFault>
    ensures { Changes (spec.attribute_put kinds.now name.now value line frame.old) result frame.new }
{
    match frame.class {
        ConstructedClass::Component => component_attribute(alloc, kinds, frame, name, &value, line),
        ConstructedClass::Interface => interface_member(alloc, frame, name, value, line),
    }
}

/// A name of `construct` takes a value in which nothing is new.
#[tactic(auto, unfolding(pm_elab::specs::Placing::local_assigned))]
fn local_assigned(
    alloc: Global,
    frame: &mut Frame,
    name: &[u8],
    value: Value,
    line: u32,
) -> Result<(), BuildFault>
    ensures { Changes (spec.local_assigned name.now value line frame.old) result frame.new }
{
    if !is_settled(&value) {
        return Err(BuildFault::WrongKind(line));
    }
    local_put(alloc, frame, name, value)
}

/// `e.name` as the left side of an assignment.
#[tactic(auto, unfolding(pm_elab::specs::Placing::own_target))]
fn own_target(alloc: Global, name: &[u8], e: &Expr) -> Result<Target, NoMemory>
    ensures { IfOk result (λ target. target ≡ spec.own_target name.now e.now) }
{
    match e {
        Expr::Name(own) => {
            if own.as_slice() == b"s".as_slice() {
                Ok(Target::Attribute(Text::from_slice(alloc, name)?))
            } else {
                Ok(Target::Other)
            }
        }
        _ => Ok(Target::Other),
    }
}

/// What the left side of an assignment assigns to.
#[tactic(auto, unfolding(pm_elab::specs::Placing::target_of))]
pub fn target_of(alloc: Global, e: &Expr) -> Result<Target, NoMemory>
    ensures { IfOk result (λ target. target ≡ spec.target_of e.now) }
{
    match e {
        Expr::Name(name) => {
            if name.as_slice() == b"s".as_slice() {
                Ok(Target::Other)
            } else {
                Ok(Target::Local(Text::from_slice(alloc, name.as_slice())?))
            }
        }
        Expr::Attr(e, name) => own_target(alloc, name.as_slice(), e.get()),
        _ => Ok(Target::Other),
    }
}

/// The left side of an assignment takes a value.
#[tactic(auto, unfolding(pm_elab::specs::Placing::assigned))]
pub fn assigned(
    alloc: Global,
    kinds: &[MadeKind],
    frame: &mut Frame,
    target: &Target,
    value: Value,
    line: u32,
) -> Result<(), BuildFault>
    ensures { Changes (spec.assigned target.now kinds.now value line frame.old) result frame.new }
{
    match target {
        Target::Local(name) => local_assigned(alloc, frame, name.as_slice(), value, line),
        Target::Attribute(name) => attribute_put(alloc, kinds, frame, name.as_slice(), value, line),
        Target::Other => Err(BuildFault::WrongKind(line)),
    }
}
