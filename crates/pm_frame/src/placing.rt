//! How what is new in a value becomes part of a component.
ghost use Rattle.std.specs.Prelude.{◌≡◌, ◌+◌, Ok, Some, None, map, [], nat_le, if◌then◌else◌};
ghost use Rattle.pm_elab.specs.Elab.{Alters, Gives};
ghost use Rattle.pm_elab.specs.declared.elaboration.TheConstants.{MAX_INSTANCES};
ghost use Rattle.pm_elab.specs.Placing as spec;

use crate::name::{element_name, member_name};
use pm_design::{Callee, Caller, Child, Part, Role, Signal};
use pm_elab::{Frame, MAX_INSTANCES, MadeKind};
use pm_io::{List, Text};
use pm_values::{
    BuildFault, CallerTypes, Form, Member, New, Reference, Taken, Value, ValueType, copy,
};
use std::alloc::Global;

/// The number of what is added to a list of so many.
pub fn number_of(count: usize) -> Result<u32, BuildFault>
    ensures { Gives (Ok count) result }
{
    match u32::try_from(count) {
        Ok(number) => Ok(number),
        Err(_) => Err(BuildFault::NoMemory),
    }
}

/// A whole signal of the component.
pub fn whole_signal(number: u32, role: Role, ty: ValueType) -> Reference
    ensures { result ≡ spec.whole_signal number role ty }
{
    Reference {
        part: Part {
            owner: 0,
            signal: number,
            lo: 0,
            width: ty.width,
        },
        shape: ty.shape,
        role,
        form: Form::Whole,
    }
}

/// Makes a new signal the last of the component.
#[tactic(auto, unfolding(pm_elab::specs::Placing::place_signal))]
fn place_signal(
    alloc: Global,
    role: Role,
    ty: ValueType,
    frame: &mut Frame,
    name: &[u8],
) -> Result<Value, BuildFault>
    ensures { Alters (Ok (spec.place_signal role ty name.now frame.old)) result frame.new }
{
    let number = number_of(frame.kind.signals.len())?;
    let name = Text::from_slice(alloc, name)?;
    frame.kind.signals.push(Signal {
        name,
        role,
        width: ty.width,
        shape: ty.shape,
    })?;
    Ok(Value::Taken(Taken::Signal(whole_signal(number, role, ty))))
}

/// How many instances a component of the kind has, itself among them.
#[tactic(auto, unfolding(pm_elab::specs::Placing::instances_in))]
fn instances_in(kinds: &[MadeKind], kind: u32) -> u32
    ensures { result ≡ spec.instances_in kinds.now kind }
{
    match kinds.get(kind as usize) {
        Some(made) => made.kind.instances,
        None => 0,
    }
}

/// The instances of the component with so many more, if they aren't too many.
fn instances_with(frame: &Frame, more: u32) -> Option<u32>
    ensures { result ≡ (if nat_le (frame.now.kind.instances + more) MAX_INSTANCES then Some (frame.now.kind.instances + more) else None) }
{
    match frame.kind.instances.checked_add(more) {
        Some(instances) if instances <= MAX_INSTANCES => Some(instances),
        _ => None,
    }
}

/// Makes a new child the last of the component.
#[tactic(auto, unfolding(pm_elab::specs::Placing::place_child))]
fn place_child(
    alloc: Global,
    kinds: &[MadeKind],
    kind: u32,
    frame: &mut Frame,
    name: &[u8],
    line: u32,
) -> Result<Value, BuildFault>
    ensures { Alters (spec.place_child kinds.now kind name.now line frame.old) result frame.new }
{
    let instances = match instances_with(frame, instances_in(kinds, kind)) {
        Some(instances) => instances,
        None => return Err(BuildFault::TooManyInstances(line)),
    };
    let number = number_of(frame.kind.children.len())?;
    let name = Text::from_slice(alloc, name)?;
    frame.kind.children.push(Child { name, kind, line })?;
    frame.kind.instances = instances;
    Ok(Value::Taken(Taken::Child(number)))
}

/// The width of a type, if there is one.
pub fn width_if(ty: Option<ValueType>) -> Option<u32>
    ensures { result ≡ spec.width_if ty }
{
    ty.map(|ty| ty.width)
}

/// Makes a new caller port the last of the component.
#[tactic(auto, unfolding(pm_elab::specs::Placing::place_caller))]
fn place_caller(
    alloc: Global,
    types: CallerTypes,
    frame: &mut Frame,
    name: &[u8],
) -> Result<Value, BuildFault>
    ensures { Alters (Ok (spec.place_caller types name.now frame.old)) result frame.new }
{
    let number = number_of(frame.kind.callers.len())?;
    let name = Text::from_slice(alloc, name)?;
    frame.kind.callers.push(Caller {
        name,
        argument: width_if(types.argument),
        result: width_if(types.result),
    })?;
    frame.raw.callers.push(types)?;
    Ok(Value::Taken(Taken::Method(Callee::Port(number))))
}

/// Makes a new thing part of the component under its name.
#[tactic(auto, unfolding(pm_elab::specs::Placing::place_new))]
fn place_new(
    alloc: Global,
    kinds: &[MadeKind],
    new: &New,
    frame: &mut Frame,
    name: &[u8],
    line: u32,
) -> Result<Value, BuildFault>
    ensures { Alters (spec.place_new kinds.now new.now name.now line frame.old) result frame.new }
{
    match new {
        New::Signal(role, ty) => place_signal(alloc, *role, *ty, frame, name),
        New::Child(kind) => place_child(alloc, kinds, *kind, frame, name, line),
        New::Caller(types) => place_caller(alloc, *types, frame, name),
        New::Callee(callee) => Ok(Value::Taken(Taken::Method(*callee))),
        New::Deque(_) => Err(BuildFault::WrongKind(line)),
    }
}

/// Takes a value under a name: what is new in it becomes part of the component. Gives what the value is from then on.
#[cycle(place)]
#[tactic(auto, using(crate::proofs::Placings::forms))]
pub fn place(
    alloc: Global,
    value: &Value,
    kinds: &[MadeKind],
    frame: &mut Frame,
    name: &[u8],
    line: u32,
) -> Result<Value, BuildFault>
    ensures { Alters (spec.place value.now kinds.now name.now line frame.old) result frame.new }
{
    match value {
        Value::New(new) => place_new(alloc, kinds, new, frame, name, line),
        Value::NewInterface(members) | Value::Interface(members) => {
            place_members(alloc, members.as_slice(), kinds, frame, name, line)
        }
        Value::Items(items) => place_items(alloc, items.as_slice(), kinds, frame, name, line),
        Value::Int(_)
        | Value::Type(_)
        | Value::Const(_)
        | Value::Class(_)
        | Value::Own
        | Value::Taken(_)
        | Value::Term(_)
        | Value::Rule(_, _) => Ok(copy(alloc, value)?),
    }
}

/// Takes the elements of a list, each under the list's name with its number.
#[cycle(place)]
#[tactic(auto, unfolding(pm_elab::specs::Placing::place_items))]
fn place_items(
    alloc: Global,
    items: &[Value],
    kinds: &[MadeKind],
    frame: &mut Frame,
    name: &[u8],
    line: u32,
) -> Result<Value, BuildFault>
    ensures { Alters (spec.place_items 0 [] (map spec.place items.now) kinds.now name.now line frame.old) result frame.new }
{
    let mut done = List::new(alloc);
    for (index, item) in items.iter().enumerate() {
        let name = element_name(alloc, name, index)?;
        done.push(place(alloc, item, kinds, frame, name.as_slice(), line)?)?;
    }
    Ok(Value::Items(done))
}

/// Takes the members of an interface, each under the interface's name with its own.
#[cycle(place)]
#[tactic(auto, unfolding(pm_elab::specs::Placing::place_members))]
fn place_members(
    alloc: Global,
    members: &[Member],
    kinds: &[MadeKind],
    frame: &mut Frame,
    name: &[u8],
    line: u32,
) -> Result<Value, BuildFault>
    ensures { Alters (spec.place_members [] (map spec.place_member members.now) kinds.now name.now line frame.old) result frame.new }
{
    let mut done = List::new(alloc);
    for member in members {
        done.push(place_member(alloc, member, kinds, frame, name, line)?)?;
    }
    Ok(Value::Interface(done))
}

#[cycle(place)]
#[tactic(auto, using(crate::proofs::Placings::forms))]
fn place_member(
    alloc: Global,
    member: &Member,
    kinds: &[MadeKind],
    frame: &mut Frame,
    name: &[u8],
    line: u32,
) -> Result<Member, BuildFault>
    ensures { Alters (spec.place_member member.now kinds.now name.now line frame.old) result frame.new }
{
    let full_name = member_name(alloc, name, member.name.as_slice())?;
    let value = place(
        alloc,
        &member.value,
        kinds,
        frame,
        full_name.as_slice(),
        line,
    )?;
    let name = Text::from_slice(alloc, member.name.as_slice())?;
    Ok(Member { name, value })
}
