//! Attributes as they are seen from outside the component or interface that has them.
ghost use Rattle.std.specs.Prelude.{◌≡◌, map, IfOk};
ghost use Rattle.pm_values.specs.declared.value.Value.TheVariants as value;
ghost use Rattle.pm_elab.specs.Views as spec;
ghost use Rattle.pm_names.specs.Views.{view_of, viewed_member, seen_member};

use pm_design::{Callee, Child, Part, Role};
use pm_elab::kind_of_child;
use pm_io::{List, NoMemory, Text};
use pm_values::{Form, Member, New, Reference, Taken, Value, ValueType, copy};
use std::alloc::Global;

/// Whose attribute it is, for the component above.
#[derive(Clone, Copy)]
pub struct View<'a> {
    /// The component's own child of this number, or one further below.
    pub child: Option<u32>,
    /// The children that it has.
    pub children: &'a List<Child>,
}

fn signal_viewed(child: Option<u32>, reference: Reference) -> Result<Taken, NoMemory>
    ensures { IfOk result (λ taken. taken ≡ spec.signal_viewed child reference) }
{
    match child {
        Some(child) if reference.part.owner == 0 && reference.role != Role::Inner => {
            let owner = child.checked_add(1).ok_or(NoMemory)?;
            let part = Part {
                owner,
                ..reference.part
            };
            Ok(Taken::Signal(Reference { part, ..reference }))
        }
        _ => Ok(Taken::FarSignal(reference)),
    }
}

fn method_viewed(child: Option<u32>, callee: Callee) -> Taken
    ensures { result ≡ spec.method_viewed child callee }
{
    match (child, callee) {
        (Some(child), Callee::Own(method)) => Taken::Method(Callee::Child(child, method)),
        (Some(child), Callee::Port(port)) => Taken::Method(Callee::ChildPort(child, port)),
        _ => Taken::FarMethod,
    }
}

fn taken_viewed(view: &View<'_>, taken: Taken) -> Result<Taken, NoMemory>
    ensures { IfOk result (λ seen. seen ≡ spec.taken_viewed (view_of view.now) taken) }
{
    match taken {
        Taken::Signal(reference) => signal_viewed(view.child, reference),
        Taken::Child(child) => Ok(Taken::Descendant(kind_of_child(view.children, child))),
        Taken::State(_) => Ok(Taken::FarState),
        Taken::Method(callee) => Ok(method_viewed(view.child, callee)),
        _ => Ok(taken),
    }
}

/// An attribute of another component, as the component above sees it.
#[cycle(viewed)]
#[tactic(auto, using(crate::proofs::ViewedValues::forms))]
pub fn viewed(alloc: Global, view: &View<'_>, value: &Value) -> Result<Value, NoMemory>
    ensures { IfOk result (λ seen. seen ≡ spec.viewed (view_of view.now) value.now) }
{
    match value {
        Value::Taken(taken) => Ok(Value::Taken(taken_viewed(view, *taken)?)),
        Value::Items(items) => Ok(Value::Items(viewed_items(alloc, view, items.as_slice())?)),
        Value::NewInterface(members) => Ok(Value::NewInterface(viewed_members(
            alloc,
            view,
            members.as_slice(),
        )?)),
        Value::Interface(members) => Ok(Value::Interface(viewed_members(
            alloc,
            view,
            members.as_slice(),
        )?)),
        Value::Int(_)
        | Value::Type(_)
        | Value::Const(_)
        | Value::Class(_)
        | Value::Own
        | Value::New(_)
        | Value::Term(_)
        | Value::Rule(_, _) => copy(alloc, value),
    }
}

#[cycle(viewed)]
fn viewed_items(alloc: Global, view: &View<'_>, items: &[Value]) -> Result<List<Value>, NoMemory>
    ensures { IfOk result (λ seen. seen ≡ map (spec.viewed (view_of view.now)) items.now) }
{
    let mut seen = List::new(alloc);
    for item in items {
        seen.push(viewed(alloc, view, item)?)?;
    }
    Ok(seen)
}

#[cycle(viewed)]
fn viewed_members(
    alloc: Global,
    view: &View<'_>,
    members: &[Member],
) -> Result<List<Member>, NoMemory>
    ensures { IfOk result (λ seen. seen ≡ map (viewed_member (view_of view.now)) members.now) }
{
    let mut seen = List::new(alloc);
    for member in members {
        seen.push(viewed_one(alloc, view, member)?)?;
    }
    Ok(seen)
}

#[cycle(viewed)]
fn viewed_one(alloc: Global, view: &View<'_>, member: &Member) -> Result<Member, NoMemory>
    ensures { IfOk result (λ seen. seen ≡ viewed_member (view_of view.now) member.now) }
{
    Ok(Member {
        name: Text::from_slice(alloc, member.name.as_slice())?,
        value: viewed(alloc, view, &member.value)?,
    })
}

fn signal_made(role: Role, ty: ValueType) -> Taken
    ensures { result ≡ spec.signal_made role ty }
{
    Taken::FarSignal(Reference {
        part: Part {
            owner: 0,
            signal: 0,
            lo: 0,
            width: ty.width,
        },
        shape: ty.shape,
        role,
        form: Form::Whole,
    })
}

fn new_seen(new: New) -> Value
    ensures { result ≡ spec.new_seen new }
{
    match new {
        New::Signal(role, ty) => Value::Taken(signal_made(role, ty)),
        _ => Value::New(new),
    }
}

/// A member as its interface's own `construct` sees it: nothing in it is new.
#[cycle(member_seen)]
#[tactic(auto, using(crate::proofs::SeenValues::forms))]
pub fn member_seen(alloc: Global, value: &Value) -> Result<Value, NoMemory>
    ensures { IfOk result (λ seen. seen ≡ spec.member_seen value.now) }
{
    match value {
        Value::New(new) => Ok(new_seen(*new)),
        Value::NewInterface(members) | Value::Interface(members) => {
            Ok(Value::Interface(seen_members(alloc, members.as_slice())?))
        }
        Value::Items(items) => Ok(Value::Items(seen_items(alloc, items.as_slice())?)),
        Value::Int(_)
        | Value::Type(_)
        | Value::Const(_)
        | Value::Class(_)
        | Value::Own
        | Value::Taken(_)
        | Value::Term(_)
        | Value::Rule(_, _) => copy(alloc, value),
    }
}

#[cycle(member_seen)]
fn seen_items(alloc: Global, items: &[Value]) -> Result<List<Value>, NoMemory>
    ensures { IfOk result (λ seen. seen ≡ map spec.member_seen items.now) }
{
    let mut seen = List::new(alloc);
    for item in items {
        seen.push(member_seen(alloc, item)?)?;
    }
    Ok(seen)
}

#[cycle(member_seen)]
fn seen_members(alloc: Global, members: &[Member]) -> Result<List<Member>, NoMemory>
    ensures { IfOk result (λ seen. seen ≡ map seen_member members.now) }
{
    let mut seen = List::new(alloc);
    for member in members {
        seen.push(seen_one(alloc, member)?)?;
    }
    Ok(seen)
}

#[cycle(member_seen)]
fn seen_one(alloc: Global, member: &Member) -> Result<Member, NoMemory>
    ensures { IfOk result (λ seen. seen ≡ seen_member member.now) }
{
    Ok(Member {
        name: Text::from_slice(alloc, member.name.as_slice())?,
        value: member_seen(alloc, &member.value)?,
    })
}
