//! Connections, of two ends or of two interfaces member by member.
ghost use Rattle.std.specs.Prelude.{◌≡◌, map};
ghost use Rattle.pm_elab.specs.Elab.{Changes};
ghost use Rattle.pm_elab.specs.Connections as spec;
ghost use Rattle.pm_values.specs.declared.value.Value.TheVariants as value;

use crate::end::{constant_end, ends, int_end, method_end, signal_end};
use crate::matching::matching;
use pm_elab::{ConstructedClass, Frame, MadeKind, member_named};
use pm_values::{BuildFault, Member, Taken, Value};
use std::alloc::Global;

/// Connects an integer to a member of an interface. To another integer it connects nothing.
#[tactic(auto, unfolding(pm_elab::specs::Connections::join_int))]
fn join_int(
    number: &i64,
    kinds: &[MadeKind],
    other: &Value,
    frame: &mut Frame,
    line: u32,
) -> Result<(), BuildFault>
    ensures { Changes (spec.join_int number.now kinds.now other.now line frame.old) result frame.new }
{
    match other {
        Value::Int(_) => Ok(()),
        _ => int_end(number, other, frame, line),
    }
}

/// Connects what an attribute has taken.
#[tactic(auto, using(crate::proofs::Joinings::forms))]
fn join_taken(
    alloc: Global,
    taken: &Taken,
    kinds: &[MadeKind],
    other: &Value,
    frame: &mut Frame,
    line: u32,
) -> Result<(), BuildFault>
    ensures { Changes (spec.join_member (value.Taken taken.now) kinds.now other.now line frame.old) result frame.new }
{
    match taken {
        Taken::Signal(signal) => signal_end(signal, other, frame, line),
        Taken::Method(callee) => method_end(alloc, kinds, *callee, other, frame, line),
        Taken::Child(_)
        | Taken::State(_)
        | Taken::Descendant(_)
        | Taken::FarSignal(_)
        | Taken::FarState
        | Taken::FarMethod => Err(BuildFault::WrongKind(line)),
    }
}

/// Connects the value of a member of an interface to that of the same name in another.
#[cycle(join)]
#[tactic(auto, using(crate::proofs::Joinings::forms))]
fn join_member(
    alloc: Global,
    value: &Value,
    kinds: &[MadeKind],
    other: &Value,
    frame: &mut Frame,
    line: u32,
) -> Result<(), BuildFault>
    ensures { Changes (spec.join_member value.now kinds.now other.now line frame.old) result frame.new }
{
    match value {
        Value::Interface(members) => join_interface(
            alloc,
            members.as_slice(),
            kinds,
            other,
            frame,
            line,
        ),
        Value::Items(items) => join_list(alloc, items.as_slice(), kinds, other, frame, line),
        Value::Int(number) => join_int(number, kinds, other, frame, line),
        Value::Const(bits) => constant_end(*bits, other, frame, line),
        Value::Taken(taken) => join_taken(alloc, taken, kinds, other, frame, line),
        Value::Type(_)
        | Value::Class(_)
        | Value::Own
        | Value::New(_)
        | Value::NewInterface(_)
        | Value::Term(_)
        | Value::Rule(_, _) => Err(BuildFault::WrongKind(line)),
    }
}

#[cycle(join)]
#[tactic(auto, unfolding(pm_elab::specs::Connections::join_interface))]
fn join_interface(
    alloc: Global,
    members: &[Member],
    kinds: &[MadeKind],
    other: &Value,
    frame: &mut Frame,
    line: u32,
) -> Result<(), BuildFault>
    ensures { Changes (spec.join_interface (map spec.named_joining members.now) kinds.now other.now line frame.old) result frame.new }
{
    match other {
        Value::Interface(others) => {
            join_members(alloc, members, kinds, others.as_slice(), frame, line)
        }
        _ => Err(BuildFault::WrongKind(line)),
    }
}

#[cycle(join)]
#[tactic(auto, unfolding(pm_elab::specs::Connections::join_members))]
fn join_members(
    alloc: Global,
    members: &[Member],
    kinds: &[MadeKind],
    others: &[Member],
    frame: &mut Frame,
    line: u32,
) -> Result<(), BuildFault>
    ensures { Changes (spec.join_members (map spec.named_joining members.now) kinds.now others.now line frame.old) result frame.new }
{
    for member in members {
        join_in(alloc, member, kinds, others, frame, line)?;
    }
    Ok(())
}

#[cycle(join)]
#[tactic(auto, using(crate::proofs::Joinings::forms))]
fn join_in(
    alloc: Global,
    member: &Member,
    kinds: &[MadeKind],
    others: &[Member],
    frame: &mut Frame,
    line: u32,
) -> Result<(), BuildFault>
    ensures { Changes (spec.join_in (spec.named_joining member.now) kinds.now others.now line frame.old) result frame.new }
{
    match member_named(others, member.name.as_slice()) {
        Some(other) => join_member(alloc, &member.value, kinds, other, frame, line),
        None => Err(BuildFault::WrongKind(line)),
    }
}

#[cycle(join)]
#[tactic(auto, unfolding(pm_elab::specs::Connections::join_list))]
fn join_list(
    alloc: Global,
    items: &[Value],
    kinds: &[MadeKind],
    other: &Value,
    frame: &mut Frame,
    line: u32,
) -> Result<(), BuildFault>
    ensures { Changes (spec.join_list (map spec.join_member items.now) kinds.now other.now line frame.old) result frame.new }
{
    match other {
        Value::Items(others) => join_items(alloc, items, kinds, others.as_slice(), frame, line),
        _ => Err(BuildFault::WrongKind(line)),
    }
}

#[cycle(join)]
#[tactic(auto, unfolding(pm_elab::specs::Connections::join_items))]
fn join_items(
    alloc: Global,
    items: &[Value],
    kinds: &[MadeKind],
    others: &[Value],
    frame: &mut Frame,
    line: u32,
) -> Result<(), BuildFault>
    ensures { Changes (spec.join_items (map spec.join_member items.now) kinds.now others.now line frame.old) result frame.new }
{
    for (index, item) in items.iter().enumerate() {
        match others.get(index) {
            Some(other) => join_member(alloc, item, kinds, other, frame, line)?,
            None => return Ok(()),
        }
    }
    Ok(())
}

/// Connects two interfaces member by member. Where their members' names differ, it notes the line alone.
#[tactic(auto, unfolding(pm_elab::specs::Connections::join_interfaces))]
fn join_interfaces(
    alloc: Global,
    kinds: &[MadeKind],
    a: &Value,
    b: &Value,
    frame: &mut Frame,
    line: u32,
) -> Result<(), BuildFault>
    ensures { Changes (spec.join_interfaces kinds.now a.now b.now line frame.old) result frame.new }
{
    if matching(a, b) {
        return join_member(alloc, a, kinds, b, frame, line);
    }
    frame.kind.mismatched.push(line)?;
    Ok(())
}

#[tactic(auto, unfolding(pm_elab::specs::Connections::is_interface))]
fn is_interface(value: &Value) -> bool
    ensures { result ≡ spec.is_interface value.now }
{
    match value {
        Value::Interface(_) => true,
        _ => false,
    }
}

#[tactic(auto, unfolding(pm_elab::specs::Connections::connection))]
fn connection(
    alloc: Global,
    kinds: &[MadeKind],
    a: &Value,
    b: &Value,
    frame: &mut Frame,
    line: u32,
) -> Result<(), BuildFault>
    ensures { Changes (spec.connection kinds.now a.now b.now line frame.old) result frame.new }
{
    if is_interface(a) && is_interface(b) {
        join_interfaces(alloc, kinds, a, b, frame, line)
    } else {
        ends(alloc, kinds, a, b, frame, line)
    }
}

/// `a //= b` and `connect( a, b )`, which an interface can't have.
#[tactic(auto, unfolding(pm_elab::specs::Connections::connected))]
pub fn connected(
    alloc: Global,
    kinds: &[MadeKind],
    a: &Value,
    b: &Value,
    frame: &mut Frame,
    line: u32,
) -> Result<(), BuildFault>
    ensures { Changes (spec.connected kinds.now a.now b.now line frame.old) result frame.new }
{
    match frame.class {
        ConstructedClass::Component => connection(alloc, kinds, a, b, frame, line),
        ConstructedClass::Interface => Err(BuildFault::WrongKind(line)),
    }
}
