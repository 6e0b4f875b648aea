//! The values of `construct`.
ghost use Rattle.std.specs.Prelude.{◌≡◌, IfOk};

use crate::reference::{CallerTypes, Reference, ValueType};
use pm_bits::Bits;
use pm_design::{Callee, Role, Term};
use pm_io::{List, NoMemory, Text};
use std::alloc::Global;

/// What a call made, and no attribute has taken yet.
#[derive(Clone, Copy, PartialEq, Eq)]
pub enum New {
    /// `InPort( .. )`, `OutPort( .. )` or `Wire( .. )`.
    Signal(Role, ValueType),
    /// A call of a component class: a kind.
    Child(u32),
    /// `deque( maxlen = k )`.
    Deque(u32),
    /// `CallerPort( .. )`.
    Caller(CallerTypes),
    /// `CalleePort( method = m )`.
    Callee(Callee),
}

/// What an attribute has taken, and what the names of other components name.
#[derive(Clone, Copy, PartialEq, Eq)]
pub enum Taken {
    /// A signal of the component or a port of a child, or some of its bits.
    Signal(Reference),
    /// A child.
    Child(u32),
    /// A state of the component.
    State(u32),
    /// A method or a caller port of the component or of a child.
    Method(Callee),
    /// A component below a child: its kind.
    Descendant(u32),
    /// A signal of another component that is no port of a child, or some of its bits. The owner of its part says nothing.
    FarSignal(Reference),
    /// A state of another component.
    FarState,
    /// A method or a caller port of a component below a child.
    FarMethod,
}

/// A value of `construct`.
#[cycle(value)]
#[derive(Drop)]
pub enum Value {
    Int(i64),
    Type(ValueType),
    /// `BitsN( c )`.
    Const(Bits),
    /// A class, by its name.
    Class(Text),
    Items(List<Value>),
    /// `s`, for which `construct` runs.
    Own,
    New(New),
    /// A call of an interface class: the interface's members.
    NewInterface(List<Member>),
    Taken(Taken),
    /// An interface that is an attribute.
    Interface(List<Member>),
    /// One side of a constraint, as `U( f )`.
    Term(Term),
    /// A constraint, as `U( f ) < U( g )`: the blocks that run before, and those that run after.
    Rule(Term, Term),
}

/// A member of an interface.
#[cycle(value)]
#[derive(Drop)]
pub struct Member {
    pub name: Text,
    pub value: Value,
}

/// A copy of the value.
#[cycle(copy)]
pub fn copy(alloc: Global, value: &Value) -> Result<Value, NoMemory>
    ensures { IfOk result (λ copied. copied ≡ value.now) }
{
    match value {
        Value::Int(number) => Ok(Value::Int(*number)),
        Value::Type(ty) => Ok(Value::Type(*ty)),
        Value::Const(bits) => Ok(Value::Const(*bits)),
        Value::Class(name) => Ok(Value::Class(Text::from_slice(alloc, name.as_slice())?)),
        Value::Items(items) => Ok(Value::Items(copy_items(alloc, items.as_slice())?)),
        Value::Own => Ok(Value::Own),
        Value::New(new) => Ok(Value::New(*new)),
        Value::NewInterface(members) => Ok(Value::NewInterface(copy_members(
            alloc,
            members.as_slice(),
        )?)),
        Value::Taken(taken) => Ok(Value::Taken(*taken)),
        Value::Interface(members) => Ok(Value::Interface(copy_members(alloc, members.as_slice())?)),
        Value::Term(term) => Ok(Value::Term(copy_term(term))),
        Value::Rule(before, after) => Ok(Value::Rule(copy_term(before), copy_term(after))),
    }
}

#[cycle(copy)]
fn copy_items(alloc: Global, items: &[Value]) -> Result<List<Value>, NoMemory>
    ensures { IfOk result (λ copied. copied ≡ items.now) }
{
    let mut copied = List::new(alloc);
    for item in items {
        copied.push(copy(alloc, item)?)?;
    }
    Ok(copied)
}

#[cycle(copy)]
fn copy_members(alloc: Global, members: &[Member]) -> Result<List<Member>, NoMemory>
    ensures { IfOk result (λ copied. copied ≡ members.now) }
{
    let mut copied = List::new(alloc);
    for member in members {
        copied.push(copy_member(alloc, member)?)?;
    }
    Ok(copied)
}

#[cycle(copy)]
fn copy_member(alloc: Global, member: &Member) -> Result<Member, NoMemory>
    ensures { IfOk result (λ copied. copied ≡ member.now) }
{
    Ok(Member {
        name: Text::from_slice(alloc, member.name.as_slice())?,
        value: copy(alloc, &member.value)?,
    })
}

/// A copy of the term.
pub fn copy_term(term: &Term) -> Term
    ensures { result ≡ term.now }
{
    match term {
        Term::Block(block) => Term::Block(*block),
        Term::Reads(part) => Term::Reads(*part),
        Term::Writes(part) => Term::Writes(*part),
        Term::Calls(callee) => Term::Calls(*callee),
        Term::Wrong => Term::Wrong,
    }
}
