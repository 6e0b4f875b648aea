//! Whether two values are equal.
ghost use Rattle.std.specs.Prelude.{◌≡◌, ◌↔◌, IsTrue};

use crate::value::{Member, Value};
use pm_design::Term;

/// Whether the values are equal.
#[cycle(same)]
pub fn same(a: &Value, b: &Value) -> bool
    ensures { IsTrue result ↔ (a.now ≡ b.now) }
{
    match a {
        Value::Int(number) => match b {
            Value::Int(other) => number == other,
            _ => false,
        },
        Value::Type(ty) => match b {
            Value::Type(other) => ty == other,
            _ => false,
        },
        Value::Const(bits) => match b {
            Value::Const(other) => bits == other,
            _ => false,
        },
        Value::Class(name) => match b {
            Value::Class(other) => name.as_slice() == other.as_slice(),
            _ => false,
        },
        Value::Items(items) => match b {
            Value::Items(others) => same_items(items.as_slice(), others.as_slice()),
            _ => false,
        },
        Value::Own => match b {
            Value::Own => true,
            _ => false,
        },
        Value::New(new) => match b {
            Value::New(other) => new == other,
            _ => false,
        },
        Value::NewInterface(members) => match b {
            Value::NewInterface(others) => same_members(members.as_slice(), others.as_slice()),
            _ => false,
        },
        Value::Taken(taken) => match b {
            Value::Taken(other) => taken == other,
            _ => false,
        },
        Value::Interface(members) => match b {
            Value::Interface(others) => same_members(members.as_slice(), others.as_slice()),
            _ => false,
        },
        Value::Term(term) => match b {
            Value::Term(other) => same_term(term, other),
            _ => false,
        },
        Value::Rule(before, after) => match b {
            Value::Rule(other, last) => same_term(before, other) && same_term(after, last),
            _ => false,
        },
    }
}

#[cycle(same)]
fn same_items(a: &[Value], b: &[Value]) -> bool
    ensures { IsTrue result ↔ (a.now ≡ b.now) }
{
    if a.len() != b.len() {
        return false;
    }
    for at in 0..a.len() {
        if !same(&a[at], &b[at]) {
            return false;
        }
    }
    true
}

#[cycle(same)]
fn same_members(a: &[Member], b: &[Member]) -> bool
    ensures { IsTrue result ↔ (a.now ≡ b.now) }
{
    if a.len() != b.len() {
        return false;
    }
    for at in 0..a.len() {
        if !same_member(&a[at], &b[at]) {
            return false;
        }
    }
    true
}

#[cycle(same)]
fn same_member(a: &Member, b: &Member) -> bool
    ensures { IsTrue result ↔ (a.now ≡ b.now) }
{
    a.name.as_slice() == b.name.as_slice() && same(&a.value, &b.value)
}

fn same_term(a: &Term, b: &Term) -> bool
    ensures { IsTrue result ↔ (a.now ≡ b.now) }
{
    match a {
        Term::Block(block) => match b {
            Term::Block(other) => block == other,
            _ => false,
        },
        Term::Reads(part) => match b {
            Term::Reads(other) => part == other,
            _ => false,
        },
        Term::Writes(part) => match b {
            Term::Writes(other) => part == other,
            _ => false,
        },
        Term::Calls(callee) => match b {
            Term::Calls(other) => callee == other,
            _ => false,
        },
        Term::Wrong => match b {
            Term::Wrong => true,
            _ => false,
        },
    }
}
