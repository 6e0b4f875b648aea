//! The sorts of values, and what takes a value of one sort alone.
//!
//! A function that wants a value of one sort gives `WrongKind` at the line for any other.
ghost use Rattle.std.specs.Prelude.{◌≡◌, map, IfOk, IfSome};
ghost use Rattle.std.specs.List.{list_all};
ghost use Rattle.std.specs.Result.{result_ok};
ghost use Rattle.pm_elab.specs.Elab.{lent};
ghost use Rattle.pm_elab.specs.Values as spec;

use pm_bits::Bits;
use pm_io::List;
use pm_values::{BuildFault, New, Value, ValueType, copy};
use std::alloc::Global;

/// The integer that the value is.
#[tactic(auto, unfolding(crate::specs::Values::int))]
pub fn int(line: u32, value: &Value) -> Result<i64, BuildFault>
    ensures { result ≡ spec.int line value.now }
{
    match value {
        Value::Int(number) => Ok(*number),
        _ => Err(BuildFault::WrongKind(line)),
    }
}

/// The list that the value is.
#[tactic(auto, unfolding(crate::specs::Values::list))]
pub fn list(line: u32, value: &Value) -> Result<&List<Value>, BuildFault>
    ensures { lent result ≡ spec.list line value.now }
{
    match value {
        Value::Items(items) => Ok(items),
        _ => Err(BuildFault::WrongKind(line)),
    }
}

/// The type that the value is.
#[tactic(auto, unfolding(crate::specs::Values::type_in))]
pub fn type_in(line: u32, value: &Value) -> Result<ValueType, BuildFault>
    ensures { result ≡ spec.type_in line value.now }
{
    match value {
        Value::Type(ty) => Ok(*ty),
        _ => Err(BuildFault::WrongKind(line)),
    }
}

/// Bits of a width of 1 to 128, or `WidthRange`.
#[tactic(auto, unfolding(crate::specs::Values::bits_of_width))]
pub fn bits_of_width(line: u32, width: i64) -> Result<ValueType, BuildFault>
    ensures { result ≡ spec.bits_of_width line width }
{
    if 1 <= width && width <= 128 {
        Ok(ValueType {
            width: width as u32,
            shape: None,
        })
    } else {
        Err(BuildFault::WidthRange(line))
    }
}

/// The type of a signal, by a type or by a width.
#[tactic(auto, unfolding(crate::specs::Values::signal_type))]
pub fn signal_type(line: u32, value: &Value) -> Result<ValueType, BuildFault>
    ensures { result ≡ spec.signal_type line value.now }
{
    match value {
        Value::Int(width) => bits_of_width(line, *width),
        Value::Type(ty) => Ok(*ty),
        _ => Err(BuildFault::WrongKind(line)),
    }
}

/// The constant of a width that an integer is, if it is a number of the width.
pub fn constant_of(width: u32, number: i64) -> Option<Bits>
    ensures { result ≡ spec.constant_of width number }
{
    Bits::of_int(width, number)
}

/// The constant of a width that the value, an integer, is, or `IntRange`.
#[tactic(auto, unfolding(crate::specs::Values::constant))]
pub fn constant(line: u32, width: u32, value: &Value) -> Result<Bits, BuildFault>
    ensures { result ≡ spec.constant line width value.now }
{
    let number = int(line, value)?;
    match constant_of(width, number) {
        Some(bits) => Ok(bits),
        None => Err(BuildFault::IntRange(line)),
    }
}

fn literal_of(width: u32, number: u128) -> Option<Bits>
    ensures { result ≡ spec.literal_of width number }
{
    Bits::new(width, number)
}

/// The constant of a width that a literal is, which may have more than 64 bits, or `IntRange`.
#[tactic(auto, unfolding(crate::specs::Values::literal_constant))]
pub fn literal_constant(line: u32, width: u32, number: u128) -> Result<Bits, BuildFault>
    ensures { result ≡ spec.literal_constant line width number }
{
    match literal_of(width, number) {
        Some(bits) => Ok(bits),
        None => Err(BuildFault::IntRange(line)),
    }
}

/// The element of a list at an index from 0, or `IntRange`.
#[tactic(auto, unfolding(crate::specs::Values::item))]
pub fn item(line: u32, items: &List<Value>, index: i64) -> Result<&Value, BuildFault>
    ensures { lent result ≡ spec.item line items.now index }
{
    match usize::try_from(index) {
        Ok(index) => match items.get(index) {
            Some(value) => Ok(value),
            None => Err(BuildFault::IntRange(line)),
        },
        Err(_) => Err(BuildFault::IntRange(line)),
    }
}

/// Whether a class takes the value as an argument: an integer, a type, a constant, a class, or a list of such values.
#[cycle(plain)]
#[tactic(auto, using(crate::proofs::PlainValues::forms))]
pub fn is_plain(value: &Value) -> bool
    ensures { result ≡ spec.is_plain value.now }
{
    match value {
        Value::Int(_) | Value::Type(_) | Value::Const(_) | Value::Class(_) => true,
        Value::Items(items) => are_plain(items.as_slice()),
        Value::Own
        | Value::New(_)
        | Value::NewInterface(_)
        | Value::Taken(_)
        | Value::Interface(_)
        | Value::Term(_)
        | Value::Rule(_, _) => false,
    }
}

#[cycle(plain)]
fn are_plain(values: &[Value]) -> bool
    ensures { result ≡ list_all (λ b. b) (map spec.is_plain values.now) }
{
    for value in values {
        if !is_plain(value) {
            return false;
        }
    }
    true
}

/// Whether a name of `construct` can stand for the value: nothing in it is new, and it is no part of a constraint.
#[cycle(settled)]
#[tactic(auto, using(crate::proofs::SettledValues::forms))]
pub fn is_settled(value: &Value) -> bool
    ensures { result ≡ spec.is_settled value.now }
{
    match value {
        Value::New(_) | Value::NewInterface(_) | Value::Term(_) | Value::Rule(_, _) => false,
        Value::Items(items) => are_settled(items.as_slice()),
        Value::Int(_)
        | Value::Type(_)
        | Value::Const(_)
        | Value::Class(_)
        | Value::Own
        | Value::Taken(_)
        | Value::Interface(_) => true,
    }
}

#[cycle(settled)]
fn are_settled(values: &[Value]) -> bool
    ensures { result ≡ list_all (λ b. b) (map spec.is_settled values.now) }
{
    for value in values {
        if !is_settled(value) {
            return false;
        }
    }
    true
}

fn is_new_element(new: &New) -> bool
    ensures { result ≡ spec.new_element new.now }
{
    match new {
        New::Signal(_, _) | New::Child(_) => true,
        New::Deque(_) | New::Caller(_) | New::Callee(_) => false,
    }
}

/// Whether a list that is an attribute can have the value as an element: no port for calls, no state.
#[cycle(element)]
#[tactic(auto, using(crate::proofs::ElementValues::forms))]
pub fn is_element(value: &Value) -> bool
    ensures { result ≡ spec.is_element value.now }
{
    match value {
        Value::New(new) => is_new_element(new),
        Value::Own | Value::Term(_) | Value::Rule(_, _) => false,
        Value::Items(items) => are_elements(items.as_slice()),
        Value::Int(_)
        | Value::Type(_)
        | Value::Const(_)
        | Value::Class(_)
        | Value::NewInterface(_)
        | Value::Taken(_)
        | Value::Interface(_) => true,
    }
}

#[cycle(element)]
fn are_elements(values: &[Value]) -> bool
    ensures { result ≡ list_all (λ b. b) (map spec.is_element values.now) }
{
    for value in values {
        if !is_element(value) {
            return false;
        }
    }
    true
}

/// Whether an attribute of a component can take the value.
#[tactic(auto, unfolding(crate::specs::Values::is_attribute))]
pub fn is_attribute(value: &Value) -> bool
    ensures { result ≡ spec.is_attribute value.now }
{
    match value {
        Value::New(New::Deque(_)) => false,
        Value::New(_) => true,
        _ => is_element(value),
    }
}

fn is_new_member(new: &New) -> bool
    ensures { result ≡ spec.new_member new.now }
{
    match new {
        New::Signal(_, _) => true,
        New::Child(_) | New::Deque(_) | New::Caller(_) | New::Callee(_) => false,
    }
}

/// Whether a member of an interface can be the value: a signal, an interface, an integer, or a list of such members.
#[cycle(member)]
#[tactic(auto, using(crate::proofs::MemberValues::forms))]
pub fn is_member(value: &Value) -> bool
    ensures { result ≡ spec.is_member value.now }
{
    match value {
        Value::Int(_) | Value::NewInterface(_) => true,
        Value::New(new) => is_new_member(new),
        Value::Items(items) => are_members(items.as_slice()),
        Value::Type(_)
        | Value::Const(_)
        | Value::Class(_)
        | Value::Own
        | Value::Taken(_)
        | Value::Interface(_)
        | Value::Term(_)
        | Value::Rule(_, _) => false,
    }
}

#[cycle(member)]
fn are_members(values: &[Value]) -> bool
    ensures { result ≡ list_all (λ b. b) (map spec.is_member values.now) }
{
    for value in values {
        if !is_member(value) {
            return false;
        }
    }
    true
}
