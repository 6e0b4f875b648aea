//! Which arguments are equal.
ghost use Rattle.std.specs.Prelude.{◌≡◌, map};
ghost use Rattle.pm_elab.specs.Connections as connections;
ghost use Rattle.pm_elab.specs.Equality as spec;
ghost use Rattle.pm_values.specs.declared.value.Value.{out-Value};

use pm_bits::Bits;
use pm_values::{Value, ValueType};

#[tactic(auto, unfolding(pm_elab::specs::Connections::same_number))]
fn same_number(a: Option<u32>, b: Option<u32>) -> bool
    ensures { result ≡ connections.same_number a b }
{
    match (a, b) {
        (None, None) => true,
        (Some(a), Some(b)) => a == b,
        _ => false,
    }
}

#[tactic(auto, unfolding(pm_elab::specs::Connections::same_type))]
fn same_type(a: ValueType, b: ValueType) -> bool
    ensures { result ≡ connections.same_type a b }
{
    a.width == b.width && same_number(a.shape, b.shape)
}

fn is_int(number: &i64, value: &Value) -> bool
    ensures { result ≡ spec.int_same number.now (out-Value value.now) }
{
    match value {
        Value::Int(other) => number == other,
        _ => false,
    }
}

fn is_type(ty: ValueType, value: &Value) -> bool
    ensures { result ≡ spec.type_same ty (out-Value value.now) }
{
    match value {
        Value::Type(other) => same_type(ty, *other),
        _ => false,
    }
}

fn is_constant(bits: Bits, value: &Value) -> bool
    ensures { result ≡ spec.constant_same bits (out-Value value.now) }
{
    match value {
        Value::Const(other) => bits.width() == other.width() && bits.value() == other.value(),
        _ => false,
    }
}

fn is_class(name: &[u8], value: &Value) -> bool
    ensures { result ≡ spec.class_same name.now (out-Value value.now) }
{
    match value {
        Value::Class(other) => name == other.as_slice(),
        _ => false,
    }
}

#[cycle(same)]
#[tactic(auto, unfolding(pm_elab::specs::Equality::same_arguments))]
fn is_list(items: &[Value], value: &Value) -> bool
    ensures { result ≡ spec.list_same (map spec.same items.now) (out-Value value.now) }
{
    match value {
        Value::Items(others) => same_arguments(items, others.as_slice()),
        _ => false,
    }
}

/// Whether two arguments are equal. Each is an integer, a type, a constant, a class, or a list of such values.
#[cycle(same)]
#[tactic(auto, using(crate::proofs::Equalities::forms))]
pub fn same(a: &Value, b: &Value) -> bool
    ensures { result ≡ spec.same a.now b.now }
{
    match a {
        Value::Int(number) => is_int(number, b),
        Value::Type(ty) => is_type(*ty, b),
        Value::Const(bits) => is_constant(*bits, b),
        Value::Class(name) => is_class(name.as_slice(), b),
        Value::Items(items) => is_list(items.as_slice(), b),
        Value::Own
        | Value::New(_)
        | Value::NewInterface(_)
        | Value::Taken(_)
        | Value::Interface(_)
        | Value::Term(_)
        | Value::Rule(_, _) => false,
    }
}

/// Whether two lists of arguments are equal.
#[cycle(same)]
#[tactic(auto, unfolding(pm_elab::specs::Equality::same_arguments))]
pub fn same_arguments(a: &[Value], b: &[Value]) -> bool
    ensures { result ≡ spec.same_arguments a.now b.now }
{
    for (index, value) in a.iter().enumerate() {
        match b.get(index) {
            Some(other) => {
                if !same(value, other) {
                    return false;
                }
            }
            None => return false,
        }
    }
    b.get(a.len()).is_none()
}
