//! Whether two values have the same names of members and lists of the same lengths.
ghost use Rattle.std.specs.Prelude.{◌≡◌, map};
ghost use Rattle.pm_elab.specs.Connections as spec;

use pm_elab::member_named;
use pm_values::{Member, Value};

/// Whether the value is neither an interface nor a list.
#[tactic(auto, unfolding(pm_elab::specs::Connections::is_single))]
fn is_single(value: &Value) -> bool
    ensures { result ≡ spec.is_single value.now }
{
    match value {
        Value::Interface(_) | Value::Items(_) => false,
        _ => true,
    }
}

/// Whether a value can stand for the other in an interface, by the names of members and the lengths of lists.
#[cycle(matching)]
#[tactic(auto, using(crate::proofs::Matchings::forms))]
pub(crate) fn matching(a: &Value, b: &Value) -> bool
    ensures { result ≡ spec.matching a.now b.now }
{
    match a {
        Value::Interface(members) => interface_matches(members.as_slice(), b),
        Value::Items(items) => list_matches(items.as_slice(), b),
        Value::Int(_)
        | Value::Type(_)
        | Value::Const(_)
        | Value::Class(_)
        | Value::Own
        | Value::New(_)
        | Value::NewInterface(_)
        | Value::Taken(_)
        | Value::Term(_)
        | Value::Rule(_, _) => is_single(b),
    }
}

#[cycle(matching)]
#[tactic(auto, unfolding(pm_elab::specs::Connections::interface_matches))]
fn interface_matches(members: &[Member], other: &Value) -> bool
    ensures { result ≡ spec.interface_matches (map spec.member_match members.now) other.now }
{
    match other {
        Value::Interface(others) => {
            members.len() == others.len() && members_match(members, others.as_slice())
        }
        _ => false,
    }
}

#[cycle(matching)]
#[tactic(auto, unfolding(pm_elab::specs::Connections::members_match))]
fn members_match(members: &[Member], others: &[Member]) -> bool
    ensures { result ≡ spec.members_match (map spec.member_match members.now) others.now }
{
    for member in members {
        if !member_matches(member, others) {
            return false;
        }
    }
    true
}

#[cycle(matching)]
#[tactic(auto, using(crate::proofs::Matchings::forms))]
fn member_matches(member: &Member, others: &[Member]) -> bool
    ensures { result ≡ spec.match_in others.now (spec.member_match member.now) }
{
    match member_named(others, member.name.as_slice()) {
        Some(other) => matching(&member.value, other),
        None => false,
    }
}

#[cycle(matching)]
#[tactic(auto, unfolding(pm_elab::specs::Connections::list_matches))]
fn list_matches(items: &[Value], other: &Value) -> bool
    ensures { result ≡ spec.list_matches (map spec.matching items.now) other.now }
{
    match other {
        Value::Items(others) => items_match(items, others.as_slice()),
        _ => false,
    }
}

#[cycle(matching)]
#[tactic(auto, unfolding(pm_elab::specs::Connections::items_match))]
fn items_match(items: &[Value], others: &[Value]) -> bool
    ensures { result ≡ spec.items_match (map spec.matching items.now) others.now }
{
    for (index, item) in items.iter().enumerate() {
        match others.get(index) {
            Some(other) => {
                if !matching(item, other) {
                    return false;
                }
            }
            None => return false,
        }
    }
    others.get(items.len()).is_none()
}
