//! The members of an interface.
ghost use Rattle.std.specs.Prelude.{◌≡◌, IfOk};
ghost use Rattle.pm_elab.specs.Constructs as spec;
ghost use Rattle.pm_values.specs.declared.value.Member.{Member as Made};

use pm_io::{List, NoMemory, Text};
use pm_values::{Member, Table, Value, copy};
use std::alloc::Global;

fn member(alloc: Global, name: &[u8], value: &Value) -> Result<Member, NoMemory>
    ensures { IfOk result (λ (member : Made). member ≡ record { name = name.now; value = value.now }) }
{
    Ok(Member {
        name: Text::from_slice(alloc, name)?,
        value: copy(alloc, value)?,
    })
}

/// The members of an interface, by what `construct` made its attributes.
#[tactic(auto, unfolding(pm_elab::specs::Constructs::members_of))]
pub fn members_of(alloc: Global, attributes: &Table<Value>) -> Result<List<Member>, NoMemory>
    ensures { IfOk result (λ members. members ≡ spec.members_of attributes.now) }
{
    let mut members = List::new(alloc);
    for index in 0..attributes.len() {
        match attributes.entry(index) {
            Some((name, value)) => members.push(member(alloc, name, value)?)?,
            None => return Ok(members),
        }
    }
    Ok(members)
}
