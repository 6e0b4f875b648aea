//! Members of interfaces, and children, by name and number.
ghost use Rattle.std.specs.Prelude.{◌≡◌};
ghost use Rattle.std.specs.Option.{option_copied};
ghost use Rattle.pm_elab.specs.Attributes as attributes;
ghost use Rattle.pm_elab.specs.Views as views;

use pm_design::Child;
use pm_io::List;
use pm_values::{Member, Value};

/// The member of the name.
#[tactic(auto, unfolding(crate::specs::Attributes::member_named))]
pub fn member_named<'a>(members: &'a [Member], name: &[u8]) -> Option<&'a Value>
    ensures { option_copied result ≡ attributes.member_named members.now name.now }
{
    for member in members {
        if member.name.as_slice() == name {
            return Some(&member.value);
        }
    }
    None
}

/// The kind of the child of a number, or 0 if there is none.
#[tactic(auto, unfolding(crate::specs::Views::kind_of_child))]
pub fn kind_of_child(children: &List<Child>, child: u32) -> u32
    ensures { result ≡ views.kind_of_child children.now child }
{
    match children.get(child as usize) {
        Some(child) => child.kind,
        None => 0,
    }
}
