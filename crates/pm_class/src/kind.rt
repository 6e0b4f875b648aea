//! Kinds of component that were made.
ghost use Rattle.std.specs.Prelude.{◌≡◌, Ok};
ghost use Rattle.pm_elab.specs.Constructs as spec;
ghost use Rattle.pm_elab.specs.Elab.{Elabs, Gives};

use crate::equality::same_arguments;
use crate::number::number_of;
use pm_elab::{Elaboration, Frame, MadeKind};
use pm_io::List;
use pm_values::{BuildFault, Value};

/// Whether the kind is of the class, at equal arguments.
#[tactic(auto, unfolding(pm_elab::specs::Constructs::is_kind_of))]
pub fn is_kind_of(class: &[u8], values: &[Value], made: &MadeKind) -> bool
    ensures { result ≡ spec.is_kind_of class.now values.now made.now }
{
    made.kind.class.as_slice() == class && same_arguments(made.arguments.as_slice(), values)
}

fn place_of(kinds: &[MadeKind], class: &[u8], values: &[Value]) -> Option<usize>
    ensures { result ≡ spec.kind_from 0 kinds.now class.now values.now }
{
    for (index, made) in kinds.iter().enumerate() {
        if is_kind_of(class, values, made) {
            return Some(index);
        }
    }
    None
}

/// The kind that was made of the class at equal arguments.
#[tactic(auto, unfolding(pm_elab::specs::Constructs::kind_made))]
pub fn kind_made(
    kinds: &[MadeKind],
    class: &[u8],
    values: &[Value],
) -> Result<Option<u32>, BuildFault>
    ensures { Gives (Ok (spec.kind_made kinds.now class.now values.now)) result }
{
    match place_of(kinds, class, values) {
        Some(place) => Ok(Some(number_of(place)?)),
        None => Ok(None),
    }
}

/// Keeps the kind of a component behind those that were made before.
#[tactic(auto, unfolding(pm_elab::specs::Constructs::keep))]
pub fn keep(
    elaboration: &mut Elaboration,
    values: List<Value>,
    frame: Frame,
) -> Result<u32, BuildFault>
    ensures { Elabs (spec.keep values frame elaboration.old) result elaboration.new }
{
    let before = elaboration.kinds.len();
    elaboration.kinds.push(MadeKind {
        arguments: values,
        kind: frame.kind,
        raw: frame.raw,
    })?;
    number_of(before)
}
