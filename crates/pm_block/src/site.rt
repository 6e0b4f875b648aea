//! Where a body runs.
ghost use Rattle.std.specs.Prelude.{◌≡◌, ◌+◌, ◌<◌, ◌^◌, IsTrue};
ghost use Rattle.pm_design.specs.Layout.{first_bit_of as first_bit, flat_part, is_part};
ghost use Rattle.pm_block.specs.Plans.{scene_at};
ghost use Rattle.pm_block.specs.Value.{part_word};

use crate::places::Places;
use pm_bits::Bits;
use pm_design::{FlatPart, Part, Plan};
use pm_io::List;

/// The instance whose body runs, and the first flat bits of the signals that it names: its own, then each child's.
#[derive(Clone, Copy)]
pub struct Site<'a> {
    pub plan: &'a Plan,
    pub instance: u32,
    pub scope: &'a [List<u32>],
}

// The first flat bit of an owner's signal.
fn first_bit_of(scope: &[List<u32>], owner: u32, signal: u32) -> u32
    ensures { result ≡ first_bit scope.now owner signal }
{
    match scope.get(owner as usize) {
        Some(firsts) => match firsts.as_slice().get(signal as usize) {
            Some(first) => *first,
            None => 0,
        },
        None => 0,
    }
}

/// A part among the flat bits.
pub(crate) fn flat(scope: &[List<u32>], part: Part) -> FlatPart
    requires { first_bit scope.now part.owner part.signal + part.lo < 2 ^ 32 }
    ensures { result ≡ flat_part scope.now part }
{
    FlatPart {
        bit: first_bit_of(scope, part.owner, part.signal) + part.lo,
        width: part.width,
    }
}

// The word of a part.
#[tactic(auto, using(crate::proofs::Names::places_of_part))]
pub(crate) fn read<P: Places>(site: &Site, places: &P, part: Part) -> Bits
    requires { IsTrue (is_part (P.layout places.now) (flat_part site.now.scope.now part)) }
    ensures width { result.width ≡ part.width }
    ensures value { result ≡ part_word (scene_at site.now.plan.now site.now.instance site.now.scope.now (P.layout places.now)).frame.names (P.at places.now) part }
{
    places.get(flat(site.scope, part))
}
