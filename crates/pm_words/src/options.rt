//! The options of a simulation.
ghost use Rattle.std.specs.Prelude.{◌≡◌, option_map};
ghost use Rattle.std.specs.Option.{option_and_then};
ghost use Rattle.pm_words.specs.Readings as spec;

use crate::fault::WordsFault;
use crate::number::number_of;
use crate::operand::operand_in;
use pm_io::Text;
use std::alloc::Global;

/// How many reset cycles there are if the words don't say.
const RESET: u32 = 2;

/// The greatest number of reset cycles.
const MAX_RESET: u64 = 1000;

/// The name of the order file, if one is given.
#[tactic(auto, unfolding(crate::specs::Readings::order_of))]
pub(crate) fn order_of(alloc: Global, word: Option<&str>) -> Result<Option<Text>, WordsFault>
    ensures { spec.Gives (spec.order_of (option_map (λ word. word.now) word.entry)) result }
{
    match word {
        Some(word) => Ok(Some(operand_in(alloc, word.as_bytes())?)),
        None => Ok(None),
    }
}

/// The number of reset cycles.
#[tactic(auto, unfolding(crate::specs::Readings::reset_of))]
pub(crate) fn reset_of(word: Option<&str>) -> Result<u32, WordsFault>
    ensures { spec.Gives (spec.reset_of (option_map (λ word. word.now) word.entry)) result }
{
    match word {
        Some(word) => cycles_in(number_of(word.as_bytes())).ok_or(WordsFault::Usage),
        None => Ok(RESET),
    }
}

// The number, if that many reset cycles are allowed.
#[tactic(auto, unfolding(crate::specs::Readings::cycles_in))]
fn cycles_in(number: Option<u64>) -> Option<u32>
    ensures { result ≡ option_and_then spec.cycles_in number }
{
    let number = number?;
    if number <= MAX_RESET {
        Some(number as u32)
    } else {
        None
    }
}
