//! Words that name something.
ghost use Rattle.std.specs.Prelude.{◌≡◌};
ghost use Rattle.pm_words.specs.Readings as spec;

use crate::fault::WordsFault;
use pm_io::Text;
use std::alloc::Global;

/// The name that a word is: it is neither empty nor `-`.
#[tactic(auto, unfolding(crate::specs::Readings::operand_in))]
pub(crate) fn operand_in(alloc: Global, word: &[u8]) -> Result<Text, WordsFault>
    ensures { spec.Gives (spec.operand_in word.now) result }
{
    if is_operand(word) {
        Ok(Text::from_slice(alloc, word)?)
    } else {
        Err(WordsFault::Usage)
    }
}

#[tactic(auto, unfolding(crate::specs::Readings::is_operand))]
fn is_operand(word: &[u8]) -> bool
    ensures { result ≡ spec.is_operand word.now }
{
    !word.is_empty() && word != b"-".as_slice()
}
