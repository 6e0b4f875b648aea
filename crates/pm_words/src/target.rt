//! The design that words name.
ghost use Rattle.std.specs.Prelude.{◌≡◌, map};
ghost use Rattle.pm_words.specs.Entries.{words_now};
ghost use Rattle.pm_words.specs.Readings as spec;

use crate::fault::WordsFault;
use crate::job::Target;
use crate::operand::operand_in;
use crate::parameter::params_of;
use std::alloc::Global;

/// The file, the class and the parameters that the words give.
#[tactic(auto, unfolding(crate::specs::Readings::target_of))]
pub(crate) fn target_of(alloc: Global, words: Option<&[&str]>) -> Result<Target, WordsFault>
    ensures { spec.Gives (spec.target_of (words_now words.entry)) result }
{
    match words {
        Some([file, class, assignments @ ..]) => target_with(
            alloc,
            file.as_bytes(),
            class.as_bytes(),
            assignments,
        ),
        _ => Err(WordsFault::Usage),
    }
}

#[tactic(auto, unfolding(crate::specs::Readings::target_with))]
fn target_with(
    alloc: Global,
    file: &[u8],
    class: &[u8],
    assignments: &[&str],
) -> Result<Target, WordsFault>
    ensures { spec.Gives (spec.target_with file.now class.now (map (λ word. word.now) assignments.now)) result }
{
    Ok(Target {
        file: operand_in(alloc, file)?,
        class: operand_in(alloc, class)?,
        params: params_of(alloc, assignments)?,
    })
}
