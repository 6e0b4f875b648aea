//! What the command finds in the words, by name.
ghost use Rattle.std.specs.Prelude.{◌≡◌};
ghost use Rattle.clap.specs.Words.{found_of, rows_of};
ghost use Rattle.pm_words.specs.Entries.{entries_now};
ghost use Rattle.pm_words.specs.Words.{entries_of};

use clap::ArgMatches;

/// The action, the words after it, and the values of the options that are given.
#[derive(Clone, Copy)]
pub(crate) struct Entries<'m, 'w> {
    pub action: Option<&'w str>,
    pub rest: Option<&'m [&'w str]>,
    pub order: Option<&'w str>,
    pub reset: Option<&'w str>,
}

/// The entries of what the command finds.
#[tactic(auto, using(crate::proofs::Found::first_found, crate::proofs::Found::all_found))]
pub(crate) fn entries_in<'m, 'w>(matches: &'m ArgMatches<'w>) -> Entries<'m, 'w>
    ensures { entries_now result ≡ entries_of (rows_of (found_of matches.entry.now)) }
{
    Entries {
        action: matches.get_str("action"),
        rest: matches.get_strs("rest"),
        order: matches.get_str("order"),
        reset: matches.get_str("reset"),
    }
}
