//! Where a path leads.
ghost use Rattle.std.specs.Prelude.{◌≡◌, ◌≢◌, ◌++◌, ◌<◌, List, ℕ, codes, length, MatchOption};
ghost use Rattle.pm_design.specs.Elaborated.{IsElaborated};
ghost use Rattle.pm_subtree.specs.Ways.{LeadsTo};

use pm_design::Design;

// What is behind a text with which another one begins.
#[tactic(auto)]
pub(crate) fn behind<'a>(text: &'a [u8], begin: &[u8]) -> Option<&'a [u8]>
    ensures { MatchOption result ((rest : List ℕ) → text.now ≢ begin.now ++ rest)
        (λ rest. text.now ≡ begin.now ++ rest.now) }
{
    text.strip_prefix(begin)
}

// What is behind a dot and a name.
#[tactic(auto)]
fn behind_name<'a>(text: &'a [u8], name: &[u8]) -> Option<&'a [u8]>
    ensures { MatchOption result ((rest : List ℕ) → text.now ≢ codes "." ++ name.now ++ rest)
        (λ rest. text.now ≡ codes "." ++ name.now ++ rest.now) }
{
    match behind(text, b".") {
        Some(rest) => behind(rest, name),
        None => None,
    }
}

/// The kind of the component to which the rest of a path leads from one of a kind.
pub(crate) fn kind_below(design: &Design, kind: u32, rest: &[u8]) -> Option<u32>
    requires design { IsElaborated design.now }
    requires kind { kind < length design.now.kinds }
    ensures { LeadsTo design.now kind rest.now result }
{
    if rest.is_empty() {
        return Some(kind);
    }
    for child in design.kinds.as_slice()[kind as usize].children.as_slice() {
        if let Some(below) = behind_name(rest, child.name.as_slice()) {
            let found = kind_below(design, child.kind, below);
            if found.is_some() {
                return found;
            }
        }
    }
    None
}
