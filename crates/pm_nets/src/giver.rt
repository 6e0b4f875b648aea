//! What gives values to the nets within components.
ghost use Rattle.std.specs.Prelude.{◌≡◌, ◌+◌, ◌<◌, ◌∷◌, [], true, false, length};
ghost use Rattle.pm_nets.specs.Givers.{Gives};

use crate::check::lesser;
use disjoint_sets::DisjointSets;
use pm_design::Part;

/// What gives: a port, or a tie or a block by its number in its kind.
#[derive(Clone, Copy)]
pub(crate) enum Source {
    Port,
    Tie(usize),
    Block(u32),
}

/// A part of a kind that a source gives to.
#[derive(Clone, Copy)]
pub(crate) struct Gift {
    pub(crate) source: Source,
    pub(crate) part: Part,
}

/// A source and an end that it gives to. A tie of two bits gives twice.
#[derive(Clone, Copy)]
pub(crate) struct Giver {
    pub(crate) source: Source,
    pub(crate) end: u32,
}

// Whether two sources are one.
fn is_one_source(a: Source, b: Source) -> bool
    ensures yes { result ≡ true → a ≡ b }
    ensures no { result ≡ false → a ≡ b → ⊥ }
{
    match (a, b) {
        (Source::Port, Source::Port) => true,
        (Source::Tie(m), Source::Tie(n)) => m == n,
        (Source::Block(m), Source::Block(n)) => m == n,
        _ => false,
    }
}

// Whether two givers are one.
fn is_one_giver(a: Giver, b: Giver) -> bool
    ensures yes { result ≡ true → a ≡ b }
    ensures no { result ≡ false → a ≡ b → ⊥ }
{
    a.end == b.end && is_one_source(a.source, b.source)
}

/// Looks at one giver more: the first giver of each set is kept, and the least number of a set with two is returned.
pub(crate) fn give(
    sets: &mut DisjointSets,
    first: &mut [Option<Giver>],
    least: Option<u32>,
    giver: Giver,
) -> Option<u32>
    requires end { giver.end < length sets.old }
    requires size { length first.old ≡ length sets.old }
    ensures same { sets.new ≡ sets.old }
    ensures given { Gives sets.old first.old first.new least result (giver ∷ []) }
{
    let root = sets.least(giver.end);
    match first[root as usize] {
        None => {
            first[root as usize] = Some(giver);
            least
        }
        Some(known) => {
            if is_one_giver(known, giver) {
                least
            } else {
                Some(lesser(least, root))
            }
        }
    }
}
