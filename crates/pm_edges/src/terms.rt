//! Terms of the wrong sort.
ghost use Rattle.std.specs.Prelude.{◌≡◌};
ghost use Rattle.pm_edges.specs.Wrong.{FindsWrong, IsLeastWrong, sooner_of, is_wrong as is_wrong_term, is_wrong_rule as is_wrong_in};

use pm_design::{BlockSort, Design, Kind, Rule, Term};

// Whether a term is of the wrong sort.
fn is_wrong(kind: &Kind, term: &Term) -> bool
    ensures { result ≡ is_wrong_term kind.now term.now }
{
    match term {
        Term::Block(number) => match kind.blocks.as_slice().get(*number as usize) {
            Some(block) => matches!(block.sort, BlockSort::Edge),
            None => false,
        },
        Term::Reads(_) | Term::Writes(_) | Term::Calls(_) => false,
        Term::Wrong => true,
    }
}

// Whether a constraint has a term of the wrong sort: a block that runs at the clock edge, or what the design marks as such.
fn is_wrong_rule(kind: &Kind, rule: &Rule) -> bool
    ensures { result ≡ is_wrong_in kind.now rule.now }
{
    is_wrong(kind, &rule.before) || is_wrong(kind, &rule.after)
}

// The lesser of a line and a known one, if the line counts.
fn sooner(least: Option<u32>, counts: bool, line: u32) -> Option<u32>
    ensures { result ≡ sooner_of counts line least }
{
    if !counts {
        return least;
    }
    match least {
        None => Some(line),
        Some(other) => Some(other.min(line)),
    }
}

// The least line of a kind's constraints that have a term of the wrong sort.
#[tactic(auto, using(crate::proofs::Leasts::leasts))]
fn least_wrong(kind: &Kind) -> Option<u32>
    ensures { IsLeastWrong kind.now result }
{
    let mut least = None;
    for rule in kind.rules.as_slice() {
        least = sooner(least, is_wrong_rule(kind, rule), rule.line);
    }
    least
}

/// The line of the first constraint, by kind and then by line, that has a term of the wrong sort: a block that runs at
/// the clock edge, or what the design marks as such.
pub fn unknown_term(design: &Design) -> Option<u32>
    ensures { FindsWrong design.now result }
{
    for k in 0..design.kinds.len() {
        let found = least_wrong(&design.kinds.as_slice()[k]);
        if found.is_some() {
            return found;
        }
    }
    None
}
