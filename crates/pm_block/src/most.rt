//! How many temporaries and assignments the blocks of a plan have at most.
ghost use Rattle.std.specs.Prelude.{◌≡◌, ◌+◌, ◌≤◌, ◌^◌, IfNone, IfSome, IsTrue, length, max};
ghost use Rattle.std.specs.List.{list_all};
ghost use Rattle.pm_design.specs.Runnable.{is_there};
ghost use Rattle.pm_block.specs.Assignments.{all_assignments, assignments as assignments_of};
ghost use Rattle.pm_block.specs.Tables.{assignments_in, most, temps_in};

use crate::lookup::block_of;
use pm_design::{Flat, Plan, St};

/// The most temporaries that one of these blocks has.
#[tactic(auto, using(crate::proofs::Mosts::most_behind, pm_design::proofs::Elements::item_passes))]
pub(crate) fn most_temps(plan: &Plan, flats: &[Flat]) -> usize
    requires { IsTrue (list_all (is_there plan.now) flats.now) }
    ensures { result ≡ most (temps_in plan.now) flats.now }
{
    let mut most = 0;
    for flat in flats {
        most = greater(most, block_of(plan, flat).temps.len());
    }
    most
}

pub(crate) fn greater(a: usize, b: usize) -> usize
    ensures { result ≡ max a b }
{
    if a < b { b } else { a }
}

/// The most assignments that one of these blocks may make, if that is a number of 64 bits.
#[tactic(auto, using(crate::proofs::Mosts::most_behind, pm_design::proofs::Elements::item_passes))]
pub(crate) fn most_assignments(plan: &Plan, flats: &[Flat]) -> Option<usize>
    requires { IsTrue (list_all (is_there plan.now) flats.now) }
    ensures { IfSome result (λ n. n ≡ most (assignments_in plan.now) flats.now) }
{
    let mut most = 0;
    for flat in flats {
        most = greater(
            most,
            all_assignments_in(block_of(plan, flat).body.as_slice())?,
        );
    }
    Some(most)
}

// The assignments that statements may make, if that is a number of 64 bits.
#[cycle(assignments)]
fn all_assignments_in(body: &[St]) -> Option<usize>
    ensures some { IfSome result (λ n. n ≡ all_assignments body.now) }
    ensures none { IfNone result (2 ^ 64 ≤ all_assignments body.now) }
{
    let mut count: usize = 0;
    for st in body {
        count = count.checked_add(assignments_in(st)?)?;
    }
    Some(count)
}

// The assignments that a statement may make, if that is a number of 64 bits.
#[cycle(assignments)]
#[tactic(auto, using(crate::proofs::Assigning::assignments_equations, pm_design::proofs::Counts::nodes_of_equations, pm_design::proofs::Counts::some_statement_nodes))]
fn assignments_in(st: &St) -> Option<usize>
    ensures some { IfSome result (λ n. n ≡ assignments_of st.now) }
    ensures none { IfNone result (2 ^ 64 ≤ assignments_of st.now) }
{
    match st {
        St::Set(_, _) | St::SetPick(_, _, _) => Some(1),
        St::If(_, yes, no) => {
            all_assignments_in(yes.as_slice())?.checked_add(all_assignments_in(no.as_slice())?)
        }
        St::SetTemp(_, _)
        | St::SetNumber(_, _)
        | St::Push(_, _, _)
        | St::Pop(_, _, _)
        | St::Clear(_)
        | St::Call(_, _, _) => Some(0),
    }
}
