//! What the runs of a plan's blocks need, made once.
ghost use Rattle.std.specs.Prelude.{◌≡◌, IfOk};
ghost use Rattle.pm_design.specs.Runnable.{IsRunnable};
ghost use Rattle.pm_block.specs.Tables.{IsFor, assignments_in, most_in};

use crate::most::{greater, most_assignments, most_temps};
use crate::tables::scopes;
use crate::waiting::Waiting;
use pm_bits::Bits;
use pm_design::Plan;
use pm_io::{List, NoMemory};
use std::alloc::Global;
use std::marker::Model;

/// Where the signals of each instance are among the flat bits, and room for temporaries and assignments that wait.
#[derive(Drop)]
pub struct Temps {
    pub(crate) scopes: List<List<List<u32>>>,
    pub(crate) words: Vec<Bits>,
    pub(crate) waiting: Waiting,
}

impl Model for Temps {
    ghost use Rattle.std.specs.Prelude.{length};
    ghost use Rattle.pm_block.specs.Tables.{Tables};

    ghost Value = { Tables };

    ghost view = { λ t. record { scopes = t.scopes; words = length t.words.items; writes = t.waiting.writes; room = t.waiting.room } };
}

impl Temps {
    /// Room for the blocks of a plan.
    #[tactic(auto, using(crate::proofs::Runs::ends_are_below))]
    pub fn new(alloc: Global, plan: &Plan) -> Result<Temps, NoMemory>
        requires { IsRunnable plan.now }
        ensures { IfOk result (λ temps. IsFor plan.now temps) }
    {
        let scopes = scopes(alloc, plan)?;
        let words = greater(
            most_temps(plan, plan.scheduled.as_slice()),
            most_temps(plan, plan.edge_blocks.as_slice()),
        );
        let words = vec![in alloc; bit(); words]?;
        let waiting = Waiting::new(alloc, room(plan)?)?;
        Ok(Temps {
            scopes,
            words,
            waiting,
        })
    }
}

// Room for the assignments of any block. A body with 2^64 of them has no room in memory itself.
fn room(plan: &Plan) -> Result<usize, NoMemory>
    requires { IsRunnable plan.now }
    ensures { IfOk result (λ n. n ≡ most_in plan.now (assignments_in plan.now)) }
{
    let scheduled = most_assignments(plan, plan.scheduled.as_slice());
    let edge_blocks = most_assignments(plan, plan.edge_blocks.as_slice());
    match (scheduled, edge_blocks) {
        (Some(scheduled), Some(edge_blocks)) => Ok(greater(scheduled, edge_blocks)),
        _ => Err(NoMemory),
    }
}

fn bit() -> Bits {
    match Bits::new(1, 0) {
        Some(bit) => bit,
        None => unreachable!(),
    }
}
