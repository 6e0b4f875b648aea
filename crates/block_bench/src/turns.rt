//! Many runs of one block.
ghost use Rattle.std.specs.Prelude.{◌≡◌, ◌+◌, ◌*◌, ◌<◌, ◌^◌, IsTrue};
ghost use Rattle.pm_design.specs.Layout.{is_put, layout_of};
ghost use Rattle.pm_block.specs.Places.{is_tidy};
ghost use Rattle.pm_block.specs.Tables.{IsFor};
ghost use Rattle.block_bench.specs.Sample as sample;

use crate::plan::plan;
use pm_bits::Bits;
use pm_block::{Places, Run, Steps, Temps, Values, run_body};
use pm_design::{FlatPart, Plan};
use pm_io::NoMemory;
use std::alloc::Global;
use std::sync::ledger::{Blank, Ledger};

// Puts a word of 32 bits into the signal that begins at a flat bit.
#[tactic(auto, using(crate::proofs::Runnable::acc_is_put, crate::proofs::Runnable::in_is_put, crate::proofs::Runnable::k_is_put))]
fn put_inputs(values: &mut Values)
    requires { values.old.layout ≡ layout_of sample.plan }
    ensures layout { values.new.layout ≡ values.old.layout }
    ensures held { values.new.held ≡ values.old.held }
{
    values.put(FlatPart { bit: 1, width: 32 }, word(0x1234_5678));
    values.put(FlatPart { bit: 33, width: 32 }, word(0x0f0f_0f0f));
    values.put(FlatPart { bit: 65, width: 32 }, word(0xf000_0001));
}

fn word(value: u32) -> Bits
    ensures { result.width ≡ 32 }
{
    match Bits::new(32, u128::from(value)) {
        Some(word) => word,
        None => unreachable!(),
    }
}

// Runs the plan's block so many times.
#[tactic(auto, using(crate::proofs::Runnable::sample_runnable, crate::proofs::Runnable::block_is_plain, crate::proofs::Runnable::nodes_of_block))]
fn repeat<L: Ledger>(
    plan: &Plan,
    values: &mut Values,
    temps: &mut Temps,
    steps: &mut Steps<L>,
    turns: u32,
)
    requires plan { plan.now ≡ sample.plan }
    requires layout { values.old.layout ≡ layout_of sample.plan }
    requires tidy { IsTrue (is_tidy values.old.held) }
    requires temps { IsFor sample.plan temps.old }
    requires room { steps.old + 6 * turns + 6 < 2 ^ 64 }
    ensures layout { values.new.layout ≡ values.old.layout }
{
    for turn in 0..turns {
        let _now = turn;
        run_body(plan, Run::Scheduled(0), values, temps, steps);
    }
}

/// The value of `s.out` after so many runs.
#[tactic(auto, using(crate::proofs::Runnable::sample_runnable, crate::proofs::Runnable::out_is_part))]
pub fn last_value<L: Ledger>(alloc: Global, blank: Blank, turns: u32) -> Result<Bits, NoMemory>
    requires { (blank.name ≡ L.name) × (blank.parts ≡ L.parts) × (0 < blank.parts) }
{
    let plan = plan(alloc)?;
    let mut values = Values::new(alloc, &plan)?;
    let mut temps = Temps::new(alloc, &plan)?;
    let mut steps = Steps::<L>::new(blank);
    put_inputs(&mut values);
    repeat(&plan, &mut values, &mut temps, &mut steps, turns);
    Ok(values.get(FlatPart { bit: 97, width: 32 }))
}
