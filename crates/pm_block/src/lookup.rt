//! What the numbers of a plan name.
ghost use Rattle.std.specs.Prelude.{◌≡◌, ◌<◌, IsTrue, length, slice_index_or};
ghost use Rattle.pm_design.specs.Layout.{instance_of};
ghost use Rattle.pm_design.specs.Lookups.{kind_of};
ghost use Rattle.pm_design.specs.Runnable.{block_at, is_there, no_block};

use pm_design::{Block, Flat, Instance, Kind, Plan, Signal, State, Tie};

pub(crate) fn instance_at<'a>(plan: &'a Plan, i: usize) -> &'a Instance
    requires { i < length plan.now.instances }
    ensures { result.now ≡ instance_of plan.now i }
{
    &plan.instances.as_slice()[i]
}

pub(crate) fn kind_at<'a>(plan: &'a Plan, k: u32) -> &'a Kind
    requires { k < length plan.now.design.kinds }
    ensures { result.now ≡ kind_of plan.now.design k }
{
    &plan.design.kinds.as_slice()[k as usize]
}

fn block_in<'a>(kind: &'a Kind, b: u32) -> &'a Block
    requires { b < length kind.now.blocks }
    ensures { result.now ≡ slice_index_or kind.now.blocks b no_block }
{
    &kind.blocks.as_slice()[b as usize]
}

/// The block that a plan names.
#[tactic(auto, using(crate::proofs::There::is_block, crate::proofs::There::has_kind, crate::proofs::There::is_instance))]
pub(crate) fn block_of<'a>(plan: &'a Plan, flat: &Flat) -> &'a Block
    requires { IsTrue (is_there plan.now flat.now) }
    ensures { result.now ≡ block_at plan.now flat.now }
{
    block_in(
        kind_at(plan, instance_at(plan, flat.instance as usize).kind),
        flat.block,
    )
}

/// The signals of an instance.
#[tactic(auto, using(crate::proofs::There::kind_found, crate::proofs::There::kind_missing))]
pub(crate) fn signals_of<'a>(plan: &'a Plan, instance: &Instance) -> &'a [Signal]
    ensures { result.now ≡ (kind_of plan.now.design instance.now.kind).signals }
{
    match plan.design.kinds.get(instance.kind as usize) {
        Some(kind) => kind.signals.as_slice(),
        None => &[],
    }
}

/// The states of an instance.
#[tactic(auto, using(crate::proofs::There::kind_found, crate::proofs::There::kind_missing))]
pub(crate) fn states_of<'a>(plan: &'a Plan, instance: &Instance) -> &'a [State]
    ensures { result.now ≡ (kind_of plan.now.design instance.now.kind).states }
{
    match plan.design.kinds.get(instance.kind as usize) {
        Some(kind) => kind.states.as_slice(),
        None => &[],
    }
}

/// The ties of an instance.
#[tactic(auto, using(crate::proofs::There::kind_found, crate::proofs::There::kind_missing))]
pub(crate) fn ties_of<'a>(plan: &'a Plan, instance: &Instance) -> &'a [Tie]
    ensures { result.now ≡ (kind_of plan.now.design instance.now.kind).ties }
{
    match plan.design.kinds.get(instance.kind as usize) {
        Some(kind) => kind.ties.as_slice(),
        None => &[],
    }
}
