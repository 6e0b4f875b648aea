//! Laws of the update blocks of a plan. No code calls these functions: each one proves its law.
ghost use Rattle.pm_paths.specs.BlockLaws.{BlocksHangOnWhatTheyRead, BlocksHangOnWhatTheyTouch, BlocksKeep};
ghost use Rattle.std.specs.Prelude.{[], ◌∷◌};
ghost use Rattle.pm_cons.specs.Orders.{IsTopological};
ghost use Rattle.pm_cons.specs.UpdateBlocks.{IsOrdered};
ghost use Rattle.pm_design.specs.Sample.{sample_plan};
ghost use Rattle.pm_paths.specs.PlanBlocks.{IsFor, OrdersAgree, PlansAreLocal, PlansSettle, RunsAreThose, blocks_of};
ghost use Rattle.pm_paths.specs.Sample as sample;

/// A scheduled block changes only places that some path of it writes.
pub fn blocks_keep_what_they_dont_write()
    ensures { BlocksKeep }
{}

/// What a scheduled block leaves at the places that it may write hangs only on the places that it reads or may write.
pub fn blocks_hang_on_what_they_touch()
    ensures { BlocksHangOnWhatTheyTouch }
{}

/// If each path of a scheduled block writes every place that the block may write, and reads none of these before, then
/// what it leaves there hangs only on the places that it reads and doesn't write.
pub fn blocks_hang_on_what_they_read()
    ensures { BlocksHangOnWhatTheyRead }
{}

/// The scheduled blocks of a plan, with any precedence between them, are such blocks as the laws of `pm_cons` ask for:
/// only blocks that there are write, each run changes only what its block may write, and hangs only on what it touches.
pub fn blocks_of_plans_are_local()
    ensures { PlansAreLocal }
{}

/// The run of such a block is what `run_body` of `pm_block` does.
pub fn runs_are_those_of_the_plan()
    ensures { RunsAreThose }
{}

/// Schedule independence of designs: if the scheduled blocks of a plan are ordered, then running each of them once, in
/// any topological order and from any values, ends in the settled values, in which no order stands. So any two orders
/// leave the same.
pub fn every_order_of_a_plan_settles()
    ensures settles { PlansSettle }
    ensures agree { OrdersAgree }
{}

/// There is a plan with a precedence that meets the premises of these laws.
#[tactic(auto, using(crate::proofs::Samples::single_is_for, crate::proofs::Samples::single_is_ordered))]
pub fn a_plan_is_ordered()
    ensures precedence { IsFor sample_plan sample.single }
    ensures ordered { IsOrdered (blocks_of sample_plan sample.single) }
    ensures topological { IsTopological sample.single (0 ∷ []) }
{}
