//! Laws of edges. No code calls these functions: each one proves its law.
ghost use Rattle.std.specs.Prelude.{[], ◌∷◌};
ghost use Rattle.pm_cons.specs.Orders.{IsTopological};
ghost use Rattle.pm_cons.specs.UpdateBlocks.{IsOrdered};
ghost use Rattle.pm_design.specs.Sample.{sample_plan};
ghost use Rattle.pm_edges.specs.Between.{EdgesAreOfBlocks, PlansSettleByTheirEdges, precedence_of_plan};
ghost use Rattle.pm_paths.specs.PlanBlocks.{blocks_of};

/// Each edge of a plan leads from a scheduled block to a scheduled block.
#[tactic(auto, using(crate::proofs::OfBlocks::edges_are_of_blocks))]
pub fn edges_are_of_blocks()
    ensures { EdgesAreOfBlocks }
{}

/// Schedule independence of a plan: if its own edges order its blocks, then running each of them once, in any order that
/// these edges allow and from any values, ends in the settled values.
pub fn plans_settle_by_their_edges()
    ensures { PlansSettleByTheirEdges }
{}

/// There is a plan whose edges order its blocks.
#[tactic(auto, using(crate::proofs::Settle::sample_ordered, crate::proofs::Settle::sample_topological))]
pub fn a_plan_is_ordered_by_its_edges()
    ensures ordered { IsOrdered (blocks_of sample_plan (precedence_of_plan sample_plan)) }
    ensures topological { IsTopological (precedence_of_plan sample_plan) (0 ∷ []) }
{}
