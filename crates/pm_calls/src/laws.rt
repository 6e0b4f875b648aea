//! Laws of calls. No code calls these functions: each one proves its law.
ghost use Rattle.std.specs.Prelude.{ℕ, ◌≡◌, false, Some};
ghost use Rattle.pm_callees.specs.Chains.{LeadsTo};
ghost use Rattle.pm_callees.specs.Ends.{IsMethod};
ghost use Rattle.pm_callees.specs.Sets.{IsSingle};
ghost use Rattle.pm_calls.specs.Cycles.{Asks, Calls, IsCyclic, Leads};
ghost use Rattle.pm_calls.specs.Targets.{callee_end};
ghost use Rattle.pm_design.specs.declared.connection.Callee.{Callee};
ghost use Rattle.pm_design.specs.declared.plan.Plan.{Plan};
ghost use Rattle.pm_design.specs.declared.design.Design.{Design};
ghost use Rattle.pm_design.specs.Calls.{End, end_of, leads_to, target_of};
ghost use Rattle.pm_design.specs.Elaborated.{IsElaborated};
ghost use Rattle.pm_instances.specs.Laid.{laid_out};

/// Where calls lead from a method to another one and back, both can lead to a call of themselves; and so with guards.
#[tactic(auto, using(crate::proofs::Rounds::calls_round, crate::proofs::Rounds::asks_round))]
pub fn rounds_are_cyclic()
    ensures calls { (plan : Plan) (e f : End) → Leads (Calls plan) e f → Leads (Calls plan) f e → IsCyclic plan f }
    ensures asks { (plan : Plan) (e f : End) → Leads (Asks plan) e f → Leads (Asks plan) f e → IsCyclic plan f }
{}

/// What can lead to a call of itself is a method of an instance.
#[tactic(auto, using(crate::proofs::Rounds::cyclic_method))]
pub fn cyclic_ends_are_methods()
    ensures { (plan : Plan) (e : End) → IsCyclic plan e → IsMethod plan e }
{}

/// A call runs the method that its callee leads to.
#[tactic(auto, using(crate::proofs::Rounds::same_target))]
pub fn calls_run_what_they_lead_to()
    ensures { (plan : Plan) (i : ℕ) (m : Callee) → leads_to plan i m ≡ target_of plan (callee_end plan i m) }
{}

/// A callee leads to the one method that chains of connections lead to, if there is exactly one; and a method that is
/// named itself leads to itself.
pub fn callees_lead_to_one_method()
    ensures chained { (design : Design) (i : ℕ) (m : Callee) → IsElaborated design →
        (one : IsSingle (LeadsTo (laid_out design) (end_of (laid_out design) i m))) →
        callee_end (laid_out design) i m ≡ Some one.one }
    ensures named { (plan : Plan) (i : ℕ) (m : Callee) → (end_of plan i m).port ≡ false →
        callee_end plan i m ≡ Some (end_of plan i m) }
{}
