//! Laws of instances. No code calls these functions: each one proves its law.
ghost use Rattle.pm_design.specs.declared.design.Design.{Design};
ghost use Rattle.pm_design.specs.Elaborated.{IsElaborated};
ghost use Rattle.pm_instances.specs.Laid.{IsLaid, laid_out};

/// The numbers of instances, of their kinds, bits and children are those of what is there.
#[tactic(auto, using(crate::proofs::Placed::is_laid))]
pub fn instances_are_laid_out()
    ensures { (design : Design) → IsElaborated design → IsLaid (laid_out design) }
{}
