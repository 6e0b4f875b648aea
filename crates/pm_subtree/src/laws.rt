//! Laws of subtrees. No code calls these functions: each one proves its law.
ghost use Rattle.std.specs.Prelude.{List, ℕ, Some, codes};
ghost use Rattle.pm_design.specs.declared.design.Design.{Design};
ghost use Rattle.pm_design.specs.Elaborated.{IsElaborated};
ghost use Rattle.pm_design.specs.Sample.{sample};
ghost use Rattle.pm_design.specs.Sound.{IsSound};
ghost use Rattle.pm_subtree.specs.Subtree.{HasItsInstances, IsSubtree, with_top};

/// The instances of a subtree are those of the whole design at and below the instance: the same rests of paths lead to
/// the same kinds.
pub fn subtrees_have_their_instances()
    ensures { (design : Design) (path : List ℕ) (subtree : Design) → IsElaborated design →
        IsSubtree design path (Some subtree) → HasItsInstances design path subtree }
{}

/// A subtree of a sound design is sound.
pub fn subtrees_are_sound()
    ensures { (design : Design) (path : List ℕ) (subtree : Design) → IsSound design →
        IsSubtree design path (Some subtree) → IsSound subtree }
{}

/// A small sound design has a subtree.
#[tactic(auto, using(crate::proofs::Samples::sample_subtree))]
pub fn a_design_has_a_subtree()
    ensures { IsSubtree sample (codes "s.add") (Some (with_top sample 0)) }
{}
