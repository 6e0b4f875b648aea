//! Laws of elaboration, each proved once: no code calls them.
ghost use Rattle.pm_elab_laws.specs.Bodies.{KindsAreUntyped};
ghost use Rattle.pm_elab_laws.specs.Children.{ChildrenStandBefore};
ghost use Rattle.pm_elab_laws.specs.Components.{KindsAreComponents};
ghost use Rattle.pm_elab_laws.specs.Kinds.{KindsAreMadeOnce};
ghost use Rattle.pm_elab_laws.specs.Soundness.{DesignsAreSound, SignalsDiffer};
ghost use Rattle.pm_elab_laws.specs.Steps.{CallsOnlyAdd, ExpressionsOnlyAdd, LinesOnlyAdd, StepsStayWithinTheirBound};

/// Expressions, lines and calls of classes add steps, kinds and bitstructs. They take none away, and what was made keeps
/// its number.
#[tactic(auto, using(crate::proofs::Steps::expressions_only_add, crate::proofs::Steps::lines_only_add, crate::proofs::Steps::calls_only_add))]
pub fn elaboration_only_adds()
    ensures expressions { ExpressionsOnlyAdd }
    ensures lines { LinesOnlyAdd }
    ensures calls { CallsOnlyAdd }
{}

/// A design is never given after more than 2^20 steps.
#[tactic(auto, using(crate::proofs::Steps::steps_within))]
pub fn steps_stay_within_their_bound()
    ensures { StepsStayWithinTheirBound }
{}

/// After a component class was made at the values of its parameters, the same class at the same values is one kind: each
/// later call gives it, and makes nothing.
#[tactic(auto, using(crate::proofs::MadeOnce::made_once))]
pub fn kinds_are_made_once()
    ensures { KindsAreMadeOnce }
{}

/// In a design that is given, the first signal of every kind is `reset`, the names of its blocks differ, and a component of
/// it has at most 4,096 instances.
pub fn kinds_are_components()
    ensures { KindsAreComponents }
{}

/// In a design that is given, the top is one of its kinds, and the kind of each child has a smaller number than that of the
/// component that has it.
pub fn children_stand_before()
    ensures { ChildrenStandBefore }
{}

/// A design that is given is sound but for its bodies, which are empty: if the names that the file declares are proper ones,
/// and each type from the command line has 1 to 128 bits.
pub fn designs_are_sound()
    ensures { DesignsAreSound }
{}

/// In a design that is given, blocks have no statements and methods no guards yet, and the lines of each method are among
/// the bodies that are to be typed.
pub fn kinds_are_untyped()
    ensures { KindsAreUntyped }
{}

/// In a design that is given, the names of a kind's signals differ, under the same conditions.
pub fn signals_have_different_names()
    ensures { SignalsDiffer }
{}
