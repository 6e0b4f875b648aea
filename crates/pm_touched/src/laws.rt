//! Laws of reads and writes. No code calls these functions: each one proves its law.
ghost use Rattle.std.specs.Prelude.{List, ℕ};
ghost use Rattle.pm_design.specs.declared.body.St.{St};
ghost use Rattle.pm_block.specs.Value.{World};
ghost use Rattle.pm_touched.specs.Events.{Place};
ghost use Rattle.pm_design.specs.declared.plan.Flat.{Flat};
ghost use Rattle.pm_design.specs.declared.plan.Plan.{Plan};
ghost use Rattle.pm_touched.specs.Blocks.{HasNets};
ghost use Rattle.pm_touched.specs.Listed.{HasNames};
ghost use Rattle.pm_touched.specs.Found.{FaultsAreFound, PathsAreWalked};
ghost use Rattle.pm_touched.specs.Renaming.{PathsAreRenamed};

/// What the paths of a body do with a place is what one walk over the body finds.
#[tactic(auto, using(crate::proofs::Walked::paths_are_walked))]
pub fn paths_are_walked()
    ensures { PathsAreWalked }
{}

/// Under other numbers of its bits a body has the same paths, with these numbers.
#[tactic(auto, using(crate::proofs::Renamed::paths_are_renamed))]
pub fn paths_are_renamed()
    ensures { PathsAreRenamed }
{}

/// A block reads a net exactly where it reads one of its flat bits, and may write it where it may write one.
pub fn nets_are_those_of_bits()
    ensures { (plan : Plan) (block : Flat) (net : ℕ) → HasNets plan block net }
{}

/// Some path of a body reads a place, or may write it, exactly where what the body names does.
pub fn names_are_read_and_written()
    ensures { (world : World) (i : ℕ) (body : List St) (x : Place) → HasNames world i body x }
{}

/// Some path leaves a place unwritten or reads it before its first write exactly where one walk finds it.
#[tactic(auto, using(crate::proofs::Faults::faults_are_found))]
pub fn faults_are_found()
    ensures { FaultsAreFound }
{}
