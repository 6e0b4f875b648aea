//! All bodies of a design.
ghost use Rattle.pm_typing.specs.Counted.{Gives};
ghost use Rattle.pm_types.specs.Designs.{typed_design};

use crate::designs::all_bodies;
use crate::filling::filled;
use pm_design::Design;
use pm_elab::RawDesign;
use pm_typing::TypeFault;
use std::alloc::Global;

/// The design with typed bodies, which have no loops, or the first fault of its bodies.
///
/// Kinds are taken in order, the bodies of a kind by their lines, and statements in the order of their turns. Operands are
/// typed from left to right, a right side before its target, and then the node itself.
#[tactic(auto, unfolding(crate::specs::Designs::typed_design))]
pub fn type_bodies(alloc: Global, design: RawDesign) -> Result<Design, TypeFault>
    ensures { Gives (typed_design design) result }
{
    let bodies = all_bodies(alloc, &design)?;
    Ok(filled(alloc, design.design, bodies)?)
}
