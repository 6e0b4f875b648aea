//! The design below an instance.
ghost use Rattle.std.specs.Prelude.{◌≡◌, IfOk};
ghost use Rattle.pm_design.specs.Elaborated.{IsElaborated};
ghost use Rattle.pm_subtree.specs.Subtree.{IsKindAt, IsSubtree, with_top};

use crate::searching::{behind, kind_below};
use design_copy::copy_design;
use pm_design::Design;
use pm_io::NoMemory;
use std::alloc::Global;

// The kind of the instance that has a path, if there is one.
#[tactic(auto, using(crate::proofs::Paths::kind_is))]
fn kind_at(design: &Design, path: &[u8]) -> Option<u32>
    requires { IsElaborated design.now }
    ensures { IsKindAt design.now path.now result }
{
    match behind(path, b"s") {
        Some(rest) => kind_below(design, design.top, rest),
        None => None,
    }
}

// A copy of the design with another top.
fn copy_with_top(alloc: Global, design: &Design, top: u32) -> Result<Design, NoMemory>
    ensures { IfOk result (λ copied. copied ≡ with_top design.now top) }
{
    let mut copied = copy_design(alloc, design)?;
    copied.top = top;
    Ok(copied)
}

/// The design with the same kinds and shapes whose top is the kind of the instance that has the path, or `None` where
/// no instance has it.
pub fn subtree(alloc: Global, design: &Design, path: &[u8]) -> Result<Option<Design>, NoMemory>
    requires { IsElaborated design.now }
    ensures { IfOk result (IsSubtree design.now path.now) }
{
    match kind_at(design, path) {
        Some(top) => Ok(Some(copy_with_top(alloc, design, top)?)),
        None => Ok(None),
    }
}
