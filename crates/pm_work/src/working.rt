//! The work of a design.
ghost use Rattle.std.specs.Prelude.{◌≡◌, IfOk, map};
ghost use Rattle.pm_design.specs.Elaborated.{IsElaborated};
ghost use Rattle.pm_design.specs.Instances.{instances_of};
ghost use Rattle.pm_work.specs.Work.{counted, kind_nodes, work_of};

use crate::count::add;
use crate::nodes::count_blocks;
use pm_design::{Design, Instance};
use pm_io::NoMemory;
use std::alloc::Global;

// How many nodes the blocks of each kind have.
fn count_kinds(alloc: Global, design: &Design) -> Result<Vec<u64>, NoMemory>
    ensures { IfOk result (λ counts. counts.items ≡ map (λ k. counted (kind_nodes k)) design.now.kinds) }
{
    let mut counts = Vec::new(alloc);
    for kind in design.kinds.as_slice() {
        counts.push(count_blocks(kind.blocks.as_slice()))?;
    }
    Ok(counts)
}

/// How many nodes the blocks of all instances have. The count stops at 2^63. The nodes of methods aren't put in the
/// place of their calls.
///
/// Requires an elaborated design, and its instances. It fails only when memory runs out.
pub fn work(alloc: Global, design: &Design, instances: &[Instance]) -> Result<u64, NoMemory>
    requires design { IsElaborated design.now }
    requires instances { instances.now ≡ instances_of design.now }
    ensures { IfOk result (λ count. count ≡ counted (work_of design.now)) }
{
    let counts = count_kinds(alloc, design)?;
    let mut count = 0;
    for instance in instances {
        count = add(count, counts[instance.kind as usize]);
    }
    Ok(count)
}
