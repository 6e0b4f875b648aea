//! The methods and caller ports that connections join.
ghost use Rattle.std.specs.Prelude.{◌≡◌, ◌<◌, IfOk, length, map};
ghost use Rattle.disjoint_sets.specs.Partitions.{IsPartition, Joins};
ghost use Rattle.pm_callees.specs.Joining.{joined_in};
ghost use Rattle.pm_callees.specs.Numbers.{IsSite, numbered};
ghost use Rattle.pm_design.specs.Calls.{links_of};
ghost use Rattle.pm_design.specs.Elaborated.{IsElaborated};
ghost use Rattle.pm_instances.specs.Laid.{laid_out};

use crate::site::{Site, callee_number, instance_kind};
use disjoint_sets::DisjointSets;
use pm_design::Design;
use pm_io::NoMemory;
use std::alloc::Global;

// Joins what the connections of an instance join.
fn join_instance(design: &Design, site: &Site, i: usize, sets: &mut DisjointSets)
    requires design { IsElaborated design.now }
    requires site { IsSite design.now site.now }
    requires instance { i < length site.now.instances }
    requires count { length sets.old ≡ site.now.count }
    ensures { Joins sets.old sets.new (joined_in (laid_out design.now) i) }
{
    for bind in instance_kind(design, site, i).binds.as_slice() {
        let a = callee_number(design, site, i, bind.a);
        let b = callee_number(design, site, i, bind.b);
        sets.join(a, b);
    }
}

/// The sets of methods and caller ports that the connections of all instances join.
pub(crate) fn join_all(
    alloc: Global,
    design: &Design,
    site: &Site,
) -> Result<DisjointSets, NoMemory>
    requires design { IsElaborated design.now }
    requires site { IsSite design.now site.now }
    ensures { IfOk result (λ sets. IsPartition site.now.count
        (map (numbered (laid_out design.now)) (links_of (laid_out design.now))) sets) }
{
    let mut sets = DisjointSets::new(alloc, site.count)?;
    for i in 0..site.instances.len() {
        join_instance(design, site, i, &mut sets);
    }
    Ok(sets)
}
