//! Numbers for the methods and caller ports of a design.
ghost use Rattle.std.specs.Prelude.{◌≡◌, ◌+◌, ◌<◌, ◌≤◌, ◌^◌, IfOk, length, map};
ghost use Rattle.std.specs.List.{range_with_len};
ghost use Rattle.pm_callees.specs.Numbers.{IsSite, ends_in, first_of};
ghost use Rattle.pm_design.specs.Elaborated.{IsElaborated};
ghost use Rattle.pm_design.specs.Instances.{flat_bits, instances_of};
ghost use Rattle.pm_instances.specs.Laid.{laid_out};

use crate::site::Site;
use pm_design::{Design, Instance};
use pm_instances::flatten;
use pm_io::{List, NoMemory};
use std::alloc::Global;

// The number behind so many more. A number that is too large has no place in memory.
fn behind(first: u32, more: usize) -> Result<u32, NoMemory>
    ensures { IfOk result (λ next. next ≡ first + more) }
{
    if more > (u32::MAX - first) as usize {
        return Err(NoMemory);
    }
    Ok(first + more as u32)
}

// The number behind those of an instance.
fn behind_instance(design: &Design, instance: &Instance, first: u32) -> Result<u32, NoMemory>
    requires { instance.now.kind < length design.now.kinds }
    ensures { IfOk result (λ next. next ≡ first + ends_in design.now instance.now) }
{
    let kind = &design.kinds.as_slice()[instance.kind as usize];
    let ports = behind(first, kind.methods.len())?;
    behind(ports, kind.callers.len())
}

// The first number of each instance, and one behind the last.
fn firsts(
    alloc: Global,
    design: &Design,
    instances: &[Instance],
) -> Result<(List<u32>, u32), NoMemory>
    requires design { IsElaborated design.now }
    requires instances { instances.now ≡ instances_of design.now }
    ensures firsts { IfOk result (λ made.
        made.0 ≡ map (first_of (laid_out design.now)) (range_with_len 0 (length instances.now))) }
    ensures count { IfOk result (λ made. made.1 ≡ first_of (laid_out design.now) (length instances.now)) }
{
    let mut firsts = List::new(alloc);
    let mut count = 0;
    for instance in instances {
        firsts.push(count)?;
        count = behind_instance(design, instance, count)?;
    }
    Ok((firsts, count))
}

/// The instances of a design, with numbers for their methods and caller ports.
pub(crate) fn site_of(alloc: Global, design: &Design) -> Result<Site, NoMemory>
    requires design { IsElaborated design.now }
    requires bits { flat_bits design.now ≤ 2 ^ 18 }
    ensures { IfOk result (λ site. IsSite design.now site) }
{
    let instances = flatten(alloc, design)?;
    let (firsts, count) = firsts(alloc, design, instances.as_slice())?;
    Ok(Site {
        instances,
        firsts,
        count,
    })
}
