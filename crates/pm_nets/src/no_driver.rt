//! Nets without a driver.
ghost use Rattle.std.specs.Prelude.{◌≡◌, ◌+◌, ◌<◌, ◌≤◌, ◌^◌, IfOk, IfSome, length};
ghost use Rattle.disjoint_sets.specs.Partitions.{IsPartition};
ghost use Rattle.pm_design.specs.Instances.{flat_bits as flat_bits_of};
ghost use Rattle.pm_design.specs.Sound.{IsSound};
ghost use Rattle.pm_instances.specs.Laid.{laid_out};
ghost use Rattle.pm_nets.specs.Answers.{Answers, IsDriven, IsPlaced, IsSingle, IsSmall};
ghost use Rattle.pm_nets.specs.Drivers.{FindsUndriven, IsFirstBelow};
ghost use Rattle.pm_nets.specs.Links.{links_of};
ghost use Rattle.pm_nets.specs.Sites.{IsSite};

use crate::check::lesser;
use crate::drivers::mark_drivers;
use crate::fault::NetFault;
use crate::naming::{SignalBit, name_bit};
use crate::site::Site;
use disjoint_sets::DisjointSets;
use pm_design::Design;
use pm_io::NoMemory;
use std::alloc::Global;

// The least so far, once the set of one number more is looked at.
fn next_other(sets: &mut DisjointSets, driven: &[bool], least: Option<u32>, bit: u32) -> Option<u32>
    requires bit { bit < length sets.old }
    requires size { length driven.now ≡ length sets.old }
    requires first { IsFirstBelow sets.old driven.now bit least }
    ensures same { sets.new ≡ sets.old }
    ensures first { IsFirstBelow sets.old driven.now (bit + 1) result }
{
    let root = sets.least(bit);
    if root == bit || driven[root as usize] {
        return least;
    }
    Some(lesser(least, root))
}

// The least number of a set of two or more that has no mark.
#[tactic(auto, using(crate::proofs::FirstUndriven::firsts))]
fn first_other(sets: &mut DisjointSets, driven: &[bool]) -> Option<u32>
    requires few { length sets.old ≤ 2 ^ 18 }
    requires size { length driven.now ≡ length sets.old }
    ensures same { sets.new ≡ sets.old }
    ensures first { IsFirstBelow sets.old driven.now (length sets.old) result }
{
    let mut least = None;
    for bit in 0..driven.len() as u32 {
        least = next_other(sets, driven, least, bit);
    }
    least
}

/// The least flat bit of a net of two or more bits that has no driver.
pub(crate) fn least_undriven(
    alloc: Global,
    design: &Design,
    site: &Site,
    sets: &mut DisjointSets,
) -> Result<Option<u32>, NoMemory>
    requires site { IsSite design.now site.now }
    requires design { IsSound design.now }
    requires small { IsSmall design.now }
    requires nets { IsPartition (flat_bits_of design.now) (links_of (laid_out design.now)) sets.old }
    ensures same { sets.new ≡ sets.old }
    ensures found { IfOk result (λ found. FindsUndriven (laid_out design.now) found) }
    ensures bound { IfOk result (λ found. IfSome found (λ flat. flat < flat_bits_of design.now)) }
{
    let mut marks = vec![in alloc; false; sets.len()]?;
    let driven = marks.as_mut_slice();
    mark_drivers(alloc, design, site, sets, driven)?;
    Ok(first_other(sets, driven))
}

/// Refuses a net of two or more flat bits that has no driver: it names the least flat bit of such a net. Drivers are the
/// inputs of the top, the ties, and what the blocks of all instances may write. A flat bit that nothing joins needs no
/// driver.
pub(crate) fn refuse_undriven(
    alloc: Global,
    design: &Design,
    site: &Site,
    sets: &mut DisjointSets,
) -> Result<(), NetFault>
    requires design { IsSound design.now }
    requires site { IsPlaced design.now site.now }
    requires single { IsSingle design.now }
    requires nets { IsPartition (flat_bits_of design.now) (links_of (laid_out design.now)) sets.old }
    ensures same { sets.new ≡ sets.old }
    ensures answers { Answers design.now (λ _. IsDriven design.now) result }
{
    match least_undriven(alloc, design, site, sets)? {
        None => Ok(()),
        Some(flat) => {
            let SignalBit { signal, bit } = name_bit(alloc, design, site, flat)?;
            Err(NetFault::NoWriter(signal, bit))
        }
    }
}
