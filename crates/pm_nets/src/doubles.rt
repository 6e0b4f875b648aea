//! Nets within components to which two give.
ghost use Rattle.std.specs.Prelude.{◌≡◌, ◌*◌, ◌<◌, ◌≤◌, [], IfOk, IfSome, None, length};
ghost use Rattle.pm_design.specs.Instances.{flat_bits as flat_bits_of};
ghost use Rattle.pm_design.specs.Sound.{IsSound};
ghost use Rattle.pm_instances.specs.Laid.{laid_out};
ghost use Rattle.pm_nets.specs.Answers.{Answers, IsMatched, IsPlaced, IsSingle, IsSmall};
ghost use Rattle.pm_nets.specs.Givers.{AreGiven, FindsDouble, Gives, givers_in, givers_of};
ghost use Rattle.pm_nets.specs.Sites.{IsSite};

use crate::drivers::instance_kind;
use crate::ends::join_all_ends;
use crate::fault::NetFault;
use crate::gifts::gifts;
use crate::giver::Giver;
use crate::giving::give_gifts;
use crate::naming::{SignalBit, name_bit};
use crate::site::Site;
use disjoint_sets::DisjointSets;
use pm_design::Design;
use pm_instances::flat_bits;
use pm_io::NoMemory;
use std::alloc::Global;

// Looks at the givers of an instance.
fn give_instance(
    alloc: Global,
    design: &Design,
    site: &Site,
    i: usize,
    sets: &mut DisjointSets,
    first: &mut [Option<Giver>],
    least: Option<u32>,
) -> Result<Option<u32>, NoMemory>
    requires site { IsSite design.now site.now }
    requires design { IsSound design.now }
    requires small { IsSmall design.now }
    requires instance { i < length site.now.instances }
    requires bits { length sets.old ≡ 2 * flat_bits_of design.now }
    requires size { length first.old ≡ length sets.old }
    ensures same { sets.new ≡ sets.old }
    ensures size { length first.new ≡ length first.old }
    ensures given { IfOk result (λ found.
        Gives sets.old first.old first.new least found (givers_in (laid_out design.now) i)) }
{
    let kind = instance_kind(design, site, i);
    let gifts = gifts(alloc, design, kind)?;
    Ok(give_gifts(design, site, i, gifts.as_slice(), sets, first, least))
}

// Looks at the givers of all instances.
fn give_instances(
    alloc: Global,
    design: &Design,
    site: &Site,
    sets: &mut DisjointSets,
    first: &mut [Option<Giver>],
) -> Result<Option<u32>, NoMemory>
    requires site { IsSite design.now site.now }
    requires design { IsSound design.now }
    requires small { IsSmall design.now }
    requires bits { length sets.old ≡ 2 * flat_bits_of design.now }
    requires none { AreGiven sets.old [] first.old None }
    ensures same { sets.new ≡ sets.old }
    ensures given { IfOk result (λ found. AreGiven sets.old (givers_of (laid_out design.now)) first.new found) }
{
    let mut found = None;
    for i in 0..site.instances.len() {
        found = give_instance(alloc, design, site, i, sets, first, found)?;
    }
    Ok(found)
}

/// The least flat bit with an end in a net of a component to which two or more give.
pub(crate) fn least_double(
    alloc: Global,
    design: &Design,
    site: &Site,
) -> Result<Option<u32>, NoMemory>
    requires site { IsSite design.now site.now }
    requires design { IsSound design.now }
    requires small { IsSmall design.now }
    ensures found { IfOk result (λ found. FindsDouble (laid_out design.now) found) }
    ensures bound { IfOk result (λ found. IfSome found (λ flat. flat < flat_bits_of design.now)) }
{
    let bits = flat_bits(alloc, design)? as u32;
    let mut sets = join_all_ends(alloc, design, site, bits)?;
    let mut store = vec![in alloc; None; sets.len()]?;
    let found = give_instances(alloc, design, site, &mut sets, store.as_mut_slice())?;
    match found {
        None => Ok(None),
        Some(end) => Ok(Some(end / 2)),
    }
}

/// Refuses a net of a component to which two or more give: it names the least flat bit of such a net. Givers are the
/// bits of the component's inputs and of its children's outputs, each bit of a tie, and each bit that a block may
/// write. So a tie of two joined bits gives twice. The nets of a component are those of its own connections alone.
pub(crate) fn refuse_doubles(alloc: Global, design: &Design, site: &Site) -> Result<(), NetFault>
    requires design { IsSound design.now }
    requires site { IsPlaced design.now site.now }
    requires matched { IsMatched design.now }
    ensures { Answers design.now (λ _. IsSingle design.now) result }
{
    match least_double(alloc, design, site)? {
        None => Ok(()),
        Some(flat) => {
            let SignalBit { signal, bit } = name_bit(alloc, design, site, flat)?;
            Err(NetFault::MultiWriter(signal, bit))
        }
    }
}
