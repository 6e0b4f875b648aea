//! The nets that the connections of a design make.
ghost use Rattle.std.specs.Prelude.{IfOk};
ghost use Rattle.disjoint_sets.specs.Partitions.{IsPartition};
ghost use Rattle.pm_design.specs.Elaborated.{IsElaborated};
ghost use Rattle.pm_design.specs.Instances.{flat_bits as flat_bits_of};
ghost use Rattle.pm_design.specs.Sound.{IsSound};
ghost use Rattle.pm_instances.specs.Laid.{laid_out};
ghost use Rattle.pm_nets.specs.Answers.{Accepts, Answers, AreDrivenNets, IsAccepted, IsCallable, IsDriven, IsLight, IsMatched, IsPlaced, IsSingle, IsSmall};
ghost use Rattle.pm_nets.specs.Links.{AreNets, links_of};
ghost use Rattle.pm_nets.specs.Sites.{IsSite};

use crate::check::{Check, first_line};
use crate::doubles::refuse_doubles;
use crate::fault::NetFault;
use crate::joining::join_all;
use crate::no_driver::refuse_undriven;
use crate::numbering::number_nets;
use crate::site::Site;
use crate::table::offsets;
use disjoint_sets::DisjointSets;
use pm_callees::{CallerFault, caller_fault};
use pm_design::{Design, Nets};
use pm_instances::{flat_bits, flatten};
use pm_io::NoMemory;
use pm_work::work;
use std::alloc::Global;

/// The most flat bits of a design.
const MAX_BITS: u64 = 1 << 18;
/// The most nodes of all blocks of a design.
const MAX_WORK: u64 = 1 << 24;

// What is kept of a small design.
fn site_of(alloc: Global, design: &Design) -> Result<Site, NoMemory>
    requires design { IsElaborated design.now }
    requires small { IsSmall design.now }
    ensures { IfOk result (λ site. IsSite design.now site) }
{
    Ok(Site {
        instances: flatten(alloc, design)?,
        offsets: offsets(alloc, design)?,
    })
}

// What is kept of a design, if it is small.
fn place(alloc: Global, design: &Design) -> Result<Site, NetFault>
    requires { IsElaborated design.now }
    ensures { Answers design.now (IsPlaced design.now) result }
{
    let bits = flat_bits(alloc, design)?;
    if bits > MAX_BITS {
        return Err(NetFault::TooManyBits(bits));
    }
    Ok(site_of(alloc, design)?)
}

// Refuses connections of a wrong direction or of unequal types.
fn refuse_lines(alloc: Global, design: &Design, site: &Site) -> Result<(), NetFault>
    requires design { IsElaborated design.now }
    requires site { IsPlaced design.now site.now }
    ensures { Answers design.now (λ _. IsMatched design.now) result }
{
    if let Some(line) = first_line(alloc, design, site, Check::Direction)? {
        return Err(NetFault::BadDirection(line));
    }
    if let Some(line) = first_line(alloc, design, site, Check::Types)? {
        return Err(NetFault::JoinMismatch(line));
    }
    Ok(())
}

// The nets of a design, as sets of flat bits.
fn join_nets(alloc: Global, design: &Design, site: &Site) -> Result<DisjointSets, NoMemory>
    requires design { IsElaborated design.now }
    requires site { IsPlaced design.now site.now }
    ensures { IfOk result (λ sets. IsPartition (flat_bits_of design.now) (links_of (laid_out design.now)) sets) }
{
    let bits = flat_bits(alloc, design)? as u32;
    join_all(alloc, design, site, bits)
}

// The nets of a design whose connections are right, as sets of flat bits.
fn driven_nets(alloc: Global, design: &Design, site: &Site) -> Result<DisjointSets, NetFault>
    requires design { IsSound design.now }
    requires site { IsPlaced design.now site.now }
    requires single { IsSingle design.now }
    ensures { Answers design.now (AreDrivenNets design.now) result }
{
    let mut sets = join_nets(alloc, design, site)?;
    refuse_undriven(alloc, design, site, &mut sets)?;
    Ok(sets)
}

// Refuses a design with a caller port that doesn't lead to exactly one method.
fn refuse_callers(alloc: Global, design: &Design) -> Result<(), NetFault>
    requires design { IsElaborated design.now }
    requires driven { IsDriven design.now }
    ensures { Answers design.now (λ _. IsCallable design.now) result }
{
    match caller_fault(alloc, design)? {
        None => Ok(()),
        Some(CallerFault::NoCallee(port)) => Err(NetFault::NoCallee(port)),
        Some(CallerFault::TwoCallees(port)) => Err(NetFault::TwoCallees(port)),
    }
}

// Refuses a design whose blocks have too many nodes.
#[tactic(auto, using(crate::proofs::Accepting::weighing))]
fn refuse_work(alloc: Global, design: &Design, site: &Site) -> Result<(), NetFault>
    requires design { IsSound design.now }
    requires site { IsPlaced design.now site.now }
    requires callable { IsCallable design.now }
    ensures { Answers design.now (λ _. IsLight design.now) result }
{
    let work = work(alloc, design, site.instances.as_slice())?;
    if work > MAX_WORK {
        return Err(NetFault::TooMuchWork(work));
    }
    Ok(())
}

// The nets of a design, or the first test that it fails.
#[tactic(auto, using(crate::proofs::Joined::nets_numbered))]
fn tested_nets(alloc: Global, design: &Design) -> Result<Nets, NetFault>
    requires { IsSound design.now }
    ensures { Answers design.now (λ nets. IsAccepted design.now × AreNets (laid_out design.now) nets) result }
{
    let site = place(alloc, design)?;
    refuse_lines(alloc, design, &site)?;
    refuse_doubles(alloc, design, &site)?;
    let sets = driven_nets(alloc, design, &site)?;
    refuse_callers(alloc, design)?;
    refuse_work(alloc, design, &site)?;
    Ok(number_nets(alloc, &sets)?)
}

/// The nets of a sound design: two flat bits have one number if and only if a chain of connections of any instances,
/// those of `reset` among them, leads from one to the other. Nets are numbered from 0 without gaps, in the order of
/// their least flat bits.
///
/// It refuses exactly the designs that aren't accepted. The first of these tests that a design fails names the fault:
///
/// 1. [`NetFault::TooManyBits`]: at most 2^18 flat bits.
/// 2. [`NetFault::BadDirection`]: no connection joins two sources, and no constant is tied to one. A source is an own
///    input or a child's output. The first line by kind and line is named, of the kinds that have an instance.
/// 3. [`NetFault::JoinMismatch`]: ends have equal types, and constants fit. The line is named in the same way.
/// 4. [`NetFault::MultiWriter`]: within each component a net has at most one driver.
/// 5. [`NetFault::NoWriter`]: each net of two or more flat bits has a driver. A flat bit that nothing joins needs none.
/// 6. [`NetFault::NoCallee`]: from each caller port a chain of connections leads to a method.
/// 7. [`NetFault::TwoCallees`]: and from none to two or more.
/// 8. [`NetFault::TooMuchWork`]: at most 2^24 nodes in the blocks of all instances, with the count, which stops at 2^63.
///
/// Of 4 and 5 the least flat bit is named, of 6 and 7 the first port by instance and declaration. Methods aren't put in
/// the place of their calls where nodes are counted, and a method that leads to a call of itself isn't refused yet.
#[tactic(auto, using(crate::proofs::Accepting::accepting))]
pub fn nets(alloc: Global, design: &Design) -> Result<Nets, NetFault>
    requires { IsSound design.now }
    ensures answers { Answers design.now (AreNets (laid_out design.now)) result }
    ensures accepts { Accepts design.now result }
{
    tested_nets(alloc, design)
}
