//! The flat bits that connections join.
ghost use Rattle.std.specs.Prelude.{◌≡◌, ◌+◌, ◌<◌, ◌≤◌, ◌^◌, ◌∷◌, [], IfOk, IsTrue, length};
ghost use Rattle.disjoint_sets.specs.Partitions.{IsPartition, Joins};
ghost use Rattle.pm_design.specs.Elaborated.{IsElaborated, is_good_join};
ghost use Rattle.pm_design.specs.Instances.{flat_bits};
ghost use Rattle.pm_design.specs.Runnable.{kind_at};
ghost use Rattle.pm_instances.specs.Laid.{laid_out};
ghost use Rattle.pm_nets.specs.Links.{join_links, links_between, links_in, links_of, reset_link, reset_part};
ghost use Rattle.pm_nets.specs.Sites.{IsSite};

use crate::site::{Site, first_bit, instance_at};
use disjoint_sets::DisjointSets;
use pm_design::{Design, Join, Kind, Part};
use pm_io::NoMemory;
use std::alloc::Global;

// Joins the flat bits from one on with those from another on.
#[tactic(auto, using(crate::proofs::Joined::bit_by_bit))]
fn join_bits(sets: &mut DisjointSets, a: u32, b: u32, width: u32)
    requires a { a + width ≤ length sets.old }
    requires b { b + width ≤ length sets.old }
    requires few { length sets.old ≤ 2 ^ 18 }
    ensures { Joins sets.old sets.new (links_between a b width) }
{
    for t in 0..width {
        sets.join(a + t, b + t);
    }
}

// Joins what a connection of an instance's kind joins.
#[tactic(auto, using(crate::proofs::Joined::join_ends))]
fn join_parts(design: &Design, site: &Site, i: usize, join: &Join, sets: &mut DisjointSets)
    requires site { IsSite design.now site.now }
    requires design { IsElaborated design.now }
    requires few { flat_bits design.now ≤ 2 ^ 18 }
    requires instance { i < length site.now.instances }
    requires join { IsTrue (is_good_join design.now (kind_at (laid_out design.now) i) join.now) }
    requires bits { length sets.old ≡ flat_bits design.now }
    ensures { Joins sets.old sets.new (join_links (laid_out design.now) i join.now) }
{
    let a = first_bit(design, site, i, join.a);
    let b = first_bit(design, site, i, join.b);
    join_bits(sets, a, b, join.a.width.min(join.b.width));
}

// Joins the `reset` of an instance with that of a child.
#[tactic(auto, using(crate::proofs::Joined::resets))]
fn join_reset(design: &Design, site: &Site, i: usize, child: u32, sets: &mut DisjointSets)
    requires site { IsSite design.now site.now }
    requires design { IsElaborated design.now }
    requires few { flat_bits design.now ≤ 2 ^ 18 }
    requires instance { i < length site.now.instances }
    requires child { child < length (kind_at (laid_out design.now) i).children }
    requires number { child < 4096 }
    requires bits { length sets.old ≡ flat_bits design.now }
    ensures { Joins sets.old sets.new (reset_link (laid_out design.now) i child ∷ []) }
{
    let own = first_bit(design, site, i, reset_of(0));
    let other = first_bit(design, site, i, reset_of(child + 1));
    sets.join(own, other);
}

/// The `reset` of a component, or of a child.
pub(crate) fn reset_of(owner: u32) -> Part
    ensures { result ≡ reset_part owner }
{
    Part {
        owner,
        signal: 0,
        lo: 0,
        width: 1,
    }
}

// Joins what the connections of an instance join.
#[tactic(auto, using(crate::proofs::Resets::join_good, crate::proofs::Joined::elements))]
fn join_instance(design: &Design, site: &Site, i: usize, kind: &Kind, sets: &mut DisjointSets)
    requires site { IsSite design.now site.now }
    requires design { IsElaborated design.now }
    requires few { flat_bits design.now ≤ 2 ^ 18 }
    requires instance { i < length site.now.instances }
    requires kind { kind.now ≡ kind_at (laid_out design.now) i }
    requires bits { length sets.old ≡ flat_bits design.now }
    ensures { Joins sets.old sets.new (links_in (laid_out design.now) i) }
{
    for join in kind.joins.as_slice() {
        join_parts(design, site, i, join, sets);
    }
    for child in 0..kind.children.len() as u32 {
        join_reset(design, site, i, child, sets);
    }
}

/// The nets of a design, as sets of flat bits: those that the connections of all instances join.
pub(crate) fn join_all(
    alloc: Global,
    design: &Design,
    site: &Site,
    bits: u32,
) -> Result<DisjointSets, NoMemory>
    requires site { IsSite design.now site.now }
    requires design { IsElaborated design.now }
    requires few { flat_bits design.now ≤ 2 ^ 18 }
    requires bits { bits ≡ flat_bits design.now }
    ensures { IfOk result (λ sets. IsPartition (flat_bits design.now) (links_of (laid_out design.now)) sets) }
{
    let mut sets = DisjointSets::new(alloc, bits)?;
    for i in 0..site.instances.len() {
        let kind = &design.kinds.as_slice()[instance_at(site, i).kind as usize];
        join_instance(design, site, i, kind, &mut sets);
    }
    Ok(sets)
}
