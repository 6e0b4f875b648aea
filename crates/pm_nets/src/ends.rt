//! The ends that connections join, each as one component sees it.
ghost use Rattle.std.specs.Prelude.{◌≡◌, ◌+◌, ◌*◌, ◌<◌, ◌≤◌, ◌^◌, ◌∷◌, [], IfOk, IsTrue, length, map};
ghost use Rattle.std.specs.List.{range_with_len};
ghost use Rattle.disjoint_sets.specs.Partitions.{IsPartition, Joins};
ghost use Rattle.pm_design.specs.Elaborated.{IsElaborated, is_good_join};
ghost use Rattle.pm_design.specs.Instances.{flat_bits};
ghost use Rattle.pm_design.specs.Runnable.{kind_at};
ghost use Rattle.pm_instances.specs.Laid.{laid_out};
ghost use Rattle.pm_nets.specs.Ends.{end_at as end_at_of, ends_in, ends_joined, join_ends, reset_ends};
ghost use Rattle.pm_nets.specs.Sites.{IsSite};

use crate::joining::reset_of;
use crate::site::{Site, first_bit, instance_at};
use disjoint_sets::DisjointSets;
use pm_design::{Design, Join, Kind};
use pm_io::NoMemory;
use std::alloc::Global;

/// The end at a flat bit, as its own component sees it (owner 0) or as the component around it does.
#[tactic(auto, using(crate::proofs::Ending::ends))]
pub(crate) fn end_at(owner: u32, bit: u32) -> u32
    requires { bit ≤ 2 ^ 18 }
    ensures { result ≡ end_at_of owner bit }
{
    if owner == 0 { 2 * bit } else { 2 * bit + 1 }
}

// Joins the ends from two on, of so many bits.
#[tactic(auto, using(crate::proofs::Ending::end_bits))]
fn join_end_bits(sets: &mut DisjointSets, a: (u32, u32), b: (u32, u32), width: u32)
    requires a { 2 * (a.1 + width) ≤ length sets.old }
    requires b { 2 * (b.1 + width) ≤ length sets.old }
    requires few { length sets.old ≤ 2 ^ 19 }
    ensures { Joins sets.old sets.new
        (map (λ t. (end_at_of a.0 (a.1 + t), end_at_of b.0 (b.1 + t))) (range_with_len 0 width)) }
{
    for t in 0..width {
        sets.join(end_at(a.0, a.1 + t), end_at(b.0, b.1 + t));
    }
}

// Joins what a connection of an instance's kind joins.
#[tactic(auto, using(crate::proofs::Joined::join_ends))]
fn join_part_ends(design: &Design, site: &Site, i: usize, join: &Join, sets: &mut DisjointSets)
    requires site { IsSite design.now site.now }
    requires design { IsElaborated design.now }
    requires few { flat_bits design.now ≤ 2 ^ 18 }
    requires instance { i < length site.now.instances }
    requires join { IsTrue (is_good_join design.now (kind_at (laid_out design.now) i) join.now) }
    requires bits { length sets.old ≡ 2 * flat_bits design.now }
    ensures { Joins sets.old sets.new (join_ends (laid_out design.now) i join.now) }
{
    let a = first_bit(design, site, i, join.a);
    let b = first_bit(design, site, i, join.b);
    join_end_bits(
        sets,
        (join.a.owner, a),
        (join.b.owner, b),
        join.a.width.min(join.b.width),
    );
}

// Joins the `reset` of an instance with that of a child.
#[tactic(auto, using(crate::proofs::Joined::resets))]
fn join_reset_ends(design: &Design, site: &Site, i: usize, child: u32, sets: &mut DisjointSets)
    requires site { IsSite design.now site.now }
    requires design { IsElaborated design.now }
    requires few { flat_bits design.now ≤ 2 ^ 18 }
    requires instance { i < length site.now.instances }
    requires child { child < length (kind_at (laid_out design.now) i).children }
    requires number { child < 4096 }
    requires bits { length sets.old ≡ 2 * flat_bits design.now }
    ensures { Joins sets.old sets.new (reset_ends (laid_out design.now) i child ∷ []) }
{
    let own = first_bit(design, site, i, reset_of(0));
    let other = first_bit(design, site, i, reset_of(child + 1));
    sets.join(end_at(0, own), end_at(child + 1, other));
}

// Joins what the connections of an instance join.
#[tactic(auto, using(crate::proofs::Resets::join_good, crate::proofs::Joined::elements))]
fn join_instance_ends(design: &Design, site: &Site, i: usize, kind: &Kind, sets: &mut DisjointSets)
    requires site { IsSite design.now site.now }
    requires design { IsElaborated design.now }
    requires few { flat_bits design.now ≤ 2 ^ 18 }
    requires instance { i < length site.now.instances }
    requires kind { kind.now ≡ kind_at (laid_out design.now) i }
    requires bits { length sets.old ≡ 2 * flat_bits design.now }
    ensures { Joins sets.old sets.new (ends_in (laid_out design.now) i) }
{
    for join in kind.joins.as_slice() {
        join_part_ends(design, site, i, join, sets);
    }
    for child in 0..kind.children.len() as u32 {
        join_reset_ends(design, site, i, child, sets);
    }
}

/// The nets within components, as sets of ends: those that the connections of each component join.
pub(crate) fn join_all_ends(
    alloc: Global,
    design: &Design,
    site: &Site,
    bits: u32,
) -> Result<DisjointSets, NoMemory>
    requires site { IsSite design.now site.now }
    requires design { IsElaborated design.now }
    requires few { flat_bits design.now ≤ 2 ^ 18 }
    requires bits { bits ≡ flat_bits design.now }
    ensures { IfOk result (λ sets. IsPartition (2 * flat_bits design.now) (ends_joined (laid_out design.now)) sets) }
{
    let mut sets = DisjointSets::new(alloc, 2 * bits)?;
    for i in 0..site.instances.len() {
        let kind = &design.kinds.as_slice()[instance_at(site, i).kind as usize];
        join_instance_ends(design, site, i, kind, &mut sets);
    }
    Ok(sets)
}
