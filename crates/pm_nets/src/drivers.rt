//! Flat bits that have a driver of their own.
ghost use Rattle.std.specs.Prelude.{◌≡◌, ◌+◌, ◌<◌, ◌≤◌, ◌^◌, ◌∷◌, [], IsTrue, OnOk, flat_map, length};
ghost use Rattle.std.specs.List.{list_all, range_with_len};
ghost use Rattle.pm_design.specs.Elaborated.{IsElaborated};
ghost use Rattle.pm_design.specs.Instances.{flat_bits};
ghost use Rattle.pm_design.specs.Lookups.{lies_within};
ghost use Rattle.pm_design.specs.Runnable.{kind_at};
ghost use Rattle.pm_instances.specs.Laid.{laid_out};
ghost use Rattle.pm_design.specs.Sound.{IsSound};
ghost use Rattle.pm_nets.specs.Drivers.{AreDriven, Marks, bits_from, drivers_in, drivers_of, inputs_from, part_bits};
ghost use Rattle.pm_nets.specs.Sites.{IsSite};

use crate::driving::{driven_parts, input_parts};
use crate::site::{Site, first_bit, instance_at};
use disjoint_sets::DisjointSets;
use pm_design::{Design, Kind, Part};
use pm_io::NoMemory;
use std::alloc::Global;

// Marks the set of a flat bit.
#[tactic(auto, using(crate::proofs::Marking::one_marked))]
fn mark_bit(sets: &mut DisjointSets, driven: &mut [bool], bit: u32)
    requires bit { bit < length sets.old }
    requires size { length driven.old ≡ length sets.old }
    ensures same { sets.new ≡ sets.old }
    ensures marks { Marks sets.old driven.old driven.new (bit ∷ []) }
{
    let root = sets.least(bit);
    driven[root as usize] = true;
}

// Marks the sets of flat bits.
fn mark_bits(sets: &mut DisjointSets, driven: &mut [bool], first: u32, width: u32)
    requires bits { first + width ≤ length sets.old }
    requires few { length sets.old ≤ 2 ^ 18 }
    requires size { length driven.old ≡ length sets.old }
    ensures same { sets.new ≡ sets.old }
    ensures marks { Marks sets.old driven.old driven.new (bits_from first width) }
{
    for t in 0..width {
        mark_bit(sets, driven, first + t);
    }
}

// Marks the sets of a part's flat bits.
#[tactic(auto, using(crate::proofs::Marking::part_marked))]
fn mark_part(
    design: &Design,
    site: &Site,
    i: usize,
    part: Part,
    sets: &mut DisjointSets,
    driven: &mut [bool],
)
    requires site { IsSite design.now site.now }
    requires design { IsElaborated design.now }
    requires few { flat_bits design.now ≤ 2 ^ 18 }
    requires instance { i < length site.now.instances }
    requires part { IsTrue (lies_within design.now (kind_at (laid_out design.now) i) part) }
    requires bits { length sets.old ≡ flat_bits design.now }
    requires size { length driven.old ≡ length sets.old }
    ensures same { sets.new ≡ sets.old }
    ensures marks { Marks sets.old driven.old driven.new (part_bits (laid_out design.now) i part) }
{
    let first = first_bit(design, site, i, part);
    mark_bits(sets, driven, first, part.width);
}

// Marks the sets of the flat bits of parts.
#[tactic(auto, using(crate::proofs::Marking::parts_marked))]
fn mark_parts(
    design: &Design,
    site: &Site,
    i: usize,
    parts: &[Part],
    sets: &mut DisjointSets,
    driven: &mut [bool],
)
    requires site { IsSite design.now site.now }
    requires design { IsElaborated design.now }
    requires few { flat_bits design.now ≤ 2 ^ 18 }
    requires instance { i < length site.now.instances }
    requires parts { IsTrue (list_all (lies_within design.now (kind_at (laid_out design.now) i)) parts.now) }
    requires bits { length sets.old ≡ flat_bits design.now }
    requires size { length driven.old ≡ length sets.old }
    ensures same { sets.new ≡ sets.old }
    ensures marks { Marks sets.old driven.old driven.new (flat_map (part_bits (laid_out design.now) i) parts.now) }
{
    for part in parts {
        mark_part(design, site, i, *part, sets, driven);
    }
}

/// The kind of an instance.
pub(crate) fn instance_kind<'a>(design: &'a Design, site: &Site, i: usize) -> &'a Kind
    requires site { IsSite design.now site.now }
    requires design { IsElaborated design.now }
    requires instance { i < length site.now.instances }
    ensures { result.now ≡ kind_at (laid_out design.now) i }
{
    &design.kinds.as_slice()[instance_at(site, i).kind as usize]
}

// Marks the sets of what the ties and the blocks of an instance drive.
fn mark_instance(
    alloc: Global,
    design: &Design,
    site: &Site,
    i: usize,
    sets: &mut DisjointSets,
    driven: &mut [bool],
) -> Result<(), NoMemory>
    requires site { IsSite design.now site.now }
    requires design { IsSound design.now }
    requires few { flat_bits design.now ≤ 2 ^ 18 }
    requires instance { i < length site.now.instances }
    requires bits { length sets.old ≡ flat_bits design.now }
    requires size { length driven.old ≡ length sets.old }
    ensures same { sets.new ≡ sets.old }
    ensures marks { OnOk result (Marks sets.old driven.old driven.new (drivers_in (laid_out design.now) i)) }
{
    let kind = instance_kind(design, site, i);
    let parts = driven_parts(alloc, kind)?;
    mark_parts(design, site, i, parts.as_slice(), sets, driven);
    Ok(())
}

// Marks the sets of what the ties and the blocks of all instances drive.
fn mark_instances(
    alloc: Global,
    design: &Design,
    site: &Site,
    sets: &mut DisjointSets,
    driven: &mut [bool],
) -> Result<(), NoMemory>
    requires site { IsSite design.now site.now }
    requires design { IsSound design.now }
    requires few { flat_bits design.now ≤ 2 ^ 18 }
    requires bits { length sets.old ≡ flat_bits design.now }
    requires size { length driven.old ≡ length sets.old }
    ensures same { sets.new ≡ sets.old }
    ensures marks { OnOk result (Marks sets.old driven.old driven.new
        (flat_map (drivers_in (laid_out design.now)) (range_with_len 0 (length site.now.instances)))) }
{
    for i in 0..site.instances.len() {
        mark_instance(alloc, design, site, i, sets, driven)?;
    }
    Ok(())
}

// Marks the sets of the top's inputs.
fn mark_inputs(
    alloc: Global,
    design: &Design,
    site: &Site,
    sets: &mut DisjointSets,
    driven: &mut [bool],
) -> Result<(), NoMemory>
    requires site { IsSite design.now site.now }
    requires design { IsElaborated design.now }
    requires few { flat_bits design.now ≤ 2 ^ 18 }
    requires bits { length sets.old ≡ flat_bits design.now }
    requires size { length driven.old ≡ length sets.old }
    ensures same { sets.new ≡ sets.old }
    ensures marks { OnOk result (Marks sets.old driven.old driven.new
        (flat_map (part_bits (laid_out design.now) 0) (inputs_from 0 (kind_at (laid_out design.now) 0).signals))) }
{
    let parts = input_parts(alloc, instance_kind(design, site, 0).signals.as_slice())?;
    mark_parts(design, site, 0, parts.as_slice(), sets, driven);
    Ok(())
}

/// Marks the sets that have a driver, each at its least flat bit. No set is marked yet.
pub(crate) fn mark_drivers(
    alloc: Global,
    design: &Design,
    site: &Site,
    sets: &mut DisjointSets,
    driven: &mut [bool],
) -> Result<(), NoMemory>
    requires site { IsSite design.now site.now }
    requires design { IsSound design.now }
    requires few { flat_bits design.now ≤ 2 ^ 18 }
    requires bits { length sets.old ≡ flat_bits design.now }
    requires none { AreDriven sets.old [] driven.old }
    ensures same { sets.new ≡ sets.old }
    ensures driven { OnOk result (AreDriven sets.old (drivers_of (laid_out design.now)) driven.new) }
{
    mark_inputs(alloc, design, site, sets, driven)?;
    mark_instances(alloc, design, site, sets, driven)?;
    Ok(())
}
