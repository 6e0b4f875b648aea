//! How many methods each set of methods and caller ports has.
ghost use Rattle.std.specs.Prelude.{◌≡◌, ◌+◌, ◌<◌, IfOk, false, true, length};
ghost use Rattle.pm_callees.specs.Ends.{IsThere};
ghost use Rattle.pm_callees.specs.Numbers.{IsSite, end_at};
ghost use Rattle.pm_callees.specs.Tally.{AreCounted, one_more_of};
ghost use Rattle.pm_design.specs.Elaborated.{IsElaborated};
ghost use Rattle.pm_instances.specs.Laid.{laid_out};

use crate::site::{Site, instance_kind, method_number};
use disjoint_sets::DisjointSets;
use pm_design::Design;
use pm_io::NoMemory;
use std::alloc::Global;

/// How many methods a set has.
#[derive(Clone, Copy)]
pub(crate) enum Methods {
    Absent,
    Single,
    Several,
}

/// Whether two sets have as many methods, as far as it matters here.
pub(crate) fn are_as_many(a: Methods, b: Methods) -> bool
    ensures yes { result ≡ true → a ≡ b }
    ensures no { result ≡ false → a ≡ b → ⊥ }
{
    match (a, b) {
        (Methods::Absent, Methods::Absent) => true,
        (Methods::Single, Methods::Single) => true,
        (Methods::Several, Methods::Several) => true,
        _ => false,
    }
}

// One method more.
fn one_more(methods: Methods) -> Methods
    ensures { result ≡ one_more_of methods }
{
    match methods {
        Methods::Absent => Methods::Single,
        Methods::Single => Methods::Several,
        Methods::Several => Methods::Several,
    }
}

// Counts a method of an instance.
fn count_method(
    design: &Design,
    site: &Site,
    i: usize,
    method: u32,
    sets: &mut DisjointSets,
    tally: &mut [Methods],
)
    requires design { IsElaborated design.now }
    requires site { IsSite design.now site.now }
    requires there { IsThere (laid_out design.now) (end_at i false method) }
    requires count { length sets.old ≡ site.now.count }
    requires before { AreCounted (laid_out design.now) sets.old i method tally.old }
    ensures same { sets.new ≡ sets.old }
    ensures counted { AreCounted (laid_out design.now) sets.old i (method + 1) tally.new }
{
    let root = sets.least(method_number(design, site, i, method)) as usize;
    tally[root] = one_more(tally[root]);
}

// Counts the methods of an instance.
fn count_instance(
    design: &Design,
    site: &Site,
    i: usize,
    sets: &mut DisjointSets,
    tally: &mut [Methods],
)
    requires design { IsElaborated design.now }
    requires site { IsSite design.now site.now }
    requires instance { i < length site.now.instances }
    requires count { length sets.old ≡ site.now.count }
    requires before { AreCounted (laid_out design.now) sets.old i 0 tally.old }
    ensures same { sets.new ≡ sets.old }
    ensures counted { AreCounted (laid_out design.now) sets.old (i + 1) 0 tally.new }
{
    for method in 0..instance_kind(design, site, i).methods.len() as u32 {
        count_method(design, site, i, method, sets, tally);
    }
}

/// How many methods each set has, by its least number.
pub(crate) fn count_methods(
    alloc: Global,
    design: &Design,
    site: &Site,
    sets: &mut DisjointSets,
) -> Result<Vec<Methods>, NoMemory>
    requires design { IsElaborated design.now }
    requires site { IsSite design.now site.now }
    requires count { length sets.old ≡ site.now.count }
    ensures same { sets.new ≡ sets.old }
    ensures counted { IfOk result (λ tally.
        AreCounted (laid_out design.now) sets.old (length site.now.instances) 0 tally.items) }
{
    let mut tally = vec![in alloc; Methods::Absent; site.count as usize]?;
    for i in 0..site.instances.len() {
        count_instance(design, site, i, sets, tally.as_mut_slice());
    }
    Ok(tally)
}
