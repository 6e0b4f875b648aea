//! Connections at fault, found by their lines.
ghost use Rattle.std.specs.Prelude.{◌≡◌, ◌++◌, ◌&&◌, ◌==◌, ◌<◌, IfOk, IsTrue, OnOk, length, not};
ghost use Rattle.std.specs.List.{list_all, list_any};
ghost use Rattle.pm_design.specs.Elaborated.{IsElaborated, is_before, is_good_join};
ghost use Rattle.pm_design.specs.Lookups.{kind_of, lies_within};
ghost use Rattle.pm_nets.specs.Faults.{Finds, IsLeastIn, is_source as is_source_of, is_without as is_without_of};
ghost use Rattle.pm_nets.specs.Faults.{has_instance as has_instance_of, kept, lesser_of, lines_of, lines_where};
ghost use Rattle.pm_nets.specs.Faults.{mismatched, misdirected};
ghost use Rattle.pm_nets.specs.Sites.{IsSite};

use crate::site::Site;
use crate::source::is_source;
use pm_bits::Bits;
use pm_design::{Bind, Design, Instance, Join, Kind, Tie};
use pm_io::NoMemory;
use std::alloc::Global;

/// What a connection is tested for.
#[derive(Clone, Copy, PartialEq, Eq)]
pub enum Check {
    /// Two sources are joined, or a constant is tied to one.
    Direction,
    /// The ends have different types or names, or a constant doesn't fit its part.
    Types,
}

// Keeps a line if a test says so.
fn keep(lines: &mut Vec<u32>, test: bool, line: u32) -> Result<(), NoMemory>
    ensures { OnOk result (lines.new.items ≡ lines.old.items ++ kept test line) }
{
    if test {
        lines.push(line)?;
    }
    Ok(())
}

// Whether an option has no value.
fn is_without(value: &Option<Bits>) -> bool
    ensures { result ≡ is_without_of value.now }
{
    match value {
        None => true,
        Some(_) => false,
    }
}

// Whether a connection joins two sources.
#[tactic(auto, using(crate::proofs::Lines::lines))]
fn joins_sources(design: &Design, kind: &Kind, join: &Join) -> bool
    requires children { IsTrue (list_all (is_before (length design.now.kinds)) kind.now.children) }
    requires join { IsTrue (is_good_join design.now kind.now join.now) }
    ensures { result ≡ (is_source_of design.now kind.now join.now.a
        && is_source_of design.now kind.now join.now.b) }
{
    is_source(design, kind, join.a) && is_source(design, kind, join.b)
}

// The lines of connections of two sources.
#[tactic(auto, using(crate::proofs::Lines::lines))]
fn misdirected_joins(design: &Design, kind: &Kind, lines: &mut Vec<u32>) -> Result<(), NoMemory>
    requires children { IsTrue (list_all (is_before (length design.now.kinds)) kind.now.children) }
    requires joins { IsTrue (list_all (is_good_join design.now kind.now) kind.now.joins) }
    ensures { OnOk result (lines.new.items ≡ lines.old.items ++ lines_where
        (λ j. is_source_of design.now kind.now j.a && is_source_of design.now kind.now j.b)
        (λ j. j.line) kind.now.joins) }
{
    for join in kind.joins.as_slice() {
        keep(lines, joins_sources(design, kind, join), join.line)?;
    }
    Ok(())
}

// The lines of constants that are tied to a source.
#[tactic(auto, using(crate::proofs::Lines::lines))]
fn misdirected_ties(design: &Design, kind: &Kind, lines: &mut Vec<u32>) -> Result<(), NoMemory>
    requires children { IsTrue (list_all (is_before (length design.now.kinds)) kind.now.children) }
    requires ties { IsTrue (list_all (λ t. lies_within design.now kind.now t.part) kind.now.ties) }
    ensures { OnOk result (lines.new.items ≡ lines.old.items
        ++ lines_where (λ t. is_source_of design.now kind.now t.part) (λ t. t.line) kind.now.ties) }
{
    for tie in kind.ties.as_slice() {
        keep(lines, is_source(design, kind, tie.part), tie.line)?;
    }
    Ok(())
}

// The lines of connections of parts of unequal types.
#[tactic(auto, using(crate::proofs::Lines::lines))]
fn mismatched_joins(joins: &[Join], lines: &mut Vec<u32>) -> Result<(), NoMemory>
    ensures { OnOk result (lines.new.items ≡ lines.old.items
        ++ lines_where (λ j. not j.equal_types) (λ j. j.line) joins.now) }
{
    for join in joins {
        keep(lines, !join.equal_types, join.line)?;
    }
    Ok(())
}

// The lines of constants that their part can't have.
#[tactic(auto, using(crate::proofs::Lines::lines))]
fn mismatched_ties(ties: &[Tie], lines: &mut Vec<u32>) -> Result<(), NoMemory>
    ensures { OnOk result (lines.new.items ≡ lines.old.items
        ++ lines_where (λ t. is_without_of t.value) (λ t. t.line) ties.now) }
{
    for tie in ties {
        keep(lines, is_without(&tie.value), tie.line)?;
    }
    Ok(())
}

// The lines of connections of caller ports of unequal types.
#[tactic(auto, using(crate::proofs::Lines::lines))]
fn mismatched_binds(binds: &[Bind], lines: &mut Vec<u32>) -> Result<(), NoMemory>
    ensures { OnOk result (lines.new.items ≡ lines.old.items
        ++ lines_where (λ b. not b.equal_types) (λ b. b.line) binds.now) }
{
    for bind in binds {
        keep(lines, !bind.equal_types, bind.line)?;
    }
    Ok(())
}

// The lines of a kind's connections whose direction is wrong.
fn misdirected_lines(alloc: Global, design: &Design, kind: &Kind) -> Result<Vec<u32>, NoMemory>
    requires children { IsTrue (list_all (is_before (length design.now.kinds)) kind.now.children) }
    requires joins { IsTrue (list_all (is_good_join design.now kind.now) kind.now.joins) }
    requires ties { IsTrue (list_all (λ t. lies_within design.now kind.now t.part) kind.now.ties) }
    ensures { IfOk result (λ lines. lines.items ≡ misdirected design.now kind.now) }
{
    let mut lines = Vec::new(alloc);
    misdirected_joins(design, kind, &mut lines)?;
    misdirected_ties(design, kind, &mut lines)?;
    Ok(lines)
}

// The lines of a kind's connections whose ends don't match.
#[tactic(auto, using(crate::proofs::Lines::joined_up))]
fn mismatched_lines(alloc: Global, kind: &Kind) -> Result<Vec<u32>, NoMemory>
    ensures { IfOk result (λ lines. lines.items ≡ mismatched kind.now) }
{
    let mut lines = Vec::new(alloc);
    mismatched_joins(kind.joins.as_slice(), &mut lines)?;
    mismatched_ties(kind.ties.as_slice(), &mut lines)?;
    mismatched_binds(kind.binds.as_slice(), &mut lines)?;
    lines.extend_from_slice(kind.mismatched.as_slice())?;
    Ok(lines)
}

// The lines of a kind that a check finds.
#[tactic(auto, using(crate::proofs::Lines::kinds))]
fn kind_lines(alloc: Global, design: &Design, k: usize, check: Check) -> Result<Vec<u32>, NoMemory>
    requires design { IsElaborated design.now }
    requires kind { k < length design.now.kinds }
    ensures { IfOk result (λ lines. lines.items ≡ lines_of design.now check (kind_of design.now k)) }
{
    let kind = &design.kinds.as_slice()[k];
    match check {
        Check::Direction => misdirected_lines(alloc, design, kind),
        Check::Types => mismatched_lines(alloc, kind),
    }
}

/// The lesser of two numbers, of which one may be missing.
pub(crate) fn lesser(least: Option<u32>, line: u32) -> u32
    ensures { result ≡ lesser_of least line }
{
    match least {
        None => line,
        Some(other) => other.min(line),
    }
}

// The least line, if there is one.
#[tactic(auto, using(crate::proofs::Leasts::leasts))]
fn least(lines: &[u32]) -> Option<u32>
    ensures { IsLeastIn lines.now result }
{
    let mut least = None;
    for line in lines {
        least = Some(lesser(least, *line));
    }
    least
}

// Whether some instance has a kind.
fn has_instance(instances: &[Instance], k: usize) -> bool
    ensures { result ≡ list_any (λ i. i.kind == k) instances.now }
{
    instances.iter().any(|instance| instance.kind as usize == k)
}

/// The line of the first connection that a check finds, by kind and then by line, among the kinds of instances.
pub(crate) fn first_line(
    alloc: Global,
    design: &Design,
    site: &Site,
    check: Check,
) -> Result<Option<u32>, NoMemory>
    requires design { IsElaborated design.now }
    requires site { IsSite design.now site.now }
    ensures { IfOk result (λ found. Finds design.now check found) }
{
    for k in 0..design.kinds.len() {
        let lines = kind_lines(alloc, design, k, check)?;
        match least(lines.as_slice()) {
            None => {}
            Some(line) => {
                if has_instance(site.instances.as_slice(), k) {
                    return Ok(Some(line));
                }
            }
        }
    }
    Ok(None)
}
