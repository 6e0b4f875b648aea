//! What is wrong with a listed order.
ghost use Rattle.std.specs.Prelude.{◌≡◌, ◌<◌, ◌^◌, ◌↔◌, ℕ, None, IfOk, IsFalse, length, not};
ghost use Rattle.pm_cons.specs.Below.{least_below};
ghost use Rattle.pm_cons.specs.Breaks as spec;
ghost use Rattle.pm_cons.specs.Edges.{AreEdges, precedence_of};
ghost use Rattle.pm_cons.specs.Orders.{IsTopological};
ghost use Rattle.pm_sched.specs.Tables.{flag, precedence_in};

use crate::predecessors::{first_missing, predecessors_of};
use bit_table::BitTable;
use pm_cons::Break;
use pm_design::Edges;
use pm_io::NoMemory;
use std::alloc::Global;

/// The first break of a listed order: that of the least place that is wrong, or else the least block that is missing.
/// There is none if and only if the list is a topological order of all blocks.
pub fn first_break(alloc: Global, edges: &Edges, order: &[u32]) -> Result<Option<Break>, NoMemory>
    requires edges { AreEdges edges.now }
    requires few { length order.now < 2 ^ 32 }
    ensures value { IfOk result (λ found. found ≡ spec.break_of (precedence_of edges.now) order.now) }
    ensures none { IfOk result (λ found. (found ≡ None) ↔ IsTopological (precedence_of edges.now) order.now) }
{
    let predecessors = predecessors_of(alloc, edges)?;
    let mut listed = vec![in alloc; false; edges.count as usize]?;
    Ok(break_in(&predecessors, &mut listed, order))
}

// The first break of a listed order. It sets the flags of the blocks that are listed before the break.
fn break_in(predecessors: &BitTable, listed: &mut Vec<bool>, order: &[u32]) -> Option<Break>
    requires square { predecessors.now.columns ≡ predecessors.now.rows }
    requires blocks { length listed.old.items ≡ predecessors.now.rows }
    requires none_listed { (b : ℕ) → IsFalse (flag listed.old.items b) }
    requires few { length order.now < 2 ^ 32 }
    ensures { result ≡ spec.break_of (precedence_in predecessors.now) order.now }
{
    for (place, block) in order.iter().enumerate() {
        match break_at(predecessors, listed, place as u32, *block) {
            Some(found) => return Some(found),
            None => listed[*block as usize] = true,
        }
    }
    first_unlisted(listed, predecessors.rows())
}

// What is wrong with the block at a place, after those that are listed before it.
fn break_at(predecessors: &BitTable, listed: &[bool], place: u32, block: u32) -> Option<Break>
    requires square { predecessors.now.columns ≡ predecessors.now.rows }
    requires blocks { length listed.now ≡ predecessors.now.rows }
    ensures { result ≡ spec.break_at (precedence_in predecessors.now) (flag listed.now) place block }
{
    if block >= predecessors.rows() {
        return Some(Break::Unknown(place));
    }
    if listed[block as usize] {
        return Some(Break::Repeated(place));
    }
    if first_missing(predecessors, listed, block, 0) < predecessors.rows() {
        return Some(Break::Early(place));
    }
    None
}

// That the least block which isn't listed is missing, if there is one.
fn first_unlisted(listed: &[bool], count: u32) -> Option<Break>
    requires { length listed.now ≡ count }
    ensures { result ≡ spec.missing_of (least_below count (λ b. not (flag listed.now b))) }
{
    for block in 0..count {
        if !listed[block as usize] {
            return Some(Break::Missing(block));
        }
    }
    None
}
