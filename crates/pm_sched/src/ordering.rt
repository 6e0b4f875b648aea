//! The default order.
ghost use Rattle.std.specs.Prelude.{◌≡◌, ◌<◌, None, IfOk, IfSome, IsTrue, length};
ghost use Rattle.pm_cons.specs.DefaultOrder as spec;
ghost use Rattle.pm_cons.specs.Precedence.{has_loop};
ghost use Rattle.pm_sched.specs.Ordering.{AreStarts, IsDefaultOrder};
ghost use Rattle.pm_sched.specs.Tables.{flag, precedence_in};

use crate::predecessors::first_missing;
use bit_table::BitTable;
use pm_io::{List, NoMemory};
use std::alloc::Global;

/// The default order of the blocks. There is none if and only if some block precedes itself.
pub fn order_in(alloc: Global, predecessors: &BitTable) -> Result<Option<List<u32>>, NoMemory>
    requires { predecessors.now.columns ≡ predecessors.now.rows }
    ensures some { IfOk result (λ found. IfSome found (IsDefaultOrder (precedence_in predecessors.now))) }
    ensures none { IfOk result (λ found. found ≡ None → IsTrue (has_loop (precedence_in predecessors.now))) }
{
    let count = predecessors.rows();
    let mut listed = vec![in alloc; false; count as usize]?;
    let mut starts = vec![in alloc; 0u32; count as usize]?;
    let mut order = List::new(alloc);
    for _turn in 0..count {
        match next_block(predecessors, &listed, &mut starts) {
            Some(block) => {
                listed[block as usize] = true;
                order.push(block)?;
            }
            None => return Ok(None),
        }
    }
    Ok(Some(order))
}

// The least block that isn't listed and whose predecessors are.
fn next_block(predecessors: &BitTable, listed: &[bool], starts: &mut Vec<u32>) -> Option<u32>
    requires square { predecessors.now.columns ≡ predecessors.now.rows }
    requires blocks { length listed.now ≡ predecessors.now.rows }
    requires starts { AreStarts predecessors.now (flag listed.now) starts.old.items }
    ensures block { IfSome result (λ block. block < predecessors.now.rows) }
    ensures value { result ≡ spec.next_block (precedence_in predecessors.now) (flag listed.now) }
    ensures starts { AreStarts predecessors.now (flag listed.now) starts.new.items }
{
    for block in 0..predecessors.rows() {
        if is_ready(predecessors, listed, starts, block) {
            return Some(block);
        }
    }
    None
}

// Whether a block isn't listed and its predecessors are. The search for a missing one starts where the last one ended.
fn is_ready(predecessors: &BitTable, listed: &[bool], starts: &mut Vec<u32>, block: u32) -> bool
    requires square { predecessors.now.columns ≡ predecessors.now.rows }
    requires blocks { length listed.now ≡ predecessors.now.rows }
    requires block { block < predecessors.now.rows }
    requires starts { AreStarts predecessors.now (flag listed.now) starts.old.items }
    ensures value { result ≡ spec.is_ready (precedence_in predecessors.now) (flag listed.now) block }
    ensures starts { AreStarts predecessors.now (flag listed.now) starts.new.items }
{
    if listed[block as usize] {
        return false;
    }
    let missing = first_missing(predecessors, listed, block, starts[block as usize]);
    starts[block as usize] = missing;
    missing == predecessors.rows()
}
