//! The direct predecessors of each block, as a table of bits.
ghost use Rattle.std.specs.Prelude.{◌≡◌, ◌<◌, ◌≤◌, ◌&&◌, ℕ, IfOk, IsFalse, IsTrue, eqb, length, slice_index};
ghost use Rattle.bit_table.specs.Tables.{Adds, is_set};
ghost use Rattle.pm_cons.specs.Edges.{AreEdges, precedence_of};
ghost use Rattle.pm_cons.specs.Orders.{has};
ghost use Rattle.pm_sched.specs.Tables.{flag, precedence_in};

use bit_table::BitTable;
use pm_design::Edges;
use std::alloc::{AllocError, Global};

/// A table with a row for each block, in which the columns of its direct predecessors are set.
pub fn predecessors_of(alloc: Global, edges: &Edges) -> Result<BitTable, AllocError>
    requires { AreEdges edges.now }
    ensures square { IfOk result (λ table. table.columns ≡ table.rows) }
    ensures bits { IfOk result (λ table. precedence_in table ≡ precedence_of edges.now) }
{
    let mut table = BitTable::new(alloc, edges.count, edges.count)?;
    for block in 0..edges.count {
        let after = &edges.after.as_slice()[block as usize];
        set_column(&mut table, block, after.as_slice());
    }
    Ok(table)
}

// Sets the bits of a column in these rows.
fn set_column(table: &mut BitTable, column: u32, rows: &[u32])
    requires column { column < table.old.columns }
    requires rows { (i : ℕ) → i < length rows.now → slice_index rows.now i < table.old.rows }
    ensures { Adds table.old table.new (λ r c. has rows.now r && eqb c column) }
{
    for row in rows {
        table.set(*row, column);
    }
}

/// The least predecessor of a block, from a number on, that isn't listed. If there is none it is the number of blocks.
pub fn first_missing(predecessors: &BitTable, listed: &[bool], block: u32, from: u32) -> u32
    requires square { predecessors.now.columns ≡ predecessors.now.rows }
    requires blocks { length listed.now ≡ predecessors.now.rows }
    requires block { block < predecessors.now.rows }
    requires from { from ≤ predecessors.now.rows }
    ensures within { (from ≤ result) × (result ≤ predecessors.now.rows) }
    ensures passed { (a : ℕ) → from ≤ a → a < result → IsTrue (is_set predecessors.now block a) →
        IsTrue (flag listed.now a) }
    ensures missing { result < predecessors.now.rows →
        IsTrue (is_set predecessors.now block result) × IsFalse (flag listed.now result) }
{
    for other in from..predecessors.rows() {
        if predecessors.has(block, other) && !listed[other as usize] {
            return other;
        }
    }
    predecessors.rows()
}
