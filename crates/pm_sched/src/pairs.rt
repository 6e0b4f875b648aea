//! The least pair of blocks that conflict and that nothing orders.
ghost use Rattle.std.specs.Prelude.{◌≡◌, ◌<◌, ◌≤◌, ◌⊎◌, ◌↔◌, ℕ, None, IfOk, IfSome, IsFalse, IsTrue};
ghost use Rattle.bit_table.specs.Tables.{is_set};
ghost use Rattle.pm_cons.specs.Conflicts.{is_unordered};
ghost use Rattle.pm_cons.specs.Edges.{AreEdges, is_listed, precedence_of};
ghost use Rattle.pm_cons.specs.Orders.{has};
ghost use Rattle.pm_sched.specs.LeastPair.{AreConflicts, AreGreater, IsLeastPair};

use crate::closing::close;
use crate::predecessors::predecessors_of;
use bit_table::BitTable;
use pm_design::Edges;
use pm_io::{List, NoMemory};
use std::alloc::Global;

/// The least pair of blocks that conflict and of which neither precedes the other. There is none if and only if the
/// precedence orders every listed conflict.
pub fn unordered(alloc: Global, edges: &Edges) -> Result<Option<(u32, u32)>, NoMemory>
    requires edges { AreEdges edges.now }
    requires conflicts { AreConflicts edges.now.conflicts edges.now.count }
    ensures some { IfOk result (λ found. IfSome found
        (λ p. IsLeastPair (precedence_of edges.now) edges.now.conflicts p.0 p.1)) }
    ensures none { IfOk result (λ found. (found ≡ None) ↔
        ((c d : ℕ) → IsFalse (is_unordered (precedence_of edges.now) edges.now.conflicts c d))) }
{
    let mut table = predecessors_of(alloc, edges)?;
    close(&mut table);
    Ok(first_pair(&table, &edges.conflicts))
}

// The first listed pair that has no bit in either direction.
fn first_pair(table: &BitTable, conflicts: &List<List<u32>>) -> Option<(u32, u32)>
    requires square { table.now.columns ≡ table.now.rows }
    requires conflicts { AreConflicts conflicts.now table.now.rows }
    ensures some { IfSome result (λ p. IsTrue (is_listed conflicts.now p.0 p.1)
        × IsFalse (is_set table.now p.0 p.1) × IsFalse (is_set table.now p.1 p.0)) }
    ensures least { IfSome result (λ p. (c d : ℕ) → c < table.now.rows → IsTrue (is_listed conflicts.now c d) →
        IsFalse (is_set table.now c d) → IsFalse (is_set table.now d c) → (p.0 < c) ⊎ ((p.0 ≡ c) × (p.1 ≤ d))) }
    ensures none { result ≡ None → (c d : ℕ) → c < table.now.rows → IsTrue (is_listed conflicts.now c d) →
        IsFalse (is_set table.now c d) → IsFalse (is_set table.now d c) → ⊥ }
{
    for first in 0..table.rows() {
        let row = &conflicts.as_slice()[first as usize];
        if let Some(second) = first_apart(table, first, row.as_slice()) {
            return Some((first, second));
        }
    }
    None
}

// The first block of a row that has no bit with another in either direction.
fn first_apart(table: &BitTable, first: u32, row: &[u32]) -> Option<u32>
    requires square { table.now.columns ≡ table.now.rows }
    requires first { first < table.now.rows }
    requires row { AreGreater row.now first table.now.rows }
    ensures some { IfSome result (λ b. IsTrue (has row.now b)
        × IsFalse (is_set table.now first b) × IsFalse (is_set table.now b first)) }
    ensures least { IfSome result (λ b. (c : ℕ) → IsTrue (has row.now c) → IsFalse (is_set table.now first c) →
        IsFalse (is_set table.now c first) → b ≤ c) }
    ensures none { result ≡ None → (c : ℕ) → IsTrue (has row.now c) → IsFalse (is_set table.now first c) →
        IsFalse (is_set table.now c first) → ⊥ }
{
    for second in row {
        if !table.has(first, *second) && !table.has(*second, first) {
            return Some(*second);
        }
    }
    None
}
