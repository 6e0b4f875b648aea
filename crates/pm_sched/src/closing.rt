//! The closure of a relation in a square table of bits, and the least block on a loop.
ghost use Rattle.std.specs.Prelude.{◌≡◌, ◌<◌, ◌&&◌, ℕ, IfOk, eqb};
ghost use Rattle.bit_table.specs.Tables.{Adds, is_set};
ghost use Rattle.pm_cons.specs.Below.{least_below};
ghost use Rattle.pm_cons.specs.Edges.{AreEdges, precedence_of};
ghost use Rattle.pm_cons.specs.Precedence.{precedes, precedes_through};

use crate::predecessors::predecessors_of;
use bit_table::BitTable;
use pm_design::Edges;
use std::alloc::{AllocError, Global};

/// The least block that precedes itself, if there is one.
pub fn least_on_loop(alloc: Global, edges: &Edges) -> Result<Option<u32>, AllocError>
    requires { AreEdges edges.now }
    ensures { IfOk result (λ found. found
        ≡ least_below edges.now.count (λ b. precedes (precedence_of edges.now) b b)) }
{
    let mut table = predecessors_of(alloc, edges)?;
    close(&mut table);
    Ok(first_on_diagonal(&table))
}

// Closes the relation of a table: a row has a column if the table leads from the one to the other.
pub(crate) fn close(table: &mut BitTable)
    requires { table.old.columns ≡ table.old.rows }
    ensures rows { table.new.rows ≡ table.old.rows }
    ensures columns { table.new.columns ≡ table.old.columns }
    ensures bits { (a b : ℕ) → is_set table.new a b ≡ precedes_through table.old.rows (is_set table.old) a b }
{
    for middle in 0..table.rows() {
        close_through(table, middle);
    }
}

// Adds the row of a number to each row in which its column is set.
fn close_through(table: &mut BitTable, middle: u32)
    requires square { table.old.columns ≡ table.old.rows }
    requires middle { middle < table.old.rows }
    ensures { Adds table.old table.new (λ r c. is_set table.old r middle && is_set table.old middle c) }
{
    for row in 0..table.rows() {
        extend_row(table, row, middle);
    }
}

// Adds the row of a number to a row, if its column is set there.
fn extend_row(table: &mut BitTable, row: u32, middle: u32)
    requires square { table.old.columns ≡ table.old.rows }
    requires row { row < table.old.rows }
    requires middle { middle < table.old.rows }
    ensures { Adds table.old table.new (λ r c. eqb r row && (is_set table.old r middle && is_set table.old middle c)) }
{
    if table.has(row, middle) {
        table.add_row(row, middle);
    }
}

// The least number whose column is set in its own row.
fn first_on_diagonal(table: &BitTable) -> Option<u32>
    requires { table.now.columns ≡ table.now.rows }
    ensures { result ≡ least_below table.now.rows (λ b. is_set table.now b b) }
{
    for block in 0..table.rows() {
        if table.has(block, block) {
            return Some(block);
        }
    }
    None
}
