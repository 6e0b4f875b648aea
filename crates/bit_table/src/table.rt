//! The table.
ghost use Rattle.std.specs.Prelude.{◌≡◌, ◌<◌, ◌&&◌, ℕ, eqb, IfOk};
ghost use Rattle.bit_table.specs.Tables.{Adds, IsEmpty, is_set};

use crate::words::{add_words, add_words_of, has_bit, set_bit};
use std::alloc::{AllocError, Global};
use std::marker::Model;

/// A table of bits.
///
/// Contracts see its numbers of rows and columns, and ask of each place whether its bit is set.
#[derive(Drop)]
pub struct BitTable {
    rows: u32,
    columns: u32,
    /// How many words each row takes.
    width: usize,
    /// The rows one after another.
    words: Vec<u64>,
}

impl Model for BitTable {
    ghost use Rattle.std.specs.Prelude.{◌≡◌, ◌*◌, length};
    ghost use Rattle.bit_table.specs.Tables.{Table, words_in};

    ghost Value = { Table };

    ghost view = { λ table. record { rows = table.rows; columns = table.columns; words = table.words.items } };

    ghost invariant = { λ table. (table.width ≡ words_in table.columns) × (length table.words.items ≡ table.rows * table.width) };
}

impl BitTable {
    /// A table in which no bit is set.
    pub fn new(alloc: Global, rows: u32, columns: u32) -> Result<BitTable, AllocError>
        ensures { IfOk result (λ table. IsEmpty table rows columns) }
    {
        let width = (columns as usize).div_ceil(64);
        let words = vec![in alloc; 0u64; rows as usize * width]?;
        Ok(BitTable {
            rows,
            columns,
            width,
            words,
        })
    }

    /// How many rows there are.
    pub fn rows(&self) -> u32
        ensures { result ≡ self.now.rows }
    {
        self.rows
    }

    /// How many columns there are.
    pub fn columns(&self) -> u32
        ensures { result ≡ self.now.columns }
    {
        self.columns
    }

    /// Whether a bit is set.
    pub fn has(&self, row: u32, column: u32) -> bool
        requires row { row < self.now.rows }
        requires column { column < self.now.columns }
        ensures { result ≡ is_set self.now row column }
    {
        has_bit(&self.words, self.width, row as usize, column as usize)
    }

    /// Sets a bit.
    pub fn set(&mut self, row: u32, column: u32)
        requires row { row < self.old.rows }
        requires column { column < self.old.columns }
        ensures { Adds self.old self.new (λ r c. eqb r row && eqb c column) }
    {
        set_bit(&mut self.words, self.width, row as usize, column as usize);
    }

    /// Sets the bits of one row that are set in another.
    pub fn add_row(&mut self, row: u32, other: u32)
        requires row { row < self.old.rows }
        requires other { other < self.old.rows }
        ensures { Adds self.old self.new (λ r c. eqb r row && is_set self.old other c) }
    {
        if row != other {
            add_words(&mut self.words, self.width, row as usize, other as usize);
        }
    }

    /// Sets the bits of one row that are set in a row of another table of the same number of columns.
    pub fn add_row_of(&mut self, row: u32, table: &BitTable, other: u32)
        requires row { row < self.old.rows }
        requires other { other < table.now.rows }
        requires columns { table.now.columns ≡ self.old.columns }
        ensures { Adds self.old self.new (λ r c. eqb r row && is_set table.now other c) }
    {
        add_words_of(
            &mut self.words,
            self.width,
            row as usize,
            &table.words,
            other as usize,
        );
    }
}
