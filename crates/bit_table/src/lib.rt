//! Tables of bits: rows by columns, 64 bits to a word.
//!
//! A [`BitTable`] begins with no bit set. Bits are set one at a time, or by adding one row to another, which takes one
//! step for every 64 columns.
#![tactic(auto)]

mod table;
mod words;

pub use table::BitTable;
