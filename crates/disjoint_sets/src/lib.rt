//! Disjoint sets of numbers: which numbers chains of links connect.
//!
//! [`DisjointSets`] begins with a set for each number and joins two sets at a time. Contracts see it as the list that
//! has at each number the least of its set. It is a forest in which no parent is greater than its child, so a root is
//! the least number of its tree. Each search halves its path.
#![tactic(auto)]

mod forest;
pub mod laws;
mod sets;

pub use sets::{DisjointSets, Numbering};
