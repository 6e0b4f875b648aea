//! How much work the blocks of a design are.
//!
//! The nodes of a body are its statements, its expressions and the elements of its dynamic indexes. [`work`] adds up
//! those of all blocks of all instances. Methods aren't put in the place of their calls yet: a call counts as one node,
//! and so do its arguments and a method's `rdy()`.
#![tactic(auto)]

mod count;
mod nodes;
mod working;

pub use working::work;
