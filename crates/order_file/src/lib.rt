//! Order files: the order in which the update blocks of a design are to run.
#![tactic(auto)]

mod lines;
mod order;

pub use order::read_order;
