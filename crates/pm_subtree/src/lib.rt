//! The design below an instance.
//!
//! [`subtree`] follows a path, as `s.left.queue[0]`, from the top of a design down to an instance, and returns the
//! design with the same kinds and shapes whose top is the kind of that instance.
#![tactic(auto)]

mod cutting;
pub mod laws;
mod searching;

pub use cutting::subtree;
