//! What the bodies of a design read and write.
//!
//! A body's paths say which places it reads, may write, surely writes and reads before it writes them. There are as many
//! paths as choices of branches; one walk over the body finds the same, which is a law. [`names_of`] lists what a body
//! names in one walk.
#![tactic(auto)]

pub mod laws;
mod named;
mod naming;

pub use named::Named;
pub use naming::names_of;
