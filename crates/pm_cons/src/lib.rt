//! What the constraints of a design mean: the precedence of its update blocks, and why every order that keeps it gives
//! the same values.
//!
//! The edges of a design give the precedence. The definitions in `specs/` say what each block sees and leaves, without an
//! order: a block runs on what the last writers before it leave. The functions of [`laws`] are the reason to trust a
//! schedule. The first of them is schedule independence: every topological order settles to the same values. A listed
//! order that isn't topological has a [`Break`].
#![tactic(auto)]

mod breaks;
pub mod laws;

pub use breaks::Break;
