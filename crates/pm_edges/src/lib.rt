//! Which update blocks the constraints of a design order, and which constraints it can't have.
//!
//! `specs/Terms.antt` says which scheduled blocks a term stands for, and `specs/Between.antt` which edges there are
//! between the blocks. [`laws`] says that every order which these edges allow settles to the same values.
//! [`unknown_term`] finds the first constraint with a term of the wrong sort.
#![tactic(auto)]

pub mod laws;
mod terms;

pub use terms::unknown_term;
