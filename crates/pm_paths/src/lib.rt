//! What the paths of update blocks read and write, and why the order of a plan's blocks doesn't matter.
//!
//! `specs/Paths.antt` says for each place, a net or a state object, whether some path of a block reads it, whether some
//! path or every path writes it, and whether some path reads it before it writes it. The functions of [`laws`] say that
//! this is all that matters of a block's run. With the laws of `pm_cons` the blocks of a plan then settle to the same
//! values, in whatever topological order they run.
#![tactic(auto)]

pub mod laws;
