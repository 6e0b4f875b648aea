//! The instances of a design, in preorder, and how many flat bits they have.
//!
//! A design names each kind of component once. [`flatten`] lists a component for each place where one is used: the top
//! first, and each before those within it. Flat bits are numbered by instance, then signal, then bit, and [`flat_bits`]
//! counts them without making the list, so that a design that is too large is refused first.
#![tactic(auto)]

mod bits;
mod flattening;
pub mod laws;
mod lookup;

pub use bits::flat_bits;
pub use flattening::flatten;
