//! Copies of designs.
//!
//! A design owns its parts and can't be cloned. [`copy_design`] returns an equal design with parts of its own, or
//! `NoMemory`.
#![tactic(auto)]

mod bodies;
mod copied;
mod design;
mod expressions;
mod kinds;
mod statements;

pub use design::copy_design;
