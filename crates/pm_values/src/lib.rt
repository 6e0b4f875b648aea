//! The values that `construct` computes.
//!
//! Integers have 64 bits and Python's operators, a range is the list of its integers, and a table holds what names stand
//! for, in the order in which they were first put. A value is an integer, a type, a constant, a class, a list, something
//! that a call made, something that an attribute has taken, or a part of a constraint.
#![tactic(auto)]

mod equality;
mod fault;
mod integer;
pub mod laws;
mod range;
mod reference;
mod table;
mod value;

pub use equality::same;
pub use fault::BuildFault;
pub use integer::{applied, ceiling_log, operated};
pub use range::Range;
pub use reference::{CallerTypes, Form, Reference, ValueType};
pub use table::Table;
pub use value::{Member, New, Taken, Value, copy, copy_term};
