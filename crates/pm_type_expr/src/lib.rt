//! What the expressions of a body are: integers, references or values of a type.
//!
//! [`Typer`] types one expression at a place in a body. Operands are typed from left to right, then the node itself, and
//! the first fault is the answer. Integers are computed, and take their widths from their places.
#![tactic(auto)]

mod arguments;
mod calls;
mod functions;
mod indexes;
mod names;
mod operands;
mod operators;
mod picks;
mod queue;
mod references;
mod typer;

pub use calls::fitted_values;
pub use names::most_items;
pub use operands::{bits_in, condition, fitted, may_read, same_type, state_type, value_of};
pub use queue::Queue;
pub use references::{element_type, parts_of, type_of};
pub use typer::Typer;
