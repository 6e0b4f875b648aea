//! What typing is: the types of the typing of bodies, and the definitions that contracts cite.
//!
//! Typing reads the body of an update block, a method or a guard, and gives statements without loops whose expressions
//! have widths. The definitions say what each expression and each statement gives: `specs/` has them in the order of a
//! reading, from names and values to statements and designs. A step is a computation on a [`Tally`], which counts the
//! nodes that a kind's bodies have so far; it gives a result or the first fault. The crates above have the code.
#![tactic(auto)]

mod fault;
mod frame;
mod operand;
mod scope;
mod tally;
mod thing;

pub use fault::TypeFault;
pub use frame::{Bound, Frame, Stored};
pub use operand::{Change, Effect, Effected, Operand};
pub use scope::{At, BodySort, Scope};
pub use tally::{MAX_NODES, Tally};
pub use thing::{BodyFunction, Cut, Resizing, Right, Thing};
