//! What the statements of `construct` do to the component that they stand in, once their expressions have values.
//!
//! A name or an attribute takes a value, and what is new in the value becomes part of the component under its name. Two
//! ends are connected. Update blocks, lambdas, states and constraints are added. Each function changes a `Frame`, which
//! holds what has become of the component so far, or gives the first fault; what it does is a definition of `pm_elab`.
#![tactic(auto)]

mod assignment;
mod block;
mod capture;
mod connection;
mod end;
mod matching;
mod name;
mod placing;
mod rule;
mod state;
mod types;

pub use assignment::{assigned, attribute_put, attribute_set, local_put, target_of};
pub use block::{block_def, body_nodes, body_put, decorator, lambda_block};
pub use capture::captured;
pub use connection::connected;
pub use placing::{number_of, place, whole_signal, width_if};
pub use rule::{constrained, unused};
pub use state::state_put;
