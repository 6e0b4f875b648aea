//! Orders of the update blocks of a design.
//!
//! [`default_order`] gives the order in which the blocks run if the user chooses none, or the cycle that rules out every
//! order. [`first_break`] says whether a list is a topological order of all blocks, and if not, what is wrong with it.
//! [`unordered`] gives the least pair of blocks that conflict although nothing orders them.
#![tactic(auto)]

mod checking;
mod closing;
mod cycle;
mod fault;
mod ordering;
mod pairs;
mod predecessors;
mod scheduling;

pub use checking::first_break;
pub use fault::OrderFault;
pub use pairs::unordered;
pub use scheduling::default_order;
