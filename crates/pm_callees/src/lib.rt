//! The caller ports of a design: which methods their connections lead to.
//!
//! A caller port is connected to a method, maybe through other ports and the components between. [`caller_fault`] finds
//! the first port whose chains of connections lead to no method, and else the first one whose chains lead to two.
#![tactic(auto)]

mod callers;
mod fault;
mod joining;
mod numbering;
mod search;
mod site;
mod tally;

pub use callers::caller_fault;
pub use fault::CallerFault;
