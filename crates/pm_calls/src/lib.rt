//! Which methods bodies call, and whose `rdy` expressions read.
//!
//! [`called_methods`] lists what a body may call, [`asked_methods`] the methods whose `rdy` an expression reads.
//! [`laws`] says which methods calls lead to, and that methods on a round of calls can lead to a call of themselves.
#![tactic(auto)]

mod asked;
mod called;
pub mod laws;

pub use asked::asked_methods;
pub use called::called_methods;
