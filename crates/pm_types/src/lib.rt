//! Typed bodies: what the update blocks, methods and guards of a design do, without loops and with a width for each
//! expression.
#![tactic(auto)]

mod assignments;
mod bodies;
mod designs;
mod effects;
mod filling;
mod own_names;
mod statements;
mod targets;
mod top;

pub use pm_typing::TypeFault;
pub use top::type_bodies;
