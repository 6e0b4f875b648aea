//! The nets of a design: which flat bits its connections join, and what is wrong with them.
//!
//! [`nets`] numbers the nets. Two flat bits are of one net if and only if a chain of connections leads from one to the
//! other, and nets are numbered in the order of their least flat bits. It refuses what [`NetFault`] names: a wrong
//! connection, a net of a component with two drivers, a net of two or more flat bits without one, a caller port that
//! doesn't lead to exactly one method. [`written_parts`] lists what a body may write.
//!
//! [`laws`] says what follows: a net of two or more flat bits has exactly one driver, and no part that a tie or a block
//! drives has two bits of one net.
#![tactic(auto)]

mod check;
mod connecting;
mod doubles;
mod drivers;
mod driving;
mod ends;
mod fault;
mod gifts;
mod giver;
mod giving;
mod joining;
pub mod laws;
mod naming;
mod no_driver;
mod numbering;
mod site;
mod source;
mod table;
mod written;

pub use check::Check;
pub use connecting::nets;
pub use fault::NetFault;
pub use naming::SignalBit;
pub use site::Site;
pub use written::written_parts;
