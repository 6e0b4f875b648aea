//! The words of the command line: which job they ask for.
//!
//! `job_of` reads the words by one simple command of `clap`, and then by the table of the actions. In the order of the
//! flow:
//!
//! - `command` is the command, and what it finds in the words, which `entries` names;
//! - `action` names the actions;
//! - `operand`, `number`, `literal` and `parameter` read single words;
//! - `target` and `options` read what an action is given;
//! - `top` joins them.
//!
//! `laws` says that words ask for at most one job.
#![tactic(auto)]

mod action;
mod command;
mod entries;
mod fault;
mod job;
pub mod laws;
mod literal;
mod number;
mod operand;
mod options;
mod parameter;
mod target;
mod top;

pub use fault::WordsFault;
pub use job::{Job, Options, Target};
pub use top::job_of;
