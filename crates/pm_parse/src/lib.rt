//! Reads the logical lines of a design file, as `pm_syn` cuts a text into them, into the tree of their statements.
//!
//! The contract of `parse`: it returns the file, or the fault of the first faulty line. A file has a node for each line
//! that isn't skipped, with the statement that the line spells, in the body of the header that it belongs to. On one line
//! `Syntax` comes before `TooDeep`, and `TooDeep` before `Layout`.
//!
//! `laws` says that lines have exactly one such answer, which lines make which file, that a file keeps the order of its
//! lines, and that the names in it are proper ones.
//!
//! `parsing` holds the call and `fault` its faults. `entry` reads the statement of each line, and `enclosing` knows which
//! lines are skipped. `form` is what the layout looks at in a statement, `body_kind` says which forms are allowed in which
//! body, `body` keeps the open bodies, and `layout` finds the first fault. `tree` puts each line into its body.
#![tactic(auto)]

mod body;
mod body_kind;
mod enclosing;
mod entry;
mod fault;
mod form;
pub mod laws;
mod layout;
mod parsing;
mod tree;

pub use fault::ParseFault;
pub use parsing::parse;
pub use pm_grammar::{LineFault, parse_line};
