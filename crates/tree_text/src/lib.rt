//! Trees as texts, to compare them with what is expected.
//!
//! A statement or an expression is written as a list in parentheses: what it is, then its parts in the order in which
//! the tree has them, with a blank before each. A hyphen stands for a part that is absent. The nodes of a file are
//! written as the numbers of their lines, with the body of each in brackets behind its number.
//!
//! `write_statement` and `write_nodes` write behind what a text has already, and promise nothing of it. Only the tests of
//! `pm_grammar` and `pm_parse` and the program `parse_lines`, which prints such texts, call them.
#![tactic(auto)]

mod expression;
mod statement;

pub use statement::{write_nodes, write_statement};
