//! Copies of syntax trees.
//!
//! The trees of `pm_syn` own their parts and can't be cloned. `copy_expression`, `copy_statement`, `copy_node` and
//! `copy_nodes` each return an equal tree with parts of its own, or `NoMemory`.
#![tactic(auto)]

mod expression;
mod node;
mod statement;

pub use expression::copy_expression;
pub use node::{copy_node, copy_nodes};
pub use statement::copy_statement;
