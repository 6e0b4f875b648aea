//! What the expressions of `construct` give.
//!
//! `Builder` runs them. It takes the function that makes a class as an argument, so that each rule is proved by itself.
#![tactic(auto)]

mod arguments;
mod builder;
mod calls;
mod function;
mod lists;
mod operations;
mod operators;
mod parts;
mod places;

pub use builder::Builder;
pub use function::both;
