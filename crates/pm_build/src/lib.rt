//! Elaboration: runs the `construct` of a design's top class, and of all classes that it makes.
//!
//! A `Runner` runs the lines of a `construct`, with the expressions of `pm_eval` and what statements do in `pm_frame`.
//! What a call of a class makes is a function that it is given, so that each rule is proved by itself; `make_at` is that
//! function, and passes itself. `build` runs the statements of a file and then the top class.
#![tactic(auto)]

mod building;
mod call_statement;
mod construct;
mod file;
mod lines;
mod make;
mod method;
mod runner;

pub use building::build;
pub use make::make_at;
pub use runner::Runner;
