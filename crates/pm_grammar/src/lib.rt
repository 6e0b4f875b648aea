//! Parses a logical line, as `pm_syn` cuts a text into lines, into the statement that its tokens spell.
//!
//! The grammar is in `specs/Statements.antt` and `specs/Expressions.antt`. `parse_line` returns
//!
//! - the statement that the tokens spell,
//! - `Syntax` if and only if they spell none,
//! - `TooDeep` if and only if an expression in it is more than 64 deep,
//! - `NoMemory` if memory ran out.
//!
//! `laws` says that tokens never spell two statements.
//!
//! The layout of lines depends on what a line says even if it is too deep. So `statement` returns the statement whatever
//! its depth, and `is_shallow` measures it. `is_word` recognizes a word.
//!
//! `line_parser` has the call and `fault` its faults. `header` and `simple` read statements, `operation` and `operand`
//! expressions, and `reading` says what those return. `operator` and `level` say how tightly operators bind, `tokens` names
//! tokens, and `depth` measures what was read.
#![tactic(auto)]

mod depth;
mod fault;
mod header;
pub mod laws;
mod level;
mod line_parser;
mod operand;
mod operation;
mod operator;
mod reading;
mod simple;
mod tokens;

pub use depth::is_shallow;
pub use fault::LineFault;
pub use header::statement;
pub use line_parser::parse_line;
pub use tokens::is_word;
