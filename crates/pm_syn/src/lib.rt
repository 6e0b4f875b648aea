//! The text of a design file: its tokens and logical lines, and the types of the syntax tree that they make.
//!
//! `lex` reads a text into its logical lines, or names the first fault of the text. Each text has exactly one of these
//! answers; `laws` says so, and which lines they are. `is_keyword` says whether a word is reserved, and `is_proper_name`
//! whether it is spelled as a name and not reserved. The syntax tree is data alone; the parser makes it.
#![tactic(auto)]

mod bracket;
mod draft;
mod expression;
mod fault;
mod indentation;
pub mod laws;
mod lexeme;
mod lexing;
mod name;
mod number;
mod operator;
mod reader;
mod statement;
mod string;
mod text_line;
mod token;

pub use expression::{Arg, BinaryOp, Expr, UnaryOp};
pub use fault::TextFault;
pub use lexing::lex;
pub use name::{is_keyword, is_proper_name};
pub use statement::{AssignOp, File, Node, Par, Stmt};
pub use token::{Line, Token, TokenKind};
