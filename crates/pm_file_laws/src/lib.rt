//! Laws of the files that texts give, in a reader's words.
//!
//! `lex` answers a text with its logical lines, `parse` answers these with a file, and `build` promises a sound design
//! if the names that the file declares are proper ones. The laws here say that they are, so every design that a text
//! gives is sound. They ask for just what the contracts of `lex` and `parse` say of their answers (`specs/Files.antt`):
//! whoever has called both may use them. The crate has no code.
#![tactic(auto)]

pub mod laws;
