//! Tokens and logical lines.
use pm_io::{List, Text};

/// What a token is.
#[derive(Clone, Copy, PartialEq, Eq)]
pub enum TokenKind {
    /// A name or a word of the language: a letter or an underscore, then letters, digits and underscores.
    Name,
    /// An integer literal, and the number that it writes.
    Int(u128),
    /// A string literal.
    Str,
    /// An operator or a punctuation mark.
    Op,
}

/// A token of a text.
#[derive(Drop)]
pub struct Token {
    pub kind: TokenKind,
    /// Its bytes: the text from `start` to `end`.
    pub text: Text,
    /// How many bytes of the text are before it.
    pub start: u32,
    /// How many bytes of the text are before what follows it.
    pub end: u32,
}

/// A logical line: the tokens of one or more lines of the text that belong together.
#[derive(Drop)]
pub struct Line {
    /// The number of the line of the text on which its first token is, counted from 1.
    pub number: u32,
    /// How many blanks are before its first token on that line.
    pub column: u32,
    /// Its tokens in order, at least one.
    pub tokens: List<Token>,
}
