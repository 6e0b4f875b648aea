//! What a text begins with: a gap, a line end or a token.
ghost use Rattle.std.specs.Prelude.{◌≡◌, ◌<◌, ◌≤◌, ◌++◌, take_while, List, ℕ, length, take, drop, MatchOption, slice_index};
ghost use Rattle.pm_syn.specs.Bytes as bytes;
ghost use Rattle.pm_syn.specs.Lexemes.{IsComment};
ghost use Rattle.pm_syn.specs.Bytes.{IsLineEnd};
ghost use Rattle.pm_syn.specs.Heads.{IsHead, HasNoHead, HasNoToken};

use crate::name::{begins_name, continues_name};
use crate::number::literal_at;
use crate::operator::operator_length;
use crate::string::string_length;
use crate::token::TokenKind;
use memchr::memchr;
use pm_io::{CR, LF};

/// What a lexeme is.
#[derive(Clone, Copy)]
pub(crate) enum Sort {
    /// A blank, a tab, a comment, or a backslash and the line end after it.
    Gap,
    LineEnd,
    Token(TokenKind),
}

/// The lexeme with which a text begins: what it is, and how many bytes it has.
#[derive(Clone, Copy)]
pub(crate) struct Head {
    pub sort: Sort,
    pub length: usize,
}

impl Head {
    fn token(kind: TokenKind, length: usize) -> Head
        ensures { result ≡ record { sort = Sort.Token kind; length = length } }
    {
        Head {
            sort: Sort::Token(kind),
            length,
        }
    }
}

/// The lexeme with which the text begins, if there is one.
pub(crate) fn head_of(text: &[u8]) -> Option<Head>
    requires { 0 < length text.now }
    ensures { MatchOption result (HasNoHead text.now) (λ head. IsHead text.now head) }
{
    match text[0] {
        b' ' | b'\t' => Some(Head {
            sort: Sort::Gap,
            length: 1,
        }),
        b'#' => Some(Head {
            sort: Sort::Gap,
            length: comment_length(text),
        }),
        b'\\' => {
            let length = line_end_length(&text[1..])?;
            Some(Head {
                sort: Sort::Gap,
                length: length + 1,
            })
        }
        LF | CR => {
            let length = line_end_length(text)?;
            Some(Head {
                sort: Sort::LineEnd,
                length,
            })
        }
        _ => token_at(text),
    }
}

/// How long the line end is with which the text begins, if there is one.
fn line_end_length(text: &[u8]) -> Option<usize>
    ensures within { MatchOption result (Unit {0}) (λ count. count ≤ length text.now) }
    ensures found { MatchOption result ((bytes after : List ℕ) → text.now ≡ bytes ++ after → IsLineEnd bytes → ⊥) (λ count. IsLineEnd (take count text.now)) }
{
    match text {
        [LF, ..] => Some(1),
        [CR, LF, ..] => Some(2),
        _ => None,
    }
}

/// How long the comment is with which the text begins, without the LF that ends its line.
fn comment_length(text: &[u8]) -> usize
    requires begun { slice_index text.now 0 ≡ 35 }
    requires some { 0 < length text.now }
    ensures within { result ≤ length text.now }
    ensures comment { IsComment (take result text.now) (drop result text.now) }
{
    match memchr(LF, text) {
        Some(end) => end,
        None => text.len(),
    }
}

/// The token with which the text begins, if there is one.
fn token_at(text: &[u8]) -> Option<Head>
    requires { 0 < length text.now }
    ensures { MatchOption result (HasNoToken text.now) (λ head. IsHead text.now head) }
{
    if let Some(length) = string_length(text) {
        return Some(Head::token(TokenKind::Str, length));
    }
    let first = text[0];
    if begins_name(first) {
        return Some(Head::token(TokenKind::Name, name_length(text)));
    }
    if first.is_ascii_digit() {
        let literal = literal_at(text);
        return Some(Head::token(TokenKind::Int(literal.number?), literal.length));
    }
    Some(Head::token(TokenKind::Op, operator_length(text)?))
}

/// How many bytes the name has with which the text begins.
fn name_length(text: &[u8]) -> usize
    ensures { result ≡ length (take_while bytes.continues_name text.now) }
{
    text.iter()
        .take_while(|byte| continues_name(**byte))
        .count()
}
