//! Tokens as the grammar names them: symbols, words and names.
ghost use Rattle.std.specs.Prelude.{◌≡◌, ◌↔◌, ◌∷◌, IsTrue, List, MatchOption};
ghost use Rattle.pm_grammar.specs.Tokens as spec;
ghost use Rattle.pm_grammar.specs.Prefixes.{IsAfter, IsNotFirst};
ghost use Rattle.pm_grammar.specs.Prefixes as prefixes;
ghost use Rattle.pm_syn.specs.declared.token.Token.{Token as TheToken};

use pm_syn::{Token, TokenKind, is_keyword};

/// Whether the token is a symbol: the operator or punctuation of these bytes.
pub(crate) fn is_symbol(bytes: &[u8], token: &Token) -> bool
    ensures { result ≡ spec.is_symbol bytes.now token.now }
{
    token.kind == TokenKind::Op && token.text.as_slice() == bytes
}

/// Whether the token is the word of these bytes.
pub fn is_word(bytes: &[u8], token: &Token) -> bool
    ensures { result ≡ spec.is_word bytes.now token.now }
{
    token.kind == TokenKind::Name && token.text.as_slice() == bytes
}

/// Whether the token is a name.
pub(crate) fn is_name(token: &Token) -> bool
    ensures { result ≡ spec.is_name token.now }
{
    token.kind == TokenKind::Name && !is_keyword(token.text.as_slice())
}

/// The tokens after this symbol, if they begin with it.
pub(crate) fn after_symbol<'a>(tokens: &'a [Token], symbol: &[u8]) -> Option<&'a [Token]>
    ensures { MatchOption result (IsNotFirst (spec.is_symbol symbol.now) tokens.now) (λ tail. IsAfter (spec.is_symbol symbol.now) tokens.now tail.now) }
{
    match tokens.split_first() {
        Some((first, tail)) if is_symbol(symbol, first) => Some(tail),
        _ => None,
    }
}

/// The tokens after this word, if they begin with it.
pub(crate) fn after_word<'a>(tokens: &'a [Token], word: &[u8]) -> Option<&'a [Token]>
    ensures { MatchOption result (IsNotFirst (spec.is_word word.now) tokens.now) (λ tail. IsAfter (spec.is_word word.now) tokens.now tail.now) }
{
    match tokens.split_first() {
        Some((first, tail)) if is_word(word, first) => Some(tail),
        _ => None,
    }
}

/// The name with which the tokens begin, and the tokens after it.
pub(crate) fn after_name(tokens: &[Token]) -> Option<(&Token, &[Token])>
    ensures { MatchOption result (IsNotFirst spec.is_name tokens.now) (λ p. (tokens.now ≡ p.0.now ∷ p.1.now) × IsTrue (spec.is_name p.0.now)) }
{
    match tokens.split_first() {
        Some((first, tail)) if is_name(first) => Some((first, tail)),
        _ => None,
    }
}

/// Whether the tokens begin with this symbol.
pub(crate) fn begins_with_symbol(tokens: &[Token], symbol: &[u8]) -> bool
    ensures { result ≡ prefixes.begins_with (spec.is_symbol symbol.now) tokens.now }
{
    match tokens.first() {
        Some(first) => is_symbol(symbol, first),
        None => false,
    }
}

/// Whether the token is a string.
pub(crate) fn is_string(token: &Token) -> bool
    ensures { IsTrue result ↔ (token.now.kind ≡ TokenKind.Str) }
{
    token.kind == TokenKind::Str
}
