//! Names and reserved words.
ghost use Rattle.std.specs.Prelude.{◌≡◌};
ghost use Rattle.std.specs.List.{list_all, list_any};
ghost use Rattle.std.specs.Str.{bytes_eq};
ghost use Rattle.pm_syn.specs.Bytes as bytes;
ghost use Rattle.pm_syn.specs.Names as spec;

/// The reserved words.
const KEYWORDS: &[&[u8]] = &[
    b"and", b"as", b"assert", b"class", b"def", b"elif", b"else", b"for", b"from", b"if",
    b"import", b"in", b"is", b"lambda", b"None", b"not", b"or", b"pass", b"return", b"True",
    b"False", b"while",
];

/// Whether a name may begin with the byte: it is a letter or an underscore.
pub(crate) fn begins_name(byte: u8) -> bool
    ensures { result ≡ bytes.begins_name byte }
{
    byte.is_ascii_alphabetic() || byte == b'_'
}

/// Whether a name may have the byte after its first: it is a letter, a digit or an underscore.
pub(crate) fn continues_name(byte: u8) -> bool
    ensures { result ≡ bytes.continues_name byte }
{
    byte.is_ascii_alphanumeric() || byte == b'_'
}

/// Whether the word is spelled as a name and isn't reserved, as `class` and `True` are. The rule is Python's; a token of
/// the kind `Name` may be either.
pub fn is_proper_name(word: &[u8]) -> bool
    ensures { result ≡ spec.is_proper_name word.now }
{
    is_spelled_as_name(word) && !is_keyword(word)
}

/// Whether the word is reserved, as `class` and `True` are.
#[tactic(auto, unfolding(crate::specs::Names::is_keyword))]
pub fn is_keyword(word: &[u8]) -> bool
    ensures { result ≡ spec.is_keyword word.now }
{
    is_among(KEYWORDS, word)
}

fn is_spelled_as_name(word: &[u8]) -> bool
    ensures { result ≡ spec.is_spelled_as_name word.now }
{
    match word.split_first() {
        Some((first, others)) => begins_name(*first) && all_continue_name(others),
        None => false,
    }
}

fn all_continue_name(word: &[u8]) -> bool
    ensures { result ≡ list_all bytes.continues_name word.now }
{
    word.iter().all(|byte| continues_name(*byte))
}

fn is_among(words: &[&[u8]], word: &[u8]) -> bool
    ensures { result ≡ list_any (λ known. bytes_eq word.now known.now) words.now }
{
    words.iter().any(|known| word == *known)
}
