//! Operators and punctuation.
ghost use Rattle.std.specs.Prelude.{◌≡◌, MatchOption};
ghost use Rattle.pm_syn.specs.Heads.{IsLongestOperator, HasNoOperator, has_operator};

const THREE_BYTES: [[u8; 3]; 5] = [*b"...", *b"**=", *b"//=", *b"<<=", *b">>="];

const TWO_BYTES: [[u8; 2]; 19] = [
    *b"->", *b":=", *b"**", *b"//", *b"<<", *b">>", *b"==", *b"!=", *b"<=", *b">=", *b"@=", *b"+=",
    *b"-=", *b"*=", *b"/=", *b"%=", *b"&=", *b"|=", *b"^=",
];

const ONE_BYTE: [u8; 23] = *b"+-*/%&|^~<>=()[]{},:.;@";

/// How long the longest operator is with which the text begins, if there is one.
pub(crate) fn operator_length(text: &[u8]) -> Option<usize>
    ensures { MatchOption result (HasNoOperator text.now) (λ count. IsLongestOperator text.now count) }
{
    if begins_with_three(text) {
        Some(3)
    } else if begins_with_two(text) {
        Some(2)
    } else if begins_with_one(text) {
        Some(1)
    } else {
        None
    }
}

/// Whether the text begins with an operator of three bytes.
fn begins_with_three(text: &[u8]) -> bool
    ensures { result ≡ has_operator 3 text.now }
{
    text.len() >= 3 && THREE_BYTES.contains(&[text[0], text[1], text[2]])
}

/// Whether the text begins with an operator of two bytes.
fn begins_with_two(text: &[u8]) -> bool
    ensures { result ≡ has_operator 2 text.now }
{
    text.len() >= 2 && TWO_BYTES.contains(&[text[0], text[1]])
}

/// Whether the text begins with an operator of one byte.
fn begins_with_one(text: &[u8]) -> bool
    ensures { result ≡ has_operator 1 text.now }
{
    !text.is_empty() && ONE_BYTE.contains(&text[0])
}
