//! Integer literals.
ghost use Rattle.std.specs.Prelude.{◌≡◌, ◌+◌, ◌*◌, ◌<◌, ◌≤◌, ℕ, length, MatchOption, IsTrue, slice_index};
ghost use Rattle.std.specs.Char.{digit_value, is_digit};
ghost use Rattle.pm_syn.specs.Numbers as spec;
ghost use Rattle.pm_syn.specs.Heads.{IsLongestLiteral, AreLongestDigits, BeginsWithDigit, IsNumberRead};
ghost use Rattle.pm_syn.specs.LiteralParts.{IsNextDigit, HasNoNextDigit, HasNoBased};

/// An integer literal: how many bytes it has, and its number, if that has at most 128 bits.
#[derive(Clone, Copy)]
pub(crate) struct Literal {
    pub length: usize,
    pub number: Option<u128>,
}

/// The longest literal with which a text begins that begins with a decimal digit.
pub(crate) fn literal_at(text: &[u8]) -> Literal
    requires { BeginsWithDigit 10 text.now }
    ensures { IsLongestLiteral text.now result }
{
    if text[0] != b'0' {
        return digits_at(10, text);
    }
    match based_at(text) {
        Some(literal) => literal,
        None => Literal {
            length: 1,
            number: Some(0),
        },
    }
}

/// The longest literal with a base, where the text begins with `0`.
fn based_at(text: &[u8]) -> Option<Literal>
    requires { slice_index text.now 0 ≡ 48 }
    ensures { MatchOption result (HasNoBased text.now) (λ literal. IsLongestLiteral text.now literal) }
{
    let [_, letter, rest @ ..] = text else {
        return None;
    };
    let base = base_of(*letter)?;
    if !is_digit_at(base, rest, 0) {
        return None;
    }
    let digits = digits_at(base, rest);
    Some(Literal {
        length: digits.length + 2,
        number: digits.number,
    })
}

/// The base that the second byte of a literal names.
fn base_of(letter: u8) -> Option<u32>
    ensures { result ≡ spec.base_of letter }
{
    match letter {
        b'x' => Some(16),
        b'o' => Some(8),
        b'b' => Some(2),
        _ => None,
    }
}

/// The longest digits with which a text begins, where it begins with one.
fn digits_at(base: u32, text: &[u8]) -> Literal
    requires base { (2 ≤ base) × (base ≤ 16) }
    requires digit { BeginsWithDigit base text.now }
    ensures { AreLongestDigits base text.now result }
{
    let mut literal = Literal {
        length: 0,
        number: Some(0),
    };
    'digits: while let Some(position) = next_digit(base, text, literal.length) {
        literal = Literal {
            length: position + 1,
            number: with_digit(literal.number, base, text[position]),
        };
    }
    literal
}

/// Where the next digit is of a literal whose digits so far end there: there, or after an underscore.
fn next_digit(base: u32, text: &[u8], end: usize) -> Option<usize>
    requires base { (2 ≤ base) × (base ≤ 16) }
    requires within { end ≤ length text.now }
    ensures { MatchOption result (HasNoNextDigit base text.now end) (λ position. IsNextDigit base text.now end position) }
{
    if is_digit_at(base, text, end) {
        return Some(end);
    }
    if end > 0 && is_digit_at(base, text, end + 1) && text[end] == b'_' {
        return Some(end + 1);
    }
    None
}

fn is_digit_at(base: u32, text: &[u8], position: usize) -> bool
    requires { (2 ≤ base) × (base ≤ 16) }
    ensures value { result ≡ is_digit (slice_index text.now position) base }
    ensures within { IsTrue result → position < length text.now }
{
    position < text.len() && char::from(text[position]).is_digit(base)
}

/// The number with one more digit, if it has at most 128 bits.
fn with_digit(number: Option<u128>, base: u32, digit: u8) -> Option<u128>
    requires base { (2 ≤ base) × (base ≤ 16) }
    requires digit { IsTrue (is_digit digit base) }
    ensures { (so_far : ℕ) → IsNumberRead so_far number → IsNumberRead (so_far * base + digit_value digit) result }
{
    let value = char::from(digit).to_digit(base)?;
    number?
        .checked_mul(u128::from(base))?
        .checked_add(u128::from(value))
}
