//! Values as words write them.
ghost use Rattle.std.specs.Prelude.{◌≡◌, ◌≤◌, ◌+◌, ◌*◌, ◌^◌, nat_lt, if◌then◌else◌, Some, None, length};
ghost use Rattle.std.specs.List.{list_all};
ghost use Rattle.pm_trace.specs.Reading as reading;
ghost use Rattle.pm_trace.specs.Values as spec;

use pm_bits::Bits;

/// The value of this width that a word writes in decimal, or in hexadecimal after `0x`, or in binary after `0b`.
pub(crate) fn value_of(width: u32, word: &[u8]) -> Option<Bits>
    requires width { (1 ≤ width) × (width ≤ 128) }
    ensures { result ≡ spec.value_of width word.now }
{
    match number_of(word) {
        Some(number) => fitted(width, number),
        None => None,
    }
}

fn fitted(width: u32, number: u128) -> Option<Bits>
    requires width { (1 ≤ width) × (width ≤ 128) }
    ensures { result ≡ spec.fitted width number }
{
    Bits::new(width, number)
}

// The number that a word writes, if it has at most 128 bits.
#[tactic(auto, unfolding(crate::specs::Reading::number_of))]
fn number_of(word: &[u8]) -> Option<u128>
    ensures { result ≡ reading.number_of word.now }
{
    match word {
        [b'0', b'x', digits @ ..] => number_in(16, digits),
        [b'0', b'b', digits @ ..] => number_in(2, digits),
        _ => number_in(10, word),
    }
}

// The number that digits of the base write, one digit or more, if it has at most 128 bits.
#[tactic(auto, unfolding(crate::specs::Reading::number_in))]
fn number_in(base: u32, digits: &[u8]) -> Option<u128>
    requires { (2 ≤ base) × (base ≤ 16) }
    ensures { result ≡ reading.number_in base digits.now }
{
    if digits.is_empty() {
        return None;
    }
    let mut number: u128 = 0;
    'digits: for byte in digits {
        let digit = char::from(*byte).to_digit(base)?;
        number = followed_by(number, base, digit)?;
    }
    Some(number)
}

// The number with one more digit, if it has at most 128 bits.
#[tactic(auto, unfolding(crate::specs::Reading::followed_by))]
fn followed_by(number: u128, base: u32, digit: u32) -> Option<u128>
    ensures { result ≡ reading.followed_by number base digit }
{
    number
        .checked_mul(u128::from(base))?
        .checked_add(u128::from(digit))
}
