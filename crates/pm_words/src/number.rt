//! Numbers of the command line.
ghost use Rattle.std.specs.Prelude.{◌≡◌, ◌+◌, ◌*◌, ◌^◌, nat_lt, if◌then◌else◌, Some, None};
ghost use Rattle.pm_words.specs.Readings as spec;

/// The greatest length of a number.
const MAX_DIGITS: usize = 10;

/// The number that a word writes in one to ten decimal digits.
#[tactic(auto, unfolding(crate::specs::Readings::number_of))]
pub(crate) fn number_of(word: &[u8]) -> Option<u64>
    ensures { result ≡ spec.number_of word.now }
{
    if word.is_empty() || word.len() > MAX_DIGITS {
        return None;
    }
    decimal_of(word)
}

// The number that decimal digits write, if it has at most 64 bits.
#[tactic(auto, unfolding(crate::specs::Readings::decimal_of))]
fn decimal_of(digits: &[u8]) -> Option<u64>
    ensures { result ≡ spec.decimal_of digits.now }
{
    let mut number: u64 = 0;
    'digits: for byte in digits {
        let digit = char::from(*byte).to_digit(10)?;
        number = followed_by(number, digit)?;
    }
    Some(number)
}

// The number with one more decimal digit, if it has at most 64 bits.
fn followed_by(number: u64, digit: u32) -> Option<u64>
    ensures { result ≡ (if nat_lt (number * 10 + digit) (2 ^ 64) then Some (number * 10 + digit) else None) }
{
    number.checked_mul(10)?.checked_add(u64::from(digit))
}
