//! Integers as a design spells them.
ghost use Rattle.std.specs.Prelude.{◌≡◌, ◌≤◌};
ghost use Rattle.pm_syn.specs.Numbers.{base_of as spec_base_of};
ghost use Rattle.pm_words.specs.Readings as spec;

// Digits that have been read: their number, and whether it may end there, since the last byte isn't an underscore.
#[derive(Clone, Copy)]
struct Digits {
    number: u64,
    is_complete: bool,
}

/// The integer of 64 bits that a word writes as a literal of a design, with or without a minus.
#[tactic(auto, unfolding(crate::specs::Readings::integer_of))]
pub(crate) fn integer_of(word: &[u8]) -> Option<i64>
    ensures { result ≡ spec.integer_of word.now }
{
    match word {
        [b'-', size @ ..] => negated(literal_of(size)?),
        _ => plain(literal_of(word)?),
    }
}

#[tactic(auto, unfolding(crate::specs::Readings::plain))]
fn plain(size: u64) -> Option<i64>
    ensures { result ≡ spec.plain size }
{
    i64::try_from(size).ok()
}

#[tactic(auto, unfolding(crate::specs::Readings::negated))]
fn negated(size: u64) -> Option<i64>
    ensures { result ≡ spec.negated size }
{
    0i64.checked_sub_unsigned(size)
}

// The number that a word writes as a literal, if it has at most 64 bits.
#[tactic(auto, unfolding(crate::specs::Readings::literal_of))]
fn literal_of(word: &[u8]) -> Option<u64>
    ensures { result ≡ spec.literal_of word.now }
{
    match word {
        [b'0'] => Some(0),
        [b'0', letter, digits @ ..] => digits_of(base_of(*letter)?, digits),
        _ => digits_of(10, word),
    }
}

// The base that the second byte of a literal names.
fn base_of(letter: u8) -> Option<u32>
    ensures { result ≡ spec_base_of letter }
{
    match letter {
        b'x' => Some(16),
        b'o' => Some(8),
        b'b' => Some(2),
        _ => None,
    }
}

// The number that digits of the base write, with single underscores between some of them, if it has at most 64 bits.
#[tactic(auto, unfolding(crate::specs::Readings::digits_of))]
fn digits_of(base: u32, bytes: &[u8]) -> Option<u64>
    requires { (2 ≤ base) × (base ≤ 16) }
    ensures { result ≡ spec.digits_of base bytes.now }
{
    let mut read = Digits {
        number: 0,
        is_complete: false,
    };
    'digits: for byte in bytes {
        read = with_byte(base, read, *byte)?;
    }
    if read.is_complete {
        Some(read.number)
    } else {
        None
    }
}

// The digits with one more byte, if that is a digit, or an underscore after one.
fn with_byte(base: u32, read: Digits, byte: u8) -> Option<Digits>
    requires { (2 ≤ base) × (base ≤ 16) }
    ensures { result ≡ spec.with_byte base read byte }
{
    match char::from(byte).to_digit(base) {
        Some(digit) => Some(Digits {
            number: followed_by(read.number, base, digit)?,
            is_complete: true,
        }),
        None => {
            if read.is_complete && byte == b'_' {
                Some(Digits {
                    number: read.number,
                    is_complete: false,
                })
            } else {
                None
            }
        }
    }
}

// The number with one more digit, if it has at most 64 bits.
#[tactic(auto, unfolding(crate::specs::Readings::followed_by))]
fn followed_by(number: u64, base: u32, digit: u32) -> Option<u64>
    ensures { result ≡ spec.followed_by number base digit }
{
    number
        .checked_mul(u64::from(base))?
        .checked_add(u64::from(digit))
}
