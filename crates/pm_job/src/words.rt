//! The words of a line, and the decimal numbers that words write.
ghost use Rattle.std.specs.Prelude.{◌≡◌, ◌+◌, ◌*◌, ◌^◌, nat_lt, if◌then◌else◌, [], ◌∷◌, Some, None};
ghost use Rattle.std.specs.Option.{option_map_or, option_copied};
ghost use Rattle.pm_job.specs.Words as spec;
ghost use Rattle.pm_job.specs.Words.{words_of, number_below};

use memchr::memchr;

/// The first word of a text, and the text after the blank that ends the word, if there is one.
#[tactic(auto, using(crate::proofs::Cuts::words_at, crate::proofs::Cuts::words_nowhere))]
pub(crate) fn first_word(text: &[u8]) -> (&[u8], Option<&[u8]>)
    ensures { words_of text.now ≡ result.0.now ∷ option_map_or (λ rest. words_of rest.now) result.1 [] }
{
    match memchr(b' ', text) {
        Some(end) => (&text[..end], Some(&text[end + 1..])),
        None => (text, None),
    }
}

/// The text after the prefix, if the text begins with it.
pub(crate) fn without_prefix<'a>(text: &'a [u8], prefix: &[u8]) -> Option<&'a [u8]>
    ensures { option_copied result ≡ spec.without_prefix prefix.now text.entry.now }
{
    text.strip_prefix(prefix)
}

/// The text before the ending, if the text ends with it.
pub(crate) fn without_ending<'a>(text: &'a [u8], ending: &[u8]) -> Option<&'a [u8]>
    ensures { option_copied result ≡ spec.without_ending ending.now text.entry.now }
{
    text.strip_suffix(ending)
}

/// The number that a word writes in decimal digits, if it is below 2 to the 128.
pub(crate) fn number(word: &[u8]) -> Option<u128>
    ensures { result ≡ number_below (2 ^ 128) word.now }
{
    if word.is_empty() {
        return None;
    }
    let mut value: u128 = 0;
    'digits: for byte in word {
        let digit = char::from(*byte).to_digit(10)?;
        value = followed_by(value, digit)?;
    }
    Some(value)
}

// The number with one more decimal digit at its end, if that is below 2 to the 128.
fn followed_by(value: u128, digit: u32) -> Option<u128>
    ensures { result ≡ (if nat_lt (value * 10 + digit) (2 ^ 128) then Some (value * 10 + digit) else None) }
{
    value.checked_mul(10)?.checked_add(u128::from(digit))
}
