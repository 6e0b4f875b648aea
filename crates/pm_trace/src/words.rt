//! The words of a line.
ghost use Rattle.std.specs.Prelude.{◌≡◌, [], ◌∷◌, MatchOption, position};
ghost use Rattle.pm_trace.specs.Words.{is_space as spec_is_space, is_printed, words_of};

/// The first word of a line, and what comes after it.
#[tactic(auto, using(crate::proofs::LineWords::no_word))]
pub(crate) fn next_word(text: &[u8]) -> Option<(&[u8], &[u8])>
    ensures { MatchOption result (words_of text.now ≡ [])
        (λ parts. words_of text.now ≡ parts.0.now ∷ words_of parts.1.now) }
{
    let start = word_start(text)?;
    let word = &text[start..];
    match space_in(word) {
        Some(end) => Some((&word[..end], &word[end..])),
        None => Some((word, b"")),
    }
}

// Where the first word begins.
fn word_start(text: &[u8]) -> Option<usize>
    ensures { result ≡ position is_printed text.now }
{
    text.iter().position(|byte| !is_space(*byte))
}

fn space_in(text: &[u8]) -> Option<usize>
    ensures { result ≡ position spec_is_space text.now }
{
    text.iter().position(|byte| is_space(*byte))
}

// Whether the byte is between words.
fn is_space(byte: u8) -> bool
    ensures { result ≡ spec_is_space byte }
{
    byte == b' ' || byte == b'\t'
}
