//! String literals.
ghost use Rattle.std.specs.Prelude.{◌≡◌, ◌+◌, ◌≤◌, length, IfSome, IsTrue};
ghost use Rattle.pm_syn.specs.Strings as spec;

use pm_io::LF;

/// How long the string literal is with which the text begins, if there is one and it is closed.
pub(crate) fn string_length(text: &[u8]) -> Option<usize>
    ensures value { result ≡ spec.string_length text.now }
    ensures within { IfSome result (λ count. count ≤ length text.now) }
{
    match text {
        [] => None,
        [prefix, quoted @ ..] if is_prefix(*prefix) => {
            let count = quoted_length(quoted)?;
            Some(count + 1)
        }
        _ => quoted_length(text),
    }
}

fn is_prefix(byte: u8) -> bool
    ensures { result ≡ spec.is_prefix byte }
{
    byte == b'f' || byte == b'F' || byte == b'r' || byte == b'R'
}

fn is_quote(byte: u8) -> bool
    ensures { result ≡ spec.is_quote byte }
{
    byte == b'\'' || byte == b'"'
}

fn quoted_length(text: &[u8]) -> Option<usize>
    ensures value { result ≡ spec.quoted_length text.now }
    ensures within { IfSome result (λ count. count ≤ length text.now) }
{
    match text {
        [quote, rest @ ..] if is_quote(*quote) => length_from(*quote, rest),
        _ => None,
    }
}

/// How long the string is, by its first quote and the text after it.
fn length_from(quote: u8, text: &[u8]) -> Option<usize>
    ensures value { result ≡ spec.length_from quote text.now }
    ensures within { IfSome result (λ count. count ≤ length text.now + 1) }
{
    if are_two_more(quote, text) {
        let count = closing_quotes(quote, &text[2..])?;
        return Some(count + 3);
    }
    let count = closing_quote(quote, text)?;
    Some(count + 1)
}

/// Whether two more quotes follow the first.
fn are_two_more(quote: u8, text: &[u8]) -> bool
    ensures value { result ≡ spec.are_two_more quote text.now }
    ensures long { IsTrue result → 2 ≤ length text.now }
{
    match text {
        [second, third, ..] => *second == quote && *third == quote,
        _ => false,
    }
}

/// How many bytes there are up to the quote that closes a string on one line, the quote included.
fn closing_quote(quote: u8, text: &[u8]) -> Option<usize>
    ensures value { result ≡ spec.closing_quote quote text.now }
    ensures within { IfSome result (λ count. count ≤ length text.now) }
{
    let mut at = 0;
    while at < text.len() {
        let byte = text[at];
        if byte == quote {
            return Some(at + 1);
        }
        if byte == LF {
            return None;
        }
        if byte == b'\\' {
            if at + 1 < text.len() && text[at + 1] == LF {
                return None;
            }
            at += 1;
        }
        at += 1;
    }
    None
}

/// How many bytes there are up to the three quotes that close a string of any number of lines, these included.
fn closing_quotes(quote: u8, text: &[u8]) -> Option<usize>
    ensures value { result ≡ spec.closing_quotes quote text.now }
    ensures within { IfSome result (λ count. count ≤ length text.now) }
{
    let mut at = 0;
    while at + 2 < text.len() {
        if text[at] == quote && text[at + 1] == quote && text[at + 2] == quote {
            return Some(at + 3);
        }
        at += if text[at] == b'\\' { 2 } else { 1 };
    }
    None
}
