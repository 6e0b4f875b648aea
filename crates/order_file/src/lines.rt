//! The lines of a text in memory.
ghost use Rattle.std.specs.Prelude.{◌≡◌, ◌≤◌, [], MatchOption, length, take};
ghost use Rattle.pm_io.specs.Lines.{lines_of, without_cr as spec_without_cr};
ghost use Rattle.order_file.specs.Orders.{CutsLine};

use memchr::memchr;
use pm_io::{CR, LF};

/// The first line of a text without its line end, and the text after it.
pub(crate) fn next_line(text: &[u8]) -> Option<(&[u8], &[u8])>
    ensures { MatchOption result (lines_of text.now ≡ []) (λ parts. CutsLine text.now parts.0.now parts.1.now) }
{
    if text.is_empty() {
        return None;
    }
    match memchr(LF, text) {
        Some(end) => Some((without_cr(&text[..end]), &text[end + 1..])),
        None => Some((text, b"")),
    }
}

// A line without a CR at its end.
fn without_cr(line: &[u8]) -> &[u8]
    ensures { result.now ≡ spec_without_cr line.now }
{
    &line[..count_without_cr(line)]
}

// How many bytes the line has without a CR at its end.
fn count_without_cr(line: &[u8]) -> usize
    ensures within { result ≤ length line.now }
    ensures value { take result line.now ≡ spec_without_cr line.now }
{
    let count = line.len();
    if 0 < count && line[count - 1] == CR {
        count - 1
    } else {
        count
    }
}
