//! Brackets: which a token opens or closes, and those that are open.
ghost use Rattle.std.specs.Prelude.{◌≡◌, OnOk, [], length};
ghost use Rattle.pm_syn.specs.Reading as spec;

use pm_io::{NoMemory, Stack};

/// An opening bracket that hasn't been closed.
#[derive(Clone, Copy)]
pub(crate) struct Bracket {
    /// The bracket itself.
    pub byte: u8,
    /// The number of its line.
    pub line: u32,
}

/// What a token does to the brackets that are open.
#[derive(Clone, Copy)]
pub(crate) enum Nesting {
    Opens,
    Closes,
    Keeps,
}

fn nesting_of(token: &[u8]) -> Nesting
    ensures { result ≡ spec.nesting_of token.now }
{
    if token.len() != 1 {
        return Nesting::Keeps;
    }
    match token[0] {
        b'(' | b'[' | b'{' => Nesting::Opens,
        b')' | b']' | b'}' => Nesting::Closes,
        _ => Nesting::Keeps,
    }
}

/// The closing bracket that fits an opening one.
fn closing_of(opening: u8) -> u8
    ensures { result ≡ spec.closing_of opening }
{
    match opening {
        b'(' => b')',
        b'[' => b']',
        _ => b'}',
    }
}

// The functions below take the brackets that are open, innermost first.

/// Whether no bracket is open.
pub(crate) fn are_closed(open_brackets: &Stack<Bracket>) -> bool
    ensures { result ≡ spec.are_closed open_brackets.now }
{
    open_brackets.top().is_none()
}

/// Opens or closes what a token on this line opens or closes.
pub(crate) fn nest(
    open_brackets: &mut Stack<Bracket>,
    token: &[u8],
    line: u32,
) -> Result<(), NoMemory>
    ensures { OnOk result (open_brackets.new ≡ spec.nested (spec.nesting_of token.now) line (spec.byte_of token.now) open_brackets.old) }
{
    match nesting_of(token) {
        Nesting::Opens => open_brackets.push(Bracket {
            byte: token[0],
            line,
        })?,
        Nesting::Closes => {
            open_brackets.pop();
        }
        Nesting::Keeps => {}
    }
    Ok(())
}

/// The line to name if a token on this line closes a bracket wrongly.
pub(crate) fn wrongly_closed(open_brackets: &Stack<Bracket>, token: &[u8], line: u32) -> Option<u32>
    ensures { result ≡ spec.bad_nesting (spec.nesting_of token.now) line (spec.byte_of token.now) open_brackets.now }
{
    match nesting_of(token) {
        Nesting::Opens | Nesting::Keeps => None,
        Nesting::Closes => match open_brackets.top() {
            None => Some(line),
            Some(innermost) if closing_of(innermost.byte) == token[0] => None,
            Some(innermost) => Some(innermost.line),
        },
    }
}

/// The line of the outermost bracket, if one is open.
pub(crate) fn unclosed(open_brackets: &Stack<Bracket>) -> Option<u32>
    ensures { result ≡ spec.unclosed open_brackets.now }
{
    open_brackets.bottom().map(|outermost| outermost.line)
}
