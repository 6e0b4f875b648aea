//! The lines of the narrow form.
ghost use Rattle.std.specs.Prelude.{◌≡◌, ◌<◌, ◌∷◌, [], length, map, option_map, IfSome, IsTrue, ◌↔◌};
ghost use Rattle.std.specs.Option.{option_map_or, option_copied};
ghost use Rattle.pm_io.specs.Lines.{lines_of};
ghost use Rattle.pm_job.specs.Form as spec;

use crate::spelling::is_name;
use crate::words::without_prefix;
use memchr::memchr;
use pm_io::LF;

/// The first line of a text that is not empty, and the text after it.
#[tactic(auto, using(crate::proofs::FormLines::form_lines_nil, crate::proofs::FormLines::form_lines_skip, crate::proofs::FormLines::form_lines_take))]
pub(crate) fn next_line(text: &[u8]) -> Option<(&[u8], &[u8])>
    ensures lines { spec.form_lines text.now ≡ option_map_or (λ parts. parts.0.now ∷ spec.form_lines parts.1.now) result [] }
    ensures shorter { IfSome result (λ parts. length parts.1.now < length text.now) }
{
    let mut rest = text;
    'empty: while !rest.is_empty() {
        let (line, after) = first_line(rest);
        if !line.is_empty() {
            return Some((line, after));
        }
        rest = after;
    }
    None
}

// The first line of a text that is not empty, and the text after it.
#[tactic(auto, using(crate::proofs::FormLines::lines_at, crate::proofs::FormLines::lines_nowhere))]
fn first_line(text: &[u8]) -> (&[u8], &[u8])
    requires { 0 < length text.now }
    ensures lines { map (λ line. line.bytes) (lines_of text.now) ≡ result.0.now ∷ map (λ line. line.bytes) (lines_of result.1.now) }
    ensures shorter { length result.1.now < length text.now }
{
    match memchr(LF, text) {
        Some(end) => (&text[..end], &text[end + 1..]),
        None => (text, &text[text.len()..]),
    }
}

/// The text after the three lines that open a component of this class.
#[tactic(auto, unfolding(crate::specs::Form::after_head))]
pub(crate) fn after_head<'a>(class: &[u8], text: &'a [u8]) -> Option<&'a [u8]>
    ensures { option_map (λ rest. spec.form_lines rest.now) result ≡ spec.after_head class.now (spec.form_lines text.entry.now) }
{
    let rest = after_line(text, b"from pymtl3 import *")?;
    let rest = after_class_line(class, rest)?;
    after_line(rest, b"  def construct( s ):")
}

// The text after its first line, if that is the wanted one.
fn after_line<'a>(text: &'a [u8], wanted: &[u8]) -> Option<&'a [u8]>
    ensures { option_map (λ rest. spec.form_lines rest.now) result ≡ spec.after_line wanted.now (spec.form_lines text.entry.now) }
{
    match next_line(text) {
        Some((line, rest)) => { if line == wanted { Some(rest) } else { None } }
        None => None,
    }
}

// The text after its first line, if that is the line of the class.
fn after_class_line<'a>(class: &[u8], text: &'a [u8]) -> Option<&'a [u8]>
    ensures { option_map (λ rest. spec.form_lines rest.now) result ≡ spec.after_class_line class.now (spec.form_lines text.entry.now) }
{
    match next_line(text) {
        Some((line, rest)) => {
            if is_class_line(class, line) {
                Some(rest)
            } else {
                None
            }
        }
        None => None,
    }
}

// Whether a line is `class NAME( Component ):`, where NAME is the class.
#[tactic(auto, unfolding(crate::specs::Form::is_class_line))]
fn is_class_line(class: &[u8], line: &[u8]) -> bool
    ensures { result ≡ spec.is_class_line class.now line.now }
{
    is_name(class) && is_head_of(class, line)
}

fn is_head_of(class: &[u8], line: &[u8]) -> bool
    ensures { result ≡ spec.is_head_of class.now line.now }
{
    let Some(text) = without_prefix(line, b"class ") else {
        return false;
    };
    match without_prefix(text, class) {
        Some(rest) => rest == b"( Component ):".as_slice(),
        None => false,
    }
}
