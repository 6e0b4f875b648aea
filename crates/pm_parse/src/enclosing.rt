//! Which lines are skipped: functions that print a component, with the lines inside them.
ghost use Rattle.std.specs.Prelude.{◌≡◌, IfOk, OnOk, List, [], ◌∷◌};
ghost use Rattle.pm_grammar.specs.Prefixes as first;
ghost use Rattle.pm_grammar.specs.Tokens as grammar;
ghost use Rattle.pm_parse.specs.EnclosingLines as enclosing;
ghost use Rattle.pm_parse.specs.Skipped as spec;
ghost use Rattle.pm_syn.specs.declared.token.Line.{Line as TheLine};

use pm_grammar::is_word;
use pm_io::{NoMemory, Stack};
use pm_syn::{Line, Token};

/// What lines inside a line need to know of it.
#[derive(Clone, Copy)]
pub(crate) struct EnclosingLine {
    column: u32,
    begins_class: bool,
    is_skipped: bool,
}

/// Takes the next line, and returns whether it is skipped. The stack holds the lines that the next line may be inside,
/// innermost first: the line before it, and the lines that this one is inside.
///
/// The clauses speak of all lines before it, the last one first.
pub(crate) fn skips(outer: &mut Stack<EnclosingLine>, line: &Line) -> Result<bool, NoMemory>
    ensures skipped { (before : List TheLine) → outer.old ≡ enclosing.enclosing_after before → IfOk result (λ skipped. skipped ≡ spec.is_skipped line.now before) }
    ensures kept { (before : List TheLine) → outer.old ≡ enclosing.enclosing_after before → OnOk result (outer.new ≡ enclosing.enclosing_after (line.now ∷ before)) }
{
    leave(outer, line.column);
    let tokens = line.tokens.as_slice();
    let is_skipped = is_skipped_under(outer, tokens);
    outer.push(EnclosingLine {
        column: line.column,
        begins_class: begins_class(tokens),
        is_skipped,
    })?;
    Ok(is_skipped)
}

/// Drops the lines that are no less deep than this column.
fn leave(outer: &mut Stack<EnclosingLine>, column: u32)
    ensures { outer.new ≡ enclosing.above column outer.old }
{
    while is_within(outer, column) {
        outer.pop();
    }
}

fn is_within(outer: &Stack<EnclosingLine>, column: u32) -> bool
    ensures { result ≡ enclosing.is_within column outer.now }
{
    match outer.top() {
        Some(innermost) => innermost.column >= column,
        None => false,
    }
}

/// Whether a line of these tokens is skipped, once the lines that it isn't inside are dropped.
fn is_skipped_under(outer: &Stack<EnclosingLine>, tokens: &[Token]) -> bool
    ensures { result ≡ enclosing.is_skipped_under tokens.now outer.now }
{
    match outer.top() {
        Some(innermost) => {
            innermost.is_skipped || (innermost.begins_class && begins_printer(tokens))
        }
        None => false,
    }
}

/// Whether a line of these tokens begins with `class`.
fn begins_class(tokens: &[Token]) -> bool
    ensures { result ≡ spec.begins_class tokens.now }
{
    begins_with(b"class", tokens)
}

/// Whether a line of these tokens begins a function that prints a component.
fn begins_printer(tokens: &[Token]) -> bool
    ensures { result ≡ spec.begins_printer tokens.now }
{
    match tokens.split_first() {
        Some((first, after)) => {
            is_word(b"def", first)
                && (begins_with(b"line_trace", after) || begins_with(b"__str__", after))
        }
        None => false,
    }
}

fn begins_with(word: &[u8], tokens: &[Token]) -> bool
    ensures { result ≡ first.begins_with (grammar.is_word word.now) tokens.now }
{
    match tokens.first() {
        Some(first) => is_word(word, first),
        None => false,
    }
}
