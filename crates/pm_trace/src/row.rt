//! Rows of vectors.
ghost use Rattle.std.specs.Prelude.{◌≡◌, IfSome, ◌<◌, length};
ghost use Rattle.pm_trace.specs.Rows as spec;
ghost use Rattle.pm_trace.specs.Rows.{ReadsRow};
ghost use Rattle.pm_trace.specs.Words.{words_of};

use crate::digits::value_of;
use crate::header::Header;
use crate::words::next_word;
use pm_bits::Bits;
use pm_design::Row;
use pm_io::List;

/// Whether a line is a row.
#[derive(Clone, Copy)]
pub enum RowGot {
    /// One value for each word of the header, and nothing else.
    Good,
    /// Anything else.
    Bad,
}

/// Reads a line into a row, which has a value of the width of each input. After `Bad` the row is unchanged.
pub fn read_row_at(header: &Header, line: &[u8], row: &mut Row) -> RowGot
    ensures { ReadsRow header.now.port_of line.now row.old.values row.new.values result }
{
    let inputs = header.port_of.as_slice();
    if !gives_values(row.values.as_slice(), inputs, line) {
        return RowGot::Bad;
    }
    fill(inputs, line, &mut row.values);
    RowGot::Good
}

// Whether the line has a value for each input, and nothing else.
fn gives_values(row: &[Bits], inputs: &[u32], line: &[u8]) -> bool
    ensures { result ≡ spec.give_values row.now inputs.now (words_of line.now) }
{
    let mut rest = line;
    'inputs: for input in inputs {
        match next_word(rest) {
            Some((word, after)) => {
                if value_at(row, *input, word).is_none() {
                    return false;
                }
                rest = after;
            }
            None => return false,
        }
    }
    next_word(rest).is_none()
}

// The value that a word gives to an input.
#[tactic(auto, unfolding(crate::specs::Rows::value_at))]
fn value_at(row: &[Bits], input: u32, word: &[u8]) -> Option<Bits>
    ensures value { result ≡ spec.value_at row.now input word.now }
    ensures within { IfSome result (λ value. input < length row.now) }
{
    let old = row.get(input as usize)?;
    value_of(old.width(), word)
}

// Gives each input the value of its word.
fn fill(inputs: &[u32], line: &[u8], row: &mut List<Bits>)
    ensures { row.new ≡ spec.filled inputs.now (words_of line.now) row.old }
{
    let mut rest = line;
    'inputs: for input in inputs {
        match next_word(rest) {
            Some((word, after)) => {
                put_value(row, *input, word);
                rest = after;
            }
            None => return,
        }
    }
}

// Gives an input the value of a word.
fn put_value(row: &mut List<Bits>, input: u32, word: &[u8])
    ensures { row.new ≡ spec.with_value row.old input (spec.value_at row.old input word.now) }
{
    match value_at(row.as_slice(), input, word) {
        Some(value) => row.set(input as usize, value),
        None => {}
    }
}
