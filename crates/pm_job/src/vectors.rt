//! The header and the rows of the vectors that a simulation reads.
ghost use Rattle.std.specs.Prelude.{◌≡◌, ◌<◌, ◌≤◌, IsTrue, ◌↔◌};
ghost use Rattle.pm_job.specs.Vectors as spec;
ghost use Rattle.pm_job.specs.Values.{value_widths};
ghost use Rattle.pm_job.specs.Vectors.{ReadsRow};

use crate::component::Component;
use crate::inputs::is_input;
use crate::words::{first_word, number, without_prefix};
use pm_bits::Bits;

/// Whether a line is a row.
#[derive(Clone, Copy)]
pub enum RowGot {
    /// One value for each input, and nothing else.
    Good,
    /// Anything else.
    Bad,
}

/// Reads a line into a row, which has a value of the width of each input. After `Bad` the values are unspecified.
pub fn read_row(line: &[u8], row: &mut [Bits]) -> RowGot
    ensures row { ReadsRow line.now row.old row.new result }
    ensures widths { value_widths row.new ≡ value_widths row.old }
{
    let mut rest = if line.is_empty() { None } else { Some(line) };
    'row: for index in 0..row.len() {
        let Some(text) = rest else {
            return RowGot::Bad;
        };
        let (word, after) = first_word(text);
        let Some(value) = value(row[index].width(), word) else {
            return RowGot::Bad;
        };
        row[index] = value;
        rest = after;
    }
    match rest {
        None => RowGot::Good,
        Some(_) => RowGot::Bad,
    }
}

/// Whether a line is the header of a component's vectors.
pub fn is_header(component: &Component, line: &[u8]) -> bool
    ensures { IsTrue result ↔ (line.now ≡ spec.header_of component.now) }
{
    let signals = component.signals.as_slice();
    let mut separator = b"".as_slice();
    let mut rest = line;
    'inputs: for index in 1..signals.len() {
        let signal = &signals[index];
        if is_input(signal.role) {
            let Some(at_name) = without_prefix(rest, separator) else {
                return false;
            };
            let Some(after_name) = without_prefix(at_name, signal.name.as_slice()) else {
                return false;
            };
            rest = after_name;
            separator = b" ".as_slice();
        }
    }
    rest.is_empty()
}

// The value of this width that a word writes.
#[tactic(auto, using(crate::proofs::Rows::value_of_wide))]
fn value(width: u32, word: &[u8]) -> Option<Bits>
    requires positive { 1 ≤ width }
    requires narrow { width ≤ 128 }
    ensures { result ≡ spec.value_of width word.now }
{
    Bits::new(width, number(word)?)
}
