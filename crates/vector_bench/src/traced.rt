//! The trace of the rows of an input.
ghost use Rattle.std.specs.Prelude.{IsTrue, IfOk, ◌≤◌, length};

use crate::fault::Fault;
use pm_bits::Bits;
use pm_design::Row;
use pm_io::{LineGot, Lines, List, NoMemory, Put, Sink, Source, Text, WriteBuffer};
use pm_trace::{Header, RowGot, queue_head_at, queue_row_at, read_header_at, read_row_at};
use std::alloc::Global;

/// The names of the inputs.
const NAMES: &[u8; 8] = b"abcdefgh";

/// The width of each input.
const WIDTH: u32 = 32;

/// The greatest length of a line of the input before its LF, in bytes.
const LINE_LIMIT: usize = 65_536;

/// Writes the trace of the vectors of an input.
pub fn write_trace<I: Source, O: Sink>(
    alloc: Global,
    input: &mut I,
    output: &mut O,
) -> Result<(), Fault> {
    let names = input_names(alloc)?;
    let mut lines = Lines::new(alloc, LINE_LIMIT)?;
    match lines.next(input) {
        LineGot::Line => {
            let header = read_header_at(alloc, names.as_slice(), lines.line())?;
            write_rows(alloc, names.as_slice(), &header, &mut lines, input, output)
        }
        _ => Err(Fault::BadLine),
    }
}

fn input_names(alloc: Global) -> Result<List<Text>, NoMemory>
    ensures { IfOk result (λ names. length names ≤ 8) }
{
    let mut names = List::new(alloc);
    for name in NAMES {
        names.push(Text::from_slice(alloc, &[*name])?)?;
    }
    Ok(names)
}

// The trace of the lines after the header.
fn write_rows<I: Source, O: Sink>(
    alloc: Global,
    names: &[Text],
    header: &Header,
    lines: &mut Lines,
    input: &mut I,
    output: &mut O,
) -> Result<(), Fault>
    requires { IsTrue lines.old.live }
{
    let mut row = Row {
        values: zeros(alloc)?,
    };
    let mut buffer = WriteBuffer::new();
    sure(queue_head_at(names, &mut buffer, output))?;
    for cycle in 0..u64::MAX {
        match lines.next(input) {
            LineGot::Line => {}
            LineGot::End => break,
            LineGot::TooLong => return Err(Fault::BadLine),
            LineGot::Failed => return Err(Fault::BrokenStream),
        }
        match read_row_at(header, lines.line(), &mut row) {
            RowGot::Good => {}
            RowGot::Bad => return Err(Fault::BadLine),
        }
        sure(queue_row_at(cycle, false, row.values.as_slice(), &mut buffer, output))?;
    }
    sure(buffer.flush(output))
}

// A value of 0 for each input.
fn zeros(alloc: Global) -> Result<List<Bits>, NoMemory> {
    let mut values = List::new(alloc);
    for _ in NAMES {
        match Bits::new(WIDTH, 0) {
            Some(value) => values.push(value)?,
            None => {}
        }
    }
    Ok(values)
}

fn sure(put: Put) -> Result<(), Fault> {
    match put {
        Put::All => Ok(()),
        Put::Failed => Err(Fault::BrokenStream),
    }
}
