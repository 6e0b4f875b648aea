//! What the lines of a row are read as.
use crate::pieces::{names_of, pieces_of, values_of};
use pm_bits::Bits;
use pm_design::Row;
use pm_io::{List, MemSink, NoMemory, Put, Text, WriteBuffer};
use pm_trace::{
    HeadFault, Header, RowGot, read_header_at, read_row_at, write_head_at, write_row_at,
};
use std::alloc::Global;

/// The most inputs of a row.
const MAX_INPUTS: usize = 1000;

/// What the lines of a row are read as.
pub fn answer_of(alloc: Global, row: &str) -> Result<Vec<u8>, NoMemory> {
    let pieces = pieces_of(alloc, row)?;
    match pieces.as_slice() {
        [ports, header, lines @ ..] => {
            let names = names_of(alloc, ports.as_str())?;
            answer_to(
                alloc,
                names.as_slice(),
                ports.as_str(),
                header.as_str(),
                lines,
            )
        }
        _ => Ok(Vec::from_slice(alloc, b"no lines")?),
    }
}

fn answer_to(
    alloc: Global,
    names: &[Text],
    ports: &str,
    header: &str,
    lines: &[String],
) -> Result<Vec<u8>, NoMemory> {
    if names.len() > MAX_INPUTS {
        return Ok(Vec::from_slice(alloc, b"too many inputs")?);
    }
    match read_header_at(alloc, names, header.as_bytes()) {
        Ok(header) => trace_of(alloc, names, ports, &header, lines),
        Err(HeadFault::BadHeader(word)) => wrong(alloc, word.as_slice()),
        Err(HeadFault::NoMemory) => Err(NoMemory),
    }
}

fn wrong(alloc: Global, word: &[u8]) -> Result<Vec<u8>, NoMemory> {
    let mut answer = Vec::from_slice(alloc, b"wrong ")?;
    answer.extend_from_slice(word)?;
    Ok(answer)
}

// The trace of the lines, with `bad` for a line that is no row.
fn trace_of(
    alloc: Global,
    names: &[Text],
    ports: &str,
    header: &Header,
    lines: &[String],
) -> Result<Vec<u8>, NoMemory> {
    let mut trace = head_line(alloc, names)?;
    let mut row = Row {
        values: values_of(alloc, ports)?,
    };
    for (cycle, line) in lines.iter().enumerate() {
        trace.extend_from_slice(b" / ")?;
        match read_row_at(header, line.as_bytes(), &mut row) {
            RowGot::Good => push_row(alloc, &mut trace, cycle as u64, row.values.as_slice())?,
            RowGot::Bad => trace.extend_from_slice(b"bad")?,
        }
    }
    Ok(trace)
}

fn head_line(alloc: Global, names: &[Text]) -> Result<Vec<u8>, NoMemory> {
    let mut sink = sink(alloc)?;
    let mut buffer = WriteBuffer::new();
    match write_head_at(names, &mut buffer, &mut sink) {
        Put::All => Ok(Vec::from_slice(alloc, without_lf(sink.bytes()))?),
        Put::Failed => Err(NoMemory),
    }
}

fn push_row(
    alloc: Global,
    trace: &mut Vec<u8>,
    cycle: u64,
    values: &[Bits],
) -> Result<(), NoMemory> {
    let mut sink = sink(alloc)?;
    let mut buffer = WriteBuffer::new();
    match write_row_at(cycle, false, values, &mut buffer, &mut sink) {
        Put::All => Ok(trace.extend_from_slice(without_lf(sink.bytes()))?),
        Put::Failed => Err(NoMemory),
    }
}

fn sink(alloc: Global) -> Result<MemSink, NoMemory> {
    MemSink::new(alloc, 65536, 4096, List::new(alloc))
}

// A line without its line feed.
fn without_lf(line: &[u8]) -> &[u8] {
    match line {
        [rest @ .., b'\n'] => rest,
        _ => line,
    }
}
