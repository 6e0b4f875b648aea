//! The program `read_vectors`: reads rows of ports and lines from its standard input, and prints what the lines are
//! read as.
//!
//! A row has pieces in backquotes. The first is the inputs of a design: a name, a colon and a width for each. The
//! second is the header line, and the others are further lines. In a piece `\t`, `\r` and `\n` are a tab, a carriage
//! return and a line feed. What is printed is the trace of the lines, with `bad` for a line that is no row, or the word
//! of the header that is wrong.
//!
//! A row that begins with the word `order` has two pieces: the names of the blocks of a design, and the text of an
//! order file. What is printed is `order` and the number of the block that each line names, counted from 0. For a line
//! that names none it is the number of blocks.
//!
//! `stdin` has the rows of this program's run, and `stdout` the same rows with their answers, which a person wrote.
#![tactic(auto)]

mod answer;
mod order;
mod pieces;

use crate::answer::answer_of;
use crate::order::order_answer;
use pm_io::NoMemory;
use std::alloc::{AllocError, Global};
use std::io;
use std::io::{BufRead, BufReader, BufWriter, Write};

fn main(rt: HostRuntime) -> io::Result<()> {
    let alloc = rt.alloc();
    let mut output = BufWriter::new(alloc, io::writer(&rt))?;
    for row in BufReader::new(alloc, rt.reader())?.lines(alloc) {
        let printed = printed_row(alloc, row?.as_str())?;
        output.write_all(printed.as_slice())?;
    }
    output.flush()
}

// The row as it is, with the answer after it.
fn printed_row(alloc: Global, row: &str) -> Result<Vec<u8>, AllocError> {
    let mut printed = Vec::from_slice(alloc, row.as_bytes())?;
    if !row.is_empty() && !row.starts_with('#') {
        printed.extend_from_slice(b" => ")?;
        match answer_to(alloc, row) {
            Ok(answer) => printed.extend_from_slice(answer.as_slice())?,
            Err(_) => printed.extend_from_slice(b"out of memory")?,
        }
    }
    printed.push(b'\n')?;
    Ok(printed)
}

fn answer_to(alloc: Global, row: &str) -> Result<Vec<u8>, NoMemory> {
    if row.starts_with("order ") {
        order_answer(alloc, row)
    } else {
        answer_of(alloc, row)
    }
}
