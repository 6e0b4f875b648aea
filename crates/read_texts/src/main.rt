//! The program `read_texts`: reads rows from its standard input, and prints each with what its text is read as.
//!
//! A row is a question and a text, as ``statement `x = 1` ``. The text is in pieces between backquotes. In a piece `\n`,
//! `\r` and `\t` are a line feed, a carriage return and a tab, `\\` is a backslash, and `\x60` is the byte 0x60. A number
//! after a piece, as in `` `-`*64 ``, says how often it is repeated. A row that is empty or begins with `#` is printed
//! as it is.
//!
//! `stdin` has the rows of this program's run, and `stdout` the same rows with their answers, which a person wrote.
#![tactic(auto)]

mod answer;
mod row;

use crate::answer::answer_of;
use std::alloc::{AllocError, Global};
use std::io;
use std::io::{BufRead, BufReader, BufWriter, Write};

fn main(rt: HostRuntime) -> io::Result<()> {
    let alloc = rt.alloc();
    let mut output = BufWriter::new(alloc, io::writer(&rt))?;
    for row in BufReader::new(alloc, rt.reader())?.lines(alloc) {
        let printed = printed_row(alloc, row?.as_str())?;
        output.write_all(printed.as_slice())?;
    }
    output.flush()
}

// The row as it is, with the answer after it.
fn printed_row(alloc: Global, row: &str) -> Result<Vec<u8>, AllocError> {
    let mut printed = Vec::from_slice(alloc, row.as_bytes())?;
    if !row.is_empty() && !row.starts_with('#') {
        printed.extend_from_slice(b" =>")?;
        let answer = answer_of(alloc, row)?;
        printed.extend_from_slice(answer.as_slice())?;
    }
    printed.push(b'\n')?;
    Ok(printed)
}
