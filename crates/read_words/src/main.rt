//! The program `read_words`: reads rows of words from its standard input, and prints each with the job that the words
//! ask for.
//!
//! The words of a row are in backquotes. A job is printed as its action, its file and its class, a word `name=value` for
//! each parameter, and for a simulation its order file, if it has one, and its reset cycles. Words that ask for none are
//! `usage`. A row that is empty or begins with `#` is printed as it is.
//!
//! `stdin` has the rows of this program's run, and `stdout` the same rows with their answers, which a person wrote.
#![tactic(auto)]

mod answer;

use crate::answer::answer_of;
use std::alloc::{AllocError, Global};
use std::io;
use std::io::{BufRead, BufReader, BufWriter, Write};

fn main(rt: HostRuntime) -> io::Result<()> {
    let alloc = rt.alloc();
    let mut output = BufWriter::new(alloc, io::writer(&rt))?;
    for row in BufReader::new(alloc, rt.reader())?.lines(alloc) {
        let printed = printed_row(alloc, row?.as_str())?;
        output.write_all(printed.as_slice())?;
    }
    output.flush()
}

// The row as it is, with the answer after it.
fn printed_row(alloc: Global, row: &str) -> Result<Vec<u8>, AllocError> {
    let mut printed = Vec::from_slice(alloc, row.as_bytes())?;
    if !row.is_empty() && !row.starts_with('#') {
        printed.extend_from_slice(b" => ")?;
        let answer = answer_of(alloc, row)?;
        printed.extend_from_slice(answer.as_slice())?;
    }
    printed.push(b'\n')?;
    Ok(printed)
}
