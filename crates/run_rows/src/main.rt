//! The program `run_rows`: reads rows from its standard input, runs the program's one call on words, streams and files in
//! memory as they say, and prints each row with what the runs gave.
//!
//! A row sets something for the runs after it, or runs:
//!
//! | Row | What it does |
//! |---|---|
//! | `file NAME` | the only file has this name, and is empty |
//! | `\| LINE` | adds a line to the file |
//! | `` words `W` `W`.. `` | sets the words of the command line |
//! | `` input `P` `P`.. `` | sets the input, a piece for each read |
//! | `most N` | a write takes at most N bytes |
//! | `run` | runs |
//! | `` change `A` `B` `` | runs with the first A in the file replaced by B |
//! | `fail CALL FIRST LAST` | runs once for each number from FIRST to LAST, and the call with this number fails: `read`, `write`, `message` or `load` |
//!
//! In a piece `\n` and `\r` are a line feed and a carriage return. A row that is empty or begins with `#` does nothing.
//!
//! `stdin` has the rows of this program's run. `stdout` has the same rows with what the runs must give: the status, the
//! output and the messages. They follow from the rules of the form, and were not taken from a run.
#![tactic(auto)]

mod answer;
mod objects;
mod piece;
mod settings;

use crate::answer::answer_of;
use crate::settings::Settings;
use std::alloc::AllocError;
use std::io;
use std::io::{BufRead, BufReader, Write};
use std::thread::Threads;

fn main(rt: HostRuntime) -> io::Result<()> {
    let alloc = rt.alloc();
    let mut settings = Settings::new(alloc);
    for row in BufReader::new(alloc, rt.reader())?.lines(alloc) {
        let answer = answer_to(&rt, &mut settings, row?.as_str())?;
        rt.write_all(answer.as_slice())?;
    }
    Ok(())
}

// The row with its answer, after doing what it says.
fn answer_to<R: Threads + Sync>(
    rt: &R,
    settings: &mut Settings,
    row: &str,
) -> Result<Vec<u8>, AllocError> {
    settings.change(row)?;
    answer_of(rt, settings, row).map_err(|_| AllocError)
}
