//! The program `show_design`: shows what becomes of a design.
//!
//! `show_design LAYER FILE TOP [name=value ..]` prints the design of the class TOP after one layer of its way through the
//! program, or why there is none. The layer `kinds` has the bitstructs, the kinds of component and what each of them
//! has; the layer `bodies` has the typed bodies of blocks and methods too. The layer `nets` has the instances, with
//! the net of each bit of their signals. The status is that of `pymtl`: 1 for a design that is refused, 2 for words that
//! mean nothing.
//!
//! `show_design rows` reads rows from its standard input. A row is a title, which begins with `#`, a line
//! `LAYER TOP [name=value ..]`, and a design up to a line `--`. It prints each title and what becomes of the design.
//! `stdin` has the rows of this program's run, and `stdout` what they must give, which was not taken from a run.
#![tactic(auto)]

mod design;
mod expressions;
mod kinds;
mod members;
mod nets;
mod page;
mod parts;
mod refusal;
mod rows;
mod scene;
mod statements;
mod status;
mod wiring;
mod words;

use crate::design::show;
use crate::page::Page;
use crate::refusal::{Refusal, write_refusal};
use crate::rows::Row;
use crate::status::Status;
use crate::words::question_of;
use pm_io::{HostSink, HostStore, Loaded, Put, Store, put_all};
use pm_syn::TextFault;
use std::alloc::{AllocError, Global};
use std::io::{BufRead, BufReader};
use std::process::ExitCode;
use std::{env, io};

/// How many bytes a design file may have.
const MAX_FILE: usize = 1 << 20;

fn main(rt: HostRuntime) -> ExitCode {
    let mut page = Page::new(rt.alloc());
    let status = fill(&rt, &mut page);
    ExitCode::from(print(&rt, &page, status).code())
}

// Writes what the words of the command line ask for.
fn fill(rt: &HostRuntime, page: &mut Page) -> Status {
    let Ok(words) = command_line(rt.alloc(), rt) else {
        return Status::NoMemory;
    };
    let shown = match words.as_slice() {
        [word] if word.as_str() == "rows" => show_rows(rt, page),
        words => show_file(rt, page, words),
    };
    match shown {
        Ok(()) => Status::Done,
        Err(refusal) => {
            write_refusal(page, &refusal);
            refusal.status()
        }
    }
}

// The words after the program's name. Words that aren't UTF-8 mean nothing, as no words do.
fn command_line(alloc: Global, rt: &HostRuntime) -> Result<Vec<String>, AllocError> {
    let mut words = Vec::new(alloc);
    match env::args(rt) {
        Ok(args) => {
            for word in args.skip(1) {
                words.push(word)?;
            }
        }
        Err(error) => {
            if error.kind() == io::ErrorKind::OutOfMemory {
                return Err(AllocError);
            }
        }
    }
    Ok(words)
}

fn show_file(rt: &HostRuntime, page: &mut Page, words: &[String]) -> Result<(), Refusal> {
    let [layer, file, class, assignments @ ..] = words else {
        return Err(Refusal::Usage);
    };
    let question = question_of(rt.alloc(), layer.as_str(), class.as_str(), assignments)?;
    let text = load(rt, file.as_bytes())?;
    show(rt.alloc(), page, text.as_slice(), &question)
}

fn load(rt: &HostRuntime, name: &[u8]) -> Result<Vec<u8>, Refusal> {
    let alloc = rt.alloc();
    let mut text = Vec::new(alloc);
    match HostStore::new(alloc, rt).load(name, MAX_FILE, &mut text) {
        Loaded::All => Ok(text),
        Loaded::TooLarge => Err(Refusal::Text(TextFault::FileTooLong)),
        Loaded::Failed => Err(Refusal::ReadFault),
        Loaded::NoMemory => Err(Refusal::NoMemory),
    }
}

fn show_rows(rt: &HostRuntime, page: &mut Page) -> Result<(), Refusal> {
    let alloc = rt.alloc();
    let mut row = Row::new(alloc);
    let Ok(input) = BufReader::new(alloc, rt.reader()) else {
        return Err(Refusal::NoMemory);
    };
    for line in input.lines(alloc) {
        match line {
            Ok(line) => row.read(alloc, page, line.as_str())?,
            Err(_) => return Err(Refusal::ReadFault),
        }
    }
    Ok(())
}

// Prints the page, and returns how the program ends.
fn print(rt: &HostRuntime, page: &Page, status: Status) -> Status {
    let mut output = HostSink::new(rt.stdout());
    if put_all(&mut output, page.as_slice()) == Put::Failed {
        return Status::WriteFault;
    }
    if page.is_cut() {
        return Status::NoMemory;
    }
    status
}
