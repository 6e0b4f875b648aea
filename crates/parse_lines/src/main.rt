//! The program `parse_lines`: reads files, and prints of each logical line its number, its column and its tokens, and under
//! that its statement or its fault; then the tree of the lines or the first fault of the file. If the text itself has a
//! fault, it prints that. `tests/python_agrees.sh` compares this with what Python reads.
#![tactic(auto)]

use pm_io::{HostStore, Loaded, Store};
use pm_parse::{parse, parse_line};
use pm_syn::{Line, lex};
use std::alloc::{AllocError, Global};
use std::{env, io};
use tree_text::{write_nodes, write_statement};

/// How many bytes of a file are read: more than a design file may have, so that `lex` itself refuses a longer one.
const LIMIT: usize = 1 << 21;

fn main(rt: HostRuntime) -> io::Result<()> {
    let arguments = env::args(&rt)?;
    if arguments.len() < 2 {
        return println!(rt; "usage: parse_lines FILE..");
    }
    for name in arguments.skip(1) {
        print_file(&rt, name.as_bytes())?;
    }
    Ok(())
}

fn print_file(rt: &HostRuntime, name: &[u8]) -> io::Result<()> {
    let alloc = rt.alloc();
    let mut text = Vec::new(alloc);
    let mut store = HostStore::new(alloc, rt);
    if store.load(name, LIMIT, &mut text) != Loaded::All {
        return println!(rt; "the file couldn't be read");
    }
    match lex(alloc, text.as_slice()) {
        Ok(lines) => {
            for line in lines.as_slice() {
                print_line(rt, line)?;
            }
            let tree = tree_of(alloc, lines.as_slice())?;
            rt.write_all(tree.as_slice())
        }
        Err(fault) => println!(rt; "{fault}"),
    }
}

fn print_line(rt: &HostRuntime, line: &Line) -> io::Result<()> {
    let tokens = tokens_of(rt.alloc(), line)?;
    rt.write_all(tokens.as_slice())?;
    let reading = reading_of(rt.alloc(), line)?;
    rt.write_all(reading.as_slice())
}

// The number of the line, its column, its tokens, and a line end.
fn tokens_of(alloc: Global, line: &Line) -> Result<Vec<u8>, AllocError> {
    let number = format!(in alloc; "{} {}", line.number, line.column)?;
    let mut text = Vec::from_slice(alloc, number.as_bytes())?;
    for token in line.tokens.as_slice() {
        text.push(b' ')?;
        text.extend_from_slice(token.text.as_slice())?;
    }
    text.push(b'\n')?;
    Ok(text)
}

// What the line is read as, and a line end.
fn reading_of(alloc: Global, line: &Line) -> Result<Vec<u8>, AllocError> {
    let mut text = Vec::from_slice(alloc, b"  ")?;
    match parse_line(alloc, line) {
        Ok(statement) => write_statement(alloc, &statement, &mut text)?,
        Err(fault) => text.extend_from_slice(format!(in alloc; "{fault:?}")?.as_bytes())?,
    }
    text.push(b'\n')?;
    Ok(text)
}

// The word `file`, the tree of the lines or their first fault, and a line end.
fn tree_of(alloc: Global, lines: &[Line]) -> Result<Vec<u8>, AllocError> {
    let mut text = Vec::from_slice(alloc, b"file")?;
    match parse(alloc, lines) {
        Ok(file) => write_nodes(alloc, file.nodes.as_slice(), &mut text)?,
        Err(fault) => text.extend_from_slice(format!(in alloc; " {fault:?}")?.as_bytes())?,
    }
    text.push(b'\n')?;
    Ok(text)
}
