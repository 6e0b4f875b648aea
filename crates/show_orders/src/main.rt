//! The program `show_orders`: reads rows of precedences from its standard input, and prints their default orders or
//! what is wrong with listed ones.
//!
//! A row has a number of blocks and a colon, and then the edges. An edge is `a<b`: block a comes directly before block b.
//! The word `back` stands for an edge from each block to the one below it, `all` for an edge from each block to every
//! greater one, and `ring` for an edge from each block to the next and from the last to the first. A conflict is `a~b`,
//! with the lesser block first. What is printed is the default order, or `cycle` and the reported cycle; of a long list
//! it is the first two numbers and the last. The default order is looked through for breaks too, and a break would be
//! printed after it. Then comes the least pair of blocks that conflict and that nothing orders, if there is one.
//!
//! In a row with a bar the numbers after it are a listed order, and what is printed is its first break.
//!
//! `stdin` has the rows of this program's run, and `stdout` the same rows with their answers, which a person wrote.
#![tactic(auto)]

mod answer;
mod edges;

use crate::answer::answer_to;
use std::alloc::{AllocError, Global};
use std::io;
use std::io::{BufRead, BufReader, BufWriter, Write};

fn main(rt: HostRuntime) -> io::Result<()> {
    let alloc = rt.alloc();
    let mut output = BufWriter::new(alloc, io::writer(&rt))?;
    for row in BufReader::new(alloc, rt.reader())?.lines(alloc) {
        let printed = printed_row(alloc, row?.as_str())?;
        output.write_all(printed.as_bytes())?;
    }
    output.flush()
}

// The row as it is, with the answer after it.
fn printed_row(alloc: Global, row: &str) -> Result<String, AllocError> {
    if row.is_empty() || row.starts_with('#') {
        return format!(in alloc; "{row}\n");
    }
    match answer_to(alloc, row) {
        Ok(answer) => format!(in alloc; "{row} => {answer}\n"),
        Err(_) => format!(in alloc; "{row} => out of memory\n"),
    }
}
