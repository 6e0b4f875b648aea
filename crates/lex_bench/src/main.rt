//! The program `lex_bench`: reads a file, and prints how many logical lines and tokens it has, or its fault.
//! `bench/lex.sh` measures it.
#![tactic(auto)]

use pm_io::{HostStore, Loaded, Store};
use pm_syn::{Line, lex};
use std::{env, io};

/// How many bytes of a file are read: more than a design file may have, so that `lex` itself refuses a longer one.
const LIMIT: usize = 1 << 21;

fn main(rt: HostRuntime) -> io::Result<()> {
    let alloc = rt.alloc();
    let Some(name) = env::args(&rt)?.nth(1) else {
        return println!(rt; "usage: lex_bench FILE");
    };
    let mut text = Vec::new(alloc);
    let mut store = HostStore::new(alloc, &rt);
    if store.load(name.as_bytes(), LIMIT, &mut text) != Loaded::All {
        return println!(rt; "the file couldn't be read");
    }
    match lex(alloc, text.as_slice()) {
        Ok(lines) => {
            let tokens = token_count(lines.as_slice());
            println!(rt; "{} lines, {tokens} tokens", lines.len())
        }
        Err(fault) => println!(rt; "{fault}"),
    }
}

fn token_count(lines: &[Line]) -> usize {
    let mut count: usize = 0;
    for line in lines {
        count = count.saturating_add(line.tokens.len());
    }
    count
}
