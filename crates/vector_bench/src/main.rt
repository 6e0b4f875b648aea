//! The program `vector_bench`: reads vectors of eight inputs of 32 bits from its standard input, and writes the trace
//! of their rows. `bench/vectors.sh` measures it.
#![tactic(auto)]

mod fault;
mod traced;

use crate::traced::write_trace;
use pm_io::{HostSink, HostSource};
use std::io;

fn main(rt: HostRuntime) -> io::Result<()> {
    let mut input = HostSource::new(rt.stdin());
    let mut output = HostSink::new(rt.stdout());
    match write_trace(rt.alloc(), &mut input, &mut output) {
        Ok(()) => Ok(()),
        Err(fault) => println!(rt; "{fault}"),
    }
}
