//! The program `block_bench`: runs the block `s.out @= ( s.acc ^ s.in_ ) + s.k` of 32 bits so many times, and prints the
//! value that it leaves. `bench/blocks.sh` measures it.
#![tactic(auto)]

mod plan;
mod turns;

use std::marker::Brand;
use std::sync::ledger::Blank;
use std::{env, io};

fn main(rt: HostRuntime) -> io::Result<()> {
    let Some(turns) = env::args(&rt)?.nth(1) else {
        return println!(rt; "usage: block_bench TURNS");
    };
    let Ok(turns) = turns.parse::<u32>() else {
        return println!(rt; "usage: block_bench TURNS");
    };
    match turns::last_value::<Brand>(rt.alloc(), Blank::new(1), turns) {
        Ok(value) => println!(rt; "{}", value.value()),
        Err(fault) => println!(rt; "{fault}"),
    }
}
