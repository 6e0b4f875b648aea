//! The program `show_values`: reads rows of integers and operators, such as `-7 // 2`, and prints each with its result.
//!
//! A row is an operation on integers, as `-7 // 2` and `~ 5`, a call, as `clog2( 9 )`, or a range, as `range( 5, 0, -2 )`,
//! whose result is its first integers. The result is `none` if there is no integer of 64 bits. Rows that begin with `#`,
//! and empty ones, are only copied. A row that can't be read has the result `?`.
#![tactic(auto)]

mod operators;
mod row;

use std::io;

fn main(rt: HostRuntime) -> io::Result<()> {
    for line in rt.lines(rt.alloc()) {
        let answer = row::with_result(rt.alloc(), line?.as_str())?;
        println!(rt; "{answer}")?;
    }
    Ok(())
}
