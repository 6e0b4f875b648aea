//! The program `show_bits`: reads rows such as `8'hff add 8'h01`, and prints each with its result, as `8'h0` or `none`.
//!
//! A value is its width and its number in hexadecimal digits. A row names a method of `Bits`, as `8'hc5 slice 2 7` and
//! `not 8'hc5`, or has the sign of an operator, as `8'hc5 + 8'h03` and `^ 8'h07`. Rows that begin with `#`, and empty
//! ones, are only copied. A row that can't be read has the result `?`.
#![tactic(auto)]

mod notation;
mod operands;
mod row;

use std::io;

fn main(rt: HostRuntime) -> io::Result<()> {
    for line in rt.lines(rt.alloc()) {
        let answer = row::with_result(rt.alloc(), line?.as_str())?;
        println!(rt; "{answer}")?;
    }
    Ok(())
}
