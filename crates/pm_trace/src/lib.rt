//! The texts of a simulation: vectors that are read, and the trace that is written.
//!
//! `read_header` reads the first line of vectors for a plan, and `read_row` each further one into the values of the
//! inputs. `queue_head` and `queue_row` write the lines of its trace through a buffer, and `write_head` and `write_row`
//! at once. The calls whose names end in `_at` do the same for ports that are given as lists, without a plan.
//!
//! Reading a row and writing one take no memory, and time that grows with the line. A header takes time that grows with
//! the line and the names of the inputs. In the order of the flow:
//!
//! - `words` cuts a line into words, and `digits` reads the value that a word writes;
//! - `header` finds the input of each word, and `row` gives each input its value;
//! - `trace_text` writes;
//! - `ports` does all of it for a plan.
//!
//! `laws` says that a line has one reading, and that a value that is printed is read back.
#![tactic(auto)]

mod digits;
mod fault;
mod header;
pub mod laws;
mod ports;
mod row;
mod trace_text;
mod words;

pub use fault::HeadFault;
pub use header::{Header, read_header_at};
pub use ports::{queue_head, queue_row, read_header, read_row, write_head, write_row};
pub use row::{RowGot, read_row_at};
pub use trace_text::{queue_head_at, queue_row_at, write_head_at, write_row_at};
