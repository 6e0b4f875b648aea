//! The program's one call.
//!
//! `run` reads its words, loads the design file that they name, simulates the component in it with the vectors of the
//! input, and writes the trace. Its contract says which output, message and status are right for the words, the files
//! and the input, and what is printed before a fault. In the order of the flow:
//!
//! - `command_line` reads the words;
//! - `form`, with its parts, reads a component of the narrow form, and `vectors` the header and the rows of the input;
//! - `order` orders the update blocks or finds a loop, and a `schedule` is a component with such an order;
//! - `row_reader` reads the input line by line;
//! - `initial` has the values before the first cycle, and `inputs` and `settle` run a cycle;
//! - `trace_text` and `message` write;
//! - `simulate` joins them, `finish` says how it ended, and `top` is the call.
//!
//! `laws` says what is true of the values of a cycle and of the narrow form.
#![tactic(auto)]

mod command_line;
mod component;
mod finish;
mod form;
mod form_lines;
mod form_parts;
mod initial;
mod inputs;
pub mod laws;
mod message;
mod order;
mod row_reader;
mod schedule;
mod settle;
mod simulate;
mod soundness;
mod spelling;
mod status;
mod top;
mod trace_text;
mod vectors;
mod words;

pub use status::Status;
pub use top::run;
