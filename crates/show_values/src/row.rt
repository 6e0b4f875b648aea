//! A row and its result.
use crate::operators::{before, between};
use pm_values::{Range, applied, ceiling_log, operated};
use std::alloc::{AllocError, Global};
use std::fmt::Write;

/// How many integers of a range are shown.
const SHOWN: usize = 8;

/// The row, followed by its result.
pub fn with_result(alloc: Global, row: &str) -> Result<String, AllocError> {
    if row.is_empty() || row.starts_with('#') {
        return String::from_str(alloc, row);
    }
    if let Some(arguments) = arguments_of(row, "range( ") {
        return match range_of(arguments) {
            Some(Some(range)) => with_integers(alloc, row, range),
            Some(None) => format!(in alloc; "{row} = none"),
            None => format!(in alloc; "{row} = ?"),
        };
    }
    match integer_of(row) {
        Some(Some(integer)) => format!(in alloc; "{row} = {integer}"),
        Some(None) => format!(in alloc; "{row} = none"),
        None => format!(in alloc; "{row} = ?"),
    }
}

// What is between the parentheses, if the row is such a call.
fn arguments_of<'a>(row: &'a str, call: &str) -> Option<&'a str> {
    row.strip_prefix(call)?.strip_suffix(" )")
}

fn range_of(arguments: &str) -> Option<Option<Range>> {
    let (start, rest) = arguments.split_once(", ")?;
    let (stop, step) = rest.split_once(", ")?;
    let (start, stop) = (start.parse().ok()?, stop.parse().ok()?);
    Some(Range::new(start, stop, step.parse().ok()?))
}

// The row and the first integers of the range, followed by `..` if there are more.
fn with_integers(alloc: Global, row: &str, range: Range) -> Result<String, AllocError> {
    let mut range = range;
    let mut text = format!(in alloc; "{row} =")?;
    for _ in 0..SHOWN {
        match range.next() {
            Some(integer) => write!(text, " {integer}")?,
            None => return Ok(text),
        }
    }
    match range.next() {
        Some(_) => write!(text, " ..")?,
        None => {}
    }
    Ok(text)
}

// The result of the operation or call, or `None` if the row can't be read.
fn integer_of(row: &str) -> Option<Option<i64>> {
    if let Some(argument) = arguments_of(row, "clog2( ") {
        return Some(ceiling_log(argument.parse().ok()?).map(|log| log as i64));
    }
    let (first, rest) = row.split_once(' ')?;
    match first.parse() {
        Ok(left) => {
            let (sign, right) = rest.split_once(' ')?;
            Some(operated(between(sign)?, left, right.parse().ok()?))
        }
        Err(_) => Some(applied(before(first)?, rest.parse().ok()?)),
    }
}
