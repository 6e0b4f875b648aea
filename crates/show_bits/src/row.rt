//! A row and its result.
use crate::notation::{read_hexadecimal, read_value};
use crate::operands::{apply_to_one, apply_to_two, take_part};
use pm_bits::Bits;
use std::alloc::{AllocError, Global};

/// The row, followed by its result.
pub fn with_result(alloc: Global, row: &str) -> Result<String, AllocError> {
    if row.is_empty() || row.starts_with('#') {
        return String::from_str(alloc, row);
    }
    match result_of(row) {
        Some(Some(bits)) => { format!(in alloc; "{row} = {}'h{:x}", bits.width(), bits.value()) }
        Some(None) => format!(in alloc; "{row} = none"),
        None => format!(in alloc; "{row} = ?"),
    }
}

// The result of the call that the row names, or `None` if the row can't be read.
fn result_of(row: &str) -> Option<Option<Bits>> {
    let (first, rest) = row.split_once(' ')?;
    match first {
        "new" => made_by_new(rest),
        "of_int" => made_by_of_int(rest),
        _ => match read_value(first) {
            Some(value) => result_of_value(value, rest),
            None => Some(Some(apply_to_one(first, read_value(rest)?)?)),
        },
    }
}

// What follows the first value: a method or a sign, and its other operands.
fn result_of_value(value: Bits, rest: &str) -> Option<Option<Bits>> {
    let (name, operands) = rest.split_once(' ')?;
    match read_value(operands) {
        Some(other) => apply_to_two(value, name, other),
        None => take_part(value, name, operands),
    }
}

fn made_by_new(operands: &str) -> Option<Option<Bits>> {
    let (width, number) = operands.split_once(' ')?;
    let width = width.parse().ok()?;
    Some(Bits::new(width, read_hexadecimal(number)?))
}

fn made_by_of_int(operands: &str) -> Option<Option<Bits>> {
    let (width, number) = operands.split_once(' ')?;
    let width = width.parse().ok()?;
    Some(Bits::of_int(width, number.parse().ok()?))
}
