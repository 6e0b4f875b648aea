//! The pieces of a row.
use pm_bits::Bits;
use pm_io::{List, NoMemory, Text};
use std::alloc::{AllocError, Global};

/// What is in backquotes, with tabs, carriage returns and line feeds for `\t`, `\r` and `\n`.
pub fn pieces_of(alloc: Global, row: &str) -> Result<Vec<String>, AllocError> {
    let mut pieces = Vec::new(alloc);
    let mut is_piece = false;
    for part in row.split('`') {
        if is_piece {
            pieces.push(unescaped(alloc, part)?)?;
        }
        is_piece = !is_piece;
    }
    Ok(pieces)
}

fn unescaped(alloc: Global, part: &str) -> Result<String, AllocError> {
    let tabs = part.replace(alloc, "\\t", "\t")?;
    let returns = tabs.as_str().replace(alloc, "\\r", "\r")?;
    returns.as_str().replace(alloc, "\\n", "\n")
}

/// The names of ports, each as a name, a colon and a width.
pub fn names_of(alloc: Global, ports: &str) -> Result<Vec<Text>, NoMemory> {
    let mut names = Vec::new(alloc);
    for port in ports.split_whitespace() {
        let (name, _) = parts_of(port);
        names.push(Text::from_slice(alloc, name.as_bytes())?)?;
    }
    Ok(names)
}

/// A value of 0 for each port, of its width.
pub fn values_of(alloc: Global, ports: &str) -> Result<List<Bits>, NoMemory> {
    let mut values = List::new(alloc);
    for port in ports.split_whitespace() {
        let (_, width) = parts_of(port);
        match Bits::new(width.parse().unwrap_or(1), 0) {
            Some(value) => values.push(value)?,
            None => {}
        }
    }
    Ok(values)
}

fn parts_of(port: &str) -> (&str, &str) {
    match port.split_once(':') {
        Some(parts) => parts,
        None => (port, ""),
    }
}
