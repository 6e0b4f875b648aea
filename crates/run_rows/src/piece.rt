//! Pieces of text between backquotes.
use std::alloc::{AllocError, Global};

/// The first piece of a row, and the text after it.
pub fn first_piece(row: &str) -> Option<(&str, &str)> {
    let (_, rest) = row.split_once('`')?;
    rest.split_once('`')
}

/// The bytes of a piece: `\n` and `\r` are a line feed and a carriage return.
pub fn unescaped(alloc: Global, piece: &str) -> Result<String, AllocError> {
    let mut text = String::new(alloc);
    let mut is_escape = false;
    for letter in piece.chars() {
        if letter == '\\' {
            is_escape = true;
        } else {
            text.push(if is_escape { escape(letter) } else { letter })?;
            is_escape = false;
        }
    }
    Ok(text)
}

// What a letter after a backslash means.
fn escape(letter: char) -> char {
    match letter {
        'n' => '\n',
        'r' => '\r',
        other => other,
    }
}

/// Writes bytes as a piece.
pub fn push_piece(text: &mut Vec<u8>, bytes: &[u8]) -> Result<(), AllocError> {
    text.push(b'`')?;
    for byte in bytes {
        match *byte {
            b'\n' => text.extend_from_slice(b"\\n")?,
            b'\r' => text.extend_from_slice(b"\\r")?,
            other => text.push(other)?,
        }
    }
    text.push(b'`')?;
    Ok(())
}
