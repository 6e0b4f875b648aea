//! Rows: a question, and a text in pieces.
use std::alloc::{AllocError, Global};

/// The first word of a row.
pub fn question_of(row: &str) -> &str {
    match row.split_once(' ') {
        Some((question, _)) => question,
        None => row,
    }
}

/// The text of a row.
pub fn text_of(alloc: Global, row: &str) -> Result<Vec<u8>, AllocError> {
    let mut text = Vec::new(alloc);
    let mut piece = Vec::new(alloc);
    let mut is_piece = false;
    for part in row.split('`') {
        if is_piece {
            piece = unescaped(alloc, part)?;
        } else {
            push_repeated(&mut text, piece.as_slice(), count_of(part))?;
        }
        is_piece = !is_piece;
    }
    Ok(text)
}

// How often a piece is repeated, by what follows it.
fn count_of(part: &str) -> usize {
    match part.trim().strip_prefix("*") {
        Some(number) => number.parse().unwrap_or(0),
        None => 1,
    }
}

fn push_repeated(text: &mut Vec<u8>, piece: &[u8], count: usize) -> Result<(), AllocError> {
    for _ in 0..count {
        text.extend_from_slice(piece)?;
    }
    Ok(())
}

// How much of an escape has been read.
#[derive(Clone, Copy)]
enum Escape {
    Nothing,
    Backslash,
    // `\x`
    Letter,
    // `\x` and a digit of this value
    Digit(u8),
}

fn unescaped(alloc: Global, piece: &str) -> Result<Vec<u8>, AllocError> {
    let mut bytes = Vec::new(alloc);
    let mut escape = Escape::Nothing;
    for byte in piece.bytes() {
        let (next, read) = step(escape, byte);
        if let Some(read) = read {
            bytes.push(read)?;
        }
        escape = next;
    }
    Ok(bytes)
}

// What has been read of an escape after one more byte, and the byte that this completes.
fn step(escape: Escape, byte: u8) -> (Escape, Option<u8>) {
    match escape {
        Escape::Nothing if byte == b'\\' => (Escape::Backslash, None),
        Escape::Nothing => (Escape::Nothing, Some(byte)),
        Escape::Backslash => match byte {
            b'n' => (Escape::Nothing, Some(b'\n')),
            b'r' => (Escape::Nothing, Some(b'\r')),
            b't' => (Escape::Nothing, Some(b'\t')),
            b'x' => (Escape::Letter, None),
            other => (Escape::Nothing, Some(other)),
        },
        Escape::Letter => (Escape::Digit(digit_of(byte)), None),
        Escape::Digit(first) => (
            Escape::Nothing,
            Some(first.wrapping_mul(16).wrapping_add(digit_of(byte))),
        ),
    }
}

fn digit_of(byte: u8) -> u8 {
    match byte {
        b'0'..=b'9' => byte.wrapping_sub(b'0'),
        b'a'..=b'f' => byte.wrapping_sub(b'a').wrapping_add(10),
        _ => 0,
    }
}
