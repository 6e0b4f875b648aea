//! The text that the program prints.
use itoa::Buffer;
use std::alloc::Global;

/// A text that is written piece by piece. If memory runs out, it is cut there, and takes nothing more.
#[derive(Drop)]
pub struct Page {
    bytes: Vec<u8>,
    is_cut: bool,
}

impl Page {
    /// A page with nothing on it.
    pub fn new(alloc: Global) -> Page {
        Page {
            bytes: Vec::new(alloc),
            is_cut: false,
        }
    }

    /// Writes a piece.
    pub fn put(&mut self, piece: &[u8]) {
        if !self.is_cut && self.bytes.extend_from_slice(piece).is_err() {
            self.is_cut = true;
        }
    }

    /// Writes a number in decimal digits.
    pub fn put_number(&mut self, number: u32) {
        let mut digits = Buffer::new();
        self.put(digits.format(number).as_bytes());
    }

    /// Writes a number of up to 128 bits in decimal digits.
    pub fn put_wide(&mut self, number: u128) {
        let mut digits = Buffer::new();
        self.put(digits.format(number).as_bytes());
    }

    /// Writes a word and a number after it, each with a blank before it.
    pub fn put_field(&mut self, word: &[u8], number: u32) {
        self.put(b" ");
        self.put(word);
        self.put(b" ");
        self.put_number(number);
    }

    /// Writes the place of a thing in its list, counted from 0.
    pub fn put_index(&mut self, index: usize) {
        let mut digits = Buffer::new();
        self.put(digits.format(index).as_bytes());
    }

    /// Writes which bitstruct a signal or a field is, if it is one.
    pub fn put_shape(&mut self, shape: Option<u32>) {
        if let Some(number) = shape {
            self.put_field(b"shape", number);
        }
    }

    /// Writes the name of a temporary.
    pub fn put_temporary(&mut self, number: u32) {
        self.put(b"t");
        self.put_number(number);
    }

    /// Writes two blanks for each level.
    pub fn put_indent(&mut self, level: usize) {
        for _ in 0..level {
            self.put(b"  ");
        }
    }

    /// What has been written.
    pub fn as_slice(&self) -> &[u8] {
        self.bytes.as_slice()
    }

    /// Whether memory ran out.
    pub fn is_cut(&self) -> bool {
        self.is_cut
    }
}
