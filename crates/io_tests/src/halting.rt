//! A stream of the host that is interrupted.
ghost use Rattle.std.specs.Prelude.{◌<◌, IfOk};

use std::io::{self, ErrorKind, Read, Write};

/// A stream of three bytes. Every other call is interrupted, so each byte takes two calls. Then it fails.
#[derive(Drop)]
pub struct Halting {
    pub bytes: [u8; 3],
    at: usize,
    interrupted: bool,
}

impl Halting {
    pub fn new(bytes: [u8; 3]) -> Halting {
        Halting {
            bytes,
            at: 0,
            interrupted: false,
        }
    }

    // The index of the next byte.
    fn next(&mut self) -> io::Result<usize>
        ensures { IfOk result (λ index. index < 3) }
    {
        self.interrupted = !self.interrupted;
        if self.interrupted {
            return Err(ErrorKind::Interrupted.into());
        }
        if self.at >= 3 {
            return Err(ErrorKind::Other.into());
        }
        let index = self.at;
        self.at += 1;
        Ok(index)
    }
}

impl Read for Halting {
    fn read(&mut self, buffer: &mut [u8]) -> io::Result<usize> {
        let index = self.next()?;
        if buffer.is_empty() {
            return Ok(0);
        }
        buffer[0] = self.bytes[index];
        Ok(1)
    }
}

impl Write for Halting {
    fn write(&mut self, piece: &[u8]) -> io::Result<usize> {
        let index = self.next()?;
        if piece.is_empty() {
            return Ok(0);
        }
        self.bytes[index] = piece[0];
        Ok(1)
    }

    fn flush(&mut self) -> io::Result<()> {
        Ok(())
    }
}
