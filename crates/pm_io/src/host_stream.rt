//! Single reads and writes of the host's streams.
ghost use Rattle.std.specs.Prelude.{◌≤◌, IfSome, length};

use std::io::{Error, ErrorKind, Read, Write};

// How often a call is made, at most, if it is interrupted.
const TRIES: u32 = 1000;

fn is_interrupted(error: &Error) -> bool {
    error.kind() == ErrorKind::Interrupted
}

/// One read, made again if it is interrupted: how many bytes it gave, or `None` if it failed.
pub fn read_some<R: Read>(stream: &mut R, buffer: &mut [u8]) -> Option<usize>
    ensures { IfSome result (λ count. count ≤ length buffer.new) }
{
    for _ in 0..TRIES {
        match stream.read(buffer) {
            Ok(count) => return Some(count),
            Err(error) => {
                if !is_interrupted(&error) {
                    return None;
                }
            }
        }
    }
    None
}

/// One write, made again if it is interrupted: how many bytes it took, or `None` if it failed.
pub fn write_some<W: Write>(stream: &mut W, piece: &[u8]) -> Option<usize>
    ensures { IfSome result (λ count. count ≤ length piece.now) }
{
    for _ in 0..TRIES {
        match stream.write(piece) {
            Ok(count) => return Some(count),
            Err(error) => {
                if !is_interrupted(&error) {
                    return None;
                }
            }
        }
    }
    None
}
