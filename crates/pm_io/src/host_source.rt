//! The host's input as a source.
ghost use Rattle.std.specs.Prelude.{◌≡◌, ◌<◌, ◌≤◌, None, length};
ghost use Rattle.pm_io.specs.Causes.{HasCause};
ghost use Rattle.pm_io.specs.Streams.{Reads};

use crate::host_stream::read_some;
use crate::source::{Got, Source};
use std::io::Read;
use std::marker::Model;

/// A source over a stream of the host, such as standard input.
///
/// Nothing is proved about the bytes that it gives. A read that is interrupted is made again, up to a fixed number of
/// times; each other error counts as a fault. Contracts see the object as the count of its faults.
#[derive(Drop)]
pub struct HostSource<R> {
    stream: R,
    faults: u64,
}

impl<R> Model for HostSource<R> {
    ghost use Rattle.std.specs.Prelude.{ℕ};

    ghost Value = { ℕ };

    ghost view = { λ s. s.faults };
}

impl<R: Read> HostSource<R> {
    /// A source over this stream.
    pub fn new(stream: R) -> HostSource<R>
        ensures { result ≡ 0 }
    {
        HostSource { stream, faults: 0 }
    }
}

impl<R: Read> Source for HostSource<R> {
    ghost left = { λ _. None };

    ghost faults = { λ s. s };

    fn read(&mut self, buffer: &mut [u8]) -> Got {
        match read_some(&mut self.stream, buffer) {
            Some(0) => Got::End,
            Some(count) => Got::Bytes(count),
            None => {
                self.faults = self.faults.saturating_add(1);
                Got::Failed
            }
        }
    }
}
