//! The host's output as a sink.
ghost use Rattle.std.specs.Prelude.{◌≡◌, None};

use crate::host_stream::write_some;
use crate::sink::{Sink, Took};
use std::io::Write;
use std::marker::Model;

/// A sink over a stream of the host, such as standard output.
///
/// Nothing is proved about the bytes that reach the host. Each write is flushed, so nothing is lost when the program
/// ends, even over a stream with its own buffer. A write whose flush fails counts as a write that failed. A write that
/// is interrupted is made again, up to a fixed number of times; each other error counts as a fault. Contracts see the
/// object as the count of its faults.
#[derive(Drop)]
pub struct HostSink<W> {
    stream: W,
    faults: u64,
}

impl<W> Model for HostSink<W> {
    ghost use Rattle.std.specs.Prelude.{ℕ};

    ghost Value = { ℕ };

    ghost view = { λ s. s.faults };
}

impl<W: Write> HostSink<W> {
    /// A sink over this stream.
    pub fn new(stream: W) -> HostSink<W>
        ensures { result ≡ 0 }
    {
        HostSink { stream, faults: 0 }
    }
}

impl<W: Write> Sink for HostSink<W> {
    ghost held = { λ _. None };

    ghost faults = { λ s. s };

    fn write(&mut self, piece: &[u8]) -> Took {
        let count = write_some(&mut self.stream, piece).unwrap_or(0);
        if count > 0 && self.stream.flush().is_ok() {
            return Took::Bytes(count);
        }
        self.faults = self.faults.saturating_add(1);
        Took::Failed
    }
}
