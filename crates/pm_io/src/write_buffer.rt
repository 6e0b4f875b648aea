//! Bytes that wait, so that a line made of many small pieces reaches its sink in one write.
ghost use Rattle.std.specs.Prelude.{◌≡◌, ◌+◌, ◌≤◌, ◌++◌, List, [], ℕ, length, take, IsTrue, ◌↔◌};
ghost use Rattle.pm_io.specs.Causes.{HasCause};
ghost use Rattle.pm_io.specs.Buffering.{Queues, Flushes};
ghost use Rattle.pm_io.specs.declared.write_buffer.TheConstants.{ROOM};

use crate::sink::{Put, Sink, put_all};
use crate::try_put;
use std::marker::Model;

/// How many bytes a buffer of writes can hold.
const ROOM: usize = 4096;

/// Bytes that wait to be written to a sink. It allocates nothing.
#[derive(Drop)]
pub struct WriteBuffer {
    bytes: [u8; ROOM],
    len: usize,
}

impl Model for WriteBuffer {
    ghost Value = { List ℕ };

    ghost view = { λ buffer. take buffer.len buffer.bytes };

    ghost invariant = { λ buffer. buffer.len ≤ ROOM };
}

impl WriteBuffer {
    /// A buffer in which nothing waits.
    pub fn new() -> WriteBuffer
        ensures { result ≡ [] }
    {
        WriteBuffer {
            bytes: [0; ROOM],
            len: 0,
        }
    }

    /// Adds a piece after the bytes that wait. If there is no room for it, they are written first. After a failure
    /// nothing waits, so no byte is written twice.
    pub fn put<K: Sink>(&mut self, sink: &mut K, piece: &[u8]) -> Put
        ensures bytes { Queues (K.held sink.old) (K.held sink.new) self.old self.new piece.now result }
        ensures dropped { result ≡ Put.Failed → self.new ≡ [] }
        ensures cause { HasCause (K.faults sink.old) (K.faults sink.new) (result ≡ Put.Failed) }
    {
        if self.has_room(piece.len()) {
            self.keep(piece);
            return Put::All;
        }
        try_put!(self.flush(sink));
        self.put_first(sink, piece)
    }

    /// Writes the bytes that wait. Nothing waits afterwards, even after a failure.
    pub fn flush<K: Sink>(&mut self, sink: &mut K) -> Put
        ensures bytes { Flushes (K.held sink.old) (K.held sink.new) self.old self.new result }
        ensures dropped { result ≡ Put.Failed → self.new ≡ [] }
        ensures cause { HasCause (K.faults sink.old) (K.faults sink.new) (result ≡ Put.Failed) }
    {
        let written = put_all(sink, &self.bytes[..self.len]);
        self.len = 0;
        written
    }

    // Adds a piece when nothing waits.
    fn put_first<K: Sink>(&mut self, sink: &mut K, piece: &[u8]) -> Put
        requires { self.old ≡ [] }
        ensures bytes { Queues (K.held sink.old) (K.held sink.new) self.old self.new piece.now result }
        ensures dropped { result ≡ Put.Failed → self.new ≡ [] }
        ensures cause { HasCause (K.faults sink.old) (K.faults sink.new) (result ≡ Put.Failed) }
    {
        if self.has_room(piece.len()) {
            self.keep(piece);
            return Put::All;
        }
        put_all(sink, piece)
    }

    fn has_room(&self, count: usize) -> bool
        ensures { IsTrue result ↔ (length self.now + count ≤ ROOM) }
    {
        count <= ROOM - self.len
    }

    fn keep(&mut self, piece: &[u8])
        requires { length self.old + length piece.now ≤ ROOM }
        ensures { self.new ≡ self.old ++ piece.now }
    {
        let end = self.len + piece.len();
        self.bytes[self.len..end].copy_from_slice(piece);
        self.len = end;
    }
}
