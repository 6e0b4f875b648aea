//! A source in memory.
ghost use Rattle.std.specs.Prelude.{◌≡◌, ◌<◌, ◌≤◌, ◌+◌, ◌-◌, ◌^◌, min, List, ℕ, Option, Some, if◌then◌else◌, length, take, drop};
ghost use Rattle.pm_io.specs.Calls.{no_calls, next_fails, called};
ghost use Rattle.pm_io.specs.Causes.{HasCause};
ghost use Rattle.pm_io.specs.Memory.{PiecesLeft, AreFilled, joined, first_of, pieces_from, left_after, got_of, left_by};
ghost use Rattle.pm_io.specs.Streams.{Reads};

use crate::buffer::fill;
use crate::calls::CallLog;
use crate::source::{Got, Source};
use crate::text::Text;
use sqlite_items::Items as List;
use std::marker::Model;

/// A source that gives the pieces that it was made of, and fails at the calls that it is told to fail at.
#[derive(Drop)]
pub struct MemSource {
    pieces: List<Text>,
    piece: usize,
    at: usize,
    calls: CallLog,
}

impl Model for MemSource {
    ghost use Rattle.std.specs.Prelude.{◌≤◌};
    ghost use Rattle.pm_io.specs.Memory.{PiecesLeft, AreFilled, pieces_from};

    ghost Value = { PiecesLeft };

    ghost view = { λ s. record { pieces = pieces_from s.piece s.at s.pieces; calls = s.calls } };

    ghost invariant = { λ s. AreFilled (pieces_from s.piece s.at s.pieces) };
}

impl MemSource {
    /// A source of these pieces. The calls with these numbers fail, counted from 1.
    pub fn new(pieces: List<Text>, fails: List<u64>) -> MemSource
        requires { AreFilled pieces }
        ensures pieces { result.pieces ≡ pieces }
        ensures calls { result.calls ≡ no_calls fails }
    {
        MemSource {
            pieces,
            piece: 0,
            at: 0,
            calls: CallLog::new(fails),
        }
    }
}

// What is left of the piece of this number after its first `at` bytes. After the last piece there are no bytes.
fn rest_of(pieces: &List<Text>, piece: usize, at: usize) -> &[u8]
    requires { AreFilled (pieces_from piece at pieces.now) }
    ensures bytes { result.now ≡ first_of (pieces_from piece at pieces.now) }
    ensures there { 0 < length result.now → piece < length pieces.now }
    ensures fits { at + length result.now < 2 ^ 64 }
{
    match pieces.get(piece) {
        Some(text) => &text.as_slice()[at..],
        None => &[],
    }
}

// The position after `count` more bytes: the number of a piece, and how many bytes of it were read.
fn position_after(pieces: &List<Text>, piece: usize, at: usize, count: usize) -> (usize, usize)
    requires filled { AreFilled (pieces_from piece at pieces.now) }
    requires left { 0 < length (first_of (pieces_from piece at pieces.now)) }
    ensures { pieces_from result.0 result.1 pieces.now ≡ left_after count (pieces_from piece at pieces.now) }
{
    let rest = rest_of(pieces, piece, at);
    let is_piece = piece < pieces.len();
    prove!(is_piece);
    if count < rest.len() {
        (piece, at + count)
    } else {
        (piece + 1, 0)
    }
}

impl Source for MemSource {
    ghost left = { λ s. Some (joined s.pieces) };

    ghost faults = { λ s. s.calls.faults };

    fn read(&mut self, buffer: &mut [u8]) -> Got
        requires { 0 < length buffer.old }
        ensures bytes { Reads (Some (joined self.old.pieces)) (Some (joined self.new.pieces)) buffer.new result }
        ensures cause { HasCause self.old.calls.faults self.new.calls.faults (result ≡ Got.Failed) }

        // It gives the next piece, or as much of it as fits, except at the calls that are to fail.
        ensures answer { result ≡ (if next_fails self.old.calls then Got.Failed else got_of self.old.pieces (length buffer.old)) }
        ensures pieces { self.new.pieces ≡ left_by result self.old.pieces }
        ensures calls { self.new.calls ≡ called (next_fails self.old.calls) self.old.calls }
    {
        if self.calls.count() {
            self.calls.fault();
            return Got::Failed;
        }
        let rest = rest_of(&self.pieces, self.piece, self.at);
        if rest.is_empty() {
            return Got::End;
        }
        let count = fill(buffer, rest);
        let (piece, at) = position_after(&self.pieces, self.piece, self.at, count);
        self.piece = piece;
        self.at = at;
        Got::Bytes(count)
    }
}
