//! A sink in memory.
ghost use Rattle.std.specs.Prelude.{◌≡◌, ◌<◌, [], Some, IfOk, length};
ghost use Rattle.pm_io.specs.Calls.{no_calls};
ghost use Rattle.pm_io.specs.Causes.{HasCause};
ghost use Rattle.pm_io.specs.Memory.{took_of, after_write};
ghost use Rattle.pm_io.specs.Streams.{Writes};

use crate::calls::CallLog;
use crate::no_memory::NoMemory;
use crate::sink::{Sink, Took};
use sqlite_items::Items as List;
use std::alloc::Global;
use std::marker::Model;

/// A sink that holds what was written, up to a fixed capacity, and fails at the calls that it is told to fail at.
#[derive(Drop)]
pub struct MemSink {
    held: Vec<u8>,
    capacity: usize,
    most: usize,
    calls: CallLog,
}

impl Model for MemSink {
    ghost use Rattle.std.specs.Prelude.{◌<◌, ◌≤◌, length, vec_capacity};
    ghost use Rattle.pm_io.specs.Memory.{SinkHolds};

    ghost Value = { SinkHolds };

    ghost view = { λ s. record { held = s.held.items; capacity = s.capacity; most = s.most; calls = s.calls } };

    ghost invariant = { λ s. (0 < s.most) × (length s.held.items ≤ s.capacity) × (s.capacity ≤ vec_capacity s.held) };
}

impl MemSink {
    /// A sink for `capacity` bytes. It takes the memory for them now. A write takes at most `most` bytes, and the calls
    /// with these numbers fail, counted from 1.
    pub fn new(
        alloc: Global,
        capacity: usize,
        most: usize,
        fails: List<u64>,
    ) -> Result<MemSink, NoMemory>
        requires { 0 < most }
        ensures held { IfOk result (λ sink. sink.held ≡ []) }
        ensures capacity { IfOk result (λ sink. sink.capacity ≡ capacity) }
        ensures most { IfOk result (λ sink. sink.most ≡ most) }
        ensures calls { IfOk result (λ sink. sink.calls ≡ no_calls fails) }
    {
        Ok(MemSink {
            held: Vec::with_capacity(alloc, capacity)?,
            capacity,
            most,
            calls: CallLog::new(fails),
        })
    }

    /// What was written.
    pub fn bytes(&self) -> &[u8]
        ensures { result.now ≡ self.now.held }
    {
        self.held.as_slice()
    }
}

impl Sink for MemSink {
    ghost held = { λ s. Some s.held };

    ghost faults = { λ s. s.calls.faults };

    fn write(&mut self, piece: &[u8]) -> Took
        requires { 0 < length piece.now }
        ensures bytes { Writes (Some self.old.held) (Some self.new.held) piece.now result }
        ensures cause { HasCause self.old.calls.faults self.new.calls.faults (result ≡ Took.Failed) }

        // It takes as much as one write may. It fails when told to, and when that would pass the capacity.
        ensures answer { result ≡ took_of self.old piece.now }
        ensures sink { self.new ≡ after_write self.old piece.now }
    {
        let fails = self.calls.count();
        let count = piece.len().min(self.most);
        if fails || self.capacity - self.held.len() < count {
            self.calls.fault();
            return Took::Failed;
        }
        match self.held.extend_from_slice(&piece[..count]) {
            Ok(()) => Took::Bytes(count),
            Err(_) => {
                self.calls.fault();
                Took::Failed
            }
        }
    }
}
