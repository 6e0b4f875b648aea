//! Files in memory.
ghost use Rattle.std.specs.Prelude.{◌≡◌, ◌<◌, ◌≤◌, ◌⊎◌, ℕ, List, [], Option, None, Some, IsSome, IfSome, IfOk, length, option_copied, if◌then◌else◌};
ghost use Rattle.std.specs.Map.{lookup};
ghost use Rattle.std.specs.Str.{bytes_eq};
ghost use Rattle.std.specs.Option.{option_map_or};
ghost use Rattle.pm_io.specs.Calls.{no_calls};
ghost use Rattle.pm_io.specs.MemoryFiles.{listed_of, NamesDiffer};
ghost use Rattle.pm_io.specs.MemoryStores.{told, file_among, file_of, others_of, store_called, faulted_by, loaded_by, loaded_of, load_failed, made_of, after_create, put_of, after_append};
ghost use Rattle.pm_io.specs.Stores.{HasStoreCause, Loads, Makes, told_of};
ghost use Rattle.pm_io.specs.StoreLogs.{Logged};
ghost use Rattle.pm_io.specs.Streams.{Puts};

use crate::calls::CallLog;
use crate::memory_file::{MemFile, find};
use crate::no_memory::NoMemory;
use crate::sink::Put;
use crate::store::{Loaded, Made, Store, StoreCall};
use crate::store_log::StoreLog;
use crate::text::Text;
use sqlite_items::Items as List;
use std::alloc::Global;
use std::marker::Model;

/// A store of files in memory, with room for one that is created. It fails at the calls that it is told to fail at.
///
/// A file that the created one replaces stays in memory, where no call sees it.
#[derive(Drop)]
pub struct MemStore {
    alloc: Global,
    files: List<MemFile>,
    log: StoreLog,
    written: Vec<u8>,
    room: usize,
    calls: CallLog,
}

impl Model for MemStore {
    ghost use Rattle.std.specs.Prelude.{◌≡◌, ◌≤◌, length, vec_capacity, None, []};
    ghost use Rattle.pm_io.specs.MemoryStores.{StoreHolds};

    ghost Value = { StoreHolds };

    ghost use Rattle.pm_io.specs.MemoryFiles.{listed_of};
    ghost use Rattle.pm_io.specs.MemoryStores.{others_of};

    ghost view = { λ s. record {
      files = others_of s.log.current (listed_of s.files);
      current = s.log.current;
      written = s.written.items;
      room = s.room;
      calls = s.calls;
      last = s.log.last;
    } };

    ghost invariant = { λ s. (length s.written.items ≤ s.room) × (s.room ≤ vec_capacity s.written) × (s.log.current ≡ None → s.written.items ≡ []) };
}

/// The content of the file of this name, which may be the current one.
#[tactic(auto, using(crate::proofs::MemoryFiles::others_found))]
pub fn find_file<'a>(
    log: &StoreLog,
    written: &'a [u8],
    files: &'a [MemFile],
    name: &[u8],
) -> Option<&'a [u8]>
    ensures { option_copied result ≡ file_among log.now.current written.now (others_of log.now.current (listed_of files.now)) name.now }
{
    if log.is_current(name) {
        Some(written)
    } else {
        find(files, name)
    }
}

/// Copies the bytes of a file, if there are at most `limit`.
pub fn load_bytes(bytes: &[u8], limit: usize, into: &mut Vec<u8>) -> Loaded
    requires { into.old.items ≡ [] }
    ensures content { result ≡ Loaded.All → into.new.items ≡ bytes.now }
    ensures answer { (result ≡ Loaded.NoMemory) ⊎ (result ≡ loaded_by (Some bytes.now) limit) }
{
    if bytes.len() > limit {
        return Loaded::TooLarge;
    }
    match into.extend_from_slice(bytes) {
        Ok(()) => Loaded::All,
        Err(_) => Loaded::NoMemory,
    }
}

impl MemStore {
    /// A store of these files, with no current file yet. It takes the memory for the one that is created now: `room`
    /// bytes. The calls with these numbers fail; loads, creates and appends are counted together, from 1.
    pub fn new(
        alloc: Global,
        files: List<MemFile>,
        room: usize,
        fails: List<u64>,
    ) -> Result<MemStore, NoMemory>
        requires { NamesDiffer files }
        ensures files { IfOk result (λ store. store.files ≡ listed_of files) }
        ensures current { IfOk result (λ store. store.current ≡ None) }
        ensures written { IfOk result (λ store. store.written ≡ []) }
        ensures room { IfOk result (λ store. store.room ≡ room) }
        ensures calls { IfOk result (λ store. store.calls ≡ no_calls fails) }
        ensures last { IfOk result (λ store. store.last ≡ None) }
    {
        Ok(MemStore {
            alloc,
            files,
            log: StoreLog::new(),
            written: Vec::with_capacity(alloc, room)?,
            room,
            calls: CallLog::new(fails),
        })
    }

    /// The content of the file of this name, which may be the current one.
    pub fn file(&self, name: &[u8]) -> Option<&[u8]>
        ensures { option_copied result ≡ file_of self.now name.now }
    {
        find_file(&self.log, &self.written, self.files.as_slice(), name)
    }

    // Counts this load as a fault and records it, if there is memory for its name.
    fn fail_load(&mut self, name: &[u8]) -> Loaded
        ensures answer { (result ≡ Loaded.NoMemory) ⊎ (result ≡ Loaded.Failed) }
        ensures later { self.old.calls.faults ≤ self.new.calls.faults }
        ensures store { self.new ≡ (if load_failed result then faulted_by (Some (name.now, StoreCall.Load)) self.old else self.old) }
    {
        let Ok(name) = Text::from_slice(self.alloc, name) else {
            return Loaded::NoMemory;
        };
        self.calls.fault();
        self.log.load_failed(name);
        Loaded::Failed
    }
}

impl Store for MemStore {
    ghost files = { λ s. Some (told s.files) };

    ghost current = { λ s. s.current };

    ghost written = { λ s. Some s.written };

    ghost last_fault = { λ s. s.last };

    ghost faults = { λ s. s.calls.faults };

    fn load(&mut self, name: &[u8], limit: usize, into: &mut Vec<u8>) -> Loaded
        ensures content { Loads (told_of (Some (told self.old.files)) self.old.current (Some self.old.written) name.now) limit into.new.items result }
        ensures files { Some (told self.new.files) ≡ Some (told self.old.files) }
        ensures current { self.new.current ≡ self.old.current }
        ensures written { Some self.new.written ≡ Some self.old.written }
        ensures cause { HasStoreCause self.old.calls.faults self.new.calls.faults self.old.last self.new.last
            (result ≡ Loaded.Failed) (name.now, StoreCall.Load) }

        // If there is memory, it fails when told to and when no file has the name, and only then.
        ensures answer { (result ≡ Loaded.NoMemory) ⊎ (result ≡ loaded_of self.old name.now limit) }
        ensures store { self.new ≡ store_called (load_failed result) (Some (name.now, StoreCall.Load)) self.old }
    {
        into.clear();
        if self.calls.count() {
            return self.fail_load(name);
        }
        match find_file(&self.log, &self.written, self.files.as_slice(), name) {
            Some(bytes) => load_bytes(bytes, limit, into),
            None => self.fail_load(name),
        }
    }

    fn create(&mut self, name: &[u8]) -> Made
        requires { self.old.current ≡ None }
        ensures file { Makes (Some (told self.old.files)) (Some (told self.new.files)) self.new.current (Some self.new.written) name.now result }
        ensures cause { HasStoreCause self.old.calls.faults self.new.calls.faults self.old.last self.new.last
            (result ≡ Made.Failed) (name.now, StoreCall.Create) }

        // If there is memory, it fails when told to, and only then.
        ensures answer { (result ≡ Made.NoMemory) ⊎ (result ≡ made_of self.old) }
        ensures store { self.new ≡ after_create result name.now self.old }
    {
        let fails = self.calls.count();
        let Ok(name) = Text::from_slice(self.alloc, name) else {
            return Made::NoMemory;
        };
        if fails {
            self.calls.fault();
            self.log.create_failed(name);
            return Made::Failed;
        }
        self.log.created(name);
        Made::Done
    }

    fn append(&mut self, piece: &[u8]) -> Put
        requires current { IsSome self.old.current }
        requires some { 0 < length piece.now }
        ensures bytes { Puts (Some self.old.written) (Some self.new.written) piece.now result }
        ensures files { Some (told self.new.files) ≡ Some (told self.old.files) }
        ensures same_current { self.new.current ≡ self.old.current }
        ensures cause { IfSome self.old.current (λ name.
            HasStoreCause self.old.calls.faults self.new.calls.faults self.old.last self.new.last
            (result ≡ Put.Failed) (name, StoreCall.Append)) }

        // It fails when told to and when the piece would pass the room, and then adds nothing.
        ensures answer { result ≡ put_of self.old piece.now }
        ensures store { self.new ≡ after_append self.old piece.now }
    {
        let fails = self.calls.count();
        if fails || self.room - self.written.len() < piece.len() {
            self.calls.fault();
            self.log.append_failed();
            return Put::Failed;
        }
        match self.written.extend_from_slice(piece) {
            Ok(()) => Put::All,
            Err(_) => {
                self.calls.fault();
                self.log.append_failed();
                Put::Failed
            }
        }
    }
}
