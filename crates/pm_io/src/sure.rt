//! Objects of the outside that never fail, to state what a program does when nothing goes wrong.
ghost use Rattle.std.specs.Prelude.{◌≡◌, ◌≢◌, ◌<◌, ◌⊎◌, None, Some, IsSome, IfSome, length};
ghost use Rattle.pm_io.specs.Causes.{HasCause};
ghost use Rattle.pm_io.specs.MemoryFiles.{listed_of, NamesDiffer};
ghost use Rattle.pm_io.specs.MemoryStores.{told, loaded_by};
ghost use Rattle.pm_io.specs.Stores.{HasStoreCause, Loads, Makes, told_of};
ghost use Rattle.pm_io.specs.Streams.{Reads, Writes, Puts};
ghost use Rattle.pm_io.specs.Sure.{given_of, content_of, created_by, untold};

use crate::buffer::fill;
use crate::memory_file::MemFile;
use crate::memory_store::{find_file, load_bytes};
use crate::sink::{Put, Sink, Took};
use crate::source::{Got, Source};
use crate::store::{Loaded, Made, Store, StoreCall};
use crate::store_log::StoreLog;
use crate::text::Text;
use sqlite_items::Items as List;
use std::alloc::Global;
use std::marker::Model;

/// A source that gives the bytes that it was made of, and never fails. Contracts see it as the bytes that are left.
#[derive(Drop)]
pub struct SureSource {
    bytes: Text,
    at: usize,
}

impl Model for SureSource {
    ghost use Rattle.std.specs.Prelude.{List, ℕ, ◌≤◌, length, drop};

    ghost Value = { List ℕ };

    ghost view = { λ s. drop s.at s.bytes };

    ghost invariant = { λ s. s.at ≤ length s.bytes };
}

impl SureSource {
    /// A source of these bytes.
    pub fn new(bytes: Text) -> SureSource
        ensures { result ≡ bytes }
    {
        SureSource { bytes, at: 0 }
    }
}

impl Source for SureSource {
    ghost left = { λ s. Some s };

    ghost faults = { λ _. 0 };

    fn read(&mut self, buffer: &mut [u8]) -> Got
        requires { 0 < length buffer.old }
        ensures bytes { Reads (Some self.old) (Some self.new) buffer.new result }
        ensures cause { HasCause 0 0 (result ≡ Got.Failed) }
        ensures answer { result ≡ given_of self.old (length buffer.old) }
    {
        let rest = &self.bytes.as_slice()[self.at..];
        if rest.is_empty() {
            return Got::End;
        }
        let count = fill(buffer, rest);
        self.at += count;
        Got::Bytes(count)
    }
}

/// A sink that takes each piece whole, keeps nothing, tells nothing and never fails.
#[derive(Clone, Copy)]
pub struct SureSink;

impl SureSink {
    /// The sink.
    pub fn new() -> SureSink {
        SureSink
    }
}

impl Sink for SureSink {
    ghost held = { λ _. untold };

    ghost faults = { λ _. 0 };

    fn write(&mut self, piece: &[u8]) -> Took
        requires { 0 < length piece.now }
        ensures bytes { Writes untold untold piece.now result }
        ensures cause { HasCause 0 0 (result ≡ Took.Failed) }
        ensures answer { result ≡ Took.Bytes (length piece.now) }
    {
        Took::Bytes(piece.len())
    }
}

/// A store that never fails. It has the files that it was made of, and each other name has an empty file. It keeps the
/// name of its current file and none of its content, so that a load finds that file empty.
#[derive(Drop)]
pub struct SureStore {
    alloc: Global,
    files: List<MemFile>,
    log: StoreLog,
}

impl Model for SureStore {
    ghost use Rattle.pm_io.specs.Sure.{SureHolds};

    ghost Value = { SureHolds };

    ghost use Rattle.pm_io.specs.MemoryFiles.{listed_of};
    ghost use Rattle.pm_io.specs.MemoryStores.{others_of};

    ghost view = { λ s. record { files = others_of s.log.current (listed_of s.files); current = s.log.current } };
}

impl SureStore {
    /// A store of these files, with no current file yet.
    pub fn new(alloc: Global, files: List<MemFile>) -> SureStore
        requires { NamesDiffer files }
        ensures files { result.files ≡ listed_of files }
        ensures current { result.current ≡ None }
    {
        SureStore {
            alloc,
            files,
            log: StoreLog::new(),
        }
    }
}

impl Store for SureStore {
    ghost files = { λ s. Some (told s.files) };

    ghost current = { λ s. s.current };

    ghost written = { λ _. untold };

    ghost last_fault = { λ _. None };

    ghost faults = { λ _. 0 };

    fn load(&mut self, name: &[u8], limit: usize, into: &mut Vec<u8>) -> Loaded
        ensures content { Loads (told_of (Some (told self.old.files)) self.old.current untold name.now) limit into.new.items result }
        ensures files { Some (told self.new.files) ≡ Some (told self.old.files) }
        ensures current { self.new.current ≡ self.old.current }
        ensures written { untold ≡ untold }
        ensures cause { HasStoreCause 0 0 None None (result ≡ Loaded.Failed) (name.now, StoreCall.Load) }
        ensures answer { (result ≡ Loaded.NoMemory) ⊎ (result ≡ loaded_by (Some (content_of self.old name.now)) limit) }
        ensures bytes { result ≡ Loaded.All → into.new.items ≡ content_of self.old name.now }
    {
        into.clear();
        match find_file(&self.log, &[], self.files.as_slice(), name) {
            Some(bytes) => load_bytes(bytes, limit, into),
            None => Loaded::All,
        }
    }

    fn create(&mut self, name: &[u8]) -> Made
        requires { self.old.current ≡ None }
        ensures file { Makes (Some (told self.old.files)) (Some (told self.new.files)) self.new.current untold name.now result }
        ensures cause { HasStoreCause 0 0 None None (result ≡ Made.Failed) (name.now, StoreCall.Create) }
        ensures store { self.new ≡ created_by result name.now self.old }
    {
        let Ok(name) = Text::from_slice(self.alloc, name) else {
            return Made::NoMemory;
        };
        self.log.created(name);
        Made::Done
    }

    fn append(&mut self, piece: &[u8]) -> Put
        requires current { IsSome self.old.current }
        requires some { 0 < length piece.now }
        ensures bytes { Puts untold untold piece.now result }
        ensures files { Some (told self.new.files) ≡ Some (told self.old.files) }
        ensures same_current { self.new.current ≡ self.old.current }
        ensures cause { IfSome self.old.current (λ name. HasStoreCause 0 0 None None (result ≡ Put.Failed) (name, StoreCall.Append)) }
        ensures answer { result ≡ Put.All }
    {
        Put::All
    }
}
