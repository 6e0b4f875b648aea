//! The host's files as a store.
ghost use Rattle.std.specs.Prelude.{◌≡◌, None};

use crate::host_file::{create_file, read_file};
use crate::host_sink::HostSink;
use crate::sink::{Put, put_all};
use crate::store::{Loaded, Made, Store};
use crate::store_log::StoreLog;
use crate::text::Text;
use std::alloc::Global;
use std::marker::Model;
use std::rt::Files;

/// A store over the host's files. No file has a name that isn't UTF-8.
///
/// Nothing is proved about what the host reads and writes. A read or write that is interrupted is made again, up to a
/// fixed number of times; each other error counts as a fault.
#[derive(Drop)]
pub struct HostStore<'a, R: Files> {
    rt: &'a R,
    alloc: Global,
    log: StoreLog,
    file: Option<HostSink<R::File>>,
    faults: u64,
}

impl<'a, R: Files> Model for HostStore<'a, R> {
    ghost use Rattle.pm_io.specs.HostStores.{HostNames};

    ghost Value = { HostNames };

    ghost view = { λ s. record { current = s.log.current; last = s.log.last; faults = s.faults } };
}

impl<'a, R: Files> HostStore<'a, R> {
    /// A store over the files of this runtime, with no current file yet.
    pub fn new(alloc: Global, rt: &'a R) -> HostStore<'a, R>
        ensures current { result.current ≡ None }
        ensures last { result.last ≡ None }
        ensures faults { result.faults ≡ 0 }
    {
        HostStore {
            rt,
            alloc,
            log: StoreLog::new(),
            file: None,
            faults: 0,
        }
    }
}

impl<'a, R: Files> Store for HostStore<'a, R> {
    ghost files = { λ _. None };

    ghost current = { λ s. s.current };

    ghost written = { λ _. None };

    ghost last_fault = { λ s. s.last };

    ghost faults = { λ s. s.faults };

    fn load(&mut self, name: &[u8], limit: usize, into: &mut Vec<u8>) -> Loaded {
        let Ok(owned) = Text::from_slice(self.alloc, name) else {
            return Loaded::NoMemory;
        };
        into.clear();
        let answer = read_file(self.rt, name, limit, into);
        if answer == Loaded::Failed {
            self.faults = self.faults.saturating_add(1);
            self.log.load_failed(owned);
        }
        answer
    }

    fn create(&mut self, name: &[u8]) -> Made {
        let Ok(owned) = Text::from_slice(self.alloc, name) else {
            return Made::NoMemory;
        };
        match create_file(self.rt, name) {
            Some(file) => {
                self.file = Some(HostSink::new(file));
                self.log.created(owned);
                Made::Done
            }
            None => {
                self.faults = self.faults.saturating_add(1);
                self.log.create_failed(owned);
                Made::Failed
            }
        }
    }

    fn append(&mut self, piece: &[u8]) -> Put {
        if let Some(file) = &mut self.file {
            if put_all(file, piece) == Put::All {
                return Put::All;
            }
        }
        self.faults = self.faults.saturating_add(1);
        self.log.append_failed();
        Put::Failed
    }
}
