//! The calls of an object in memory, some of which are to fail.
ghost use Rattle.std.specs.Prelude.{◌≡◌, ◌≤◌, List, ℕ};
ghost use Rattle.pm_io.specs.Calls.{no_calls, next_fails, counted, faulted};

use sqlite_items::Items as List;
use std::marker::Model;

/// Counts the calls of an object and its faults, and knows the numbers of the calls that are to fail.
#[derive(Drop)]
pub struct CallLog {
    made: u64,
    fails: List<u64>,
    faults: u64,
}

impl Model for CallLog {
    ghost use Rattle.pm_io.specs.Calls.{Calls};

    ghost Value = { Calls };

    ghost view = { λ log. record { made = log.made; fails = log.fails; faults = log.faults } };
}

impl CallLog {
    pub fn new(fails: List<u64>) -> CallLog
        ensures { result ≡ no_calls fails }
    {
        CallLog {
            made: 0,
            fails,
            faults: 0,
        }
    }

    /// Counts the call that is made now, and returns whether it is to fail.
    pub fn count(&mut self) -> bool
        ensures fails { result ≡ next_fails self.old }
        ensures counted { self.new ≡ counted self.old }
    {
        self.made = self.made.saturating_add(1);
        self.fails.as_slice().contains(&self.made)
    }

    /// Counts a fault.
    pub fn fault(&mut self)
        ensures later { self.old.faults ≤ self.new.faults }
        ensures counted { self.new ≡ faulted self.old }
    {
        self.faults = self.faults.saturating_add(1);
    }
}
