//! Names and what they stand for, in the order in which they were first put.
ghost use Rattle.std.specs.Prelude.{◌≡◌, [], OnOk, OnErr, is_some, length, slice_get, ◌≤◌, MatchOption};
ghost use Rattle.std.specs.Option.{option_copied};
ghost use Rattle.pm_values.specs.Tables.{get, put};

use indexmap::IndexMap;
use pm_io::NoMemory;
use std::alloc::Global;
use std::marker::Model;

/// A table of names. Contracts see the list of its pairs, in the order in which their names were first put.
#[derive(Drop)]
pub struct Table<T> {
    entries: IndexMap<Vec<u8>, T>,
}

impl<T> Model for Table<T> {
    ghost use Rattle.pm_values.specs.Tables.{Names, names_of};

    ghost Value = { Names T };

    ghost view = { λ t. names_of t.entries.entries };
}

impl<T: Drop> Table<T> {
    pub fn new(alloc: Global) -> Table<T>
        ensures { result ≡ [] }
    {
        Table {
            entries: IndexMap::new(alloc),
        }
    }

    /// What the name stands for, if it is in the table.
    pub fn get(&self, name: &[u8]) -> Option<&T>
        ensures { option_copied result ≡ get self.now name.now }
    {
        self.entries.get(name)
    }

    pub fn contains(&self, name: &[u8]) -> bool
        ensures { result ≡ is_some (get self.now name.now) }
    {
        self.get(name).is_some()
    }

    /// How many names it has.
    pub fn len(&self) -> usize
        ensures { result ≡ length self.now }
    {
        self.entries.len()
    }

    /// The name at a place in the order, and what it stands for.
    pub fn entry(&self, index: usize) -> Option<(&[u8], &T)>
        ensures { MatchOption result (length self.now ≤ index) (λ pair. slice_get self.now index ≡ Some (pair.0.now, pair.1.now)) }
    {
        let (name, value) = self.entries.get_index(index)?;
        Some((name.as_slice(), value))
    }

    /// Makes the name stand for the value. A new name goes to the end, and one that is there keeps its place.
    pub fn put(&mut self, alloc: Global, name: &[u8], value: T) -> Result<(), NoMemory>
        ensures put { OnOk result (self.new ≡ put self.old name.now value) }
        ensures unchanged { OnErr result (self.new ≡ self.old) }
    {
        let name = Vec::from_slice(alloc, name)?;
        self.entries.insert(name, value)?;
        Ok(())
    }
}
