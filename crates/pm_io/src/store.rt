//! Files by name.
ghost use Rattle.std.specs.Prelude.{◌≡◌, ◌<◌, ℕ, List, Option, None, IsSome, IfSome, length};
ghost use Rattle.pm_io.specs.Stores.{HasStoreCause, Loads, Makes, told_of};
ghost use Rattle.pm_io.specs.Streams.{Puts};

use crate::sink::Put;

/// What a load gave.
#[derive(Clone, Copy, PartialEq, Eq)]
pub enum Loaded {
    /// The whole content.
    All,
    /// The content is longer than the limit.
    TooLarge,
    /// The file is missing or couldn't be read.
    Failed,
    /// Memory ran out.
    NoMemory,
}

/// What a create did.
#[derive(Clone, Copy, PartialEq, Eq)]
pub enum Made {
    /// The file is there, empty, and is the store's current file.
    Done,
    /// The file couldn't be created.
    Failed,
    /// Memory ran out.
    NoMemory,
}

/// The calls of a store that may fail.
#[derive(Clone, Copy, PartialEq, Eq)]
pub enum StoreCall {
    Load,
    Create,
    Append,
}

/// A set of files by name, like a file system. A name is a list of bytes.
pub trait Store {
    ghost use Rattle.std.specs.Prelude.{List, Option, ℕ};
    ghost use Rattle.pm_io.specs.Stores.{Call, Files};

    /// The files other than the current one, if the store tells them.
    ghost files: { Self → Option Files };

    /// The name of the current file, which is the one that was created, if there is one.
    ghost current: { Self → Option (List ℕ) };

    /// The bytes of the current file, if the store tells them.
    ghost written: { Self → Option (List ℕ) };

    /// The last call that failed, and the name of its file.
    ghost last_fault: { Self → Option Call };

    /// How often a call has failed. The count never falls.
    ghost faults: { Self → ℕ };

    /// Reads the whole file of this name, if it has at most `limit` bytes. `into` is emptied first. Unless the result is
    /// `All`, nothing is said about what it holds afterwards.
    fn load(&mut self, name: &[u8], limit: usize, into: &mut Vec<u8>) -> Loaded
        ensures content { Loads (told_of (files self.old) (current self.old) (written self.old) name.now) limit into.new.items result }
        ensures files { files self.new ≡ files self.old }
        ensures current { current self.new ≡ current self.old }
        ensures written { written self.new ≡ written self.old }
        ensures cause { HasStoreCause (faults self.old) (faults self.new) (last_fault self.old) (last_fault self.new)
            (result ≡ Loaded.Failed) (name.now, StoreCall.Load) };

    /// Makes an empty file of this name, which is the current file from then on.
    fn create(&mut self, name: &[u8]) -> Made
        requires { current self.old ≡ None }
        ensures file { Makes (files self.old) (files self.new) (current self.new) (written self.new) name.now result }
        ensures cause { HasStoreCause (faults self.old) (faults self.new) (last_fault self.old) (last_fault self.new)
            (result ≡ Made.Failed) (name.now, StoreCall.Create) };

    /// Adds the piece to the end of the current file.
    fn append(&mut self, piece: &[u8]) -> Put
        requires current { IsSome (current self.old) }
        requires some { 0 < length piece.now }
        ensures bytes { Puts (written self.old) (written self.new) piece.now result }
        ensures files { files self.new ≡ files self.old }
        ensures same_current { current self.new ≡ current self.old }
        ensures cause { IfSome (current self.old) (λ name.
            HasStoreCause (faults self.old) (faults self.new) (last_fault self.old) (last_fault self.new)
            (result ≡ Put.Failed) (name, StoreCall.Append)) };
}
