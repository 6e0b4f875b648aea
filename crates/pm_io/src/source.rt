//! Where bytes are read from.
ghost use Rattle.std.specs.Prelude.{◌≡◌, ◌<◌, ℕ, List, Option, length};
ghost use Rattle.pm_io.specs.Causes.{HasCause};
ghost use Rattle.pm_io.specs.Streams.{Reads};

/// What one read gave.
#[derive(Clone, Copy, PartialEq, Eq)]
pub enum Got {
    /// This number of bytes, at least one. They are at the start of the buffer.
    Bytes(usize),
    /// Nothing: nothing is left.
    End,
    /// Nothing: the read failed.
    Failed,
}

/// A stream of bytes to be read, as standard input.
pub trait Source {
    /// The bytes that are left, if the source tells them.
    ghost left: { Self → Option (List ℕ) };

    /// How often a read has failed. The count never falls.
    ghost faults: { Self → ℕ };

    /// Moves the next bytes to the start of the buffer: as many as it likes, and no more than fit.
    fn read(&mut self, buffer: &mut [u8]) -> Got
        requires { 0 < length buffer.old }
        ensures bytes { Reads (left self.old) (left self.new) buffer.new result }
        ensures cause { HasCause (faults self.old) (faults self.new) (result ≡ Got.Failed) };
}
