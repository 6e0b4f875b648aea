//! Where bytes are written to.
ghost use Rattle.std.specs.Prelude.{◌≡◌, ◌<◌, ℕ, List, Option, length};
ghost use Rattle.pm_io.specs.Causes.{HasCause};
ghost use Rattle.pm_io.specs.Streams.{Writes, Puts};

/// What one write did.
#[derive(Clone, Copy, PartialEq, Eq)]
pub enum Took {
    /// It took this number of bytes, at least one, from the start of the piece.
    Bytes(usize),
    /// It took nothing.
    Failed,
}

/// What became of a whole piece.
#[derive(Clone, Copy, PartialEq, Eq)]
pub enum Put {
    /// All of it was taken.
    All,
    /// A prefix of it was taken, perhaps nothing, and then a write failed.
    Failed,
}

/// A stream of bytes to be written, as standard output.
pub trait Sink {
    /// The bytes that it holds, if the sink tells them.
    ghost held: { Self → Option (List ℕ) };

    /// How often a write has failed. The count never falls.
    ghost faults: { Self → ℕ };

    /// Takes a prefix of the piece, as long as it likes.
    fn write(&mut self, piece: &[u8]) -> Took
        requires { 0 < length piece.now }
        ensures bytes { Writes (held self.old) (held self.new) piece.now result }
        ensures cause { HasCause (faults self.old) (faults self.new) (result ≡ Took.Failed) };
}

/// Continues when all of the piece was taken, and returns `Put::Failed` when not.
#[macro_export]
macro_rules! try_put {
    ($put:expr) => {
        match $put {
            $crate::Put::All => {}
            $crate::Put::Failed => return $crate::Put::Failed,
        }
    };
}

/// Writes a whole piece, by as many writes as the sink needs. An empty piece takes none.
pub fn put_all<K: Sink>(sink: &mut K, piece: &[u8]) -> Put
    ensures bytes { Puts (K.held sink.old) (K.held sink.new) piece.now result }
    ensures cause { HasCause (K.faults sink.old) (K.faults sink.new) (result ≡ Put.Failed) }
{
    let mut taken: usize = 0;
    while taken < piece.len() {
        match sink.write(&piece[taken..]) {
            Took::Bytes(count) => taken += count,
            Took::Failed => return Put::Failed,
        }
    }
    Put::All
}
