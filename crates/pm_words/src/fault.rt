//! Why words are no job.
use pm_io::NoMemory;
use std::alloc::AllocError;

/// Why words are no job.
#[derive(Debug, Drop)]
pub enum WordsFault {
    /// The words ask for no job.
    Usage,
    /// Memory ran out.
    NoMemory,
}

impl From<NoMemory> for WordsFault {
    ghost use Rattle.std.specs.Prelude.{◌≡◌};
    ghost use Rattle.pm_words.specs.declared.fault.WordsFault.TheVariants as fault;

    ghost from_gives = { λ _ error. error ≡ fault.NoMemory };

    fn from(_error: NoMemory) -> Self {
        WordsFault::NoMemory
    }
}

impl From<AllocError> for WordsFault {
    ghost use Rattle.std.specs.Prelude.{◌≡◌};
    ghost use Rattle.pm_words.specs.declared.fault.WordsFault.TheVariants as fault;

    ghost from_gives = { λ _ error. error ≡ fault.NoMemory };

    fn from(_error: AllocError) -> Self {
        WordsFault::NoMemory
    }
}
