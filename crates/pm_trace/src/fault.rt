//! Why a line is no header.
use pm_io::{NoMemory, Text};
use std::alloc::AllocError;

/// Why a line is no header.
#[derive(Debug, Drop)]
pub enum HeadFault {
    /// The first word that is no input or repeats one, or else the first input that is missing.
    BadHeader(Text),
    /// Memory ran out.
    NoMemory,
}

impl From<NoMemory> for HeadFault {
    ghost use Rattle.std.specs.Prelude.{◌≡◌};
    ghost use Rattle.pm_trace.specs.declared.fault.HeadFault.TheVariants as fault;

    ghost from_gives = { λ _ error. error ≡ fault.NoMemory };

    fn from(_error: NoMemory) -> Self {
        HeadFault::NoMemory
    }
}

impl From<AllocError> for HeadFault {
    ghost use Rattle.std.specs.Prelude.{◌≡◌};
    ghost use Rattle.pm_trace.specs.declared.fault.HeadFault.TheVariants as fault;

    ghost from_gives = { λ _ error. error ≡ fault.NoMemory };

    fn from(_error: AllocError) -> Self {
        HeadFault::NoMemory
    }
}
