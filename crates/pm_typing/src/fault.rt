//! Why a body can't be typed.
use pm_io::NoMemory;
use std::alloc::{AllocError, AllocFailed};
use thiserror::Error;

/// The first fault of a design's bodies. A number is a line of the file, counted from 1.
#[derive(Clone, Copy, Debug, PartialEq, Eq, Error)]
pub enum TypeFault {
    /// A width or a type that isn't the one that its place needs.
    #[error("line {0}: a width or type doesn't match")]
    WidthMismatch(u32),
    /// An integer out of range for its width, or an operation on integers without a result of 64 bits.
    #[error("line {0}: an integer is out of range")]
    ConstRange(u32),
    /// A name or an attribute without a meaning, or a name that some path leaves unassigned.
    #[error("line {0}: a name or attribute may be unbound")]
    MaybeUnbound(u32),
    /// A form, a target, a call or a name that isn't allowed at its place.
    #[error("line {0}: not allowed here")]
    NotAllowedHere(u32),
    /// A constant index or slice outside of its operand, or an empty slice.
    #[error("line {0}: an index is out of range")]
    IndexRange(u32),
    /// More than 2^20 nodes and turns of loops in the bodies of a kind.
    #[error("line {0}: the bodies have more than 1048576 nodes and turns")]
    BodyTooLong(u32),
    /// Memory ran out.
    #[error("out of memory")]
    NoMemory,
}

impl From<NoMemory> for TypeFault {
    ghost use Rattle.std.specs.Prelude.{◌≡◌};
    ghost use Rattle.pm_typing.specs.declared.fault.TypeFault.TheVariants as fault;

    ghost from_gives = { λ _ error. error ≡ fault.NoMemory };

    fn from(_error: NoMemory) -> Self {
        TypeFault::NoMemory
    }
}

impl From<AllocError> for TypeFault {
    ghost use Rattle.std.specs.Prelude.{◌≡◌};
    ghost use Rattle.pm_typing.specs.declared.fault.TypeFault.TheVariants as fault;

    ghost from_gives = { λ _ error. error ≡ fault.NoMemory };

    fn from(_error: AllocError) -> Self {
        TypeFault::NoMemory
    }
}

impl<T: Drop> From<AllocFailed<T>> for TypeFault {
    ghost use Rattle.std.specs.Prelude.{◌≡◌};
    ghost use Rattle.pm_typing.specs.declared.fault.TypeFault.TheVariants as fault;

    ghost from_gives = { λ _ error. error ≡ fault.NoMemory };

    fn from(_error: AllocFailed<T>) -> Self {
        TypeFault::NoMemory
    }
}
