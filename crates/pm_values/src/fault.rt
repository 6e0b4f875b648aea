//! Why a class can't be built.
use pm_io::{NoMemory, Text};
use std::alloc::{AllocError, AllocFailed};
use thiserror::Error;

/// The first fault of a run of `construct`. A number is a line of the file, counted from 1.
#[derive(Debug, Drop, Error)]
pub enum BuildFault {
    /// No `Component` class of the file has this name.
    #[error("no component class of the file has that name")]
    NoClass(Text),
    /// A parameter that was given is unknown or was given twice, or one is missing.
    #[error("a parameter is unknown, given twice or missing")]
    BadParameter(Text),
    /// The arguments of a call don't fit its parameters.
    #[error("line {0}: the arguments don't fit the parameters")]
    BadArguments(u32),
    /// A name or an attribute without a value.
    #[error("line {0}: a name or attribute has no value")]
    Unbound(u32),
    /// A value of another sort than its place needs.
    #[error("line {0}: a value is of the wrong sort")]
    WrongKind(u32),
    /// An integer out of range.
    #[error("line {0}: an integer is out of range")]
    IntRange(u32),
    /// A width outside 1 to 128.
    #[error("line {0}: a width is outside 1 to 128")]
    WidthRange(u32),
    /// A name that is made twice, or reserved.
    #[error("line {0}: a name is made twice, or reserved")]
    SameName(u32),
    /// An `assert` of 0.
    #[error("line {0}: an assertion doesn't hold")]
    AssertFailed(u32),
    /// More than 2^20 steps.
    #[error("line {0}: construction takes more than 1048576 steps")]
    BuildBudget(u32),
    /// More than 4,096 instances.
    #[error("line {0}: a component has more than 4096 instances")]
    TooManyInstances(u32),
    /// Constructs that are nested more than 64 deep.
    #[error("line {0}: constructs are nested more than 64 deep")]
    BuildDepth(u32),
    /// A lambda that reads a name that is assigned more than once.
    #[error("line {0}: a lambda reads a name that is assigned more than once")]
    LateCapture(u32),
    /// Memory ran out.
    #[error("out of memory")]
    NoMemory,
}

impl From<NoMemory> for BuildFault {
    ghost use Rattle.std.specs.Prelude.{◌≡◌};
    ghost use Rattle.pm_values.specs.declared.fault.BuildFault.TheVariants as fault;

    ghost from_gives = { λ _ error. error ≡ fault.NoMemory };

    fn from(_error: NoMemory) -> Self {
        BuildFault::NoMemory
    }
}

impl From<AllocError> for BuildFault {
    ghost use Rattle.std.specs.Prelude.{◌≡◌};
    ghost use Rattle.pm_values.specs.declared.fault.BuildFault.TheVariants as fault;

    ghost from_gives = { λ _ error. error ≡ fault.NoMemory };

    fn from(_error: AllocError) -> Self {
        BuildFault::NoMemory
    }
}

impl<T: Drop> From<AllocFailed<T>> for BuildFault {
    ghost use Rattle.std.specs.Prelude.{◌≡◌};
    ghost use Rattle.pm_values.specs.declared.fault.BuildFault.TheVariants as fault;

    ghost from_gives = { λ _ error. error ≡ fault.NoMemory };

    fn from(_error: AllocFailed<T>) -> Self {
        BuildFault::NoMemory
    }
}
