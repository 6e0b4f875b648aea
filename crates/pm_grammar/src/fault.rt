//! What may be wrong with a logical line.
ghost use Rattle.std.specs.Prelude.{◌≡◌};

use pm_io::NoMemory;
use thiserror::Error;

/// The greatest depth of an expression.
pub(crate) const MAX_DEPTH: u32 = 64;

/// Why a logical line has no statement.
#[derive(Clone, Copy, Debug, Drop, Error, PartialEq, Eq)]
pub enum LineFault {
    /// The tokens spell no statement.
    #[error("the line is no statement")]
    Syntax,
    /// They spell one with an expression that is more than 64 deep.
    #[error("an expression is more than 64 deep")]
    TooDeep,
    /// Memory ran out.
    #[error("out of memory")]
    NoMemory,
}

impl From<NoMemory> for LineFault {
    ghost use Rattle.pm_grammar.specs.declared.fault.LineFault.TheVariants as fault;

    ghost from_gives = { λ _ error. error ≡ fault.NoMemory };

    fn from(_error: NoMemory) -> Self {
        LineFault::NoMemory
    }
}
