//! What may be wrong with the lines of a file.
ghost use Rattle.std.specs.Prelude.{◌≡◌};

use pm_io::NoMemory;
use thiserror::Error;

/// Why logical lines make no file. Each fault except `NoMemory` names a line of the text, counted from 1.
#[derive(Clone, Copy, Debug, Drop, Error, PartialEq, Eq)]
pub enum ParseFault {
    /// The line's tokens spell no statement.
    #[error("line {0}: the line is no statement")]
    Syntax(u32),
    /// They spell a statement with an expression that is more than 64 deep.
    #[error("line {0}: an expression is more than 64 deep")]
    TooDeep(u32),
    /// They spell a statement that isn't allowed there: at that column, after the lines before it, or before those after it.
    #[error("line {0}: no such line is allowed there")]
    Layout(u32),
    /// Memory ran out.
    #[error("out of memory")]
    NoMemory,
}

impl From<NoMemory> for ParseFault {
    ghost use Rattle.pm_parse.specs.declared.fault.ParseFault.TheVariants as fault;

    ghost from_gives = { λ _ error. error ≡ fault.NoMemory };

    fn from(_error: NoMemory) -> Self {
        ParseFault::NoMemory
    }
}
