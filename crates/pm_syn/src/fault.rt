//! What may be wrong with a text.
ghost use Rattle.std.specs.Prelude.{◌≡◌};
ghost use Rattle.pm_syn.specs.Faults as spec;

use pm_io::NoMemory;
use std::error::Error;
use std::fmt::{self, Display, Formatter, Write};

/// The greatest size of a design file, in bytes.
pub(crate) const MAX_FILE: usize = 1 << 20;

/// The greatest length of a logical line: the bytes of its tokens other than strings.
pub(crate) const MAX_LINE: usize = 4096;

/// Why a text has no logical lines. Each fault but the first and the last names a line of the text, counted from 1.
#[derive(Clone, Copy, Debug, Drop)]
pub enum TextFault {
    /// The file has more than 2^20 bytes.
    FileTooLong,
    /// A byte that begins no token, a backslash that isn't directly before a line end, a name directly after a number,
    /// an integer greater than 2^128 - 1, a string or a bracket that isn't closed, or a closing bracket that doesn't fit
    /// the innermost open one.
    BadToken(u32),
    /// A tab in the indentation of a logical line, or a smaller column at which no earlier line begins a block.
    BadIndent(u32),
    /// A logical line whose tokens other than strings have more than 4,096 bytes.
    LineTooLong(u32),
    /// Memory ran out.
    NoMemory,
}

impl TextFault {
    /// Whether it names a line before this one.
    pub(crate) fn is_before(&self, line: u32) -> bool
        ensures { result ≡ spec.is_before self.now line }
    {
        match self {
            TextFault::BadToken(named)
            | TextFault::BadIndent(named)
            | TextFault::LineTooLong(named) => *named < line,
            TextFault::FileTooLong | TextFault::NoMemory => false,
        }
    }
}

impl Display for TextFault {
    fn fmt<W: Write>(&self, f: &mut Formatter<W>) -> fmt::Result {
        match self {
            TextFault::FileTooLong => write!(f, "the file has more than 1048576 bytes"),
            TextFault::BadToken(line) => {
                write!(f, "line {line}: a bad token, or a bracket that doesn't fit")
            }
            TextFault::BadIndent(line) => {
                write!(f, "line {line}: no line is allowed at this column")
            }
            TextFault::LineTooLong(line) => {
                write!(
                    f,
                    "line {line}: the logical line has more than 4096 bytes of tokens"
                )
            }
            TextFault::NoMemory => write!(f, "out of memory"),
        }
    }
}

impl Error for TextFault {}

impl From<NoMemory> for TextFault {
    ghost use Rattle.pm_syn.specs.declared.fault.TextFault.TheVariants as fault;

    ghost from_gives = { λ _ error. error ≡ fault.NoMemory };

    fn from(_error: NoMemory) -> Self {
        TextFault::NoMemory
    }
}
