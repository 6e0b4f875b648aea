//! Why a trace is cut off.
use pm_io::NoMemory;
use pm_trace::HeadFault;
use std::error::Error;
use std::fmt;

/// Why a trace is cut off.
#[derive(Debug, Drop)]
pub enum Fault {
    /// The first line is no header, or a further one no row.
    BadLine,
    /// The input couldn't be read, or the output not written.
    BrokenStream,
    /// Memory ran out.
    NoMemory,
}

impl fmt::Display for Fault {
    fn fmt<W: fmt::Write>(&self, f: &mut fmt::Formatter<W>) -> fmt::Result {
        match self {
            Fault::BadLine => f.write_str("bad line"),
            Fault::BrokenStream => f.write_str("broken stream"),
            Fault::NoMemory => f.write_str("out of memory"),
        }
    }
}

impl Error for Fault {}

impl From<NoMemory> for Fault {
    fn from(_error: NoMemory) -> Self {
        Fault::NoMemory
    }
}

impl From<HeadFault> for Fault {
    fn from(error: HeadFault) -> Self {
        match error {
            HeadFault::BadHeader(_) => Fault::BadLine,
            HeadFault::NoMemory => Fault::NoMemory,
        }
    }
}
