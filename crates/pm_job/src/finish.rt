//! How a simulation ends.
ghost use Rattle.std.specs.Prelude.{◌≡◌};
ghost use Rattle.pm_job.specs.Endings.{status_of};

use crate::status::Status;

/// How a simulation ended.
#[derive(Clone, Copy)]
pub enum Finish {
    /// The input was read to its end.
    Done,
    /// A line was refused, after the rows before it.
    Refused(u64),
    /// A read of the input failed, or the design file couldn't be loaded.
    ReadFault,
    /// A write of the output failed.
    WriteFault,
    /// Memory ran out.
    NoMemory,
}

impl Finish {
    /// The status that the program ends with.
    pub fn status(self) -> Status
        ensures { result ≡ status_of self }
    {
        match self {
            Finish::Done => Status::Done,
            Finish::Refused(_) => Status::Refused,
            Finish::ReadFault => Status::ReadFault,
            Finish::WriteFault => Status::WriteFault,
            Finish::NoMemory => Status::NoMemory,
        }
    }
}
