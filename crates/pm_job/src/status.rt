//! How the program ends.
ghost use Rattle.std.specs.Prelude.{◌≡◌};
ghost use Rattle.pm_job.specs.Codes.{code_of};

/// How the program ends.
#[derive(Clone, Copy)]
pub enum Status {
    /// The action was done to its end.
    Done,
    /// The design or the input was refused, with a message that names the cause.
    Refused,
    /// The words mean no job.
    Usage,
    /// A read of the input failed, or a file couldn't be loaded.
    ReadFault,
    /// A write of the output failed, or a file couldn't be written.
    WriteFault,
    /// Memory ran out.
    NoMemory,
}

impl Status {
    /// The exit status that the program ends with.
    pub fn code(&self) -> u8
        ensures { result ≡ code_of self.now }
    {
        match self {
            Status::Done => 0,
            Status::Refused => 1,
            Status::Usage => 2,
            Status::ReadFault => 3,
            Status::WriteFault => 4,
            Status::NoMemory => 5,
        }
    }
}
