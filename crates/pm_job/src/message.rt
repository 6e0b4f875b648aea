//! The messages of the program, one line each.
ghost use Rattle.std.specs.Prelude.{◌≡◌, ℕ};
ghost use Rattle.pm_io.specs.Buffering.{Queues};
ghost use Rattle.pm_io.specs.Causes.{HasCause};
ghost use Rattle.pm_io.specs.Streams.{Puts};
ghost use Rattle.pm_job.specs.Answers.{refusal_line, usage_line};
ghost use Rattle.pm_job.specs.Endings.{message_of};

use crate::finish::Finish;
use itoa::Buffer;
use pm_io::{LF, Put, Sink, WriteBuffer, put_all, try_put};

/// Prints the usage line.
pub fn say_usage<E: Sink>(errors: &mut E) -> Put
    ensures text { Puts (E.held errors.old) (E.held errors.new) usage_line result }
    ensures cause { HasCause (E.faults errors.old) (E.faults errors.new) (result ≡ Put.Failed) }
{
    put_all(
        errors,
        b"pymtl: usage: pymtl check|order|sim|translate FILE TOP [name=value].. [options] | pymtl gen N\n",
    )
}

/// Prints how a simulation ended. If it was done to its end, nothing is printed.
pub fn say<E: Sink>(finish: Finish, errors: &mut E) -> Put
    ensures text { Puts (E.held errors.old) (E.held errors.new) (message_of finish) result }
    ensures cause { HasCause (E.faults errors.old) (E.faults errors.new) (result ≡ Put.Failed) }
{
    match finish {
        Finish::Done => put_all(errors, b""),
        Finish::Refused(line) => say_refusal(line, errors),
        Finish::ReadFault => put_all(errors, b"pymtl: read fault\n"),
        Finish::WriteFault => put_all(errors, b"pymtl: write fault\n"),
        Finish::NoMemory => put_all(errors, b"pymtl: out of memory\n"),
    }
}

// Prints which line is refused.
fn say_refusal<E: Sink>(line: u64, errors: &mut E) -> Put
    ensures text { Puts (E.held errors.old) (E.held errors.new) (refusal_line line) result }
    ensures cause { HasCause (E.faults errors.old) (E.faults errors.new) (result ≡ Put.Failed) }
{
    let mut buffer = WriteBuffer::new();
    try_put!(queue_refusal(line, &mut buffer, errors));
    buffer.flush(errors)
}

fn queue_refusal<E: Sink>(line: u64, buffer: &mut WriteBuffer, errors: &mut E) -> Put
    ensures text { Queues (E.held errors.old) (E.held errors.new) buffer.old buffer.new (refusal_line line) result }
    ensures cause { HasCause (E.faults errors.old) (E.faults errors.new) (result ≡ Put.Failed) }
{
    let mut digits = Buffer::new();
    try_put!(buffer.put(errors, b"pymtl: 99 NotBuilt line "));
    try_put!(buffer.put(errors, digits.format(line).as_bytes()));
    buffer.put(errors, &[LF])
}
