//! The program `pymtl`: the host's streams and files, and one call.
#![tactic(auto)]

use pm_io::{FreeGate, HostSink, HostSource, HostStore};
use pm_job::{Status, run};
use std::alloc::{AllocError, Global};
use std::process::ExitCode;
use std::{env, io};

fn main(rt: HostRuntime) -> ExitCode {
    let alloc = rt.alloc();
    let Ok(words) = command_line(alloc, &rt) else {
        return ExitCode::from(Status::NoMemory.code());
    };
    let mut input = HostSource::new(rt.stdin());
    let mut output = HostSink::new(rt.stdout());
    let mut errors = HostSink::new(rt.stderr());
    let mut store = HostStore::new(alloc, &rt);
    let status = run(
        alloc,
        &rt,
        &words,
        &mut input,
        &mut output,
        &mut errors,
        &mut store,
        &FreeGate,
    );
    ExitCode::from(status.code())
}

// The words behind the program's name. Words that aren't UTF-8 mean no job, as no words do.
fn command_line(alloc: Global, rt: &HostRuntime) -> Result<Vec<String>, AllocError> {
    let mut words = Vec::new(alloc);
    match env::args(rt) {
        Ok(args) => {
            for word in args.skip(1) {
                words.push(word)?;
            }
        }
        Err(error) => {
            if error.kind() == io::ErrorKind::OutOfMemory {
                return Err(AllocError);
            }
        }
    }
    Ok(words)
}
