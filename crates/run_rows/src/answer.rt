//! The runs of a row, and what they give.
ghost use Rattle.std.specs.Prelude.{◌≡◌, None};

use crate::objects::{Failing, NOTHING, sink, source, store, words};
use crate::piece::{first_piece, push_piece, unescaped};
use crate::settings::{Settings, parts_of};
use pm_io::{FreeGate, MemSink, MemStore, NoMemory};
use pm_job::{Status, run};
use std::alloc::Global;
use std::thread::Threads;

/// A row, and what is printed after it.
pub fn answer_of<R: Threads + Sync>(
    rt: &R,
    settings: &Settings,
    row: &str,
) -> Result<Vec<u8>, NoMemory> {
    let mut answer = Vec::from_slice(settings.alloc, row.as_bytes())?;
    let (kind, value) = parts_of(row);
    match kind {
        "run" => push_run(
            rt,
            settings,
            settings.content.as_str(),
            NOTHING,
            &mut answer,
        )?,
        "change" => push_changed(rt, settings, value, &mut answer)?,
        "fail" => push_failing(rt, settings, value, &mut answer)?,
        "" | "#" | "file" | "|" | "words" | "input" | "most" => {}
        _ => answer.extend_from_slice(b" => no such row")?,
    }
    answer.push(b'\n')?;
    Ok(answer)
}

// The answer of a run with a part of the file replaced.
fn push_changed<R: Threads + Sync>(
    rt: &R,
    settings: &Settings,
    change: &str,
    answer: &mut Vec<u8>,
) -> Result<(), NoMemory> {
    let content = changed(settings.alloc, settings.content.as_str(), change)?;
    match content {
        Some(content) => push_run(rt, settings, content.as_str(), NOTHING, answer),
        None => Ok(answer.extend_from_slice(b" => nothing to replace")?),
    }
}

// The text with the first piece of the change replaced by its second one, where there is such a part.
fn changed(alloc: Global, text: &str, change: &str) -> Result<Option<String>, NoMemory> {
    let Some((old, rest)) = first_piece(change) else {
        return Ok(None);
    };
    let Some((new, _)) = first_piece(rest) else {
        return Ok(None);
    };
    let old = unescaped(alloc, old)?;
    match text.split_once(old.as_str()) {
        Some((before, after)) => {
            let new = unescaped(alloc, new)?;
            Ok(Some(format!(in alloc; "{before}{new}{after}")?))
        }
        None => Ok(None),
    }
}

// The answers of runs in which one call fails, a line each.
fn push_failing<R: Threads + Sync>(
    rt: &R,
    settings: &Settings,
    range: &str,
    answer: &mut Vec<u8>,
) -> Result<(), NoMemory> {
    let (call, numbers) = parts_of(range);
    let (first, last) = parts_of(numbers);
    for number in first.parse().unwrap_or(0_u64)..=last.parse().unwrap_or(0) {
        let head = format!(in settings.alloc; "\n  {call} {number}")?;
        answer.extend_from_slice(head.as_bytes())?;
        let failing = failing_call(call, number);
        push_run(rt, settings, settings.content.as_str(), failing, answer)?;
    }
    Ok(())
}

fn failing_call(call: &str, number: u64) -> Failing {
    let number = Some(number);
    match call {
        "read" => Failing {
            read: number,
            ..NOTHING
        },
        "write" => Failing {
            write: number,
            ..NOTHING
        },
        "message" => Failing {
            message: number,
            ..NOTHING
        },
        "load" => Failing {
            load: number,
            ..NOTHING
        },
        _ => NOTHING,
    }
}

// Runs the call on a file of this content.
fn push_run<R: Threads + Sync>(
    rt: &R,
    settings: &Settings,
    content: &str,
    failing: Failing,
    answer: &mut Vec<u8>,
) -> Result<(), NoMemory> {
    let alloc = settings.alloc;
    let words = words(alloc, settings)?;
    let mut store = store(alloc, settings, content, failing.load)?;
    push_run_on(rt, settings, &words, &mut store, failing, answer)
}

fn push_run_on<R: Threads + Sync>(
    rt: &R,
    settings: &Settings,
    words: &Vec<String>,
    store: &mut MemStore,
    failing: Failing,
    answer: &mut Vec<u8>,
) -> Result<(), NoMemory>
    requires { store.old.current ≡ None }
{
    let alloc = settings.alloc;
    let mut output = sink(alloc, settings, failing.write)?;
    let mut errors = sink(alloc, settings, failing.message)?;
    let status = status_of(
        rt,
        settings,
        words,
        store,
        failing.read,
        &mut output,
        &mut errors,
    )?;
    push_status(answer, status, output.bytes(), errors.bytes())
}

fn status_of<R: Threads + Sync>(
    rt: &R,
    settings: &Settings,
    words: &Vec<String>,
    store: &mut MemStore,
    failing: Option<u64>,
    output: &mut MemSink,
    errors: &mut MemSink,
) -> Result<Status, NoMemory>
    requires { store.old.current ≡ None }
{
    let mut input = source(settings.alloc, settings, failing)?;
    Ok(run(
        settings.alloc,
        rt,
        words,
        &mut input,
        output,
        errors,
        store,
        &FreeGate,
    ))
}

fn push_status(
    answer: &mut Vec<u8>,
    status: Status,
    output: &[u8],
    messages: &[u8],
) -> Result<(), NoMemory> {
    answer.extend_from_slice(b" => ")?;
    answer.extend_from_slice(name_of(status).as_bytes())?;
    answer.extend_from_slice(b", output ")?;
    push_piece(answer, output)?;
    answer.extend_from_slice(b", messages ")?;
    push_piece(answer, messages)?;
    Ok(())
}

fn name_of(status: Status) -> &'static str {
    match status {
        Status::Done => "Done",
        Status::Refused => "Refused",
        Status::Usage => "Usage",
        Status::ReadFault => "ReadFault",
        Status::WriteFault => "WriteFault",
        Status::NoMemory => "NoMemory",
    }
}
