//! The objects in memory that a run gets.
ghost use Rattle.std.specs.Prelude.{◌≡◌, IfOk, None};
ghost use Rattle.pm_io.specs.Memory.{AreFilled};
ghost use Rattle.pm_io.specs.MemoryFiles.{NamesDiffer};

use crate::piece::unescaped;
use crate::settings::Settings;
use pm_io::{List, MemFile, MemSink, MemSource, MemStore, NoMemory, Text};
use std::alloc::Global;

/// The capacity of an output, in bytes.
const CAPACITY: usize = 4096;

/// The number of the read, write, message or load that fails.
#[derive(Clone, Copy)]
pub struct Failing {
    pub read: Option<u64>,
    pub write: Option<u64>,
    pub message: Option<u64>,
    pub load: Option<u64>,
}

/// No call fails.
pub const NOTHING: Failing = Failing {
    read: None,
    write: None,
    message: None,
    load: None,
};

/// The words of the command line.
pub fn words(alloc: Global, settings: &Settings) -> Result<Vec<String>, NoMemory> {
    let mut words = Vec::new(alloc);
    for word in settings.words.split('`').skip(1).step_by(2) {
        words.push(String::from_str(alloc, word)?)?;
    }
    Ok(words)
}

/// The input, in its pieces.
pub fn source(
    alloc: Global,
    settings: &Settings,
    failing: Option<u64>,
) -> Result<MemSource, NoMemory> {
    let pieces = pieces(alloc, settings.input.as_str())?;
    Ok(MemSource::new(pieces, numbers(alloc, failing)?))
}

// The pieces that aren't empty.
fn pieces(alloc: Global, row: &str) -> Result<List<Text>, NoMemory>
    ensures { IfOk result AreFilled }
{
    let mut pieces = List::new(alloc);
    for piece in row.split('`').skip(1).step_by(2) {
        push_filled(alloc, &mut pieces, piece)?;
    }
    Ok(pieces)
}

// Adds a piece that isn't empty.
fn push_filled(alloc: Global, pieces: &mut List<Text>, piece: &str) -> Result<(), NoMemory>
    requires { AreFilled pieces.old }
    ensures { AreFilled pieces.new }
{
    let bytes = unescaped(alloc, piece)?;
    if !bytes.is_empty() {
        pieces.push(Text::from_slice(alloc, bytes.as_bytes())?)?;
    }
    Ok(())
}

/// An empty output or place for messages.
pub fn sink(alloc: Global, settings: &Settings, failing: Option<u64>) -> Result<MemSink, NoMemory> {
    let most = settings.most.max(1);
    MemSink::new(alloc, CAPACITY, most, numbers(alloc, failing)?)
}

/// A store with the only file, of this content.
pub fn store(
    alloc: Global,
    settings: &Settings,
    content: &str,
    failing: Option<u64>,
) -> Result<MemStore, NoMemory>
    ensures { IfOk result (λ store. store.current ≡ None) }
{
    let files = files(alloc, settings.name.as_str(), content)?;
    MemStore::new(alloc, files, 0, numbers(alloc, failing)?)
}

fn files(alloc: Global, name: &str, content: &str) -> Result<List<MemFile>, NoMemory>
    ensures { IfOk result NamesDiffer }
{
    let name = Text::from_slice(alloc, name.as_bytes())?;
    let bytes = Text::from_slice(alloc, content.as_bytes())?;
    Ok(List::from_vec(vec![in alloc; MemFile { name, bytes }]?))
}

fn numbers(alloc: Global, number: Option<u64>) -> Result<List<u64>, NoMemory> {
    match number {
        Some(number) => Ok(List::from_slice(alloc, &[number])?),
        None => Ok(List::new(alloc)),
    }
}
