//! Reading the lines of a file.
ghost use Rattle.std.specs.Prelude.{◌≡◌, ◌⊎◌, Result, Err};
ghost use Rattle.pm_syn.specs.declared.statement.File.{File as TheFile};
ghost use Rattle.pm_parse.specs.Answers.{IsFileAnswer};
ghost use Rattle.pm_parse.specs.declared.fault.ParseFault.{ParseFault as TheFault};

use crate::entry::entries;
use crate::fault::ParseFault;
use crate::layout::first_fault;
use crate::tree::trees;
use pm_syn::{File, Line};
use std::alloc::Global;

/// The file that logical lines spell, or the fault of the first faulty line.
///
/// A function `line_trace` or `__str__` directly in a class is skipped, with the lines inside it. A line's fault is
/// `Syntax` if the grammar relates no statement to its tokens, `TooDeep` if the statement has an expression that is more
/// than 64 deep, and `Layout` if the statement isn't allowed there.
pub fn parse(alloc: Global, lines: &[Line]) -> Result<File, ParseFault>
    ensures answer { (result ≡ Err ParseFault.NoMemory) ⊎ IsFileAnswer lines.now result }
    ensures only { (answer : Result TheFile TheFault) → IsFileAnswer lines.now answer → (result ≡ Err ParseFault.NoMemory) ⊎ (result ≡ answer) }
{
    let entries = entries(alloc, lines)?;
    if let Some(fault) = first_fault(alloc, entries.as_slice())? {
        return Err(fault);
    }
    Ok(File {
        nodes: trees(alloc, entries)?,
    })
}
