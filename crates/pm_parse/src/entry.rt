//! The statement that each line spells.
ghost use Rattle.std.specs.Prelude.{IfOk};
ghost use Rattle.pm_parse.specs.Entries as spec;
ghost use Rattle.pm_parse.specs.Skipped as skipped;

use crate::enclosing::skips;
use pm_grammar::statement;
use pm_io::{List, NoMemory, Stack};
use pm_syn::{Line, Stmt};
use std::alloc::Global;

/// A logical line, with its statement.
#[derive(Drop)]
pub(crate) struct Entry {
    pub number: u32,
    pub column: u32,
    /// However deep its expressions are; none if the line spells no statement.
    pub statement: Option<Stmt>,
}

/// The statements of the lines that aren't skipped.
pub(crate) fn entries(alloc: Global, lines: &[Line]) -> Result<List<Entry>, NoMemory>
    ensures { IfOk result (λ entries. spec.AreEntries (skipped.kept lines.now) entries) }
{
    let mut enclosing = Stack::new(alloc);
    let mut entries = List::new(alloc);
    for line in lines {
        if !skips(&mut enclosing, line)? {
            entries.push(Entry {
                number: line.number,
                column: line.column,
                statement: statement(alloc, line.tokens.as_slice())?,
            })?;
        }
    }
    Ok(entries)
}
