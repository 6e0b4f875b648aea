//! Parsing a logical line.
ghost use Rattle.std.specs.Prelude.{◌≡◌, ◌⊎◌, Result, Err};
ghost use Rattle.pm_syn.specs.declared.statement.Stmt.{Stmt as TheStmt};
ghost use Rattle.pm_grammar.specs.Answers.{IsLineAnswer};
ghost use Rattle.pm_grammar.specs.declared.fault.LineFault.{LineFault as TheFault};

use crate::depth::is_shallow;
use crate::fault::LineFault;
use crate::header::statement;
use pm_syn::{Line, Stmt};
use std::alloc::Global;
use std::mem::drop;

/// The statement that a logical line spells.
///
/// The fault is `Syntax` if and only if the line's tokens spell no statement, and `TooDeep` if and only if they spell one
/// with an expression that is more than 64 deep.
pub fn parse_line(alloc: Global, line: &Line) -> Result<Stmt, LineFault>
    ensures answer { (result ≡ Err LineFault.NoMemory) ⊎ IsLineAnswer line.now.tokens result }
    ensures only { (answer : Result TheStmt TheFault) → IsLineAnswer line.now.tokens answer → (result ≡ Err LineFault.NoMemory) ⊎ (result ≡ answer) }
{
    let Some(statement) = statement(alloc, line.tokens.as_slice())? else {
        return Err(LineFault::Syntax);
    };
    if is_shallow(&statement) {
        return Ok(statement);
    }
    drop(statement);
    Err(LineFault::TooDeep)
}
