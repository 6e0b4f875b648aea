//! Copies of typed statements.
ghost use Rattle.std.specs.Prelude.{◌≡◌, IfOk};

use crate::expressions::{copy_expression, copy_expressions, copy_parts};
use pm_design::St;
use pm_io::{List, NoMemory};
use std::alloc::Global;

#[cycle(statement)]
fn copy_statement(alloc: Global, statement: &St) -> Result<St, NoMemory>
    ensures { IfOk result (λ copied. copied ≡ statement.now) }
{
    match statement {
        St::Set(part, value) => Ok(St::Set(*part, copy_expression(alloc, value)?)),
        St::SetPick(index, parts, value) => {
            let parts = copy_parts(alloc, parts.as_slice())?;
            let index = copy_expression(alloc, index)?;
            Ok(St::SetPick(index, parts, copy_expression(alloc, value)?))
        }
        St::SetTemp(temp, value) => Ok(St::SetTemp(*temp, copy_expression(alloc, value)?)),
        St::SetNumber(state, value) => Ok(St::SetNumber(*state, copy_expression(alloc, value)?)),
        St::Push(deque, side, item) => Ok(St::Push(*deque, *side, copy_expression(alloc, item)?)),
        St::Pop(deque, side, temp) => Ok(St::Pop(*deque, *side, *temp)),
        St::Clear(deque) => Ok(St::Clear(*deque)),
        St::Call(callee, arguments, temp) => {
            Ok(St::Call(
                *callee,
                copy_expressions(alloc, arguments.as_slice())?,
                *temp,
            ))
        }
        St::If(condition, yes, no) => {
            let yes = copy_body(alloc, yes.as_slice())?;
            let no = copy_body(alloc, no.as_slice())?;
            Ok(St::If(copy_expression(alloc, condition)?, yes, no))
        }
    }
}

/// A copy of the statements.
#[cycle(statement)]
pub(crate) fn copy_body(alloc: Global, body: &[St]) -> Result<List<St>, NoMemory>
    ensures { IfOk result (λ copied. copied ≡ body.now) }
{
    let mut copied = List::new(alloc);
    for statement in body {
        copied.push(copy_statement(alloc, statement)?)?;
    }
    Ok(copied)
}
