//! Copies of statements.
ghost use Rattle.std.specs.Prelude.{◌≡◌, IfOk};
ghost use Rattle.pm_syn.specs.declared.statement.Stmt as leaf;

use crate::expression::{copy_expression, copy_expressions, copy_optional_text, copy_text};
use pm_io::{Boxed, List, NoMemory, Text};
use pm_syn::{AssignOp, Expr, Par, Stmt};
use std::alloc::Global;

/// A copy of the statement.
#[cycle(statement)]
pub fn copy_statement(alloc: Global, statement: &Stmt) -> Result<Stmt, NoMemory>
    ensures { IfOk result (λ copied. copied ≡ statement.now) }
{
    match statement {
        Stmt::Import => Ok(Stmt::Import),
        Stmt::Doc => Ok(Stmt::Doc),
        Stmt::Pass => Ok(Stmt::Pass),
        Stmt::Class(name, base) => copy_class(alloc, name, base),
        Stmt::Def(name, has_self, parameters, note, body) => {
            let name = copy_text(alloc, name)?;
            let parameters = copy_parameters(alloc, parameters.as_slice())?;
            let note = copy_optional(alloc, note)?;
            let body = copy_body(alloc, body)?;
            Ok(Stmt::Def(name, *has_self, parameters, unboxed(note), body))
        }
        Stmt::Mark(name) => Ok(Stmt::Mark(copy_text(alloc, name)?)),
        Stmt::NonBlocking(condition) => Ok(Stmt::NonBlocking(copy_expression(alloc, condition)?)),
        Stmt::Return(value) => Ok(Stmt::Return(copy_expression(alloc, value)?)),
        Stmt::Assert(condition) => Ok(Stmt::Assert(copy_expression(alloc, condition)?)),
        Stmt::If(condition, body) => {
            let body = copy_body(alloc, body)?;
            Ok(Stmt::If(copy_expression(alloc, condition)?, body))
        }
        Stmt::Elif(condition, body) => {
            let body = copy_body(alloc, body)?;
            Ok(Stmt::Elif(copy_expression(alloc, condition)?, body))
        }
        Stmt::Else(body) => Ok(Stmt::Else(copy_body(alloc, body)?)),
        Stmt::For(name, bounds, body) => Ok(Stmt::For(
            copy_text(alloc, name)?,
            copy_expressions(alloc, bounds.as_slice())?,
            copy_body(alloc, body)?,
        )),
        Stmt::Assign(op, target, value) => copy_assignment(alloc, *op, target, value),
        Stmt::JoinLambda(target, value) => copy_join(alloc, target, value),
        Stmt::Note(target, note, value) => copy_note(alloc, target, note, value),
        Stmt::Do(value) => Ok(Stmt::Do(copy_expression(alloc, value)?)),
    }
}

#[cycle(statement)]
fn copy_body(alloc: Global, body: &Option<Boxed<Stmt>>) -> Result<Option<Boxed<Stmt>>, NoMemory>
    ensures { IfOk result (λ copied. copied ≡ body.now) }
{
    match body {
        Some(statement) => {
            let copied = copy_statement(alloc, statement.get())?;
            Ok(Some(Boxed::new(alloc, copied)?))
        }
        None => Ok(None),
    }
}

fn copy_class(alloc: Global, name: &Text, base: &Option<Text>) -> Result<Stmt, NoMemory>
    ensures { IfOk result (λ copied. copied ≡ leaf.Class name.now base.now) }
{
    Ok(Stmt::Class(copy_text(alloc, name)?, copy_optional_text(alloc, base)?))
}

// Below, a tree waits in a box while others are copied.

fn copy_assignment(
    alloc: Global,
    op: AssignOp,
    target: &Expr,
    value: &Expr,
) -> Result<Stmt, NoMemory>
    ensures { IfOk result (λ copied. copied ≡ leaf.Assign op target.now value.now) }
{
    let target = copy_into_box(alloc, target)?;
    let value = copy_expression(alloc, value)?;
    Ok(Stmt::Assign(op, target.into_inner(), value))
}

fn copy_join(alloc: Global, target: &Expr, value: &Expr) -> Result<Stmt, NoMemory>
    ensures { IfOk result (λ copied. copied ≡ leaf.JoinLambda target.now value.now) }
{
    let target = copy_into_box(alloc, target)?;
    let value = copy_expression(alloc, value)?;
    Ok(Stmt::JoinLambda(target.into_inner(), value))
}

fn copy_note(
    alloc: Global,
    target: &Expr,
    note: &Expr,
    value: &Option<Expr>,
) -> Result<Stmt, NoMemory>
    ensures { IfOk result (λ copied. copied ≡ leaf.Note target.now note.now value.now) }
{
    let target = copy_into_box(alloc, target)?;
    let note = copy_into_box(alloc, note)?;
    let value = copy_optional(alloc, value)?;
    Ok(Stmt::Note(target.into_inner(), note.into_inner(), unboxed(value)))
}

fn copy_parameters(alloc: Global, parameters: &[Par]) -> Result<List<Par>, NoMemory>
    ensures { IfOk result (λ copied. copied ≡ parameters.now) }
{
    let mut copied = List::new(alloc);
    for parameter in parameters {
        copied.push(copy_parameter(alloc, parameter)?)?;
    }
    Ok(copied)
}

fn copy_parameter(alloc: Global, parameter: &Par) -> Result<Par, NoMemory>
    ensures { IfOk result (λ copied. copied ≡ parameter.now) }
{
    let name = copy_text(alloc, &parameter.name)?;
    let note = copy_optional(alloc, &parameter.note)?;
    let default = copy_optional(alloc, &parameter.default)?;
    Ok(Par {
        name,
        note: unboxed(note),
        default: unboxed(default),
    })
}

/// A copy of the expression, if there is one.
fn copy_optional(alloc: Global, tree: &Option<Expr>) -> Result<Option<Boxed<Expr>>, NoMemory>
    ensures { IfOk result (λ copied. copied ≡ tree.now) }
{
    match tree {
        Some(tree) => Ok(Some(copy_into_box(alloc, tree)?)),
        None => Ok(None),
    }
}

fn copy_into_box(alloc: Global, tree: &Expr) -> Result<Boxed<Expr>, NoMemory>
    ensures { IfOk result (λ copied. copied ≡ tree.now) }
{
    Ok(Boxed::new(alloc, copy_expression(alloc, tree)?)?)
}

fn unboxed(tree: Option<Boxed<Expr>>) -> Option<Expr>
    ensures { result ≡ tree }
{
    match tree {
        Some(tree) => Some(tree.into_inner()),
        None => None,
    }
}
