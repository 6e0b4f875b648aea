//! Copies of expressions.
ghost use Rattle.std.specs.Prelude.{◌≡◌, IfOk};

use pm_io::{Boxed, List, NoMemory, Text};
use pm_syn::{Arg, Expr};
use std::alloc::Global;

/// A copy of the expression.
#[cycle(expression)]
pub fn copy_expression(alloc: Global, tree: &Expr) -> Result<Expr, NoMemory>
    ensures { IfOk result (λ copied. copied ≡ tree.now) }
{
    match tree {
        Expr::Name(name) => Ok(Expr::Name(copy_text(alloc, name)?)),
        Expr::Int(value) => Ok(Expr::Int(*value)),
        Expr::Bool(value) => Ok(Expr::Bool(*value)),
        Expr::Unary(op, operand) => Ok(Expr::Unary(*op, copy_boxed(alloc, operand)?)),
        Expr::Binary(op, left, right) => Ok(Expr::Binary(
            *op,
            copy_boxed(alloc, left)?,
            copy_boxed(alloc, right)?,
        )),
        Expr::Cond(value, condition, other) => Ok(Expr::Cond(
            copy_boxed(alloc, value)?,
            copy_boxed(alloc, condition)?,
            copy_boxed(alloc, other)?,
        )),
        Expr::Attr(base, name) => Ok(Expr::Attr(copy_boxed(alloc, base)?, copy_text(alloc, name)?)),
        Expr::Call(callee, arguments) => Ok(Expr::Call(
            copy_boxed(alloc, callee)?,
            copy_arguments(alloc, arguments.as_slice())?,
        )),
        Expr::Index(base, at) => Ok(Expr::Index(copy_boxed(alloc, base)?, copy_boxed(alloc, at)?)),
        Expr::Slice(base, low, high) => Ok(Expr::Slice(
            copy_boxed(alloc, base)?,
            copy_boxed(alloc, low)?,
            copy_boxed(alloc, high)?,
        )),
        Expr::Items(items) => Ok(Expr::Items(copy_expressions(alloc, items.as_slice())?)),
        Expr::Each(element, name, bounds) => Ok(Expr::Each(
            copy_boxed(alloc, element)?,
            copy_text(alloc, name)?,
            copy_expressions(alloc, bounds.as_slice())?,
        )),
    }
}

#[cycle(expression)]
fn copy_boxed(alloc: Global, tree: &Boxed<Expr>) -> Result<Boxed<Expr>, NoMemory>
    ensures { IfOk result (λ copied. copied ≡ tree.now) }
{
    Ok(Boxed::new(alloc, copy_expression(alloc, tree.get())?)?)
}

#[cycle(expression)]
pub(crate) fn copy_expressions(alloc: Global, trees: &[Expr]) -> Result<List<Expr>, NoMemory>
    ensures { IfOk result (λ copied. copied ≡ trees.now) }
{
    let mut copied = List::new(alloc);
    for tree in trees {
        copied.push(copy_expression(alloc, tree)?)?;
    }
    Ok(copied)
}

#[cycle(expression)]
fn copy_arguments(alloc: Global, arguments: &[Arg]) -> Result<List<Arg>, NoMemory>
    ensures { IfOk result (λ copied. copied ≡ arguments.now) }
{
    let mut copied = List::new(alloc);
    for argument in arguments {
        copied.push(copy_argument(alloc, argument)?)?;
    }
    Ok(copied)
}

#[cycle(expression)]
fn copy_argument(alloc: Global, argument: &Arg) -> Result<Arg, NoMemory>
    ensures { IfOk result (λ copied. copied ≡ argument.now) }
{
    Ok(Arg {
        name: copy_optional_text(alloc, &argument.name)?,
        value: copy_expression(alloc, &argument.value)?,
    })
}

pub(crate) fn copy_text(alloc: Global, text: &Text) -> Result<Text, NoMemory>
    ensures { IfOk result (λ copied. copied ≡ text.now) }
{
    Text::from_slice(alloc, text.as_slice())
}

pub(crate) fn copy_optional_text(
    alloc: Global,
    text: &Option<Text>,
) -> Result<Option<Text>, NoMemory>
    ensures { IfOk result (λ copied. copied ≡ text.now) }
{
    match text {
        Some(text) => Ok(Some(copy_text(alloc, text)?)),
        None => Ok(None),
    }
}
