//! Copies of typed expressions.
ghost use Rattle.std.specs.Prelude.{◌≡◌, IfOk};

use pm_design::{Ex, Part};
use pm_io::{Boxed, List, NoMemory};
use std::alloc::Global;

/// A copy of the expression.
#[cycle(expression)]
pub(crate) fn copy_expression(alloc: Global, tree: &Ex) -> Result<Ex, NoMemory>
    ensures { IfOk result (λ copied. copied ≡ tree.now) }
{
    match tree {
        Ex::Const(value) => Ok(Ex::Const(*value)),
        Ex::Get(part) => Ok(Ex::Get(*part)),
        Ex::Temp(temp, lo, width) => Ok(Ex::Temp(*temp, *lo, *width)),
        Ex::Pick(index, parts) => Ok(Ex::Pick(
            copy_boxed(alloc, index)?,
            copy_parts(alloc, parts.as_slice())?,
        )),
        Ex::Number(state) => Ok(Ex::Number(*state)),
        Ex::Count(deque) => Ok(Ex::Count(*deque)),
        Ex::Item(deque, at) => Ok(Ex::Item(*deque, *at)),
        Ex::Last(deque) => Ok(Ex::Last(*deque)),
        Ex::Ready(callee) => Ok(Ex::Ready(*callee)),
        Ex::Not(operand) => Ok(Ex::Not(copy_boxed(alloc, operand)?)),
        Ex::Fold(fold, operand) => Ok(Ex::Fold(*fold, copy_boxed(alloc, operand)?)),
        Ex::Bin(op, left, right) => Ok(Ex::Bin(
            *op,
            copy_boxed(alloc, left)?,
            copy_boxed(alloc, right)?,
        )),
        Ex::Cat(trees) => Ok(Ex::Cat(copy_expressions(alloc, trees.as_slice())?)),
        Ex::Zext(operand, width) => Ok(Ex::Zext(copy_boxed(alloc, operand)?, *width)),
        Ex::Sext(operand, width) => Ok(Ex::Sext(copy_boxed(alloc, operand)?, *width)),
        Ex::Trunc(operand, width) => Ok(Ex::Trunc(copy_boxed(alloc, operand)?, *width)),
        Ex::Cond(condition, value, other) => Ok(Ex::Cond(
            copy_boxed(alloc, condition)?,
            copy_boxed(alloc, value)?,
            copy_boxed(alloc, other)?,
        )),
    }
}

#[cycle(expression)]
fn copy_boxed(alloc: Global, tree: &Boxed<Ex>) -> Result<Boxed<Ex>, NoMemory>
    ensures { IfOk result (λ copied. copied ≡ tree.now) }
{
    Ok(Boxed::new(alloc, copy_expression(alloc, tree.get())?)?)
}

#[cycle(expression)]
pub(crate) fn copy_expressions(alloc: Global, trees: &[Ex]) -> Result<List<Ex>, NoMemory>
    ensures { IfOk result (λ copied. copied ≡ trees.now) }
{
    let mut copied = List::new(alloc);
    for tree in trees {
        copied.push(copy_expression(alloc, tree)?)?;
    }
    Ok(copied)
}

pub(crate) fn copy_parts(alloc: Global, parts: &[Part]) -> Result<List<Part>, NoMemory>
    ensures { IfOk result (λ copied. copied ≡ parts.now) }
{
    Ok(List::from_slice(alloc, parts)?)
}

/// A copy of the expression, if there is one.
pub(crate) fn copy_optional(alloc: Global, tree: &Option<Ex>) -> Result<Option<Ex>, NoMemory>
    ensures { IfOk result (λ copied. copied ≡ tree.now) }
{
    match tree {
        Some(tree) => Ok(Some(copy_expression(alloc, tree)?)),
        None => Ok(None),
    }
}
