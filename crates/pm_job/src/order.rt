//! An order of the update blocks in which each comes after the blocks that it reads from.
ghost use Rattle.std.specs.Prelude.{◌≡◌, ◌↔◌, IfOk, IfSome, IsNone};
ghost use Rattle.std.specs.List.{position};
ghost use Rattle.pm_job.specs.Reads as spec;
ghost use Rattle.pm_job.specs.Precedence.{HasLoop, IsArrangement, indices_of, precedes as spec_precedes, is_free as spec_is_free};

use crate::component::{Assignment, Expression, Operand};
use pm_io::NoMemory;
use std::alloc::Global;

/// The indices of the blocks in an order in which no block reads what a later one assigns, or `None` if and only if
/// there is a loop. A block that reads its own target is no loop.
pub fn order_of(alloc: Global, blocks: &[Assignment]) -> Result<Option<Vec<usize>>, NoMemory>
    ensures ordered { IfOk result (λ found. IfSome found (λ order. IsArrangement blocks.now order.items)) }
    ensures looped { IfOk result (λ found. IsNone found ↔ HasLoop blocks.now) }
{
    let mut left = indices_in_order(alloc, blocks.len())?;
    let mut order = Vec::new(alloc);
    for _round in 0..blocks.len() {
        let Some(next) = first_free(blocks, left.as_slice()) else {
            return Ok(None);
        };
        order.push(left.remove(next))?;
    }
    Ok(Some(order))
}

// The indices of the given number of blocks.
fn indices_in_order(alloc: Global, count: usize) -> Result<Vec<usize>, NoMemory>
    ensures { IfOk result (λ indices. indices.items ≡ indices_of count) }
{
    let mut indices = Vec::new(alloc);
    for index in 0..count {
        indices.push(index)?;
    }
    Ok(indices)
}

// The position in `left` of the first block that no other block in `left` precedes.
fn first_free(blocks: &[Assignment], left: &[usize]) -> Option<usize>
    ensures { result ≡ position (spec_is_free blocks.now left.now) left.now }
{
    left.iter().position(|index| is_free(blocks, left, *index))
}

// Whether no block at one of the indices precedes the block at this one.
fn is_free(blocks: &[Assignment], indices: &[usize], index: usize) -> bool
    ensures { result ≡ spec_is_free blocks.now indices.now index }
{
    !indices.iter().any(|other| precedes(blocks, *other, index))
}

// Whether the first block assigns what the second one reads, and they are different blocks.
fn precedes(blocks: &[Assignment], first: usize, second: usize) -> bool
    ensures { result ≡ spec_precedes blocks.now first second }
{
    if first == second {
        return false;
    }
    match (blocks.get(first), blocks.get(second)) {
        (Some(writer), Some(reader)) => reads(writer.target, reader.value),
        _ => false,
    }
}

// Whether an expression reads the signal at an index.
fn reads(index: usize, expression: Expression) -> bool
    ensures { result ≡ spec.reads index expression }
{
    match expression {
        Expression::Just(a) => operand_is(index, a),
        Expression::Both(_, a, b) => operand_is(index, a) || operand_is(index, b),
    }
}

fn operand_is(index: usize, operand: Operand) -> bool
    ensures { result ≡ spec.operand_is index operand }
{
    match operand {
        Operand::Signal(other) => other == index,
        Operand::Constant(_) => false,
    }
}
