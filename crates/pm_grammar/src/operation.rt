//! Reading expressions: operations on operands.
//!
//! One function reads operations of all levels, by precedence climbing, so that an expression in brackets costs few calls
//! on the stack.
ghost use Rattle.std.specs.Prelude.{◌≤◌, IfOk};
ghost use Rattle.pm_grammar.specs.Expressions.{Spells};
ghost use Rattle.pm_grammar.specs.Reading.{Begins};
ghost use Rattle.pm_grammar.specs.Operations.{ContinuesFrom, IsOperandLevel};
ghost use Rattle.pm_grammar.specs.Levels as levels;
ghost use Rattle.pm_grammar.specs.Readings.{Leaves, Reads, ReadsEachExpression, Shortens};

use crate::level::Level;
use crate::operand::signed;
use crate::operator::operator_after;
use crate::reading::{ReadFault, Reading, boxed};
use crate::tokens::after_word;
use pm_io::Boxed;
use pm_syn::{Expr, Token, UnaryOp};
use std::alloc::Global;

/// Reads an expression.
#[cycle(parse)]
pub(crate) fn expression(alloc: Global, tokens: &[Token]) -> Reading<'_, Boxed<Expr>>
    ensures found { Reads (Spells Level.Conditional) tokens.now result }
    ensures only { ReadsEachExpression Level.Conditional tokens.now result }
    ensures shorter { Shortens tokens.now result }
{
    let (value, rest) = operation(alloc, Level::Disjunction, tokens)?;
    let Some(tail) = after_word(rest, b"if") else {
        return Ok((value, rest));
    };
    let (condition, rest) = operation(alloc, Level::Disjunction, tail)?;
    let Some(tail) = after_word(rest, b"else") else {
        return Err(ReadFault::NotSpelled);
    };
    let (other, rest) = expression(alloc, tail)?;
    boxed(alloc, Expr::Cond(value, condition, other), rest)
}

/// Reads an operation of a level from `or` to the signs before an operand.
#[cycle(parse)]
fn operation(alloc: Global, level: Level, tokens: &[Token]) -> Reading<'_, Boxed<Expr>>
    requires loosest { 1 ≤ levels.rank level }
    requires tightest { levels.rank level ≤ 11 }
    ensures found { Reads (Spells level) tokens.now result }
    ensures only { ReadsEachExpression level tokens.now result }
    ensures shorter { Shortens tokens.now result }
{
    let (first, mut rest) = operand(alloc, level, tokens)?;
    let (mut tree, mut bound) = first;
    'operators: while let Some((operator, tail)) = operator_after(level, bound, rest) {
        let (right, after) = operation(alloc, operator.level.tighter(), tail)?;
        tree = Boxed::new(alloc, Expr::Binary(operator.op, tree, right))?;
        bound = operator.level;
        rest = after;
    }
    Ok((tree, rest))
}

/// Reads the first operand of an operation, and its level: a negation, if the operation's level allows one, or an operand
/// with its signs.
#[cycle(parse)]
fn operand(alloc: Global, level: Level, tokens: &[Token]) -> Reading<'_, (Boxed<Expr>, Level)>
    requires loosest { 1 ≤ levels.rank level }
    requires tightest { levels.rank level ≤ 11 }
    ensures found { IfOk result (λ p. Begins (Spells p.0.1) tokens.now p.0.0 p.1.now × IsOperandLevel level p.0.1) }
    ensures only { Leaves (ContinuesFrom level tokens.now) result }
    ensures shorter { Shortens tokens.now result }
{
    if level.rank() <= Level::Negation.rank() {
        if let Some(tail) = after_word(tokens, b"not") {
            let (operand, rest) = operation(alloc, Level::Negation, tail)?;
            let negation = Boxed::new(alloc, Expr::Unary(UnaryOp::Not, operand))?;
            return Ok(((negation, Level::Negation), rest));
        }
    }
    let (operand, rest) = signed(alloc, tokens)?;
    Ok(((operand, Level::Unary), rest))
}
