//! Operators of expressions.
ghost use Rattle.std.specs.Prelude.{◌≡◌, List, MatchOption};
ghost use Rattle.pm_grammar.specs.Levels as spec;
ghost use Rattle.pm_grammar.specs.Operations.{IsNextOperator, IsNoOperator};
ghost use Rattle.pm_grammar.specs.Operations as operations;

use crate::level::Level;
use crate::tokens::{is_symbol, is_word};
use pm_syn::{BinaryOp, Token, UnaryOp};

/// An operator between two operands, and its level.
#[derive(Clone, Copy)]
pub(crate) struct Operator {
    pub op: BinaryOp,
    pub level: Level,
}

/// The levels of the operators between two operands.
const LEVELS: [Level; 10] = [
    Level::Disjunction,
    Level::Conjunction,
    Level::Comparison,
    Level::BitOr,
    Level::BitXor,
    Level::BitAnd,
    Level::Shift,
    Level::Sum,
    Level::Product,
    Level::Power,
];

/// The operator with which the tokens begin and the tokens after it, if it continues an operation of this level after an
/// operand of the level `bound`.
pub(crate) fn operator_after(
    level: Level,
    bound: Level,
    tokens: &[Token],
) -> Option<(Operator, &[Token])>
    ensures { MatchOption result (IsNoOperator level bound tokens.now) (λ p. IsNextOperator level bound tokens.now p.0 p.1.now) }
{
    let (first, tail) = tokens.split_first()?;
    let at = level_of(first)?;
    let op = operator_at(at, first)?;
    if continues_by(level, bound, at) {
        Some((Operator { op, level: at }, tail))
    } else {
        None
    }
}

/// The level at which the token is an operator between two operands, if it is one.
fn level_of(token: &Token) -> Option<Level>
    ensures { result ≡ operations.level_of token.now }
{
    let levels: [Level; 10] = LEVELS;
    first_of(levels.as_slice(), token)
}

/// The first of these levels at which the token is an operator between two operands.
fn first_of(levels: &[Level], token: &Token) -> Option<Level>
    ensures { result ≡ operations.first_of levels.now token.now }
{
    for at in levels {
        if operator_at(*at, token).is_some() {
            return Some(*at);
        }
    }
    None
}

/// Whether an operator of the level `at` continues an operation of this level after an operand of the level `bound`.
fn continues_by(level: Level, bound: Level, at: Level) -> bool
    ensures { result ≡ operations.continues_by level bound at }
{
    level.rank() <= at.rank()
        && (at.rank() < bound.rank() || (at.rank() == bound.rank() && at.groups_left()))
}

/// The operator between two operands that the token is at a level, if it is one.
pub(crate) fn operator_at(level: Level, token: &Token) -> Option<BinaryOp>
    ensures { result ≡ spec.operator_at level token.now }
{
    match level {
        Level::Disjunction => is_word(b"or", token).then_some(BinaryOp::Or),
        Level::Conjunction => is_word(b"and", token).then_some(BinaryOp::And),
        Level::Comparison => comparison_of(token),
        Level::BitOr => is_symbol(b"|", token).then_some(BinaryOp::BitOr),
        Level::BitXor => is_symbol(b"^", token).then_some(BinaryOp::BitXor),
        Level::BitAnd => is_symbol(b"&", token).then_some(BinaryOp::BitAnd),
        Level::Shift => shift_of(token),
        Level::Sum => sum_of(token),
        Level::Product => product_of(token),
        Level::Power => is_symbol(b"**", token).then_some(BinaryOp::Pow),
        Level::Conditional | Level::Negation | Level::Unary | Level::Postfix | Level::Atom => None,
    }
}

/// The comparison that the token is, if it is one.
fn comparison_of(token: &Token) -> Option<BinaryOp>
    ensures { result ≡ spec.operator_at Level.Comparison token.now }
{
    if is_symbol(b"==", token) {
        Some(BinaryOp::Eq)
    } else if is_symbol(b"!=", token) {
        Some(BinaryOp::Ne)
    } else if is_symbol(b"<", token) {
        Some(BinaryOp::Lt)
    } else if is_symbol(b"<=", token) {
        Some(BinaryOp::Le)
    } else if is_symbol(b">", token) {
        Some(BinaryOp::Gt)
    } else if is_symbol(b">=", token) {
        Some(BinaryOp::Ge)
    } else {
        None
    }
}

/// The shift that the token is, if it is one.
fn shift_of(token: &Token) -> Option<BinaryOp>
    ensures { result ≡ spec.operator_at Level.Shift token.now }
{
    if is_symbol(b"<<", token) {
        Some(BinaryOp::Shl)
    } else if is_symbol(b">>", token) {
        Some(BinaryOp::Shr)
    } else {
        None
    }
}

/// The operator of a sum that the token is, if it is one.
fn sum_of(token: &Token) -> Option<BinaryOp>
    ensures { result ≡ spec.operator_at Level.Sum token.now }
{
    if is_symbol(b"+", token) {
        Some(BinaryOp::Add)
    } else if is_symbol(b"-", token) {
        Some(BinaryOp::Sub)
    } else {
        None
    }
}

/// The operator of a product that the token is, if it is one.
fn product_of(token: &Token) -> Option<BinaryOp>
    ensures { result ≡ spec.operator_at Level.Product token.now }
{
    if is_symbol(b"*", token) {
        Some(BinaryOp::Mul)
    } else if is_symbol(b"//", token) {
        Some(BinaryOp::FloorDiv)
    } else if is_symbol(b"%", token) {
        Some(BinaryOp::Mod)
    } else {
        None
    }
}

/// The operator before an operand that the token is, if it is one.
pub(crate) fn sign_of(token: &Token) -> Option<UnaryOp>
    ensures { result ≡ spec.sign_of token.now }
{
    if is_symbol(b"-", token) {
        Some(UnaryOp::Minus)
    } else if is_symbol(b"+", token) {
        Some(UnaryOp::Plus)
    } else if is_symbol(b"~", token) {
        Some(UnaryOp::Invert)
    } else {
        None
    }
}
