//! Integers of 64 bits, with Python's operators.
ghost use Rattle.std.specs.Prelude.{◌≡◌, ℤ, pos, ◌<ℤ◌, MatchOption, unsigned_abs};
ghost use Rattle.pm_values.specs.Integers as spec;
ghost use Rattle.pm_values.specs.Integers.{IsCeilingLog};

use pm_syn::{BinaryOp, UnaryOp};

/// The result of an operator on two integers, or `None` if it has none that fits 64 bits.
///
/// `and` and `or` return the operand that settles them, as Python does. A caller that doesn't evaluate an operand that
/// isn't needed looks at the first one itself.
#[tactic(auto, unfolding(crate::specs::Integers::operated))]
pub fn operated(op: BinaryOp, a: i64, b: i64) -> Option<i64>
    ensures { result ≡ spec.operated op a b }
{
    match op {
        BinaryOp::Or => Some(if a == 0 { b } else { a }),
        BinaryOp::And => Some(if a == 0 { a } else { b }),
        BinaryOp::Eq => Some(truth(a == b)),
        BinaryOp::Ne => Some(truth(a != b)),
        BinaryOp::Lt => Some(truth(a < b)),
        BinaryOp::Le => Some(truth(a <= b)),
        BinaryOp::Gt => Some(truth(b < a)),
        BinaryOp::Ge => Some(truth(b <= a)),
        BinaryOp::BitOr => Some(a | b),
        BinaryOp::BitXor => Some(a ^ b),
        BinaryOp::BitAnd => Some(a & b),
        BinaryOp::Shl => shifted_left(a, b),
        BinaryOp::Shr => shifted_right(a, b),
        BinaryOp::Add => sum(a, b),
        BinaryOp::Sub => difference(a, b),
        BinaryOp::Mul => product(a, b),
        BinaryOp::FloorDiv => quotient(a, b),
        BinaryOp::Mod => remainder(a, b),
        BinaryOp::Pow => power(a, b),
    }
}

/// The result of an operator before an integer, or `None` if it doesn't fit 64 bits.
#[tactic(auto, unfolding(crate::specs::Integers::applied))]
pub fn applied(op: UnaryOp, a: i64) -> Option<i64>
    ensures { result ≡ spec.applied op a }
{
    match op {
        UnaryOp::Minus => negative(a),
        UnaryOp::Plus => Some(a),
        UnaryOp::Invert => Some(!a),
        UnaryOp::Not => Some(truth(a == 0)),
    }
}

fn truth(holds: bool) -> i64
    ensures { result ≡ spec.truth holds }
{
    if holds { 1 } else { 0 }
}

#[tactic(auto, using(crate::proofs::Ranges::in_range_is))]
fn sum(a: i64, b: i64) -> Option<i64>
    ensures { result ≡ spec.sum a b }
{
    a.checked_add(b)
}

#[tactic(auto, using(crate::proofs::Ranges::in_range_is))]
fn difference(a: i64, b: i64) -> Option<i64>
    ensures { result ≡ spec.difference a b }
{
    a.checked_sub(b)
}

#[tactic(auto, using(crate::proofs::Ranges::in_range_is))]
fn product(a: i64, b: i64) -> Option<i64>
    ensures { result ≡ spec.product a b }
{
    a.checked_mul(b)
}

#[tactic(auto, using(crate::proofs::Ranges::in_range_is))]
fn negative(a: i64) -> Option<i64>
    ensures { result ≡ spec.negative a }
{
    a.checked_neg()
}

/// The number, if it fits 64 bits.
fn in_range(number: i128) -> Option<i64>
    ensures { result ≡ spec.in_range number }
{
    i64::try_from(number).ok()
}

#[tactic(auto, unfolding(crate::specs::Integers::quotient))]
fn quotient(a: i64, b: i64) -> Option<i64>
    ensures { result ≡ spec.quotient a b }
{
    if b == 0 {
        return None;
    }
    let (a, b) = (a as i128, b as i128);
    if 0 < b {
        in_range(a.div_euclid(b))
    } else {
        in_range((-a).div_euclid(-b))
    }
}

#[tactic(auto, unfolding(crate::specs::Integers::remainder))]
fn remainder(a: i64, b: i64) -> Option<i64>
    ensures { result ≡ spec.remainder a b }
{
    if b == 0 {
        return None;
    }
    let (a, b) = (a as i128, b as i128);
    if 0 < b {
        in_range(a.rem_euclid(b))
    } else {
        in_range(-(-a).rem_euclid(-b))
    }
}

/// A shift amount of 0 to 63.
fn shift_amount(b: i64) -> Option<u32>
    ensures { result ≡ spec.shift_amount b }
{
    if 0 <= b && b <= 63 {
        Some(b as u32)
    } else {
        None
    }
}

#[tactic(auto, unfolding(crate::specs::Integers::shifted_left))]
fn shifted_left(a: i64, b: i64) -> Option<i64>
    ensures { result ≡ spec.shifted_left a b }
{
    let n = shift_amount(b)?;
    in_range((a as i128).checked_mul(2i128.pow(n))?)
}

#[tactic(auto, unfolding(crate::specs::Integers::shifted_right))]
fn shifted_right(a: i64, b: i64) -> Option<i64>
    ensures { result ≡ spec.shifted_right a b }
{
    let n = shift_amount(b)?;
    Some(a >> n)
}

/// An exponent with the same result: of those over 64, only whether they are even or odd matters.
fn least_exponent(b: i64) -> Option<u32>
    ensures { result ≡ spec.least_exponent b }
{
    if b < 0 {
        None
    } else if b <= 64 {
        Some(b as u32)
    } else {
        Some(64 + (b % 2) as u32)
    }
}

#[tactic(auto, unfolding(crate::specs::Integers::power))]
fn power(a: i64, b: i64) -> Option<i64>
    ensures { result ≡ spec.power a b }
{
    a.checked_pow(least_exponent(b)?)
}

/// The least k for which 2 to the k is at least the number, or `None` below 1.
#[tactic(auto, unfolding(crate::specs::Integers::ceiling_log))]
pub fn ceiling_log(n: i64) -> Option<u32>
    ensures least { MatchOption result (n <ℤ pos 1) (λ k. IsCeilingLog (unsigned_abs n) k) }
    ensures value { result ≡ spec.ceiling_log n }
{
    if n < 1 {
        None
    } else if n == 1 {
        Some(0)
    } else {
        Some((n - 1).ilog2() + 1)
    }
}
