//! Methods by their names and operators by their signs. Each function returns `None` for a name that it doesn't know.
use crate::notation::read_value;
use pm_bits::{Bits, Fold, Op};

/// The method or the fold of one value.
pub fn apply_to_one(name: &str, value: Bits) -> Option<Bits> {
    match name {
        "not" => Some(value.not()),
        "reduce_and" => Some(value.reduce_and()),
        "reduce_or" => Some(value.reduce_or()),
        "reduce_xor" => Some(value.reduce_xor()),
        "&" => Some(Fold::All.apply(value)),
        "|" => Some(Fold::Any.apply(value)),
        "^" => Some(Fold::Odd.apply(value)),
        _ => None,
    }
}

/// The method or the operator of two values.
pub fn apply_to_two(left: Bits, name: &str, right: Bits) -> Option<Option<Bits>> {
    if let Some(operator) = operator_of(name) {
        return Some(operator.apply(left, right));
    }
    if let Some(result) = compare(left, name, right) {
        return Some(result);
    }
    match name {
        "add" => Some(left.add(right)),
        "sub" => Some(left.sub(right)),
        "mul" => Some(left.mul(right)),
        "and" => Some(left.and(right)),
        "or" => Some(left.or(right)),
        "xor" => Some(left.xor(right)),
        "shl" => Some(left.shl(right)),
        "shr" => Some(left.shr(right)),
        "concat" => Some(left.concat(right)),
        _ => None,
    }
}

fn compare(left: Bits, name: &str, right: Bits) -> Option<Option<Bits>> {
    match name {
        "eq_bit" => Some(left.eq_bit(right)),
        "ne_bit" => Some(left.ne_bit(right)),
        "lt_bit" => Some(left.lt_bit(right)),
        "le_bit" => Some(left.le_bit(right)),
        "gt_bit" => Some(left.gt_bit(right)),
        "ge_bit" => Some(left.ge_bit(right)),
        _ => None,
    }
}

fn operator_of(sign: &str) -> Option<Op> {
    match sign {
        "+" => Some(Op::Add),
        "-" => Some(Op::Sub),
        "*" => Some(Op::Mul),
        "&" => Some(Op::And),
        "|" => Some(Op::Or),
        "^" => Some(Op::Xor),
        "<<" => Some(Op::Shl),
        ">>" => Some(Op::Shr),
        "==" => Some(Op::Eq),
        "!=" => Some(Op::Ne),
        "<" => Some(Op::Lt),
        "<=" => Some(Op::Le),
        ">" => Some(Op::Gt),
        ">=" => Some(Op::Ge),
        _ => None,
    }
}

/// The method that takes a part of the value or changes its width. Its operands are numbers, and for `with_slice` also a
/// value.
pub fn take_part(value: Bits, name: &str, operands: &str) -> Option<Option<Bits>> {
    match name {
        "zext" => Some(value.zext(operands.parse().ok()?)),
        "sext" => Some(value.sext(operands.parse().ok()?)),
        "trunc" => Some(value.trunc(operands.parse().ok()?)),
        "slice" => {
            let (low, high) = operands.split_once(' ')?;
            let low = low.parse().ok()?;
            Some(value.slice(low, high.parse().ok()?))
        }
        "with_slice" => {
            let (low, part) = operands.split_once(' ')?;
            let low = low.parse().ok()?;
            Some(value.with_slice(low, read_value(part)?))
        }
        _ => None,
    }
}
