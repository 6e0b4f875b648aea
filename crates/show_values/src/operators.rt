//! Operators by their signs. Each function returns `None` for a sign that it doesn't know.
use pm_syn::{BinaryOp, UnaryOp};

pub fn between(sign: &str) -> Option<BinaryOp> {
    match sign {
        "or" => Some(BinaryOp::Or),
        "and" => Some(BinaryOp::And),
        "==" => Some(BinaryOp::Eq),
        "!=" => Some(BinaryOp::Ne),
        "<" => Some(BinaryOp::Lt),
        "<=" => Some(BinaryOp::Le),
        ">" => Some(BinaryOp::Gt),
        ">=" => Some(BinaryOp::Ge),
        "|" => Some(BinaryOp::BitOr),
        "^" => Some(BinaryOp::BitXor),
        _ => arithmetic(sign),
    }
}

fn arithmetic(sign: &str) -> Option<BinaryOp> {
    match sign {
        "&" => Some(BinaryOp::BitAnd),
        "<<" => Some(BinaryOp::Shl),
        ">>" => Some(BinaryOp::Shr),
        "+" => Some(BinaryOp::Add),
        "-" => Some(BinaryOp::Sub),
        "*" => Some(BinaryOp::Mul),
        "//" => Some(BinaryOp::FloorDiv),
        "%" => Some(BinaryOp::Mod),
        "**" => Some(BinaryOp::Pow),
        _ => None,
    }
}

pub fn before(sign: &str) -> Option<UnaryOp> {
    match sign {
        "-" => Some(UnaryOp::Minus),
        "+" => Some(UnaryOp::Plus),
        "~" => Some(UnaryOp::Invert),
        "not" => Some(UnaryOp::Not),
        _ => None,
    }
}
