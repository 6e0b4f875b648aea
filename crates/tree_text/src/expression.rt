//! Expressions as texts.
use pm_io::Text;
use pm_syn::{Arg, BinaryOp, Expr, UnaryOp};
use std::alloc::{AllocError, Global};

pub(crate) type Written = Result<(), AllocError>;

// Writes a blank and the expression.
#[cycle(expression)]
pub(crate) fn write_expression(alloc: Global, tree: &Expr, text: &mut Vec<u8>) -> Written {
    match tree {
        Expr::Name(name) => return write_word(name.as_slice(), text),
        Expr::Int(value) => return write_word(format!(in alloc; "{value}")?.as_bytes(), text),
        Expr::Bool(true) => return write_word(b"True", text),
        Expr::Bool(false) => return write_word(b"False", text),
        _ => text.extend_from_slice(b" (")?,
    }
    text.extend_from_slice(operation(tree).as_bytes())?;
    match tree {
        Expr::Name(_) | Expr::Int(_) | Expr::Bool(_) => {}
        Expr::Unary(_, a) => write_expression(alloc, a.get(), text)?,
        Expr::Binary(_, a, b) | Expr::Index(a, b) => {
            write_expression(alloc, a.get(), text)?;
            write_expression(alloc, b.get(), text)?;
        }
        Expr::Cond(a, b, c) | Expr::Slice(a, b, c) => {
            write_expression(alloc, a.get(), text)?;
            write_expression(alloc, b.get(), text)?;
            write_expression(alloc, c.get(), text)?;
        }
        Expr::Attr(a, name) => {
            write_expression(alloc, a.get(), text)?;
            write_word(name.as_slice(), text)?;
        }
        Expr::Call(a, arguments) => {
            write_expression(alloc, a.get(), text)?;
            write_arguments(alloc, arguments.as_slice(), text)?;
        }
        Expr::Items(items) => write_expressions(alloc, items.as_slice(), text)?,
        Expr::Each(a, name, bounds) => {
            write_expression(alloc, a.get(), text)?;
            write_range(alloc, name, bounds.as_slice(), text)?;
        }
    }
    text.extend_from_slice(b")")
}

// Writes the name that goes over a range, and the range.
#[cycle(expression)]
pub(crate) fn write_range(
    alloc: Global,
    name: &Text,
    bounds: &[Expr],
    text: &mut Vec<u8>,
) -> Written {
    write_word(name.as_slice(), text)?;
    text.extend_from_slice(b" (range")?;
    write_expressions(alloc, bounds, text)?;
    text.extend_from_slice(b")")
}

#[cycle(expression)]
fn write_expressions(alloc: Global, trees: &[Expr], text: &mut Vec<u8>) -> Written {
    for tree in trees {
        write_expression(alloc, tree, text)?;
    }
    Ok(())
}

#[cycle(expression)]
fn write_arguments(alloc: Global, arguments: &[Arg], text: &mut Vec<u8>) -> Written {
    for argument in arguments {
        match &argument.name {
            Some(name) => {
                text.extend_from_slice(b" (named")?;
                write_word(name.as_slice(), text)?;
                write_expression(alloc, &argument.value, text)?;
                text.extend_from_slice(b")")?;
            }
            None => write_expression(alloc, &argument.value, text)?,
        }
    }
    Ok(())
}

// Writes a blank and the word.
pub(crate) fn write_word(word: &[u8], text: &mut Vec<u8>) -> Written {
    text.extend_from_slice(b" ")?;
    text.extend_from_slice(word)
}

fn operation(tree: &Expr) -> &'static str {
    match tree {
        Expr::Name(_) | Expr::Int(_) | Expr::Bool(_) => "leaf",
        Expr::Unary(op, _) => sign(*op),
        Expr::Binary(op, _, _) => operator(*op),
        Expr::Cond(_, _, _) => "cond",
        Expr::Attr(_, _) => "attr",
        Expr::Call(_, _) => "call",
        Expr::Index(_, _) => "index",
        Expr::Slice(_, _, _) => "slice",
        Expr::Items(_) => "list",
        Expr::Each(_, _, _) => "each",
    }
}

fn sign(op: UnaryOp) -> &'static str {
    match op {
        UnaryOp::Minus => "-",
        UnaryOp::Plus => "+",
        UnaryOp::Invert => "~",
        UnaryOp::Not => "not",
    }
}

fn operator(op: BinaryOp) -> &'static str {
    match op {
        BinaryOp::Or => "or",
        BinaryOp::And => "and",
        BinaryOp::Eq => "==",
        BinaryOp::Ne => "!=",
        BinaryOp::Lt => "<",
        BinaryOp::Le => "<=",
        BinaryOp::Gt => ">",
        BinaryOp::Ge => ">=",
        BinaryOp::BitOr => "|",
        BinaryOp::BitXor => "^",
        BinaryOp::BitAnd => "&",
        BinaryOp::Shl => "<<",
        BinaryOp::Shr => ">>",
        BinaryOp::Add => "+",
        BinaryOp::Sub => "-",
        BinaryOp::Mul => "*",
        BinaryOp::FloorDiv => "//",
        BinaryOp::Mod => "%",
        BinaryOp::Pow => "**",
    }
}
