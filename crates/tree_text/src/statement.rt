//! Statements and nodes as texts.
use crate::expression::{Written, write_expression, write_range, write_word};
use pm_io::Boxed;
use pm_syn::{AssignOp, Expr, Node, Par, Stmt};
use std::alloc::{AllocError, Global};

/// Writes the nodes, with a blank before each. Nothing is promised of the text.
#[cycle(nodes)]
pub fn write_nodes(alloc: Global, nodes: &[Node], text: &mut Vec<u8>) -> Result<(), AllocError> {
    for node in nodes {
        write_node(alloc, node, text)?;
    }
    Ok(())
}

#[cycle(nodes)]
fn write_node(alloc: Global, node: &Node, text: &mut Vec<u8>) -> Written {
    write_word(format!(in alloc; "{}", node.line)?.as_bytes(), text)?;
    if !node.body.is_empty() {
        write_word(b"[", text)?;
        write_nodes(alloc, node.body.as_slice(), text)?;
        write_word(b"]", text)?;
    }
    Ok(())
}

/// Writes the statement, with no blank before it. Nothing is promised of the text.
#[cycle(statement)]
pub fn write_statement(
    alloc: Global,
    statement: &Stmt,
    text: &mut Vec<u8>,
) -> Result<(), AllocError> {
    text.extend_from_slice(b"(")?;
    text.extend_from_slice(sort_of(statement).as_bytes())?;
    match statement {
        Stmt::Import | Stmt::Doc | Stmt::Pass => {}
        Stmt::Class(name, base) => {
            write_word(name.as_slice(), text)?;
            match base {
                Some(base) => write_word(base.as_slice(), text)?,
                None => write_word(b"-", text)?,
            }
        }
        Stmt::Def(name, has_self, parameters, note, body) => {
            write_word(name.as_slice(), text)?;
            write_signature(alloc, *has_self, parameters.as_slice(), text)?;
            write_option(alloc, note, text)?;
            write_behind(alloc, body, text)?;
        }
        Stmt::Mark(name) => write_word(name.as_slice(), text)?,
        Stmt::NonBlocking(a) | Stmt::Return(a) | Stmt::Assert(a) | Stmt::Do(a) => {
            write_expression(alloc, a, text)?;
        }
        Stmt::If(condition, body) | Stmt::Elif(condition, body) => {
            write_expression(alloc, condition, text)?;
            write_behind(alloc, body, text)?;
        }
        Stmt::Else(body) => write_behind(alloc, body, text)?,
        Stmt::For(name, bounds, body) => {
            write_range(alloc, name, bounds.as_slice(), text)?;
            write_behind(alloc, body, text)?;
        }
        Stmt::Assign(op, target, value) => {
            write_word(assignment(*op).as_bytes(), text)?;
            write_expression(alloc, target, text)?;
            write_expression(alloc, value, text)?;
        }
        Stmt::JoinLambda(target, value) => {
            write_expression(alloc, target, text)?;
            write_expression(alloc, value, text)?;
        }
        Stmt::Note(target, note, value) => {
            write_expression(alloc, target, text)?;
            write_expression(alloc, note, text)?;
            write_option(alloc, value, text)?;
        }
    }
    text.extend_from_slice(b")")
}

// Writes a blank and the statement behind a header's colon.
#[cycle(statement)]
fn write_behind(alloc: Global, body: &Option<Boxed<Stmt>>, text: &mut Vec<u8>) -> Written {
    match body {
        Some(statement) => {
            text.extend_from_slice(b" ")?;
            write_statement(alloc, statement.get(), text)
        }
        None => write_word(b"-", text),
    }
}

fn sort_of(statement: &Stmt) -> &'static str {
    match statement {
        Stmt::Import => "import",
        Stmt::Doc => "doc",
        Stmt::Pass => "pass",
        Stmt::Class(_, _) => "class",
        Stmt::Def(_, _, _, _, _) => "def",
        Stmt::Mark(_) => "mark",
        Stmt::NonBlocking(_) => "non_blocking",
        Stmt::Return(_) => "return",
        Stmt::Assert(_) => "assert",
        Stmt::If(_, _) => "if",
        Stmt::Elif(_, _) => "elif",
        Stmt::Else(_) => "else",
        Stmt::For(_, _, _) => "for",
        Stmt::Assign(_, _, _) => "assign",
        Stmt::JoinLambda(_, _) => "join_lambda",
        Stmt::Note(_, _, _) => "note",
        Stmt::Do(_) => "do",
    }
}

fn assignment(op: AssignOp) -> &'static str {
    match op {
        AssignOp::Plain => "=",
        AssignOp::Now => "@=",
        AssignOp::Next => "<<=",
        AssignOp::Join => "//=",
    }
}

// Writes what stands between the parentheses of a function.
fn write_signature(alloc: Global, has_self: bool, others: &[Par], text: &mut Vec<u8>) -> Written {
    text.extend_from_slice(b" (")?;
    if has_self {
        text.extend_from_slice(b"s")?;
    }
    for parameter in others {
        text.extend_from_slice(b" (")?;
        text.extend_from_slice(parameter.name.as_slice())?;
        write_option(alloc, &parameter.note, text)?;
        write_option(alloc, &parameter.default, text)?;
        text.extend_from_slice(b")")?;
    }
    text.extend_from_slice(b")")
}

fn write_option(alloc: Global, tree: &Option<Expr>, text: &mut Vec<u8>) -> Written {
    match tree {
        Some(tree) => write_expression(alloc, tree, text),
        None => write_word(b"-", text),
    }
}
