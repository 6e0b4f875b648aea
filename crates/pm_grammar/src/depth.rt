//! How deep expressions are.
//!
//! An expression without parts, as a name, a number or `[]`, has depth 1. Any other has 1 more than its deepest part. The
//! test visits no part that is deeper than the depth that it allows.
ghost use Rattle.std.specs.Prelude.{◌≡◌, nat_le, map, option_map};
ghost use Rattle.pm_grammar.specs.Depths as spec;

use crate::fault::MAX_DEPTH;
use pm_io::Boxed;
use pm_syn::{Arg, Expr, Par, Stmt};

/// Whether no expression in the statement is deeper than `MAX_DEPTH`.
#[cycle(statement)]
pub fn is_shallow(statement: &Stmt) -> bool
    ensures { result ≡ nat_le (spec.depth_of_statement statement.now) 64 }
{
    match statement {
        Stmt::Import | Stmt::Doc | Stmt::Pass | Stmt::Class(_, _) | Stmt::Mark(_) => true,
        Stmt::NonBlocking(a) | Stmt::Return(a) | Stmt::Assert(a) | Stmt::Do(a) => is_within(
            a, MAX_DEPTH,
        ),
        Stmt::Assign(_, a, b) | Stmt::JoinLambda(a, b) => is_within(a, MAX_DEPTH)
            && is_within(b, MAX_DEPTH),
        Stmt::Note(a, note, value) => {
            is_within(a, MAX_DEPTH)
                && is_within(note, MAX_DEPTH)
                && is_option_within(value, MAX_DEPTH)
        }
        Stmt::Def(_, _, parameters, note, body) => {
            are_parameters_within(parameters.as_slice(), MAX_DEPTH)
                && is_option_within(note, MAX_DEPTH)
                && is_body_shallow(body)
        }
        Stmt::If(condition, body) | Stmt::Elif(condition, body) => {
            is_within(condition, MAX_DEPTH) && is_body_shallow(body)
        }
        Stmt::Else(body) => is_body_shallow(body),
        Stmt::For(_, bounds, body) => are_within(bounds.as_slice(), MAX_DEPTH)
            && is_body_shallow(body),
    }
}

/// Whether no expression in the statement after a header's colon is deeper than `MAX_DEPTH`.
#[cycle(statement)]
fn is_body_shallow(body: &Option<Boxed<Stmt>>) -> bool
    ensures { result ≡ nat_le (spec.depth_of_body (option_map spec.depth_of_statement body.now)) 64 }
{
    match body {
        Some(statement) => is_shallow(statement.get()),
        None => true,
    }
}

/// Whether the annotations and the defaults of the parameters are at most this deep.
fn are_parameters_within(parameters: &[Par], limit: u32) -> bool
    ensures { result ≡ nat_le (spec.greatest (map spec.depth_of_parameter parameters.now)) limit }
{
    for parameter in parameters {
        if !(is_option_within(&parameter.note, limit)
            && is_option_within(&parameter.default, limit))
        {
            return false;
        }
    }
    true
}

/// Whether the expression, if there is one, is at most this deep.
fn is_option_within(tree: &Option<Expr>, limit: u32) -> bool
    ensures { result ≡ nat_le (spec.depth_of_option tree.now) limit }
{
    match tree {
        Some(tree) => is_within(tree, limit),
        None => true,
    }
}

/// Whether the expression is at most this deep.
#[cycle(depth)]
fn is_within(tree: &Expr, limit: u32) -> bool
    ensures { result ≡ nat_le (spec.depth_of tree.now) limit }
{
    if limit == 0 {
        return false;
    }
    let inner = limit - 1;
    match tree {
        Expr::Name(_) | Expr::Int(_) | Expr::Bool(_) => true,
        Expr::Unary(_, a) | Expr::Attr(a, _) => is_within(a.get(), inner),
        Expr::Binary(_, a, b) | Expr::Index(a, b) => is_within(a.get(), inner)
            && is_within(b.get(), inner),
        Expr::Cond(a, b, c) | Expr::Slice(a, b, c) => {
            is_within(a.get(), inner) && is_within(b.get(), inner) && is_within(c.get(), inner)
        }
        Expr::Call(a, arguments) => is_within(a.get(), inner)
            && are_arguments_within(arguments.as_slice(), inner),
        Expr::Items(items) => are_within(items.as_slice(), inner),
        Expr::Each(a, _, bounds) => is_within(a.get(), inner)
            && are_within(bounds.as_slice(), inner),
    }
}

/// Whether each of the expressions is at most this deep.
#[cycle(depth)]
fn are_within(trees: &[Expr], limit: u32) -> bool
    ensures { result ≡ nat_le (spec.greatest (map spec.depth_of trees.now)) limit }
{
    for tree in trees {
        if !is_within(tree, limit) {
            return false;
        }
    }
    true
}

/// Whether the value of each argument is at most this deep.
#[cycle(depth)]
fn are_arguments_within(arguments: &[Arg], limit: u32) -> bool
    ensures { result ≡ nat_le (spec.greatest (map spec.depth_of_argument arguments.now)) limit }
{
    for argument in arguments {
        if !is_within(&argument.value, limit) {
            return false;
        }
    }
    true
}
