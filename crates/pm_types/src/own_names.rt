//! The names that a body assigns.
ghost use Rattle.std.specs.Prelude.{◌≡◌, IfOk, map};
ghost use Rattle.pm_types.specs.OwnNames as spec;

use pm_elab::Argument;
use pm_io::{Boxed, NoMemory};
use pm_syn::{AssignOp, Expr, Node, Stmt};
use pm_values::Table;
use std::alloc::Global;

// One name more, unless it is there.
#[tactic(auto, unfolding(crate::specs::OwnNames::with_name))]
fn add_name(alloc: Global, own: &mut Table<u32>, name: &[u8]) -> Result<(), NoMemory>
    ensures { IfOk result (λ _. own.new ≡ spec.with_name name.now own.old) }
{
    if own.contains(name) {
        return Ok(());
    }
    let place = u32::try_from(own.len()).map_err(|_| NoMemory)?;
    own.put(alloc, name, place)
}

// The name that an assignment to the expression assigns, if it is one.
fn add_assigned(alloc: Global, own: &mut Table<u32>, target: &Expr) -> Result<(), NoMemory>
    ensures { IfOk result (λ _. own.new ≡ spec.assigned_name target.now own.old) }
{
    match target {
        Expr::Name(name) => add_name(alloc, own, name.as_slice()),
        Expr::Int(_)
        | Expr::Bool(_)
        | Expr::Unary(_, _)
        | Expr::Binary(_, _, _)
        | Expr::Cond(_, _, _)
        | Expr::Attr(_, _)
        | Expr::Call(_, _)
        | Expr::Index(_, _)
        | Expr::Slice(_, _, _)
        | Expr::Items(_)
        | Expr::Each(_, _, _) => Ok(()),
    }
}

fn add_target(
    alloc: Global,
    own: &mut Table<u32>,
    op: AssignOp,
    target: &Expr,
) -> Result<(), NoMemory>
    ensures { IfOk result (λ _. own.new ≡ spec.target_name op target.now own.old) }
{
    match op {
        AssignOp::Plain => add_assigned(alloc, own, target),
        AssignOp::Now | AssignOp::Next | AssignOp::Join => Ok(()),
    }
}

// The name of a statement that is no header.
fn add_simple(alloc: Global, own: &mut Table<u32>, statement: &Stmt) -> Result<(), NoMemory>
    ensures { IfOk result (λ _. own.new ≡ spec.name_alone statement.now own.old) }
{
    match statement {
        Stmt::Assign(op, target, _) => add_target(alloc, own, *op, target),
        Stmt::Pass
        | Stmt::Doc
        | Stmt::Do(_)
        | Stmt::Import
        | Stmt::Class(_, _)
        | Stmt::Def(_, _, _, _, _)
        | Stmt::Mark(_)
        | Stmt::NonBlocking(_)
        | Stmt::Return(_)
        | Stmt::Assert(_)
        | Stmt::If(_, _)
        | Stmt::Elif(_, _)
        | Stmt::Else(_)
        | Stmt::For(_, _, _)
        | Stmt::JoinLambda(_, _)
        | Stmt::Note(_, _, _) => Ok(()),
    }
}

fn add_after(
    alloc: Global,
    own: &mut Table<u32>,
    after: &Option<Boxed<Stmt>>,
) -> Result<(), NoMemory>
    ensures { IfOk result (λ _. own.new ≡ spec.name_after after.now own.old) }
{
    match after {
        Some(statement) => add_simple(alloc, own, statement.get()),
        None => Ok(()),
    }
}

// The names of a line alone.
#[tactic(auto, unfolding(crate::specs::OwnNames::statement_names))]
fn add_statement(alloc: Global, own: &mut Table<u32>, statement: &Stmt) -> Result<(), NoMemory>
    ensures { IfOk result (λ _. own.new ≡ spec.statement_names statement.now own.old) }
{
    match statement {
        Stmt::If(_, after) | Stmt::Elif(_, after) | Stmt::Else(after) => {
            add_after(alloc, own, after)
        }
        Stmt::For(name, _, after) => {
            add_name(alloc, own, name.as_slice())?;
            add_after(alloc, own, after)
        }
        Stmt::Assign(_, _, _)
        | Stmt::Pass
        | Stmt::Doc
        | Stmt::Do(_)
        | Stmt::Import
        | Stmt::Class(_, _)
        | Stmt::Def(_, _, _, _, _)
        | Stmt::Mark(_)
        | Stmt::NonBlocking(_)
        | Stmt::Return(_)
        | Stmt::Assert(_)
        | Stmt::JoinLambda(_, _)
        | Stmt::Note(_, _, _) => add_simple(alloc, own, statement),
    }
}

// The names of a line and of those below it.
#[cycle(names)]
#[tactic(auto, using(crate::proofs::NodeNames::names_of_node))]
fn add_node(alloc: Global, own: &mut Table<u32>, node: &Node) -> Result<(), NoMemory>
    ensures { IfOk result (λ _. own.new ≡ spec.node_names node.now own.old) }
{
    add_statement(alloc, own, &node.stmt)?;
    add_nodes(alloc, own, node.body.as_slice())
}

/// Adds the names of lines.
#[cycle(names)]
#[tactic(auto, unfolding(crate::specs::OwnNames::all_added))]
pub fn add_nodes(alloc: Global, own: &mut Table<u32>, nodes: &[Node]) -> Result<(), NoMemory>
    ensures { IfOk result (λ _. own.new ≡ spec.all_added (map spec.node_names nodes.now) own.old) }
{
    for node in nodes {
        add_node(alloc, own, node)?;
    }
    Ok(())
}

/// Adds the names of arguments.
#[tactic(auto, unfolding(crate::specs::OwnNames::argument_names))]
pub fn add_arguments(
    alloc: Global,
    own: &mut Table<u32>,
    arguments: &[Argument],
) -> Result<(), NoMemory>
    ensures { IfOk result (λ _. own.new ≡ spec.argument_names arguments.now own.old) }
{
    for argument in arguments {
        add_name(alloc, own, argument.name.as_slice())?;
    }
    Ok(())
}
