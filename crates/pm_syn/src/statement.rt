//! Statements, and the lines of a file as a tree.
use crate::expression::Expr;
use pm_io::{Boxed, List, Text};

/// A parameter of a function.
#[derive(Drop)]
pub struct Par {
    pub name: Text,
    /// Its annotation.
    pub note: Option<Expr>,
    pub default: Option<Expr>,
}

/// What a logical line says. A header may have a simple statement on its own line, after the colon.
#[cycle(stmt)]
#[derive(Drop)]
pub enum Stmt {
    Import,
    /// A string alone.
    Doc,
    Pass,
    /// The class, and its base.
    Class(Text, Option<Text>),
    /// The name, whether `s` is its first parameter, the other parameters, the annotation of its result, and the
    /// statement after the colon.
    Def(Text, bool, List<Par>, Option<Expr>, Option<Boxed<Stmt>>),
    /// `@name`.
    Mark(Text),
    /// `@non_blocking( lambda s: e )`.
    NonBlocking(Expr),
    Return(Expr),
    Assert(Expr),
    If(Expr, Option<Boxed<Stmt>>),
    Elif(Expr, Option<Boxed<Stmt>>),
    Else(Option<Boxed<Stmt>>),
    /// The name, the arguments of `range`, and the statement after the colon.
    For(Text, List<Expr>, Option<Boxed<Stmt>>),
    Assign(AssignOp, Expr, Expr),
    /// `a //= lambda: e`.
    JoinLambda(Expr, Expr),
    /// `a : T` or `a : T = e`.
    Note(Expr, Expr, Option<Expr>),
    /// An expression alone, as a call.
    Do(Expr),
}

/// An assignment.
#[derive(Clone, Copy, PartialEq, Eq)]
pub enum AssignOp {
    /// `=`.
    Plain,
    /// `@=`, at once.
    Now,
    /// `<<=`, at the clock edge.
    Next,
    /// `//=`, a connection.
    Join,
}

/// A logical line and the lines that belong to it.
#[cycle(node)]
#[derive(Drop)]
pub struct Node {
    /// The number of its line, counted from 1.
    pub line: u32,
    pub stmt: Stmt,
    /// The deeper lines after a header.
    pub body: List<Node>,
}

/// A design file.
#[derive(Drop)]
pub struct File {
    pub nodes: List<Node>,
}
