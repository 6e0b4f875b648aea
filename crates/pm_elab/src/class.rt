//! Classes that have a `construct`.
use pm_syn::{Node, Par, Stmt};

/// What an object of a class is.
#[derive(Clone, Copy, PartialEq, Eq)]
pub enum ConstructedClass {
    Component,
    Interface,
}

/// The `construct` of a class.
#[derive(Clone, Copy)]
pub struct Construct<'a> {
    /// The line of its `def`.
    pub line: u32,
    pub parameters: &'a [Par],
    /// The statement after its colon, if there is one.
    pub after: Option<&'a Stmt>,
    /// The lines below it.
    pub body: &'a [Node],
}
