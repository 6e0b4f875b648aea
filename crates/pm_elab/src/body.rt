//! Bodies of update blocks, methods and guards, before they are typed.
use pm_io::{List, Text};
use pm_syn::{Expr, Node};
use pm_values::{Reference, ValueType};

/// Whose body it is: its place among the component's blocks or methods.
#[derive(Clone, Copy, PartialEq, Eq)]
pub enum BodyPlace {
    Block(u32),
    Method(u32),
    /// The condition of a method's `rdy`.
    Guard(u32),
}

/// What a body says.
#[derive(Drop)]
pub enum Code {
    Statements(List<Node>),
    /// The condition of a method's `rdy`.
    Guard(Expr),
    /// `a //= lambda: e`: the target as it was when the statement ran, and the expression.
    Lambda(Reference, Expr),
}

/// A body that isn't typed yet.
#[derive(Drop)]
pub struct RawBody {
    pub place: BodyPlace,
    /// The line of its `def`, of its decorator for a guard, or of its statement for a lambda.
    pub line: u32,
    pub code: Code,
}

/// An argument of a method.
#[derive(Drop)]
pub struct Argument {
    pub name: Text,
    pub ty: ValueType,
}

/// The types of a method.
#[derive(Drop)]
pub struct MethodTypes {
    pub arguments: List<Argument>,
    pub result: Option<ValueType>,
}
