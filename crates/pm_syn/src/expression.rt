//! Expressions, as the text spells them.
use pm_io::{Boxed, List, Text};

/// An expression.
#[cycle(expr)]
#[derive(Drop)]
pub enum Expr {
    Name(Text),
    Int(u128),
    Bool(bool),
    Unary(UnaryOp, Boxed<Expr>),
    Binary(BinaryOp, Boxed<Expr>, Boxed<Expr>),
    /// `a if c else b`: the value if the condition holds, the condition, the other value.
    Cond(Boxed<Expr>, Boxed<Expr>, Boxed<Expr>),
    /// `a.name`.
    Attr(Boxed<Expr>, Text),
    /// `f( .. )`.
    Call(Boxed<Expr>, List<Arg>),
    /// `a[i]`.
    Index(Boxed<Expr>, Boxed<Expr>),
    /// `a[lo:hi]`.
    Slice(Boxed<Expr>, Boxed<Expr>, Boxed<Expr>),
    /// `[ a, b, .. ]`.
    Items(List<Expr>),
    /// `[ a for name in range( .. ) ]`: the element, the name, and the arguments of `range`.
    Each(Boxed<Expr>, Text, List<Expr>),
}

/// An argument of a call.
#[cycle(expr)]
#[derive(Drop)]
pub struct Arg {
    /// The parameter that it names, if any.
    pub name: Option<Text>,
    pub value: Expr,
}

/// An operator before its operand.
#[derive(Clone, Copy)]
pub enum UnaryOp {
    Minus,
    Plus,
    /// `~`.
    Invert,
    Not,
}

/// An operator between its operands.
#[derive(Clone, Copy)]
pub enum BinaryOp {
    Or,
    And,
    Eq,
    Ne,
    Lt,
    Le,
    Gt,
    Ge,
    BitOr,
    BitXor,
    BitAnd,
    Shl,
    Shr,
    Add,
    Sub,
    Mul,
    /// `//`, the quotient rounded down.
    FloorDiv,
    Mod,
    Pow,
}
