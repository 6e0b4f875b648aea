//! Typed values, and calls that change states.
use pm_design::{Callee, Ex, Side};
use pm_io::{Boxed, List};
use pm_values::ValueType;

/// An integer, which takes its width from its place, or an expression of a type.
#[derive(Drop)]
pub enum Operand {
    Int(i64),
    Bits(Boxed<Ex>, ValueType),
}

/// How a deque is changed.
#[derive(Clone, Copy, PartialEq, Eq)]
pub enum Change {
    /// `append` and `appendleft`.
    Push(Side),
    /// `pop` and `popleft`.
    Pop(Side),
    Clear,
}

/// What a call that may change states calls.
#[derive(Clone, Copy, PartialEq, Eq)]
pub enum Effected {
    /// A method or a caller port.
    Method(Callee),
    /// A deque, and how it is changed.
    Deque(u32, Change),
}

/// A call that may change states.
#[derive(Drop)]
pub struct Effect {
    pub what: Effected,
    pub arguments: List<Operand>,
    /// Whether an argument names a parameter.
    pub named: bool,
}
