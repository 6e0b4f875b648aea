//! A component of the narrow form: signals, and update blocks of one assignment each.
use pm_bits::{Bits, Op};
use pm_design::Signal;
use pm_io::{List, Text};

/// A component without children.
#[derive(Drop)]
pub struct Component {
    /// The signals in order of declaration, the one-bit input `reset` first.
    pub signals: List<Signal>,
    pub blocks: List<Assignment>,
}

/// An update block: in each cycle it assigns one signal.
#[derive(Drop)]
pub struct Assignment {
    /// The block's name.
    pub name: Text,
    /// The signal that it assigns, by its index in the component's signals.
    pub target: usize,
    pub value: Expression,
}

/// The right side of an assignment.
#[derive(Clone, Copy)]
pub enum Expression {
    Just(Operand),
    Both(Op, Operand, Operand),
}

/// What an expression reads.
#[derive(Clone, Copy)]
pub enum Operand {
    /// A signal, by its index in the component's signals.
    Signal(usize),
    Constant(Bits),
}
