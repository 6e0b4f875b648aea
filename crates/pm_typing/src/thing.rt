//! What an expression is while it is typed.
use crate::operand::{Change, Effect};
use pm_bits::{Bits, Fold};
use pm_design::{Callee, Ex};
use pm_io::{Boxed, List};
use pm_values::{Form, Member, Reference, Value, ValueType};

/// The functions that bodies may call.
#[derive(Clone, Copy, PartialEq, Eq)]
pub enum BodyFunction {
    Concat,
    Zext,
    Sext,
    Trunc,
    /// `reduce_and`, `reduce_or` and `reduce_xor`.
    Reduce(Fold),
    /// `clog2( n )`.
    CeilingLog,
    /// `len( x )`.
    Length,
    /// `mk_bits( n )`.
    MakeBits,
}

/// What an expression is, before its place says what it is needed for. Lists and interfaces are those of the component
/// itself, or of its child of a number.
#[derive(Drop)]
pub enum Thing<'a> {
    Int(i64),
    /// `s` itself.
    Own,
    Type(ValueType),
    Const(Bits),
    /// A class that is no type.
    Class,
    Items(Option<u32>, &'a List<Value>),
    /// The members of an interface.
    Members(Option<u32>, &'a List<Member>),
    /// A signal of the component or a port of a child, or some of its bits.
    Signal(Reference),
    /// A temporary or some of its bits: its number, the lowest bit, its type.
    Temp(u32, u32, ValueType),
    /// The elements among which an index chooses.
    Pick(Boxed<Ex>, List<Reference>),
    Child(u32),
    State(u32),
    /// A method or a caller port.
    Method(Callee),
    /// `append` and the like, of a deque.
    Change(u32, Change),
    /// `rdy` of a method or a caller port.
    Ready(Callee),
    Function(BodyFunction),
    /// A value.
    Bits(Boxed<Ex>, ValueType),
}

/// What stands by itself, or as the whole right side of an assignment.
#[derive(Drop)]
pub enum Right<'a> {
    Plain(Thing<'a>),
    Effect(Effect),
}

/// Some neighbouring bits of what has bits.
#[derive(Clone, Copy, PartialEq, Eq)]
pub struct Cut {
    /// The lowest bit.
    pub lo: u32,
    /// How many bits they are.
    pub width: u32,
    /// How they are named.
    pub form: Form,
}

/// How the width of an expression is changed.
#[derive(Clone, Copy, PartialEq, Eq)]
pub enum Resizing {
    /// Extended with zeros.
    Zeros,
    /// Extended with the sign bit.
    Signs,
    /// Cut to the low bits.
    Cut,
}
