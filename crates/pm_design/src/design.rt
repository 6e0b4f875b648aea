//! Kinds of component, and a whole design.
use crate::body::{Block, Method};
use crate::connection::{Bind, Caller, Join, Rule, Tie};
use crate::signal::{Shape, Signal};
use pm_bits::Bits;
use pm_io::{List, Text};

/// A design: its kinds, each child's kind before its parent's, and which kind the top component has.
#[derive(Drop)]
pub struct Design {
    pub kinds: List<Kind>,
    pub shapes: List<Shape>,
    pub top: u32,
}

/// A kind of component: what `construct` makes of a class and its arguments.
#[derive(Drop)]
pub struct Kind {
    pub class: Text,
    /// The signals in order of declaration, the one-bit input `reset` first.
    pub signals: List<Signal>,
    pub states: List<State>,
    pub children: List<Child>,
    pub methods: List<Method>,
    pub callers: List<Caller>,
    pub joins: List<Join>,
    /// The lines that connect interfaces whose members differ.
    pub mismatched: List<u32>,
    pub ties: List<Tie>,
    pub binds: List<Bind>,
    pub blocks: List<Block>,
    pub rules: List<Rule>,
    /// How many instances a component of this kind has, including itself.
    pub instances: u32,
}

/// A state of a component: a number, or a deque of numbers.
#[derive(Drop)]
pub struct State {
    pub name: Text,
    /// The width of the number, or of each item.
    pub width: u32,
    /// How many items a deque holds at most, or 0 for a number.
    pub maxlen: u32,
    /// The number before the first cycle.
    pub start: Bits,
}

/// A component within a component.
#[derive(Drop)]
pub struct Child {
    pub name: Text,
    pub kind: u32,
    pub line: u32,
}
