//! Update blocks and methods, with typed bodies.
use crate::connection::{Callee, Part};
use pm_bits::{Bits, Fold, Op};
use pm_io::{Boxed, List, Text};

/// When an update block runs.
#[derive(Clone, Copy, PartialEq, Eq)]
pub enum BlockSort {
    /// `@update`: in each cycle, before the values settle.
    Update,
    /// `@update_once`: like `@update`, but it may change state.
    Once,
    /// `@update_ff`: at the clock edge.
    Edge,
}

/// An update block.
#[derive(Drop)]
pub struct Block {
    pub name: Text,
    pub sort: BlockSort,
    pub body: List<St>,
    /// The widths of its temporaries.
    pub temps: List<u32>,
}

/// A method.
#[derive(Drop)]
pub struct Method {
    pub name: Text,
    /// The widths of its arguments, which are its first temporaries.
    pub arguments: List<u32>,
    /// The width of its result, if it has one.
    pub result: Option<u32>,
    /// The condition of its `rdy`, if it has one.
    pub guard: Option<Ex>,
    pub body: List<St>,
    /// What it returns, if it has a result.
    pub answer: Option<Ex>,
    /// The widths of its temporaries, its arguments among them.
    pub temps: List<u32>,
}

/// An end of a deque.
#[derive(Clone, Copy, PartialEq, Eq)]
pub enum Side {
    Left,
    Right,
}

/// A typed expression.
#[cycle(ex)]
#[derive(Drop)]
pub enum Ex {
    Const(Bits),
    /// The value of a part.
    Get(Part),
    /// Some bits of a temporary: its number, the lowest bit, the width.
    Temp(u32, u32, u32),
    /// The element at the index, or 0 past the end.
    Pick(Boxed<Ex>, List<Part>),
    /// The value of a number state.
    Number(u32),
    /// How many items a deque holds.
    Count(u32),
    /// An item of a deque, counted from the left.
    Item(u32, u32),
    /// The last item of a deque.
    Last(u32),
    /// Whether a method is ready.
    Ready(Callee),
    Not(Boxed<Ex>),
    Fold(Fold, Boxed<Ex>),
    Bin(Op, Boxed<Ex>, Boxed<Ex>),
    /// A concatenation, the first part most significant.
    Cat(List<Ex>),
    /// Extended with zeros to a width.
    Zext(Boxed<Ex>, u32),
    /// Extended with the sign bit to a width.
    Sext(Boxed<Ex>, u32),
    /// Cut to the low bits of a width.
    Trunc(Boxed<Ex>, u32),
    /// The second if the first isn't 0, else the third.
    Cond(Boxed<Ex>, Boxed<Ex>, Boxed<Ex>),
}

/// A typed statement.
#[cycle(st)]
#[derive(Drop)]
pub enum St {
    /// Assigns a part.
    Set(Part, Ex),
    /// Assigns the element at the index, or nothing past the end.
    SetPick(Ex, List<Part>, Ex),
    /// Assigns a temporary.
    SetTemp(u32, Ex),
    /// Assigns a number state.
    SetNumber(u32, Ex),
    /// Adds an item to a deque.
    Push(u32, Side, Ex),
    /// Takes an item from a deque, and puts it in a temporary if one is named.
    Pop(u32, Side, Option<u32>),
    /// Empties a deque.
    Clear(u32),
    /// Calls a method, and puts its result in a temporary if one is named.
    Call(Callee, List<Ex>, Option<u32>),
    If(Ex, List<St>, List<St>),
}
