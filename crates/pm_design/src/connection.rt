//! What is connected, and what is constrained.
use pm_bits::Bits;
use pm_io::Text;

/// Some neighbouring bits of a signal.
#[derive(Clone, Copy, PartialEq, Eq)]
pub struct Part {
    /// Whose signal it is: 0 for the component itself, k + 1 for its child k.
    pub owner: u32,
    pub signal: u32,
    /// The lowest bit.
    pub lo: u32,
    pub width: u32,
}

/// A connection of two parts.
#[derive(Drop)]
pub struct Join {
    pub line: u32,
    pub a: Part,
    pub b: Part,
    /// Whether both ends have the same type.
    pub equal_types: bool,
}

/// A part that is tied to a constant, or to an integer that doesn't fit (`None`).
#[derive(Drop)]
pub struct Tie {
    pub line: u32,
    pub part: Part,
    pub value: Option<Bits>,
}

/// What a call names.
#[derive(Clone, Copy, PartialEq, Eq)]
pub enum Callee {
    /// A method of the component itself.
    Own(u32),
    /// A method of a child: the child, then its method.
    Child(u32, u32),
    /// A caller port of the component itself.
    Port(u32),
    /// A caller port of a child: the child, then its port.
    ChildPort(u32, u32),
}

/// A port through which a component calls a method of another one.
#[derive(Drop)]
pub struct Caller {
    pub name: Text,
    /// The width of the argument, if there is one.
    pub argument: Option<u32>,
    /// The width of the result, if there is one.
    pub result: Option<u32>,
}

/// A connection of a caller port.
#[derive(Drop)]
pub struct Bind {
    pub line: u32,
    pub a: Callee,
    pub b: Callee,
    /// Whether both ends have the same types of argument and result.
    pub equal_types: bool,
}

/// One side of a constraint: a set of update blocks.
#[derive(Drop)]
pub enum Term {
    /// `U( f )`: a block of the component.
    Block(u32),
    /// `RD( x )`: the blocks that read a bit of the part.
    Reads(Part),
    /// `WR( x )`: the blocks that write a bit of the part.
    Writes(Part),
    /// `M( m )`: the blocks that may call the method.
    Calls(Callee),
    /// A term of the wrong sort.
    Wrong,
}

/// A constraint: the blocks of one term run before those of another.
#[derive(Drop)]
pub struct Rule {
    pub line: u32,
    pub before: Term,
    pub after: Term,
}
