//! What a signal's type is, and what a reference to a signal names.
use pm_design::{Part, Role};

/// A type of signals and of other values: Bits of a width, or a bitstruct.
#[derive(Clone, Copy, PartialEq, Eq)]
pub struct ValueType {
    pub width: u32,
    /// The bitstruct, if it is one: an index into the design's shapes.
    pub shape: Option<u32>,
}

/// The types of what a caller port hands over and gets back.
#[derive(Clone, Copy, PartialEq, Eq)]
pub struct CallerTypes {
    pub argument: Option<ValueType>,
    pub result: Option<ValueType>,
}

/// How a reference names its bits. Only whole signals can be assigned at the clock edge.
#[derive(Clone, Copy, PartialEq, Eq)]
pub enum Form {
    /// A signal, which may be an element of a list.
    Whole,
    /// A field of a bitstruct.
    Field,
    /// `x[lo:hi]`.
    Slice,
    /// `x[k]`.
    Bit,
}

/// A signal of the component or a port of a child, or some of its bits.
#[derive(Clone, Copy, PartialEq, Eq)]
pub struct Reference {
    pub part: Part,
    /// The bitstruct that the part is, if it is one.
    pub shape: Option<u32>,
    /// What the signal is in its component.
    pub role: Role,
    pub form: Form,
}
