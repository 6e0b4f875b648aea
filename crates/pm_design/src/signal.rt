//! Signals and their types.
use pm_io::{List, Text};

/// What a signal is, seen from outside its component.
#[derive(Clone, Copy, Debug, PartialEq, Eq)]
pub enum Role {
    /// An `InPort`, which the parent drives.
    Input,
    /// An `OutPort`, which the parent may read.
    Output,
    /// A `Wire`, which only the component itself sees.
    Inner,
}

/// A signal of a component.
#[derive(Debug, Drop)]
pub struct Signal {
    /// Its name in the component, as `recv.msg` or `in_[0]`.
    pub name: Text,
    pub role: Role,
    /// Its width in bits, 1 to 128.
    pub width: u32,
    /// Its bitstruct, if it has one: an index into the design's shapes.
    pub shape: Option<u32>,
}

/// A bitstruct.
#[derive(Drop)]
pub struct Shape {
    pub name: Text,
    /// The fields in order of declaration, the first one most significant.
    pub fields: List<Field>,
    /// The sum of the fields' widths.
    pub width: u32,
}

/// A field of a bitstruct.
#[derive(Drop)]
pub struct Field {
    pub name: Text,
    /// The index of its lowest bit in the packed bitstruct.
    pub lo: u32,
    pub width: u32,
    /// Its own bitstruct, if it is one.
    pub shape: Option<u32>,
}
