//! Where an expression stands.
use crate::frame::Frame;
use pm_io::Text;
use pm_syn::Node;
use pm_values::{Table, Value};

/// What every line of a file sees.
#[derive(Clone, Copy)]
pub struct FileScope<'a> {
    pub nodes: &'a [Node],
    /// The names of the file.
    pub names: &'a Table<Value>,
}

/// The name of a comprehension at one of its turns.
#[derive(Drop)]
pub struct Turn {
    pub name: Text,
    pub value: i64,
}

/// Where an expression stands, for what its names mean and for the line of its fault.
#[derive(Clone, Copy)]
pub struct Site<'a> {
    pub file: FileScope<'a>,
    /// The run of `construct` in which it stands, or `None` outside of one.
    pub frame: Option<&'a Frame>,
    /// The comprehensions around it, the innermost first.
    pub turns: &'a [Turn],
    pub line: u32,
}
