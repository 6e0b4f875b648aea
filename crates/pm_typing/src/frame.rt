//! What typing knows of the names that a body assigns, and what it has made of the body.
use pm_design::St;
use pm_io::List;
use pm_values::ValueType;

/// What a name that the body assigns stands for, on every path that leads here.
#[derive(Clone, Copy, PartialEq, Eq)]
pub enum Bound {
    /// Some path doesn't assign it, or paths assign it differently.
    Unassigned,
    /// The variable of a loop.
    Int(i64),
    /// A temporary: its number and type.
    Temp(u32, ValueType),
}

/// The temporary of a name: its number and type, which the first assignment fixes.
#[derive(Clone, Copy, PartialEq, Eq)]
pub struct Stored {
    pub number: u32,
    pub ty: ValueType,
}

/// A body that is being typed. Names stand for their places among those that the body assigns.
#[derive(Drop)]
pub struct Frame {
    /// What each name stands for.
    pub bounds: List<Bound>,
    /// The temporary of each name that has one.
    pub stored: List<Option<Stored>>,
    /// The widths of the temporaries.
    pub temps: List<u32>,
    /// The statements so far.
    pub out: List<St>,
}
