//! Lines of `construct`.
use pm_design::BlockSort;

/// What a line has to know of the line before it in its body.
#[derive(Clone, Copy, PartialEq, Eq)]
pub enum Before {
    Nothing,
    /// A branch of the `if` to which the line may belong was taken.
    Taken,
    /// A decorator of the `def` on the line.
    Decorator(BlockSort),
}
