//! Calls in `construct`.
use crate::function::Function;
use pm_io::Text;
use pm_values::Value;

/// What a call calls.
#[derive(Drop)]
pub enum Called {
    Function(Function),
    /// A class or a type.
    Value(Value),
}

/// An argument of a call.
#[derive(Drop)]
pub struct Given {
    /// The parameter that it names, if any.
    pub name: Option<Text>,
    pub value: Value,
}
