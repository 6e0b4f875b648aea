//! Parameters from the command line.
use pm_io::Text;

/// A parameter of the top class, as `name=value` gives it.
#[derive(Drop)]
pub struct Param {
    pub name: Text,
    pub value: ParamValue,
}

/// The value of a parameter from the command line.
#[derive(Clone, Copy, PartialEq, Eq)]
pub enum ParamValue {
    Int(i64),
    /// `BitsN`, for N from 1 to 128.
    Width(u32),
}
