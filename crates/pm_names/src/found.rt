//! Values that were looked up.
ghost use Rattle.std.specs.Prelude.{◌≡◌, IfOk};
ghost use Rattle.pm_names.specs.Found.{value_of};

use pm_io::NoMemory;
use pm_values::{Value, copy};
use std::alloc::Global;

/// A value that was looked up: one that is kept elsewhere, or one that was made for the purpose.
#[derive(Drop)]
pub enum Found<'a> {
    Kept(&'a Value),
    Made(Value),
}

impl<'a> Found<'a> {
    pub fn value(&self) -> &Value
        ensures { result.now ≡ value_of self.now }
    {
        match self {
            Found::Kept(value) => *value,
            Found::Made(value) => value,
        }
    }

    /// The value, copied if it is kept elsewhere.
    pub fn into_value(self, alloc: Global) -> Result<Value, NoMemory>
        ensures { IfOk result (λ value. value ≡ value_of self.entry) }
    {
        match self {
            Found::Kept(value) => copy(alloc, value),
            Found::Made(value) => Ok(value),
        }
    }
}
