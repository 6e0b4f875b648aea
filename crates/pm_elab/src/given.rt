//! The arguments of a call.
ghost use Rattle.std.specs.Prelude.{◌≡◌};
ghost use Rattle.std.specs.Option.{option_copied};
ghost use Rattle.pm_elab.specs.Functions as spec;

use crate::call::Given;
use pm_values::Value;

impl Given {
    /// Whether the argument names the parameter.
    #[tactic(auto, unfolding(crate::specs::Functions::is_named))]
    pub fn is_named(&self, parameter: &[u8]) -> bool
        ensures { result ≡ spec.is_named parameter.now self.now }
    {
        match &self.name {
            Some(name) => name.as_slice() == parameter,
            None => false,
        }
    }
}

/// Whether no argument names its parameter.
#[tactic(auto, unfolding(crate::specs::Functions::are_unnamed))]
pub fn are_unnamed(given: &[Given]) -> bool
    ensures { result ≡ spec.are_unnamed given.now }
{
    given.iter().all(|argument| argument.name.is_none())
}

/// The value that is given for a parameter by its name.
#[tactic(auto, unfolding(crate::specs::Functions::value_named))]
pub fn value_named<'a>(given: &'a [Given], parameter: &[u8]) -> Option<&'a Value>
    ensures { option_copied result ≡ spec.value_named given.now parameter.now }
{
    for argument in given {
        if argument.is_named(parameter) {
            return Some(&argument.value);
        }
    }
    None
}
