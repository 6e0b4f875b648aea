//! Parameters from the command line.
ghost use Rattle.std.specs.Prelude.{◌≡◌, [], Err, IfOk, map};
ghost use Rattle.pm_elab.specs.Elab.{Gives};
ghost use Rattle.pm_elab.specs.Files as spec;
ghost use Rattle.pm_values.specs.declared.fault.BuildFault.TheVariants.{BadParameter};

use pm_elab::{Given, Param, ParamValue};
use pm_io::{List, NoMemory, Text};
use pm_syn::Par;
use pm_values::{BuildFault, Value, ValueType};
use std::alloc::Global;

/// The value of a parameter from the command line.
pub fn value_of(value: &ParamValue) -> Value
    ensures { result ≡ spec.value_of value.now }
{
    match value {
        ParamValue::Int(number) => Value::Int(*number),
        ParamValue::Width(width) => Value::Type(ValueType {
            width: *width,
            shape: None,
        }),
    }
}

/// Whether one of the parameters has the name.
#[tactic(auto, unfolding(pm_elab::specs::Files::has_parameter))]
pub fn has_parameter(parameters: &[Par], name: &[u8]) -> bool
    ensures { result ≡ spec.has_parameter parameters.now name.now }
{
    parameters
        .iter()
        .any(|parameter| parameter.name.as_slice() == name)
}

/// Whether the command line gives the name.
#[tactic(auto, unfolding(pm_elab::specs::Files::gives))]
pub fn gives(params: &[Param], name: &[u8]) -> bool
    ensures { result ≡ spec.gives params.now name.now }
{
    params.iter().any(|param| param.name.as_slice() == name)
}

/// The fault of a parameter.
fn bad_parameter(alloc: Global, name: &[u8]) -> Result<(), BuildFault>
    ensures { Gives (Err (BadParameter name.now)) result }
{
    Err(BuildFault::BadParameter(Text::from_slice(alloc, name)?))
}

/// Whether each name that is given is a parameter's, and none is given twice.
#[tactic(auto, unfolding(pm_elab::specs::Files::known_from))]
pub fn known_from(alloc: Global, params: &[Param], parameters: &[Par]) -> Result<(), BuildFault>
    ensures { Gives (spec.known_from [] params.now parameters.now) result }
{
    for (index, param) in params.iter().enumerate() {
        let name = param.name.as_slice();
        if !has_parameter(parameters, name) || gives(&params[..index], name) {
            return bad_parameter(alloc, name);
        }
    }
    Ok(())
}

/// Whether each parameter is given or has a default.
#[tactic(auto, unfolding(pm_elab::specs::Files::none_missing))]
pub fn none_missing(alloc: Global, params: &[Param], parameters: &[Par]) -> Result<(), BuildFault>
    ensures { Gives (spec.none_missing params.now parameters.now) result }
{
    for parameter in parameters {
        let name = parameter.name.as_slice();
        if parameter.default.is_none() && !gives(params, name) {
            return bad_parameter(alloc, name);
        }
    }
    Ok(())
}

fn argument_of(alloc: Global, param: &Param) -> Result<Given, NoMemory>
    ensures { IfOk result (λ argument. argument ≡ spec.argument_of param.now) }
{
    Ok(Given {
        name: Some(Text::from_slice(alloc, param.name.as_slice())?),
        value: value_of(&param.value),
    })
}

/// Parameters from the command line as arguments that name them.
pub fn arguments_of(alloc: Global, params: &[Param]) -> Result<List<Given>, NoMemory>
    ensures { IfOk result (λ given. given ≡ map spec.argument_of params.now) }
{
    let mut given = List::new(alloc);
    for param in params {
        given.push(argument_of(alloc, param)?)?;
    }
    Ok(given)
}
