//! Whether arguments fit the parameters of a `construct`.
ghost use Rattle.std.specs.Prelude.{◌≡◌, ◌≤◌, IfOk, IsTrue, OnOk, length};
ghost use Rattle.std.specs.List.{list_all, list_any};
ghost use Rattle.pm_elab.specs.Classes as spec;

use pm_elab::{Given, is_plain, value_named};
use pm_io::{List, NoMemory, Text};
use pm_syn::Par;
use pm_values::{BuildFault, Value, copy};
use std::alloc::Global;

/// How many arguments stand before the first that names its parameter.
#[tactic(auto, unfolding(pm_elab::specs::Classes::leading))]
pub fn leading(given: &[Given]) -> usize
    ensures count { result ≡ spec.leading given.now }
    ensures within { result ≤ length given.now }
{
    for (index, argument) in given.iter().enumerate() {
        if argument.name.is_some() {
            return index;
        }
    }
    given.len()
}

#[tactic(auto, unfolding(pm_elab::specs::Functions::is_named))]
fn names_one(argument: &Given, parameters: &[Par]) -> bool
    ensures { result ≡ spec.names_one argument.now.name parameters.now }
{
    for parameter in parameters {
        if argument.is_named(parameter.name.as_slice()) {
            return true;
        }
    }
    false
}

fn same_name(a: &Option<Text>, b: &Option<Text>) -> bool
    ensures { result ≡ spec.same_name a.now b.now }
{
    match (a, b) {
        (Some(a), Some(b)) => a.as_slice() == b.as_slice(),
        _ => false,
    }
}

/// Whether one of the arguments names the same parameter.
fn is_repeated(name: &Option<Text>, given: &[Given]) -> bool
    ensures { result ≡ list_any (λ h. spec.same_name name.now h.name) given.now }
{
    given.iter().any(|argument| same_name(name, &argument.name))
}

/// Whether each argument names one of the parameters, and no two the same.
#[tactic(auto, unfolding(pm_elab::specs::Classes::name_parameters))]
pub fn name_parameters(given: &[Given], parameters: &[Par]) -> bool
    ensures { result ≡ spec.name_parameters given.now parameters.now }
{
    let mut rest = given;
    while let [argument, after @ ..] = rest {
        if !names_one(argument, parameters) || is_repeated(&argument.name, after) {
            return false;
        }
        rest = after;
    }
    true
}

/// Whether the parameter has a default, or an argument names it.
#[tactic(auto, unfolding(pm_elab::specs::Classes::is_filled))]
pub fn is_filled(given: &[Given], parameter: &Par) -> bool
    ensures { result ≡ spec.is_filled given.now parameter.now }
{
    parameter.default.is_some() || value_named(given, parameter.name.as_slice()).is_some()
}

fn are_filled(given: &[Given], parameters: &[Par]) -> bool
    ensures { result ≡ list_all (spec.is_filled given.now) parameters.now }
{
    parameters
        .iter()
        .all(|parameter| is_filled(given, parameter))
}

/// Whether the arguments fit the parameters: those that name none come first and fill parameters in order, the others
/// name further ones, each once, and what is left has a default.
#[tactic(auto, unfolding(pm_elab::specs::Classes::are_fitting))]
pub fn are_fitting(given: &[Given], parameters: &[Par]) -> bool
    ensures fitting { result ≡ spec.are_fitting given.now parameters.now }
    ensures within { IsTrue result → spec.leading given.now ≤ length parameters.now }
{
    let places = leading(given);
    if parameters.len() < places {
        return false;
    }
    let named = &given[places..];
    let rest = &parameters[places..];
    name_parameters(named, rest) && are_filled(named, rest)
}

/// Whether the values are integers, types, constants, classes, or lists of such values.
#[tactic(auto, unfolding(pm_elab::specs::Classes::are_plain))]
pub fn are_plain(given: &[Given]) -> bool
    ensures { result ≡ spec.are_plain given.now }
{
    given.iter().all(|argument| is_plain(&argument.value))
}

/// Whether the arguments fit, and their values may be arguments.
#[tactic(auto, unfolding(pm_elab::specs::Classes::fitted))]
pub fn fitted(line: u32, given: &[Given], parameters: &[Par]) -> Result<(), BuildFault>
    ensures outcome { result ≡ spec.fitted line given.now parameters.now }
    ensures within { OnOk result (spec.leading given.now ≤ length parameters.now) }
{
    if !are_fitting(given, parameters) {
        return Err(BuildFault::BadArguments(line));
    }
    if !are_plain(given) {
        return Err(BuildFault::WrongKind(line));
    }
    Ok(())
}

/// A value that may be an argument.
#[tactic(auto, unfolding(pm_elab::specs::Classes::clean))]
pub fn clean(line: u32, value: Value) -> Result<Value, BuildFault>
    ensures { result ≡ spec.clean line value }
{
    if is_plain(&value) {
        Ok(value)
    } else {
        Err(BuildFault::WrongKind(line))
    }
}

/// The values of the arguments that name no parameter.
pub fn leading_values(alloc: Global, given: &[Given]) -> Result<List<Value>, NoMemory>
    ensures { IfOk result (λ values. values ≡ spec.leading_values given.now) }
{
    let mut values = List::new(alloc);
    for argument in &given[..leading(given)] {
        values.push(copy(alloc, &argument.value)?)?;
    }
    Ok(values)
}
