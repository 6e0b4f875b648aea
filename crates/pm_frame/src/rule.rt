//! Constraints.
ghost use Rattle.std.specs.Prelude.{◌≡◌};
ghost use Rattle.pm_elab.specs.Elab.{Changes};
ghost use Rattle.pm_elab.specs.Statements as spec;

use pm_design::Rule;
use pm_elab::{ConstructedClass, Frame, Given, are_unnamed, is_settled};
use pm_values::{BuildFault, Value, copy};
use std::alloc::Global;

/// Adds a constraint.
#[tactic(auto, unfolding(pm_elab::specs::Statements::rule_put))]
fn rule_put(alloc: Global, frame: &mut Frame, value: &Value, line: u32) -> Result<(), BuildFault>
    ensures { Changes (spec.rule_put value.now line frame.old) result frame.new }
{
    match copy(alloc, value)? {
        Value::Rule(before, after) => {
            frame.kind.rules.push(Rule {
                line,
                before,
                after,
            })?;
            Ok(())
        }
        _ => Err(BuildFault::WrongKind(line)),
    }
}

/// Adds the constraints of a call, in order.
#[tactic(auto, unfolding(pm_elab::specs::Statements::rules_put))]
fn rules_put(alloc: Global, frame: &mut Frame, given: &[Given], line: u32) -> Result<(), BuildFault>
    ensures { Changes (spec.rules_put given.now line frame.old) result frame.new }
{
    for argument in given {
        rule_put(alloc, frame, &argument.value, line)?;
    }
    Ok(())
}

/// `s.add_constraints( .. )`, once its arguments have values.
#[tactic(auto, unfolding(pm_elab::specs::Statements::constrained))]
pub fn constrained(
    alloc: Global,
    frame: &mut Frame,
    given: &[Given],
    line: u32,
) -> Result<(), BuildFault>
    ensures { Changes (spec.constrained given.now line frame.old) result frame.new }
{
    if !are_unnamed(given) {
        return Err(BuildFault::BadArguments(line));
    }
    match frame.class {
        ConstructedClass::Component => rules_put(alloc, frame, given, line),
        ConstructedClass::Interface => Err(BuildFault::WrongKind(line)),
    }
}

/// A value that nothing takes has nothing new in it.
#[tactic(auto, unfolding(pm_elab::specs::Statements::unused))]
pub fn unused(frame: &mut Frame, value: &Value, line: u32) -> Result<(), BuildFault>
    ensures { Changes (spec.unused value.now line frame.old) result frame.new }
{
    if is_settled(value) {
        Ok(())
    } else {
        Err(BuildFault::WrongKind(line))
    }
}
