//! States of a component.
ghost use Rattle.std.specs.Prelude.{◌≡◌, Ok};
ghost use Rattle.pm_elab.specs.Elab.{Changes};
ghost use Rattle.pm_elab.specs.Statements as spec;

use crate::assignment::attribute_set;
use crate::placing::number_of;
use pm_bits::Bits;
use pm_design::State;
use pm_elab::{ConstructedClass, Frame, Start, Target, constant_of};
use pm_io::Text;
use pm_values::{BuildFault, New, Taken, Value, ValueType};
use std::alloc::Global;

/// A number of the width, or `IntRange` if there is none.
fn start_with(line: u32, maxlen: u32, value: Option<Bits>) -> Result<Start, BuildFault>
    ensures { result ≡ spec.start_with line maxlen value }
{
    match value {
        Some(value) => Ok(Start { maxlen, value }),
        None => Err(BuildFault::IntRange(line)),
    }
}

/// What a state starts with: a deque is empty, and a number is a constant of its width.
#[tactic(auto, unfolding(pm_elab::specs::Statements::start_of))]
fn start_of(line: u32, width: u32, value: &Value) -> Result<Start, BuildFault>
    ensures { result ≡ spec.start_of line width value.now }
{
    match value {
        Value::New(New::Deque(maxlen)) => start_with(line, *maxlen, constant_of(width, 0)),
        Value::Int(number) => start_with(line, 0, constant_of(width, *number)),
        _ => Err(BuildFault::WrongKind(line)),
    }
}

/// A state takes its name.
#[tactic(auto, unfolding(pm_elab::specs::Statements::state_set))]
fn state_set(
    alloc: Global,
    frame: &mut Frame,
    name: &[u8],
    ty: ValueType,
    start: Start,
) -> Result<(), BuildFault>
    ensures { Changes (Ok (spec.state_set name.now ty start frame.old)) result frame.new }
{
    let number = number_of(frame.kind.states.len())?;
    let text = Text::from_slice(alloc, name)?;
    frame.kind.states.push(State {
        name: text,
        width: ty.width,
        maxlen: start.maxlen,
        start: start.value,
    })?;
    frame.raw.states.push(ty)?;
    attribute_set(alloc, frame, name, Value::Taken(Taken::State(number)))
}

/// A state of a new name.
#[tactic(auto, unfolding(pm_elab::specs::Statements::state_named))]
fn state_named(
    alloc: Global,
    frame: &mut Frame,
    name: &[u8],
    ty: ValueType,
    value: &Value,
    line: u32,
) -> Result<(), BuildFault>
    ensures { Changes (spec.state_named name.now ty value.now line frame.old) result frame.new }
{
    if name == b"clk".as_slice() {
        return Err(BuildFault::WrongKind(line));
    }
    let start = start_of(line, ty.width, value)?;
    if frame.raw.attributes.contains(name) {
        return Err(BuildFault::SameName(line));
    }
    state_set(alloc, frame, name, ty, start)
}

/// `s.name : T = c`, once T and c have values.
#[tactic(auto, unfolding(pm_elab::specs::Statements::state_put))]
pub fn state_put(
    alloc: Global,
    frame: &mut Frame,
    target: &Target,
    ty: ValueType,
    value: &Value,
    line: u32,
) -> Result<(), BuildFault>
    ensures { Changes (spec.state_put target.now ty value.now line frame.old) result frame.new }
{
    match frame.class {
        ConstructedClass::Component => match target {
            Target::Attribute(name) => state_named(alloc, frame, name.as_slice(), ty, value, line),
            Target::Local(_) | Target::Other => Err(BuildFault::WrongKind(line)),
        },
        ConstructedClass::Interface => Err(BuildFault::WrongKind(line)),
    }
}
