//! Frames before the first statement of a `construct`.
ghost use Rattle.std.specs.Prelude.{◌≡◌, [], IfOk, OnOk};
ghost use Rattle.pm_elab.specs.Constructs as spec;
ghost use Rattle.pm_elab.specs.Placing.{whole_signal};
ghost use Rattle.pm_elab.specs.Values.{bits_of};
ghost use Rattle.pm_design.specs.declared.signal.Role.TheVariants.{Input};

use pm_design::{Kind, Part, Role, Signal};
use pm_elab::{ConstructedClass, Frame, Local, RawKind};
use pm_io::{List, NoMemory, Text};
use pm_syn::Par;
use pm_values::{Form, Reference, Table, Taken, Value, copy};
use std::alloc::Global;

/// Puts names of parameters and their values.
pub fn locals_from(
    alloc: Global,
    names: &mut Table<Local>,
    parameters: &[Par],
    values: &[Value],
) -> Result<(), NoMemory>
    ensures { OnOk result (names.new ≡ spec.locals_from names.old parameters.now values.now) }
{
    for (index, parameter) in parameters.iter().enumerate() {
        match values.get(index) {
            Some(value) => {
                let value = copy(alloc, value)?;
                names.put(
                    alloc,
                    parameter.name.as_slice(),
                    Local {
                        value,
                        reassigned: false,
                    },
                )?;
            }
            None => return Ok(()),
        }
    }
    Ok(())
}

fn empty_kind(alloc: Global, class: Text, signals: List<Signal>) -> Kind
    ensures { result ≡ spec.empty_kind class signals }
{
    Kind {
        class,
        signals,
        states: List::new(alloc),
        children: List::new(alloc),
        methods: List::new(alloc),
        callers: List::new(alloc),
        joins: List::new(alloc),
        mismatched: List::new(alloc),
        ties: List::new(alloc),
        binds: List::new(alloc),
        blocks: List::new(alloc),
        rules: List::new(alloc),
        instances: 1,
    }
}

fn empty_raw(alloc: Global, locals: Table<Local>, attributes: Table<Value>) -> RawKind
    ensures { result ≡ spec.empty_raw locals attributes }
{
    RawKind {
        locals,
        attributes,
        states: List::new(alloc),
        methods: List::new(alloc),
        callers: List::new(alloc),
        bodies: List::new(alloc),
    }
}

fn reset_signals(alloc: Global) -> Result<List<Signal>, NoMemory>
    ensures { IfOk result (λ signals. signals ≡ spec.reset_signals) }
{
    let name = Text::from_slice(alloc, b"reset")?;
    let mut signals = List::new(alloc);
    signals.push(Signal {
        name,
        role: Role::Input,
        width: 1,
        shape: None,
    })?;
    Ok(signals)
}

fn reset_reference() -> Reference
    ensures { result ≡ whole_signal 0 Input (bits_of 1) }
{
    Reference {
        part: Part {
            owner: 0,
            signal: 0,
            lo: 0,
            width: 1,
        },
        shape: None,
        role: Role::Input,
        form: Form::Whole,
    }
}

fn reset_attributes(alloc: Global) -> Result<Table<Value>, NoMemory>
    ensures { IfOk result (λ attributes. attributes ≡ spec.reset_attributes) }
{
    let mut attributes = Table::new(alloc);
    attributes.put(
        alloc,
        b"reset",
        Value::Taken(Taken::Signal(reset_reference())),
    )?;
    Ok(attributes)
}

/// Names of parameters and their values, and no other names.
fn parameter_locals(
    alloc: Global,
    parameters: &[Par],
    values: &[Value],
) -> Result<Table<Local>, NoMemory>
    ensures { IfOk result (λ locals. locals ≡ spec.locals_from [] parameters.now values.now) }
{
    let mut locals = Table::new(alloc);
    locals_from(alloc, &mut locals, parameters, values)?;
    Ok(locals)
}

/// A component before its first statement.
#[tactic(auto, unfolding(pm_elab::specs::Constructs::component_start))]
pub fn component_start(
    alloc: Global,
    name: &[u8],
    parameters: &[Par],
    values: &[Value],
) -> Result<Frame, NoMemory>
    ensures { IfOk result (λ frame. frame ≡ spec.component_start name.now parameters.now values.now) }
{
    let name = Text::from_slice(alloc, name)?;
    let signals = reset_signals(alloc)?;
    let locals = parameter_locals(alloc, parameters, values)?;
    let attributes = reset_attributes(alloc)?;
    Ok(Frame {
        class: ConstructedClass::Component,
        kind: empty_kind(alloc, name, signals),
        raw: empty_raw(alloc, locals, attributes),
        lambdas: 0,
    })
}

/// An interface before its first statement.
#[tactic(auto, unfolding(pm_elab::specs::Constructs::interface_start))]
pub fn interface_start(
    alloc: Global,
    name: &[u8],
    parameters: &[Par],
    values: &[Value],
) -> Result<Frame, NoMemory>
    ensures { IfOk result (λ frame. frame ≡ spec.interface_start name.now parameters.now values.now) }
{
    let name = Text::from_slice(alloc, name)?;
    let locals = parameter_locals(alloc, parameters, values)?;
    Ok(Frame {
        class: ConstructedClass::Interface,
        kind: empty_kind(alloc, name, List::new(alloc)),
        raw: empty_raw(alloc, locals, Table::new(alloc)),
        lambdas: 0,
    })
}
