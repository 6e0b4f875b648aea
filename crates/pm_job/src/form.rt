//! The reader of the narrow form of a design: one component without children.
ghost use Rattle.std.specs.Prelude.{◌≡◌, ◌∷◌, ◌++◌, option_map, None, Some, IfOk, OnOk};
ghost use Rattle.pm_job.specs.Form as spec;

use crate::component::{Assignment, Component};
use crate::form_lines::{after_head, next_line};
use crate::form_parts::{assignment_of, block_name, declaration_of};
use crate::soundness::is_sound;
use pm_design::{Role, Signal};
use pm_io::{List, NoMemory, Text};
use std::alloc::Global;

/// The greatest length of a text of the form, in bytes.
pub const MAX_TEXT: usize = 1 << 20;

/// The greatest number of signals of a component, with `reset`.
pub const MAX_SIGNALS: usize = 65;

/// The greatest number of update blocks of a component.
pub const MAX_BLOCKS: usize = 64;

/// The component of this class that a text spells, if there is one.
#[tactic(auto, unfolding(crate::specs::Form::component_of))]
pub fn read_component(
    alloc: Global,
    class: &[u8],
    text: &[u8],
) -> Result<Option<Component>, NoMemory>
    ensures { IfOk result (λ found. found ≡ spec.component_of class.now text.now) }
{
    if text.len() > MAX_TEXT {
        return Ok(None);
    }
    let Some(lines) = after_head(class, text) else {
        return Ok(None);
    };
    let Some(component) = read_body(alloc, lines)? else {
        return Ok(None);
    };
    if is_sound(&component) {
        Ok(Some(component))
    } else {
        Ok(None)
    }
}

// The component that the lines after the first three spell.
#[tactic(auto, unfolding(crate::specs::Form::component_in))]
fn read_body(alloc: Global, text: &[u8]) -> Result<Option<Component>, NoMemory>
    ensures { IfOk result (λ found. found ≡ spec.component_in (spec.form_lines text.now)) }
{
    let mut signals = List::new(alloc);
    signals.push(Signal {
        name: Text::from_slice(alloc, b"reset")?,
        role: Role::Input,
        width: 1,
        shape: None,
    })?;
    let blocks = read_signals(alloc, &mut signals, text)?;
    if signals.len() > MAX_SIGNALS {
        return Ok(None);
    }
    match read_blocks(alloc, signals.as_slice(), blocks)? {
        Some(blocks) => Ok(Some(Component { signals, blocks })),
        None => Ok(None),
    }
}

// Adds the signals that the lines declare, up to the first line that declares none, and returns the text from there.
fn read_signals<'a>(
    alloc: Global,
    signals: &mut List<Signal>,
    text: &'a [u8],
) -> Result<&'a [u8], NoMemory>
    ensures declared { OnOk result (signals.new ≡ signals.old ++ spec.declared (spec.form_lines text.entry.now)) }
    ensures rest { IfOk result (λ rest. spec.form_lines rest.now ≡ spec.after_declared (spec.form_lines text.entry.now)) }
{
    let mut rest = text;
    'lines: while let Some((line, after)) = next_line(rest) {
        let Some(declaration) = declaration_of(line) else {
            return Ok(rest);
        };
        let name = Text::from_slice(alloc, declaration.name)?;
        signals.push(Signal {
            name,
            role: declaration.role,
            width: declaration.width,
            shape: None,
        })?;
        rest = after;
    }
    Ok(rest)
}

// The blocks that lines spell, three lines for each.
fn read_blocks(
    alloc: Global,
    signals: &[Signal],
    text: &[u8],
) -> Result<Option<List<Assignment>>, NoMemory>
    ensures { IfOk result (λ found. found ≡ spec.blocks_of signals.now (spec.form_lines text.now)) }
{
    let mut found = List::new(alloc);
    let mut rest = text;
    'lines: while let Some((decorator, after_decorator)) = next_line(rest) {
        let Some((head, after_head)) = next_line(after_decorator) else {
            return Ok(None);
        };
        let Some((assignment, after)) = next_line(after_head) else {
            return Ok(None);
        };
        let Some(block) = read_block(alloc, signals, decorator, head, assignment)? else {
            return Ok(None);
        };
        found.push(block)?;
        rest = after;
    }
    Ok(Some(found))
}

// The block that three lines spell.
#[tactic(auto, unfolding(crate::specs::Form::block_of))]
fn read_block(
    alloc: Global,
    signals: &[Signal],
    decorator: &[u8],
    head: &[u8],
    assignment: &[u8],
) -> Result<Option<Assignment>, NoMemory>
    ensures { IfOk result (λ found. found ≡ spec.block_of signals.now decorator.now head.now assignment.now) }
{
    if decorator != b"    @update".as_slice() {
        return Ok(None);
    }
    let Some(name) = block_name(head) else {
        return Ok(None);
    };
    let Some((target, value)) = assignment_of(signals, assignment) else {
        return Ok(None);
    };
    let name = Text::from_slice(alloc, name)?;
    Ok(Some(Assignment {
        name,
        target,
        value,
    }))
}
