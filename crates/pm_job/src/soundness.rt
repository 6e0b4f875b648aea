//! What lines alone don't show of a component of the narrow form: counts, names, targets and widths.
ghost use Rattle.std.specs.Prelude.{◌≡◌, ◌==◌, not, false, slice_get};
ghost use Rattle.std.specs.Option.{option_map_or};
ghost use Rattle.std.specs.List.{list_all, list_any};
ghost use Rattle.std.specs.Str.{bytes_eq};
ghost use Rattle.pm_job.specs.Form as spec;
ghost use Rattle.pm_job.specs.Sound as sound;

use crate::component::{Assignment, Component, Expression, Operand};
use crate::form::{MAX_BLOCKS, MAX_SIGNALS};
use crate::inputs::is_input;
use pm_bits::Op;
use pm_design::Signal;

/// Whether the form allows the counts, names, targets and widths of a component.
#[tactic(auto, unfolding(crate::specs::Form::is_sound))]
pub(crate) fn is_sound(component: &Component) -> bool
    ensures { result ≡ spec.is_sound component.now }
{
    let signals = component.signals.as_slice();
    let blocks = component.blocks.as_slice();
    is_counted(component)
        && signals_differ(signals)
        && names_differ(signals, blocks)
        && targets_differ(blocks)
        && have_targets(signals, blocks)
        && is_typed(component)
}

fn is_counted(component: &Component) -> bool
    ensures { result ≡ spec.is_counted component.now }
{
    let signals = component.signals.len();
    2 <= signals && signals <= MAX_SIGNALS && component.blocks.len() <= MAX_BLOCKS
}

fn signals_differ(signals: &[Signal]) -> bool
    ensures { result ≡ spec.signals_differ signals.now }
{
    for index in 0..signals.len() {
        if has_signal(&signals[index + 1..], signals[index].name.as_slice()) {
            return false;
        }
    }
    true
}

// Whether one of the signals has this name.
fn has_signal(signals: &[Signal], name: &[u8]) -> bool
    ensures { result ≡ list_any (λ signal. bytes_eq signal.name name.now) signals.now }
{
    signals.iter().any(|signal| signal.name.as_slice() == name)
}

fn names_differ(signals: &[Signal], blocks: &[Assignment]) -> bool
    ensures { result ≡ spec.names_differ signals.now blocks.now }
{
    for index in 0..blocks.len() {
        let name = blocks[index].name.as_slice();
        if has_signal(signals, name) || has_block(&blocks[index + 1..], name) {
            return false;
        }
    }
    true
}

// Whether one of the blocks has this name.
fn has_block(blocks: &[Assignment], name: &[u8]) -> bool
    ensures { result ≡ list_any (λ block. bytes_eq block.name name.now) blocks.now }
{
    blocks.iter().any(|block| block.name.as_slice() == name)
}

fn targets_differ(blocks: &[Assignment]) -> bool
    ensures { result ≡ spec.targets_differ blocks.now }
{
    for index in 0..blocks.len() {
        if some_assigns(&blocks[index + 1..], blocks[index].target) {
            return false;
        }
    }
    true
}

// Whether one of the blocks assigns this signal.
fn some_assigns(blocks: &[Assignment], target: usize) -> bool
    ensures { result ≡ list_any (λ block. block.target == target) blocks.now }
{
    blocks.iter().any(|block| block.target == target)
}

fn have_targets(signals: &[Signal], blocks: &[Assignment]) -> bool
    ensures { result ≡ list_all (spec.has_target signals.now) blocks.now }
{
    blocks.iter().all(|block| has_target(signals, block.target))
}

// Whether a target is a signal, but not an input.
fn has_target(signals: &[Signal], target: usize) -> bool
    ensures { result ≡ spec.is_driven signals.now target }
{
    match signals.get(target) {
        Some(signal) => !is_input(signal.role),
        None => false,
    }
}

fn is_typed(component: &Component) -> bool
    ensures { result ≡ sound.is_typed component.now }
{
    let signals = component.signals.as_slice();
    have_widths(signals) && are_typed(signals, component.blocks.as_slice())
}

fn have_widths(signals: &[Signal]) -> bool
    ensures { result ≡ list_all sound.is_width (sound.widths_of signals.now) }
{
    signals.iter().all(|signal| is_width(signal.width))
}

fn is_width(width: u32) -> bool
    ensures { result ≡ sound.is_width width }
{
    1 <= width && width <= 128
}

fn are_typed(signals: &[Signal], blocks: &[Assignment]) -> bool
    ensures { result ≡ list_all (sound.assignment_fits (sound.widths_of signals.now)) blocks.now }
{
    blocks.iter().all(|block| assignment_fits(signals, block.target, block.value))
}

fn assignment_fits(signals: &[Signal], target: usize, value: Expression) -> bool
    ensures { result ≡ option_map_or (λ width. sound.expression_fits (sound.widths_of signals.now) width value) (slice_get (sound.widths_of signals.now) target) false }
{
    match signals.get(target) {
        Some(signal) => expression_fits(signals, signal.width, value),
        None => false,
    }
}

fn expression_fits(signals: &[Signal], width: u32, value: Expression) -> bool
    ensures { result ≡ sound.expression_fits (sound.widths_of signals.now) width value }
{
    match value {
        Expression::Just(a) => operand_fits(signals, width, a),
        Expression::Both(op, a, b) => {
            keeps_width(op) && operand_fits(signals, width, a) && operand_fits(signals, width, b)
        }
    }
}

fn operand_fits(signals: &[Signal], width: u32, operand: Operand) -> bool
    ensures { result ≡ sound.operand_fits (sound.widths_of signals.now) width operand }
{
    match operand {
        Operand::Signal(index) => has_width(signals, width, index),
        Operand::Constant(bits) => bits.width() == width,
    }
}

fn has_width(signals: &[Signal], width: u32, index: usize) -> bool
    ensures { result ≡ sound.has_width (sound.widths_of signals.now) width index }
{
    match signals.get(index) {
        Some(signal) => signal.width == width,
        None => false,
    }
}

fn keeps_width(op: Op) -> bool
    ensures { result ≡ sound.keeps_width op }
{
    match op {
        Op::Add | Op::Sub | Op::Mul | Op::And | Op::Or | Op::Xor | Op::Shl | Op::Shr => true,
        Op::Eq | Op::Ne | Op::Lt | Op::Le | Op::Gt | Op::Ge => false,
    }
}
