//! The parts that drive nets: inputs, ties, and what blocks write.
ghost use Rattle.std.specs.Prelude.{◌≡◌, ◌++◌, ◌≤◌, ◌^◌, IfOk, IsTrue, OnOk, length, map};
ghost use Rattle.std.specs.List.{list_all};
ghost use Rattle.pm_design.specs.declared.design.Design.{Design};
ghost use Rattle.pm_design.specs.declared.design.Kind.{Kind};
ghost use Rattle.pm_design.specs.Lookups.{lies_within};
ghost use Rattle.pm_design.specs.Sound.{is_sound_block};
ghost use Rattle.pm_nets.specs.Drivers.{driven_parts as driven_parts_of, input_part, inputs_from, written_by};

use crate::source::is_input;
use crate::written::push_body;
use pm_design::{Block, Kind, Part, Signal, Tie};
use pm_io::NoMemory;
use std::alloc::Global;

// Adds all bits of a signal, if it is an input.
fn push_input(parts: &mut Vec<Part>, number: u32, signal: &Signal) -> Result<(), NoMemory>
    ensures { OnOk result (parts.new.items ≡ parts.old.items ++ input_part number signal.now) }
{
    if is_input(signal.role) {
        parts.push(Part {
            owner: 0,
            signal: number,
            lo: 0,
            width: signal.width,
        })?;
    }
    Ok(())
}

/// The inputs among the signals of a kind, each whole.
#[tactic(auto, using(crate::proofs::DrivenParts::inputs))]
pub(crate) fn input_parts(alloc: Global, signals: &[Signal]) -> Result<Vec<Part>, NoMemory>
    requires { length signals.now ≤ 2 ^ 21 }
    ensures { IfOk result (λ parts. parts.items ≡ inputs_from 0 signals.now) }
{
    let mut parts = Vec::new(alloc);
    let mut number = 0;
    for signal in signals {
        push_input(&mut parts, number, signal)?;
        number += 1;
    }
    Ok(parts)
}

// Adds the parts that ties drive.
#[tactic(auto, using(crate::proofs::DrivenParts::ties))]
fn push_ties(parts: &mut Vec<Part>, ties: &[Tie]) -> Result<(), NoMemory>
    ensures { OnOk result (parts.new.items ≡ parts.old.items ++ map (λ t. t.part) ties.now) }
{
    for tie in ties {
        parts.push(tie.part)?;
    }
    Ok(())
}

// Adds the parts that blocks may write.
fn push_blocks(parts: &mut Vec<Part>, blocks: &[Block]) -> Result<(), NoMemory>
    ensures parts { OnOk result (parts.new.items ≡ parts.old.items ++ written_by blocks.now) }
    ensures within { OnOk result ((design : Design) (kind : Kind) →
        IsTrue (list_all (is_sound_block design kind) blocks.now) →
        IsTrue (list_all (lies_within design kind) (written_by blocks.now))) }
{
    for block in blocks {
        push_body(parts, block.body.as_slice())?;
    }
    Ok(())
}

/// The parts that the ties and the blocks of a kind drive.
pub(crate) fn driven_parts(alloc: Global, kind: &Kind) -> Result<Vec<Part>, NoMemory>
    ensures parts { IfOk result (λ parts. parts.items ≡ driven_parts_of kind.now) }
    ensures within { IfOk result (λ parts. (design : Design) →
        IsTrue (list_all (λ t. lies_within design kind.now t.part) kind.now.ties) →
        IsTrue (list_all (is_sound_block design kind.now) kind.now.blocks) →
        IsTrue (list_all (lies_within design kind.now) parts.items)) }
{
    let mut parts = Vec::new(alloc);
    push_ties(&mut parts, kind.ties.as_slice())?;
    push_blocks(&mut parts, kind.blocks.as_slice())?;
    Ok(parts)
}
