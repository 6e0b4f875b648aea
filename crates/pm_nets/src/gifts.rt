//! What the ports, the ties and the blocks of a kind give to the nets within it.
ghost use Rattle.std.specs.Prelude.{◌≡◌, ◌++◌, ◌≤◌, ◌^◌, IfOk, IsTrue, OnOk, length};
ghost use Rattle.std.specs.List.{list_all};
ghost use Rattle.pm_design.specs.Elaborated.{IsElaborated, IsWellSized, is_before};
ghost use Rattle.pm_design.specs.declared.design.Design.{Design};
ghost use Rattle.pm_design.specs.declared.design.Kind.{Kind};
ghost use Rattle.pm_design.specs.Lookups.{kind_of, lies_within};
ghost use Rattle.pm_design.specs.Sound.{is_sound_block};
ghost use Rattle.pm_nets.specs.Givers.{block_gifts, child_outputs, gifts_of, given_by, output_part, outputs_from};
ghost use Rattle.pm_nets.specs.Givers.{source_parts as source_parts_of, tie_gifts};

use crate::driving::input_parts;
use crate::giver::{Gift, Source};
use crate::source::{is_output, kind_at};
use crate::written::written_parts;
use pm_design::{Block, Child, Design, Kind, Part, Signal, Tie};
use pm_io::NoMemory;
use std::alloc::Global;

// Adds all bits of a signal, if it is an output.
fn push_output(
    parts: &mut Vec<Part>,
    owner: u32,
    number: u32,
    signal: &Signal,
) -> Result<(), NoMemory>
    ensures { OnOk result (parts.new.items ≡ parts.old.items ++ output_part owner number signal.now) }
{
    if is_output(signal.role) {
        parts.push(Part {
            owner,
            signal: number,
            lo: 0,
            width: signal.width,
        })?;
    }
    Ok(())
}

// Adds the outputs among signals, each whole.
#[tactic(auto, using(crate::proofs::GiftLists::outputs))]
fn push_outputs(parts: &mut Vec<Part>, owner: u32, signals: &[Signal]) -> Result<(), NoMemory>
    requires { length signals.now ≤ 2 ^ 21 }
    ensures { OnOk result (parts.new.items ≡ parts.old.items ++ outputs_from owner 0 signals.now) }
{
    let mut number = 0;
    for signal in signals {
        push_output(parts, owner, number, signal)?;
        number += 1;
    }
    Ok(())
}

// Adds the outputs of children.
#[tactic(auto, using(crate::proofs::GiftLists::children))]
fn push_child_outputs(
    design: &Design,
    parts: &mut Vec<Part>,
    children: &[Child],
) -> Result<(), NoMemory>
    requires design { IsElaborated design.now }
    requires children { IsTrue (list_all (is_before (length design.now.kinds)) children.now) }
    requires few { length children.now ≤ 4096 }
    ensures { OnOk result (parts.new.items ≡ parts.old.items ++ child_outputs design.now 1 children.now) }
{
    let mut owner = 1;
    for child in children {
        push_outputs(parts, owner, kind_at(design, child.kind).signals.as_slice())?;
        owner += 1;
    }
    Ok(())
}

// Adds parts that one source gives to.
#[tactic(auto, using(crate::proofs::DrivenParts::ties))]
fn push_given(gifts: &mut Vec<Gift>, source: Source, parts: &[Part]) -> Result<(), NoMemory>
    ensures { OnOk result (gifts.new.items ≡ gifts.old.items ++ given_by source parts.now) }
{
    for part in parts {
        gifts.push(Gift {
            source,
            part: *part,
        })?;
    }
    Ok(())
}

// Adds what ties give.
#[tactic(auto, using(crate::proofs::GiftLists::ties))]
fn push_ties(gifts: &mut Vec<Gift>, ties: &[Tie]) -> Result<(), NoMemory>
    ensures { OnOk result (gifts.new.items ≡ gifts.old.items ++ tie_gifts 0 ties.now) }
{
    for number in 0..ties.len() {
        let source = Source::Tie(number);
        let part = ties[number].part;
        gifts.push(Gift { source, part })?;
    }
    Ok(())
}

// Adds what blocks give.
#[tactic(auto, using(crate::proofs::GiftLists::blocks))]
fn push_blocks(alloc: Global, gifts: &mut Vec<Gift>, blocks: &[Block]) -> Result<(), NoMemory>
    requires { length blocks.now ≤ 2 ^ 20 }
    ensures gifts { OnOk result (gifts.new.items ≡ gifts.old.items ++ block_gifts 0 blocks.now) }
    ensures within { OnOk result ((design : Design) (kind : Kind) →
        IsTrue (list_all (is_sound_block design kind) blocks.now) →
        IsTrue (list_all (λ g. lies_within design kind g.part) (block_gifts 0 blocks.now))) }
{
    let mut number = 0;
    for block in blocks {
        let parts = written_parts(alloc, block.body.as_slice())?;
        push_given(gifts, Source::Block(number), parts.as_slice())?;
        number += 1;
    }
    Ok(())
}

/// What the ports, the ties and the blocks of a kind give.
#[tactic(auto, using(crate::proofs::GiftLists::sized))]
pub(crate) fn gifts(alloc: Global, design: &Design, kind: &Kind) -> Result<Vec<Gift>, NoMemory>
    requires design { IsElaborated design.now }
    requires children { IsTrue (list_all (is_before (length design.now.kinds)) kind.now.children) }
    requires few { length kind.now.children ≤ 4096 }
    requires sized { IsWellSized design.now kind.now }
    ensures gifts { IfOk result (λ gifts. gifts.items ≡ gifts_of design.now kind.now) }
    ensures blocks { IfOk result (λ gifts. IsTrue (list_all (is_sound_block design.now kind.now) kind.now.blocks) →
        IsTrue (list_all (λ g. lies_within design.now kind.now g.part) (block_gifts 0 kind.now.blocks))) }
{
    let mut parts = input_parts(alloc, kind.signals.as_slice())?;
    push_child_outputs(design, &mut parts, kind.children.as_slice())?;
    let mut gifts = Vec::new(alloc);
    push_given(&mut gifts, Source::Port, parts.as_slice())?;
    push_ties(&mut gifts, kind.ties.as_slice())?;
    push_blocks(alloc, &mut gifts, kind.blocks.as_slice())?;
    Ok(gifts)
}
