//! A design laid out: its instances, nets and update blocks, and the order in which the blocks run.
ghost use Rattle.std.specs.Prelude.{◌≡◌, ◌<◌, IfOk, IsTrue, length};
ghost use Rattle.pm_design.specs.Ports as spec;
ghost use Rattle.pm_design.specs.Ports.{HasPorts, IsRowOf};
ghost use Rattle.pm_design.specs.Widths.{is_width};

use crate::design::Design;
use crate::signal::Signal;
use pm_bits::Bits;
use pm_io::{List, NoMemory, Text};
use std::alloc::Global;

/// A component of the hierarchy. Instances are numbered in preorder, the top first.
#[derive(Drop)]
pub struct Instance {
    /// Its path from the top, as `s.left.queue[0]`.
    pub path: Text,
    pub kind: u32,
    /// The instance that it is a child of, unless it is the top.
    pub parent: Option<u32>,
    /// The instances of its children, in order of declaration.
    pub children: List<u32>,
    /// The flat bit that is bit 0 of its first signal.
    pub first_bit: u32,
    /// The number of its first state among those of all instances.
    pub first_state: u32,
}

/// Some neighbouring flat bits.
#[derive(Clone, Copy, PartialEq, Eq)]
pub struct FlatPart {
    /// The first of them.
    pub bit: u32,
    /// How many they are.
    pub width: u32,
}

/// Which flat bits are connected. Flat bits are numbered by instance, then signal, then bit.
#[derive(Drop)]
pub struct Nets {
    /// The net of each flat bit. Nets are numbered in the order of their least flat bits.
    pub net_of: List<u32>,
    pub count: u32,
}

/// In which order the scheduled blocks run, as far as the design says.
#[derive(Drop)]
pub struct Edges {
    /// How many scheduled blocks there are.
    pub count: u32,
    /// For each block those that run after it, one step away.
    pub after: List<List<u32>>,
    /// Those of `after` that a constraint of the design asks for.
    pub explicit: List<List<u32>>,
    /// For each block the greater ones that touch a place with it, one of the two writing it.
    pub conflicts: List<List<u32>>,
}

/// An update block of an instance.
#[derive(Drop)]
pub struct Flat {
    pub instance: u32,
    /// Its number in the instance's kind.
    pub block: u32,
    pub name: Text,
}

/// All that a simulation of a design needs to know of it.
#[derive(Drop)]
pub struct Plan {
    pub design: Design,
    pub instances: List<Instance>,
    pub nets: Nets,
    /// The `update` and `update_once` blocks, by instance and then by declaration.
    pub scheduled: List<Flat>,
    /// The `update_ff` blocks, by instance and then by declaration.
    pub edge_blocks: List<Flat>,
    pub edges: Edges,
    /// The order in which the scheduled blocks run in each cycle.
    pub order: List<u32>,
    /// The input signals of the top's kind in order of declaration, without `reset`.
    pub inputs: List<u32>,
    /// The ports of the top's kind in order of declaration, without `reset`.
    pub ports: List<u32>,
    /// How many nodes the scheduled blocks have, methods put in.
    pub work: u64,
}

/// The values of the top's inputs in one cycle, in the order of the plan's `inputs`.
#[derive(Drop)]
pub struct Row {
    pub values: List<Bits>,
}

impl Plan {
    /// The signals of the top's kind, `reset` first. The plan's `inputs` and `ports` are numbers of them.
    pub fn top_signals(&self) -> &[Signal]
        requires { self.now.design.top < length self.now.design.kinds }
        ensures { result.now ≡ spec.top_signals self.now }
    {
        self.design.kinds.as_slice()[self.design.top as usize]
            .signals
            .as_slice()
    }
}

impl Row {
    /// A value of 0 for each input of the top, of the input's width.
    #[tactic(auto, using(crate::proofs::Ports::zero_row_fits))]
    pub fn new(alloc: Global, plan: &Plan) -> Result<Row, NoMemory>
        requires { HasPorts plan.now }
        ensures zeros { IfOk result (λ row. row.values ≡ spec.zero_row plan.now) }
        ensures fits { IfOk result (λ row. IsRowOf plan.now row.values) }
    {
        let values = zeros(alloc, plan)?;
        Ok(Row { values })
    }
}

// A value of 0 for each input.
#[tactic(auto, using(crate::proofs::Elements::item_passes))]
fn zeros(alloc: Global, plan: &Plan) -> Result<List<Bits>, NoMemory>
    requires { HasPorts plan.now }
    ensures { IfOk result (λ values. values ≡ spec.zero_row plan.now) }
{
    let signals = plan.top_signals();
    let mut values = List::new(alloc);
    for number in plan.inputs.as_slice() {
        values.push(zero(signals[*number as usize].width))?;
    }
    Ok(values)
}

// The value 0 of a width.
fn zero(width: u32) -> Bits
    requires { IsTrue (is_width width) }
    ensures { result ≡ record { width = width; value = 0 } }
{
    match Bits::new(width, 0) {
        Some(value) => value,
        None => unreachable!(),
    }
}
