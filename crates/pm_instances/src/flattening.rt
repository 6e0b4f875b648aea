//! Instances in preorder.
ghost use Rattle.std.specs.Prelude.{◌≡◌, ◌+◌, ◌*◌, ◌<◌, ◌≤◌, ◌^◌, ◌++◌, ◌∷◌, [], IfOk, OnOk, IsTrue, codes};
ghost use Rattle.std.specs.Prelude.{length, map};
ghost use Rattle.std.specs.List.{list_all};
ghost use Rattle.pm_design.specs.Elaborated.{IsElaborated, is_before};
ghost use Rattle.pm_design.specs.Instances.{flat_bits, instances_of, numbers_from, own_bits as own_bits_of};
ghost use Rattle.pm_design.specs.Lookups.{kind_of};
ghost use Rattle.pm_design.specs.Widths.{total};
ghost use Rattle.pm_instances.specs.Adding.{Adds, HasRoom, below, instance_here, place_of};

use crate::bits::own_bits;
use crate::lookup::kind_at;
use pm_design::{Child, Design, Instance};
use pm_io::{List, NoMemory, Text};
use std::alloc::Global;

/// The instances so far, and how many flat bits and states they have.
#[derive(Drop)]
struct Progress {
    instances: Vec<Instance>,
    bit: u32,
    state: u64,
}

// The path of a child.
fn child_path(alloc: Global, path: &[u8], name: &[u8]) -> Result<Vec<u8>, NoMemory>
    ensures { IfOk result (λ made. made.items ≡ path.now ++ codes "." ++ name.now) }
{
    let mut made = Vec::from_slice(alloc, path)?;
    made.push(b'.')?;
    made.extend_from_slice(name)?;
    Ok(made)
}

// The numbers of the instances of children, of which the first has the given number.
#[tactic(auto, using(crate::proofs::Numbers::child_numbering))]
fn child_numbers(
    alloc: Global,
    design: &Design,
    first: u32,
    children: &[Child],
) -> Result<List<u32>, NoMemory>
    requires kinds { IsTrue (list_all (is_before (length design.now.kinds)) children.now) }
    requires few { first + total (map (λ c. (kind_of design.now c.kind).instances) children.now) < 2 ^ 32 }
    ensures { IfOk result (λ numbers. numbers ≡ numbers_from design.now first children.now) }
{
    let mut numbers = List::new(alloc);
    let mut number = first;
    for child in children {
        numbers.push(number)?;
        number += kind_at(design, child.kind).instances;
    }
    Ok(numbers)
}

// Adds a component, without those within it.
fn add_one(
    alloc: Global,
    design: &Design,
    parent: Option<u32>,
    path: &[u8],
    kind: u32,
    progress: &mut Progress,
) -> Result<(), NoMemory>
    requires design { IsElaborated design.now }
    requires kind { kind < length design.now.kinds }
    requires instances { length progress.old.instances.items < 4096 }
    requires bits { progress.old.bit + own_bits_of (kind_of design.now kind) ≤ 2 ^ 18 }
    requires states { progress.old.state ≤ length progress.old.instances.items * 2 ^ 20 }
    ensures { OnOk result (Adds design.now progress.old progress.new
        (instance_here design.now parent path.now (place_of progress.old) kind ∷ [])) }
{
    let own = kind_at(design, kind);
    let number = progress.instances.len() as u32;
    let instance = Instance {
        path: Text::from_slice(alloc, path)?,
        kind,
        parent,
        children: child_numbers(alloc, design, number + 1, own.children.as_slice())?,
        first_bit: progress.bit,
        first_state: progress.state as u32,
    };
    progress.instances.push(instance)?;
    progress.bit += own_bits(own);
    progress.state += own.states.len() as u64;
    Ok(())
}

// Adds a component and those within it.
fn visit(
    alloc: Global,
    design: &Design,
    parent: Option<u32>,
    path: &[u8],
    kind: u32,
    progress: &mut Progress,
) -> Result<(), NoMemory>
    requires design { IsElaborated design.now }
    requires kind { kind < length design.now.kinds }
    requires room { HasRoom design.now progress.old (below design.now parent path.now (place_of progress.old) kind) }
    ensures { OnOk result (Adds design.now progress.old progress.new
        (below design.now parent path.now (place_of progress.old) kind)) }
{
    let number = progress.instances.len() as u32;
    add_one(alloc, design, parent, path, kind, progress)?;
    for child in kind_at(design, kind).children.as_slice() {
        let name = child_path(alloc, path, child.name.as_slice())?;
        visit(
            alloc,
            design,
            Some(number),
            name.as_slice(),
            child.kind,
            progress,
        )?;
    }
    Ok(())
}

/// The instances of a design in preorder, the top first, children in order of declaration.
pub fn flatten(alloc: Global, design: &Design) -> Result<List<Instance>, NoMemory>
    requires design { IsElaborated design.now }
    requires bits { flat_bits design.now ≤ 2 ^ 18 }
    ensures { IfOk result (λ instances. instances ≡ instances_of design.now) }
{
    let mut progress = Progress {
        instances: Vec::new(alloc),
        bit: 0,
        state: 0,
    };
    visit(alloc, design, None, b"s", design.top, &mut progress)?;
    Ok(List::from_vec(progress.instances))
}
