//! The design that the tests cut: a component that adds 1 to its input, and its parent, which keeps the sum.
ghost use Rattle.std.specs.Prelude.{◌≡◌, ◌<◌, ◌∷◌, [], IfOk};
ghost use Rattle.pm_design.specs.Sample as spec;

use pm_bits::{Bits, Op};
use pm_design::{Block, BlockSort, Child, Design, Ex, Join, Kind, Part, Role, Signal, St};
use pm_io::{Boxed, List, NoMemory, Text};
use std::alloc::Global;

fn plain_signal(alloc: Global, name: &[u8], role: Role, width: u32) -> Result<Signal, NoMemory>
    ensures { IfOk result (λ signal. signal ≡ spec.plain_signal name.now role width) }
{
    Ok(Signal {
        name: Text::from_slice(alloc, name)?,
        role,
        width,
        shape: None,
    })
}

fn byte_of(owner: u32, signal: u32) -> Part
    ensures { result ≡ spec.byte_of owner signal }
{
    Part {
        owner,
        signal,
        lo: 0,
        width: 8,
    }
}

fn byte(value: u128) -> Bits
    requires { value < 256 }
    ensures { result ≡ record { width = 8; value = value } }
{
    match Bits::new(8, value) {
        Some(bits) => bits,
        None => unreachable!(),
    }
}

fn byte_ports(alloc: Global) -> Result<List<Signal>, NoMemory>
    ensures { IfOk result (λ ports. ports ≡ spec.byte_ports) }
{
    let mut ports = List::new(alloc);
    ports.push(plain_signal(alloc, b"reset", Role::Input, 1)?)?;
    ports.push(plain_signal(alloc, b"in_", Role::Input, 8)?)?;
    ports.push(plain_signal(alloc, b"out", Role::Output, 8)?)?;
    Ok(ports)
}

fn adding(alloc: Global) -> Result<Block, NoMemory>
    ensures { IfOk result (λ block. block ≡ spec.adding) }
{
    let input = Boxed::new(alloc, Ex::Get(byte_of(0, 1)))?;
    let one = Boxed::new(alloc, Ex::Const(byte(1)))?;
    let mut body = List::new(alloc);
    body.push(St::SetTemp(0, Ex::Bin(Op::Add, input, one)))?;
    body.push(St::Set(byte_of(0, 2), Ex::Temp(0, 0, 8)))?;
    Ok(Block {
        name: Text::from_slice(alloc, b"up")?,
        sort: BlockSort::Update,
        body,
        temps: List::from_slice(alloc, [8].as_slice())?,
    })
}

fn keeping(alloc: Global) -> Result<Block, NoMemory>
    ensures { IfOk result (λ block. block ≡ spec.keeping) }
{
    let reset = Part {
        owner: 0,
        signal: 0,
        lo: 0,
        width: 1,
    };
    let mut yes = List::new(alloc);
    yes.push(St::Set(byte_of(0, 2), Ex::Const(byte(0))))?;
    let mut no = List::new(alloc);
    no.push(St::Set(byte_of(0, 2), Ex::Get(byte_of(1, 2))))?;
    let mut body = List::new(alloc);
    body.push(St::If(Ex::Get(reset), yes, no))?;
    Ok(Block {
        name: Text::from_slice(alloc, b"keep")?,
        sort: BlockSort::Edge,
        body,
        temps: List::new(alloc),
    })
}

// A kind with a block, the ports of bytes and nothing else.
fn kind(alloc: Global, class: &[u8], block: Block, instances: u32) -> Result<Kind, NoMemory>
    ensures { IfOk result (λ kind. kind ≡ record spec.adder {
      class = class.now;
      blocks = block ∷ [];
      instances = instances;
    }) }
{
    let mut blocks = List::new(alloc);
    blocks.push(block)?;
    Ok(Kind {
        class: Text::from_slice(alloc, class)?,
        signals: byte_ports(alloc)?,
        states: List::new(alloc),
        children: List::new(alloc),
        methods: List::new(alloc),
        callers: List::new(alloc),
        joins: List::new(alloc),
        mismatched: List::new(alloc),
        ties: List::new(alloc),
        binds: List::new(alloc),
        blocks,
        rules: List::new(alloc),
        instances,
    })
}

fn keeper(alloc: Global) -> Result<Kind, NoMemory>
    ensures { IfOk result (λ kind. kind ≡ spec.keeper) }
{
    let mut keeper = kind(alloc, b"Keeper", keeping(alloc)?, 2)?;
    keeper.children.push(Child {
        name: Text::from_slice(alloc, b"add")?,
        kind: 0,
        line: 2,
    })?;
    keeper.joins.push(Join {
        line: 3,
        a: byte_of(0, 1),
        b: byte_of(1, 1),
        equal_types: true,
    })?;
    Ok(keeper)
}

pub(crate) fn sample(alloc: Global) -> Result<Design, NoMemory>
    ensures { IfOk result (λ design. design ≡ spec.sample) }
{
    let mut kinds = List::new(alloc);
    kinds.push(kind(alloc, b"Adder", adding(alloc)?, 1)?)?;
    kinds.push(keeper(alloc)?)?;
    Ok(Design {
        kinds,
        shapes: List::new(alloc),
        top: 1,
    })
}
