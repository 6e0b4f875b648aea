//! A plan of one block, `s.out @= ( s.acc ^ s.in_ ) + s.k`, of 32 bits.
ghost use Rattle.std.specs.Prelude.{◌≡◌, IfOk};
ghost use Rattle.block_bench.specs.Sample as sample;

use pm_bits::Op;
use pm_design::{
    Block, BlockSort, Design, Edges, Ex, Flat, Instance, Kind, Nets, Part, Plan, Role, Signal, St,
};
use pm_io::{Boxed, List, NoMemory, Text};
use std::alloc::Global;

fn part(signal: u32) -> Part
    ensures { result ≡ sample.word_of signal }
{
    Part {
        owner: 0,
        signal,
        lo: 0,
        width: 32,
    }
}

#[tactic(auto, unfolding(crate::specs::Sample::body))]
fn body(alloc: Global) -> Result<List<St>, NoMemory>
    ensures { IfOk result (λ b. b ≡ sample.body) }
{
    let left = Ex::Bin(
        Op::Xor,
        Boxed::new(alloc, Ex::Get(part(1)))?,
        Boxed::new(alloc, Ex::Get(part(2)))?,
    );
    let sum = Ex::Bin(
        Op::Add,
        Boxed::new(alloc, left)?,
        Boxed::new(alloc, Ex::Get(part(3)))?,
    );
    let mut body = List::new(alloc);
    body.push(St::Set(part(4), sum))?;
    Ok(body)
}

fn signal(alloc: Global, name: &[u8], role: Role, width: u32) -> Result<Signal, NoMemory>
    ensures { IfOk result (λ s. s ≡ sample.plain_signal name.now role width) }
{
    Ok(Signal {
        name: Text::from_slice(alloc, name)?,
        role,
        width,
        shape: None,
    })
}

#[tactic(auto, unfolding(crate::specs::Sample::signals))]
fn signals(alloc: Global) -> Result<List<Signal>, NoMemory>
    ensures { IfOk result (λ list. list ≡ sample.signals) }
{
    let mut list = List::new(alloc);
    list.push(signal(alloc, b"reset", Role::Input, 1)?)?;
    list.push(signal(alloc, b"acc", Role::Input, 32)?)?;
    list.push(signal(alloc, b"in_", Role::Input, 32)?)?;
    list.push(signal(alloc, b"k", Role::Input, 32)?)?;
    list.push(signal(alloc, b"out", Role::Output, 32)?)?;
    Ok(list)
}

fn blocks(alloc: Global) -> Result<List<Block>, NoMemory>
    ensures { IfOk result (λ list. list ≡ sample.kind.blocks) }
{
    let mut list = List::new(alloc);
    let name = Text::from_slice(alloc, b"up")?;
    let body = body(alloc)?;
    list.push(Block {
        name,
        sort: BlockSort::Update,
        body,
        temps: List::new(alloc),
    })?;
    Ok(list)
}

fn kind(alloc: Global) -> Result<Kind, NoMemory>
    ensures { IfOk result (λ k. k ≡ sample.kind) }
{
    let class = Text::from_slice(alloc, b"Sum")?;
    let signals = signals(alloc)?;
    Ok(Kind {
        class,
        signals,
        states: List::new(alloc),
        children: List::new(alloc),
        methods: List::new(alloc),
        callers: List::new(alloc),
        joins: List::new(alloc),
        mismatched: List::new(alloc),
        ties: List::new(alloc),
        binds: List::new(alloc),
        blocks: blocks(alloc)?,
        rules: List::new(alloc),
        instances: 1,
    })
}

fn design(alloc: Global) -> Result<Design, NoMemory>
    ensures { IfOk result (λ d. d ≡ sample.plan.design) }
{
    let mut kinds = List::new(alloc);
    kinds.push(kind(alloc)?)?;
    Ok(Design {
        kinds,
        shapes: List::new(alloc),
        top: 0,
    })
}

#[tactic(auto, unfolding(crate::specs::Sample::nets))]
fn net_of(alloc: Global) -> Result<List<u32>, NoMemory>
    ensures { IfOk result (λ list. list ≡ sample.nets) }
{
    Ok(List::from_vec(vec![in alloc;
        0, 1, 2, 3, 4, 5, 6, 7, 8, 9, 10, 11, 12, 13, 14, 15, 16, 17, 18, 19, 20, 21, 22, 23, 24,
        25, 26, 27, 28, 29, 30, 31, 32, 33, 34, 35, 36, 37, 38, 39, 40, 41, 42, 43, 44, 45, 46, 47,
        48, 49, 50, 51, 52, 53, 54, 55, 56, 57, 58, 59, 60, 61, 62, 63, 64, 65, 66, 67, 68, 69, 70,
        71, 72, 73, 74, 75, 76, 77, 78, 79, 80, 81, 82, 83, 84, 85, 86, 87, 88, 89, 90, 91, 92, 93,
        94, 95, 96, 97, 98, 99, 100, 101, 102, 103, 104, 105, 106, 107, 108, 109, 110, 111, 112,
        113, 114, 115, 116, 117, 118, 119, 120, 121, 122, 123, 124, 125, 126, 127, 128,
    ]?))
}

fn instances(alloc: Global) -> Result<List<Instance>, NoMemory>
    ensures { IfOk result (λ list. list ≡ sample.plan.instances) }
{
    let mut list = List::new(alloc);
    let path = Text::from_slice(alloc, b"s")?;
    list.push(Instance {
        path,
        kind: 0,
        parent: None,
        children: List::new(alloc),
        first_bit: 0,
        first_state: 0,
    })?;
    Ok(list)
}

fn scheduled(alloc: Global) -> Result<List<Flat>, NoMemory>
    ensures { IfOk result (λ list. list ≡ sample.plan.scheduled) }
{
    let mut list = List::new(alloc);
    let name = Text::from_slice(alloc, b"s.up")?;
    list.push(Flat {
        instance: 0,
        block: 0,
        name,
    })?;
    Ok(list)
}

fn numbers(alloc: Global, numbers: &[u32]) -> Result<List<u32>, NoMemory>
    ensures { IfOk result (λ list. list ≡ numbers.now) }
{
    Ok(List::from_slice(alloc, numbers)?)
}

fn no_blocks(alloc: Global) -> Result<List<List<u32>>, NoMemory>
    ensures { IfOk result (λ list. list ≡ sample.plan.edges.after) }
{
    let mut list = List::new(alloc);
    list.push(List::new(alloc))?;
    Ok(list)
}

fn edges(alloc: Global) -> Result<Edges, NoMemory>
    ensures { IfOk result (λ e. e ≡ sample.plan.edges) }
{
    let after = no_blocks(alloc)?;
    let explicit = no_blocks(alloc)?;
    Ok(Edges {
        count: 1,
        after,
        explicit,
        conflicts: no_blocks(alloc)?,
    })
}

/// The plan.
pub fn plan(alloc: Global) -> Result<Plan, NoMemory>
    ensures { IfOk result (λ p. p ≡ sample.plan) }
{
    let instances = instances(alloc)?;
    let net_of = net_of(alloc)?;
    let scheduled = scheduled(alloc)?;
    let edges = edges(alloc)?;
    let order = numbers(alloc, &[0])?;
    let inputs = numbers(alloc, &[1, 2, 3])?;
    let ports = numbers(alloc, &[1, 2, 3, 4])?;
    Ok(Plan {
        design: design(alloc)?,
        instances,
        nets: Nets { net_of, count: 129 },
        scheduled,
        edge_blocks: List::new(alloc),
        edges,
        order,
        inputs,
        ports,
        work: 6,
    })
}
