//! Typed bodies put into their design.
ghost use Rattle.std.specs.Prelude.{◌≡◌, IfOk, None, drop, replicate, slice_set, Some};
ghost use Rattle.pm_types.specs.Filled as spec;

use crate::bodies::TypedBody;
use pm_design::{Block, Design, Ex, Kind, Method, St};
use pm_io::{List, NoMemory};
use pm_type_expr::Queue;
use std::alloc::Global;
use std::mem;

/// The statements of a body, the widths of its temporaries, and its answer.
#[derive(Drop)]
pub struct Filling {
    pub out: List<St>,
    pub temps: List<u32>,
    pub answer: Option<Ex>,
}

/// The bodies of a kind, by the numbers of their blocks and methods.
#[derive(Drop)]
pub struct Slots {
    pub blocks: List<Option<Filling>>,
    pub methods: List<Option<Filling>>,
    pub guards: List<Option<Ex>>,
}

fn no_fillings(alloc: Global, count: usize) -> Result<List<Option<Filling>>, NoMemory>
    ensures { IfOk result (λ slots. slots ≡ replicate count None) }
{
    let mut slots = List::new(alloc);
    for _ in 0..count {
        slots.push(None)?;
    }
    Ok(slots)
}

fn no_guards(alloc: Global, count: usize) -> Result<List<Option<Ex>>, NoMemory>
    ensures { IfOk result (λ slots. slots ≡ replicate count None) }
{
    let mut slots = List::new(alloc);
    for _ in 0..count {
        slots.push(None)?;
    }
    Ok(slots)
}

fn put_filling(slots: &mut List<Option<Filling>>, number: u32, filling: Filling)
    ensures { slots.new ≡ slice_set slots.old number (Some filling) }
{
    if (number as usize) < slots.len() {
        slots.set(number as usize, Some(filling));
    }
}

fn put_guard(slots: &mut List<Option<Ex>>, number: u32, guard: Ex)
    ensures { slots.new ≡ slice_set slots.old number (Some guard) }
{
    if (number as usize) < slots.len() {
        slots.set(number as usize, Some(guard));
    }
}

fn put_body(slots: &mut Slots, body: TypedBody)
    ensures { slots.new ≡ spec.with_body body slots.old }
{
    match body {
        TypedBody::Block(number, out, temps) => {
            let filling = Filling {
                out,
                temps,
                answer: None,
            };
            put_filling(&mut slots.blocks, number, filling);
        }
        TypedBody::Method(number, out, temps, answer) => {
            let filling = Filling { out, temps, answer };
            put_filling(&mut slots.methods, number, filling);
        }
        TypedBody::Guard(number, guard) => put_guard(&mut slots.guards, number, guard),
    }
}

#[tactic(auto, using(crate::proofs::Slots::with_last, crate::proofs::Slots::with_none, crate::proofs::Slots::all_found))]
fn slots_of(
    alloc: Global,
    blocks: usize,
    methods: usize,
    bodies: List<TypedBody>,
) -> Result<Slots, NoMemory>
    ensures { IfOk result (λ slots. slots ≡ spec.slots_of blocks methods bodies) }
{
    let mut slots = Slots {
        blocks: no_fillings(alloc, blocks)?,
        methods: no_fillings(alloc, methods)?,
        guards: no_guards(alloc, methods)?,
    };
    let mut bodies = bodies;
    while let Some(body) = bodies.pop() {
        put_body(&mut slots, body);
    }
    Ok(slots)
}

fn filled_block(block: Block, filling: Option<Filling>) -> Block
    ensures { result ≡ spec.filled_block block filling }
{
    let mut block = block;
    if let Some(filling) = filling {
        block.body = filling.out;
        block.temps = filling.temps;
    }
    block
}

// The next of those that are left, if there is one.
fn next_filling(fillings: &mut Queue<Option<Filling>>) -> Option<Filling>
    ensures first { result ≡ spec.first fillings.old }
    ensures rest { fillings.new ≡ drop 1 fillings.old }
{
    match fillings.next() {
        Some(filling) => filling,
        None => None,
    }
}

fn next_guard(guards: &mut Queue<Option<Ex>>) -> Option<Ex>
    ensures first { result ≡ spec.first guards.old }
    ensures rest { guards.new ≡ drop 1 guards.old }
{
    match guards.next() {
        Some(guard) => guard,
        None => None,
    }
}

#[tactic(auto, unfolding(crate::specs::Filled::filled_blocks))]
fn filled_blocks(
    alloc: Global,
    blocks: List<Block>,
    slots: List<Option<Filling>>,
) -> Result<List<Block>, NoMemory>
    ensures { IfOk result (λ filled. filled ≡ spec.filled_blocks blocks slots) }
{
    let mut queue = Queue::new(alloc, blocks)?;
    let mut fillings = Queue::new(alloc, slots)?;
    let mut filled = List::new(alloc);
    while let Some(block) = queue.next() {
        let filling = next_filling(&mut fillings);
        filled.push(filled_block(block, filling))?;
    }
    Ok(filled)
}

fn with_filling(method: Method, filling: Option<Filling>) -> Method
    ensures { result ≡ spec.with_filling method filling }
{
    let mut method = method;
    if let Some(filling) = filling {
        method.body = filling.out;
        method.temps = filling.temps;
        method.answer = filling.answer;
    }
    method
}

fn with_guard(method: Method, guard: Option<Ex>) -> Method
    ensures { result ≡ spec.with_guard method guard }
{
    let mut method = method;
    if let Some(guard) = guard {
        method.guard = Some(guard);
    }
    method
}

#[tactic(auto, unfolding(crate::specs::Filled::filled_methods))]
fn filled_methods(
    alloc: Global,
    methods: List<Method>,
    slots: List<Option<Filling>>,
    guards: List<Option<Ex>>,
) -> Result<List<Method>, NoMemory>
    ensures { IfOk result (λ filled. filled ≡ spec.filled_methods methods slots guards) }
{
    let mut queue = Queue::new(alloc, methods)?;
    let mut fillings = Queue::new(alloc, slots)?;
    let mut guards = Queue::new(alloc, guards)?;
    let mut filled = List::new(alloc);
    while let Some(method) = queue.next() {
        let method = with_filling(method, next_filling(&mut fillings));
        filled.push(with_guard(method, next_guard(&mut guards)))?;
    }
    Ok(filled)
}

#[tactic(auto, unfolding(crate::specs::Filled::filled_kind))]
fn filled_kind(alloc: Global, kind: Kind, bodies: List<TypedBody>) -> Result<Kind, NoMemory>
    ensures { IfOk result (λ filled. filled ≡ spec.filled_kind kind bodies) }
{
    let mut kind = kind;
    let Slots {
        blocks,
        methods,
        guards,
    } = slots_of(alloc, kind.blocks.len(), kind.methods.len(), bodies)?;
    let old = mem::replace(&mut kind.blocks, List::new(alloc));
    kind.blocks = filled_blocks(alloc, old, blocks)?;
    let old = mem::replace(&mut kind.methods, List::new(alloc));
    kind.methods = filled_methods(alloc, old, methods, guards)?;
    Ok(kind)
}

// A kind with its bodies, if there are any.
fn kind_with(alloc: Global, kind: Kind, bodies: Option<List<TypedBody>>) -> Result<Kind, NoMemory>
    ensures { IfOk result (λ filled. filled ≡ spec.kind_with kind bodies) }
{
    match bodies {
        Some(bodies) => filled_kind(alloc, kind, bodies),
        None => Ok(kind),
    }
}

#[tactic(auto, unfolding(crate::specs::Filled::filled_kinds))]
fn filled_kinds(
    alloc: Global,
    kinds: List<Kind>,
    bodies: List<List<TypedBody>>,
) -> Result<List<Kind>, NoMemory>
    ensures { IfOk result (λ filled. filled ≡ spec.filled_kinds kinds bodies) }
{
    let mut queue = Queue::new(alloc, kinds)?;
    let mut bodies = Queue::new(alloc, bodies)?;
    let mut filled = List::new(alloc);
    while let Some(kind) = queue.next() {
        let kind = kind_with(alloc, kind, bodies.next())?;
        filled.push(kind)?;
    }
    Ok(filled)
}

/// The design with its bodies.
pub fn filled(
    alloc: Global,
    design: Design,
    bodies: List<List<TypedBody>>,
) -> Result<Design, NoMemory>
    ensures { IfOk result (λ filled. filled ≡ spec.filled design bodies) }
{
    let mut design = design;
    let kinds = mem::replace(&mut design.kinds, List::new(alloc));
    design.kinds = filled_kinds(alloc, kinds, bodies)?;
    Ok(design)
}
