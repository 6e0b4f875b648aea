//! The reported cycle, by layers: from which blocks a walk of each length leads to the block.
ghost use Rattle.std.specs.Prelude.{◌≡◌, ◌<◌, ◌+◌, ◌^◌, ◌&&◌, ◌∷◌, ℕ, List, None, IfOk, IfSome, IsFalse, IsTrue, eqb};
ghost use Rattle.bit_table.specs.Tables.{Adds, is_set};
ghost use Rattle.pm_cons.specs.Below.{any_below, least_below};
ghost use Rattle.pm_cons.specs.Cycles.{IsReportedCycle};
ghost use Rattle.pm_cons.specs.Precedence.{precedes};
ghost use Rattle.pm_cons.specs.Walks.{IsLeastWalk, walks};
ghost use Rattle.pm_sched.specs.Cycles.{AreLayers, IsLength, IsCycleFrom};
ghost use Rattle.pm_sched.specs.Tables.{precedence_in};

use bit_table::BitTable;
use pm_io::{List, NoMemory};
use std::alloc::{AllocError, Global};

/// The reported cycle, from its least block. That is the least block on any loop.
pub fn cycle_from(alloc: Global, predecessors: &BitTable, block: u32) -> Result<List<u32>, NoMemory>
    requires square { predecessors.now.columns ≡ predecessors.now.rows }
    requires block { block < predecessors.now.rows }
    requires least { (b : ℕ) → b < block → IsFalse (precedes (precedence_in predecessors.now) b b) }
    requires on_loop { IsTrue (precedes (precedence_in predecessors.now) block block) }
    ensures { IfOk result (IsCycleFrom (precedence_in predecessors.now) block) }
{
    let mut layers = first_layer(alloc, predecessors, block)?;
    match last_layer(predecessors, &mut layers, block) {
        Some(last) => walk_back(alloc, predecessors, &layers, block, last),
        None => unreachable!(),
    }
}

// A table with room for as many layers as blocks, and in it the first: the direct predecessors of a block.
fn first_layer(alloc: Global, predecessors: &BitTable, block: u32) -> Result<BitTable, AllocError>
    requires square { predecessors.now.columns ≡ predecessors.now.rows }
    requires block { block < predecessors.now.rows }
    ensures { IfOk result (λ layers. AreLayers predecessors.now layers block 0) }
{
    let count = predecessors.rows();
    let mut layers = BitTable::new(alloc, count, count)?;
    layers.add_row_of(0, predecessors, block);
    Ok(layers)
}

// Makes layers until one has the block itself, and returns its number.
fn last_layer(predecessors: &BitTable, layers: &mut BitTable, block: u32) -> Option<u32>
    requires square { predecessors.now.columns ≡ predecessors.now.rows }
    requires block { block < predecessors.now.rows }
    requires layers { AreLayers predecessors.now layers.old block 0 }
    ensures layers { IfSome result (AreLayers predecessors.now layers.new block) }
    ensures length { IfSome result (IsLength (precedence_in predecessors.now) block) }
    ensures none { result ≡ None → (k : ℕ) → k < predecessors.now.rows →
        IsFalse (walks k (precedence_in predecessors.now) block block) }
{
    for layer in 0..predecessors.rows() {
        if layers.has(layer, block) {
            return Some(layer);
        }
        next_layer(predecessors, layers, layer);
    }
    None
}

// Makes the layer after a layer, unless that is the last for which there is room.
fn next_layer(predecessors: &BitTable, layers: &mut BitTable, layer: u32)
    requires columns { layers.old.columns ≡ predecessors.now.columns }
    requires square { predecessors.now.columns ≡ predecessors.now.rows }
    requires layer { layer < layers.old.rows }
    ensures rows { layers.new.rows ≡ layers.old.rows }
    ensures columns { layers.new.columns ≡ layers.old.columns }
    ensures added { layer + 1 < layers.old.rows → Adds layers.old layers.new (λ j x. eqb j (layer + 1)
        && any_below predecessors.now.rows (λ b. is_set predecessors.now b x && is_set layers.old layer b)) }
{
    if layer < layers.rows() - 1 {
        add_layer(predecessors, layers, layer);
    }
}

// Adds to the next layer the direct predecessors of each block in a layer.
fn add_layer(predecessors: &BitTable, layers: &mut BitTable, layer: u32)
    requires columns { layers.old.columns ≡ predecessors.now.columns }
    requires square { predecessors.now.columns ≡ predecessors.now.rows }
    requires layer { layer + 1 < layers.old.rows }
    requires fits { layer + 1 < 2 ^ 32 }
    ensures { Adds layers.old layers.new (λ j x. eqb j (layer + 1)
        && any_below predecessors.now.rows (λ b. is_set predecessors.now b x && is_set layers.old layer b)) }
{
    for block in 0..predecessors.rows() {
        add_predecessors(predecessors, layers, layer, block);
    }
}

// Adds to the next layer the direct predecessors of a block, if it is in a layer.
fn add_predecessors(predecessors: &BitTable, layers: &mut BitTable, layer: u32, block: u32)
    requires columns { layers.old.columns ≡ predecessors.now.columns }
    requires square { predecessors.now.columns ≡ predecessors.now.rows }
    requires layer { layer + 1 < layers.old.rows }
    requires fits { layer + 1 < 2 ^ 32 }
    requires block { block < predecessors.now.rows }
    ensures { Adds layers.old layers.new (λ j x. eqb j (layer + 1)
        && (is_set predecessors.now block x && is_set layers.old layer block)) }
{
    if layers.has(layer, block) {
        layers.add_row_of(layer + 1, predecessors, block);
    }
}

// The walk from a block back to it that takes the least block at each step.
fn walk_back(
    alloc: Global,
    predecessors: &BitTable,
    layers: &BitTable,
    block: u32,
    last: u32,
) -> Result<List<u32>, NoMemory>
    requires square { predecessors.now.columns ≡ predecessors.now.rows }
    requires block { block < predecessors.now.rows }
    requires layers { AreLayers predecessors.now layers.now block last }
    requires length { IsLength (precedence_in predecessors.now) block last }
    ensures { IfOk result (λ list. (xs : List ℕ) × (list ≡ block ∷ xs)
        × IsLeastWalk (precedence_in predecessors.now) last block block xs) }
{
    let mut list = List::new(alloc);
    list.push(block)?;
    let mut at = block;
    for step in 0..last {
        match next_step(predecessors, layers, at, last - 1 - step) {
            Some(next) => {
                list.push(next)?;
                at = next;
            }
            None => unreachable!(),
        }
    }
    Ok(list)
}

// The least block of a layer that comes directly after a block.
fn next_step(predecessors: &BitTable, layers: &BitTable, block: u32, layer: u32) -> Option<u32>
    requires square { predecessors.now.columns ≡ predecessors.now.rows }
    requires columns { layers.now.columns ≡ predecessors.now.columns }
    requires block { block < predecessors.now.rows }
    requires layer { layer < layers.now.rows }
    ensures { result ≡ least_below predecessors.now.rows
        (λ b. is_set predecessors.now b block && is_set layers.now layer b) }
{
    for next in 0..predecessors.rows() {
        if predecessors.has(next, block) && layers.has(layer, next) {
            return Some(next);
        }
    }
    None
}
