//! The blocks that the lines of an order file name.
ghost use Rattle.std.specs.Prelude.{◌≡◌, ◌<◌, ◌^◌, IfOk, length, unwrap_or};
ghost use Rattle.name_places.specs.Places.{FindsPlaces};
ghost use Rattle.pm_values.specs.Tables.{get};
ghost use Rattle.order_file.specs.Orders as spec;

use crate::lines::next_line;
use name_places::{add_place, place_in};
use pm_design::{Flat, Plan};
use pm_io::{List, NoMemory};
use pm_values::Table;
use std::alloc::Global;

/// The number of the scheduled block that each line names. A line that names none has the number of these blocks.
pub fn read_order(alloc: Global, plan: &Plan, text: &[u8]) -> Result<List<u32>, NoMemory>
    requires { length plan.now.scheduled < 2 ^ 32 }
    ensures { IfOk result (λ order. order ≡ spec.order_of plan.now.scheduled text.now) }
{
    numbers_of(alloc, plan.scheduled.as_slice(), text)
}

// The number of the block that each line names.
fn numbers_of(alloc: Global, blocks: &[Flat], text: &[u8]) -> Result<List<u32>, NoMemory>
    requires { length blocks.now < 2 ^ 32 }
    ensures { IfOk result (λ order. order ≡ spec.order_of blocks.now text.now) }
{
    let places = places_of(alloc, blocks)?;
    let mut order = List::new(alloc);
    let mut rest = text;
    'lines: while let Some((line, after)) = next_line(rest) {
        order.push(number_of(&places, blocks.len() as u32, line))?;
        rest = after;
    }
    Ok(order)
}

// The numbers of the blocks, by their names.
fn places_of(alloc: Global, blocks: &[Flat]) -> Result<Table<u32>, NoMemory>
    requires { length blocks.now < 2 ^ 32 }
    ensures { IfOk result (FindsPlaces (λ block. block.name) blocks.now) }
{
    let mut places = Table::new(alloc);
    for (place, block) in blocks.iter().enumerate() {
        add_place(alloc, &mut places, block.name.as_slice(), place as u32)?;
    }
    Ok(places)
}

// The number of the block with this name, and if there is none the number of blocks.
fn number_of(places: &Table<u32>, count: u32, name: &[u8]) -> u32
    ensures { result ≡ unwrap_or (get places.now name.now) count }
{
    match place_in(places, name) {
        Some(place) => place,
        None => count,
    }
}
