//! What an order file of a row is read as.
ghost use Rattle.std.specs.Prelude.{◌≡◌};

use crate::pieces::pieces_of;
use order_file::read_order;
use pm_design::{Design, Edges, Flat, Nets, Plan};
use pm_io::{List, NoMemory, Text};
use std::alloc::Global;

/// The most blocks of a row.
const MAX_BLOCKS: usize = 1000;

/// The number of the block that each line names.
pub fn order_answer(alloc: Global, row: &str) -> Result<Vec<u8>, NoMemory> {
    let pieces = pieces_of(alloc, row)?;
    match pieces.as_slice() {
        [names, text] => numbers_of(alloc, names.as_str(), text.as_bytes()),
        _ => Ok(Vec::from_slice(alloc, b"no order file")?),
    }
}

fn numbers_of(alloc: Global, names: &str, text: &[u8]) -> Result<Vec<u8>, NoMemory> {
    let blocks = blocks_of(alloc, names)?;
    if blocks.len() > MAX_BLOCKS {
        return Ok(Vec::from_slice(alloc, b"too many blocks")?);
    }
    let order = read_order(alloc, &plan_of(alloc, blocks), text)?;
    let mut answer = Vec::from_slice(alloc, b"order")?;
    for number in order.as_slice() {
        let printed = format!(in alloc; " {number}")?;
        answer.extend_from_slice(printed.as_bytes())?;
    }
    Ok(answer)
}

// A plan with these blocks and nothing else.
fn plan_of(alloc: Global, scheduled: List<Flat>) -> Plan
    ensures { result.scheduled ≡ scheduled }
{
    Plan {
        design: Design {
            kinds: List::new(alloc),
            shapes: List::new(alloc),
            top: 0,
        },
        instances: List::new(alloc),
        nets: Nets {
            net_of: List::new(alloc),
            count: 0,
        },
        scheduled,
        edge_blocks: List::new(alloc),
        edges: Edges {
            count: 0,
            after: List::new(alloc),
            explicit: List::new(alloc),
            conflicts: List::new(alloc),
        },
        order: List::new(alloc),
        inputs: List::new(alloc),
        ports: List::new(alloc),
        work: 0,
    }
}

// Blocks of these names.
fn blocks_of(alloc: Global, names: &str) -> Result<List<Flat>, NoMemory> {
    let mut blocks = List::new(alloc);
    for name in names.split_whitespace() {
        blocks.push(Flat {
            instance: 0,
            block: 0,
            name: Text::from_slice(alloc, name.as_bytes())?,
        })?;
    }
    Ok(blocks)
}
