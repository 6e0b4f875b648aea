//! The answer to a row.
ghost use Rattle.pm_cons.specs.Edges.{AreEdges};
ghost use Rattle.pm_sched.specs.LeastPair.{AreConflicts};

use crate::edges::edges_of;
use pm_cons::Break;
use pm_design::Edges;
use pm_io::NoMemory;
use pm_sched::{OrderFault, default_order, first_break, unordered};
use std::alloc::{AllocError, Global};

/// The longest list that is printed whole, and the most numbers of a listed order.
const MAX_PRINTED: usize = 64;

const MAX_LISTED: usize = 100_000;

/// The default order or the cycle, and the least unordered pair; or the first break of the order that is listed after a
/// bar.
pub fn answer_to(alloc: Global, row: &str) -> Result<String, NoMemory> {
    match row.split_once('|') {
        Some((edges, numbers)) => break_answer(alloc, edges, numbers),
        None => order_answer(alloc, row),
    }
}

fn order_answer(alloc: Global, row: &str) -> Result<String, NoMemory> {
    let edges = edges_of(alloc, row)?;
    order_text(alloc, &edges)
}

fn break_answer(alloc: Global, row: &str, numbers: &str) -> Result<String, NoMemory> {
    let edges = edges_of(alloc, row)?;
    let order = numbers_of(alloc, numbers)?;
    break_text(alloc, &edges, order.as_slice())
}

fn numbers_of(alloc: Global, numbers: &str) -> Result<Vec<u32>, AllocError> {
    let mut list = Vec::new(alloc);
    for number in numbers.split_whitespace() {
        list.push(number.parse().unwrap_or(u32::MAX))?;
    }
    Ok(list)
}

fn order_text(alloc: Global, edges: &Edges) -> Result<String, NoMemory>
    requires edges { AreEdges edges.now }
    requires conflicts { AreConflicts edges.now.conflicts edges.now.count }
{
    let mut text = match default_order(alloc, edges) {
        Ok(order) => checked_text(alloc, edges, order.as_slice())?,
        Err(OrderFault::Cycle(cycle)) => list_text(alloc, "cycle", cycle.as_slice())?,
        Err(OrderFault::NoMemory) => return Err(NoMemory),
    };
    if let Some((first, second)) = unordered(alloc, edges)? {
        let pair = format!(in alloc; ", unordered {first} {second}")?;
        text.push_str(pair.as_str())?;
    }
    Ok(text)
}

// An order, and its first break if there is one.
fn checked_text(alloc: Global, edges: &Edges, order: &[u32]) -> Result<String, NoMemory>
    requires { AreEdges edges.now }
{
    let found = break_text(alloc, edges, order)?;
    let mut text = list_text(alloc, "order", order)?;
    if found.as_str() != "none" {
        text.push_str(", ")?;
        text.push_str(found.as_str())?;
    }
    Ok(text)
}

fn break_text(alloc: Global, edges: &Edges, order: &[u32]) -> Result<String, NoMemory>
    requires { AreEdges edges.now }
{
    if order.len() > MAX_LISTED {
        return Ok(String::from_str(alloc, "too long")?);
    }
    match first_break(alloc, edges, order)? {
        None => Ok(String::from_str(alloc, "none")?),
        Some(Break::Unknown(place)) => Ok(format!(in alloc; "unknown {place}")?),
        Some(Break::Repeated(place)) => Ok(format!(in alloc; "repeated {place}")?),
        Some(Break::Early(place)) => Ok(format!(in alloc; "early {place}")?),
        Some(Break::Missing(block)) => Ok(format!(in alloc; "missing {block}")?),
    }
}

// A word and the numbers, or the first two and the last of many.
fn list_text(alloc: Global, word: &str, numbers: &[u32]) -> Result<String, AllocError> {
    match numbers {
        [first, second, .., last] if numbers.len() > MAX_PRINTED => {
            format!(in alloc; "{word} {first} {second} .. {last}")
        }
        _ => whole_text(alloc, word, numbers),
    }
}

fn whole_text(alloc: Global, word: &str, numbers: &[u32]) -> Result<String, AllocError> {
    let mut text = String::from_str(alloc, word)?;
    for number in numbers {
        let printed = format!(in alloc; " {number}")?;
        text.push_str(printed.as_str())?;
    }
    Ok(text)
}
