//! The edges and the conflicts of a row.
ghost use Rattle.std.specs.Prelude.{◌≡◌, ◌<◌, ℕ, IfOk, IsTrue};
ghost use Rattle.pm_cons.specs.Edges.{AreEdges};
ghost use Rattle.pm_cons.specs.Orders.{has};
ghost use Rattle.pm_sched.specs.LeastPair.{AreConflicts, AreGreater};

use pm_design::Edges;
use pm_io::{List, NoMemory};
use std::alloc::Global;

/// The most blocks of a row.
const MAX_BLOCKS: u32 = 4096;

/// Which edges there are.
#[derive(Clone, Copy)]
pub enum Pattern<'a> {
    /// Those that are listed, as `0<1 1<2`; and conflicts, as `0~2`.
    Listed(&'a str),
    /// One from each block to the one below it.
    Back,
    /// One from each block to every greater one.
    All,
    /// One from each block to the next, and from the last to the first.
    Ring,
}

impl<'a> Pattern<'a> {
    fn new(edges: &'a str) -> Pattern<'a> {
        match edges.trim() {
            "back" => Pattern::Back,
            "all" => Pattern::All,
            "ring" => Pattern::Ring,
            listed => Pattern::Listed(listed),
        }
    }

    // Whether there is an edge from one block to another, among this many blocks.
    fn has(&self, count: u32, a: u32, b: u32) -> bool {
        match self {
            Pattern::Listed(edges) => edges.split_whitespace().any(|edge| is_edge(edge, a, b)),
            Pattern::Back => is_next(b, a),
            Pattern::All => a < b,
            Pattern::Ring => is_next(a, b) || (b == 0 && is_next(a, count)),
        }
    }

    // Whether two blocks conflict. Only a list says so.
    fn conflicts(&self, a: u32, b: u32) -> bool {
        match self {
            Pattern::Listed(words) => is_conflict(words, a, b),
            Pattern::Back | Pattern::All | Pattern::Ring => false,
        }
    }
}

// Whether a row lists a conflict of two blocks, as `0~1`.
fn is_conflict(words: &str, a: u32, b: u32) -> bool {
    words.split_whitespace().any(|word| match word.split_once('~') {
        Some((one, other)) => one.parse() == Ok(a) && other.parse() == Ok(b),
        None => false,
    })
}

// Whether the second number is one more than the first.
fn is_next(a: u32, b: u32) -> bool {
    a < b && b - a == 1
}

// Whether a word is the edge from one block to another.
fn is_edge(word: &str, a: u32, b: u32) -> bool {
    match word.split_once('<') {
        Some((from, to)) => from.parse() == Ok(a) && to.parse() == Ok(b),
        None => false,
    }
}

/// The edges of a row: a number of blocks, a colon, the edges and the conflicts.
pub fn edges_of(alloc: Global, row: &str) -> Result<Edges, NoMemory>
    ensures edges { IfOk result AreEdges }
    ensures conflicts { IfOk result (λ edges. AreConflicts edges.conflicts edges.count) }
{
    match row.split_once(':') {
        Some((count, edges)) => edges_in(
            alloc,
            count.trim().parse().unwrap_or(0).min(MAX_BLOCKS),
            Pattern::new(edges),
        ),
        None => edges_in(alloc, 0, Pattern::Back),
    }
}

fn edges_in(alloc: Global, count: u32, pattern: Pattern<'_>) -> Result<Edges, NoMemory>
    ensures edges { IfOk result AreEdges }
    ensures conflicts { IfOk result (λ edges. AreConflicts edges.conflicts edges.count) }
{
    let mut after = List::new(alloc);
    for block in 0..count {
        after.push(blocks_after(alloc, count, pattern, block)?)?;
    }
    let conflicts = conflicts_in(alloc, count, pattern)?;
    Ok(Edges {
        count,
        after,
        explicit: List::new(alloc),
        conflicts,
    })
}

// For each block the greater ones with which it conflicts.
fn conflicts_in(
    alloc: Global,
    count: u32,
    pattern: Pattern<'_>,
) -> Result<List<List<u32>>, NoMemory>
    ensures { IfOk result (λ rows. AreConflicts rows count) }
{
    let mut conflicts = List::new(alloc);
    for block in 0..count {
        conflicts.push(blocks_in_conflict(alloc, count, pattern, block)?)?;
    }
    Ok(conflicts)
}

// The greater blocks with which a block conflicts.
fn blocks_in_conflict(
    alloc: Global,
    count: u32,
    pattern: Pattern<'_>,
    block: u32,
) -> Result<List<u32>, NoMemory>
    requires { block < count }
    ensures { IfOk result (λ row. AreGreater row block count) }
{
    let mut row = List::new(alloc);
    for other in block + 1..count {
        if pattern.conflicts(block, other) {
            row.push(other)?;
        }
    }
    Ok(row)
}

// The blocks to which an edge leads from a block.
fn blocks_after(
    alloc: Global,
    count: u32,
    pattern: Pattern<'_>,
    block: u32,
) -> Result<List<u32>, NoMemory>
    ensures { IfOk result (λ row. (b : ℕ) → IsTrue (has row b) → b < count) }
{
    let mut row = List::new(alloc);
    for other in 0..count {
        if pattern.has(count, block, other) {
            row.push(other)?;
        }
    }
    Ok(row)
}
