//! The tree of a file's lines.
ghost use Rattle.std.specs.Prelude.{[], ◌++◌, ◌<◌, ◌∷◌, ◌≡◌, All, IfOk, IsTrue, List as TheList, OnOk, Some, is_some, length, map, reverse};
ghost use Rattle.pm_parse.specs.StackedTrees as stack;
ghost use Rattle.pm_parse.specs.Trees as spec;
ghost use Rattle.pm_parse.specs.declared.entry.Entry.{Entry as TheEntry};
ghost use Rattle.pm_parse.specs.declared.tree.Tree.{Tree as TheTree};

use crate::entry::Entry;
use pm_io::{List, NoMemory};
use pm_syn::Node;
use std::alloc::Global;

/// A line with the lines inside it, and its column.
#[derive(Drop)]
struct Tree {
    column: u32,
    node: Node,
}

/// The trees of the lines, each of which has a statement.
///
/// They are made from the last line to the first, so that the trees inside a line are there when the line comes.
pub(crate) fn trees(alloc: Global, mut entries: List<Entry>) -> Result<List<Node>, NoMemory>
    requires { All (λ (e : TheEntry). IsTrue (is_some e.statement)) entries }
    ensures { IfOk result (λ nodes. spec.AreTrees entries nodes) }
{
    let mut after = List::new(alloc);
    while let Some(last) = entries.as_slice().last() {
        let body = take_deeper(alloc, &mut after, last.column)?;
        after.push(take_last(&mut entries, body))?;
    }
    take_all(alloc, after)
}

/// Takes the last line, and returns its tree with this body.
fn take_last(entries: &mut List<Entry>, body: List<Node>) -> Tree
    requires some { 0 < length entries.old }
    requires said { All (λ (e : TheEntry). IsTrue (is_some e.statement)) entries.old }
    ensures { (entry : TheEntry) (before : TheList TheEntry) → entries.old ≡ before ++ entry ∷ [] → (entries.new ≡ before) × (Some result ≡ stack.tree_of entry entry.statement body) }
{
    let entry = entries.pop().unwrap();
    Tree {
        column: entry.column,
        node: Node {
            line: entry.number,
            stmt: entry.statement.unwrap(),
            body,
        },
    }
}

/// Takes the first trees, in the order of their lines, as long as they are deeper than this column.
fn take_deeper(alloc: Global, trees: &mut List<Tree>, column: u32) -> Result<List<Node>, NoMemory>
    ensures taken { IfOk result (λ nodes. nodes ≡ stack.nodes_under column (reverse trees.old)) }
    ensures left { OnOk result (reverse trees.new ≡ stack.left_at column (reverse trees.old)) }
{
    let mut nodes = List::new(alloc);
    while is_deeper(trees.as_slice(), column) {
        nodes.push(trees.pop().unwrap().node)?;
    }
    Ok(nodes)
}

fn is_deeper(trees: &[Tree], column: u32) -> bool
    ensures { result ≡ stack.is_deeper column (reverse trees.now) }
{
    match trees.last() {
        Some(tree) => tree.column > column,
        None => false,
    }
}

/// Takes all trees, in the order of their lines.
fn take_all(alloc: Global, mut trees: List<Tree>) -> Result<List<Node>, NoMemory>
    ensures { IfOk result (λ nodes. nodes ≡ map (λ (t : TheTree). t.node) (reverse trees)) }
{
    let mut nodes = List::new(alloc);
    while let Some(tree) = trees.pop() {
        nodes.push(tree.node)?;
    }
    Ok(nodes)
}
