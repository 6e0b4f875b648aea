//! Copies of the lines of a file.
ghost use Rattle.std.specs.Prelude.{◌≡◌, IfOk};

use crate::statement::copy_statement;
use pm_io::{List, NoMemory};
use pm_syn::Node;
use std::alloc::Global;

/// A copy of the line and of the lines that belong to it.
#[cycle(node)]
pub fn copy_node(alloc: Global, node: &Node) -> Result<Node, NoMemory>
    ensures { IfOk result (λ copied. copied ≡ node.now) }
{
    let body = copy_nodes(alloc, node.body.as_slice())?;
    Ok(Node {
        line: node.line,
        stmt: copy_statement(alloc, &node.stmt)?,
        body,
    })
}

/// A copy of the lines, each with those that belong to it.
#[cycle(node)]
pub fn copy_nodes(alloc: Global, nodes: &[Node]) -> Result<List<Node>, NoMemory>
    ensures { IfOk result (λ copied. copied ≡ nodes.now) }
{
    let mut copied = List::new(alloc);
    for node in nodes {
        copied.push(copy_node(alloc, node)?)?;
    }
    Ok(copied)
}
