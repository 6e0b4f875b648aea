//! The `construct` of a class.
ghost use Rattle.std.specs.Prelude.{◌≡◌};
ghost use Rattle.std.specs.Option.{option_map, option_copied};
ghost use Rattle.pm_elab.specs.Classes as spec;

use pm_elab::Construct;
use pm_io::Boxed;
use pm_syn::{Node, Stmt};

fn statement_in(after: &Option<Boxed<Stmt>>) -> Option<&Stmt>
    ensures { option_copied result ≡ after.now }
{
    match after {
        Some(stmt) => Some(stmt.get()),
        None => None,
    }
}

/// The `construct` of a line, if it is one.
#[tactic(auto, unfolding(pm_elab::specs::Classes::construct_of_line))]
pub fn construct_of_line(node: &Node) -> Option<Construct<'_>>
    ensures { option_map spec.construct_of result ≡ spec.construct_of_line node.now }
{
    match &node.stmt {
        Stmt::Def(name, _, parameters, _, after) => {
            if name.as_slice() != b"construct".as_slice() {
                return None;
            }
            Some(Construct {
                line: node.line,
                parameters: parameters.as_slice(),
                after: statement_in(after),
                body: node.body.as_slice(),
            })
        }
        _ => None,
    }
}

/// The `construct` among a class's lines, or an empty one.
#[tactic(auto, unfolding(pm_elab::specs::Classes::construct_in))]
pub fn construct_in(nodes: &[Node]) -> Construct<'_>
    ensures { spec.construct_of result ≡ spec.construct_in nodes.now }
{
    for node in nodes {
        if let Some(construct) = construct_of_line(node) {
            return construct;
        }
    }
    Construct {
        line: 0,
        parameters: &[],
        after: None,
        body: &[],
    }
}
