//! The lines of a file.
ghost use Rattle.std.specs.Prelude.{◌≡◌};
ghost use Rattle.pm_elab.specs.Files as spec;

use pm_syn::{Expr, Node, Stmt};

/// The name that an expression is.
#[tactic(auto, unfolding(pm_elab::specs::Files::name_of))]
pub fn name_of(e: &Expr) -> &[u8]
    ensures { result.now ≡ spec.name_of e.now }
{
    match e {
        Expr::Name(name) => name.as_slice(),
        _ => &[],
    }
}

/// Whether the line is a class of the name.
#[tactic(auto, unfolding(pm_elab::specs::Files::is_class))]
pub fn is_class(name: &[u8], node: &Node) -> bool
    ensures { result ≡ spec.is_class name.now node.now }
{
    match &node.stmt {
        Stmt::Class(class, _) => class.as_slice() == name,
        _ => false,
    }
}

/// Whether one of the lines is a class of the name.
#[tactic(auto, unfolding(pm_elab::specs::Files::has_class))]
pub fn has_class(nodes: &[Node], name: &[u8]) -> bool
    ensures { result ≡ spec.has_class nodes.now name.now }
{
    nodes.iter().any(|node| is_class(name, node))
}
