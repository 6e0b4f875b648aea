//! Classes of the file that have a `construct`.
ghost use Rattle.std.specs.Prelude.{◌≡◌};
ghost use Rattle.std.specs.Option.{option_map};
ghost use Rattle.pm_elab.specs.Classes as spec;
ghost use Rattle.pm_class.specs.Class.{class_of};

use pm_elab::ConstructedClass;
use pm_syn::{Node, Stmt};

/// A class that has a `construct`.
#[derive(Clone, Copy)]
pub struct Class<'a> {
    /// What its objects are.
    pub class: ConstructedClass,
    pub lines: &'a [Node],
}

fn class_by<'a>(base: &[u8], lines: &'a [Node]) -> Option<Class<'a>>
    ensures { option_map class_of result ≡ spec.class_by base.now lines.now }
{
    if base == b"Component".as_slice() {
        return Some(Class {
            class: ConstructedClass::Component,
            lines,
        });
    }
    if base == b"Interface".as_slice() {
        return Some(Class {
            class: ConstructedClass::Interface,
            lines,
        });
    }
    None
}

/// The class of a line, if it has the name.
#[tactic(auto, unfolding(pm_elab::specs::Classes::class_of_line))]
pub fn class_of_line<'a>(name: &[u8], node: &'a Node) -> Option<Class<'a>>
    ensures { option_map class_of result ≡ spec.class_of_line name.now node.now }
{
    match &node.stmt {
        Stmt::Class(class, Some(base)) => {
            if class.as_slice() == name {
                class_by(base.as_slice(), node.body.as_slice())
            } else {
                None
            }
        }
        _ => None,
    }
}

/// The class of a name.
#[tactic(auto, unfolding(pm_elab::specs::Classes::class_named))]
pub fn class_named<'a>(nodes: &'a [Node], name: &[u8]) -> Option<Class<'a>>
    ensures { option_map class_of result ≡ spec.class_named nodes.now name.now }
{
    for node in nodes {
        if let Some(class) = class_of_line(name, node) {
            return Some(class);
        }
    }
    None
}
