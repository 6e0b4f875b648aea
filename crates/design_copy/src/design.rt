//! Copies of a whole design.
ghost use Rattle.std.specs.Prelude.{◌≡◌, IfOk};

use crate::copied::{Copied, copy_list, copy_numbers, copy_text};
use pm_design::{Design, Kind, Shape};
use pm_io::{List, NoMemory};
use std::alloc::Global;

impl Copied for Shape {
    fn copied(&self, alloc: Global) -> Result<Shape, NoMemory> {
        Ok(Shape {
            name: copy_text(alloc, &self.name)?,
            fields: copy_list(alloc, self.fields.as_slice())?,
            width: self.width,
        })
    }
}

impl Copied for Kind {
    fn copied(&self, alloc: Global) -> Result<Kind, NoMemory> {
        let mut copied = Kind {
            class: copy_text(alloc, &self.class)?,
            signals: List::new(alloc),
            states: List::new(alloc),
            children: List::new(alloc),
            methods: List::new(alloc),
            callers: List::new(alloc),
            joins: List::new(alloc),
            mismatched: List::new(alloc),
            ties: List::new(alloc),
            binds: List::new(alloc),
            blocks: List::new(alloc),
            rules: List::new(alloc),
            instances: self.instances,
        };
        copy_members(alloc, self, &mut copied)?;
        copy_connections(alloc, self, &mut copied)?;
        Ok(copied)
    }
}

// Copies the signals, states, children, methods, caller ports and blocks of a kind into another one.
fn copy_members(alloc: Global, kind: &Kind, copied: &mut Kind) -> Result<(), NoMemory>
    ensures { IfOk result (λ _. copied.new ≡ record copied.old {
      signals = kind.now.signals;
      states = kind.now.states;
      children = kind.now.children;
      methods = kind.now.methods;
      callers = kind.now.callers;
      blocks = kind.now.blocks;
    }) }
{
    copied.signals = copy_list(alloc, kind.signals.as_slice())?;
    copied.states = copy_list(alloc, kind.states.as_slice())?;
    copied.children = copy_list(alloc, kind.children.as_slice())?;
    copied.methods = copy_list(alloc, kind.methods.as_slice())?;
    copied.callers = copy_list(alloc, kind.callers.as_slice())?;
    copied.blocks = copy_list(alloc, kind.blocks.as_slice())?;
    Ok(())
}

// Copies the connections, ties and constraints of a kind into another one.
fn copy_connections(alloc: Global, kind: &Kind, copied: &mut Kind) -> Result<(), NoMemory>
    ensures { IfOk result (λ _. copied.new ≡ record copied.old {
      joins = kind.now.joins;
      mismatched = kind.now.mismatched;
      ties = kind.now.ties;
      binds = kind.now.binds;
      rules = kind.now.rules;
    }) }
{
    copied.joins = copy_list(alloc, kind.joins.as_slice())?;
    copied.mismatched = copy_numbers(alloc, kind.mismatched.as_slice())?;
    copied.ties = copy_list(alloc, kind.ties.as_slice())?;
    copied.binds = copy_list(alloc, kind.binds.as_slice())?;
    copied.rules = copy_list(alloc, kind.rules.as_slice())?;
    Ok(())
}

/// A copy of the design.
pub fn copy_design(alloc: Global, design: &Design) -> Result<Design, NoMemory>
    ensures { IfOk result (λ copied. copied ≡ design.now) }
{
    Ok(Design {
        kinds: copy_list(alloc, design.kinds.as_slice())?,
        shapes: copy_list(alloc, design.shapes.as_slice())?,
        top: design.top,
    })
}
