//! The design of what was made.
ghost use Rattle.std.specs.Prelude.{◌≡◌, [], ◌∷◌, ◌++◌, IfOk, OnOk, map};
ghost use Rattle.pm_elab.specs.Files as spec;
ghost use Rattle.pm_elab.specs.declared.elaboration.MadeKind.{MadeKind as Made};

use crate::moving::reversed;
use pm_design::{Design, Kind};
use pm_elab::{Elaboration, MadeKind, RawDesign, RawKind};
use pm_io::{List, NoMemory};
use pm_values::{Table, Value};
use std::alloc::Global;

/// The parts of the kinds.
#[derive(Drop)]
struct MadeParts {
    kinds: List<Kind>,
    raws: List<RawKind>,
}

/// Puts the parts of one more kind.
fn put(parts: &mut MadeParts, made: MadeKind) -> Result<(), NoMemory>
    ensures kinds { OnOk result (parts.new.kinds ≡ parts.old.kinds ++ made.kind ∷ []) }
    ensures raws { OnOk result (parts.new.raws ≡ parts.old.raws ++ made.raw ∷ []) }
{
    let kind_put = parts.kinds.push(made.kind);
    let raw_put = parts.raws.push(made.raw);
    kind_put?;
    raw_put?;
    Ok(())
}

fn parts(alloc: Global, made: List<MadeKind>) -> Result<MadeParts, NoMemory>
    ensures kinds { IfOk result (λ parts. parts.kinds ≡ map (λ (made : Made). made.kind) made) }
    ensures raws { IfOk result (λ parts. parts.raws ≡ map (λ (made : Made). made.raw) made) }
{
    let mut rest = reversed(alloc, made)?;
    let mut parts = MadeParts {
        kinds: List::new(alloc),
        raws: List::new(alloc),
    };
    while let Some(made) = rest.pop() {
        put(&mut parts, made)?;
    }
    Ok(parts)
}

/// The design of what was made, with the names of the file and the kind of the top component.
pub fn design_of(
    alloc: Global,
    elaboration: Elaboration,
    names: Table<Value>,
    top: u32,
) -> Result<RawDesign, NoMemory>
    ensures { IfOk result (λ raw. raw ≡ spec.design_of elaboration names top) }
{
    let MadeParts { kinds, raws } = parts(alloc, elaboration.kinds)?;
    Ok(RawDesign {
        design: Design {
            kinds,
            shapes: elaboration.shapes,
            top,
        },
        kinds: raws,
        names,
    })
}
