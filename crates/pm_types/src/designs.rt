//! The bodies of a design.
ghost use Rattle.std.specs.Prelude.{◌≡◌, [], IfOk, map};
ghost use Rattle.pm_typing.specs.Counted.{Counts, Gives};
ghost use Rattle.pm_types.specs.ByLine.{by_line};
ghost use Rattle.pm_types.specs.Designs as spec;

use crate::bodies::{KindScope, TypedBody};
use pm_design::{Block, Ex, Kind, Method, St};
use pm_elab::{RawBody, RawDesign, RawKind};
use pm_io::{List, NoMemory};
use pm_typing::{Tally, TypeFault};
use std::alloc::Global;

// Bodies by line, and those of one line in their order.
fn by_line<'a>(alloc: Global, bodies: &'a [RawBody]) -> Result<Vec<&'a RawBody>, NoMemory>
    ensures { IfOk result (λ order. map (λ body. body.now) order.items ≡ by_line bodies.now) }
{
    let mut order = Vec::new(alloc);
    for body in bodies {
        order.push(body)?;
    }
    order.sort_by_key(|body| body.line)?;
    Ok(order)
}

#[tactic(auto, unfolding(crate::specs::Designs::bodies_from))]
fn typed_bodies(
    alloc: Global,
    tally: &mut Tally,
    scope: &KindScope<'_>,
    bodies: &[&RawBody],
) -> Result<List<TypedBody>, TypeFault>
    ensures { Counts (spec.bodies_from [] scope.now.design.now scope.now.kind.now scope.now.raw.now (map (λ body. body.now) bodies.now) tally.old) result tally.new }
{
    let mut typed = List::new(alloc);
    for body in bodies {
        typed.push(scope.typed(alloc, tally, body)?)?;
    }
    Ok(typed)
}

// The bodies of a kind, whose nodes are counted together.
#[tactic(auto, unfolding(crate::specs::Designs::kind_bodies))]
fn kind_bodies(
    alloc: Global,
    design: &RawDesign,
    kind: &Kind,
    raw: &RawKind,
) -> Result<List<TypedBody>, TypeFault>
    ensures { Gives (spec.kind_bodies design.now kind.now raw.now) result }
{
    let scope = KindScope { design, kind, raw };
    let mut tally = Tally { nodes: 0, line: 0 };
    let order = by_line(alloc, raw.bodies.as_slice())?;
    typed_bodies(alloc, &mut tally, &scope, order.as_slice())
}

#[tactic(auto, unfolding(crate::specs::Designs::all_bodies_from), using(crate::proofs::Drops::drop_some, crate::proofs::Drops::drop_none, crate::proofs::Drops::drop_all))]
pub fn all_bodies(alloc: Global, design: &RawDesign) -> Result<List<List<TypedBody>>, TypeFault>
    ensures { Gives (spec.all_bodies design.now) result }
{
    let mut typed = List::new(alloc);
    for number in 0..design.design.kinds.len() {
        match (design.design.kinds.get(number), design.kinds.get(number)) {
            (Some(kind), Some(raw)) => {
                let bodies = kind_bodies(alloc, design, kind, raw)?;
                typed.push(bodies)?;
            }
            _ => return Ok(typed),
        }
    }
    Ok(typed)
}
