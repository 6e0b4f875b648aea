//! What stands at a place: its names, its blocks and its comprehensions.
ghost use Rattle.std.specs.Prelude.{◌≡◌, ◌∷◌, IfOk};
ghost use Rattle.std.specs.Option.{option_copied};
ghost use Rattle.pm_values.specs.declared.fault.BuildFault.TheVariants.{Unbound};
ghost use Rattle.pm_elab.specs.Elab.{Gives, or_else};
ghost use Rattle.pm_elab.specs.Expressions as spec;
ghost use Rattle.pm_elab.specs.Sites as sites;
ghost use Rattle.pm_elab.specs.Sites.{site_of};
ghost use Rattle.pm_names.specs.Found.{found_in};

use pm_design::{Block, BlockSort, Term};
use pm_elab::{Site, Turn};
use pm_io::{List, NoMemory, Text};
use pm_names::{Found, named};
use pm_values::{BuildFault, Value};
use std::alloc::Global;

/// What the name means, or `Unbound`.
pub fn name_found<'a>(site: &Site<'a>, name: &[u8]) -> Result<Found<'a>, BuildFault>
    ensures { found_in result ≡ or_else (sites.named (site_of site.now) name.now) (Unbound site.now.line) }
{
    match named(site, name) {
        Some(found) => Ok(found),
        None => Err(BuildFault::Unbound(site.line)),
    }
}

/// What the name means, or `Unbound`, copied.
pub fn name_value(alloc: Global, site: &Site<'_>, name: &[u8]) -> Result<Value, BuildFault>
    ensures { Gives (or_else (sites.named (site_of site.now) name.now) (Unbound site.now.line)) result }
{
    let found = name_found(site, name)?;
    Ok(found.into_value(alloc)?)
}

fn block_term(number: u32, sort: BlockSort) -> Term
    ensures { result ≡ spec.block_term number sort }
{
    match sort {
        BlockSort::Edge => Term::Wrong,
        _ => Term::Block(number),
    }
}

fn block_in(blocks: &[Block], name: &[u8]) -> Result<Option<Term>, NoMemory>
    ensures { IfOk result (λ term. term ≡ spec.block_from 0 blocks.now name.now) }
{
    let mut number = 0u32;
    for block in blocks {
        if block.name.as_slice() == name {
            return Ok(Some(block_term(number, block.sort)));
        }
        number = number.checked_add(1).ok_or(NoMemory)?;
    }
    Ok(None)
}

/// The term of the block of the name, if the component has one so far.
#[tactic(auto, unfolding(pm_elab::specs::Expressions::block_named))]
pub fn block_named(site: &Site<'_>, name: &[u8]) -> Result<Option<Term>, NoMemory>
    ensures { IfOk result (λ term. term ≡ spec.block_named (site_of site.now) name.now) }
{
    match site.frame {
        Some(frame) => block_in(frame.kind.blocks.as_slice(), name),
        None => Ok(None),
    }
}

fn turn_of(alloc: Global, name: &[u8], value: i64) -> Result<Turn, NoMemory>
    ensures { IfOk result (λ turn. turn ≡ record { name = name.now; value = value }) }
{
    Ok(Turn {
        name: Text::from_slice(alloc, name)?,
        value,
    })
}

/// The turns with one more, the innermost.
pub fn with_turn(
    alloc: Global,
    turns: &[Turn],
    name: &[u8],
    value: i64,
) -> Result<List<Turn>, NoMemory>
    ensures { IfOk result (λ all. all ≡ record { name = name.now; value = value } ∷ turns.now) }
{
    let mut all = List::new(alloc);
    all.push(turn_of(alloc, name, value)?)?;
    for turn in turns {
        all.push(turn_of(alloc, turn.name.as_slice(), turn.value)?)?;
    }
    Ok(all)
}
