//! Elements by an index that is an integer.
ghost use Rattle.std.specs.Prelude.{◌≡◌};
ghost use Rattle.std.specs.Option.{option_copied};
ghost use Rattle.pm_typing.specs.Counted.{Counts, Gives};
ghost use Rattle.pm_typing.specs.Picks as spec;
ghost use Rattle.pm_typing.specs.Sites.{scope_of};
ghost use Rattle.pm_typing.specs.Things.{thing_in, thing_of};

use crate::names::{most_items, seen};
use crate::operands::state_type;
use crate::references::bit;
use pm_design::Ex;
use pm_io::{Boxed, List};
use pm_typing::{Scope, Tally, Thing, TypeFault};
use pm_values::Value;
use std::alloc::Global;

fn item_if<'a>(
    line: u32,
    whose: Option<u32>,
    value: Option<&'a Value>,
) -> Result<Thing<'a>, TypeFault>
    ensures { Gives (spec.item_if line whose (option_copied value.entry)) (thing_in result) }
{
    match value {
        Some(value) => seen(line, whose, value),
        None => Err(TypeFault::IndexRange(line)),
    }
}

#[tactic(auto, unfolding(pm_typing::specs::Picks::item))]
fn item<'a>(
    line: u32,
    whose: Option<u32>,
    items: &'a List<Value>,
    index: i64,
) -> Result<Thing<'a>, TypeFault>
    ensures { Gives (spec.item line whose items.now index) (thing_in result) }
{
    match usize::try_from(index) {
        Ok(index) => item_if(line, whose, items.get(index)),
        Err(_) => Err(TypeFault::IndexRange(line)),
    }
}

fn read_item<'a>(
    alloc: Global,
    scope: &Scope<'_>,
    tally: &mut Tally,
    state: u32,
    e: Ex,
) -> Result<Thing<'a>, TypeFault>
    ensures { Counts (spec.read_item (scope_of scope.now) state e tally.old) (thing_in result) tally.new }
{
    let e = Boxed::new(alloc, e)?;
    tally.node()?;
    Ok(Thing::Bits(e, state_type(scope, state)))
}

fn deque_item_at<'a>(
    alloc: Global,
    scope: &Scope<'_>,
    tally: &mut Tally,
    line: u32,
    state: u32,
    index: i64,
) -> Result<Thing<'a>, TypeFault>
    ensures { Counts (spec.deque_item_at (scope_of scope.now) line state index tally.old) (thing_in result) tally.new }
{
    if index == -1 {
        return read_item(alloc, scope, tally, state, Ex::Last(state));
    }
    if index < 0 || i64::from(most_items(scope, state)) <= index {
        return Err(TypeFault::IndexRange(line));
    }
    read_item(alloc, scope, tally, state, Ex::Item(state, index as u32))
}

#[tactic(auto, unfolding(pm_typing::specs::Picks::deque_item))]
fn deque_item<'a>(
    alloc: Global,
    scope: &Scope<'_>,
    tally: &mut Tally,
    line: u32,
    state: u32,
    index: i64,
) -> Result<Thing<'a>, TypeFault>
    ensures { Counts (spec.deque_item (scope_of scope.now) line state index tally.old) (thing_in result) tally.new }
{
    if 0 < most_items(scope, state) {
        deque_item_at(alloc, scope, tally, line, state, index)
    } else {
        Err(TypeFault::NotAllowedHere(line))
    }
}

/// `x[k]` of an integer k.
#[tactic(auto, unfolding(pm_typing::specs::Picks::element))]
pub(crate) fn element<'a>(
    alloc: Global,
    scope: &Scope<'a>,
    tally: &mut Tally,
    line: u32,
    index: i64,
    thing: Thing<'a>,
) -> Result<Thing<'a>, TypeFault>
    ensures { Counts (spec.element (scope_of scope.now) line index (thing_of thing.entry) tally.old) (thing_in result) tally.new }
{
    match thing {
        Thing::Items(whose, items) => item(line, whose, items, index),
        Thing::State(state) => deque_item(alloc, scope, tally, line, state, index),
        _ => bit(alloc, line, index, thing),
    }
}
