//! The run of a body.
ghost use Rattle.std.specs.Prelude.{◌≡◌, ◌+◌, ◌<◌, ◌≤◌, ◌^◌, ◌==◌, ◌&&◌, IsTrue, length, map, slice_index_or, [], true, false};
ghost use Rattle.std.specs.List.{list_all};
ghost use Rattle.pm_design.specs.Layout.{flat_part, is_put};
ghost use Rattle.pm_design.specs.Nodes.{body_nodes, statement_nodes};
ghost use Rattle.pm_design.specs.Typing.{is_sound};
ghost use Rattle.pm_design.specs.Widths.{is_width};
ghost use Rattle.pm_block.specs.Assignments.{all_assignments, assignments};
ghost use Rattle.pm_block.specs.Places.{items_of};
ghost use Rattle.pm_block.specs.Plans.{plain_sight, widths_of};
ghost use Rattle.pm_block.specs.Run.{assigned, picked_put, put_part, run, run_block, run_body};
ghost use Rattle.pm_block.specs.Sites.{inside_here, memory_of, scene_here, sight_here, state_here};
ghost use Rattle.pm_block.specs.Value.{Temporaries, no_part, zero_word};
ghost use Rattle.pm_block.specs.Waiting.{all_fit, settled, state_with};

use crate::places::Places;
use crate::site::{Site, flat};
use crate::steps::Steps;
use crate::value::{value_of, zero_of};
use crate::waiting::{Waiting, Write};
use pm_bits::Bits;
use pm_design::{Block, Part, St};
use std::sync::ledger::Ledger;

// Assigns a part, at once or at the end of the block.
#[tactic(auto, using(crate::proofs::Names::places_of_part, crate::proofs::Settled::settled_append, crate::proofs::Settled::all_fit_append))]
fn assign<P: Places>(
    site: &Site,
    clocked: bool,
    places: &mut P,
    waiting: &mut Waiting,
    part: Part,
    value: Bits,
)
    requires put { IsTrue (is_put (P.layout places.old) (flat_part site.now.scope.now part)) }
    requires width { value.width ≡ part.width }
    requires space { length waiting.old.writes < waiting.old.room }
    requires fits { IsTrue (all_fit (P.layout places.old) waiting.old.writes) }
    ensures layout { P.layout places.new ≡ P.layout places.old }
    ensures held { P.held places.new ≡ P.held places.old }
    ensures fits { IsTrue (all_fit (P.layout places.old) waiting.new.writes) }
    ensures at_once { clocked ≡ false → waiting.new.writes ≡ waiting.old.writes }
    ensures still { clocked ≡ true → P.at places.new ≡ P.at places.old }
    ensures room { waiting.new.room ≡ waiting.old.room }
    ensures count { length waiting.new.writes ≤ length waiting.old.writes + 1 }
    ensures state { (ts : Temporaries) → state_with (P.layout places.new) (P.at places.new) (items_of (P.held places.new)) waiting.new.writes ts
        ≡ assigned clocked (put_part (scene_here site.now (P.layout places.old)).frame.names part value) (state_with (P.layout places.old) (P.at places.old) (items_of (P.held places.old)) waiting.old.writes ts) }
{
    let part = flat(site.scope, part);
    if clocked {
        waiting.push(Write { part, value });
    } else {
        places.put(part, value);
    }
}

fn part_at(parts: &[Part], i: usize) -> Part
    requires { i < length parts.now }
    ensures { result ≡ slice_index_or parts.now i no_part }
{
    parts[i]
}

// Assigns the part that an index picks, and nothing past the end.
#[tactic(auto, using(pm_design::proofs::Elements::element_passes))]
fn assign_picked<P: Places>(
    site: &Site,
    clocked: bool,
    places: &mut P,
    waiting: &mut Waiting,
    parts: &[Part],
    index: Bits,
    value: Bits,
)
    requires parts { IsTrue (list_all (λ p. is_put (P.layout places.old) (flat_part site.now.scope.now p) && p.width == value.width) parts.now) }
    requires space { length waiting.old.writes < waiting.old.room }
    requires fits { IsTrue (all_fit (P.layout places.old) waiting.old.writes) }
    ensures layout { P.layout places.new ≡ P.layout places.old }
    ensures held { P.held places.new ≡ P.held places.old }
    ensures fits { IsTrue (all_fit (P.layout places.old) waiting.new.writes) }
    ensures at_once { clocked ≡ false → waiting.new.writes ≡ waiting.old.writes }
    ensures still { clocked ≡ true → P.at places.new ≡ P.at places.old }
    ensures room { waiting.new.room ≡ waiting.old.room }
    ensures count { length waiting.new.writes ≤ length waiting.old.writes + 1 }
    ensures state { (ts : Temporaries) → state_with (P.layout places.new) (P.at places.new) (items_of (P.held places.new)) waiting.new.writes ts
        ≡ picked_put clocked (scene_here site.now (P.layout places.old)).frame.names parts.now index.value value (state_with (P.layout places.old) (P.at places.old) (items_of (P.held places.old)) waiting.old.writes ts) }
{
    if index.value() < parts.len() as u128 {
        assign(
            site,
            clocked,
            places,
            waiting,
            part_at(parts, index.value() as usize),
            value,
        );
    }
}

/// Runs a statement.
#[cycle(run)]
#[tactic(auto, using(crate::proofs::Statements::run_equations, crate::proofs::Assigning::assignments_equations, pm_design::proofs::Soundness::sound_equations, pm_design::proofs::Counts::nodes_of_equations, pm_design::proofs::Counts::some_statement_nodes, crate::proofs::Plain::plain_statements))]
pub fn run_one<P: Places, L: Ledger>(
    site: &Site,
    clocked: bool,
    places: &mut P,
    waiting: &mut Waiting,
    temps: &mut [Bits],
    steps: &mut Steps<L>,
    st: &St,
)
    requires room { steps.old + statement_nodes (inside_here site.now) st.now < 2 ^ 64 }
    requires space { length waiting.old.writes + assignments st.now ≤ waiting.old.room }
    requires fits { IsTrue (all_fit (P.layout places.old) waiting.old.writes) }
    requires sound { IsTrue (is_sound (sight_here site.now (P.layout places.old) temps.old) st.now) }
    ensures cost { steps.new ≤ steps.old + statement_nodes (inside_here site.now) st.now }
    ensures some { steps.old < steps.new }
    ensures layout { P.layout places.new ≡ P.layout places.old }
    ensures held { P.held places.new ≡ P.held places.old }
    ensures fits { IsTrue (all_fit (P.layout places.old) waiting.new.writes) }
    ensures at_once { clocked ≡ false → waiting.new.writes ≡ waiting.old.writes }
    ensures still { clocked ≡ true → P.at places.new ≡ P.at places.old }
    ensures widths { widths_of temps.new ≡ widths_of temps.old }
    ensures count { length waiting.new.writes ≤ length waiting.old.writes + assignments st.now }
    ensures same_room { waiting.new.room ≡ waiting.old.room }
    ensures state { state_here (P.layout places.new) (P.at places.new) (P.held places.new) waiting.new.writes temps.new
        ≡ run clocked (scene_here site.now (P.layout places.old)) st.now (state_here (P.layout places.old) (P.at places.old) (P.held places.old) waiting.old.writes temps.old) }
{
    steps.tick();
    match st {
        St::Set(part, ex) => {
            let value = value_of(site, places, temps, steps, ex);
            assign(site, clocked, places, waiting, *part, value);
        }
        St::SetPick(index, parts, ex) => {
            let index = value_of(site, places, temps, steps, index);
            let value = value_of(site, places, temps, steps, ex);
            assign_picked(
                site,
                clocked,
                places,
                waiting,
                parts.as_slice(),
                index,
                value,
            );
        }
        St::SetTemp(t, ex) => {
            let value = value_of(site, places, temps, steps, ex);
            temps[*t as usize] = value;
        }
        St::If(test, yes, no) => {
            if value_of(site, places, temps, steps, test).value() == 0 {
                run_all(site, clocked, places, waiting, temps, steps, no.as_slice());
            } else {
                run_all(site, clocked, places, waiting, temps, steps, yes.as_slice());
            }
        }
        St::SetNumber(_, _)
        | St::Push(_, _, _)
        | St::Pop(_, _, _)
        | St::Clear(_)
        | St::Call(_, _, _) => unreachable!(),
    }
}

/// Runs statements in turn.
#[cycle(run)]
pub fn run_all<P: Places, L: Ledger>(
    site: &Site,
    clocked: bool,
    places: &mut P,
    waiting: &mut Waiting,
    temps: &mut [Bits],
    steps: &mut Steps<L>,
    body: &[St],
)
    requires room { steps.old + body_nodes (inside_here site.now) body.now < 2 ^ 64 }
    requires space { length waiting.old.writes + all_assignments body.now ≤ waiting.old.room }
    requires fits { IsTrue (all_fit (P.layout places.old) waiting.old.writes) }
    requires sound { IsTrue (list_all (is_sound (sight_here site.now (P.layout places.old) temps.old)) body.now) }
    ensures cost { steps.new ≤ steps.old + body_nodes (inside_here site.now) body.now }
    ensures later { steps.old ≤ steps.new }
    ensures some { 0 < length body.now → steps.old < steps.new }
    ensures layout { P.layout places.new ≡ P.layout places.old }
    ensures held { P.held places.new ≡ P.held places.old }
    ensures fits { IsTrue (all_fit (P.layout places.old) waiting.new.writes) }
    ensures at_once { clocked ≡ false → waiting.new.writes ≡ waiting.old.writes }
    ensures still { clocked ≡ true → P.at places.new ≡ P.at places.old }
    ensures widths { widths_of temps.new ≡ widths_of temps.old }
    ensures count { length waiting.new.writes ≤ length waiting.old.writes + all_assignments body.now }
    ensures same_room { waiting.new.room ≡ waiting.old.room }
    ensures state { state_here (P.layout places.new) (P.at places.new) (P.held places.new) waiting.new.writes temps.new
        ≡ run_body clocked (scene_here site.now (P.layout places.old)) body.now (state_here (P.layout places.old) (P.at places.old) (P.held places.old) waiting.old.writes temps.old) }
{
    for st in body {
        run_one(site, clocked, places, waiting, temps, steps, st);
    }
}

/// Makes the assignments that wait, in turn, and leaves none.
#[tactic(auto, using(crate::proofs::Settled::settled_from, crate::proofs::Settled::put_fits, crate::proofs::Settled::width_fits))]
pub fn settle<P: Places>(places: &mut P, waiting: &mut Waiting)
    requires { IsTrue (all_fit (P.layout places.old) waiting.old.writes) }
    ensures layout { P.layout places.new ≡ P.layout places.old }
    ensures held { P.held places.new ≡ P.held places.old }
    ensures values { P.at places.new ≡ settled (P.layout places.old) waiting.old.writes (P.at places.old) }
    ensures none { waiting.new.writes ≡ [] }
    ensures room { waiting.new.room ≡ waiting.old.room }
{
    for write in waiting.as_slice() {
        places.put(write.part, write.value);
    }
    waiting.clear();
}

// Runs a block's body on cleared temporaries.
fn run_cleared<P: Places, L: Ledger>(
    site: &Site,
    clocked: bool,
    places: &mut P,
    waiting: &mut Waiting,
    temps: &mut [Bits],
    steps: &mut Steps<L>,
    body: &[St],
)
    requires room { steps.old + body_nodes (inside_here site.now) body.now < 2 ^ 64 }
    requires space { all_assignments body.now ≤ waiting.old.room }
    requires none { waiting.old.writes ≡ [] }
    requires temps { temps.old ≡ map zero_word (widths_of temps.old) }
    requires sound { IsTrue (list_all (is_sound (sight_here site.now (P.layout places.old) temps.old)) body.now) }
    ensures cost { steps.new ≤ steps.old + body_nodes (inside_here site.now) body.now }
    ensures some { 0 < length body.now → steps.old < steps.new }
    ensures layout { P.layout places.new ≡ P.layout places.old }
    ensures held { P.held places.new ≡ P.held places.old }
    ensures none { waiting.new.writes ≡ [] }
    ensures same_room { waiting.new.room ≡ waiting.old.room }
    ensures widths { widths_of temps.new ≡ widths_of temps.old }
    ensures values { memory_of (P.at places.new) (P.held places.new)
        ≡ run_block clocked (scene_here site.now (P.layout places.old)) body.now (widths_of temps.old) (memory_of (P.at places.old) (P.held places.old)) }
{
    run_all(site, clocked, places, waiting, temps, steps, body);
    if clocked {
        settle(places, waiting);
    }
}

// Makes the temporaries 0 at these widths.
#[tactic(auto, using(crate::proofs::Started::started_none, crate::proofs::Started::started_more))]
fn start_all(words: &mut [Bits], widths: &[u32])
    requires count { length words.old ≡ length widths.now }
    requires widths { IsTrue (list_all is_width widths.now) }
    ensures { words.new ≡ map zero_word widths.now }
{
    for i in 0..widths.len() {
        words[i] = zero_of(width_at(widths, i));
    }
}

#[tactic(auto, using(pm_design::proofs::Elements::element_passes))]
fn width_at(widths: &[u32], i: usize) -> u32
    requires there { i < length widths.now }
    requires widths { IsTrue (list_all is_width widths.now) }
    ensures value { result ≡ slice_index_or widths.now i 0 }
    ensures some { 0 < result }
    ensures narrow { result ≤ 128 }
{
    widths[i]
}

/// Runs a block: its temporaries start at 0, and what waits takes effect at the end.
#[tactic(auto, using(crate::proofs::Started::widths_of_zeros))]
pub(crate) fn run_there<P: Places, L: Ledger>(
    site: &Site,
    clocked: bool,
    places: &mut P,
    waiting: &mut Waiting,
    words: &mut [Bits],
    steps: &mut Steps<L>,
    block: &Block,
)
    requires room { steps.old + body_nodes (inside_here site.now) block.now.body < 2 ^ 64 }
    requires words { length block.now.temps ≤ length words.old }
    requires widths { IsTrue (list_all is_width block.now.temps) }
    requires space { all_assignments block.now.body ≤ waiting.old.room }
    requires none { waiting.old.writes ≡ [] }
    requires sound { IsTrue (list_all (is_sound (plain_sight site.now.scope.now (P.layout places.old) block.now.temps)) block.now.body) }
    ensures cost { steps.new ≤ steps.old + body_nodes (inside_here site.now) block.now.body }
    ensures some { 0 < length block.now.body → steps.old < steps.new }
    ensures layout { P.layout places.new ≡ P.layout places.old }
    ensures held { P.held places.new ≡ P.held places.old }
    ensures none { waiting.new.writes ≡ [] }
    ensures same_room { waiting.new.room ≡ waiting.old.room }
    ensures words { length words.new ≡ length words.old }
    ensures values { memory_of (P.at places.new) (P.held places.new)
        ≡ run_block clocked (scene_here site.now (P.layout places.old)) block.now.body block.now.temps (memory_of (P.at places.old) (P.held places.old)) }
{
    let words = &mut words[..block.temps.len()];
    start_all(words, block.temps.as_slice());
    run_cleared(
        site,
        clocked,
        places,
        waiting,
        words,
        steps,
        block.body.as_slice(),
    );
}
