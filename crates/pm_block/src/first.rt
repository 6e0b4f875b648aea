//! The values of a plan's places before the first cycle.
ghost use Rattle.std.specs.Prelude.{◌≡◌, ◌+◌, ◌<◌, ◌++◌, IfOk, IsTrue, OnOk, length, map};
ghost use Rattle.std.specs.List.{list_all};
ghost use Rattle.pm_design.specs.Elaborated.{is_good_state};
ghost use Rattle.pm_design.specs.Layout.{instance_of, layout_of, scope_of, signals_from, signals_of as all_signals};
ghost use Rattle.pm_design.specs.Lookups.{kind_of};
ghost use Rattle.pm_design.specs.Runnable.{IsRunnable};
ghost use Rattle.pm_block.specs.First.{held_at_first, held_first, is_tied_at, put_tied, tied_from, tied_in};
ghost use Rattle.pm_block.specs.Tables.{ends_below};

use crate::lookup::{instance_at, signals_of, states_of, ties_of};
use crate::object::Object;
use crate::places::Places;
use crate::site::flat;
use crate::tables::scope;
use crate::value::zero_of;
use pm_design::{FlatPart, Plan, Signal, State, Tie};
use pm_io::{List, NoMemory};
use std::alloc::Global;

// The flat bits of signals, of which the first begins at the given bit, behind others.
fn push_signals(list: &mut Vec<FlatPart>, first: u32, signals: &[Signal]) -> Result<(), NoMemory>
    requires { IsTrue (list_all ends_below (signals_from first signals.now)) }
    ensures { OnOk result (list.new.items ≡ list.old.items ++ signals_from first signals.now) }
{
    let mut bit = first;
    for signal in signals {
        let width = signal.width;
        list.push(FlatPart { bit, width })?;
        bit += width;
    }
    Ok(())
}

/// The flat bits of all signals.
#[tactic(auto, using(crate::proofs::Tabled::ends_at, crate::proofs::Firsts::one_more_signals))]
pub(crate) fn signals(alloc: Global, plan: &Plan) -> Result<Vec<FlatPart>, NoMemory>
    requires { IsTrue (list_all ends_below (layout_of plan.now).signals) }
    ensures { IfOk result (λ list. list.items ≡ all_signals plan.now.design plan.now.instances) }
{
    let mut list = Vec::new(alloc);
    for i in 0..plan.instances.len() {
        let instance = instance_at(plan, i);
        push_signals(&mut list, instance.first_bit, signals_of(plan, instance))?;
    }
    Ok(list)
}

// What is held of a state at first.
fn object(alloc: Global, state: &State) -> Result<Object, NoMemory>
    requires { IsTrue (is_good_state state.now) }
    ensures { IfOk result (λ object. object ≡ held_first state.now) }
{
    if state.maxlen == 0 {
        return Object::new(alloc, 1, 1, state.start);
    }
    Object::new(alloc, 0, state.maxlen, zero_of(state.width))
}

// What is held of states at first, behind others.
#[tactic(auto, using(pm_design::proofs::Elements::item_passes, crate::proofs::Firsts::one_more_held))]
fn push_objects(alloc: Global, list: &mut Vec<Object>, states: &[State]) -> Result<(), NoMemory>
    requires { IsTrue (list_all is_good_state states.now) }
    ensures { OnOk result (list.new.items ≡ list.old.items ++ map held_first states.now) }
{
    for state in states {
        list.push(object(alloc, state)?)?;
    }
    Ok(())
}

/// What is held of all states at first.
#[tactic(auto, using(crate::proofs::Firsts::states_are_good, crate::proofs::Firsts::one_more_states))]
pub(crate) fn objects(alloc: Global, plan: &Plan) -> Result<Vec<Object>, NoMemory>
    requires { IsRunnable plan.now }
    ensures { IfOk result (λ list. list.items ≡ held_at_first plan.now.design plan.now.instances) }
{
    let mut list = Vec::new(alloc);
    for i in 0..plan.instances.len() {
        push_objects(alloc, &mut list, states_of(plan, instance_at(plan, i)))?;
    }
    Ok(list)
}

// Puts a constant into the bits that it is tied to.
fn tie<P: Places>(scope: &[List<u32>], places: &mut P, tie: &Tie)
    requires { IsTrue (is_tied_at scope.now (P.layout places.old) tie.now tie.now.value) }
    ensures layout { P.layout places.new ≡ P.layout places.old }
    ensures held { P.held places.new ≡ P.held places.old }
    ensures values { P.at places.new ≡ put_tied scope.now (P.layout places.old) tie.now tie.now.value (P.at places.old) }
{
    match tie.value {
        Some(value) => places.put(flat(scope, tie.part), value),
        None => unreachable!(),
    }
}

// Puts the constants of an instance's ties into their bits.
#[tactic(auto, using(pm_design::proofs::Elements::item_passes, crate::proofs::Firsts::one_more_tie))]
fn tie_all<P: Places>(scope: &[List<u32>], places: &mut P, ties: &[Tie])
    requires { IsTrue (list_all (λ t. is_tied_at scope.now (P.layout places.old) t t.value) ties.now) }
    ensures layout { P.layout places.new ≡ P.layout places.old }
    ensures held { P.held places.new ≡ P.held places.old }
    ensures values { P.at places.new ≡ tied_in scope.now (P.layout places.old) ties.now (P.at places.old) }
{
    for t in ties {
        tie(scope, places, t);
    }
}

/// Puts the constants of all ties into their bits.
#[tactic(auto, using(crate::proofs::Firsts::ties_are_good, crate::proofs::Firsts::one_more_ties, crate::proofs::Runs::ends_are_below))]
pub(crate) fn tie_instances<P: Places>(
    alloc: Global,
    plan: &Plan,
    places: &mut P,
) -> Result<(), NoMemory>
    requires runnable { IsRunnable plan.now }
    requires layout { P.layout places.old ≡ layout_of plan.now }
    ensures layout { P.layout places.new ≡ P.layout places.old }
    ensures held { P.held places.new ≡ P.held places.old }
    ensures values { OnOk result (P.at places.new ≡ tied_from plan.now 0 plan.now.instances (P.at places.old)) }
{
    for i in 0..plan.instances.len() {
        let scope = scope(alloc, plan, i)?;
        tie_all(
            scope.as_slice(),
            places,
            ties_of(plan, instance_at(plan, i)),
        );
    }
    Ok(())
}
