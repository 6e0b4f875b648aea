//! Where the signals of each instance are among the flat bits.
ghost use Rattle.std.specs.Prelude.{◌≡◌, ◌+◌, ◌<◌, ◌≤◌, ◌^◌, IfOk, IsTrue, length, nat_lt};
ghost use Rattle.std.specs.List.{list_all};
ghost use Rattle.pm_design.specs.Instances.{first_bits_from, first_bits_of};
ghost use Rattle.pm_design.specs.Layout.{instance_of, layout_of, scope_of, signals_from};
ghost use Rattle.pm_block.specs.Tables.{ends_below, scopes_of};

use crate::lookup::{instance_at, kind_at};
use pm_design::{Plan, Signal};
use pm_io::{List, NoMemory};
use std::alloc::Global;

// The first flat bit of each signal, of which the first is the given one.
fn first_bits(alloc: Global, first: u32, signals: &[Signal]) -> Result<List<u32>, NoMemory>
    requires { IsTrue (list_all ends_below (signals_from first signals.now)) }
    ensures { IfOk result (λ bits. bits ≡ first_bits_from first signals.now) }
{
    let mut bits = List::new(alloc);
    let mut bit = first;
    for signal in signals {
        bits.push(bit)?;
        bit += signal.width;
    }
    Ok(bits)
}

// The first flat bit of each signal of an instance, of which there are none if it is nowhere.
#[tactic(auto, using(crate::proofs::Tabled::ends_at, crate::proofs::Tabled::bits_without_instance, crate::proofs::Tabled::bits_without_kind))]
fn first_bits_at(alloc: Global, plan: &Plan, instance: usize) -> Result<List<u32>, NoMemory>
    requires { IsTrue (list_all ends_below (layout_of plan.now).signals) }
    ensures { IfOk result (λ bits. bits ≡ first_bits_of plan.now.design (instance_of plan.now instance)) }
{
    if instance >= plan.instances.len() {
        return Ok(List::new(alloc));
    }
    let instance = instance_at(plan, instance);
    if instance.kind as usize >= plan.design.kinds.len() {
        return Ok(List::new(alloc));
    }
    let kind = kind_at(plan, instance.kind);
    first_bits(alloc, instance.first_bit, kind.signals.as_slice())
}

/// The first flat bits of the signals that an instance's parts name: its own, then those of each child.
pub(crate) fn scope(
    alloc: Global,
    plan: &Plan,
    instance: usize,
) -> Result<List<List<u32>>, NoMemory>
    requires there { instance < length plan.now.instances }
    requires ends { IsTrue (list_all ends_below (layout_of plan.now).signals) }
    ensures { IfOk result (λ scope. scope ≡ scope_of plan.now instance) }
{
    let mut scope = List::new(alloc);
    scope.push(first_bits_at(alloc, plan, instance)?)?;
    for child in instance_at(plan, instance).children.as_slice() {
        scope.push(first_bits_at(alloc, plan, *child as usize)?)?;
    }
    Ok(scope)
}

/// The scopes of all instances.
#[tactic(auto, using(crate::proofs::Tabled::one_more_scope, crate::proofs::Tabled::all_scopes))]
pub(crate) fn scopes(alloc: Global, plan: &Plan) -> Result<List<List<List<u32>>>, NoMemory>
    requires { IsTrue (list_all ends_below (layout_of plan.now).signals) }
    ensures { IfOk result (λ scopes. scopes ≡ scopes_of plan.now) }
{
    let mut scopes = List::new(alloc);
    for instance in 0..plan.instances.len() {
        scopes.push(scope(alloc, plan, instance)?)?;
    }
    Ok(scopes)
}
