//! The values of a plan's places, one entry for each net and each state.
ghost use Rattle.std.specs.Prelude.{◌≡◌, ◌+◌, ◌<◌, ◌≤◌, ◌*◌, ◌/◌, ◌%◌, ◌^◌, length, nat_lt, IfOk, IsTrue, ℕ, slice_index_or, if◌then◌else◌};
ghost use Rattle.pm_design.specs.Layout.{is_part, layout_of, net_from};
ghost use Rattle.pm_design.specs.Runnable.{IsRunnable};
ghost use Rattle.pm_block.specs.First.{first_values, held_at_first, no_values};
ghost use Rattle.pm_block.specs.Places.{is_tidy, number_at, put};
ghost use Rattle.pm_block.specs.Signals.{signal_part, signal_word};
ghost use Rattle.pm_block.specs.Stored.{at_of};

use crate::first::{objects, signals, tie_instances};
use crate::object::Object;
use crate::places::Places;
use pm_bits::Bits;
use pm_design::{FlatPart, Plan};
use pm_io::NoMemory;
use std::alloc::Global;
use std::marker::Model;

/// The values of a plan's places.
#[derive(Drop)]
pub struct Values {
    net_of: Vec<u32>,
    signals: Vec<FlatPart>,
    bits: Vec<bool>,
    held: Vec<Object>,
}

impl Model for Values {
    ghost use Rattle.std.specs.Prelude.{length, ◌<◌, slice_index_or, ℕ};
    ghost use Rattle.pm_block.specs.Stored.{Stored};

    ghost Value = { Stored };

    ghost view = { λ v. record { layout = record { net_of = v.net_of.items; signals = v.signals.items }; bits = v.bits.items; held = v.held.items } };

    ghost invariant = { λ v. (i : ℕ) → i < length v.net_of.items → slice_index_or v.net_of.items i 0 < length v.bits.items };
}

impl Places for Values {
    ghost use Rattle.pm_block.specs.Stored.{at_of};

    ghost layout = { λ v. v.layout };

    ghost at = { λ v. at_of v.bits };

    ghost held = { λ v. v.held };

    fn get(&self, part: FlatPart) -> Bits {
        match Bits::new(part.width, self.number(part)) {
            Some(word) => word,
            None => unreachable!(),
        }
    }

    #[tactic(auto, using(crate::proofs::Bits::put_at_none, crate::proofs::Bits::put_at_more))]
    fn put(&mut self, part: FlatPart, value: Bits) {
        let number = value.value();
        for i in 0..part.width {
            self.set_bit(part.bit + i, bit_is(number, i));
        }
    }

    fn cell(&self, state: u32, slot: u32) -> Bits {
        self.held[state as usize].slot(slot)
    }

    fn set_cell(&mut self, state: u32, slot: u32, value: Bits) {
        self.held[state as usize].set_slot(slot, value);
    }

    fn count(&self, state: u32) -> u32 {
        self.held[state as usize].count()
    }

    fn set_count(&mut self, state: u32, count: u32) {
        self.held[state as usize].set_count(count);
    }
}

impl Values {
    /// The values before the first cycle: tied bits have their constants, numbers their starts, deques no items, and all
    /// else is 0.
    #[tactic(auto, using(crate::proofs::Zeros::first_is_tidy))]
    pub fn new(alloc: Global, plan: &Plan) -> Result<Values, NoMemory>
        requires { IsRunnable plan.now }
        ensures layout { IfOk result (λ v. v.layout ≡ layout_of plan.now) }
        ensures values { IfOk result (λ v. at_of v.bits ≡ first_values plan.now) }
        ensures held { IfOk result (λ v. v.held ≡ held_at_first plan.now.design plan.now.instances) }
        ensures tidy { IfOk result (λ v. IsTrue (is_tidy v.held)) }
    {
        let mut values = Values::zeros_of(alloc, plan)?;
        tie_instances(alloc, plan, &mut values)?;
        Ok(values)
    }

    // Zeros, with what the states of a plan hold at first.
    #[tactic(auto, using(crate::proofs::Zeros::nets_are_there, crate::proofs::Runs::ends_are_below))]
    fn zeros_of(alloc: Global, plan: &Plan) -> Result<Values, NoMemory>
        requires { IsRunnable plan.now }
        ensures layout { IfOk result (λ v. v.layout ≡ layout_of plan.now) }
        ensures zeros { IfOk result (λ v. at_of v.bits ≡ no_values) }
        ensures held { IfOk result (λ v. v.held ≡ held_at_first plan.now.design plan.now.instances) }
    {
        let signals = signals(alloc, plan)?;
        let held = objects(alloc, plan)?;
        let net_of = Vec::from_slice(alloc, plan.nets.net_of.as_slice())?;
        Values::zeros(alloc, net_of, plan.nets.count as usize, signals, held)
    }

    /// The word of a signal, by its number among the signals of all instances. Those of the top are the first.
    pub fn signal(&self, number: u32) -> Bits
        requires there { number < length self.now.layout.signals }
        requires part { IsTrue (is_part self.now.layout (signal_part self.now.layout number)) }
        ensures { result ≡ signal_word self.now.layout (at_of self.now.bits) number }
    {
        self.get(self.signals[number as usize])
    }

    /// A copy.
    pub fn copy(&self, alloc: Global) -> Result<Values, NoMemory>
        ensures { IfOk result (λ v. v ≡ self.now) }
    {
        let held = copy_all(alloc, self.held.as_slice())?;
        Ok(Values {
            net_of: Vec::from_slice(alloc, self.net_of.as_slice())?,
            signals: Vec::from_slice(alloc, self.signals.as_slice())?,
            bits: Vec::from_slice(alloc, self.bits.as_slice())?,
            held,
        })
    }

    // Zeros for so many nets.
    #[tactic(auto, using(crate::proofs::Zeros::zeros_at))]
    fn zeros(
        alloc: Global,
        net_of: Vec<u32>,
        count: usize,
        signals: Vec<FlatPart>,
        held: Vec<Object>,
    ) -> Result<Values, NoMemory>
        requires { (i : ℕ) → i < length net_of.items → slice_index_or net_of.items i 0 < count }
        ensures layout { IfOk result (λ v. v.layout ≡ record { net_of = net_of.items; signals = signals.items }) }
        ensures zeros { IfOk result (λ v. at_of v.bits ≡ no_values) }
        ensures held { IfOk result (λ v. v.held ≡ held.items) }
    {
        let bits = vec![in alloc; false; count]?;
        Ok(Values {
            net_of,
            signals,
            bits,
            held,
        })
    }

    // The number whose bits are in a part.
    #[tactic(auto, using(crate::proofs::Bits::number_at_none, crate::proofs::Bits::number_at_more, crate::proofs::Bits::twice_power, crate::proofs::Bits::power_within))]
    fn number(&self, part: FlatPart) -> u128
        requires { IsTrue (is_part self.now.layout part) }
        ensures value { result ≡ number_at (net_from self.now.layout part.bit) part.width (at_of self.now.bits) }
        ensures fits { result < 2 ^ part.width }
    {
        let mut number: u128 = 0;
        for i in 0..part.width {
            number += weight(self.bit(part.bit + i), i);
        }
        number
    }

    // Whether a flat bit's net is 1.
    fn bit(&self, bit: u32) -> bool
        requires { bit < length self.now.layout.net_of }
        ensures { (if result then 1 else 0) ≡ at_of self.now.bits (slice_index_or self.now.layout.net_of bit 0) }
    {
        self.bits[self.net_of[bit as usize] as usize]
    }

    // Sets a flat bit's net.
    #[tactic(auto, using(crate::proofs::Bits::at_of_set))]
    fn set_bit(&mut self, bit: u32, value: bool)
        requires { bit < length self.old.layout.net_of }
        ensures same { self.new.layout ≡ self.old.layout }
        ensures value { at_of self.new.bits ≡ put (slice_index_or self.old.layout.net_of bit 0) (if value then 1 else 0) (at_of self.old.bits) }
        ensures held { self.new.held ≡ self.old.held }
    {
        let net = self.net_of[bit as usize] as usize;
        self.bits[net] = value;
    }
}

// A copy of what is held of states.
#[tactic(auto, using(crate::proofs::Zeros::one_more_copy))]
fn copy_all(alloc: Global, objects: &[Object]) -> Result<Vec<Object>, NoMemory>
    ensures { IfOk result (λ list. list.items ≡ objects.now) }
{
    let mut list = Vec::new(alloc);
    for object in objects {
        list.push(object.copy(alloc)?)?;
    }
    Ok(list)
}

// What a bit of a number counts.
fn weight(bit: bool, i: u32) -> u128
    requires { i < 128 }
    ensures { result ≡ (if bit then 1 else 0) * 2 ^ i }
{
    if bit { 1 << i } else { 0 }
}

// Whether a bit of a number is set.
fn bit_is(number: u128, i: u32) -> bool
    requires { i < 128 }
    ensures { (if result then 1 else 0) ≡ number / 2 ^ i % 2 }
{
    (number >> i) & 1 == 1
}
