//! What is held of a state.
ghost use Rattle.std.specs.Prelude.{◌≡◌, ◌<◌, length, replicate, slice_index_or, slice_set, IfOk};
ghost use Rattle.pm_block.specs.Value.{zero_word};

use pm_bits::Bits;
use pm_io::NoMemory;
use std::alloc::Global;
use std::marker::Model;

/// A word for each item that a state may have, of which the first `count` are there.
#[derive(Drop)]
pub struct Object {
    count: u32,
    slots: Vec<Bits>,
}

impl Model for Object {
    ghost use Rattle.pm_block.specs.Places.{Held};

    ghost Value = { Held };

    ghost view = { λ o. record { count = o.count; slots = o.slots.items } };
}

impl Object {
    /// As many items as there is room for, all of one word.
    pub(crate) fn new(alloc: Global, count: u32, slots: u32, word: Bits) -> Result<Object, NoMemory>
        ensures { IfOk result (λ o. o ≡ record { count = count; slots = replicate slots word }) }
    {
        let slots = vec![in alloc; word; slots as usize]?;
        Ok(Object { count, slots })
    }

    /// A copy.
    pub(crate) fn copy(&self, alloc: Global) -> Result<Object, NoMemory>
        ensures { IfOk result (λ o. o ≡ self.now) }
    {
        Ok(Object {
            count: self.count,
            slots: Vec::from_slice(alloc, self.slots.as_slice())?,
        })
    }

    pub(crate) fn count(&self) -> u32
        ensures { result ≡ self.now.count }
    {
        self.count
    }

    pub(crate) fn slot(&self, slot: u32) -> Bits
        requires { slot < length self.now.slots }
        ensures { result ≡ slice_index_or self.now.slots slot (zero_word 0) }
    {
        self.slots[slot as usize]
    }

    pub(crate) fn set_count(&mut self, count: u32)
        ensures { self.new ≡ record self.old { count = count } }
    {
        self.count = count;
    }

    pub(crate) fn set_slot(&mut self, slot: u32, value: Bits)
        requires { slot < length self.old.slots }
        ensures { self.new ≡ record self.old { slots = slice_set self.old.slots slot value } }
    {
        self.slots[slot as usize] = value;
    }
}
