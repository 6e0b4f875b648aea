//! Where bodies read and write.
ghost use Rattle.std.specs.Prelude.{◌≡◌, ◌<◌, ◌≤◌, IsTrue, List, length};
ghost use Rattle.pm_design.specs.Layout.{Layout, is_part, is_put, net_from};
ghost use Rattle.pm_block.specs.Places.{Held, Valuation, held_of, put_at, slot_of, with_count, with_slot, word_at};

use pm_bits::Bits;
use pm_design::FlatPart;

/// The values of a plan's places: its nets, and its states, each with a count and a word for each item that it may have.
/// Flat bits of one net are one place. Each call reads or changes what it names and nothing else.
pub trait Places {
    /// The net of each flat bit and the flat bits of each signal, which never change.
    ghost layout: { Self → Layout };

    /// The value of each net.
    ghost at: { Self → Valuation };

    /// What each state holds.
    ghost held: { Self → List Held };

    /// The word of 1 to 128 flat bits of one signal.
    fn get(&self, part: FlatPart) -> Bits
        requires { IsTrue (is_part (layout self.now) part) }
        ensures { result ≡ word_at (net_from (layout self.now) part.bit) part.width (at self.now) };

    /// Puts a word into 1 to 128 flat bits of one signal, of which no two are of one net.
    fn put(&mut self, part: FlatPart, value: Bits)
        requires part { IsTrue (is_put (layout self.old) part) }
        requires width { value.width ≡ part.width }
        ensures same { layout self.new ≡ layout self.old }
        ensures value { at self.new ≡ put_at (net_from (layout self.old) part.bit) part.width value (at self.old) }
        ensures held { held self.new ≡ held self.old };

    /// The word in a slot of a state.
    fn cell(&self, state: u32, slot: u32) -> Bits
        requires state { state < length (held self.now) }
        requires slot { slot < length (held_of (held self.now) state).slots }
        ensures { result ≡ slot_of (held self.now) state slot };

    /// Puts a word into a slot of a state.
    fn set_cell(&mut self, state: u32, slot: u32, value: Bits)
        requires state { state < length (held self.old) }
        requires slot { slot < length (held_of (held self.old) state).slots }
        requires width { value.width ≡ (slot_of (held self.old) state slot).width }
        ensures same { layout self.new ≡ layout self.old }
        ensures value { at self.new ≡ at self.old }
        ensures held { held self.new ≡ with_slot (held self.old) state slot value };

    /// How many items of a state are there.
    fn count(&self, state: u32) -> u32
        requires { state < length (held self.now) }
        ensures { result ≡ (held_of (held self.now) state).count };

    /// Says how many items of a state are there.
    fn set_count(&mut self, state: u32, count: u32)
        requires state { state < length (held self.old) }
        requires room { count ≤ length (held_of (held self.old) state).slots }
        ensures same { layout self.new ≡ layout self.old }
        ensures value { at self.new ≡ at self.old }
        ensures held { held self.new ≡ with_count (held self.old) state count };
}
