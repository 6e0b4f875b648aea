//! Assignments that wait for the end of a block.
ghost use Rattle.std.specs.Prelude.{◌≡◌, ◌<◌, ◌++◌, [], ◌∷◌, length, IfOk};

use pm_bits::Bits;
use pm_design::FlatPart;
use pm_io::NoMemory;
use std::alloc::Global;
use std::marker::Model;

/// A word for a part.
#[derive(Clone, Copy, PartialEq, Eq)]
pub struct Write {
    pub part: FlatPart,
    pub value: Bits,
}

/// The assignments that wait, in turn. There is room for a fixed number of them.
#[derive(Drop)]
pub struct Waiting {
    writes: Vec<Write>,
    count: usize,
}

impl Model for Waiting {
    ghost use Rattle.std.specs.Prelude.{take, length, ◌≤◌};
    ghost use Rattle.pm_block.specs.Waiting.{Queue};

    ghost Value = { Queue };

    ghost view = { λ w. record { writes = take w.count w.writes.items; room = length w.writes.items } };

    ghost invariant = { λ w. w.count ≤ length w.writes.items };
}

impl Waiting {
    /// None, with room for so many.
    pub fn new(alloc: Global, room: usize) -> Result<Waiting, NoMemory>
        ensures { IfOk result (λ w. w ≡ record { writes = []; room = room }) }
    {
        let value = match Bits::new(1, 0) {
            Some(value) => value,
            None => unreachable!(),
        };
        let part = FlatPart { bit: 0, width: 1 };
        let writes = vec![in alloc; Write { part, value }; room]?;
        Ok(Waiting { writes, count: 0 })
    }

    /// One more assignment.
    #[tactic(auto, using(std::proofs::lemmas::List::take_more_set))]
    pub fn push(&mut self, write: Write)
        requires { length self.old.writes < self.old.room }
        ensures writes { self.new.writes ≡ self.old.writes ++ write ∷ [] }
        ensures room { self.new.room ≡ self.old.room }
    {
        self.writes[self.count] = write;
        self.count += 1;
    }

    /// All of them, in turn.
    pub fn as_slice(&self) -> &[Write]
        ensures { result.now ≡ self.now.writes }
    {
        &self.writes[..self.count]
    }

    /// Leaves none.
    pub fn clear(&mut self)
        ensures writes { self.new.writes ≡ [] }
        ensures room { self.new.room ≡ self.old.room }
    {
        self.count = 0;
    }
}
