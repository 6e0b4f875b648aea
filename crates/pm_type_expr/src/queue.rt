//! Values that are taken one by one.
ghost use Rattle.std.specs.Prelude.{◌≡◌, ◌∷◌, [], IfOk, MatchOption, length};

use pm_io::{List, NoMemory};
use std::alloc::Global;
use std::marker::Model;

/// Values that are taken one by one, the first one first. Contracts see the list of those that are left.
#[derive(Drop)]
pub struct Queue<T> {
    /// Those that are left, the last one first.
    left: List<T>,
}

impl<T> Model for Queue<T> {
    ghost use Rattle.std.specs.Prelude.{List, reverse};
    ghost use Rattle.std.specs.Coded.{coded_list};

    ghost Value = { List T };

    ghost coded = { coded_list T.code };

    ghost view = { λ q. reverse q.left };
}

impl<T: Drop> Queue<T> {
    #[tactic(auto, using(crate::proofs::Reversed::reverse_more, crate::proofs::Reversed::append_none))]
    pub fn new(alloc: Global, values: List<T>) -> Result<Queue<T>, NoMemory>
        ensures { IfOk result (λ queue. queue ≡ values) }
    {
        let mut values = values;
        let mut left = List::new(alloc);
        while let Some(last) = values.pop() {
            left.push(last)?;
        }
        Ok(Queue { left })
    }

    pub fn len(&self) -> usize
        ensures { result ≡ length self.now }
    {
        self.left.len()
    }

    /// Takes the first of those that are left.
    #[tactic(auto, using(crate::proofs::Reversed::reverse_more))]
    pub fn next(&mut self) -> Option<T>
        ensures { MatchOption result ((self.old ≡ []) × (self.new ≡ [])) (λ first. self.old ≡ first ∷ self.new) }
    {
        self.left.pop()
    }
}
