//! The integers of a `range`.
ghost use Rattle.std.specs.Prelude.{◌≡◌, ◌↔◌, ◌∷◌, [], IsNone, MatchOption, pos};
ghost use Rattle.pm_values.specs.Ranges.{range_list, is_filled};

use std::marker::Model;

/// What is left of `range( start, stop, step )`. Contracts see the list of its integers.
#[derive(Drop)]
pub struct Range {
    /// The next integer, if it is before the stop.
    next: i64,
    stop: i64,
    step: i64,
}

impl Model for Range {
    ghost use Rattle.std.specs.Prelude.{List, ℤ, pos, ◌≢◌};
    ghost use Rattle.pm_values.specs.Ranges.{range_list};

    ghost Value = { List ℤ };

    ghost view = { λ r. range_list r.next r.stop r.step };

    ghost invariant = { λ r. r.step ≢ pos 0 };
}

impl Range {
    /// `None` if and only if the step is 0.
    pub fn new(start: i64, stop: i64, step: i64) -> Option<Range>
        ensures value { MatchOption result (step ≡ pos 0) (λ r. r ≡ range_list start stop step) }
        ensures none { IsNone result ↔ (step ≡ pos 0) }
    {
        if step == 0 {
            return None;
        }
        Some(Range {
            next: start,
            stop,
            step,
        })
    }

    /// Takes the first of the integers that are left.
    pub fn next(&mut self) -> Option<i64>
        ensures { MatchOption result ((self.old ≡ []) × (self.new ≡ [])) (λ n. self.old ≡ n ∷ self.new) }
    {
        if !self.goes_on() {
            return None;
        }
        let next = self.next;
        // An integer that doesn't fit 64 bits is past the stop.
        self.next = next.checked_add(self.step).unwrap_or(self.stop);
        Some(next)
    }

    fn goes_on(&self) -> bool
        ensures { result ≡ is_filled self.now }
    {
        if 0 < self.step {
            self.next < self.stop
        } else {
            self.stop < self.next
        }
    }
}
