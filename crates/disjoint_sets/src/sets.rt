//! Sets that are joined two at a time.
ghost use Rattle.std.specs.Prelude.{◌≡◌, ◌<◌, ◌∷◌, [], ℕ, List, length, get_or, IfOk};
ghost use Rattle.disjoint_sets.specs.Partitions.{IsPartition, IsNumbering, Joins};

use crate::forest::{find, join_roots};
use std::alloc::{AllocError, Global};
use std::marker::Model;

/// Numbers from 0 on, each in one set.
///
/// Contracts see it as the list that has at each number the least of its set.
#[derive(Drop)]
pub struct DisjointSets {
    /// For each number another one of its set, at most itself; a set's least number is its own parent.
    parents: Vec<u32>,
}

/// The number of the set of each element, and how many sets there are.
#[derive(Drop)]
pub struct Numbering {
    pub numbers: Vec<u32>,
    pub sets: u32,
}

impl Model for DisjointSets {
    ghost use Rattle.std.specs.Prelude.{◌<◌, ◌^◌, ℕ, List, length};
    ghost use Rattle.disjoint_sets.specs.Forests.{IsForest, roots};

    ghost Value = { List ℕ };

    ghost view = { λ sets. roots sets.parents.items };

    ghost invariant = { λ sets. IsForest sets.parents.items × (length sets.parents.items < 2 ^ 32) };
}

impl DisjointSets {
    /// The numbers below `count`, each in a set of its own.
    pub fn new(alloc: Global, count: u32) -> Result<DisjointSets, AllocError>
        ensures { IfOk result (λ sets. IsPartition count [] sets) }
    {
        let mut parents = Vec::with_capacity(alloc, count as usize)?;
        for element in 0..count {
            parents.push(element)?;
        }
        Ok(DisjointSets { parents })
    }

    /// How many numbers there are.
    pub fn len(&self) -> usize
        ensures { result ≡ length self.now }
    {
        self.parents.len()
    }

    /// The least number of an element's set.
    pub fn least(&mut self, element: u32) -> u32
        requires { element < length self.old }
        ensures value { result ≡ get_or self.old element 0 }
        ensures bound { result < length self.old }
        ensures same { self.new ≡ self.old }
    {
        find(self.parents.as_mut_slice(), element)
    }

    /// Joins the sets of two numbers.
    pub fn join(&mut self, a: u32, b: u32)
        requires { (a < length self.old) × (b < length self.old) }
        ensures { Joins self.old self.new ((a, b) ∷ []) }
    {
        let parents = self.parents.as_mut_slice();
        let first = find(parents, a);
        let second = find(parents, b);
        join_roots(parents, first, second);
    }

    /// Numbers the sets from 0, in the order of their least members.
    pub fn numbering(&self, alloc: Global) -> Result<Numbering, AllocError>
        ensures { IfOk result (λ numbering. (links : List (ℕ × ℕ)) → IsPartition (length self.now) links self.now →
            IsNumbering (length self.now) links numbering.numbers.items numbering.sets) }
    {
        let mut numbers = Vec::with_capacity(alloc, self.parents.len())?;
        let mut count = 0;
        for element in 0..self.parents.len() {
            let above = self.parents[element];
            if above as usize == element {
                numbers.push(count)?;
                count += 1;
            } else {
                numbers.push(numbers[above as usize])?;
            }
        }
        Ok(Numbering {
            numbers,
            sets: count,
        })
    }
}
