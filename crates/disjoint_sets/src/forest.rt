//! Searches and changes of a forest, over its bare array of parents.
ghost use Rattle.std.specs.Prelude.{◌≡◌, ◌<◌, ℕ, length};
ghost use Rattle.disjoint_sets.specs.Forests.{IsForest, root};
ghost use Rattle.disjoint_sets.specs.Unions.{united_least};

/// The root above a number. Paths become shorter, and roots stay.
pub(crate) fn find(parents: &mut [u32], element: u32) -> u32
    requires forest { IsForest parents.old }
    requires element { element < length parents.old }
    ensures value { result ≡ root parents.old element }
    ensures bound { result < length parents.old }
    ensures size { length parents.new ≡ length parents.old }
    ensures forest { IsForest parents.new }
    ensures same { (x : ℕ) → root parents.new x ≡ root parents.old x }
{
    let mut at = element;
    while parents[at as usize] != at {
        let above = parents[parents[at as usize] as usize];
        parents[at as usize] = above;
        at = above;
    }
    at
}

/// Makes the trees of two roots one, below the lesser root.
pub(crate) fn join_roots(parents: &mut [u32], a: u32, b: u32)
    requires forest { IsForest parents.old }
    requires below { (a < length parents.old) × (b < length parents.old) }
    requires rooted { (root parents.old a ≡ a) × (root parents.old b ≡ b) }
    ensures size { length parents.new ≡ length parents.old }
    ensures forest { IsForest parents.new }
    ensures united { (x : ℕ) → root parents.new x ≡ united_least a b (root parents.old x) }
{
    if a < b {
        parents[b as usize] = a;
    } else {
        parents[a as usize] = b;
    }
}
