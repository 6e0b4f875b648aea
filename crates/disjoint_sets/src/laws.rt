//! Laws of connected numbers. No code calls these functions: each one proves its law.
ghost use Rattle.std.specs.Prelude.{◌≡◌, ℕ, List};
ghost use Rattle.disjoint_sets.specs.Connected.{Connected};
ghost use Rattle.disjoint_sets.specs.Partitions.{IsPartition, IsNumbering};

/// To be connected is an equivalence.
#[tactic(auto, using(crate::proofs::Chains::chains))]
pub fn connected_is_an_equivalence()
    ensures reflexive { (links : List (ℕ × ℕ)) (a : ℕ) → Connected links a a }
    ensures symmetric { (links : List (ℕ × ℕ)) (a b : ℕ) → Connected links a b → Connected links b a }
    ensures transitive { (links : List (ℕ × ℕ)) (a b c : ℕ) →
        Connected links a b → Connected links b c → Connected links a c }
{}

/// The same links make one partition.
#[tactic(auto, using(crate::proofs::Joining::one_partition))]
pub fn links_make_one_partition()
    ensures partition { (count : ℕ) (links : List (ℕ × ℕ)) (one other : List ℕ) →
        IsPartition count links one → IsPartition count links other → one ≡ other }
{}
