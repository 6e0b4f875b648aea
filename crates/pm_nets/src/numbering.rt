//! The numbers of nets.
ghost use Rattle.std.specs.Prelude.{ℕ, List, IfOk, length};
ghost use Rattle.disjoint_sets.specs.Partitions.{IsNumbering, IsPartition};

use disjoint_sets::{DisjointSets, Numbering};
use pm_design::Nets;
use pm_io::{List, NoMemory};
use std::alloc::Global;

/// Numbers the nets, whose flat bits are the sets, in the order of their least flat bits.
pub(crate) fn number_nets(alloc: Global, sets: &DisjointSets) -> Result<Nets, NoMemory>
    ensures { IfOk result (λ nets. (links : List (ℕ × ℕ)) → IsPartition (length sets.now) links sets.now →
        IsNumbering (length sets.now) links nets.net_of nets.count) }
{
    let Numbering { numbers, sets } = sets.numbering(alloc)?;
    Ok(Nets {
        net_of: List::from_vec(numbers),
        count: sets,
    })
}
