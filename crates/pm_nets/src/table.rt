//! Where the signals of kinds begin.
ghost use Rattle.std.specs.Prelude.{◌≡◌, ◌<◌, ◌^◌, IfOk};
ghost use Rattle.pm_design.specs.Elaborated.{IsElaborated};
ghost use Rattle.pm_design.specs.Instances.{first_bits_from, own_bits};
ghost use Rattle.pm_nets.specs.Sites.{offsets_of};

use pm_design::{Design, Kind};
use pm_io::{List, NoMemory};
use std::alloc::Global;

/// The first bit of each signal of a kind, among the bits of its signals.
#[tactic(auto, using(crate::proofs::Offsets::offsets))]
fn kind_offsets(alloc: Global, kind: &Kind) -> Result<List<u32>, NoMemory>
    requires { own_bits kind.now < 2 ^ 32 }
    ensures { IfOk result (λ offsets. offsets ≡ first_bits_from 0 kind.now.signals) }
{
    let mut offsets = List::new(alloc);
    let mut bit = 0;
    for signal in kind.signals.as_slice() {
        offsets.push(bit)?;
        bit += signal.width;
    }
    Ok(offsets)
}

/// The first bit of each signal of each kind.
#[tactic(auto, using(crate::proofs::Offsets::tables))]
pub(crate) fn offsets(alloc: Global, design: &Design) -> Result<List<List<u32>>, NoMemory>
    requires { IsElaborated design.now }
    ensures { IfOk result (λ table. table ≡ offsets_of design.now) }
{
    let mut table = List::new(alloc);
    for kind in design.kinds.as_slice() {
        table.push(kind_offsets(alloc, kind)?)?;
    }
    Ok(table)
}
