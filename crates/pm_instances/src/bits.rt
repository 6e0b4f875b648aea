//! How many bits a design has.
ghost use Rattle.std.specs.Prelude.{◌≡◌, ◌<◌, ◌^◌, suc, IfOk, IsTrue, length, get_or, map};
ghost use Rattle.std.specs.List.{list_all};
ghost use Rattle.pm_design.specs.Elaborated.{IsElaborated, is_before};
ghost use Rattle.pm_design.specs.Instances.{flat_bits as flat_bits_of, own_bits as own_bits_of};
ghost use Rattle.pm_design.specs.Widths.{total};
ghost use Rattle.pm_instances.specs.BitsBelow.{AreBits, bits_to};

use pm_design::{Child, Design, Kind};
use pm_io::NoMemory;
use std::alloc::Global;

/// How many bits the signals of a kind have.
#[tactic(auto, using(crate::proofs::Sums::sums))]
pub(crate) fn own_bits(kind: &Kind) -> u32
    requires { own_bits_of kind.now < 2 ^ 32 }
    ensures { result ≡ own_bits_of kind.now }
{
    let mut bits = 0;
    for signal in kind.signals.as_slice() {
        bits += signal.width;
    }
    bits
}

/// The bits of components of some kinds, with those within them, of which the list has one entry a kind.
#[tactic(auto, using(crate::proofs::Sums::sums, crate::proofs::Numbers::child_kind))]
fn bits_within(children: &[Child], below: &[u64]) -> u64
    requires kinds { IsTrue (list_all (is_before (length below.now)) children.now) }
    requires few { total (map (λ c. get_or below.now c.kind 0) children.now) < 2 ^ 63 }
    ensures { result ≡ total (map (λ c. get_or below.now c.kind 0) children.now) }
{
    let mut bits = 0;
    for child in children {
        bits += below[child.kind as usize];
    }
    bits
}

/// The bits of a component of the first kind that isn't in the list, with those within it.
#[tactic(auto, using(crate::proofs::KindBits::kind_bits))]
fn kind_bits(design: &Design, below: &[u64]) -> u64
    requires design { IsElaborated design.now }
    requires some { length below.now < length design.now.kinds }
    requires below { AreBits design.now below.now }
    ensures { result ≡ bits_to (suc (length below.now)) design.now (length below.now) }
{
    let kind = &design.kinds.as_slice()[below.len()];
    own_bits(kind) as u64 + bits_within(kind.children.as_slice(), below)
}

/// How many flat bits a design has: those of all signals of all instances.
#[tactic(auto, using(crate::proofs::KindBits::design_bits))]
pub fn flat_bits(alloc: Global, design: &Design) -> Result<u64, NoMemory>
    requires { IsElaborated design.now }
    ensures { IfOk result (λ count. count ≡ flat_bits_of design.now) }
{
    let mut below = Vec::new(alloc);
    for _ in 0..design.kinds.len() {
        let bits = kind_bits(design, below.as_slice());
        below.push(bits)?;
    }
    Ok(below[design.top as usize])
}
