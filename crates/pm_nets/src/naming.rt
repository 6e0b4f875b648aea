//! Names of flat bits.
ghost use Rattle.std.specs.Prelude.{◌≡◌, ◌+◌, ◌<◌, ◌≤◌, ◌++◌, IfOk, codes, length, map, slice_index_or, take};
ghost use Rattle.pm_design.specs.Elaborated.{IsElaborated};
ghost use Rattle.pm_design.specs.Instances.{flat_bits, own_bits};
ghost use Rattle.pm_design.specs.Layout.{instance_of};
ghost use Rattle.pm_design.specs.Lookups.{no_signal};
ghost use Rattle.pm_design.specs.Runnable.{kind_at};
ghost use Rattle.pm_design.specs.Widths.{total};
ghost use Rattle.pm_instances.specs.Laid.{laid_out};
ghost use Rattle.pm_nets.specs.SignalBits.{IsBitOf};
ghost use Rattle.pm_nets.specs.Sites.{IsSite};

use crate::drivers::instance_kind;
use crate::site::{Site, instance_at};
use pm_design::{Design, Signal};
use pm_io::{NoMemory, Text};
use std::alloc::Global;

/// A bit of a signal of an instance.
#[derive(Drop)]
pub struct SignalBit {
    /// The name of the signal with the path of its instance, as `s.left.out`.
    pub signal: Text,
    /// The number of the bit, from the lowest on.
    pub bit: u32,
}

// The instance that has a flat bit.
fn instance_with(design: &Design, site: &Site, flat: u32) -> usize
    requires site { IsSite design.now site.now }
    requires design { IsElaborated design.now }
    requires bit { flat < flat_bits design.now }
    ensures there { result < length site.now.instances }
    ensures from { (instance_of (laid_out design.now) result).first_bit ≤ flat }
    ensures to { flat < (instance_of (laid_out design.now) result).first_bit
        + own_bits (kind_at (laid_out design.now) result) }
{
    for next in 1..site.instances.len() {
        if flat < instance_at(site, next).first_bit {
            return next - 1;
        }
    }
    site.instances.len() - 1
}

// The signal that has one of the bits of signals, and which of its own bits it is.
fn signal_with(signals: &[Signal], bit: u32) -> (usize, u32)
    requires { bit < total (map (λ s. s.width) signals.now) }
    ensures there { result.0 < length signals.now }
    ensures within { result.1 < (slice_index_or signals.now result.0 no_signal).width }
    ensures place { bit ≡ total (map (λ s. s.width) (take result.0 signals.now)) + result.1 }
{
    let mut signal = 0;
    let mut rest = bit;
    while rest >= signals[signal].width {
        rest -= signals[signal].width;
        signal += 1;
    }
    (signal, rest)
}

// The name of a signal, with the path of its instance.
fn signal_name(alloc: Global, path: &[u8], name: &[u8]) -> Result<Vec<u8>, NoMemory>
    ensures { IfOk result (λ made. made.items ≡ path.now ++ codes "." ++ name.now) }
{
    let mut made = Vec::from_slice(alloc, path)?;
    made.push(b'.')?;
    made.extend_from_slice(name)?;
    Ok(made)
}

/// The name of a flat bit.
pub(crate) fn name_bit(
    alloc: Global,
    design: &Design,
    site: &Site,
    flat: u32,
) -> Result<SignalBit, NoMemory>
    requires site { IsSite design.now site.now }
    requires design { IsElaborated design.now }
    requires bit { flat < flat_bits design.now }
    ensures { IfOk result (λ named. IsBitOf (laid_out design.now) flat named) }
{
    let i = instance_with(design, site, flat);
    let instance = instance_at(site, i);
    let signals = instance_kind(design, site, i).signals.as_slice();
    let (signal, bit) = signal_with(signals, flat - instance.first_bit);
    let name = signal_name(
        alloc,
        instance.path.as_slice(),
        signals[signal].name.as_slice(),
    )?;
    Ok(SignalBit {
        signal: Text::from_vec(name),
        bit,
    })
}
