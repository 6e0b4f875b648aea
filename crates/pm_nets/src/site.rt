//! Where the parts that connections name are among the flat bits.
ghost use Rattle.std.specs.Prelude.{◌≡◌, ◌+◌, ◌<◌, ◌≤◌, ◌^◌, [], IsTrue, length, slice_index_or};
ghost use Rattle.pm_design.specs.Elaborated.{IsElaborated};
ghost use Rattle.pm_design.specs.Instances.{flat_bits};
ghost use Rattle.pm_design.specs.Lookups.{lies_within};
ghost use Rattle.pm_design.specs.Runnable.{kind_at};
ghost use Rattle.pm_instances.specs.Laid.{laid_out};
ghost use Rattle.pm_nets.specs.Sites.{IsSite, first_of, owner_of};

use pm_design::{Design, Instance, Part};
use pm_io::List;

/// The instances of a design, and where the signals of each of its kinds begin among the bits of a component.
#[derive(Drop)]
pub struct Site {
    pub instances: List<Instance>,
    pub(crate) offsets: List<List<u32>>,
}

// An instance.
pub(crate) fn instance_at<'a>(site: &'a Site, i: usize) -> &'a Instance
    requires { i < length site.now.instances }
    ensures { result.now ≡ slice_index_or site.now.instances i result.now }
{
    &site.instances.as_slice()[i]
}

// Where a signal of a kind begins.
fn offset(site: &Site, kind: u32, signal: u32) -> u32
    requires kind { kind < length site.now.offsets }
    requires signal { signal < length (slice_index_or site.now.offsets kind []) }
    ensures { result ≡ slice_index_or (slice_index_or site.now.offsets kind []) signal 0 }
{
    site.offsets.as_slice()[kind as usize].as_slice()[signal as usize]
}

/// The instance whose signal a part of an instance's kind names.
fn owner(design: &Design, site: &Site, i: usize, part: Part) -> usize
    requires site { IsSite design.now site.now }
    requires design { IsElaborated design.now }
    requires instance { i < length site.now.instances }
    requires part { IsTrue (lies_within design.now (kind_at (laid_out design.now) i) part) }
    ensures { result ≡ owner_of (laid_out design.now) i part.owner }
{
    if part.owner == 0 {
        return i;
    }
    instance_at(site, i).children.as_slice()[part.owner as usize - 1] as usize
}

/// The first flat bit of a part of an instance's kind.
pub(crate) fn first_bit(design: &Design, site: &Site, i: usize, part: Part) -> u32
    requires site { IsSite design.now site.now }
    requires design { IsElaborated design.now }
    requires bits { flat_bits design.now ≤ 2 ^ 18 }
    requires instance { i < length site.now.instances }
    requires part { IsTrue (lies_within design.now (kind_at (laid_out design.now) i) part) }
    ensures value { result ≡ first_of (laid_out design.now) i part }
    ensures bound { result + part.width ≤ flat_bits design.now }
{
    let instance = instance_at(site, owner(design, site, i, part));
    instance.first_bit + offset(site, instance.kind, part.signal) + part.lo
}
