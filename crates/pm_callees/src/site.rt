//! The methods and caller ports of instances, and their numbers.
ghost use Rattle.std.specs.Prelude.{◌≡◌, ◌<◌, false, true, IsTrue, length, slice_index_or};
ghost use Rattle.pm_callees.specs.Ends.{IsThere};
ghost use Rattle.pm_callees.specs.Numbers.{IsSite, end_at, number_of as number_of_end};
ghost use Rattle.pm_design.specs.Calls.{child_of, end_of};
ghost use Rattle.pm_design.specs.Elaborated.{IsElaborated};
ghost use Rattle.pm_design.specs.Lookups.{signature_of};
ghost use Rattle.pm_design.specs.Runnable.{kind_at};
ghost use Rattle.pm_instances.specs.Laid.{laid_out};

use pm_design::{Callee, Design, Instance, Kind};
use pm_io::List;

/// The instances of a design, with numbers for their methods and caller ports: by instance, methods before ports.
#[derive(Drop)]
pub(crate) struct Site {
    pub(crate) instances: List<Instance>,
    /// The first number of each instance.
    pub(crate) firsts: List<u32>,
    /// How many methods and caller ports there are.
    pub(crate) count: u32,
}

/// The kind of an instance.
pub(crate) fn instance_kind<'a>(design: &'a Design, site: &Site, i: usize) -> &'a Kind
    requires design { IsElaborated design.now }
    requires site { IsSite design.now site.now }
    requires instance { i < length site.now.instances }
    ensures { result.now ≡ kind_at (laid_out design.now) i }
{
    let instance = &site.instances.as_slice()[i];
    &design.kinds.as_slice()[instance.kind as usize]
}

// The instance of a child.
fn child_at(design: &Design, site: &Site, i: usize, child: u32) -> usize
    requires design { IsElaborated design.now }
    requires site { IsSite design.now site.now }
    requires instance { i < length site.now.instances }
    requires child { child < length (kind_at (laid_out design.now) i).children }
    ensures { result ≡ child_of (laid_out design.now) i child }
{
    let instance = &site.instances.as_slice()[i];
    instance.children.as_slice()[child as usize] as usize
}

/// The number of a method of an instance.
pub(crate) fn method_number(design: &Design, site: &Site, i: usize, method: u32) -> u32
    requires design { IsElaborated design.now }
    requires site { IsSite design.now site.now }
    requires there { IsThere (laid_out design.now) (end_at i false method) }
    ensures value { result ≡ number_of_end (laid_out design.now) (end_at i false method) }
    ensures bound { result < site.now.count }
{
    site.firsts.as_slice()[i] + method
}

/// The number of a caller port of an instance.
pub(crate) fn port_number(design: &Design, site: &Site, i: usize, port: u32) -> u32
    requires design { IsElaborated design.now }
    requires site { IsSite design.now site.now }
    requires there { IsThere (laid_out design.now) (end_at i true port) }
    ensures value { result ≡ number_of_end (laid_out design.now) (end_at i true port) }
    ensures bound { result < site.now.count }
{
    let methods = instance_kind(design, site, i).methods.len() as u32;
    site.firsts.as_slice()[i] + methods + port
}

/// The number of what a callee names in an instance.
pub(crate) fn callee_number(design: &Design, site: &Site, i: usize, callee: Callee) -> u32
    requires design { IsElaborated design.now }
    requires site { IsSite design.now site.now }
    requires instance { i < length site.now.instances }
    requires there { IsTrue ((signature_of design.now (kind_at (laid_out design.now) i) callee).there) }
    ensures value { result ≡ number_of_end (laid_out design.now) (end_of (laid_out design.now) i callee) }
    ensures bound { result < site.now.count }
{
    match callee {
        Callee::Own(method) => method_number(design, site, i, method),
        Callee::Child(child, method) => {
            method_number(design, site, child_at(design, site, i, child), method)
        }
        Callee::Port(port) => port_number(design, site, i, port),
        Callee::ChildPort(child, port) => {
            port_number(design, site, child_at(design, site, i, child), port)
        }
    }
}
