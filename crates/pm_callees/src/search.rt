//! The first caller port whose set has so many methods.
ghost use Rattle.std.specs.Prelude.{◌≡◌, ◌<◌, length, true};
ghost use Rattle.pm_callees.specs.Ends.{IsThere};
ghost use Rattle.pm_callees.specs.Numbers.{IsSite, end_at};
ghost use Rattle.pm_callees.specs.Search.{FindsIn, FindsPort, NoneBefore, methods_at};
ghost use Rattle.pm_design.specs.Elaborated.{IsElaborated};
ghost use Rattle.pm_instances.specs.Laid.{laid_out};

use crate::site::{Site, instance_kind, port_number};
use crate::tally::{Methods, are_as_many};
use disjoint_sets::DisjointSets;
use pm_design::Design;

/// A caller port: its instance, and its number in its kind.
#[derive(Clone, Copy)]
pub(crate) struct Port {
    pub(crate) instance: usize,
    pub(crate) number: u32,
}

// How many methods the set of a caller port has.
fn port_methods(
    design: &Design,
    site: &Site,
    i: usize,
    port: u32,
    sets: &mut DisjointSets,
    tally: &[Methods],
) -> Methods
    requires design { IsElaborated design.now }
    requires site { IsSite design.now site.now }
    requires there { IsThere (laid_out design.now) (end_at i true port) }
    requires count { length sets.old ≡ site.now.count }
    requires tally { length tally.now ≡ length sets.old }
    ensures same { sets.new ≡ sets.old }
    ensures methods { result ≡ methods_at (laid_out design.now) sets.old tally.now (end_at i true port) }
{
    tally[sets.least(port_number(design, site, i, port)) as usize]
}

// The first caller port of an instance whose set has so many methods.
fn first_in(
    design: &Design,
    site: &Site,
    i: usize,
    sets: &mut DisjointSets,
    tally: &[Methods],
    wanted: Methods,
) -> Option<u32>
    requires design { IsElaborated design.now }
    requires site { IsSite design.now site.now }
    requires instance { i < length site.now.instances }
    requires count { length sets.old ≡ site.now.count }
    requires tally { length tally.now ≡ length sets.old }
    requires before { NoneBefore (laid_out design.now) sets.old tally.now wanted i 0 }
    ensures same { sets.new ≡ sets.old }
    ensures found { FindsIn (laid_out design.now) sets.old tally.now wanted i result }
{
    for port in 0..instance_kind(design, site, i).callers.len() as u32 {
        let methods = port_methods(design, site, i, port, sets, tally);
        if are_as_many(methods, wanted) {
            return Some(port);
        }
    }
    None
}

/// The first caller port, by instance and declaration, whose set has so many methods.
pub(crate) fn first_port(
    design: &Design,
    site: &Site,
    sets: &mut DisjointSets,
    tally: &[Methods],
    wanted: Methods,
) -> Option<Port>
    requires design { IsElaborated design.now }
    requires site { IsSite design.now site.now }
    requires count { length sets.old ≡ site.now.count }
    requires tally { length tally.now ≡ length sets.old }
    ensures same { sets.new ≡ sets.old }
    ensures found { FindsPort (laid_out design.now) sets.old tally.now wanted result }
{
    for instance in 0..site.instances.len() {
        if let Some(number) = first_in(design, site, instance, sets, tally, wanted) {
            return Some(Port { instance, number });
        }
    }
    None
}
