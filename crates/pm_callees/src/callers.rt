//! The first caller port that doesn't lead to one method.
ghost use Rattle.std.specs.Prelude.{◌≡◌, ◌++◌, ◌≤◌, ◌^◌, IfOk, codes, true};
ghost use Rattle.pm_callees.specs.Callees.{Finds};
ghost use Rattle.pm_callees.specs.Ends.{IsThere, port_name as port_name_of};
ghost use Rattle.pm_callees.specs.Numbers.{IsSite, end_at};
ghost use Rattle.pm_design.specs.Elaborated.{IsElaborated};
ghost use Rattle.pm_design.specs.Instances.{flat_bits};
ghost use Rattle.pm_instances.specs.Laid.{laid_out};

use crate::fault::CallerFault;
use crate::joining::join_all;
use crate::numbering::site_of;
use crate::search::{Port, first_port};
use crate::site::{Site, instance_kind};
use crate::tally::{Methods, count_methods};
use pm_design::Design;
use pm_io::{NoMemory, Text};
use std::alloc::Global;

// A name within a component, with its path.
fn path_name(alloc: Global, path: &[u8], name: &[u8]) -> Result<Text, NoMemory>
    ensures { IfOk result (λ made. made ≡ path.now ++ codes "." ++ name.now) }
{
    let mut made = Vec::from_slice(alloc, path)?;
    made.push(b'.')?;
    made.extend_from_slice(name)?;
    Ok(Text::from_vec(made))
}

// The name of a caller port.
fn port_name(alloc: Global, design: &Design, site: &Site, port: Port) -> Result<Text, NoMemory>
    requires design { IsElaborated design.now }
    requires site { IsSite design.now site.now }
    requires there { IsThere (laid_out design.now) (end_at port.instance true port.number) }
    ensures { IfOk result (λ name. name ≡ port_name_of (laid_out design.now) (end_at port.instance true port.number)) }
{
    let instance = &site.instances.as_slice()[port.instance];
    let kind = instance_kind(design, site, port.instance);
    let caller = &kind.callers.as_slice()[port.number as usize];
    path_name(alloc, instance.path.as_slice(), caller.name.as_slice())
}

/// What is wrong with the caller ports of a design, if anything. Each must be connected to exactly one method, by a chain
/// of connections of any instances. A chain may go through other ports, and through methods too.
///
/// The first port, by instance and declaration, that no chain leads from to a method is named before any other. Where
/// there is none, it is the first port from which chains lead to two or more methods. Instances are in preorder.
///
/// Requires an elaborated design of at most 2^18 flat bits. It fails only when memory runs out, or where the instances
/// have 2^32 methods and caller ports or more, which don't fit in memory.
pub fn caller_fault(alloc: Global, design: &Design) -> Result<Option<CallerFault>, NoMemory>
    requires design { IsElaborated design.now }
    requires bits { flat_bits design.now ≤ 2 ^ 18 }
    ensures { IfOk result (λ fault. Finds (laid_out design.now) fault) }
{
    let site = site_of(alloc, design)?;
    let mut sets = join_all(alloc, design, &site)?;
    let tally = count_methods(alloc, design, &site, &mut sets)?;
    if let Some(port) = first_port(design, &site, &mut sets, tally.as_slice(), Methods::Absent) {
        let name = port_name(alloc, design, &site, port)?;
        return Ok(Some(CallerFault::NoCallee(name)));
    }
    if let Some(port) = first_port(design, &site, &mut sets, tally.as_slice(), Methods::Several) {
        let name = port_name(alloc, design, &site, port)?;
        return Ok(Some(CallerFault::TwoCallees(name)));
    }
    Ok(None)
}
