//! The default order of a design's blocks, or the cycle that rules out every order.
ghost use Rattle.std.specs.Prelude.{◌≡◌, IfErr, IfOk, IsTrue};
ghost use Rattle.pm_cons.specs.Edges.{AreEdges, precedence_of};
ghost use Rattle.pm_cons.specs.Precedence.{has_loop};
ghost use Rattle.pm_sched.specs.Cycles.{IsReported};
ghost use Rattle.pm_sched.specs.Faults.{IsFaultOf};
ghost use Rattle.pm_sched.specs.Ordering.{IsDefaultOrder};
ghost use Rattle.pm_sched.specs.Tables.{precedence_in};

use crate::closing::least_on_loop;
use crate::cycle::cycle_from;
use crate::fault::OrderFault;
use crate::ordering::order_in;
use crate::predecessors::predecessors_of;
use bit_table::BitTable;
use pm_design::Edges;
use pm_io::{List, NoMemory};
use std::alloc::Global;

/// The default order: at each place the least block whose predecessors are all listed already. If some block precedes
/// itself, there is none, and the reported cycle says why.
pub fn default_order(alloc: Global, edges: &Edges) -> Result<List<u32>, OrderFault>
    requires { AreEdges edges.now }
    ensures order { IfOk result (IsDefaultOrder (precedence_of edges.now)) }
    ensures fault { IfErr result (IsFaultOf (precedence_of edges.now)) }
{
    let predecessors = predecessors_of(alloc, edges)?;
    match order_in(alloc, &predecessors)? {
        Some(order) => Ok(order),
        None => Err(OrderFault::Cycle(reported_cycle(alloc, edges, &predecessors)?)),
    }
}

// The cycle that is reported, if there is a loop.
fn reported_cycle(
    alloc: Global,
    edges: &Edges,
    predecessors: &BitTable,
) -> Result<List<u32>, NoMemory>
    requires edges { AreEdges edges.now }
    requires square { predecessors.now.columns ≡ predecessors.now.rows }
    requires bits { precedence_in predecessors.now ≡ precedence_of edges.now }
    requires has_loop { IsTrue (has_loop (precedence_of edges.now)) }
    ensures { IfOk result (IsReported (precedence_of edges.now)) }
{
    let least = least_on_loop(alloc, edges)?;
    match least {
        Some(block) => cycle_from(alloc, predecessors, block),
        None => unreachable!(),
    }
}
