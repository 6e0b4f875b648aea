//! The run of a plan's block.
ghost use Rattle.std.specs.Prelude.{◌≡◌, ◌+◌, ◌<◌, ◌≤◌, ◌^◌, IsTrue, length, slice_index_or, [], true, false};
ghost use Rattle.std.specs.List.{list_all};
ghost use Rattle.pm_design.specs.Layout.{layout_of, scope_of};
ghost use Rattle.pm_design.specs.Nodes.{body_nodes, inside_of};
ghost use Rattle.pm_design.specs.Runnable.{IsRunnable, block_at, is_there};
ghost use Rattle.pm_design.specs.Widths.{is_width};
ghost use Rattle.pm_block.specs.Assignments.{all_assignments};
ghost use Rattle.pm_block.specs.Places.{is_tidy};
ghost use Rattle.pm_block.specs.Plans.{scene_of};
ghost use Rattle.pm_block.specs.Run.{run_block};
ghost use Rattle.pm_block.specs.Sites.{memory_of};
ghost use Rattle.pm_block.specs.Tables.{IsFor, assignments_in, can_run, flat_of, is_clocked, is_plain, left_by, no_flat, nodes_in, scopes_of, temps_in};

use crate::lookup::block_of;
use crate::places::Places;
use crate::run::run_there;
use crate::site::Site;
use crate::steps::Steps;
use crate::temps::Temps;
use pm_design::{Flat, Plan};
use pm_io::List;
use std::sync::ledger::Ledger;

/// Which block runs.
#[derive(Clone, Copy, PartialEq, Eq)]
pub enum Run {
    /// A number of the plan's scheduled blocks.
    Scheduled(u32),
    /// A number of the plan's blocks at the clock edge.
    Edge(u32),
}

impl Run {
    fn is_clocked(self) -> bool
        ensures { result ≡ is_clocked self }
    {
        match self {
            Run::Scheduled(_) => false,
            Run::Edge(_) => true,
        }
    }
}

/// Runs a block of the plan once. Its temporaries start at 0. In a block at the clock edge each read sees the values that
/// there were at its start, and each assigned part takes its last value at its end. The block has neither states nor
/// methods. No memory is taken.
#[tactic(auto, using(crate::proofs::Runs::flat_there, crate::proofs::Runs::flat_widths, crate::proofs::Runs::within_most))]
pub fn run_body<P: Places, L: Ledger>(
    plan: &Plan,
    run: Run,
    places: &mut P,
    temps: &mut Temps,
    steps: &mut Steps<L>,
)
    requires runnable { IsRunnable plan.now }
    requires there { IsTrue (can_run plan.now run) }
    requires plain { IsTrue (is_plain plan.now (flat_of plan.now run)) }
    requires layout { P.layout places.old ≡ layout_of plan.now }
    requires tidy { IsTrue (is_tidy (P.held places.old)) }
    requires temps { IsFor plan.now temps.old }
    requires room { steps.old + nodes_in plan.now (flat_of plan.now run) < 2 ^ 64 }
    ensures layout { P.layout places.new ≡ P.layout places.old }
    ensures tidy { IsTrue (is_tidy (P.held places.new)) }
    ensures temps { temps.new ≡ temps.old }
    ensures cost { steps.new ≤ steps.old + nodes_in plan.now (flat_of plan.now run) }
    ensures some { 0 < length (block_at plan.now (flat_of plan.now run)).body → steps.old < steps.new }
    ensures values { memory_of (P.at places.new) (P.held places.new)
        ≡ left_by plan.now run (memory_of (P.at places.old) (P.held places.old)) }
{
    run_flat(
        plan,
        flat_at(plan, run),
        run.is_clocked(),
        places,
        temps,
        steps,
    );
}

// The block that is to run.
fn flat_at<'a>(plan: &'a Plan, run: Run) -> &'a Flat
    requires { IsTrue (can_run plan.now run) }
    ensures { result.now ≡ flat_of plan.now run }
{
    match run {
        Run::Scheduled(n) => flat_in(plan.scheduled.as_slice(), n),
        Run::Edge(n) => flat_in(plan.edge_blocks.as_slice(), n),
    }
}

fn flat_in<'a>(flats: &'a [Flat], n: u32) -> &'a Flat
    requires { n < length flats.now }
    ensures { result.now ≡ slice_index_or flats.now n no_flat }
{
    &flats[n as usize]
}

// Runs a block of the plan.
#[tactic(auto, using(crate::proofs::There::is_instance, crate::proofs::Tabled::scope_in_tables, crate::proofs::Tabled::as_many_scopes))]
fn run_flat<P: Places, L: Ledger>(
    plan: &Plan,
    flat: &Flat,
    clocked: bool,
    places: &mut P,
    temps: &mut Temps,
    steps: &mut Steps<L>,
)
    requires there { IsTrue (is_there plan.now flat.now) }
    requires plain { IsTrue (is_plain plan.now flat.now) }
    requires widths { IsTrue (list_all is_width (block_at plan.now flat.now).temps) }
    requires layout { P.layout places.old ≡ layout_of plan.now }
    requires scopes { temps.old.scopes ≡ scopes_of plan.now }
    requires words { temps_in plan.now flat.now ≤ temps.old.words }
    requires space { assignments_in plan.now flat.now ≤ temps.old.room }
    requires none { temps.old.writes ≡ [] }
    requires room { steps.old + nodes_in plan.now flat.now < 2 ^ 64 }
    ensures layout { P.layout places.new ≡ P.layout places.old }
    ensures held { P.held places.new ≡ P.held places.old }
    ensures temps { temps.new ≡ temps.old }
    ensures cost { steps.new ≤ steps.old + nodes_in plan.now flat.now }
    ensures some { 0 < length (block_at plan.now flat.now).body → steps.old < steps.new }
    ensures values { memory_of (P.at places.new) (P.held places.new)
        ≡ run_block clocked (scene_of plan.now flat.now.instance) (block_at plan.now flat.now).body (block_at plan.now flat.now).temps (memory_of (P.at places.old) (P.held places.old)) }
{
    let block = block_of(plan, flat);
    let scope = scope_in(temps.scopes.as_slice(), flat.instance);
    let site = Site {
        plan,
        instance: flat.instance,
        scope,
    };
    run_there(
        &site,
        clocked,
        places,
        &mut temps.waiting,
        &mut temps.words,
        steps,
        block,
    );
}

// The scope of an instance.
fn scope_in<'a>(scopes: &'a [List<List<u32>>], instance: u32) -> &'a [List<u32>]
    requires { instance < length scopes.now }
    ensures { result.now ≡ slice_index_or scopes.now instance [] }
{
    scopes[instance as usize].as_slice()
}
