//! What elaboration has made so far.
ghost use Rattle.std.specs.Prelude.{◌≡◌};
ghost use Rattle.pm_elab.specs.Elab as spec;
ghost use Rattle.pm_elab.specs.Elab.{Elabs};

use crate::body::{MethodTypes, RawBody};
use crate::frame::Local;
use pm_design::{Design, Kind, Shape};
use pm_io::List;
use pm_values::{BuildFault, CallerTypes, Table, Value, ValueType};

/// The most steps that elaboration takes.
pub const MAX_STEPS: u32 = 1_048_576;

/// The most instances that a component has, itself among them.
pub const MAX_INSTANCES: u32 = 4_096;

/// The most constructs that are nested.
pub const MAX_NESTING: usize = 64;

/// What elaboration has made so far.
#[derive(Drop)]
pub struct Elaboration {
    /// How many steps it has taken.
    pub steps: u32,
    /// The bitstructs of the file.
    pub shapes: List<Shape>,
    /// The kinds of component, children before parents.
    pub kinds: List<MadeKind>,
}

/// A component class at the values of its parameters.
#[derive(Drop)]
pub struct MadeKind {
    pub arguments: List<Value>,
    pub kind: Kind,
    pub raw: RawKind,
}

/// What the types of bodies rest on, for one kind.
#[derive(Drop)]
pub struct RawKind {
    /// The names of `construct` at their last values.
    pub locals: Table<Local>,
    /// What `s.name` is, for each name.
    pub attributes: Table<Value>,
    /// The type of each state: of the number, or of an item.
    pub states: List<ValueType>,
    pub methods: List<MethodTypes>,
    pub callers: List<CallerTypes>,
    pub bodies: List<RawBody>,
}

/// A design whose bodies aren't typed yet.
#[derive(Drop)]
pub struct RawDesign {
    pub design: Design,
    /// One for each kind of the design.
    pub kinds: List<RawKind>,
    /// The names of the file.
    pub names: Table<Value>,
}

impl Elaboration {
    /// Takes a step, if there is one left.
    #[tactic(auto, unfolding(crate::specs::Elab::step))]
    pub fn step(&mut self, line: u32) -> Result<(), BuildFault>
        ensures { Elabs (spec.step line self.old) result self.new }
    {
        if self.steps >= MAX_STEPS {
            return Err(BuildFault::BuildBudget(line));
        }
        self.steps += 1;
        Ok(())
    }
}
