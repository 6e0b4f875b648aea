//! How many nodes bodies have.
ghost use Rattle.std.specs.Prelude.{◌≡◌};
ghost use Rattle.pm_typing.specs.Counted as spec;
ghost use Rattle.pm_typing.specs.Counted.{Counts};

use crate::fault::TypeFault;

/// The most nodes and turns of loops that the bodies of a kind have.
pub const MAX_NODES: u32 = 1_048_576;

/// How many nodes and turns the bodies of a kind have so far, and the line of the body that is typed.
#[derive(Drop)]
pub struct Tally {
    pub nodes: u32,
    pub line: u32,
}

impl Tally {
    /// Counts some nodes more, if so many are left.
    #[tactic(auto, unfolding(crate::specs::Counted::nodes))]
    pub fn nodes(&mut self, count: usize) -> Result<(), TypeFault>
        ensures { Counts (spec.nodes count self.old) result self.new }
    {
        if self.nodes <= MAX_NODES && count <= (MAX_NODES - self.nodes) as usize {
            self.nodes += count as u32;
            return Ok(());
        }
        Err(TypeFault::BodyTooLong(self.line))
    }

    /// Counts a node or a turn more, if one is left.
    #[tactic(auto, unfolding(crate::specs::Counted::node, crate::specs::Counted::nodes))]
    pub fn node(&mut self) -> Result<(), TypeFault>
        ensures { Counts (spec.node self.old) result self.new }
    {
        if self.nodes >= MAX_NODES {
            return Err(TypeFault::BodyTooLong(self.line));
        }
        self.nodes += 1;
        Ok(())
    }
}
