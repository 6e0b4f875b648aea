//! What bodies name.
ghost use Rattle.std.specs.Prelude.{◌≡◌, OnOk};
ghost use Rattle.pm_touched.specs.Naming.{asking, calling, nothing, reading_parts, reading_state, together};
ghost use Rattle.pm_touched.specs.Naming.{writing_parts, writing_state};
ghost use Rattle.std.specs.Prelude.{[], ◌∷◌};

use pm_design::{Callee, Part};
use pm_io::{List, NoMemory};
use std::alloc::Global;

/// What a body names.
#[derive(Drop)]
pub struct Named {
    /// The parts that it reads: of a dynamic index all elements.
    pub reads: List<Part>,
    /// The parts that it may write: of a dynamic index all elements.
    pub writes: List<Part>,
    /// The states that it reads.
    pub state_reads: List<u32>,
    /// The states that it may write.
    pub state_writes: List<u32>,
    /// The callees whose guards it asks for.
    pub asked: List<Callee>,
    /// The callees that it calls.
    pub called: List<Callee>,
}

impl Named {
    /// Nothing.
    #[tactic(auto, using(crate::proofs::Together::nothing_named))]
    pub(crate) fn new(alloc: Global) -> Named
        ensures { result ≡ nothing }
    {
        Named {
            reads: List::new(alloc),
            writes: List::new(alloc),
            state_reads: List::new(alloc),
            state_writes: List::new(alloc),
            asked: List::new(alloc),
            called: List::new(alloc),
        }
    }

    #[tactic(auto, using(crate::proofs::Together::read_is))]
    pub(crate) fn read(&mut self, part: Part) -> Result<(), NoMemory>
        ensures { OnOk result (self.new ≡ together self.old (reading_parts (part ∷ []))) }
    {
        self.reads.push(part)?;
        Ok(())
    }

    pub(crate) fn read_all(&mut self, parts: &[Part]) -> Result<(), NoMemory>
        ensures { OnOk result (self.new ≡ together self.old (reading_parts parts.now)) }
    {
        for part in parts {
            self.read(*part)?;
        }
        Ok(())
    }

    #[tactic(auto, using(crate::proofs::Together::write_is))]
    pub(crate) fn write(&mut self, part: Part) -> Result<(), NoMemory>
        ensures { OnOk result (self.new ≡ together self.old (writing_parts (part ∷ []))) }
    {
        self.writes.push(part)?;
        Ok(())
    }

    pub(crate) fn write_all(&mut self, parts: &[Part]) -> Result<(), NoMemory>
        ensures { OnOk result (self.new ≡ together self.old (writing_parts parts.now)) }
    {
        for part in parts {
            self.write(*part)?;
        }
        Ok(())
    }

    #[tactic(auto, using(crate::proofs::Together::read_state_is))]
    pub(crate) fn read_state(&mut self, state: u32) -> Result<(), NoMemory>
        ensures { OnOk result (self.new ≡ together self.old (reading_state state)) }
    {
        self.state_reads.push(state)?;
        Ok(())
    }

    #[tactic(auto, using(crate::proofs::Together::write_state_is))]
    pub(crate) fn write_state(&mut self, state: u32) -> Result<(), NoMemory>
        ensures { OnOk result (self.new ≡ together self.old (writing_state state)) }
    {
        self.state_writes.push(state)?;
        Ok(())
    }

    #[tactic(auto, using(crate::proofs::Together::ask_is))]
    pub(crate) fn ask(&mut self, callee: Callee) -> Result<(), NoMemory>
        ensures { OnOk result (self.new ≡ together self.old (asking callee)) }
    {
        self.asked.push(callee)?;
        Ok(())
    }

    #[tactic(auto, using(crate::proofs::Together::call_is))]
    pub(crate) fn call(&mut self, callee: Callee) -> Result<(), NoMemory>
        ensures { OnOk result (self.new ≡ together self.old (calling callee)) }
    {
        self.called.push(callee)?;
        Ok(())
    }
}
