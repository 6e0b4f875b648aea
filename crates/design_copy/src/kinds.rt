//! Copies of what a kind of component has.
ghost use Rattle.std.specs.Prelude.{◌≡◌};

use crate::copied::{Copied, copy_text};
use pm_design::{Bind, Caller, Child, Field, Join, Rule, Signal, State, Term, Tie};
use pm_io::NoMemory;
use std::alloc::Global;

impl Copied for Signal {
    fn copied(&self, alloc: Global) -> Result<Signal, NoMemory> {
        Ok(Signal {
            name: copy_text(alloc, &self.name)?,
            role: self.role,
            width: self.width,
            shape: self.shape,
        })
    }
}

impl Copied for Field {
    fn copied(&self, alloc: Global) -> Result<Field, NoMemory> {
        Ok(Field {
            name: copy_text(alloc, &self.name)?,
            lo: self.lo,
            width: self.width,
            shape: self.shape,
        })
    }
}

impl Copied for State {
    fn copied(&self, alloc: Global) -> Result<State, NoMemory> {
        Ok(State {
            name: copy_text(alloc, &self.name)?,
            width: self.width,
            maxlen: self.maxlen,
            start: self.start,
        })
    }
}

impl Copied for Child {
    fn copied(&self, alloc: Global) -> Result<Child, NoMemory> {
        Ok(Child {
            name: copy_text(alloc, &self.name)?,
            kind: self.kind,
            line: self.line,
        })
    }
}

impl Copied for Caller {
    fn copied(&self, alloc: Global) -> Result<Caller, NoMemory> {
        Ok(Caller {
            name: copy_text(alloc, &self.name)?,
            argument: self.argument,
            result: self.result,
        })
    }
}

impl Copied for Join {
    fn copied(&self, _alloc: Global) -> Result<Join, NoMemory> {
        Ok(Join {
            line: self.line,
            a: self.a,
            b: self.b,
            equal_types: self.equal_types,
        })
    }
}

impl Copied for Tie {
    fn copied(&self, _alloc: Global) -> Result<Tie, NoMemory> {
        Ok(Tie {
            line: self.line,
            part: self.part,
            value: self.value,
        })
    }
}

impl Copied for Bind {
    fn copied(&self, _alloc: Global) -> Result<Bind, NoMemory> {
        Ok(Bind {
            line: self.line,
            a: self.a,
            b: self.b,
            equal_types: self.equal_types,
        })
    }
}

impl Copied for Rule {
    fn copied(&self, _alloc: Global) -> Result<Rule, NoMemory> {
        Ok(Rule {
            line: self.line,
            before: copy_term(&self.before),
            after: copy_term(&self.after),
        })
    }
}

fn copy_term(term: &Term) -> Term
    ensures { result ≡ term.now }
{
    match term {
        Term::Block(block) => Term::Block(*block),
        Term::Reads(part) => Term::Reads(*part),
        Term::Writes(part) => Term::Writes(*part),
        Term::Calls(callee) => Term::Calls(*callee),
        Term::Wrong => Term::Wrong,
    }
}
