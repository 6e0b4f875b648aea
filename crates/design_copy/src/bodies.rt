//! Copies of update blocks and methods.
ghost use Rattle.std.specs.Prelude.{◌≡◌, IfOk};

use crate::copied::{Copied, copy_numbers, copy_text};
use crate::expressions::copy_optional;
use crate::statements::copy_body;
use pm_design::{Block, Method};
use pm_io::{List, NoMemory};
use std::alloc::Global;

impl Copied for Block {
    fn copied(&self, alloc: Global) -> Result<Block, NoMemory> {
        Ok(Block {
            name: copy_text(alloc, &self.name)?,
            sort: self.sort,
            body: copy_body(alloc, self.body.as_slice())?,
            temps: copy_numbers(alloc, self.temps.as_slice())?,
        })
    }
}

impl Copied for Method {
    fn copied(&self, alloc: Global) -> Result<Method, NoMemory> {
        let mut copied = Method {
            name: copy_text(alloc, &self.name)?,
            arguments: List::new(alloc),
            result: self.result,
            guard: None,
            body: List::new(alloc),
            answer: None,
            temps: List::new(alloc),
        };
        copy_lines(alloc, self, &mut copied)?;
        Ok(copied)
    }
}

// Copies the arguments, the guard, the body and the answer of a method into another one.
fn copy_lines(alloc: Global, method: &Method, copied: &mut Method) -> Result<(), NoMemory>
    ensures { IfOk result (λ _. copied.new ≡ record copied.old {
      arguments = method.now.arguments;
      guard = method.now.guard;
      body = method.now.body;
      answer = method.now.answer;
      temps = method.now.temps;
    }) }
{
    copied.arguments = copy_numbers(alloc, method.arguments.as_slice())?;
    copied.guard = copy_optional(alloc, &method.guard)?;
    copied.body = copy_body(alloc, method.body.as_slice())?;
    copied.answer = copy_optional(alloc, &method.answer)?;
    copied.temps = copy_numbers(alloc, method.temps.as_slice())?;
    Ok(())
}
