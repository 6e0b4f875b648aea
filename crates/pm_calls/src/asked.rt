//! The methods whose `rdy` expressions read.
ghost use Rattle.std.specs.Prelude.{◌≡◌, ◌++◌, IfOk, OnOk};
ghost use Rattle.pm_calls.specs.Asked.{all_asked, asked};

use pm_design::{Callee, Ex};
use pm_io::NoMemory;
use std::alloc::Global;

/// The methods whose `rdy` an expression reads, in the order of its operands.
///
/// It fails only when memory runs out.
pub fn asked_methods(alloc: Global, ex: &Ex) -> Result<Vec<Callee>, NoMemory>
    ensures { IfOk result (λ found. found.items ≡ asked ex.now) }
{
    let mut found = Vec::new(alloc);
    push_asked(&mut found, ex)?;
    Ok(found)
}

// Adds the methods whose `rdy` expressions read.
#[cycle(asked)]
fn push_all(found: &mut Vec<Callee>, expressions: &[Ex]) -> Result<(), NoMemory>
    ensures { OnOk result (found.new.items ≡ found.old.items ++ all_asked expressions.now) }
{
    for ex in expressions {
        push_asked(found, ex)?;
    }
    Ok(())
}

// Adds the methods whose `rdy` two expressions read.
#[cycle(asked)]
fn push_both(found: &mut Vec<Callee>, a: &Ex, b: &Ex) -> Result<(), NoMemory>
    ensures { OnOk result (found.new.items ≡ found.old.items ++ (asked a.now ++ asked b.now)) }
{
    push_asked(found, a)?;
    push_asked(found, b)
}

// Adds the methods whose `rdy` an expression reads.
#[cycle(asked)]
#[tactic(auto, using(crate::proofs::Asking::expressions))]
fn push_asked(found: &mut Vec<Callee>, ex: &Ex) -> Result<(), NoMemory>
    ensures { OnOk result (found.new.items ≡ found.old.items ++ asked ex.now) }
{
    match ex {
        Ex::Ready(method) => found.push(*method)?,
        Ex::Pick(index, _) => push_asked(found, index.get())?,
        Ex::Not(a) => push_asked(found, a.get())?,
        Ex::Fold(_, a) => push_asked(found, a.get())?,
        Ex::Bin(_, a, b) => push_both(found, a.get(), b.get())?,
        Ex::Cat(parts) => push_all(found, parts.as_slice())?,
        Ex::Zext(a, _) => push_asked(found, a.get())?,
        Ex::Sext(a, _) => push_asked(found, a.get())?,
        Ex::Trunc(a, _) => push_asked(found, a.get())?,
        Ex::Cond(c, a, b) => {
            push_asked(found, c.get())?;
            push_both(found, a.get(), b.get())?;
        }
        Ex::Const(_) => {}
        Ex::Get(_) => {}
        Ex::Temp(_, _, _) => {}
        Ex::Number(_) => {}
        Ex::Count(_) => {}
        Ex::Item(_, _) => {}
        Ex::Last(_) => {}
    }
    Ok(())
}
