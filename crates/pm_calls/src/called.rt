//! The methods that bodies may call.
ghost use Rattle.std.specs.Prelude.{◌≡◌, ◌++◌, IfOk, OnOk};
ghost use Rattle.pm_calls.specs.Called.{called, called_in};

use pm_design::{Callee, St};
use pm_io::NoMemory;
use std::alloc::Global;

/// What a body may call, in the order of its statements. Each branch may be taken.
///
/// It fails only when memory runs out.
pub fn called_methods(alloc: Global, body: &[St]) -> Result<Vec<Callee>, NoMemory>
    ensures { IfOk result (λ found. found.items ≡ called_in body.now) }
{
    let mut found = Vec::new(alloc);
    push_body(&mut found, body)?;
    Ok(found)
}

// Adds what a body may call.
#[cycle(called)]
fn push_body(found: &mut Vec<Callee>, body: &[St]) -> Result<(), NoMemory>
    ensures { OnOk result (found.new.items ≡ found.old.items ++ called_in body.now) }
{
    for st in body {
        push_statement(found, st)?;
    }
    Ok(())
}

// Adds what a statement may call.
#[cycle(called)]
#[tactic(auto, using(crate::proofs::Calling::statements))]
fn push_statement(found: &mut Vec<Callee>, st: &St) -> Result<(), NoMemory>
    ensures { OnOk result (found.new.items ≡ found.old.items ++ called st.now) }
{
    match st {
        St::Call(method, _, _) => found.push(*method)?,
        St::If(_, yes, no) => {
            push_body(found, yes.as_slice())?;
            push_body(found, no.as_slice())?;
        }
        St::Set(_, _) => {}
        St::SetPick(_, _, _) => {}
        St::SetTemp(_, _) => {}
        St::SetNumber(_, _) => {}
        St::Push(_, _, _) => {}
        St::Pop(_, _, _) => {}
        St::Clear(_) => {}
    }
    Ok(())
}
