//! The parts that bodies may write.
ghost use Rattle.std.specs.Prelude.{◌≡◌, ◌++◌, IfOk, IsTrue, OnOk};
ghost use Rattle.std.specs.List.{list_all};
ghost use Rattle.pm_design.specs.Typing.{Sight, is_sound};
ghost use Rattle.pm_nets.specs.Written.{written, written_in};

use pm_design::{Part, St};
use pm_io::NoMemory;
use std::alloc::Global;

/// The parts that a body may write, in the order of its statements: with a dynamic index, all elements that it may
/// name.
///
/// A sound body writes only parts that its block may write. A method writes no part.
pub fn written_parts(alloc: Global, body: &[St]) -> Result<Vec<Part>, NoMemory>
    ensures parts { IfOk result (λ parts. parts.items ≡ written_in body.now) }
    ensures sound { IfOk result (λ parts. (s : Sight) → IsTrue (list_all (is_sound s) body.now) →
        IsTrue (list_all s.writes parts.items)) }
{
    let mut found = Vec::new(alloc);
    push_body(&mut found, body)?;
    Ok(found)
}

// Adds parts.
fn push_all(found: &mut Vec<Part>, parts: &[Part]) -> Result<(), NoMemory>
    ensures { OnOk result (found.new.items ≡ found.old.items ++ parts.now) }
{
    found.extend_from_slice(parts)?;
    Ok(())
}

// Adds the parts that a body may write.
#[cycle(written)]
pub(crate) fn push_body(found: &mut Vec<Part>, body: &[St]) -> Result<(), NoMemory>
    ensures parts { OnOk result (found.new.items ≡ found.old.items ++ written_in body.now) }
    ensures sound { OnOk result ((s : Sight) → IsTrue (list_all (is_sound s) body.now) →
        IsTrue (list_all s.writes (written_in body.now))) }
{
    for st in body {
        push_statement(found, st)?;
    }
    Ok(())
}

// Adds the parts that a statement may write.
#[cycle(written)]
#[tactic(auto, using(crate::proofs::Writing::statements))]
fn push_statement(found: &mut Vec<Part>, st: &St) -> Result<(), NoMemory>
    ensures parts { OnOk result (found.new.items ≡ found.old.items ++ written st.now) }
    ensures sound { OnOk result ((s : Sight) → IsTrue (is_sound s st.now) →
        IsTrue (list_all s.writes (written st.now))) }
{
    match st {
        St::Set(part, _) => found.push(*part)?,
        St::SetPick(_, parts, _) => push_all(found, parts.as_slice())?,
        St::If(_, yes, no) => {
            push_body(found, yes.as_slice())?;
            push_body(found, no.as_slice())?;
        }
        St::SetTemp(_, _) => {}
        St::SetNumber(_, _) => {}
        St::Push(_, _, _) => {}
        St::Pop(_, _, _) => {}
        St::Clear(_) => {}
        St::Call(_, _, _) => {}
    }
    Ok(())
}
