//! What bodies name, found in one walk.
ghost use Rattle.std.specs.Prelude.{◌≡◌, IfOk, OnOk, map};
ghost use Rattle.pm_touched.specs.Naming.{all_together, body_names, named_in, statement_names, together};

use crate::named::Named;
use pm_design::{Ex, St};
use pm_io::NoMemory;
use std::alloc::Global;

// Adds what an expression names.
#[cycle(expressions)]
#[tactic(auto, using(crate::proofs::Equations::named_equations, crate::proofs::Together::adding))]
fn add_expression(named: &mut Named, ex: &Ex) -> Result<(), NoMemory>
    ensures { OnOk result (named.new ≡ together named.old (named_in ex.now)) }
{
    match ex {
        Ex::Const(_) | Ex::Temp(_, _, _) => Ok(()),
        Ex::Get(part) => named.read(*part),
        Ex::Pick(index, parts) => {
            add_expression(named, index.get())?;
            named.read_all(parts.as_slice())
        }
        Ex::Number(state) => named.read_state(*state),
        Ex::Count(state) => named.read_state(*state),
        Ex::Item(state, _) => named.read_state(*state),
        Ex::Last(state) => named.read_state(*state),
        Ex::Ready(callee) => named.ask(*callee),
        Ex::Not(a) => add_expression(named, a.get()),
        Ex::Fold(_, a) => add_expression(named, a.get()),
        Ex::Bin(_, a, b) => {
            add_expression(named, a.get())?;
            add_expression(named, b.get())
        }
        Ex::Cat(parts) => add_expressions(named, parts.as_slice()),
        Ex::Zext(a, _) => add_expression(named, a.get()),
        Ex::Sext(a, _) => add_expression(named, a.get()),
        Ex::Trunc(a, _) => add_expression(named, a.get()),
        Ex::Cond(c, a, b) => {
            add_expression(named, c.get())?;
            add_expression(named, a.get())?;
            add_expression(named, b.get())
        }
    }
}

// Adds what expressions name.
#[cycle(expressions)]
fn add_expressions(named: &mut Named, expressions: &[Ex]) -> Result<(), NoMemory>
    ensures { OnOk result (named.new ≡ together named.old (all_together (map named_in expressions.now))) }
{
    for ex in expressions {
        add_expression(named, ex)?;
    }
    Ok(())
}

// Adds what a statement names.
#[cycle(statements)]
#[tactic(auto, using(crate::proofs::Equations::statement_equations, crate::proofs::Together::adding))]
fn add_statement(named: &mut Named, st: &St) -> Result<(), NoMemory>
    ensures { OnOk result (named.new ≡ together named.old (statement_names st.now)) }
{
    match st {
        St::Set(part, e) => {
            add_expression(named, e)?;
            named.write(*part)
        }
        St::SetPick(index, parts, e) => {
            add_expression(named, index)?;
            add_expression(named, e)?;
            named.write_all(parts.as_slice())
        }
        St::SetTemp(_, e) => add_expression(named, e),
        St::SetNumber(state, e) => {
            add_expression(named, e)?;
            named.write_state(*state)
        }
        St::Push(state, _, e) => {
            add_expression(named, e)?;
            named.read_state(*state)?;
            named.write_state(*state)
        }
        St::Pop(state, _, _) => {
            named.read_state(*state)?;
            named.write_state(*state)
        }
        St::Clear(state) => named.write_state(*state),
        St::Call(callee, arguments, _) => {
            add_expressions(named, arguments.as_slice())?;
            named.call(*callee)
        }
        St::If(condition, yes, no) => {
            add_expression(named, condition)?;
            add_body(named, yes.as_slice())?;
            add_body(named, no.as_slice())
        }
    }
}

// Adds what a body names.
#[cycle(statements)]
fn add_body(named: &mut Named, body: &[St]) -> Result<(), NoMemory>
    ensures { OnOk result (named.new ≡ together named.old (body_names body.now)) }
{
    for st in body {
        add_statement(named, st)?;
    }
    Ok(())
}

/// What a body names, in the order of its statements.
#[tactic(auto, using(crate::proofs::Together::adding))]
pub fn names_of(alloc: Global, body: &[St]) -> Result<Named, NoMemory>
    ensures { IfOk result (λ named. named ≡ body_names body.now) }
{
    let mut named = Named::new(alloc);
    add_body(&mut named, body)?;
    Ok(named)
}
