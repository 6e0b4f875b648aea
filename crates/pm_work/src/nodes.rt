//! The nodes of bodies.
ghost use Rattle.std.specs.Prelude.{◌≡◌, ◌+◌, ◌≤◌, ◌^◌, map};
ghost use Rattle.pm_design.specs.Nodes.{body_nodes, nodes, statement_nodes};
ghost use Rattle.pm_design.specs.Widths.{total};
ghost use Rattle.pm_work.specs.Work.{block_nodes, counted, nothing_inside};

use crate::count::add;
use pm_design::{Block, Ex, St};

// Counts the nodes of an expression.
#[cycle(nodes)]
#[tactic(auto, using(pm_design::proofs::Counts::nodes_equations, crate::proofs::Counting::counting))]
fn count_expression(count: u64, ex: &Ex) -> u64
    requires { count ≤ 2 ^ 63 }
    ensures { result ≡ counted (count + nodes nothing_inside.guard ex.now) }
{
    let count = add(count, 1);
    match ex {
        Ex::Const(_) | Ex::Get(_) | Ex::Temp(_, _, _) => count,
        Ex::Number(_) | Ex::Count(_) | Ex::Item(_, _) | Ex::Last(_) | Ex::Ready(_) => count,
        Ex::Pick(index, parts) => add(count_expression(count, index.get()), parts.len() as u64),
        Ex::Not(a) => count_expression(count, a.get()),
        Ex::Fold(_, a) => count_expression(count, a.get()),
        Ex::Bin(_, a, b) => count_expression(count_expression(count, a.get()), b.get()),
        Ex::Cat(parts) => count_expressions(count, parts.as_slice()),
        Ex::Zext(a, _) => count_expression(count, a.get()),
        Ex::Sext(a, _) => count_expression(count, a.get()),
        Ex::Trunc(a, _) => count_expression(count, a.get()),
        Ex::Cond(c, a, b) => {
            let count = count_expression(count, c.get());
            count_expression(count_expression(count, a.get()), b.get())
        }
    }
}

// Counts the nodes of expressions.
#[cycle(nodes)]
#[tactic(auto, using(crate::proofs::Counting::each_counted))]
fn count_expressions(start: u64, expressions: &[Ex]) -> u64
    requires { start ≤ 2 ^ 63 }
    ensures { result ≡ counted (start + total (map (nodes nothing_inside.guard) expressions.now)) }
{
    let mut count = start;
    for ex in expressions {
        count = count_expression(count, ex);
    }
    count
}

// Counts the nodes of a statement.
#[cycle(statements)]
#[tactic(auto, using(pm_design::proofs::Counts::nodes_of_equations, crate::proofs::Counting::counting))]
fn count_statement(count: u64, st: &St) -> u64
    requires { count ≤ 2 ^ 63 }
    ensures { result ≡ counted (count + statement_nodes nothing_inside st.now) }
{
    let count = add(count, 1);
    match st {
        St::Set(_, e) => count_expression(count, e),
        St::SetPick(index, parts, e) => {
            let count = add(count_expression(count, index), parts.len() as u64);
            count_expression(count, e)
        }
        St::SetTemp(_, e) => count_expression(count, e),
        St::SetNumber(_, e) => count_expression(count, e),
        St::Push(_, _, e) => count_expression(count, e),
        St::Pop(_, _, _) | St::Clear(_) => count,
        St::Call(_, arguments, _) => count_expressions(count, arguments.as_slice()),
        St::If(condition, yes, no) => {
            let count = count_expression(count, condition);
            count_body(count_body(count, yes.as_slice()), no.as_slice())
        }
    }
}

// Counts the nodes of a body.
#[cycle(statements)]
#[tactic(auto, using(crate::proofs::Counting::each_counted))]
fn count_body(start: u64, body: &[St]) -> u64
    requires { start ≤ 2 ^ 63 }
    ensures { result ≡ counted (start + body_nodes nothing_inside body.now) }
{
    let mut count = start;
    for st in body {
        count = count_statement(count, st);
    }
    count
}

/// How many nodes blocks have.
#[tactic(auto, using(crate::proofs::Counting::each_counted))]
pub(crate) fn count_blocks(blocks: &[Block]) -> u64
    ensures { result ≡ counted (block_nodes nothing_inside blocks.now) }
{
    let mut count = 0;
    for block in blocks {
        count = count_body(count, block.body.as_slice());
    }
    count
}
