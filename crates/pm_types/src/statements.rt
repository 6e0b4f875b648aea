//! Lines of a body: `if`, `for`, and what stands below them.
ghost use Rattle.std.specs.Prelude.{◌≡◌, [], map, IfOk};
ghost use Rattle.pm_typing.specs.Counted.{Counts, Gives, Moves, Runs};
ghost use Rattle.pm_typing.specs.Expressions.{meaning};
ghost use Rattle.pm_typing.specs.Sites.{scope_of};
ghost use Rattle.pm_types.specs.Statements as spec;

use crate::assignments::{alone, assigned, bind};
use pm_design::{Ex, St};
use pm_io::{Boxed, List, NoMemory};
use pm_syn::{Expr, Node, Stmt};
use pm_type_expr::{Typer, condition, same_type};
use pm_typing::{At, Bound, Frame, Operand, Tally, TypeFault};
use pm_values::Range;
use std::alloc::Global;
use std::mem;

fn met(a: Bound, b: Bound) -> Bound
    ensures { result ≡ spec.met a b }
{
    match (a, b) {
        (Bound::Int(a), Bound::Int(b)) if a == b => Bound::Int(a),
        (Bound::Temp(a, ty), Bound::Temp(b, other)) if a == b && same_type(ty, other) => {
            Bound::Temp(a, ty)
        }
        _ => Bound::Unassigned,
    }
}

// The names that two paths leave alike keep their meanings.
#[tactic(auto, unfolding(crate::specs::Statements::meet_from))]
fn meet(alloc: Global, a: &[Bound], b: &[Bound]) -> Result<List<Bound>, NoMemory>
    ensures { IfOk result (λ bounds. bounds ≡ spec.meet_from [] a.now b.now) }
{
    let mut bounds = List::new(alloc);
    for place in 0..a.len() {
        if b.len() <= place {
            return Ok(bounds);
        }
        bounds.push(met(a[place], b[place]))?;
    }
    Ok(bounds)
}

// Puts statements in the place of those so far, and gives those.
fn exchanged(frame: &mut Frame, out: List<St>) -> List<St>
    ensures new { frame.new ≡ record frame.old { out = out } }
    ensures old { result ≡ frame.old.out }
{
    mem::replace(&mut frame.out, out)
}

// Puts meanings of names in the place of those so far, and gives those.
fn rebound(frame: &mut Frame, bounds: List<Bound>) -> List<Bound>
    ensures new { frame.new ≡ record frame.old { bounds = bounds } }
    ensures old { result ≡ frame.old.bounds }
{
    mem::replace(&mut frame.bounds, bounds)
}

fn rejoin(
    alloc: Global,
    frame: &mut Frame,
    c: Boxed<Ex>,
    xs: List<St>,
    after: &[Bound],
    ys: List<St>,
) -> Result<(), NoMemory>
    ensures { IfOk result (λ _. frame.new ≡ spec.rejoined_frame c xs after.now ys frame.old) }
{
    let bounds = meet(alloc, after, frame.bounds.as_slice())?;
    frame.out.push(St::If(c.into_inner(), xs, ys))?;
    frame.bounds = bounds;
    Ok(())
}

fn integer_of(line: u32, operand: &Operand) -> Result<i64, TypeFault>
    ensures { result ≡ spec.integer_of line operand.now }
{
    match operand {
        Operand::Int(number) => Ok(*number),
        Operand::Bits(_, _) => Err(TypeFault::NotAllowedHere(line)),
    }
}

#[tactic(auto, unfolding(crate::specs::Statements::values_from))]
fn values(
    typer: &Typer<'_>,
    frame: &Frame,
    tally: &mut Tally,
    line: u32,
    es: &[Expr],
) -> Result<List<Operand>, TypeFault>
    ensures { Counts (spec.values_from [] (map meaning es.now) (scope_of typer.now.scope) line frame.now tally.old) result tally.new }
{
    let at = At {
        bounds: frame.bounds.as_slice(),
        line,
        inside_index: false,
    };
    let mut values = List::new(typer.alloc);
    for e in es {
        values.push(typer.operand(&at, tally, e)?)?;
    }
    Ok(values)
}

#[tactic(auto, unfolding(crate::specs::Statements::integers_from))]
fn integers(alloc: Global, line: u32, operands: &[Operand]) -> Result<List<i64>, TypeFault>
    ensures { Gives (spec.integers_from line [] operands.now) result }
{
    let mut numbers = List::new(alloc);
    for operand in operands {
        numbers.push(integer_of(line, operand)?)?;
    }
    Ok(numbers)
}

fn range_by(line: u32, start: i64, stop: i64, step: i64) -> Result<Range, TypeFault>
    ensures { result ≡ spec.range_by line start stop step }
{
    match Range::new(start, stop, step) {
        Some(range) => Ok(range),
        None => Err(TypeFault::ConstRange(line)),
    }
}

#[tactic(auto, unfolding(crate::specs::Statements::range_of))]
fn range_of(line: u32, numbers: &[i64]) -> Result<Range, TypeFault>
    ensures { result ≡ spec.range_of line numbers.now }
{
    match numbers {
        [stop] => range_by(line, 0, *stop, 1),
        [start, stop] => range_by(line, *start, *stop, 1),
        [start, stop, step] => range_by(line, *start, *stop, *step),
        _ => Err(TypeFault::NotAllowedHere(line)),
    }
}

#[tactic(auto, unfolding(crate::specs::Statements::range_in))]
fn range_in(alloc: Global, line: u32, operands: &[Operand]) -> Result<Range, TypeFault>
    ensures { Gives (spec.range_in line operands.now) result }
{
    let numbers = integers(alloc, line, operands)?;
    range_of(line, numbers.as_slice())
}

#[tactic(auto, unfolding(crate::specs::Statements::range))]
fn range(
    typer: &Typer<'_>,
    frame: &Frame,
    tally: &mut Tally,
    line: u32,
    es: &[Expr],
) -> Result<Range, TypeFault>
    ensures { Counts (spec.range (scope_of typer.now.scope) line (map meaning es.now) frame.now tally.old) result tally.new }
{
    let operands = values(typer, frame, tally, line, es)?;
    range_in(typer.alloc, line, operands.as_slice())
}

// A statement that is no header.
#[tactic(auto, unfolding(crate::specs::Statements::simple))]
fn simple(
    typer: &Typer<'_>,
    frame: &mut Frame,
    tally: &mut Tally,
    line: u32,
    statement: &Stmt,
) -> Result<(), TypeFault>
    ensures { Moves (spec.simple (scope_of typer.now.scope) line statement.now frame.old tally.old) result frame.new tally.new }
{
    match statement {
        Stmt::Pass | Stmt::Doc => Ok(()),
        Stmt::Assign(op, target, e) => assigned(typer, frame, tally, line, *op, target, e),
        Stmt::Do(e) => alone(typer, frame, tally, line, e),
        Stmt::Import
        | Stmt::Class(_, _)
        | Stmt::Def(_, _, _, _, _)
        | Stmt::Mark(_)
        | Stmt::NonBlocking(_)
        | Stmt::Return(_)
        | Stmt::Assert(_)
        | Stmt::If(_, _)
        | Stmt::Elif(_, _)
        | Stmt::Else(_)
        | Stmt::For(_, _, _)
        | Stmt::JoinLambda(_, _)
        | Stmt::Note(_, _, _) => Err(TypeFault::NotAllowedHere(line)),
    }
}

// The lines below the first of these.
#[cycle(lines)]
#[tactic(auto, using(crate::proofs::Lines::block_first))]
fn below(
    typer: &Typer<'_>,
    frame: &mut Frame,
    tally: &mut Tally,
    nodes: &[Node],
) -> Result<(), TypeFault>
    ensures { Moves (spec.first_body (scope_of typer.now.scope) nodes.now frame.old tally.old) result frame.new tally.new }
{
    match nodes {
        [] => Ok(()),
        [node, ..] => lines(typer, frame, tally, node.body.as_slice()),
    }
}

// The statement behind the colon of the first of these lines, or the lines below it.
#[cycle(lines)]
#[tactic(auto, unfolding(crate::specs::Statements::within))]
fn this(
    typer: &Typer<'_>,
    frame: &mut Frame,
    tally: &mut Tally,
    nodes: &[Node],
    line: u32,
    after: &Option<Boxed<Stmt>>,
) -> Result<(), TypeFault>
    ensures { Moves (spec.within (scope_of typer.now.scope) line after.now (spec.first_body (scope_of typer.now.scope) nodes.now) frame.old tally.old) result frame.new tally.new }
{
    match after {
        Some(statement) => simple(typer, frame, tally, line, statement.get()),
        None => below(typer, frame, tally, nodes),
    }
}

// What the lines behind the first of these do as its other branch.
#[cycle(lines)]
fn other(
    typer: &Typer<'_>,
    frame: &mut Frame,
    tally: &mut Tally,
    nodes: &[Node],
) -> Result<(), TypeFault>
    ensures { Moves (spec.others (scope_of typer.now.scope) nodes.now frame.old tally.old) result frame.new tally.new }
{
    match nodes {
        [] => Ok(()),
        [_, rest @ ..] => instead(typer, frame, tally, rest),
    }
}

#[cycle(lines)]
#[tactic(auto, unfolding(crate::specs::Statements::apart))]
fn this_apart(
    typer: &Typer<'_>,
    frame: &mut Frame,
    tally: &mut Tally,
    nodes: &[Node],
    line: u32,
    after: &Option<Boxed<Stmt>>,
) -> Result<List<St>, TypeFault>
    ensures { Runs (spec.apart (spec.within (scope_of typer.now.scope) line after.now (spec.first_body (scope_of typer.now.scope) nodes.now)) frame.old tally.old) result frame.new tally.new }
{
    let out = exchanged(frame, List::new(typer.alloc));
    this(typer, frame, tally, nodes, line, after)?;
    Ok(exchanged(frame, out))
}

#[cycle(lines)]
#[tactic(auto, unfolding(crate::specs::Statements::apart))]
fn other_apart(
    typer: &Typer<'_>,
    frame: &mut Frame,
    tally: &mut Tally,
    nodes: &[Node],
) -> Result<List<St>, TypeFault>
    ensures { Runs (spec.apart (spec.others (scope_of typer.now.scope) nodes.now) frame.old tally.old) result frame.new tally.new }
{
    let out = exchanged(frame, List::new(typer.alloc));
    other(typer, frame, tally, nodes)?;
    Ok(exchanged(frame, out))
}

// The other branch, and then the names that both leave alike.
#[cycle(lines)]
#[tactic(auto, unfolding(crate::specs::Statements::rejoined))]
fn rejoined(
    typer: &Typer<'_>,
    frame: &mut Frame,
    tally: &mut Tally,
    nodes: &[Node],
    c: Boxed<Ex>,
    xs: List<St>,
    after: List<Bound>,
) -> Result<(), TypeFault>
    ensures { Moves (spec.rejoined c xs after (spec.others (scope_of typer.now.scope) nodes.now) frame.old tally.old) result frame.new tally.new }
{
    let ys = other_apart(typer, frame, tally, nodes)?;
    rejoin(typer.alloc, frame, c, xs, after.as_slice(), ys)?;
    Ok(())
}

// Both branches, each from the same names.
#[cycle(lines)]
#[tactic(auto, unfolding(crate::specs::Statements::forked))]
fn forked(
    typer: &Typer<'_>,
    frame: &mut Frame,
    tally: &mut Tally,
    nodes: &[Node],
    line: u32,
    after: &Option<Boxed<Stmt>>,
    c: Boxed<Ex>,
) -> Result<(), TypeFault>
    ensures { Moves (spec.forked c (spec.within (scope_of typer.now.scope) line after.now (spec.first_body (scope_of typer.now.scope) nodes.now)) (spec.others (scope_of typer.now.scope) nodes.now) frame.old tally.old) result frame.new tally.new }
{
    let start = List::from_slice(typer.alloc, frame.bounds.as_slice())?;
    let xs = this_apart(typer, frame, tally, nodes, line, after)?;
    let left = rebound(frame, start);
    rejoined(typer, frame, tally, nodes, c, xs, left)
}

#[cycle(lines)]
#[tactic(auto, unfolding(crate::specs::Statements::branched))]
fn branched(
    typer: &Typer<'_>,
    frame: &mut Frame,
    tally: &mut Tally,
    nodes: &[Node],
    line: u32,
    after: &Option<Boxed<Stmt>>,
    value: Operand,
) -> Result<(), TypeFault>
    ensures { Moves (spec.branched line value (spec.within (scope_of typer.now.scope) line after.now (spec.first_body (scope_of typer.now.scope) nodes.now)) (spec.others (scope_of typer.now.scope) nodes.now) frame.old tally.old) result frame.new tally.new }
{
    match value {
        Operand::Int(number) => {
            if number == 0 {
                other(typer, frame, tally, nodes)
            } else {
                this(typer, frame, tally, nodes, line, after)
            }
        }
        Operand::Bits(e, ty) => {
            let c = condition(typer.alloc, tally, line, e, ty)?;
            tally.node()?;
            forked(typer, frame, tally, nodes, line, after, c)
        }
    }
}

// `if` and `elif`.
#[cycle(lines)]
#[tactic(auto, unfolding(crate::specs::Statements::branch))]
fn branch(
    typer: &Typer<'_>,
    frame: &mut Frame,
    tally: &mut Tally,
    nodes: &[Node],
    line: u32,
    after: &Option<Boxed<Stmt>>,
    c: &Expr,
) -> Result<(), TypeFault>
    ensures { Moves (spec.branch (scope_of typer.now.scope) line (meaning c.now) (spec.within (scope_of typer.now.scope) line after.now (spec.first_body (scope_of typer.now.scope) nodes.now)) (spec.others (scope_of typer.now.scope) nodes.now) frame.old tally.old) result frame.new tally.new }
{
    let at = At {
        bounds: frame.bounds.as_slice(),
        line,
        inside_index: false,
    };
    let value = typer.operand(&at, tally, c)?;
    branched(typer, frame, tally, nodes, line, after, value)
}

#[cycle(lines)]
#[tactic(auto, unfolding(crate::specs::Statements::turn))]
fn turn(
    typer: &Typer<'_>,
    frame: &mut Frame,
    tally: &mut Tally,
    nodes: &[Node],
    line: u32,
    after: &Option<Boxed<Stmt>>,
    place: u32,
    number: i64,
) -> Result<(), TypeFault>
    ensures { Moves (spec.turn place (spec.within (scope_of typer.now.scope) line after.now (spec.first_body (scope_of typer.now.scope) nodes.now)) number frame.old tally.old) result frame.new tally.new }
{
    tally.node()?;
    bind(frame, place, Bound::Int(number));
    this(typer, frame, tally, nodes, line, after)
}

#[cycle(lines)]
#[tactic(auto, unfolding(crate::specs::Statements::turns))]
fn turns(
    typer: &Typer<'_>,
    frame: &mut Frame,
    tally: &mut Tally,
    nodes: &[Node],
    line: u32,
    after: &Option<Boxed<Stmt>>,
    place: u32,
    range: Range,
) -> Result<(), TypeFault>
    ensures { Moves (spec.turns place (spec.within (scope_of typer.now.scope) line after.now (spec.first_body (scope_of typer.now.scope) nodes.now)) range frame.old tally.old) result frame.new tally.new }
{
    let mut range = range;
    while let Some(number) = range.next() {
        turn(typer, frame, tally, nodes, line, after, place, number)?;
    }
    Ok(())
}

#[cycle(lines)]
#[tactic(auto, unfolding(crate::specs::Statements::repeat_at))]
fn repeat_at(
    typer: &Typer<'_>,
    frame: &mut Frame,
    tally: &mut Tally,
    nodes: &[Node],
    line: u32,
    after: &Option<Boxed<Stmt>>,
    place: u32,
    es: &[Expr],
) -> Result<(), TypeFault>
    ensures { Moves (spec.repeat_at (scope_of typer.now.scope) line place (map meaning es.now) (spec.within (scope_of typer.now.scope) line after.now (spec.first_body (scope_of typer.now.scope) nodes.now)) frame.old tally.old) result frame.new tally.new }
{
    let range = range(typer, frame, tally, line, es)?;
    turns(typer, frame, tally, nodes, line, after, place, range)
}

// `for name in range( .. )`.
#[cycle(lines)]
#[tactic(auto, unfolding(crate::specs::Statements::repeat))]
fn repeat(
    typer: &Typer<'_>,
    frame: &mut Frame,
    tally: &mut Tally,
    nodes: &[Node],
    line: u32,
    after: &Option<Boxed<Stmt>>,
    name: &[u8],
    es: &[Expr],
) -> Result<(), TypeFault>
    ensures { Moves (spec.repeat (scope_of typer.now.scope) line name.now (map meaning es.now) (spec.within (scope_of typer.now.scope) line after.now (spec.first_body (scope_of typer.now.scope) nodes.now)) frame.old tally.old) result frame.new tally.new }
{
    match typer.scope.own.get(name) {
        Some(place) => repeat_at(typer, frame, tally, nodes, line, after, *place, es),
        None => Err(TypeFault::MaybeUnbound(line)),
    }
}

// What the first of these lines does.
#[cycle(lines)]
#[tactic(auto, unfolding(crate::specs::Statements::does, crate::specs::Statements::simple))]
fn first_line(
    typer: &Typer<'_>,
    frame: &mut Frame,
    tally: &mut Tally,
    nodes: &[Node],
) -> Result<(), TypeFault>
    ensures { Moves (spec.first_line (scope_of typer.now.scope) nodes.now frame.old tally.old) result frame.new tally.new }
{
    match nodes {
        [] => Ok(()),
        [node, ..] => match &node.stmt {
            Stmt::If(c, after) => branch(typer, frame, tally, nodes, node.line, after, c),
            Stmt::Elif(_, _) | Stmt::Else(_) => Ok(()),
            Stmt::For(name, es, after) => {
                let es = es.as_slice();
                repeat(
                    typer,
                    frame,
                    tally,
                    nodes,
                    node.line,
                    after,
                    name.as_slice(),
                    es,
                )
            }
            Stmt::Pass
            | Stmt::Doc
            | Stmt::Assign(_, _, _)
            | Stmt::Do(_)
            | Stmt::Import
            | Stmt::Class(_, _)
            | Stmt::Def(_, _, _, _, _)
            | Stmt::Mark(_)
            | Stmt::NonBlocking(_)
            | Stmt::Return(_)
            | Stmt::Assert(_)
            | Stmt::JoinLambda(_, _)
            | Stmt::Note(_, _, _) => simple(typer, frame, tally, node.line, &node.stmt),
        },
    }
}

// What these lines do as the other branch of the line before them.
#[cycle(lines)]
#[tactic(auto, unfolding(crate::specs::Statements::instead))]
fn instead(
    typer: &Typer<'_>,
    frame: &mut Frame,
    tally: &mut Tally,
    nodes: &[Node],
) -> Result<(), TypeFault>
    ensures { Moves (spec.first_instead (scope_of typer.now.scope) nodes.now frame.old tally.old) result frame.new tally.new }
{
    match nodes {
        [] => Ok(()),
        [node, ..] => match &node.stmt {
            Stmt::Elif(c, after) => branch(typer, frame, tally, nodes, node.line, after, c),
            Stmt::Else(after) => this(typer, frame, tally, nodes, node.line, after),
            Stmt::If(_, _)
            | Stmt::For(_, _, _)
            | Stmt::Pass
            | Stmt::Doc
            | Stmt::Assign(_, _, _)
            | Stmt::Do(_)
            | Stmt::Import
            | Stmt::Class(_, _)
            | Stmt::Def(_, _, _, _, _)
            | Stmt::Mark(_)
            | Stmt::NonBlocking(_)
            | Stmt::Return(_)
            | Stmt::Assert(_)
            | Stmt::JoinLambda(_, _)
            | Stmt::Note(_, _, _) => Ok(()),
        },
    }
}

/// Lines, one behind the other.
#[cycle(lines)]
#[tactic(auto, using(crate::proofs::Lines::block_first, crate::proofs::Lines::block_none))]
pub fn lines(
    typer: &Typer<'_>,
    frame: &mut Frame,
    tally: &mut Tally,
    nodes: &[Node],
) -> Result<(), TypeFault>
    ensures { Moves (spec.lines (scope_of typer.now.scope) nodes.now frame.old tally.old) result frame.new tally.new }
{
    for at in 0..nodes.len() {
        first_line(typer, frame, tally, &nodes[at..])?;
    }
    Ok(())
}
