//! Assignments, and calls alone.
ghost use Rattle.std.specs.Prelude.{◌≡◌, IfOk, length};
ghost use Rattle.pm_typing.specs.Counted.{Counts, Gives, Moves, Runs};
ghost use Rattle.pm_typing.specs.Expressions.{meaning};
ghost use Rattle.pm_typing.specs.Sites.{scope_of};
ghost use Rattle.pm_typing.specs.Things.{right_of, thing_of};
ghost use Rattle.pm_types.specs.Assignments as spec;
ghost use Rattle.pm_types.specs.Declaring.{Declares};

use crate::effects::{
    Acted, act_of, add_temp, answer_type, kept, may_change, next_temp, put, statement_of,
};
use crate::targets::{Target, set_statement, suits, target_of, target_type};
use pm_design::{Ex, St};
use pm_io::{Boxed, NoMemory};
use pm_syn::{AssignOp, Expr};
use pm_type_expr::{Typer, fitted, most_items, same_type, state_type, value_of};
use pm_typing::{At, Bound, Frame, Operand, Right, Scope, Stored, Tally, Thing, TypeFault};
use pm_values::ValueType;
use std::alloc::Global;

#[tactic(auto, unfolding(crate::specs::Assignments::act_value))]
fn act_value(
    alloc: Global,
    frame: &mut Frame,
    tally: &mut Tally,
    line: u32,
    acted: Acted,
) -> Result<Operand, TypeFault>
    ensures { Runs (spec.act_value line acted frame.old tally.old) result frame.new tally.new }
{
    let ty = answer_type(line, acted.answer)?;
    kept(alloc, frame, tally, acted.act, ty)
}

#[tactic(auto, unfolding(crate::specs::Assignments::value_in))]
fn value_in(
    typer: &Typer<'_>,
    frame: &mut Frame,
    tally: &mut Tally,
    line: u32,
    right: Right<'_>,
) -> Result<Operand, TypeFault>
    ensures { Runs (spec.value_in (scope_of typer.now.scope) line (right_of right.entry) frame.old tally.old) result frame.new tally.new }
{
    match right {
        Right::Plain(thing) => value_of(typer.alloc, &typer.scope, tally, line, thing),
        Right::Effect(effect) => {
            let acted = act_of(typer.alloc, &typer.scope, tally, line, effect)?;
            act_value(typer.alloc, frame, tally, line, acted)
        }
    }
}

/// The value of an expression that is a whole right side. What a call answers is kept in a new temporary.
#[tactic(auto, unfolding(crate::specs::Assignments::right_value))]
pub fn right_value(
    typer: &Typer<'_>,
    frame: &mut Frame,
    tally: &mut Tally,
    line: u32,
    e: &Expr,
) -> Result<Operand, TypeFault>
    ensures { Runs (spec.right_value (scope_of typer.now.scope) line (meaning e.now) frame.old tally.old) result frame.new tally.new }
{
    let at = At {
        bounds: frame.bounds.as_slice(),
        line,
        inside_index: false,
    };
    let right = typer.right(&at, tally, e)?;
    value_in(typer, frame, tally, line, right)
}

#[tactic(auto, unfolding(crate::specs::Assignments::set_fitted))]
fn set_fitted(
    typer: &Typer<'_>,
    frame: &mut Frame,
    tally: &mut Tally,
    line: u32,
    op: AssignOp,
    target: Target,
    e: Boxed<Ex>,
) -> Result<(), TypeFault>
    ensures { Moves (spec.set_fitted line op (scope_of typer.now.scope) target e frame.old tally.old) result frame.new tally.new }
{
    if !suits(op, typer.scope.sort, &target) {
        return Err(TypeFault::NotAllowedHere(line));
    }
    let statement = set_statement(typer.alloc, target, e)?;
    put(frame, tally, statement)
}

#[tactic(auto, unfolding(crate::specs::Assignments::set_to))]
fn set_to(
    typer: &Typer<'_>,
    frame: &mut Frame,
    tally: &mut Tally,
    line: u32,
    op: AssignOp,
    target: Target,
    operand: Operand,
) -> Result<(), TypeFault>
    ensures { Moves (spec.set_to line op (scope_of typer.now.scope) target operand frame.old tally.old) result frame.new tally.new }
{
    let e = fitted(typer.alloc, tally, line, target_type(&target), operand)?;
    set_fitted(typer, frame, tally, line, op, target, e)
}

#[tactic(auto, unfolding(crate::specs::Assignments::set_thing))]
fn set_thing(
    typer: &Typer<'_>,
    frame: &mut Frame,
    tally: &mut Tally,
    line: u32,
    op: AssignOp,
    thing: Thing<'_>,
    operand: Operand,
) -> Result<(), TypeFault>
    ensures { Moves (spec.set_thing line op (scope_of typer.now.scope) (thing_of thing.entry) operand frame.old tally.old) result frame.new tally.new }
{
    let target = target_of(typer.scope.sort, line, thing)?;
    set_to(typer, frame, tally, line, op, target, operand)
}

#[tactic(auto, unfolding(crate::specs::Assignments::set_target))]
fn set_target(
    typer: &Typer<'_>,
    frame: &mut Frame,
    tally: &mut Tally,
    line: u32,
    op: AssignOp,
    target: &Expr,
    operand: Operand,
) -> Result<(), TypeFault>
    ensures { Moves (spec.set_target line op (scope_of typer.now.scope) (meaning target.now) operand frame.old tally.old) result frame.new tally.new }
{
    let at = At {
        bounds: frame.bounds.as_slice(),
        line,
        inside_index: false,
    };
    let thing = typer.thing(&at, tally, target)?;
    set_thing(typer, frame, tally, line, op, thing, operand)
}

// `x @= e` and `x <<= e`.
#[tactic(auto, unfolding(crate::specs::Assignments::set))]
fn set(
    typer: &Typer<'_>,
    frame: &mut Frame,
    tally: &mut Tally,
    line: u32,
    op: AssignOp,
    target: &Expr,
    e: &Expr,
) -> Result<(), TypeFault>
    ensures { Moves (spec.set line op (scope_of typer.now.scope) (meaning target.now) (meaning e.now) frame.old tally.old) result frame.new tally.new }
{
    let operand = right_value(typer, frame, tally, line, e)?;
    set_target(typer, frame, tally, line, op, target, operand)
}

#[tactic(auto, unfolding(crate::specs::Assignments::number_to))]
fn number_to(
    typer: &Typer<'_>,
    frame: &mut Frame,
    tally: &mut Tally,
    line: u32,
    state: u32,
    operand: Operand,
) -> Result<(), TypeFault>
    ensures { Moves (spec.number_to line (scope_of typer.now.scope) state operand frame.old tally.old) result frame.new tally.new }
{
    let ty = state_type(&typer.scope, state);
    let e = fitted(typer.alloc, tally, line, ty, operand)?;
    put(frame, tally, St::SetNumber(state, e.into_inner()))
}

// Whether the state is a number that this body may assign.
fn may_set_number(scope: &Scope<'_>, state: u32) -> bool
    ensures { result ≡ spec.may_set_number (scope_of scope.now) state }
{
    most_items(scope, state) == 0 && may_change(scope.sort)
}

#[tactic(auto, unfolding(crate::specs::Assignments::number_set))]
fn number_set(
    typer: &Typer<'_>,
    frame: &mut Frame,
    tally: &mut Tally,
    line: u32,
    thing: Thing<'_>,
    operand: Operand,
) -> Result<(), TypeFault>
    ensures { Moves (spec.number_set line (scope_of typer.now.scope) (thing_of thing.entry) operand frame.old tally.old) result frame.new tally.new }
{
    match thing {
        Thing::State(state) => {
            if may_set_number(&typer.scope, state) {
                number_to(typer, frame, tally, line, state, operand)
            } else {
                Err(TypeFault::NotAllowedHere(line))
            }
        }
        _ => Err(TypeFault::NotAllowedHere(line)),
    }
}

#[tactic(auto, unfolding(crate::specs::Assignments::number_target))]
fn number_target(
    typer: &Typer<'_>,
    frame: &mut Frame,
    tally: &mut Tally,
    line: u32,
    target: &Expr,
    operand: Operand,
) -> Result<(), TypeFault>
    ensures { Moves (spec.number_target line (scope_of typer.now.scope) (meaning target.now) operand frame.old tally.old) result frame.new tally.new }
{
    let at = At {
        bounds: frame.bounds.as_slice(),
        line,
        inside_index: false,
    };
    let thing = typer.thing(&at, tally, target)?;
    number_set(typer, frame, tally, line, thing, operand)
}

// `s.name = e`.
#[tactic(auto, unfolding(crate::specs::Assignments::set_number))]
fn set_number(
    typer: &Typer<'_>,
    frame: &mut Frame,
    tally: &mut Tally,
    line: u32,
    target: &Expr,
    e: &Expr,
) -> Result<(), TypeFault>
    ensures { Moves (spec.set_number line (scope_of typer.now.scope) (meaning target.now) (meaning e.now) frame.old tally.old) result frame.new tally.new }
{
    let operand = right_value(typer, frame, tally, line, e)?;
    number_target(typer, frame, tally, line, target, operand)
}

#[tactic(auto, unfolding(crate::specs::Assignments::stored_at))]
fn stored_at(frame: &Frame, place: u32) -> Option<Stored>
    ensures { result ≡ spec.stored_at place frame.now }
{
    match frame.stored.get(place as usize) {
        Some(stored) => *stored,
        None => None,
    }
}

fn set_stored(frame: &mut Frame, place: u32, stored: Stored)
    ensures { frame.new ≡ spec.stored_put place stored frame.old }
{
    if (place as usize) < frame.stored.len() {
        frame.stored.set(place as usize, Some(stored));
    }
}

/// Makes a new temporary for the name at a place, and gives its number.
#[tactic(auto, unfolding(crate::specs::Assignments::with_stored))]
pub fn store_new(frame: &mut Frame, place: u32, ty: ValueType) -> Result<u32, NoMemory>
    ensures frame { IfOk result (λ _. frame.new ≡ spec.with_stored place ty frame.old) }
    ensures number { IfOk result (λ number. number ≡ length frame.old.temps) }
{
    let number = next_temp(frame)?;
    add_temp(frame, ty.width)?;
    set_stored(frame, place, Stored { number, ty });
    Ok(number)
}

/// Makes the name at a place stand for something.
#[tactic(auto, unfolding(crate::specs::Assignments::with_bound))]
pub fn bind(frame: &mut Frame, place: u32, bound: Bound)
    ensures { frame.new ≡ spec.with_bound place bound frame.old }
{
    if (place as usize) < frame.bounds.len() {
        frame.bounds.set(place as usize, bound);
    }
}

/// The temporary of a name of a type, which its first assignment makes.
#[tactic(auto, unfolding(crate::specs::Assignments::declared_as))]
pub fn declared_as(
    frame: &mut Frame,
    line: u32,
    place: u32,
    ty: ValueType,
) -> Result<u32, TypeFault>
    ensures { Declares (spec.declared_as line place ty frame.old) result frame.new }
{
    match stored_at(frame, place) {
        Some(stored) => {
            if same_type(stored.ty, ty) {
                Ok(stored.number)
            } else {
                Err(TypeFault::WidthMismatch(line))
            }
        }
        None => Ok(store_new(frame, place, ty)?),
    }
}

fn type_by_itself(line: u32, operand: &Operand) -> Result<ValueType, TypeFault>
    ensures { result ≡ spec.type_by_itself line operand.now }
{
    match operand {
        Operand::Int(_) => Err(TypeFault::WidthMismatch(line)),
        Operand::Bits(_, ty) => Ok(*ty),
    }
}

#[tactic(auto, unfolding(crate::specs::Assignments::name_type))]
fn name_type(
    frame: &Frame,
    line: u32,
    place: u32,
    operand: &Operand,
) -> Result<ValueType, TypeFault>
    ensures { result ≡ spec.name_type line place frame.now operand.now }
{
    match stored_at(frame, place) {
        Some(stored) => Ok(stored.ty),
        None => type_by_itself(line, operand),
    }
}

#[tactic(auto, unfolding(crate::specs::Assignments::temp_put))]
fn temp_put(
    frame: &mut Frame,
    tally: &mut Tally,
    place: u32,
    ty: ValueType,
    temp: u32,
    e: Boxed<Ex>,
) -> Result<(), TypeFault>
    ensures { Moves (spec.temp_put place ty temp e frame.old tally.old) result frame.new tally.new }
{
    bind(frame, place, Bound::Temp(temp, ty));
    put(frame, tally, St::SetTemp(temp, e.into_inner()))
}

#[tactic(auto, unfolding(crate::specs::Assignments::temp_fitted))]
fn temp_fitted(
    frame: &mut Frame,
    tally: &mut Tally,
    line: u32,
    place: u32,
    ty: ValueType,
    e: Boxed<Ex>,
) -> Result<(), TypeFault>
    ensures { Moves (spec.temp_fitted line place ty e frame.old tally.old) result frame.new tally.new }
{
    let temp = declared_as(frame, line, place, ty)?;
    temp_put(frame, tally, place, ty, temp, e)
}

#[tactic(auto, unfolding(crate::specs::Assignments::temp_typed))]
fn temp_typed(
    alloc: Global,
    frame: &mut Frame,
    tally: &mut Tally,
    line: u32,
    place: u32,
    ty: ValueType,
    operand: Operand,
) -> Result<(), TypeFault>
    ensures { Moves (spec.temp_typed line place ty operand frame.old tally.old) result frame.new tally.new }
{
    let e = fitted(alloc, tally, line, ty, operand)?;
    temp_fitted(frame, tally, line, place, ty, e)
}

#[tactic(auto, unfolding(crate::specs::Assignments::temp_to))]
fn temp_to(
    alloc: Global,
    frame: &mut Frame,
    tally: &mut Tally,
    line: u32,
    place: u32,
    operand: Operand,
) -> Result<(), TypeFault>
    ensures { Moves (spec.temp_to line place operand frame.old tally.old) result frame.new tally.new }
{
    let ty = name_type(frame, line, place, &operand)?;
    temp_typed(alloc, frame, tally, line, place, ty, operand)
}

#[tactic(auto, unfolding(crate::specs::Assignments::act_put))]
fn act_put(
    frame: &mut Frame,
    tally: &mut Tally,
    place: u32,
    acted: Acted,
    ty: ValueType,
    temp: u32,
) -> Result<(), TypeFault>
    ensures { Moves (spec.act_put place acted ty temp frame.old tally.old) result frame.new tally.new }
{
    bind(frame, place, Bound::Temp(temp, ty));
    put(frame, tally, statement_of(acted.act, Some(temp)))
}

#[tactic(auto, unfolding(crate::specs::Assignments::act_typed))]
fn act_typed(
    frame: &mut Frame,
    tally: &mut Tally,
    line: u32,
    place: u32,
    acted: Acted,
    ty: ValueType,
) -> Result<(), TypeFault>
    ensures { Moves (spec.act_typed line place acted ty frame.old tally.old) result frame.new tally.new }
{
    let temp = declared_as(frame, line, place, ty)?;
    act_put(frame, tally, place, acted, ty, temp)
}

#[tactic(auto, unfolding(crate::specs::Assignments::act_to))]
fn act_to(
    frame: &mut Frame,
    tally: &mut Tally,
    line: u32,
    place: u32,
    acted: Acted,
) -> Result<(), TypeFault>
    ensures { Moves (spec.act_to line place acted frame.old tally.old) result frame.new tally.new }
{
    let ty = answer_type(line, acted.answer)?;
    act_typed(frame, tally, line, place, acted, ty)
}

#[tactic(auto, unfolding(crate::specs::Assignments::temp_right))]
fn temp_right(
    typer: &Typer<'_>,
    frame: &mut Frame,
    tally: &mut Tally,
    line: u32,
    place: u32,
    right: Right<'_>,
) -> Result<(), TypeFault>
    ensures { Moves (spec.temp_right (scope_of typer.now.scope) line place (right_of right.entry) frame.old tally.old) result frame.new tally.new }
{
    match right {
        Right::Plain(thing) => {
            let operand = value_of(typer.alloc, &typer.scope, tally, line, thing)?;
            temp_to(typer.alloc, frame, tally, line, place, operand)
        }
        Right::Effect(effect) => {
            let acted = act_of(typer.alloc, &typer.scope, tally, line, effect)?;
            act_to(frame, tally, line, place, acted)
        }
    }
}

#[tactic(auto, unfolding(crate::specs::Assignments::temporary))]
fn temporary(
    typer: &Typer<'_>,
    frame: &mut Frame,
    tally: &mut Tally,
    line: u32,
    place: u32,
    e: &Expr,
) -> Result<(), TypeFault>
    ensures { Moves (spec.temporary (scope_of typer.now.scope) line place (meaning e.now) frame.old tally.old) result frame.new tally.new }
{
    let at = At {
        bounds: frame.bounds.as_slice(),
        line,
        inside_index: false,
    };
    let right = typer.right(&at, tally, e)?;
    temp_right(typer, frame, tally, line, place, right)
}

fn name_set(
    typer: &Typer<'_>,
    frame: &mut Frame,
    tally: &mut Tally,
    line: u32,
    name: &[u8],
    e: &Expr,
) -> Result<(), TypeFault>
    ensures { Moves (spec.name_set (scope_of typer.now.scope) line name.now (meaning e.now) frame.old tally.old) result frame.new tally.new }
{
    match typer.scope.own.get(name) {
        Some(place) => temporary(typer, frame, tally, line, *place, e),
        None => Err(TypeFault::MaybeUnbound(line)),
    }
}

// `name = e` and `s.name = e`.
#[tactic(auto, unfolding(crate::specs::Assignments::plain_set))]
fn plain_set(
    typer: &Typer<'_>,
    frame: &mut Frame,
    tally: &mut Tally,
    line: u32,
    target: &Expr,
    e: &Expr,
) -> Result<(), TypeFault>
    ensures { Moves (spec.plain_set (scope_of typer.now.scope) line target.now e.now frame.old tally.old) result frame.new tally.new }
{
    match target {
        Expr::Name(name) => name_set(typer, frame, tally, line, name.as_slice(), e),
        Expr::Int(_)
        | Expr::Bool(_)
        | Expr::Unary(_, _)
        | Expr::Binary(_, _, _)
        | Expr::Cond(_, _, _)
        | Expr::Attr(_, _)
        | Expr::Call(_, _)
        | Expr::Index(_, _)
        | Expr::Slice(_, _, _)
        | Expr::Items(_)
        | Expr::Each(_, _, _) => set_number(typer, frame, tally, line, target, e),
    }
}

/// An assignment.
#[tactic(auto, unfolding(crate::specs::Assignments::assigned))]
pub fn assigned(
    typer: &Typer<'_>,
    frame: &mut Frame,
    tally: &mut Tally,
    line: u32,
    op: AssignOp,
    target: &Expr,
    e: &Expr,
) -> Result<(), TypeFault>
    ensures { Moves (spec.assigned (scope_of typer.now.scope) line op target.now e.now frame.old tally.old) result frame.new tally.new }
{
    match op {
        AssignOp::Plain => plain_set(typer, frame, tally, line, target, e),
        AssignOp::Now => set(typer, frame, tally, line, AssignOp::Now, target, e),
        AssignOp::Next => set(typer, frame, tally, line, AssignOp::Next, target, e),
        AssignOp::Join => Err(TypeFault::NotAllowedHere(line)),
    }
}

#[tactic(auto, unfolding(crate::specs::Assignments::alone_right))]
fn alone_right(
    typer: &Typer<'_>,
    frame: &mut Frame,
    tally: &mut Tally,
    line: u32,
    right: Right<'_>,
) -> Result<(), TypeFault>
    ensures { Moves (spec.alone_right (scope_of typer.now.scope) line (right_of right.entry) frame.old tally.old) result frame.new tally.new }
{
    match right {
        Right::Effect(effect) => {
            let acted = act_of(typer.alloc, &typer.scope, tally, line, effect)?;
            put(frame, tally, statement_of(acted.act, None))
        }
        Right::Plain(_) => Err(TypeFault::NotAllowedHere(line)),
    }
}

/// A call alone, which changes states.
#[tactic(auto, unfolding(crate::specs::Assignments::alone))]
pub fn alone(
    typer: &Typer<'_>,
    frame: &mut Frame,
    tally: &mut Tally,
    line: u32,
    e: &Expr,
) -> Result<(), TypeFault>
    ensures { Moves (spec.alone (scope_of typer.now.scope) line e.now frame.old tally.old) result frame.new tally.new }
{
    let at = At {
        bounds: frame.bounds.as_slice(),
        line,
        inside_index: false,
    };
    let right = typer.right(&at, tally, e)?;
    alone_right(typer, frame, tally, line, right)
}
