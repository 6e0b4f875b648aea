//! Calls that change states.
ghost use Rattle.std.specs.Prelude.{◌≡◌, IfOk, length, map};
ghost use Rattle.std.specs.Option.{option_copied};
ghost use Rattle.pm_typing.specs.Counted.{Changes, Counts, Gives, Moves, Runs};
ghost use Rattle.pm_typing.specs.Sites.{scope_of};
ghost use Rattle.pm_types.specs.Effects as spec;

use pm_design::{Callee, Ex, Side, St};
use pm_elab::{Argument, MethodTypes, RawKind, kind_of_child};
use pm_io::{Boxed, List, NoMemory};
use pm_type_expr::{fitted, fitted_values, state_type};
use pm_typing::{BodySort, Change, Effect, Effected, Frame, Operand, Scope, Tally, TypeFault};
use pm_values::{CallerTypes, ValueType};
use std::alloc::Global;

/// The types of what a call hands over and gets back.
#[derive(Drop)]
pub struct CallTypes {
    pub arguments: List<ValueType>,
    pub result: Option<ValueType>,
}

/// A typed call that changes states.
#[derive(Drop)]
pub enum Act {
    Call(Callee, List<Ex>),
    Push(u32, Side, Boxed<Ex>),
    Pop(u32, Side),
    Clear(u32),
}

/// A typed call that changes states, and the type of its answer if it has one.
#[derive(Drop)]
pub struct Acted {
    pub act: Act,
    pub answer: Option<ValueType>,
}

/// Whether a body of this sort may change states.
pub fn may_change(sort: BodySort) -> bool
    ensures { result ≡ spec.may_change sort }
{
    match sort {
        BodySort::Once | BodySort::Method => true,
        BodySort::Update | BodySort::Edge => false,
    }
}

fn types_of(alloc: Global, arguments: &[Argument]) -> Result<List<ValueType>, NoMemory>
    ensures { IfOk result (λ types. types ≡ map (λ a. a.ty) arguments.now) }
{
    let mut types = List::new(alloc);
    for argument in arguments {
        types.push(argument.ty)?;
    }
    Ok(types)
}

fn method_types(alloc: Global, method: Option<&MethodTypes>) -> Result<Option<CallTypes>, NoMemory>
    ensures { IfOk result (λ types. types ≡ spec.method_types (option_copied method.entry)) }
{
    match method {
        Some(method) => Ok(Some(CallTypes {
            arguments: types_of(alloc, method.arguments.as_slice())?,
            result: method.result,
        })),
        None => Ok(None),
    }
}

fn argument_list(alloc: Global, argument: Option<ValueType>) -> Result<List<ValueType>, NoMemory>
    ensures { IfOk result (λ types. types ≡ spec.argument_list argument) }
{
    let mut types = List::new(alloc);
    if let Some(ty) = argument {
        types.push(ty)?;
    }
    Ok(types)
}

fn caller_types(alloc: Global, caller: Option<&CallerTypes>) -> Result<Option<CallTypes>, NoMemory>
    ensures { IfOk result (λ types. types ≡ spec.caller_types (option_copied caller.entry)) }
{
    match caller {
        Some(caller) => Ok(Some(CallTypes {
            arguments: argument_list(alloc, caller.argument)?,
            result: caller.result,
        })),
        None => Ok(None),
    }
}

fn method_of(
    alloc: Global,
    raw: Option<&RawKind>,
    method: u32,
) -> Result<Option<CallTypes>, NoMemory>
    ensures { IfOk result (λ types. types ≡ spec.method_of (option_copied raw.entry) method) }
{
    match raw {
        Some(raw) => method_types(alloc, raw.methods.get(method as usize)),
        None => Ok(None),
    }
}

fn port_of(alloc: Global, raw: Option<&RawKind>, port: u32) -> Result<Option<CallTypes>, NoMemory>
    ensures { IfOk result (λ types. types ≡ spec.port_of (option_copied raw.entry) port) }
{
    match raw {
        Some(raw) => caller_types(alloc, raw.callers.get(port as usize)),
        None => Ok(None),
    }
}

#[tactic(auto, unfolding(crate::specs::Effects::child_kind))]
fn child_kind<'a>(scope: &Scope<'a>, child: u32) -> Option<&'a RawKind>
    ensures { option_copied result ≡ spec.child_kind (scope_of scope.now) child }
{
    let kind = kind_of_child(&scope.kind.children, child);
    scope.design.kinds.get(kind as usize)
}

#[tactic(auto, unfolding(crate::specs::Effects::call_types))]
fn call_types(
    alloc: Global,
    scope: &Scope<'_>,
    callee: Callee,
) -> Result<Option<CallTypes>, NoMemory>
    ensures { IfOk result (λ types. types ≡ spec.call_types (scope_of scope.now) callee) }
{
    match callee {
        Callee::Own(method) => method_of(alloc, Some(scope.raw), method),
        Callee::Child(child, method) => method_of(alloc, child_kind(scope, child), method),
        Callee::Port(port) => port_of(alloc, Some(scope.raw), port),
        Callee::ChildPort(child, port) => port_of(alloc, child_kind(scope, child), port),
    }
}

#[tactic(auto, unfolding(crate::specs::Effects::arguments_for))]
fn arguments_for(
    alloc: Global,
    tally: &mut Tally,
    line: u32,
    types: &[ValueType],
    named: bool,
    operands: List<Operand>,
) -> Result<List<Ex>, TypeFault>
    ensures { Counts (spec.arguments_for line types.now named operands tally.old) result tally.new }
{
    if named || operands.len() != types.len() {
        return Err(TypeFault::NotAllowedHere(line));
    }
    fitted_values(alloc, tally, line, types, operands)
}

#[tactic(auto, unfolding(crate::specs::Effects::allowed))]
fn allowed(line: u32, sort: BodySort, acted: Acted) -> Result<Acted, TypeFault>
    ensures { result ≡ spec.allowed line sort acted }
{
    if may_change(sort) {
        Ok(acted)
    } else {
        Err(TypeFault::NotAllowedHere(line))
    }
}

#[tactic(auto, unfolding(crate::specs::Effects::method_act))]
fn method_act(
    alloc: Global,
    scope: &Scope<'_>,
    tally: &mut Tally,
    line: u32,
    callee: Callee,
    types: &CallTypes,
    named: bool,
    operands: List<Operand>,
) -> Result<Acted, TypeFault>
    ensures { Counts (spec.method_act (scope_of scope.now) line callee types.now named operands tally.old) result tally.new }
{
    let values = arguments_for(
        alloc,
        tally,
        line,
        types.arguments.as_slice(),
        named,
        operands,
    )?;
    let acted = Acted {
        act: Act::Call(callee, values),
        answer: types.result,
    };
    allowed(line, scope.sort, acted)
}

fn method_called(
    alloc: Global,
    scope: &Scope<'_>,
    tally: &mut Tally,
    line: u32,
    callee: Callee,
    named: bool,
    operands: List<Operand>,
) -> Result<Acted, TypeFault>
    ensures { Counts (spec.method_called (scope_of scope.now) line callee named operands tally.old) result tally.new }
{
    match call_types(alloc, scope, callee)? {
        Some(types) => method_act(alloc, scope, tally, line, callee, &types, named, operands),
        None => Err(TypeFault::NotAllowedHere(line)),
    }
}

#[tactic(auto, unfolding(crate::specs::Effects::pushed))]
fn pushed(
    alloc: Global,
    scope: &Scope<'_>,
    tally: &mut Tally,
    line: u32,
    state: u32,
    side: Side,
    operand: Operand,
) -> Result<Acted, TypeFault>
    ensures { Counts (spec.pushed (scope_of scope.now) line state side operand tally.old) result tally.new }
{
    let item = fitted(alloc, tally, line, state_type(scope, state), operand)?;
    let acted = Acted {
        act: Act::Push(state, side, item),
        answer: None,
    };
    allowed(line, scope.sort, acted)
}

#[tactic(auto, unfolding(crate::specs::Effects::push_act))]
fn push_act(
    alloc: Global,
    scope: &Scope<'_>,
    tally: &mut Tally,
    line: u32,
    state: u32,
    side: Side,
    named: bool,
    operands: List<Operand>,
) -> Result<Acted, TypeFault>
    ensures { Counts (spec.push_act (scope_of scope.now) line state side named operands tally.old) result tally.new }
{
    let mut operands = operands;
    if named || operands.len() != 1 {
        return Err(TypeFault::NotAllowedHere(line));
    }
    match operands.pop() {
        Some(operand) => pushed(alloc, scope, tally, line, state, side, operand),
        None => Err(TypeFault::NotAllowedHere(line)),
    }
}

#[tactic(auto, unfolding(crate::specs::Effects::bare_act))]
fn bare_act(
    scope: &Scope<'_>,
    line: u32,
    acted: Acted,
    named: bool,
    count: usize,
) -> Result<Acted, TypeFault>
    ensures { result ≡ spec.bare_act (scope_of scope.now) line acted named count }
{
    if named || 0 < count {
        Err(TypeFault::NotAllowedHere(line))
    } else {
        allowed(line, scope.sort, acted)
    }
}

fn deque_act(
    alloc: Global,
    scope: &Scope<'_>,
    tally: &mut Tally,
    line: u32,
    state: u32,
    change: Change,
    named: bool,
    operands: List<Operand>,
) -> Result<Acted, TypeFault>
    ensures { Counts (spec.deque_act (scope_of scope.now) line state change named operands tally.old) result tally.new }
{
    match change {
        Change::Push(side) => push_act(alloc, scope, tally, line, state, side, named, operands),
        Change::Pop(side) => {
            let acted = Acted {
                act: Act::Pop(state, side),
                answer: Some(state_type(scope, state)),
            };
            bare_act(scope, line, acted, named, operands.len())
        }
        Change::Clear => {
            let acted = Acted {
                act: Act::Clear(state),
                answer: None,
            };
            bare_act(scope, line, acted, named, operands.len())
        }
    }
}

/// What a call does.
#[tactic(auto, unfolding(crate::specs::Effects::acted))]
pub fn act_of(
    alloc: Global,
    scope: &Scope<'_>,
    tally: &mut Tally,
    line: u32,
    effect: Effect,
) -> Result<Acted, TypeFault>
    ensures { Counts (spec.acted (scope_of scope.now) line effect tally.old) result tally.new }
{
    let Effect {
        what,
        arguments,
        named,
    } = effect;
    match what {
        Effected::Method(callee) => {
            method_called(alloc, scope, tally, line, callee, named, arguments)
        }
        Effected::Deque(state, change) => {
            deque_act(alloc, scope, tally, line, state, change, named, arguments)
        }
    }
}

/// The statement of an act, whose answer goes to the temporary if one is named.
#[tactic(auto, unfolding(crate::specs::Effects::statement_of))]
pub fn statement_of(act: Act, temp: Option<u32>) -> St
    ensures { result ≡ spec.statement_of act temp }
{
    match act {
        Act::Call(callee, values) => St::Call(callee, values, temp),
        Act::Push(state, side, item) => St::Push(state, side, item.into_inner()),
        Act::Pop(state, side) => St::Pop(state, side, temp),
        Act::Clear(state) => St::Clear(state),
    }
}

/// Adds a statement, which is a node.
#[tactic(auto, unfolding(crate::specs::Effects::put))]
pub fn put(frame: &mut Frame, tally: &mut Tally, statement: St) -> Result<(), TypeFault>
    ensures { Moves (spec.put statement frame.old tally.old) result frame.new tally.new }
{
    frame.out.push(statement)?;
    tally.node()
}

/// Adds a temporary.
#[tactic(auto, unfolding(crate::specs::Effects::with_temp))]
pub fn add_temp(frame: &mut Frame, width: u32) -> Result<(), NoMemory>
    ensures { IfOk result (λ _. frame.new ≡ spec.with_temp width frame.old) }
{
    frame.temps.push(width)?;
    Ok(())
}

/// The number of the next temporary.
pub fn next_temp(frame: &Frame) -> Result<u32, NoMemory>
    ensures { IfOk result (λ temp. temp ≡ length frame.now.temps) }
{
    u32::try_from(frame.temps.len()).map_err(|_| NoMemory)
}

/// The type of the answer, if there is one.
pub fn answer_type(line: u32, answer: Option<ValueType>) -> Result<ValueType, TypeFault>
    ensures { result ≡ spec.answer_type line answer }
{
    match answer {
        Some(ty) => Ok(ty),
        None => Err(TypeFault::NotAllowedHere(line)),
    }
}

/// An act whose answer goes to a new temporary, which is the value.
#[tactic(auto, unfolding(crate::specs::Effects::kept))]
pub fn kept(
    alloc: Global,
    frame: &mut Frame,
    tally: &mut Tally,
    act: Act,
    ty: ValueType,
) -> Result<Operand, TypeFault>
    ensures { Runs (spec.kept act ty frame.old tally.old) result frame.new tally.new }
{
    let temp = next_temp(frame)?;
    add_temp(frame, ty.width)?;
    put(frame, tally, statement_of(act, Some(temp)))?;
    tally.node()?;
    let e = Boxed::new(alloc, Ex::Temp(temp, 0, ty.width))?;
    Ok(Operand::Bits(e, ty))
}
