//! Whether types are the same.
ghost use Rattle.std.specs.Prelude.{◌≡◌, IfOk, slice_get};
ghost use Rattle.std.specs.Option.{option_map, option_copied};
ghost use Rattle.pm_elab.specs.Connections as spec;
ghost use Rattle.pm_frame.specs.CallTypes.{call_types};

use pm_design::Callee;
use pm_elab::{Frame, MadeKind, MethodTypes, kind_of_child};
use pm_io::{List, NoMemory};
use pm_values::{CallerTypes, ValueType};
use std::alloc::Global;

/// What a call hands over and gets back.
#[derive(Drop)]
pub(crate) struct CallTypes {
    pub(crate) arguments: List<ValueType>,
    pub(crate) result: Option<ValueType>,
}

#[tactic(auto, unfolding(pm_elab::specs::Connections::same_number))]
fn same_number(a: Option<u32>, b: Option<u32>) -> bool
    ensures { result ≡ spec.same_number a b }
{
    match (a, b) {
        (None, None) => true,
        (Some(a), Some(b)) => a == b,
        _ => false,
    }
}

/// Whether two types are the same. A bitstruct equals only itself.
#[tactic(auto, unfolding(pm_elab::specs::Connections::same_type))]
pub(crate) fn same_type(a: ValueType, b: ValueType) -> bool
    ensures { result ≡ spec.same_type a b }
{
    a.width == b.width && same_number(a.shape, b.shape)
}

#[tactic(auto, unfolding(pm_elab::specs::Connections::same_type_if))]
fn same_type_if(a: Option<ValueType>, b: Option<ValueType>) -> bool
    ensures { result ≡ spec.same_type_if a b }
{
    match (a, b) {
        (None, None) => true,
        (Some(a), Some(b)) => same_type(a, b),
        _ => false,
    }
}

#[tactic(auto, unfolding(pm_elab::specs::Connections::same_types))]
fn same_types(a: &[ValueType], b: &[ValueType]) -> bool
    ensures { result ≡ spec.same_types a.now b.now }
{
    for (index, ty) in a.iter().enumerate() {
        match b.get(index) {
            Some(other) => {
                if !same_type(*ty, *other) {
                    return false;
                }
            }
            None => return false,
        }
    }
    b.get(a.len()).is_none()
}

/// What a method hands over and gets back.
fn types_of_method(alloc: Global, method: &MethodTypes) -> Result<CallTypes, NoMemory>
    ensures { IfOk result (λ types. call_types types ≡ spec.types_of_method method.now) }
{
    let mut arguments = List::new(alloc);
    for argument in method.arguments.as_slice() {
        arguments.push(argument.ty)?;
    }
    Ok(CallTypes {
        arguments,
        result: method.result,
    })
}

/// What a caller port hands over and gets back.
fn types_of_caller(alloc: Global, caller: &CallerTypes) -> Result<CallTypes, NoMemory>
    ensures { IfOk result (λ types. call_types types ≡ spec.types_of_caller caller.now) }
{
    let mut arguments = List::new(alloc);
    if let Some(ty) = caller.argument {
        arguments.push(ty)?;
    }
    Ok(CallTypes {
        arguments,
        result: caller.result,
    })
}

/// What a method of the list hands over and gets back.
fn method_in(
    alloc: Global,
    methods: &List<MethodTypes>,
    number: u32,
) -> Result<Option<CallTypes>, NoMemory>
    ensures { IfOk result (λ types. option_map call_types types ≡ option_map spec.types_of_method (slice_get methods.now number)) }
{
    match methods.get(number as usize) {
        Some(method) => Ok(Some(types_of_method(alloc, method)?)),
        None => Ok(None),
    }
}

/// What a caller port of the list hands over and gets back.
fn caller_in(
    alloc: Global,
    callers: &List<CallerTypes>,
    number: u32,
) -> Result<Option<CallTypes>, NoMemory>
    ensures { IfOk result (λ types. option_map call_types types ≡ option_map spec.types_of_caller (slice_get callers.now number)) }
{
    match callers.get(number as usize) {
        Some(caller) => Ok(Some(types_of_caller(alloc, caller)?)),
        None => Ok(None),
    }
}

/// The kind of a child, if there is one.
fn child_kind<'a>(kinds: &'a [MadeKind], frame: &Frame, child: u32) -> Option<&'a MadeKind>
    ensures { option_copied result ≡ spec.child_kind kinds.now frame.now child }
{
    kinds.get(kind_of_child(&frame.kind.children, child) as usize)
}

fn child_method(
    alloc: Global,
    kind: Option<&MadeKind>,
    number: u32,
) -> Result<Option<CallTypes>, NoMemory>
    ensures { IfOk result (λ types. option_map call_types types ≡ spec.child_method (option_copied kind.entry) number) }
{
    match kind {
        Some(kind) => method_in(alloc, &kind.raw.methods, number),
        None => Ok(None),
    }
}

fn child_caller(
    alloc: Global,
    kind: Option<&MadeKind>,
    number: u32,
) -> Result<Option<CallTypes>, NoMemory>
    ensures { IfOk result (λ types. option_map call_types types ≡ spec.child_caller (option_copied kind.entry) number) }
{
    match kind {
        Some(kind) => caller_in(alloc, &kind.raw.callers, number),
        None => Ok(None),
    }
}

/// What a call of this hands over and gets back.
fn call_types_of(
    alloc: Global,
    kinds: &[MadeKind],
    frame: &Frame,
    callee: Callee,
) -> Result<Option<CallTypes>, NoMemory>
    ensures { IfOk result (λ types. option_map call_types types ≡ spec.call_types_of kinds.now frame.now callee) }
{
    match callee {
        Callee::Own(method) => method_in(alloc, &frame.raw.methods, method),
        Callee::Port(port) => caller_in(alloc, &frame.raw.callers, port),
        Callee::Child(child, method) => child_method(
            alloc,
            child_kind(kinds, frame, child),
            method,
        ),
        Callee::ChildPort(child, port) => child_caller(
            alloc,
            child_kind(kinds, frame, child),
            port,
        ),
    }
}

fn same_call_types(a: &Option<CallTypes>, b: &Option<CallTypes>) -> bool
    ensures { result ≡ spec.same_call_types (option_map call_types a.now) (option_map call_types b.now) }
{
    match (a, b) {
        (Some(a), Some(b)) => {
            same_types(a.arguments.as_slice(), b.arguments.as_slice())
                && same_type_if(a.result, b.result)
        }
        _ => false,
    }
}

/// Whether two calls have the same types.
#[tactic(auto, unfolding(pm_elab::specs::Connections::equal_calls))]
pub(crate) fn equal_calls(
    alloc: Global,
    kinds: &[MadeKind],
    frame: &Frame,
    a: Callee,
    b: Callee,
) -> Result<bool, NoMemory>
    ensures { IfOk result (λ same. same ≡ spec.equal_calls kinds.now frame.now a b) }
{
    let a = call_types_of(alloc, kinds, frame, a)?;
    let b = call_types_of(alloc, kinds, frame, b)?;
    Ok(same_call_types(&a, &b))
}
