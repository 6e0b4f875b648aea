//! Things as values.
ghost use Rattle.std.specs.Prelude.{◌≡◌, nat_eq};
ghost use Rattle.std.specs.Option.{option_eq};
ghost use Rattle.pm_typing.specs.Counted.{Counts};
ghost use Rattle.pm_typing.specs.Operands as spec;
ghost use Rattle.pm_typing.specs.Sites.{scope_of};
ghost use Rattle.pm_typing.specs.Things.{thing_of};
ghost use Rattle.pm_type_expr.specs.Held as held;
ghost use Rattle.pm_type_expr.specs.Held.{typed_in};
ghost use Rattle.pm_elab.specs.Values as elab;

use crate::names::most_items;
use crate::references::{element_type, parts_of, type_of};
use pm_bits::{Bits, Op};
use pm_design::Ex;
use pm_elab::constant_of;
use pm_io::{Boxed, List};
use pm_typing::{BodySort, Operand, Scope, Tally, Thing, TypeFault};
use pm_values::{Reference, ValueType};
use std::alloc::Global;

/// Bits of a width.
pub(crate) fn bits_of(width: u32) -> ValueType
    ensures { result ≡ elab.bits_of width }
{
    ValueType { width, shape: None }
}

/// Whether the type is Bits, and no bitstruct.
pub(crate) fn is_bits(ty: ValueType) -> bool
    ensures { result ≡ spec.is_bits ty }
{
    ty.shape.is_none()
}

fn same_shape(a: Option<u32>, b: Option<u32>) -> bool
    ensures { result ≡ option_eq nat_eq a b }
{
    match a {
        None => b.is_none(),
        Some(shape) => match b {
            None => false,
            Some(other) => shape == other,
        },
    }
}

/// Whether two types are one type. A bitstruct equals only itself.
pub fn same_type(a: ValueType, b: ValueType) -> bool
    ensures { result ≡ spec.same_type a b }
{
    a.width == b.width && same_shape(a.shape, b.shape)
}

fn sees_children(sort: BodySort) -> bool
    ensures { result ≡ spec.sees_children sort }
{
    match sort {
        BodySort::Method => false,
        BodySort::Update | BodySort::Once | BodySort::Edge => true,
    }
}

/// Whether a body of this sort may read the reference.
pub fn may_read(sort: BodySort, reference: &Reference) -> bool
    ensures { result ≡ spec.may_read sort reference.now }
{
    reference.part.owner == 0 || sees_children(sort)
}

#[tactic(auto, unfolding(pm_typing::specs::Operands::may_read_all))]
fn may_read_all(sort: BodySort, references: &[Reference]) -> bool
    ensures { result ≡ spec.may_read_all sort references.now }
{
    for reference in references {
        if !may_read(sort, reference) {
            return false;
        }
    }
    true
}

fn made(alloc: Global, tally: &mut Tally, e: Ex, ty: ValueType) -> Result<Operand, TypeFault>
    ensures { Counts (spec.made e ty tally.old) result tally.new }
{
    let e = Boxed::new(alloc, e)?;
    tally.node()?;
    Ok(Operand::Bits(e, ty))
}

#[tactic(auto, unfolding(pm_typing::specs::Operands::signal_read))]
fn signal_read(
    alloc: Global,
    scope: &Scope<'_>,
    tally: &mut Tally,
    line: u32,
    reference: &Reference,
) -> Result<Operand, TypeFault>
    ensures { Counts (spec.signal_read (scope_of scope.now) line reference.now tally.old) result tally.new }
{
    if may_read(scope.sort, reference) {
        made(alloc, tally, Ex::Get(reference.part), type_of(reference))
    } else {
        Err(TypeFault::NotAllowedHere(line))
    }
}

#[tactic(auto, unfolding(pm_typing::specs::Operands::pick_read))]
fn pick_read(
    alloc: Global,
    scope: &Scope<'_>,
    tally: &mut Tally,
    line: u32,
    index: Boxed<Ex>,
    elements: &[Reference],
) -> Result<Operand, TypeFault>
    ensures { Counts (spec.pick_read (scope_of scope.now) line index elements.now tally.old) result tally.new }
{
    if may_read_all(scope.sort, elements) {
        let parts = parts_of(alloc, elements)?;
        let ty = element_type(elements);
        made(alloc, tally, Ex::Pick(index, parts), ty)
    } else {
        Err(TypeFault::NotAllowedHere(line))
    }
}

/// The type of a number, or of a deque's items.
#[tactic(auto, unfolding(pm_typing::specs::Operands::state_type))]
pub fn state_type(scope: &Scope<'_>, state: u32) -> ValueType
    ensures { result ≡ spec.state_type (scope_of scope.now) state }
{
    match scope.raw.states.get(state as usize) {
        Some(ty) => *ty,
        None => bits_of(0),
    }
}

#[tactic(auto, unfolding(pm_typing::specs::Operands::number_read))]
fn number_read(
    alloc: Global,
    scope: &Scope<'_>,
    tally: &mut Tally,
    line: u32,
    state: u32,
) -> Result<Operand, TypeFault>
    ensures { Counts (spec.number_read (scope_of scope.now) line state tally.old) result tally.new }
{
    if 0 < most_items(scope, state) {
        Err(TypeFault::NotAllowedHere(line))
    } else {
        made(alloc, tally, Ex::Number(state), state_type(scope, state))
    }
}

/// The value that a thing is.
#[tactic(auto, unfolding(pm_typing::specs::Operands::value_of))]
pub fn value_of(
    alloc: Global,
    scope: &Scope<'_>,
    tally: &mut Tally,
    line: u32,
    thing: Thing<'_>,
) -> Result<Operand, TypeFault>
    ensures { Counts (spec.value_of (scope_of scope.now) line (thing_of thing.entry) tally.old) result tally.new }
{
    match thing {
        Thing::Int(number) => Ok(Operand::Int(number)),
        Thing::Const(bits) => made(alloc, tally, Ex::Const(bits), bits_of(bits.width())),
        Thing::Signal(reference) => signal_read(alloc, scope, tally, line, &reference),
        Thing::Temp(temp, lo, ty) => made(alloc, tally, Ex::Temp(temp, lo, ty.width), ty),
        Thing::Pick(index, elements) => {
            pick_read(alloc, scope, tally, line, index, elements.as_slice())
        }
        Thing::State(state) => number_read(alloc, scope, tally, line, state),
        Thing::Bits(e, ty) => Ok(Operand::Bits(e, ty)),
        _ => Err(TypeFault::NotAllowedHere(line)),
    }
}

/// The expression and the type of a value that has a width by itself.
#[tactic(auto, unfolding(pm_typing::specs::Operands::bits_in))]
pub fn bits_in(line: u32, operand: Operand) -> Result<(Boxed<Ex>, ValueType), TypeFault>
    ensures { typed_in result ≡ spec.bits_in line operand }
{
    match operand {
        Operand::Int(_) => Err(TypeFault::WidthMismatch(line)),
        Operand::Bits(e, ty) => Ok((e, ty)),
    }
}

/// The expression and the type of a thing that has a width by itself.
#[tactic(auto, unfolding(pm_typing::specs::Operands::bits_value))]
pub(crate) fn bits_value(
    alloc: Global,
    scope: &Scope<'_>,
    tally: &mut Tally,
    line: u32,
    thing: Thing<'_>,
) -> Result<(Boxed<Ex>, ValueType), TypeFault>
    ensures { Counts (spec.bits_value (scope_of scope.now) line (thing_of thing.entry) tally.old) (typed_in result) tally.new }
{
    let operand = value_of(alloc, scope, tally, line, thing)?;
    bits_in(line, operand)
}

fn constant_if(
    alloc: Global,
    tally: &mut Tally,
    line: u32,
    bits: Option<Bits>,
) -> Result<Boxed<Ex>, TypeFault>
    ensures { Counts (spec.constant_if line bits tally.old) result tally.new }
{
    match bits {
        Some(bits) => {
            tally.node()?;
            Ok(Boxed::new(alloc, Ex::Const(bits))?)
        }
        None => Err(TypeFault::ConstRange(line)),
    }
}

/// An integer as a constant of a width.
#[tactic(auto, unfolding(pm_typing::specs::Operands::constant))]
pub(crate) fn constant(
    alloc: Global,
    tally: &mut Tally,
    line: u32,
    width: u32,
    number: i64,
) -> Result<Boxed<Ex>, TypeFault>
    ensures { Counts (spec.constant line width number tally.old) result tally.new }
{
    constant_if(alloc, tally, line, constant_of(width, number))
}

/// A value for a place of a type. An integer takes the place's width.
#[tactic(auto, unfolding(pm_typing::specs::Operands::fitted))]
pub fn fitted(
    alloc: Global,
    tally: &mut Tally,
    line: u32,
    ty: ValueType,
    operand: Operand,
) -> Result<Boxed<Ex>, TypeFault>
    ensures { Counts (spec.fitted line ty operand tally.old) result tally.new }
{
    match operand {
        Operand::Int(number) => {
            if is_bits(ty) {
                constant(alloc, tally, line, ty.width, number)
            } else {
                Err(TypeFault::WidthMismatch(line))
            }
        }
        Operand::Bits(e, other) => {
            if same_type(other, ty) {
                Ok(e)
            } else {
                Err(TypeFault::WidthMismatch(line))
            }
        }
    }
}

// Zero in a width of 1 to 128.
fn zero(width: u32) -> Option<Bits>
    ensures { result ≡ held.zero width }
{
    Bits::new(width, 0)
}

#[tactic(auto, unfolding(pm_typing::specs::Operands::truth))]
fn truth(alloc: Global, tally: &mut Tally, e: Boxed<Ex>, width: u32) -> Result<Boxed<Ex>, TypeFault>
    ensures { Counts (spec.truth e width tally.old) result tally.new }
{
    if width == 1 {
        return Ok(e);
    }
    tally.node()?;
    tally.node()?;
    let zero = zero(width).ok_or(TypeFault::NoMemory)?;
    let zero = Boxed::new(alloc, Ex::Const(zero))?;
    Ok(Boxed::new(alloc, Ex::Bin(Op::Ne, e, zero))?)
}

/// An expression as a condition: one of more than one bit is true where it isn't 0.
#[tactic(auto, unfolding(pm_typing::specs::Operands::condition))]
pub fn condition(
    alloc: Global,
    tally: &mut Tally,
    line: u32,
    e: Boxed<Ex>,
    ty: ValueType,
) -> Result<Boxed<Ex>, TypeFault>
    ensures { Counts (spec.condition line e ty tally.old) result tally.new }
{
    if is_bits(ty) {
        truth(alloc, tally, e, ty.width)
    } else {
        Err(TypeFault::WidthMismatch(line))
    }
}
