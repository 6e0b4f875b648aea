//! The functions that bodies may call.
ghost use Rattle.std.specs.Prelude.{◌≡◌, ◌<◌, ◌^◌};
ghost use Rattle.pm_typing.specs.Counted.{Changes, Counts, Gives};
ghost use Rattle.pm_typing.specs.Functions as spec;
ghost use Rattle.pm_typing.specs.Operands.{typed};
ghost use Rattle.pm_typing.specs.Sites.{scope_of};
ghost use Rattle.pm_typing.specs.Things.{thing_in, thing_of};
ghost use Rattle.pm_type_expr.specs.Held.{joined_in, joined_of};

use crate::names::most_items;
use crate::operands::{bits_in, bits_of, is_bits};
use crate::queue::Queue;
use pm_bits::Fold;
use pm_design::Ex;
use pm_io::{Boxed, List};
use pm_typing::{BodyFunction, Operand, Resizing, Scope, Tally, Thing, TypeFault};
use pm_values::{ValueType, ceiling_log};
use std::alloc::Global;

/// Expressions that are joined.
#[derive(Drop)]
pub struct Joined {
    pub parts: List<Ex>,
    /// Their width in all.
    pub width: u32,
    /// Whether none of them is a bitstruct.
    pub plain: bool,
}

// One expression more.
fn with_part(joined: &mut Joined, line: u32, operand: Operand) -> Result<(), TypeFault>
    ensures { Changes (spec.part_added line (joined_of joined.old) operand) result (joined_of joined.new) }
{
    let (e, ty) = bits_in(line, operand)?;
    let width = joined
        .width
        .checked_add(ty.width)
        .ok_or(TypeFault::NoMemory)?;
    joined.parts.push(e.into_inner())?;
    joined.width = width;
    joined.plain = joined.plain && is_bits(ty);
    Ok(())
}

#[tactic(auto, unfolding(pm_typing::specs::Functions::parts_from))]
fn parts(alloc: Global, line: u32, operands: List<Operand>) -> Result<Joined, TypeFault>
    ensures { Gives (spec.parts_from line spec.no_parts operands) (joined_in result) }
{
    let mut queue = Queue::new(alloc, operands)?;
    let mut joined = Joined {
        parts: List::new(alloc),
        width: 0,
        plain: true,
    };
    while let Some(operand) = queue.next() {
        with_part(&mut joined, line, operand)?;
    }
    Ok(joined)
}

#[tactic(auto, unfolding(pm_typing::specs::Functions::concatenated))]
fn concatenated<'a>(
    alloc: Global,
    tally: &mut Tally,
    line: u32,
    joined: Joined,
) -> Result<Thing<'a>, TypeFault>
    ensures { Counts (spec.concatenated line (joined_of joined) tally.old) (thing_in result) tally.new }
{
    if !joined.plain || 128 < joined.width {
        return Err(TypeFault::WidthMismatch(line));
    }
    tally.node()?;
    let ty = bits_of(joined.width);
    Ok(Thing::Bits(Boxed::new(alloc, Ex::Cat(joined.parts))?, ty))
}

#[tactic(auto, unfolding(pm_typing::specs::Functions::concat))]
fn concat<'a>(
    alloc: Global,
    tally: &mut Tally,
    line: u32,
    operands: List<Operand>,
) -> Result<Thing<'a>, TypeFault>
    ensures { Counts (spec.concat line operands tally.old) (thing_in result) tally.new }
{
    if operands.is_empty() {
        return Err(TypeFault::NotAllowedHere(line));
    }
    let joined = parts(alloc, line, operands)?;
    concatenated(alloc, tally, line, joined)
}

fn fits_resizing(how: Resizing, width: u32, n: u32) -> bool
    ensures { result ≡ spec.fits_resizing how width n }
{
    match how {
        Resizing::Zeros | Resizing::Signs => width <= n && n <= 128,
        Resizing::Cut => 1 <= n && n <= width,
    }
}

fn resized(how: Resizing, e: Boxed<Ex>, n: u32) -> Ex
    ensures { result ≡ spec.resized how e n }
{
    match how {
        Resizing::Zeros => Ex::Zext(e, n),
        Resizing::Signs => Ex::Sext(e, n),
        Resizing::Cut => Ex::Trunc(e, n),
    }
}

fn fits(how: Resizing, ty: ValueType, n: u32) -> bool
    ensures { result ≡ spec.fits_type how ty n }
{
    is_bits(ty) && fits_resizing(how, ty.width, n)
}

#[tactic(auto, unfolding(pm_typing::specs::Functions::resized_to))]
fn resized_to<'a>(
    alloc: Global,
    tally: &mut Tally,
    line: u32,
    how: Resizing,
    e: Boxed<Ex>,
    ty: ValueType,
    n: i64,
) -> Result<Thing<'a>, TypeFault>
    ensures { Counts (spec.resized_to line how (typed e ty) n tally.old) (thing_in result) tally.new }
{
    match u32::try_from(n) {
        Ok(n) if fits(how, ty, n) => {
            tally.node()?;
            Ok(Thing::Bits(Boxed::new(alloc, resized(how, e, n))?, bits_of(n)))
        }
        _ => Err(TypeFault::WidthMismatch(line)),
    }
}

#[tactic(auto, unfolding(pm_typing::specs::Functions::resizing_to))]
fn resizing_to<'a>(
    alloc: Global,
    tally: &mut Tally,
    line: u32,
    how: Resizing,
    e: Boxed<Ex>,
    ty: ValueType,
    n: Operand,
) -> Result<Thing<'a>, TypeFault>
    ensures { Counts (spec.resizing_to line how (typed e ty) n tally.old) (thing_in result) tally.new }
{
    match n {
        Operand::Int(n) => resized_to(alloc, tally, line, how, e, ty, n),
        Operand::Bits(_, _) => {
            if is_bits(ty) {
                Err(TypeFault::NotAllowedHere(line))
            } else {
                Err(TypeFault::WidthMismatch(line))
            }
        }
    }
}

#[tactic(auto, unfolding(pm_typing::specs::Functions::resize))]
fn resize<'a>(
    alloc: Global,
    tally: &mut Tally,
    line: u32,
    how: Resizing,
    operands: List<Operand>,
) -> Result<Thing<'a>, TypeFault>
    ensures { Counts (spec.resize line how operands tally.old) (thing_in result) tally.new }
{
    let mut operands = operands;
    if operands.len() != 2 {
        return Err(TypeFault::NotAllowedHere(line));
    }
    match (operands.pop(), operands.pop()) {
        (Some(n), Some(operand)) => {
            let (e, ty) = bits_in(line, operand)?;
            resizing_to(alloc, tally, line, how, e, ty, n)
        }
        _ => Err(TypeFault::NotAllowedHere(line)),
    }
}

#[tactic(auto, unfolding(pm_typing::specs::Functions::folded))]
fn folded<'a>(
    alloc: Global,
    tally: &mut Tally,
    line: u32,
    fold: Fold,
    e: Boxed<Ex>,
    ty: ValueType,
) -> Result<Thing<'a>, TypeFault>
    ensures { Counts (spec.folded line fold (typed e ty) tally.old) (thing_in result) tally.new }
{
    if !is_bits(ty) {
        return Err(TypeFault::WidthMismatch(line));
    }
    tally.node()?;
    Ok(Thing::Bits(Boxed::new(alloc, Ex::Fold(fold, e))?, bits_of(1)))
}

#[tactic(auto, unfolding(pm_typing::specs::Functions::reduce))]
fn reduce<'a>(
    alloc: Global,
    tally: &mut Tally,
    line: u32,
    fold: Fold,
    operands: List<Operand>,
) -> Result<Thing<'a>, TypeFault>
    ensures { Counts (spec.reduce line fold operands tally.old) (thing_in result) tally.new }
{
    let mut operands = operands;
    if operands.len() != 1 {
        return Err(TypeFault::NotAllowedHere(line));
    }
    match operands.pop() {
        Some(operand) => {
            let (e, ty) = bits_in(line, operand)?;
            folded(alloc, tally, line, fold, e, ty)
        }
        None => Err(TypeFault::NotAllowedHere(line)),
    }
}

/// The integer that the one argument is.
#[tactic(auto, unfolding(pm_typing::specs::Functions::only_integer))]
pub(crate) fn only_integer(line: u32, operands: &[Operand]) -> Result<i64, TypeFault>
    ensures { result ≡ spec.only_integer line operands.now }
{
    match operands {
        [Operand::Int(number)] => Ok(*number),
        _ => Err(TypeFault::NotAllowedHere(line)),
    }
}

#[tactic(auto, unfolding(pm_typing::specs::Functions::log_call))]
fn log_call<'a>(line: u32, operands: &[Operand]) -> Result<Thing<'a>, TypeFault>
    ensures { thing_in result ≡ spec.log_call line operands.now }
{
    let number = only_integer(line, operands)?;
    match ceiling_log(number) {
        Some(log) => Ok(Thing::Int(i64::from(log))),
        None => Err(TypeFault::ConstRange(line)),
    }
}

fn type_at<'a>(line: u32, width: i64) -> Result<Thing<'a>, TypeFault>
    ensures { thing_in result ≡ spec.type_at line width }
{
    if 1 <= width && width <= 128 {
        Ok(Thing::Type(bits_of(width as u32)))
    } else {
        Err(TypeFault::WidthMismatch(line))
    }
}

#[tactic(auto, unfolding(pm_typing::specs::Functions::bits_type_call))]
fn bits_type_call<'a>(line: u32, operands: &[Operand]) -> Result<Thing<'a>, TypeFault>
    ensures { thing_in result ≡ spec.bits_type_call line operands.now }
{
    let width = only_integer(line, operands)?;
    type_at(line, width)
}

// How many numbers a width has.
fn size_of(width: u32) -> u64
    requires { width < 64 }
    ensures { result ≡ 2 ^ width }
{
    1u64 << width
}

// The width that holds each number of items up to the most.
#[tactic(auto, unfolding(pm_typing::specs::Functions::count_width), using(crate::proofs::Logs::log_here, crate::proofs::Logs::log_next))]
fn count_width(most: u32) -> u32
    ensures { result ≡ spec.count_width most }
{
    for width in 0..64 {
        if u64::from(most) < size_of(width) {
            return width;
        }
    }
    64
}

// The length of a list as an integer.
fn length_in<'a>(length: usize) -> Result<Thing<'a>, TypeFault>
    ensures { Gives (spec.length_thing length) (thing_in result) }
{
    match i64::try_from(length) {
        Ok(length) => Ok(Thing::Int(length)),
        Err(_) => Err(TypeFault::NoMemory),
    }
}

#[tactic(auto, unfolding(pm_typing::specs::Functions::count_of))]
fn count_of<'a>(
    alloc: Global,
    scope: &Scope<'_>,
    tally: &mut Tally,
    line: u32,
    state: u32,
) -> Result<Thing<'a>, TypeFault>
    ensures { Counts (spec.count_of (scope_of scope.now) line state tally.old) (thing_in result) tally.new }
{
    let most = most_items(scope, state);
    if most == 0 {
        return Err(TypeFault::NotAllowedHere(line));
    }
    tally.node()?;
    let ty = bits_of(count_width(most));
    Ok(Thing::Bits(Boxed::new(alloc, Ex::Count(state))?, ty))
}

/// The length of a list or of a deque.
#[tactic(auto, unfolding(pm_typing::specs::Functions::length_of))]
pub(crate) fn length_of<'a>(
    alloc: Global,
    scope: &Scope<'_>,
    tally: &mut Tally,
    line: u32,
    thing: Thing<'_>,
) -> Result<Thing<'a>, TypeFault>
    ensures { Counts (spec.length_of (scope_of scope.now) line (thing_of thing.entry) tally.old) (thing_in result) tally.new }
{
    match thing {
        Thing::Items(_, items) => length_in(items.len()),
        Thing::State(state) => count_of(alloc, scope, tally, line, state),
        _ => Err(TypeFault::NotAllowedHere(line)),
    }
}

/// A function on its arguments.
#[tactic(auto, unfolding(pm_typing::specs::Functions::called))]
pub(crate) fn called<'a>(
    alloc: Global,
    tally: &mut Tally,
    line: u32,
    function: BodyFunction,
    named: bool,
    operands: List<Operand>,
) -> Result<Thing<'a>, TypeFault>
    ensures { Counts (spec.called function line named operands tally.old) (thing_in result) tally.new }
{
    if named {
        return Err(TypeFault::NotAllowedHere(line));
    }
    match function {
        BodyFunction::Concat => concat(alloc, tally, line, operands),
        BodyFunction::Zext => resize(alloc, tally, line, Resizing::Zeros, operands),
        BodyFunction::Sext => resize(alloc, tally, line, Resizing::Signs, operands),
        BodyFunction::Trunc => resize(alloc, tally, line, Resizing::Cut, operands),
        BodyFunction::Reduce(fold) => reduce(alloc, tally, line, fold, operands),
        BodyFunction::CeilingLog => log_call(line, operands.as_slice()),
        BodyFunction::Length => Err(TypeFault::NotAllowedHere(line)),
        BodyFunction::MakeBits => bits_type_call(line, operands.as_slice()),
    }
}
