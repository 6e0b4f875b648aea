//! What names and attributes are.
ghost use Rattle.std.specs.Prelude.{◌≡◌, ◌++◌, decimal};
ghost use Rattle.std.specs.Option.{option_copied};
ghost use Rattle.std.specs.Str.{bytes_eq};
ghost use Rattle.pm_elab.specs.Sites as sites;
ghost use Rattle.pm_typing.specs.Counted.{Gives};
ghost use Rattle.pm_typing.specs.Names as spec;
ghost use Rattle.pm_typing.specs.Sites.{scope_of, site_of};
ghost use Rattle.pm_typing.specs.Things.{thing_in, thing_of};

use itoa::Buffer;
use pm_bits::Fold;
use pm_design::{Callee, Part, Role, Side};
use pm_elab::{RawKind, is_plain, kind_of_child, member_named};
use pm_io::List;
use pm_typing::{At, BodyFunction, BodySort, Bound, Change, Scope, Thing, TypeFault};
use pm_values::{Member, Reference, Taken, Value, ValueType};

fn own_taken<'a>(line: u32, taken: Taken) -> Result<Thing<'a>, TypeFault>
    ensures { thing_in result ≡ spec.own_taken line taken }
{
    match taken {
        Taken::Signal(reference) => Ok(Thing::Signal(reference)),
        Taken::Child(child) => Ok(Thing::Child(child)),
        Taken::State(state) => Ok(Thing::State(state)),
        Taken::Method(callee) => Ok(Thing::Method(callee)),
        _ => Err(TypeFault::NotAllowedHere(line)),
    }
}

fn port_of_child<'a>(line: u32, child: u32, reference: Reference) -> Result<Thing<'a>, TypeFault>
    ensures { Gives (spec.port_of_child line child reference) (thing_in result) }
{
    if reference.part.owner != 0 || reference.role == Role::Inner {
        return Err(TypeFault::NotAllowedHere(line));
    }
    let owner = child.checked_add(1).ok_or(TypeFault::NoMemory)?;
    let part = Part {
        owner,
        ..reference.part
    };
    Ok(Thing::Signal(Reference { part, ..reference }))
}

fn method_of_child<'a>(line: u32, child: u32, callee: Callee) -> Result<Thing<'a>, TypeFault>
    ensures { thing_in result ≡ spec.method_of_child line child callee }
{
    match callee {
        Callee::Own(method) => Ok(Thing::Method(Callee::Child(child, method))),
        Callee::Port(port) => Ok(Thing::Method(Callee::ChildPort(child, port))),
        _ => Err(TypeFault::NotAllowedHere(line)),
    }
}

fn child_taken<'a>(line: u32, child: u32, taken: Taken) -> Result<Thing<'a>, TypeFault>
    ensures { Gives (spec.child_taken line child taken) (thing_in result) }
{
    match taken {
        Taken::Signal(reference) => port_of_child(line, child, reference),
        Taken::Method(callee) => method_of_child(line, child, callee),
        _ => Err(TypeFault::NotAllowedHere(line)),
    }
}

fn taken_by<'a>(line: u32, whose: Option<u32>, taken: Taken) -> Result<Thing<'a>, TypeFault>
    ensures { Gives (spec.taken_by line whose taken) (thing_in result) }
{
    match whose {
        None => own_taken(line, taken),
        Some(child) => child_taken(line, child, taken),
    }
}

fn plain_by<'a>(line: u32, whose: Option<u32>, thing: Thing<'a>) -> Result<Thing<'a>, TypeFault>
    ensures { thing_in result ≡ spec.plain_by line whose (thing_of thing.entry) }
{
    match whose {
        None => Ok(thing),
        Some(_) => Err(TypeFault::NotAllowedHere(line)),
    }
}

/// A value as the component has it, or its child of a number.
#[tactic(auto, unfolding(pm_typing::specs::Names::seen))]
pub(crate) fn seen<'a>(
    line: u32,
    whose: Option<u32>,
    value: &'a Value,
) -> Result<Thing<'a>, TypeFault>
    ensures { Gives (spec.seen line whose value.now) (thing_in result) }
{
    match value {
        Value::Int(number) => plain_by(line, whose, Thing::Int(*number)),
        Value::Type(ty) => plain_by(line, whose, Thing::Type(*ty)),
        Value::Const(bits) => plain_by(line, whose, Thing::Const(*bits)),
        Value::Class(_) => plain_by(line, whose, Thing::Class),
        Value::Items(items) => Ok(Thing::Items(whose, items)),
        Value::Interface(members) => Ok(Thing::Members(whose, members)),
        Value::Taken(taken) => taken_by(line, whose, *taken),
        _ => Err(TypeFault::NotAllowedHere(line)),
    }
}

// What a name stands for, unless it is a reference or a list that has one.
#[tactic(auto, unfolding(pm_typing::specs::Names::meant))]
fn meant<'a>(line: u32, value: &'a Value) -> Result<Thing<'a>, TypeFault>
    ensures { Gives (spec.meant line value.now) (thing_in result) }
{
    if is_plain(value) {
        seen(line, None, value)
    } else {
        Err(TypeFault::MaybeUnbound(line))
    }
}

// The function of a name, if it isn't one that changes widths or reduces.
fn other_function(name: &[u8]) -> Option<BodyFunction>
    ensures { result ≡ spec.function_in spec.other_functions name.now }
{
    if name == b"clog2".as_slice() {
        Some(BodyFunction::CeilingLog)
    } else if name == b"len".as_slice() {
        Some(BodyFunction::Length)
    } else if name == b"mk_bits".as_slice() {
        Some(BodyFunction::MakeBits)
    } else {
        None
    }
}

// The function of a name, unless it is `concat` or changes widths.
fn later_function(name: &[u8]) -> Option<BodyFunction>
    ensures { result ≡ spec.function_in spec.later_functions name.now }
{
    if name == b"reduce_and".as_slice() {
        Some(BodyFunction::Reduce(Fold::All))
    } else if name == b"reduce_or".as_slice() {
        Some(BodyFunction::Reduce(Fold::Any))
    } else if name == b"reduce_xor".as_slice() {
        Some(BodyFunction::Reduce(Fold::Odd))
    } else {
        other_function(name)
    }
}

#[tactic(auto, unfolding(pm_typing::specs::Names::body_function))]
fn body_function(name: &[u8]) -> Option<BodyFunction>
    ensures { result ≡ spec.body_function name.now }
{
    if name == b"concat".as_slice() {
        Some(BodyFunction::Concat)
    } else if name == b"zext".as_slice() {
        Some(BodyFunction::Zext)
    } else if name == b"sext".as_slice() {
        Some(BodyFunction::Sext)
    } else if name == b"trunc".as_slice() {
        Some(BodyFunction::Trunc)
    } else {
        later_function(name)
    }
}

// Whether the name is the prefix and then the number.
fn is_numbered(name: &[u8], prefix: &[u8], number: u32) -> bool
    ensures { result ≡ bytes_eq name.now (prefix.now ++ decimal number) }
{
    name.starts_with(prefix) && &name[prefix.len()..] == Buffer::new().format(number).as_bytes()
}

fn is_type_name(name: &[u8], width: u32) -> bool
    ensures { result ≡ sites.is_type_name name.now width }
{
    is_numbered(name, b"Bits", width) || is_numbered(name, b"b", width)
}

// The width that the name of a type names, 1 to 128.
#[tactic(auto, unfolding(pm_elab::specs::Sites::named_width), using(crate::proofs::Widths::find_here))]
fn named_width(name: &[u8]) -> Option<u32>
    ensures { result ≡ sites.named_width name.now }
{
    for width in 1..129 {
        if is_type_name(name, width) {
            return Some(width);
        }
    }
    None
}

fn width_meant<'a>(line: u32, width: Option<u32>) -> Result<Thing<'a>, TypeFault>
    ensures { thing_in result ≡ spec.width_meant line width }
{
    match width {
        Some(width) => Ok(Thing::Type(ValueType { width, shape: None })),
        None => Err(TypeFault::MaybeUnbound(line)),
    }
}

// What the language itself gives a name.
#[tactic(auto, unfolding(pm_typing::specs::Names::built_in))]
fn built_in<'a>(line: u32, name: &[u8]) -> Result<Thing<'a>, TypeFault>
    ensures { thing_in result ≡ spec.built_in line name.now }
{
    match body_function(name) {
        Some(function) => Ok(Thing::Function(function)),
        None => width_meant(line, named_width(name)),
    }
}

// A name of the file.
#[tactic(auto, unfolding(pm_typing::specs::Names::file_named))]
fn file_named<'a>(scope: &Scope<'a>, line: u32, name: &[u8]) -> Result<Thing<'a>, TypeFault>
    ensures { Gives (spec.file_named (scope_of scope.now) line name.now) (thing_in result) }
{
    if name == b"s".as_slice() {
        return Ok(Thing::Own);
    }
    match scope.design.names.get(name) {
        Some(value) => meant(line, value),
        None => built_in(line, name),
    }
}

// A name of `construct`, or else of the file.
fn local_named<'a>(scope: &Scope<'a>, line: u32, name: &[u8]) -> Result<Thing<'a>, TypeFault>
    ensures { Gives (spec.local_named (scope_of scope.now) line name.now) (thing_in result) }
{
    match scope.raw.locals.get(name) {
        Some(local) => meant(line, &local.value),
        None => file_named(scope, line, name),
    }
}

// A name that the body doesn't assign.
#[tactic(auto, unfolding(pm_typing::specs::Names::outer_named))]
fn outer_named<'a>(scope: &Scope<'a>, line: u32, name: &[u8]) -> Result<Thing<'a>, TypeFault>
    ensures { Gives (spec.outer_named (scope_of scope.now) line name.now) (thing_in result) }
{
    match scope.sort {
        BodySort::Method => file_named(scope, line, name),
        BodySort::Update | BodySort::Once | BodySort::Edge => local_named(scope, line, name),
    }
}

fn bound_thing<'a>(line: u32, bound: Option<&Bound>) -> Result<Thing<'a>, TypeFault>
    ensures { thing_in result ≡ spec.bound_thing line (option_copied bound.entry) }
{
    match bound {
        Some(Bound::Int(number)) => Ok(Thing::Int(*number)),
        Some(Bound::Temp(temp, ty)) => Ok(Thing::Temp(*temp, 0, *ty)),
        Some(Bound::Unassigned) | None => Err(TypeFault::MaybeUnbound(line)),
    }
}

/// What a name is: a name of the body, of `construct`, of the file, or of the language.
#[tactic(auto, unfolding(pm_typing::specs::Names::name_thing))]
pub(crate) fn name_thing<'a>(
    scope: &Scope<'a>,
    at: &At<'_>,
    name: &[u8],
) -> Result<Thing<'a>, TypeFault>
    ensures { Gives (spec.name_thing name.now (site_of scope.now at.now)) (thing_in result) }
{
    match scope.own.get(name) {
        Some(place) => bound_thing(at.line, at.bounds.get(*place as usize)),
        None => outer_named(scope, at.line, name),
    }
}

fn seen_if<'a>(
    line: u32,
    whose: Option<u32>,
    value: Option<&'a Value>,
) -> Result<Thing<'a>, TypeFault>
    ensures { Gives (spec.seen_if line whose (option_copied value.entry)) (thing_in result) }
{
    match value {
        Some(value) => seen(line, whose, value),
        None => Err(TypeFault::MaybeUnbound(line)),
    }
}

/// An attribute of the component, or of its child, by its kind.
#[tactic(auto, unfolding(pm_typing::specs::Names::attribute_in))]
pub(crate) fn attribute_in<'a>(
    line: u32,
    whose: Option<u32>,
    raw: &'a RawKind,
    name: &[u8],
) -> Result<Thing<'a>, TypeFault>
    ensures { Gives (spec.attribute_in line whose raw.now name.now) (thing_in result) }
{
    if name == b"clk".as_slice() {
        return Err(TypeFault::NotAllowedHere(line));
    }
    seen_if(line, whose, raw.attributes.get(name))
}

/// An attribute of a child.
#[tactic(auto, unfolding(pm_typing::specs::Names::child_attribute))]
pub(crate) fn child_attribute<'a>(
    scope: &Scope<'a>,
    line: u32,
    child: u32,
    name: &[u8],
) -> Result<Thing<'a>, TypeFault>
    ensures { Gives (spec.child_attribute (scope_of scope.now) line child name.now) (thing_in result) }
{
    let kind = kind_of_child(&scope.kind.children, child);
    match scope.design.kinds.get(kind as usize) {
        Some(raw) => attribute_in(line, Some(child), raw, name),
        None => Err(TypeFault::MaybeUnbound(line)),
    }
}

/// A member of an interface.
#[tactic(auto, unfolding(pm_typing::specs::Names::member_thing))]
pub(crate) fn member_thing<'a>(
    line: u32,
    whose: Option<u32>,
    members: &'a List<Member>,
    name: &[u8],
) -> Result<Thing<'a>, TypeFault>
    ensures { Gives (spec.member_thing line whose members.now name.now) (thing_in result) }
{
    seen_if(line, whose, member_named(members.as_slice(), name))
}

#[tactic(auto, unfolding(pm_typing::specs::Names::change_named))]
fn change_named(name: &[u8]) -> Option<Change>
    ensures { result ≡ spec.change_named name.now }
{
    if name == b"append".as_slice() {
        Some(Change::Push(Side::Right))
    } else if name == b"appendleft".as_slice() {
        Some(Change::Push(Side::Left))
    } else if name == b"pop".as_slice() {
        Some(Change::Pop(Side::Right))
    } else if name == b"popleft".as_slice() {
        Some(Change::Pop(Side::Left))
    } else if name == b"clear".as_slice() {
        Some(Change::Clear)
    } else {
        None
    }
}

/// How many items a deque holds at most, or 0 for a number.
#[tactic(auto, unfolding(pm_typing::specs::Names::most_items))]
pub fn most_items(scope: &Scope<'_>, state: u32) -> u32
    ensures { result ≡ spec.most_items (scope_of scope.now) state }
{
    match scope.kind.states.get(state as usize) {
        Some(state) => state.maxlen,
        None => 0,
    }
}

#[tactic(auto, unfolding(pm_typing::specs::Names::deque_attribute))]
fn deque_attribute<'a>(
    line: u32,
    state: u32,
    most: u32,
    name: &[u8],
) -> Result<Thing<'a>, TypeFault>
    ensures { thing_in result ≡ spec.deque_attribute line state most name.now }
{
    if name == b"maxlen".as_slice() {
        return Ok(Thing::Int(i64::from(most)));
    }
    match change_named(name) {
        Some(change) => Ok(Thing::Change(state, change)),
        None => Err(TypeFault::MaybeUnbound(line)),
    }
}

/// An attribute of a state.
#[tactic(auto, unfolding(pm_typing::specs::Names::state_attribute))]
pub(crate) fn state_attribute<'a>(
    scope: &Scope<'_>,
    line: u32,
    state: u32,
    name: &[u8],
) -> Result<Thing<'a>, TypeFault>
    ensures { thing_in result ≡ spec.state_attribute (scope_of scope.now) line state name.now }
{
    let most = most_items(scope, state);
    if 0 < most {
        deque_attribute(line, state, most, name)
    } else {
        Err(TypeFault::MaybeUnbound(line))
    }
}
