//! The functions of the language, on the values of their arguments.
ghost use Rattle.std.specs.Prelude.{◌≡◌};
ghost use Rattle.std.specs.Option.{option_copied};
ghost use Rattle.std.specs.List.{list_any};
ghost use Rattle.pm_elab.specs.Elab.{Gives, lent};
ghost use Rattle.pm_elab.specs.Functions as spec;
ghost use Rattle.pm_eval.specs.Lent.{lent_pair};

use pm_design::{Callee, Role, Term};
use pm_elab::{Function, Given, bits_of_width, int, list, signal_type, type_in, value_named};
use pm_values::{BuildFault, CallerTypes, New, Taken, Value, ValueType, ceiling_log};

/// The function of the name.
#[tactic(auto, unfolding(pm_elab::specs::Functions::function_named))]
pub fn function_named(name: &[u8]) -> Option<Function>
    ensures { result ≡ spec.function_named name.now }
{
    if name == b"InPort".as_slice() {
        Some(Function::InPort)
    } else if name == b"OutPort".as_slice() {
        Some(Function::OutPort)
    } else if name == b"Wire".as_slice() {
        Some(Function::Wire)
    } else if name == b"mk_bits".as_slice() {
        Some(Function::MakeBits)
    } else if name == b"clog2".as_slice() {
        Some(Function::CeilingLog)
    } else if name == b"len".as_slice() {
        Some(Function::Length)
    } else if name == b"connect".as_slice() {
        Some(Function::Connect)
    } else {
        later_function(name)
    }
}

// The function of the name, if it is one of state, calls or constraints.
fn later_function(name: &[u8]) -> Option<Function>
    ensures { result ≡ spec.function_in spec.later_functions name.now }
{
    if name == b"deque".as_slice() {
        Some(Function::Deque)
    } else if name == b"CallerPort".as_slice() {
        Some(Function::CallerPort)
    } else if name == b"CalleePort".as_slice() {
        Some(Function::CalleePort)
    } else if name == b"U".as_slice() {
        Some(Function::Block)
    } else if name == b"RD".as_slice() {
        Some(Function::Readers)
    } else if name == b"WR".as_slice() {
        Some(Function::Writers)
    } else if name == b"M".as_slice() {
        Some(Function::Callers)
    } else {
        None
    }
}

/// The value of the one argument, which names no parameter.
#[tactic(auto, unfolding(pm_elab::specs::Functions::only))]
pub fn only(line: u32, given: &[Given]) -> Result<&Value, BuildFault>
    ensures { lent result ≡ spec.only line given.now }
{
    match given {
        [argument] if argument.name.is_none() => Ok(&argument.value),
        _ => Err(BuildFault::BadArguments(line)),
    }
}

/// The values of the two arguments, which name no parameters.
#[tactic(auto, unfolding(pm_elab::specs::Functions::both))]
pub fn both(line: u32, given: &[Given]) -> Result<(&Value, &Value), BuildFault>
    ensures { lent_pair result ≡ spec.both line given.now }
{
    match given {
        [first, second] if first.name.is_none() && second.name.is_none() => {
            Ok((&first.value, &second.value))
        }
        _ => Err(BuildFault::BadArguments(line)),
    }
}

fn is_any_named(parameter: &[u8], given: &[Given]) -> bool
    ensures { result ≡ list_any (spec.is_named parameter.now) given.now }
{
    given.iter().any(|argument| argument.is_named(parameter))
}

/// Whether each argument names one of the two parameters, and no two arguments the same.
#[tactic(auto, unfolding(pm_elab::specs::Functions::name_either))]
fn name_either(first: &[u8], second: &[u8], given: &[Given]) -> bool
    ensures { result ≡ spec.name_either first.now second.now given.now }
{
    match given {
        [] => true,
        [argument, rest @ ..] => {
            (argument.is_named(first) && !is_any_named(first, rest)
                || argument.is_named(second) && !is_any_named(second, rest))
                && name_either(first, second, rest)
        }
    }
}

/// The value of the one argument, which names the parameter.
#[tactic(auto, unfolding(pm_elab::specs::Functions::only_named))]
pub fn only_named<'a>(
    line: u32,
    parameter: &[u8],
    given: &'a [Given],
) -> Result<&'a Value, BuildFault>
    ensures { lent result ≡ spec.only_named line parameter.now given.now }
{
    match given {
        [argument] if argument.is_named(parameter) => Ok(&argument.value),
        _ => Err(BuildFault::BadArguments(line)),
    }
}

/// A new signal, by default of one bit.
#[tactic(auto, unfolding(pm_elab::specs::Functions::new_signal))]
fn new_signal(role: Role, line: u32, given: &[Given]) -> Result<Value, BuildFault>
    ensures { result ≡ spec.new_signal role line given.now }
{
    if given.is_empty() {
        let bit = ValueType {
            width: 1,
            shape: None,
        };
        return Ok(Value::New(New::Signal(role, bit)));
    }
    let value = only(line, given)?;
    let ty = signal_type(line, value)?;
    Ok(Value::New(New::Signal(role, ty)))
}

/// `mk_bits( n )`.
#[tactic(auto, unfolding(pm_elab::specs::Functions::make_bits))]
fn make_bits(line: u32, given: &[Given]) -> Result<Value, BuildFault>
    ensures { result ≡ spec.make_bits line given.now }
{
    let value = only(line, given)?;
    let width = int(line, value)?;
    Ok(Value::Type(bits_of_width(line, width)?))
}

/// `clog2( n )`.
#[tactic(auto, unfolding(pm_elab::specs::Functions::ceiling_log_of))]
fn ceiling_log_of(line: u32, given: &[Given]) -> Result<Value, BuildFault>
    ensures { result ≡ spec.ceiling_log_of line given.now }
{
    let value = only(line, given)?;
    match ceiling_log(int(line, value)?) {
        Some(log) => Ok(Value::Int(log as i64)),
        None => Err(BuildFault::IntRange(line)),
    }
}

/// `len( x )`.
#[tactic(auto, unfolding(pm_elab::specs::Functions::length_of))]
fn length_of(line: u32, given: &[Given]) -> Result<Value, BuildFault>
    ensures { Gives (spec.length_of line given.now) result }
{
    let value = only(line, given)?;
    length_in(line, value)
}

/// How many elements the list has.
#[tactic(auto, unfolding(pm_elab::specs::Functions::length_in))]
pub fn length_in(line: u32, value: &Value) -> Result<Value, BuildFault>
    ensures { Gives (spec.length_in line value.now) result }
{
    let items = list(line, value)?;
    match i64::try_from(items.len()) {
        Ok(length) => Ok(Value::Int(length)),
        Err(_) => Err(BuildFault::NoMemory),
    }
}

/// A deque by its greatest length, 1 to 64, or `IntRange`.
#[tactic(auto, unfolding(pm_elab::specs::Functions::deque_of))]
fn deque_of(line: u32, maxlen: i64) -> Result<Value, BuildFault>
    ensures { result ≡ spec.deque_of line maxlen }
{
    if 1 <= maxlen && maxlen <= 64 {
        Ok(Value::New(New::Deque(maxlen as u32)))
    } else {
        Err(BuildFault::IntRange(line))
    }
}

/// `deque( maxlen = k )`.
#[tactic(auto, unfolding(pm_elab::specs::Functions::new_deque))]
fn new_deque(line: u32, given: &[Given]) -> Result<Value, BuildFault>
    ensures { result ≡ spec.new_deque line given.now }
{
    let value = only_named(line, b"maxlen", given)?;
    let maxlen = int(line, value)?;
    deque_of(line, maxlen)
}

/// A type that may be given by its name.
#[tactic(auto, unfolding(pm_elab::specs::Functions::type_given))]
fn type_given(line: u32, parameter: &[u8], given: &[Given]) -> Result<Option<ValueType>, BuildFault>
    ensures { result ≡ spec.type_given line parameter.now given.now }
{
    match value_named(given, parameter) {
        Some(value) => Ok(Some(type_in(line, value)?)),
        None => Ok(None),
    }
}

/// `CallerPort( Type = T, RetType = R )`, in which each may be missing.
#[tactic(auto, unfolding(pm_elab::specs::Functions::new_caller))]
fn new_caller(line: u32, given: &[Given]) -> Result<Value, BuildFault>
    ensures { result ≡ spec.new_caller line given.now }
{
    if !name_either(b"Type", b"RetType", given) {
        return Err(BuildFault::BadArguments(line));
    }
    let argument = type_given(line, b"Type", given)?;
    let result = type_given(line, b"RetType", given)?;
    Ok(Value::New(New::Caller(CallerTypes { argument, result })))
}

fn method_of(line: u32, callee: Callee) -> Result<Value, BuildFault>
    ensures { result ≡ spec.method_of line callee }
{
    match callee {
        Callee::Own(_) | Callee::Child(_, _) => Ok(Value::New(New::Callee(callee))),
        _ => Err(BuildFault::WrongKind(line)),
    }
}

/// A port that is another name of a method.
#[tactic(auto, unfolding(pm_elab::specs::Functions::callee_of))]
fn callee_of(line: u32, value: &Value) -> Result<Value, BuildFault>
    ensures { result ≡ spec.callee_of line value.now }
{
    match value {
        Value::Taken(Taken::Method(callee)) => method_of(line, *callee),
        _ => Err(BuildFault::WrongKind(line)),
    }
}

/// `CalleePort( method = m )`.
#[tactic(auto, unfolding(pm_elab::specs::Functions::new_callee))]
fn new_callee(line: u32, given: &[Given]) -> Result<Value, BuildFault>
    ensures { result ≡ spec.new_callee line given.now }
{
    let value = only_named(line, b"method", given)?;
    callee_of(line, value)
}

/// The blocks that read a signal, as a term.
#[tactic(auto, unfolding(pm_elab::specs::Functions::readers_of))]
fn readers_of(line: u32, value: &Value) -> Result<Value, BuildFault>
    ensures { result ≡ spec.readers_of line value.now }
{
    match value {
        Value::Taken(Taken::Signal(reference)) => Ok(Value::Term(Term::Reads(reference.part))),
        Value::Taken(Taken::State(_)) | Value::Taken(Taken::FarState) => {
            Ok(Value::Term(Term::Wrong))
        }
        _ => Err(BuildFault::WrongKind(line)),
    }
}

/// `RD( x )`.
#[tactic(auto, unfolding(pm_elab::specs::Functions::readers_term))]
fn readers_term(line: u32, given: &[Given]) -> Result<Value, BuildFault>
    ensures { result ≡ spec.readers_term line given.now }
{
    let value = only(line, given)?;
    readers_of(line, value)
}

/// The blocks that write a signal, as a term.
#[tactic(auto, unfolding(pm_elab::specs::Functions::writers_of))]
fn writers_of(line: u32, value: &Value) -> Result<Value, BuildFault>
    ensures { result ≡ spec.writers_of line value.now }
{
    match value {
        Value::Taken(Taken::Signal(reference)) => Ok(Value::Term(Term::Writes(reference.part))),
        Value::Taken(Taken::State(_)) | Value::Taken(Taken::FarState) => {
            Ok(Value::Term(Term::Wrong))
        }
        _ => Err(BuildFault::WrongKind(line)),
    }
}

/// `WR( x )`.
#[tactic(auto, unfolding(pm_elab::specs::Functions::writers_term))]
fn writers_term(line: u32, given: &[Given]) -> Result<Value, BuildFault>
    ensures { result ≡ spec.writers_term line given.now }
{
    let value = only(line, given)?;
    writers_of(line, value)
}

/// The blocks that call a method, as a term.
#[tactic(auto, unfolding(pm_elab::specs::Functions::callers_of))]
fn callers_of(line: u32, value: &Value) -> Result<Value, BuildFault>
    ensures { result ≡ spec.callers_of line value.now }
{
    match value {
        Value::Taken(Taken::Method(callee)) => Ok(Value::Term(Term::Calls(*callee))),
        _ => Err(BuildFault::WrongKind(line)),
    }
}

/// `M( m )`.
#[tactic(auto, unfolding(pm_elab::specs::Functions::callers_term))]
fn callers_term(line: u32, given: &[Given]) -> Result<Value, BuildFault>
    ensures { result ≡ spec.callers_term line given.now }
{
    let value = only(line, given)?;
    callers_of(line, value)
}

/// `U( .. )` of anything but the name of a block.
#[tactic(auto, unfolding(pm_elab::specs::Functions::no_block))]
fn no_block(line: u32, given: &[Given]) -> Result<Value, BuildFault>
    ensures { result ≡ spec.no_block line given.now }
{
    only(line, given)?;
    Err(BuildFault::WrongKind(line))
}

/// A connection is a statement, and no value.
#[tactic(auto, unfolding(pm_elab::specs::Functions::no_value))]
fn no_value(line: u32, given: &[Given]) -> Result<Value, BuildFault>
    ensures { result ≡ spec.no_value line given.now }
{
    both(line, given)?;
    Err(BuildFault::WrongKind(line))
}

/// What the function gives for its arguments.
#[tactic(auto, unfolding(pm_elab::specs::Functions::called))]
pub fn called(function: Function, line: u32, given: &[Given]) -> Result<Value, BuildFault>
    ensures { Gives (spec.called function line given.now) result }
{
    match function {
        Function::InPort => new_signal(Role::Input, line, given),
        Function::OutPort => new_signal(Role::Output, line, given),
        Function::Wire => new_signal(Role::Inner, line, given),
        Function::MakeBits => make_bits(line, given),
        Function::CeilingLog => ceiling_log_of(line, given),
        Function::Length => length_of(line, given),
        Function::Connect => no_value(line, given),
        Function::Deque => new_deque(line, given),
        Function::CallerPort => new_caller(line, given),
        Function::CalleePort => new_callee(line, given),
        Function::Block => no_block(line, given),
        Function::Readers => readers_term(line, given),
        Function::Writers => writers_term(line, given),
        Function::Callers => callers_term(line, given),
    }
}
