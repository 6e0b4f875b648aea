//! Lambdas that read a name of `construct` that was assigned more than once.
ghost use Rattle.std.specs.Prelude.{◌≡◌, ◌∷◌, map, None, Ok};
ghost use Rattle.pm_elab.specs.Elab.{Gives};
ghost use Rattle.pm_elab.specs.Captures as spec;

use pm_elab::{Code, Frame, Local, RawBody};
use pm_io::{List, Text};
use pm_syn::{Arg, Expr};
use pm_values::{BuildFault, Table};
use std::alloc::Global;

#[tactic(auto, unfolding(pm_elab::specs::Captures::is_reassigned))]
fn is_reassigned(locals: &Table<Local>, name: &[u8]) -> bool
    ensures { result ≡ spec.is_reassigned locals.now name.now }
{
    match locals.get(name) {
        Some(local) => local.reassigned,
        None => false,
    }
}

#[tactic(auto, unfolding(pm_elab::specs::Captures::is_bound))]
fn is_bound(bound: &[Text], name: &[u8]) -> bool
    ensures { result ≡ spec.is_bound bound.now name.now }
{
    bound.iter().any(|other| other.as_slice() == name)
}

/// The names of the comprehensions around, with one that is the innermost.
fn with_name(alloc: Global, name: &[u8], bound: &[Text]) -> Result<List<Text>, BuildFault>
    ensures { Gives (Ok (name.now ∷ bound.now)) result }
{
    let mut names = List::new(alloc);
    names.push(Text::from_slice(alloc, name)?)?;
    for other in bound {
        names.push(Text::from_slice(alloc, other.as_slice())?)?;
    }
    Ok(names)
}

#[tactic(auto, unfolding(pm_elab::specs::Captures::name_reads))]
fn name_reads(name: &[u8], locals: &Table<Local>, bound: &[Text]) -> bool
    ensures { result ≡ spec.name_reads locals.now name.now bound.now }
{
    !is_bound(bound, name) && is_reassigned(locals, name)
}

/// Whether an expression reads a name that was assigned more than once, where these names are its comprehensions'.
#[cycle(reads)]
#[tactic(auto, using(crate::proofs::Readings::forms))]
fn reads(alloc: Global, e: &Expr, locals: &Table<Local>, bound: &[Text]) -> Result<bool, BuildFault>
    ensures { Gives (Ok (spec.reads locals.now e.now bound.now)) result }
{
    match e {
        Expr::Name(name) => Ok(name_reads(name.as_slice(), locals, bound)),
        Expr::Int(_) | Expr::Bool(_) => Ok(false),
        Expr::Unary(_, e) => reads(alloc, e.get(), locals, bound),
        Expr::Binary(_, a, b) => either_reads(alloc, a.get(), b.get(), locals, bound),
        Expr::Cond(a, c, b) => one_reads(alloc, a.get(), c.get(), b.get(), locals, bound),
        Expr::Attr(e, _) => reads(alloc, e.get(), locals, bound),
        Expr::Call(f, arguments) => call_reads(alloc, arguments.as_slice(), f.get(), locals, bound),
        Expr::Index(e, i) => either_reads(alloc, e.get(), i.get(), locals, bound),
        Expr::Slice(e, lo, hi) => one_reads(alloc, e.get(), lo.get(), hi.get(), locals, bound),
        Expr::Items(items) => any_reads(alloc, items.as_slice(), locals, bound),
        Expr::Each(e, name, arguments) => {
            each_reads(
                alloc,
                arguments.as_slice(),
                e.get(),
                name.as_slice(),
                locals,
                bound,
            )
        }
    }
}

#[cycle(reads)]
#[tactic(auto, unfolding(pm_elab::specs::Captures::either_reads))]
fn either_reads(
    alloc: Global,
    a: &Expr,
    b: &Expr,
    locals: &Table<Local>,
    bound: &[Text],
) -> Result<bool, BuildFault>
    ensures { Gives (Ok (spec.either_reads (spec.reads locals.now a.now) (spec.reads locals.now b.now) bound.now)) result }
{
    if reads(alloc, a, locals, bound)? {
        return Ok(true);
    }
    reads(alloc, b, locals, bound)
}

#[cycle(reads)]
#[tactic(auto, unfolding(pm_elab::specs::Captures::one_reads))]
fn one_reads(
    alloc: Global,
    a: &Expr,
    b: &Expr,
    c: &Expr,
    locals: &Table<Local>,
    bound: &[Text],
) -> Result<bool, BuildFault>
    ensures { Gives (Ok (spec.one_reads (spec.reads locals.now a.now) (spec.reads locals.now b.now) (spec.reads locals.now c.now) bound.now)) result }
{
    if reads(alloc, a, locals, bound)? {
        return Ok(true);
    }
    either_reads(alloc, b, c, locals, bound)
}

#[cycle(reads)]
#[tactic(auto, unfolding(pm_elab::specs::Captures::call_reads))]
fn call_reads(
    alloc: Global,
    arguments: &[Arg],
    f: &Expr,
    locals: &Table<Local>,
    bound: &[Text],
) -> Result<bool, BuildFault>
    ensures { Gives (Ok (spec.call_reads (spec.reads locals.now f.now) (map (spec.argument_reading locals.now) arguments.now) bound.now)) result }
{
    if reads(alloc, f, locals, bound)? {
        return Ok(true);
    }
    arguments_read(alloc, arguments, locals, bound)
}

#[cycle(reads)]
#[tactic(auto, unfolding(pm_elab::specs::Captures::each_reads))]
fn each_reads(
    alloc: Global,
    range: &[Expr],
    e: &Expr,
    name: &[u8],
    locals: &Table<Local>,
    bound: &[Text],
) -> Result<bool, BuildFault>
    ensures { Gives (Ok (spec.each_reads (spec.reads locals.now e.now) name.now (map (spec.reads locals.now) range.now) bound.now)) result }
{
    if any_reads(alloc, range, locals, bound)? {
        return Ok(true);
    }
    let bound = with_name(alloc, name, bound)?;
    reads(alloc, e, locals, bound.as_slice())
}

#[cycle(reads)]
#[tactic(auto, unfolding(pm_elab::specs::Captures::any_reads))]
fn any_reads(
    alloc: Global,
    es: &[Expr],
    locals: &Table<Local>,
    bound: &[Text],
) -> Result<bool, BuildFault>
    ensures { Gives (Ok (spec.any_reads (map (spec.reads locals.now) es.now) bound.now)) result }
{
    for e in es {
        if reads(alloc, e, locals, bound)? {
            return Ok(true);
        }
    }
    Ok(false)
}

#[cycle(reads)]
#[tactic(auto, unfolding(pm_elab::specs::Captures::any_reads))]
fn arguments_read(
    alloc: Global,
    arguments: &[Arg],
    locals: &Table<Local>,
    bound: &[Text],
) -> Result<bool, BuildFault>
    ensures { Gives (Ok (spec.any_reads (map (spec.argument_reading locals.now) arguments.now) bound.now)) result }
{
    for argument in arguments {
        if argument_reads(alloc, argument, locals, bound)? {
            return Ok(true);
        }
    }
    Ok(false)
}

#[cycle(reads)]
#[tactic(auto, using(crate::proofs::Readings::forms))]
fn argument_reads(
    alloc: Global,
    argument: &Arg,
    locals: &Table<Local>,
    bound: &[Text],
) -> Result<bool, BuildFault>
    ensures { Gives (Ok (spec.argument_reading locals.now argument.now bound.now)) result }
{
    reads(alloc, &argument.value, locals, bound)
}

/// Whether the body is a lambda that reads a name that was assigned more than once.
#[tactic(auto, unfolding(pm_elab::specs::Captures::captures))]
fn captures(alloc: Global, locals: &Table<Local>, body: &RawBody) -> Result<bool, BuildFault>
    ensures { Gives (Ok (spec.captures locals.now body.now)) result }
{
    match &body.code {
        Code::Lambda(_, e) => reads(alloc, e, locals, &[]),
        Code::Statements(_) | Code::Guard(_) => Ok(false),
    }
}

fn lesser(line: u32, other: Option<u32>) -> u32
    ensures { result ≡ spec.lesser line other }
{
    match other {
        Some(other) => { if line <= other { line } else { other } }
        None => line,
    }
}

/// The least line so far of a lambda that reads such a name.
fn least_line(
    alloc: Global,
    locals: &Table<Local>,
    best: Option<u32>,
    body: &RawBody,
) -> Result<Option<u32>, BuildFault>
    ensures { Gives (Ok (spec.least_line locals.now best body.now)) result }
{
    if captures(alloc, locals, body)? {
        Ok(Some(lesser(body.line, best)))
    } else {
        Ok(best)
    }
}

/// The least line of a lambda that reads such a name.
#[tactic(auto, unfolding(pm_elab::specs::Captures::first_capture))]
fn first_capture(
    alloc: Global,
    locals: &Table<Local>,
    bodies: &[RawBody],
) -> Result<Option<u32>, BuildFault>
    ensures { Gives (Ok (spec.first_capture locals.now None bodies.now)) result }
{
    let mut best = None;
    for body in bodies {
        best = least_line(alloc, locals, best, body)?;
    }
    Ok(best)
}

/// When `construct` has returned: `LateCapture` at the least line whose lambda reads a name that was assigned more than
/// once.
#[tactic(auto, unfolding(pm_elab::specs::Captures::captured))]
pub fn captured(alloc: Global, frame: &Frame) -> Result<(), BuildFault>
    ensures { Gives (spec.captured frame.now) result }
{
    match first_capture(alloc, &frame.raw.locals, frame.raw.bodies.as_slice())? {
        Some(line) => Err(BuildFault::LateCapture(line)),
        None => Ok(()),
    }
}
