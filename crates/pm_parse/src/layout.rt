//! The first faulty line of a file.
ghost use Rattle.std.specs.Prelude.{◌≡◌, ◌&&◌, IfOk, List, [], ◌∷◌, OnOk};
ghost use Rattle.pm_parse.specs.Faults as faults;
ghost use Rattle.pm_parse.specs.Layout as spec;
ghost use Rattle.pm_parse.specs.LinesBefore.{IsBodyOf};
ghost use Rattle.pm_parse.specs.LinesBefore as kept;
ghost use Rattle.pm_parse.specs.BodyKinds as kinds;
ghost use Rattle.pm_parse.specs.declared.form.LineForm.{LineForm as TheLine};

use crate::body::{Body, add_line, body_at, kind_at, leave};
use crate::body_kind::BodyKind;
use crate::entry::Entry;
use crate::fault::ParseFault;
use crate::form::{AfterColon, Form, LineForm, form_of};
use pm_grammar::is_shallow;
use pm_io::{NoMemory, Stack};
use pm_syn::Stmt;
use std::alloc::Global;

/// The first fault of a file's lines, if they have one.
pub(crate) fn first_fault(alloc: Global, entries: &[Entry]) -> Result<Option<ParseFault>, NoMemory>
    ensures { IfOk result (λ fault. fault ≡ faults.first_fault entries.now) }
{
    let mut lines = Lines::new(alloc);
    let mut rest = entries;
    while let Some((entry, after)) = rest.split_first() {
        let Some(statement) = &entry.statement else {
            return Ok(Some(ParseFault::Syntax(entry.number)));
        };
        if !is_shallow(statement) {
            return Ok(Some(ParseFault::TooDeep(entry.number)));
        }
        if !lines.add(LineForm::new(entry.column, statement), after)? {
            return Ok(Some(ParseFault::Layout(entry.number)));
        }
        rest = after;
    }
    Ok(None)
}

/// What the lines so far say about the lines that are allowed after them.
#[derive(Drop)]
struct Lines {
    // Innermost first.
    bodies: Stack<Body>,
    nearest: Option<LineForm>,
}

impl Lines {
    fn new(alloc: Global) -> Lines
        ensures { result ≡ kept.lines_of [] }
    {
        Lines {
            bodies: Stack::new(alloc),
            nearest: None,
        }
    }

    /// Adds a line, and returns whether it is allowed after the lines so far and before the lines that follow.
    ///
    /// Its clauses speak of all lines before it, the last one first.
    fn add(&mut self, line: LineForm, next: &[Entry]) -> Result<bool, NoMemory>
        ensures fits { (before : List TheLine) → self.old ≡ kept.lines_of before → IfOk result (λ fits. fits ≡ spec.fits before line next.now) }
        ensures kept { (before : List TheLine) → self.old ≡ kept.lines_of before → OnOk result (self.new ≡ kept.lines_of (line ∷ before)) }
    {
        leave(&mut self.bodies, line.column);
        let beside = body_at(&self.bodies, line.column);
        let kind = kind_at(&self.bodies, line.column);
        let fits = fits(line, self.nearest, beside, kind, next);
        add_line(&mut self.bodies, line)?;
        self.nearest = Some(line);
        Ok(fits)
    }
}

/// Whether the line is allowed after the lines before it and before the lines that follow.
fn fits(
    line: LineForm,
    nearest: Option<LineForm>,
    beside: Option<Body>,
    kind: BodyKind,
    next: &[Entry],
) -> bool
    ensures { (before : List TheLine) → nearest ≡ kept.nearest_of before → IsBodyOf (spec.beside before line) beside → kind ≡ spec.kind_of before line → result ≡ spec.fits before line next.now }
{
    is_aligned(line, nearest, beside)
        && is_complete(line, next)
        && is_allowed(line, kind)
        && may_follow(line.form, beside)
        && (needs_no_decorator(line.form) || is_decorated(line, nearest))
        && may_precede(line, next)
}

/// Whether the line continues an open body, or begins the body of the header directly before it.
fn is_aligned(line: LineForm, nearest: Option<LineForm>, beside: Option<Body>) -> bool
    ensures { (before : List TheLine) → nearest ≡ kept.nearest_of before → IsBodyOf (spec.beside before line) beside → result ≡ spec.is_aligned before line }
{
    beside.is_some() || begins_body(line.column, nearest)
}

/// Whether a line at this column begins the body of the header directly before it.
fn begins_body(column: u32, nearest: Option<LineForm>) -> bool
    ensures { (before : List TheLine) → nearest ≡ kept.nearest_of before → result ≡ spec.begins_body column before }
{
    match nearest {
        Some(header) => header.column < column && matches!(header.after_colon, AfterColon::Body),
        None => column == 0,
    }
}

/// Whether the line is allowed in a body of this kind, and what follows its colon in the body that it begins.
fn is_allowed(line: LineForm, kind: BodyKind) -> bool
    ensures { result ≡ (kinds.allows kind line.form && kinds.allows_after_colon (kinds.body_of kind line.form) line.after_colon) }
{
    kind.allows(line.form) && kind.body_of(line.form).allows_after_colon(line.after_colon)
}

/// Whether the line has a body, if it needs one.
fn is_complete(line: LineForm, next: &[Entry]) -> bool
    ensures { result ≡ spec.is_complete line next.now }
{
    !matches!(line.after_colon, AfterColon::Body)
        || match next.first() {
            Some(next) => next.column > line.column,
            None => false,
        }
}

/// Whether a line of this form is allowed after the earlier lines of its body.
fn may_follow(form: Form, beside: Option<Body>) -> bool
    ensures { (lines : List TheLine) → IsBodyOf lines beside → result ≡ spec.may_follow form lines }
{
    match form {
        Form::Elif | Form::Else => match beside {
            Some(body) => matches!(body.last, Form::If | Form::Elif),
            None => false,
        },
        Form::Construct => match beside {
            Some(body) => !body.has_construct,
            None => true,
        },
        _ => true,
    }
}

/// Whether a line of this form needs no decorator.
fn needs_no_decorator(form: Form) -> bool
    ensures { result ≡ spec.needs_no_decorator form }
{
    !matches!(form, Form::BitstructClass | Form::Block)
}

/// Whether the line directly before decorates this line.
fn is_decorated(line: LineForm, nearest: Option<LineForm>) -> bool
    ensures { (before : List TheLine) → nearest ≡ kept.nearest_of before → result ≡ spec.is_decorated before line }
{
    match nearest {
        Some(decorator) => {
            decorator.column == line.column && decorates(decorator.form, line.form)
        }
        None => false,
    }
}

/// Whether the decorator decorates lines of this form.
fn decorates(decorator: Form, form: Form) -> bool
    ensures { result ≡ spec.decorates decorator form }
{
    match decorator {
        Form::BitstructDecorator => matches!(form, Form::BitstructClass),
        Form::BlockDecorator => matches!(form, Form::Block),
        Form::Guard => matches!(form, Form::Method),
        _ => false,
    }
}

/// Whether the line is allowed before these lines.
fn may_precede(line: LineForm, next: &[Entry]) -> bool
    ensures { result ≡ spec.may_precede line.column line.form next.now }
{
    match line.form {
        Form::BitstructDecorator | Form::BlockDecorator | Form::Guard | Form::OtherDecorator => {
            decorates_next(line, next)
        }
        Form::Return => is_last(line.column, next),
        _ => true,
    }
}

/// Whether the decorator is allowed before the next line.
fn decorates_next(line: LineForm, next: &[Entry]) -> bool
    ensures { result ≡ spec.decorates_next line.column line.form next.now }
{
    match next.first() {
        Some(next) => {
            next.column >= line.column && decorates_statement(line.form, &next.statement)
        }
        None => false,
    }
}

/// Whether the statement is what the decorator decorates. A line that spells no statement is at fault itself.
fn decorates_statement(decorator: Form, statement: &Option<Stmt>) -> bool
    ensures { result ≡ spec.decorates_statement decorator statement.now }
{
    match statement {
        Some(statement) => decorates(decorator, form_of(statement)),
        None => true,
    }
}

/// Whether a body at this column ends before these lines, except for deeper ones.
///
/// A deeper line directly after a `return` is a fault of one of the two. So at most one call for a file looks at more
/// than one line.
fn is_last(column: u32, next: &[Entry]) -> bool
    ensures { result ≡ spec.is_last column next.now }
{
    for entry in next {
        if entry.column <= column {
            return entry.column < column;
        }
    }
    true
}
