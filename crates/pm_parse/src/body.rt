//! The bodies that are open after some lines.
ghost use Rattle.std.specs.Prelude.{◌≡◌, ◌∷◌, OnOk, []};
ghost use Rattle.pm_parse.specs.OpenBodies as spec;

use crate::body_kind::BodyKind;
use crate::form::{Form, LineForm};
use pm_io::{NoMemory, Stack};

/// A body, with its lines so far.
#[derive(Clone, Copy)]
pub(crate) struct Body {
    /// The column of its lines.
    pub column: u32,
    pub kind: BodyKind,
    /// The form of its last line.
    pub last: Form,
    /// Whether one of its lines is a `construct`.
    pub has_construct: bool,
}

// The functions below take the open bodies, innermost first. The next line continues one of them, or begins the body of
// the innermost one's last line.

/// Closes the bodies that are deeper than this column.
pub(crate) fn leave(open_bodies: &mut Stack<Body>, column: u32)
    ensures { open_bodies.new ≡ spec.leave column open_bodies.old }
{
    while is_above(open_bodies, column) {
        open_bodies.pop();
    }
}

fn is_above(open_bodies: &Stack<Body>, column: u32) -> bool
    ensures { result ≡ spec.is_above column open_bodies.now }
{
    match open_bodies.top() {
        Some(body) => body.column > column,
        None => false,
    }
}

/// The body at this column, once the deeper ones are closed.
pub(crate) fn body_at(open_bodies: &Stack<Body>, column: u32) -> Option<Body>
    ensures { result ≡ spec.body_at column open_bodies.now }
{
    match open_bodies.top() {
        Some(body) if body.column == column => Some(*body),
        _ => None,
    }
}

/// The kind of the body that a line at this column is in, once the deeper bodies are closed.
pub(crate) fn kind_at(open_bodies: &Stack<Body>, column: u32) -> BodyKind
    ensures { result ≡ spec.kind_at column open_bodies.now }
{
    match open_bodies.top() {
        Some(body) => kind_in(body, column),
        None => BodyKind::File,
    }
}

/// The kind of the body that a line at this column is in, where this is the innermost body: its own, or that of its last line.
fn kind_in(innermost: &Body, column: u32) -> BodyKind
    ensures { result ≡ spec.kind_at column (innermost.now ∷ []) }
{
    if innermost.column == column {
        innermost.kind
    } else {
        innermost.kind.body_of(innermost.last)
    }
}

/// Adds a line, once the deeper bodies are closed.
pub(crate) fn add_line(open_bodies: &mut Stack<Body>, line: LineForm) -> Result<(), NoMemory>
    ensures { OnOk result (open_bodies.new ≡ spec.with_line line open_bodies.old) }
{
    let kind = kind_at(open_bodies, line.column);
    let has_construct = match body_at(open_bodies, line.column) {
        Some(body) => body.has_construct,
        None => false,
    };
    leave_at(open_bodies, line.column);
    open_bodies.push(Body {
        column: line.column,
        kind,
        last: line.form,
        has_construct: has_construct || matches!(line.form, Form::Construct),
    })
}

fn leave_at(open_bodies: &mut Stack<Body>, column: u32)
    ensures { open_bodies.new ≡ spec.leave_at column open_bodies.old }
{
    if body_at(open_bodies, column).is_some() {
        open_bodies.pop();
    }
}
