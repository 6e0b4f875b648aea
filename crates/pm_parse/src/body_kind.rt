//! Which forms of line are allowed in which body.
ghost use Rattle.std.specs.Prelude.{◌≡◌};
ghost use Rattle.pm_parse.specs.BodyKinds as spec;

use crate::form::{AfterColon, Form};

/// The kind of a body: the file itself, or what a header begins.
#[derive(Clone, Copy)]
pub(crate) enum BodyKind {
    File,
    /// A class with the base `Component`.
    Component,
    /// A class with the base `Interface`.
    Interface,
    /// A class without a base.
    Bitstruct,
    /// `def construct`, and each `if` and `for` in it.
    Construct,
    /// An update block and each `if` and `for` in it, and each `if` and `for` in a method.
    Block,
    /// A method.
    Method,
}

impl BodyKind {
    /// Whether a line of this form is allowed in the body.
    pub(crate) fn allows(self, form: Form) -> bool
        ensures { result ≡ spec.allows self form }
    {
        match self {
            BodyKind::File => matches!(
                form,
                Form::Import
                    | Form::Doc
                    | Form::NameAssignment
                    | Form::ComponentClass
                    | Form::InterfaceClass
                    | Form::BitstructClass
                    | Form::BitstructDecorator
            ),
            BodyKind::Component => matches!(
                form,
                Form::Doc | Form::Pass | Form::Construct | Form::Method | Form::Guard
            ),
            BodyKind::Interface => matches!(form, Form::Doc | Form::Pass | Form::Construct),
            BodyKind::Bitstruct => matches!(form, Form::Doc | Form::Field),
            BodyKind::Construct => is_in_construct(form),
            BodyKind::Block => is_in_block(form),
            BodyKind::Method => is_in_method(form),
        }
    }

    /// The kind of the body of a header of this form, which is in this body.
    pub(crate) fn body_of(self, header: Form) -> BodyKind
        ensures { result ≡ spec.body_of self header }
    {
        match header {
            Form::ComponentClass => BodyKind::Component,
            Form::InterfaceClass => BodyKind::Interface,
            Form::BitstructClass => BodyKind::Bitstruct,
            Form::Construct => BodyKind::Construct,
            Form::Method => BodyKind::Method,
            Form::Block => BodyKind::Block,
            _ => self.nested(),
        }
    }

    /// The kind of the body of an `if` or a `for`, which is in this body.
    fn nested(self) -> BodyKind
        ensures { result ≡ spec.nested self }
    {
        match self {
            BodyKind::Method => BodyKind::Block,
            other => other,
        }
    }

    /// Whether this is allowed after the colon of a header that begins the body.
    pub(crate) fn allows_after_colon(self, after_colon: AfterColon) -> bool
        ensures { result ≡ spec.allows_after_colon self after_colon }
    {
        match after_colon {
            AfterColon::Statement(form) => self.allows(form),
            AfterColon::Body | AfterColon::NoColon => true,
        }
    }
}

fn is_in_construct(form: Form) -> bool
    ensures { result ≡ spec.in_construct form }
{
    match form {
        Form::Assert | Form::Connection | Form::State | Form::BlockDecorator | Form::Block => true,
        other => is_in_function(other),
    }
}

fn is_in_method(form: Form) -> bool
    ensures { result ≡ spec.in_method form }
{
    match form {
        Form::Return => true,
        other => is_in_block(other),
    }
}

fn is_in_block(form: Form) -> bool
    ensures { result ≡ spec.in_block form }
{
    match form {
        Form::SignalAssignment => true,
        other => is_in_function(other),
    }
}

/// Whether a line of this form is allowed in `construct`, in blocks and in methods.
fn is_in_function(form: Form) -> bool
    ensures { result ≡ spec.in_function form }
{
    matches!(
        form,
        Form::Doc
            | Form::Pass
            | Form::NameAssignment
            | Form::Assignment
            | Form::Call
            | Form::If
            | Form::Elif
            | Form::Else
            | Form::For
    )
}
