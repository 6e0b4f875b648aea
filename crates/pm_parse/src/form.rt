//! What the layout looks at in a line.
ghost use Rattle.std.specs.Prelude.{◌≡◌};
ghost use Rattle.pm_parse.specs.Forms as spec;

use pm_io::{Boxed, Text};
use pm_syn::{AssignOp, Expr, Stmt};

/// The form of a statement: what decides where it is allowed.
#[derive(Clone, Copy)]
pub(crate) enum Form {
    Import,
    /// A string alone.
    Doc,
    Pass,
    /// `NAME = e`.
    NameAssignment,
    /// `e = e`, where the target is no name.
    Assignment,
    /// `e @= e` or `e <<= e`.
    SignalAssignment,
    /// `e //= e`, also with a lambda.
    Connection,
    /// `NAME : e`.
    Field,
    /// `e : e`, where the target is no name.
    Annotation,
    /// `e : e = e`.
    State,
    /// A call alone.
    Call,
    /// Another expression alone.
    Expression,
    Assert,
    Return,
    If,
    Elif,
    Else,
    For,
    /// A class with the base `Component`.
    ComponentClass,
    /// A class with the base `Interface`.
    InterfaceClass,
    /// A class without a base.
    BitstructClass,
    /// A class with another base.
    OtherClass,
    /// `def construct` with the parameter `s`.
    Construct,
    /// Another function with the parameter `s`.
    Method,
    /// A function without parameters.
    Block,
    /// `@bitstruct`.
    BitstructDecorator,
    /// `@update`, `@update_ff` or `@update_once`.
    BlockDecorator,
    /// `@non_blocking( .. )`.
    Guard,
    /// Another decorator.
    OtherDecorator,
}

/// What follows the colon of a header.
#[derive(Clone, Copy)]
pub(crate) enum AfterColon {
    /// The line is no header.
    NoColon,
    /// Nothing: deeper lines are the header's body.
    Body,
    /// A statement of this form, which is the header's body.
    Statement(Form),
}

/// A line as the layout sees it.
#[derive(Clone, Copy)]
pub(crate) struct LineForm {
    pub column: u32,
    pub form: Form,
    pub after_colon: AfterColon,
}

impl LineForm {
    /// The line with this statement, at this column.
    pub(crate) fn new(column: u32, statement: &Stmt) -> LineForm
        ensures { result ≡ spec.line_of column statement.now }
    {
        LineForm {
            column,
            form: form_of(statement),
            after_colon: after_colon_of(statement),
        }
    }
}

/// The form of the statement, whatever follows its colon.
pub(crate) fn form_of(statement: &Stmt) -> Form
    ensures { result ≡ spec.form_of statement.now }
{
    match statement {
        Stmt::Import => Form::Import,
        Stmt::Doc => Form::Doc,
        Stmt::Pass => Form::Pass,
        Stmt::Class(_, base) => class_form(base),
        Stmt::Def(name, has_self, _, _, _) => function_form(name.as_slice(), *has_self),
        Stmt::Mark(name) => decorator_form(name.as_slice()),
        Stmt::NonBlocking(_) => Form::Guard,
        Stmt::Return(_) => Form::Return,
        Stmt::Assert(_) => Form::Assert,
        Stmt::If(_, _) => Form::If,
        Stmt::Elif(_, _) => Form::Elif,
        Stmt::Else(_) => Form::Else,
        Stmt::For(_, _, _) => Form::For,
        Stmt::Assign(op, target, _) => assignment_form(*op, target),
        Stmt::JoinLambda(_, _) => Form::Connection,
        Stmt::Note(target, _, value) => annotation_form(target, value),
        Stmt::Do(e) => expression_form(e),
    }
}

/// What follows the colon of the statement, if it is a header.
fn after_colon_of(statement: &Stmt) -> AfterColon
    ensures { result ≡ spec.after_colon_of statement.now }
{
    match statement {
        Stmt::Class(_, _) => AfterColon::Body,
        Stmt::Def(_, _, _, _, inner)
        | Stmt::If(_, inner)
        | Stmt::Elif(_, inner)
        | Stmt::Else(inner)
        | Stmt::For(_, _, inner) => after_colon(inner),
        Stmt::Import
        | Stmt::Doc
        | Stmt::Pass
        | Stmt::Mark(_)
        | Stmt::NonBlocking(_)
        | Stmt::Return(_)
        | Stmt::Assert(_)
        | Stmt::Assign(_, _, _)
        | Stmt::JoinLambda(_, _)
        | Stmt::Note(_, _, _)
        | Stmt::Do(_) => AfterColon::NoColon,
    }
}

fn after_colon(inner: &Option<Boxed<Stmt>>) -> AfterColon
    ensures { result ≡ spec.after_colon inner.now }
{
    match inner {
        Some(statement) => AfterColon::Statement(form_of(statement.get())),
        None => AfterColon::Body,
    }
}

fn class_form(base: &Option<Text>) -> Form
    ensures { result ≡ spec.class_form base.now }
{
    match base {
        None => Form::BitstructClass,
        Some(base) if base.as_slice() == b"Component".as_slice() => Form::ComponentClass,
        Some(base) if base.as_slice() == b"Interface".as_slice() => Form::InterfaceClass,
        Some(_) => Form::OtherClass,
    }
}

fn function_form(name: &[u8], has_self: bool) -> Form
    ensures { result ≡ spec.function_form name.now has_self }
{
    if !has_self {
        Form::Block
    } else if name == b"construct".as_slice() {
        Form::Construct
    } else {
        Form::Method
    }
}

fn decorator_form(name: &[u8]) -> Form
    ensures { result ≡ spec.decorator_form name.now }
{
    if name == b"bitstruct".as_slice() {
        Form::BitstructDecorator
    } else if name == b"update".as_slice()
        || name == b"update_ff".as_slice()
        || name == b"update_once".as_slice()
    {
        Form::BlockDecorator
    } else {
        Form::OtherDecorator
    }
}

fn assignment_form(op: AssignOp, target: &Expr) -> Form
    ensures { result ≡ spec.assignment_form op target.now }
{
    match op {
        AssignOp::Plain if is_name(target) => Form::NameAssignment,
        AssignOp::Plain => Form::Assignment,
        AssignOp::Now | AssignOp::Next => Form::SignalAssignment,
        AssignOp::Join => Form::Connection,
    }
}

fn annotation_form(target: &Expr, value: &Option<Expr>) -> Form
    ensures { result ≡ spec.annotation_form target.now value.now }
{
    match value {
        Some(_) => Form::State,
        None if is_name(target) => Form::Field,
        None => Form::Annotation,
    }
}

fn expression_form(e: &Expr) -> Form
    ensures { result ≡ spec.expression_form e.now }
{
    if is_call(e) {
        Form::Call
    } else {
        Form::Expression
    }
}

fn is_name(e: &Expr) -> bool
    ensures { result ≡ spec.is_name e.now }
{
    match e {
        Expr::Name(_) => true,
        Expr::Int(_)
        | Expr::Bool(_)
        | Expr::Unary(_, _)
        | Expr::Binary(_, _, _)
        | Expr::Cond(_, _, _)
        | Expr::Attr(_, _)
        | Expr::Call(_, _)
        | Expr::Index(_, _)
        | Expr::Slice(_, _, _)
        | Expr::Items(_)
        | Expr::Each(_, _, _) => false,
    }
}

fn is_call(e: &Expr) -> bool
    ensures { result ≡ spec.is_call e.now }
{
    match e {
        Expr::Call(_, _) => true,
        Expr::Name(_)
        | Expr::Int(_)
        | Expr::Bool(_)
        | Expr::Unary(_, _)
        | Expr::Binary(_, _, _)
        | Expr::Cond(_, _, _)
        | Expr::Attr(_, _)
        | Expr::Index(_, _)
        | Expr::Slice(_, _, _)
        | Expr::Items(_)
        | Expr::Each(_, _, _) => false,
    }
}
