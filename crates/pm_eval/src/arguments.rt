//! What a call looks at before its arguments have values: names, and literals.
ghost use Rattle.std.specs.Prelude.{◌≡◌, map, IfOk};
ghost use Rattle.std.specs.Option.{option_copied};
ghost use Rattle.pm_elab.specs.Constructs.{make_at};
ghost use Rattle.pm_elab.specs.Expressions as spec;
ghost use Rattle.pm_elab.specs.Sites.{site_of};
ghost use Rattle.pm_eval.specs.Arguments.{lone_of};

use crate::function::function_named;
use crate::places::block_named;
use pm_design::Term;
use pm_elab::{Function, Site};
use pm_io::{NoMemory, Text};
use pm_names::named;
use pm_syn::{Arg, Expr};
use std::alloc::Global;

// The name that the expression is alone.
#[tactic(auto, using(crate::proofs::Meanings::forms))]
fn name_in(level: Option<usize>, e: &Expr) -> Option<&[u8]>
    ensures { option_copied result ≡ (spec.meaning (make_at level) e.now).name }
{
    match e {
        Expr::Name(name) => Some(name.as_slice()),
        Expr::Int(_)
        | Expr::Bool(_)
        | Expr::Unary(_, _)
        | Expr::Binary(_, _, _)
        | Expr::Cond(_, _, _)
        | Expr::Attr(_, _)
        | Expr::Call(_, _)
        | Expr::Index(_, _)
        | Expr::Slice(_, _, _)
        | Expr::Items(_)
        | Expr::Each(_, _, _) => None,
    }
}

// The number that the expression is alone.
#[tactic(auto, using(crate::proofs::Meanings::forms))]
fn literal_in(level: Option<usize>, e: &Expr) -> Option<u128>
    ensures { result ≡ (spec.meaning (make_at level) e.now).literal }
{
    match e {
        Expr::Int(number) => Some(*number),
        Expr::Name(_)
        | Expr::Bool(_)
        | Expr::Unary(_, _)
        | Expr::Binary(_, _, _)
        | Expr::Cond(_, _, _)
        | Expr::Attr(_, _)
        | Expr::Call(_, _)
        | Expr::Index(_, _)
        | Expr::Slice(_, _, _)
        | Expr::Items(_)
        | Expr::Each(_, _, _) => None,
    }
}

/// The function that the expression names.
pub fn function_in(level: Option<usize>, site: &Site<'_>, e: &Expr) -> Option<Function>
    ensures { result ≡ spec.function_by (site_of site.now) (spec.meaning (make_at level) e.now).name }
{
    let name = name_in(level, e)?;
    match named(site, name) {
        Some(_) => None,
        None => function_named(name),
    }
}

// The one argument, if it is alone and names no parameter.
fn lone(arguments: &[Arg]) -> Option<&Expr>
    ensures { option_copied result ≡ lone_of arguments.now }
{
    match arguments {
        [argument] if argument.name.is_none() => Some(&argument.value),
        _ => None,
    }
}

// The name that is the one argument, which names no parameter.
#[tactic(auto, using(crate::proofs::LoneArguments::lone_name, crate::proofs::LoneArguments::no_name))]
fn only_name(level: Option<usize>, arguments: &[Arg]) -> Option<&[u8]>
    ensures { option_copied result ≡ spec.only_name (map (spec.passed (make_at level)) arguments.now) }
{
    name_in(level, lone(arguments)?)
}

/// The literal that is the one argument, which names no parameter.
#[tactic(auto, using(crate::proofs::LoneArguments::lone_literal, crate::proofs::LoneArguments::no_literal))]
pub fn only_literal(level: Option<usize>, arguments: &[Arg]) -> Option<u128>
    ensures { result ≡ spec.only_literal (map (spec.passed (make_at level)) arguments.now) }
{
    literal_in(level, lone(arguments)?)
}

/// The block that the one argument names.
pub fn named_block(
    level: Option<usize>,
    site: &Site<'_>,
    arguments: &[Arg],
) -> Result<Option<Term>, NoMemory>
    ensures { IfOk result (λ term. term ≡ spec.named_block (site_of site.now) (spec.only_name (map (spec.passed (make_at level)) arguments.now))) }
{
    match only_name(level, arguments) {
        Some(name) => block_named(site, name),
        None => Ok(None),
    }
}

/// A copy of the name, if there is one.
pub fn copied_name(alloc: Global, name: &Option<Text>) -> Result<Option<Text>, NoMemory>
    ensures { IfOk result (λ copied. copied ≡ name.now) }
{
    match name {
        Some(name) => Ok(Some(Text::from_slice(alloc, name.as_slice())?)),
        None => Ok(None),
    }
}
