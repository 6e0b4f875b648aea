//! The arguments of a call.
ghost use Rattle.std.specs.Prelude.{◌≡◌, map, is_some};
ghost use Rattle.std.specs.List.{list_any};
ghost use Rattle.std.specs.Option.{option_copied};
ghost use Rattle.pm_typing.specs.Expressions as spec;
ghost use Rattle.pm_type_expr.specs.Held.{lone_of};

use pm_syn::{Arg, Expr};

fn is_any_named(arguments: &[Arg]) -> bool
    ensures { result ≡ list_any (λ a. is_some a.name) arguments.now }
{
    arguments.iter().any(|argument| argument.name.is_some())
}

/// Whether an argument names a parameter.
#[tactic(auto, unfolding(pm_typing::specs::Expressions::any_named), using(crate::proofs::LoneArguments::any_passed))]
pub fn any_named(arguments: &[Arg]) -> bool
    ensures { result ≡ spec.any_named (map spec.passed arguments.now) }
{
    is_any_named(arguments)
}

/// Whether there is no argument.
pub fn is_bare(arguments: &[Arg]) -> bool
    ensures { result ≡ spec.is_bare (map spec.passed arguments.now) }
{
    match arguments {
        [] => true,
        [_, ..] => false,
    }
}

// The number that the expression is alone.
#[tactic(auto, using(crate::proofs::Meanings::forms))]
fn literal_in(e: &Expr) -> Option<u128>
    ensures { result ≡ (spec.meaning e.now).literal }
{
    match e {
        Expr::Int(number) => Some(*number),
        Expr::Name(_)
        | Expr::Bool(_)
        | Expr::Unary(_, _)
        | Expr::Binary(_, _, _)
        | Expr::Cond(_, _, _)
        | Expr::Attr(_, _)
        | Expr::Call(_, _)
        | Expr::Index(_, _)
        | Expr::Slice(_, _, _)
        | Expr::Items(_)
        | Expr::Each(_, _, _) => None,
    }
}

/// The one argument, if it is alone and names no parameter.
pub fn lone(arguments: &[Arg]) -> Option<&Expr>
    ensures { option_copied result ≡ lone_of arguments.now }
{
    match arguments {
        [argument] if argument.name.is_none() => Some(&argument.value),
        _ => None,
    }
}

/// The literal that is the one argument, which names no parameter.
#[tactic(auto, using(crate::proofs::LoneArguments::lone_literal, crate::proofs::LoneArguments::no_literal))]
pub fn only_literal(arguments: &[Arg]) -> Option<u128>
    ensures { result ≡ spec.only_literal (map spec.passed arguments.now) }
{
    literal_in(lone(arguments)?)
}
