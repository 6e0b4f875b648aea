//! Reading expressions: operands, with the signs before them and the suffixes after them.
ghost use Rattle.std.specs.Prelude.{◌≡◌, IfOk, IsTrue, List as TheList, MatchOption, codes};
ghost use Rattle.pm_grammar.specs.Expressions.{Spells, SpellsArgument, SpellsArguments, SpellsRange};
ghost use Rattle.pm_grammar.specs.Brackets.{IsItemsAfter, IsNoParameter, IsOnlyItems, IsParameter, OpensArgument, OpensRange, SpellsAttribute, SpellsBounds, SpellsEach, SpellsGroup, SpellsLeaf, SpellsList, SpellsSubscript, ends_argument};
ghost use Rattle.pm_grammar.specs.Suffixes.{SpellsSuffix};
ghost use Rattle.pm_grammar.specs.Suffixes as suffixes;
ghost use Rattle.pm_grammar.specs.declared.level.Level.TheVariants as level;
ghost use Rattle.pm_syn.specs.declared.token.Token.{Token as TheToken};
ghost use Rattle.pm_grammar.specs.Readings.{Gives, GivesEach, KeepsOrShortens, Leaves, Reads, ReadsEach, ReadsEachBefore, ReadsEachExpression, ReadsEachUpTo, Shortens};

use crate::operation::expression;
use crate::operator::sign_of;
use crate::reading::{ReadFault, Reading, Whole, boxed};
use crate::tokens::{
    after_name, after_symbol, after_word, begins_with_symbol, is_name, is_symbol, is_word,
};
use pm_io::{Boxed, List, NoMemory, Text};
use pm_syn::{Arg, BinaryOp, Expr, Token, TokenKind, UnaryOp};
use std::alloc::Global;

/// Reads an operand with the signs before it.
#[cycle(parse)]
pub(crate) fn signed(alloc: Global, tokens: &[Token]) -> Reading<'_, Boxed<Expr>>
    ensures found { Reads (Spells level.Unary) tokens.now result }
    ensures only { ReadsEachExpression level.Unary tokens.now result }
    ensures shorter { Shortens tokens.now result }
{
    let Some((first, tail)) = tokens.split_first() else {
        return Err(ReadFault::NotSpelled);
    };
    let Some(sign) = sign_of(first) else {
        return power(alloc, tokens);
    };
    let (operand, rest) = signed(alloc, tail)?;
    boxed(alloc, Expr::Unary(sign, operand), rest)
}

/// Reads an operand with its suffixes, and its exponent.
#[cycle(parse)]
fn power(alloc: Global, tokens: &[Token]) -> Reading<'_, Boxed<Expr>>
    ensures found { Reads (Spells level.Power) tokens.now result }
    ensures only { ReadsEachExpression level.Power tokens.now result }
    ensures shorter { Shortens tokens.now result }
{
    let (base, rest) = suffixed(alloc, tokens)?;
    let Some(tail) = after_symbol(rest, b"**") else {
        return Ok((base, rest));
    };
    let (exponent, rest) = signed(alloc, tail)?;
    boxed(alloc, Expr::Binary(BinaryOp::Pow, base, exponent), rest)
}

/// Reads an atom with its attributes, calls, indexes and slices.
#[cycle(parse)]
fn suffixed(alloc: Global, tokens: &[Token]) -> Reading<'_, Boxed<Expr>>
    ensures found { Reads (Spells level.Postfix) tokens.now result }
    ensures only { ReadsEachExpression level.Postfix tokens.now result }
    ensures shorter { Shortens tokens.now result }
{
    let (mut tree, mut rest) = atom(alloc, tokens)?;
    'suffixes: while begins_suffix(rest) {
        let (longer, after) = suffix(alloc, tree, rest)?;
        tree = longer;
        rest = after;
    }
    Ok((tree, rest))
}

/// Whether the tokens begin an attribute, a call, an index or a slice.
fn begins_suffix(tokens: &[Token]) -> bool
    ensures { result ≡ suffixes.begins_suffix tokens.now }
{
    match tokens.first() {
        Some(first) => is_symbol(b".", first) || is_symbol(b"(", first) || is_symbol(b"[", first),
        None => false,
    }
}

/// Reads one suffix of an expression.
#[cycle(parse)]
fn suffix(alloc: Global, tree: Boxed<Expr>, tokens: &[Token]) -> Reading<'_, Boxed<Expr>>
    requires { IsTrue (suffixes.begins_suffix tokens.now) }
    ensures found { Reads (SpellsSuffix tree) tokens.now result }
    ensures only { ReadsEach (SpellsSuffix tree) tokens.now result }
    ensures shorter { Shortens tokens.now result }
{
    if let Some(tail) = after_symbol(tokens, b".") {
        return attribute(alloc, tree, tail);
    }
    if let Some(tail) = after_symbol(tokens, b"(") {
        let (arguments, rest) = arguments(alloc, tail)?;
        let Some(rest) = after_symbol(rest, b")") else {
            return Err(ReadFault::NotSpelled);
        };
        return boxed(alloc, Expr::Call(tree, arguments), rest);
    }
    match after_symbol(tokens, b"[") {
        Some(tail) => subscript(alloc, tree, tail),
        None => Err(ReadFault::NotSpelled),
    }
}

/// Reads the name of an attribute after its dot.
fn attribute(alloc: Global, tree: Boxed<Expr>, tokens: &[Token]) -> Reading<'_, Boxed<Expr>>
    ensures found { Reads (SpellsAttribute tree) tokens.now result }
    ensures only { ReadsEach (SpellsAttribute tree) tokens.now result }
    ensures shorter { Shortens tokens.now result }
{
    let Some((name, rest)) = after_name(tokens) else {
        return Err(ReadFault::NotSpelled);
    };
    let name = Text::from_slice(alloc, name.text.as_slice())?;
    boxed(alloc, Expr::Attr(tree, name), rest)
}

/// Reads an index or the bounds of a slice after the opening bracket.
#[cycle(parse)]
fn subscript(alloc: Global, tree: Boxed<Expr>, tokens: &[Token]) -> Reading<'_, Boxed<Expr>>
    ensures found { Reads (SpellsSubscript tree) tokens.now result }
    ensures only { ReadsEach (SpellsSubscript tree) tokens.now result }
    ensures shorter { Shortens tokens.now result }
{
    let (low, rest) = expression(alloc, tokens)?;
    if let Some(rest) = after_symbol(rest, b"]") {
        return boxed(alloc, Expr::Index(tree, low), rest);
    }
    let Some(tail) = after_symbol(rest, b":") else {
        return Err(ReadFault::NotSpelled);
    };
    let (high, rest) = expression(alloc, tail)?;
    let Some(rest) = after_symbol(rest, b"]") else {
        return Err(ReadFault::NotSpelled);
    };
    boxed(alloc, Expr::Slice(tree, low, high), rest)
}

/// Reads a name, a number, a truth value, or what is in brackets.
#[cycle(parse)]
fn atom(alloc: Global, tokens: &[Token]) -> Reading<'_, Boxed<Expr>>
    ensures found { Reads (Spells level.Atom) tokens.now result }
    ensures only { ReadsEachExpression level.Atom tokens.now result }
    ensures shorter { Shortens tokens.now result }
{
    if let Some(tail) = after_symbol(tokens, b"(") {
        return group(alloc, tail);
    }
    if let Some(tail) = after_symbol(tokens, b"[") {
        return list(alloc, tail);
    }
    let Some((first, rest)) = tokens.split_first() else {
        return Err(ReadFault::NotSpelled);
    };
    let tree = leaf(alloc, first)?;
    boxed(alloc, tree, rest)
}

/// The expression that one token spells, if it spells one.
fn leaf(alloc: Global, token: &Token) -> Whole<Expr>
    ensures found { Gives (SpellsLeaf token.now) result }
    ensures only { GivesEach (SpellsLeaf token.now) result }
{
    if is_name(token) {
        return Ok(Expr::Name(Text::from_slice(alloc, token.text.as_slice())?));
    }
    if is_word(b"True", token) {
        return Ok(Expr::Bool(true));
    }
    if is_word(b"False", token) {
        return Ok(Expr::Bool(false));
    }
    match token.kind {
        TokenKind::Int(value) => Ok(Expr::Int(value)),
        TokenKind::Name | TokenKind::Str | TokenKind::Op => Err(ReadFault::NotSpelled),
    }
}

/// Reads an expression after an opening parenthesis, and the closing one.
#[cycle(parse)]
fn group(alloc: Global, tokens: &[Token]) -> Reading<'_, Boxed<Expr>>
    ensures found { Reads SpellsGroup tokens.now result }
    ensures only { ReadsEach SpellsGroup tokens.now result }
    ensures shorter { Shortens tokens.now result }
{
    let (tree, rest) = expression(alloc, tokens)?;
    let Some(rest) = after_symbol(rest, b")") else {
        return Err(ReadFault::NotSpelled);
    };
    Ok((tree, rest))
}

/// Reads a list after its opening bracket: its elements, or one expression for each number of a range.
#[cycle(parse)]
fn list(alloc: Global, tokens: &[Token]) -> Reading<'_, Boxed<Expr>>
    ensures found { Reads SpellsList tokens.now result }
    ensures only { ReadsEach SpellsList tokens.now result }
    ensures shorter { Shortens tokens.now result }
{
    if let Some(rest) = after_symbol(tokens, b"]") {
        return boxed(alloc, Expr::Items(List::new(alloc)), rest);
    }
    let (first, rest) = expression(alloc, tokens)?;
    if let Some(tail) = after_word(rest, b"for") {
        return each(alloc, first, tail);
    }
    let (items, rest) = more_items(alloc, first, rest)?;
    let Some(rest) = after_symbol(rest, b"]") else {
        return Err(ReadFault::NotSpelled);
    };
    boxed(alloc, Expr::Items(items), rest)
}

/// Reads the elements of a list after the first one. A comma may follow the last.
#[cycle(parse)]
fn more_items(alloc: Global, first: Boxed<Expr>, tokens: &[Token]) -> Reading<'_, List<Expr>>
    ensures found { IfOk result (λ p. IsItemsAfter first tokens.now p.0 p.1.now) }
    ensures only { Leaves (IsOnlyItems first tokens.now) result }
    ensures no_longer { KeepsOrShortens tokens.now result }
{
    let mut items = List::new(alloc);
    items.push(first.into_inner())?;
    let mut rest = tokens;
    'items: while let Some(tail) = after_symbol(rest, b",") {
        if begins_with_symbol(tail, b"]") {
            return Ok((items, tail));
        }
        let (item, after) = expression(alloc, tail)?;
        items.push(item.into_inner())?;
        rest = after;
    }
    Ok((items, rest))
}

/// Reads what comes after `for` in a list: the name, the range and the closing bracket.
#[cycle(parse)]
fn each(alloc: Global, tree: Boxed<Expr>, tokens: &[Token]) -> Reading<'_, Boxed<Expr>>
    ensures found { Reads (SpellsEach tree) tokens.now result }
    ensures only { ReadsEach (SpellsEach tree) tokens.now result }
    ensures shorter { Shortens tokens.now result }
{
    let (numbers, rest) = range(alloc, tokens)?;
    let Some(rest) = after_symbol(rest, b"]") else {
        return Err(ReadFault::NotSpelled);
    };
    let (name, bounds) = numbers;
    boxed(alloc, Expr::Each(tree, name, bounds), rest)
}

/// Reads `NAME in range( .. )`.
#[cycle(parse)]
pub(crate) fn range(alloc: Global, tokens: &[Token]) -> Reading<'_, (Text, List<Expr>)>
    ensures found { Reads SpellsRange tokens.now result }
    ensures only { ReadsEach SpellsRange tokens.now result }
    ensures shorter { Shortens tokens.now result }
{
    let Some((name, tail)) = range_opening(tokens) else {
        return Err(ReadFault::NotSpelled);
    };
    let (bounds, rest) = bounds(alloc, tail)?;
    let Some(rest) = after_symbol(rest, b")") else {
        return Err(ReadFault::NotSpelled);
    };
    Ok((
        (Text::from_slice(alloc, name.text.as_slice())?, bounds),
        rest,
    ))
}

/// The name with which `NAME in range(` begins, and what comes after it, if the tokens begin so.
fn range_opening(tokens: &[Token]) -> Option<(&Token, &[Token])>
    ensures { MatchOption result ((name : TheToken) (tail : TheList TheToken) → OpensRange tokens.now name tail → ⊥) (λ p. OpensRange tokens.now p.0.now p.1.now) }
{
    let (name, rest) = after_name(tokens)?;
    let rest = after_word(rest, b"in")?;
    let rest = after_word(rest, b"range")?;
    let tail = after_symbol(rest, b"(")?;
    Some((name, tail))
}

/// Reads the arguments of `range`: one to three.
#[cycle(parse)]
fn bounds(alloc: Global, tokens: &[Token]) -> Reading<'_, List<Expr>>
    ensures found { Reads SpellsBounds tokens.now result }
    ensures only { ReadsEachBefore SpellsBounds (codes ")") tokens.now result }
    ensures no_longer { KeepsOrShortens tokens.now result }
{
    let (first, mut rest) = expression(alloc, tokens)?;
    let mut bounds = List::new(alloc);
    bounds.push(first.into_inner())?;
    'bounds: while let Some(tail) = after_symbol(rest, b",") {
        let (bound, after) = expression(alloc, tail)?;
        if bounds.len() == 3 {
            return Err(ReadFault::NotSpelled);
        }
        bounds.push(bound.into_inner())?;
        rest = after;
    }
    Ok((bounds, rest))
}

/// Reads the arguments of a call up to its closing parenthesis. A comma may follow the last.
#[cycle(parse)]
fn arguments(alloc: Global, tokens: &[Token]) -> Reading<'_, List<Arg>>
    ensures found { Reads SpellsArguments tokens.now result }
    ensures only { ReadsEachBefore SpellsArguments (codes ")") tokens.now result }
    ensures no_longer { KeepsOrShortens tokens.now result }
{
    let mut arguments = List::new(alloc);
    let mut rest = tokens;
    'arguments: while !begins_with_symbol(rest, b")") {
        let (argument, after) = argument(alloc, rest)?;
        arguments.push(argument)?;
        match after_symbol(after, b",") {
            Some(tail) => rest = tail,
            None => return Ok((arguments, after)),
        }
    }
    Ok((arguments, rest))
}

/// Reads an argument, with or without the name of its parameter.
#[cycle(parse)]
fn argument(alloc: Global, tokens: &[Token]) -> Reading<'_, Arg>
    ensures found { Reads SpellsArgument tokens.now result }
    ensures only { ReadsEachUpTo SpellsArgument ends_argument tokens.now result }
    ensures shorter { Shortens tokens.now result }
{
    let (name, tail) = parameter_name(alloc, tokens)?;
    let (value, rest) = expression(alloc, tail)?;
    let value = value.into_inner();
    Ok((Arg { name, value }, rest))
}

/// The name with which an argument begins, if there is one, and the tokens of its value and after it.
fn parameter_name(alloc: Global, tokens: &[Token]) -> Result<(Option<Text>, &[Token]), NoMemory>
    ensures { IfOk result (λ p. OpensArgument tokens.now p.0 p.1.now) }
{
    let Some((name, tail)) = parameter(tokens) else {
        return Ok((None, tokens));
    };
    let name = Text::from_slice(alloc, name.text.as_slice())?;
    Ok((Some(name), tail))
}

/// The name of a parameter before `=`, and what comes after both.
fn parameter(tokens: &[Token]) -> Option<(&Token, &[Token])>
    ensures { MatchOption result (IsNoParameter tokens.now) (λ p. IsParameter tokens.now p.0.now p.1.now) }
{
    let (name, tail) = after_name(tokens)?;
    let tail = after_symbol(tail, b"=")?;
    Some((name, tail))
}
