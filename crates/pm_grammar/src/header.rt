//! Reading headers: the lines that a body follows, imports and decorators.
ghost use Rattle.std.specs.Prelude.{◌≡◌, ◌↔◌, IfOk, IfSome, IsTrue, List as TheList, MatchOption, Some, codes};
ghost use Rattle.pm_syn.specs.declared.statement.Stmt.{Stmt as TheStmt};
ghost use Rattle.pm_syn.specs.declared.token.Token.{Token as TheToken};
ghost use Rattle.pm_grammar.specs.Brackets.{ends_argument};
ghost use Rattle.pm_grammar.specs.Headers.{IsCondition, IsGuard, IsImport, IsOnlyOptional, IsSignature, OpensGuard, SpellsBase, SpellsBranch, SpellsClass, SpellsDecorator, SpellsDefinition, SpellsDequeImport, SpellsFor, SpellsFunctionEnd, SpellsImport};
ghost use Rattle.pm_grammar.specs.Headers as headers;
ghost use Rattle.pm_grammar.specs.Statements.{SpellsEnd, SpellsLine, SpellsNames, SpellsOptional, SpellsParameter, SpellsResult};
ghost use Rattle.pm_grammar.specs.Readings.{Gives, GivesEach, Leaves, Reads, ReadsEachBefore, ReadsEachUpTo};

use crate::operand::range;
use crate::operation::expression;
use crate::reading::{ReadFault, Reading, Whole};
use crate::simple::simple;
use crate::tokens::{after_name, after_symbol, after_word, begins_with_symbol, is_symbol, is_word};
use pm_io::{Boxed, List, NoMemory, Text};
use pm_syn::{Expr, Par, Stmt, Token};
use std::alloc::Global;

/// The statement that the tokens of a logical line spell, however deep its expressions are.
pub fn statement(alloc: Global, tokens: &[Token]) -> Result<Option<Stmt>, NoMemory>
    ensures found { IfOk result (λ o. IfSome o (λ s. SpellsLine tokens.now s)) }
    ensures only { IfOk result (λ o. (s : TheStmt) → SpellsLine tokens.now s → o ≡ Some s) }
{
    match line(alloc, tokens) {
        Ok(statement) => Ok(Some(statement)),
        Err(ReadFault::NotSpelled) => Ok(None),
        Err(ReadFault::NoMemory) => Err(NoMemory),
    }
}

/// Reads a logical line.
fn line(alloc: Global, tokens: &[Token]) -> Whole<Stmt>
    ensures found { Gives (SpellsLine tokens.now) result }
    ensures only { GivesEach (SpellsLine tokens.now) result }
{
    let Some((first, tail)) = tokens.split_first() else {
        return Err(ReadFault::NotSpelled);
    };
    if is_symbol(b"@", first) {
        decorator(alloc, tail)
    } else if is_word(b"from", first) {
        import(tail)
    } else if is_word(b"class", first) {
        class(alloc, tail)
    } else if is_word(b"def", first) {
        definition(alloc, tail)
    } else if is_word(b"for", first) {
        for_header(alloc, tail)
    } else {
        branch(alloc, tokens)
    }
}

/// Reads a header of `if`, `elif` or `else`, or a simple statement.
fn branch(alloc: Global, tokens: &[Token]) -> Whole<Stmt>
    ensures found { Gives (SpellsBranch tokens.now) result }
    ensures only { GivesEach (SpellsBranch tokens.now) result }
{
    if let Some(tail) = after_word(tokens, b"if") {
        let (condition, body) = condition(alloc, tail)?;
        return Ok(Stmt::If(condition.into_inner(), body));
    }
    if let Some(tail) = after_word(tokens, b"elif") {
        let (condition, body) = condition(alloc, tail)?;
        return Ok(Stmt::Elif(condition.into_inner(), body));
    }
    if let Some(tail) = after_word(tokens, b"else") {
        let body = header_end(alloc, tail)?;
        return Ok(Stmt::Else(body));
    }
    simple(alloc, tokens)
}

/// Reads a condition and the end of its header.
fn condition(alloc: Global, tokens: &[Token]) -> Whole<(Boxed<Expr>, Option<Boxed<Stmt>>)>
    ensures found { Gives (λ p. IsCondition tokens.now p.0 p.1) result }
    ensures only { GivesEach (λ p. IsCondition tokens.now p.0 p.1) result }
{
    let (condition, rest) = expression(alloc, tokens)?;
    let body = header_end(alloc, rest)?;
    Ok((condition, body))
}

/// Reads the end of a header: a colon, and a simple statement or none.
fn header_end(alloc: Global, tokens: &[Token]) -> Whole<Option<Boxed<Stmt>>>
    ensures found { Gives (SpellsEnd tokens.now) result }
    ensures only { GivesEach (SpellsEnd tokens.now) result }
{
    let Some(tail) = after_symbol(tokens, b":") else {
        return Err(ReadFault::NotSpelled);
    };
    if tail.is_empty() {
        return Ok(None);
    }
    let statement = simple(alloc, tail)?;
    Ok(Some(Boxed::new(alloc, statement)?))
}

/// Reads what comes after `from`.
fn import(tokens: &[Token]) -> Whole<Stmt>
    ensures found { Gives (IsImport tokens.now) result }
    ensures only { GivesEach (IsImport tokens.now) result }
{
    if is_import(tokens) {
        Ok(Stmt::Import)
    } else {
        Err(ReadFault::NotSpelled)
    }
}

/// Whether the tokens may follow `from`.
fn is_import(tokens: &[Token]) -> bool
    ensures { IsTrue result ↔ SpellsImport tokens.now }
{
    if let Some(tail) = after_word(tokens, b"pymtl3") {
        return match after_word(tail, b"import") {
            Some(names) => are_names(names) || is_lone_symbol(names, b"*"),
            None => false,
        };
    }
    is_deque_import(tokens)
}

/// Whether the symbol is the only token.
fn is_lone_symbol(tokens: &[Token], symbol: &[u8]) -> bool
    ensures { result ≡ headers.is_lone symbol.now tokens.now }
{
    match after_symbol(tokens, symbol) {
        Some(rest) => rest.is_empty(),
        None => false,
    }
}

/// Whether the tokens are `collections import deque`.
fn is_deque_import(tokens: &[Token]) -> bool
    ensures { IsTrue result ↔ SpellsDequeImport tokens.now }
{
    let Some(tail) = after_word(tokens, b"collections") else {
        return false;
    };
    let Some(tail) = after_word(tail, b"import") else {
        return false;
    };
    match after_word(tail, b"deque") {
        Some(rest) => rest.is_empty(),
        None => false,
    }
}

/// Whether the tokens are names with commas between them.
fn are_names(tokens: &[Token]) -> bool
    ensures { IsTrue result ↔ SpellsNames tokens.now }
{
    let Some((_, mut rest)) = after_name(tokens) else {
        return false;
    };
    'names: while let Some(tail) = after_symbol(rest, b",") {
        let Some((_, after)) = after_name(tail) else {
            return false;
        };
        rest = after;
    }
    rest.is_empty()
}

/// Reads what comes after `class`.
fn class(alloc: Global, tokens: &[Token]) -> Whole<Stmt>
    ensures found { Gives (SpellsClass tokens.now) result }
    ensures only { GivesEach (SpellsClass tokens.now) result }
{
    let Some((name, rest)) = after_name(tokens) else {
        return Err(ReadFault::NotSpelled);
    };
    if is_lone_symbol(rest, b":") {
        return Ok(Stmt::Class(Text::from_slice(alloc, name.text.as_slice())?, None));
    }
    let Some(base) = base(rest) else {
        return Err(ReadFault::NotSpelled);
    };
    let name = Text::from_slice(alloc, name.text.as_slice())?;
    let base = Text::from_slice(alloc, base.text.as_slice())?;
    Ok(Stmt::Class(name, Some(base)))
}

/// The base of a class in parentheses, and a colon after it.
fn base(tokens: &[Token]) -> Option<&Token>
    ensures { MatchOption result ((base : TheToken) → SpellsBase tokens.now base → ⊥) (λ base. SpellsBase tokens.now base.now) }
{
    let tail = after_symbol(tokens, b"(")?;
    let (base, rest) = after_name(tail)?;
    let rest = after_symbol(rest, b")")?;
    if is_lone_symbol(rest, b":") {
        Some(base)
    } else {
        None
    }
}

/// Reads what comes after `@`.
fn decorator(alloc: Global, tokens: &[Token]) -> Whole<Stmt>
    ensures found { Gives (SpellsDecorator tokens.now) result }
    ensures only { GivesEach (SpellsDecorator tokens.now) result }
{
    let Some((name, rest)) = after_name(tokens) else {
        return Err(ReadFault::NotSpelled);
    };
    if rest.is_empty() {
        return Ok(Stmt::Mark(Text::from_slice(alloc, name.text.as_slice())?));
    }
    if !is_word(b"non_blocking", name) {
        return Err(ReadFault::NotSpelled);
    }
    let Some(tail) = after_guard_opening(rest) else {
        return Err(ReadFault::NotSpelled);
    };
    let condition = guard(alloc, tail)?;
    Ok(Stmt::NonBlocking(condition.into_inner()))
}

/// What comes after `( lambda s:`, if the tokens begin with it.
fn after_guard_opening(tokens: &[Token]) -> Option<&[Token]>
    ensures { MatchOption result ((tail : TheList TheToken) → OpensGuard tokens.now tail → ⊥) (λ tail. OpensGuard tokens.now tail.now) }
{
    let tail = after_symbol(tokens, b"(")?;
    let tail = after_word(tail, b"lambda")?;
    let tail = after_word(tail, b"s")?;
    after_symbol(tail, b":")
}

/// Reads the expression of a guard, and the closing parenthesis.
fn guard(alloc: Global, tokens: &[Token]) -> Whole<Boxed<Expr>>
    ensures found { Gives (IsGuard tokens.now) result }
    ensures only { GivesEach (IsGuard tokens.now) result }
{
    let (condition, rest) = expression(alloc, tokens)?;
    if is_lone_symbol(rest, b")") {
        Ok(condition)
    } else {
        Err(ReadFault::NotSpelled)
    }
}

/// Reads what comes after `for`.
fn for_header(alloc: Global, tokens: &[Token]) -> Whole<Stmt>
    ensures found { Gives (SpellsFor tokens.now) result }
    ensures only { GivesEach (SpellsFor tokens.now) result }
{
    let (range, rest) = range(alloc, tokens)?;
    let body = header_end(alloc, rest)?;
    let (name, bounds) = range;
    Ok(Stmt::For(name, bounds, body))
}

/// Reads what comes after `def`.
fn definition(alloc: Global, tokens: &[Token]) -> Whole<Stmt>
    ensures found { Gives (SpellsDefinition tokens.now) result }
    ensures only { GivesEach (SpellsDefinition tokens.now) result }
{
    let Some((name, rest)) = after_name(tokens) else {
        return Err(ReadFault::NotSpelled);
    };
    let Some(rest) = after_symbol(rest, b"(") else {
        return Err(ReadFault::NotSpelled);
    };
    let name = Text::from_slice(alloc, name.text.as_slice())?;
    let (signature, rest) = signature(alloc, rest)?;
    let (note, body) = function_end(alloc, rest)?;
    let (has_self, parameters) = signature;
    Ok(Stmt::Def(name, has_self, parameters, unboxed(note), body))
}

/// Reads the end of a function's header, from the closing parenthesis.
fn function_end(
    alloc: Global,
    tokens: &[Token],
) -> Whole<(Option<Boxed<Expr>>, Option<Boxed<Stmt>>)>
    ensures found { Gives (λ p. SpellsFunctionEnd tokens.now p.0 p.1) result }
    ensures only { GivesEach (λ p. SpellsFunctionEnd tokens.now p.0 p.1) result }
{
    let Some(rest) = after_symbol(tokens, b")") else {
        return Err(ReadFault::NotSpelled);
    };
    let (note, rest) = result_note(alloc, rest)?;
    let body = header_end(alloc, rest)?;
    Ok((note, body))
}

/// Reads what comes between the parentheses of a function: whether `s` is its first parameter, and the others.
fn signature(alloc: Global, tokens: &[Token]) -> Reading<'_, (bool, List<Par>)>
    ensures found { Reads IsSignature tokens.now result }
    ensures only { ReadsEachBefore IsSignature (codes ")") tokens.now result }
{
    let mut parameters = List::new(alloc);
    let Some(mut rest) = after_word(tokens, b"s") else {
        return Ok(((false, parameters), tokens));
    };
    'parameters: while let Some(tail) = after_symbol(rest, b",") {
        if begins_with_symbol(tail, b")") {
            return Ok(((true, parameters), tail));
        }
        let (parameter, after) = parameter(alloc, tail)?;
        parameters.push(parameter)?;
        rest = after;
    }
    Ok(((true, parameters), rest))
}

/// Reads a parameter, with its annotation and its default.
fn parameter(alloc: Global, tokens: &[Token]) -> Reading<'_, Par>
    ensures found { Reads SpellsParameter tokens.now result }
    ensures only { ReadsEachUpTo SpellsParameter ends_argument tokens.now result }
{
    let Some((name, rest)) = after_name(tokens) else {
        return Err(ReadFault::NotSpelled);
    };
    let name = Text::from_slice(alloc, name.text.as_slice())?;
    let (note, rest) = optional(alloc, rest, b":")?;
    let (default, rest) = optional(alloc, rest, b"=")?;
    let note = unboxed(note);
    let default = unboxed(default);
    Ok((
        Par {
            name,
            note,
            default,
        },
        rest,
    ))
}

/// Takes an expression out of its box, if there is one.
fn unboxed(tree: Option<Boxed<Expr>>) -> Option<Expr>
    ensures { result ≡ tree }
{
    match tree {
        Some(tree) => Some(tree.into_inner()),
        None => None,
    }
}

/// Reads this symbol and an expression, if the tokens begin with the symbol.
fn optional<'a>(
    alloc: Global,
    tokens: &'a [Token],
    symbol: &[u8],
) -> Reading<'a, Option<Boxed<Expr>>>
    ensures found { Reads (SpellsOptional symbol.now) tokens.now result }
    ensures only { Leaves (IsOnlyOptional symbol.now tokens.now) result }
{
    let Some(tail) = after_symbol(tokens, symbol) else {
        return Ok((None, tokens));
    };
    let (tree, rest) = expression(alloc, tail)?;
    Ok((Some(tree), rest))
}

/// Reads the annotation of a function's result, if it has one.
fn result_note(alloc: Global, tokens: &[Token]) -> Reading<'_, Option<Boxed<Expr>>>
    ensures found { Reads SpellsResult tokens.now result }
    ensures only { ReadsEachBefore SpellsResult (codes ":") tokens.now result }
{
    let Some(tail) = after_symbol(tokens, b"->") else {
        return Ok((None, tokens));
    };
    if let Some(rest) = after_word(tail, b"None") {
        return Ok((None, rest));
    }
    let (tree, rest) = expression(alloc, tail)?;
    Ok((Some(tree), rest))
}
