//! Reading simple statements, which may follow a header on its line.
ghost use Rattle.std.specs.Prelude.{◌≡◌, ◌↔◌, ◌∷◌, IsTrue, MatchOption, Some, codes};
ghost use Rattle.pm_syn.specs.declared.token.Token.{Token as TheToken};
ghost use Rattle.pm_grammar.specs.ExpressionStatements.{EndsAssertion, SpellsAfter, SpellsWithExpression};
ghost use Rattle.pm_grammar.specs.Prefixes.{IsAfter, IsNotFirst};
ghost use Rattle.pm_grammar.specs.Tokens as lexical;
ghost use Rattle.pm_grammar.specs.Statements.{AreStrings, IsExpression, SpellsSimple};
ghost use Rattle.pm_grammar.specs.Statements as spec;
ghost use Rattle.pm_grammar.specs.Readings.{Gives, GivesAfter, GivesEach, GivesEachAfter};
ghost use Rattle.pm_grammar.specs.Tokens.{IsColon, IsSymbol, IsWord};

use crate::operation::expression;
use crate::reading::{ReadFault, Whole};
use crate::tokens::{after_symbol, after_word, is_string, is_symbol, is_word};
use pm_io::Boxed;
use pm_syn::{AssignOp, Expr, Stmt, Token};
use std::alloc::Global;

/// The expression that the tokens spell.
pub(crate) fn whole_expression(alloc: Global, tokens: &[Token]) -> Whole<Boxed<Expr>>
    ensures found { Gives (IsExpression tokens.now) result }
    ensures only { GivesEach (IsExpression tokens.now) result }
{
    let (tree, rest) = expression(alloc, tokens)?;
    if rest.is_empty() {
        Ok(tree)
    } else {
        Err(ReadFault::NotSpelled)
    }
}

/// The simple statement that the tokens spell.
pub(crate) fn simple(alloc: Global, tokens: &[Token]) -> Whole<Stmt>
    ensures found { Gives (SpellsSimple tokens.now) result }
    ensures only { GivesEach (SpellsSimple tokens.now) result }
{
    let Some((first, tail)) = tokens.split_first() else {
        return Err(ReadFault::NotSpelled);
    };
    if is_word(b"pass", first) {
        if tail.is_empty() {
            return Ok(Stmt::Pass);
        }
        return Err(ReadFault::NotSpelled);
    }
    if is_word(b"return", first) {
        return returned(alloc, tail);
    }
    if is_word(b"assert", first) {
        return assertion(alloc, tail);
    }
    if are_strings(tokens) {
        return Ok(Stmt::Doc);
    }
    expression_statement(alloc, tokens)
}

/// Reads what comes after `return`.
fn returned(alloc: Global, tokens: &[Token]) -> Whole<Stmt>
    ensures found { GivesAfter (IsWord (codes "return")) (λ word. SpellsSimple (word ∷ tokens.now)) result }
    ensures only { GivesEachAfter (IsWord (codes "return")) (λ word. SpellsSimple (word ∷ tokens.now)) result }
{
    let value = whole_expression(alloc, tokens)?;
    Ok(Stmt::Return(value.into_inner()))
}

/// Reads what comes after `assert`.
fn assertion(alloc: Global, tokens: &[Token]) -> Whole<Stmt>
    ensures found { GivesAfter (IsWord (codes "assert")) (λ word. SpellsSimple (word ∷ tokens.now)) result }
    ensures only { GivesEachAfter (IsWord (codes "assert")) (λ word. SpellsSimple (word ∷ tokens.now)) result }
{
    let (tree, rest) = expression(alloc, tokens)?;
    if ends_assertion(rest) {
        Ok(Stmt::Assert(tree.into_inner()))
    } else {
        Err(ReadFault::NotSpelled)
    }
}

/// Whether the tokens may follow the expression of an `assert`: none, or a comma and strings.
fn ends_assertion(tokens: &[Token]) -> bool
    ensures { IsTrue result ↔ EndsAssertion tokens.now }
{
    let Some((comma, strings)) = tokens.split_first() else {
        return true;
    };
    is_symbol(b",", comma) && are_strings(strings)
}

/// Whether the tokens are one or more strings.
fn are_strings(tokens: &[Token]) -> bool
    ensures { IsTrue result ↔ AreStrings tokens.now }
{
    !tokens.is_empty() && tokens.iter().all(is_string)
}

/// Reads a statement that begins with an expression.
fn expression_statement(alloc: Global, tokens: &[Token]) -> Whole<Stmt>
    ensures found { Gives (SpellsWithExpression tokens.now) result }
    ensures only { GivesEach (SpellsWithExpression tokens.now) result }
{
    let (target, rest) = expression(alloc, tokens)?;
    let Some((sign, tail)) = rest.split_first() else {
        return Ok(Stmt::Do(target.into_inner()));
    };
    if is_symbol(b":", sign) {
        return annotation(alloc, target, tail);
    }
    match assignment_of(sign) {
        Some(op) => assignment(alloc, op, target, tail),
        None => Err(ReadFault::NotSpelled),
    }
}

/// The assignment that the token is, if it is one.
fn assignment_of(token: &Token) -> Option<AssignOp>
    ensures { result ≡ spec.assignment_of token.now }
{
    if is_symbol(b"=", token) {
        Some(AssignOp::Plain)
    } else if is_symbol(b"@=", token) {
        Some(AssignOp::Now)
    } else if is_symbol(b"<<=", token) {
        Some(AssignOp::Next)
    } else if is_symbol(b"//=", token) {
        Some(AssignOp::Join)
    } else {
        None
    }
}

/// Reads the value that is assigned.
fn assignment(alloc: Global, op: AssignOp, target: Boxed<Expr>, tokens: &[Token]) -> Whole<Stmt>
    ensures found { GivesAfter (λ sign. spec.assignment_of sign ≡ Some op) (λ sign. SpellsAfter target (sign ∷ tokens.now)) result }
    ensures only { GivesEachAfter (λ sign. spec.assignment_of sign ≡ Some op) (λ sign. SpellsAfter target (sign ∷ tokens.now)) result }
{
    if let Some(tail) = after_lambda(op, tokens) {
        return joined_block(alloc, target, tail);
    }
    let value = whole_expression(alloc, tokens)?;
    Ok(Stmt::Assign(op, target.into_inner(), value.into_inner()))
}

/// What comes after `lambda`, if the tokens are assigned by `//=` and begin with it.
fn after_lambda(op: AssignOp, tokens: &[Token]) -> Option<&[Token]>
    ensures { MatchOption result (op ≡ AssignOp.Join → IsNotFirst (lexical.is_word (codes "lambda")) tokens.now) (λ tail. (op ≡ AssignOp.Join) × IsAfter (lexical.is_word (codes "lambda")) tokens.now tail.now) }
{
    if op == AssignOp::Join {
        after_word(tokens, b"lambda")
    } else {
        None
    }
}

/// Reads the colon and the value after `//= lambda`.
fn joined_block(alloc: Global, target: Boxed<Expr>, tokens: &[Token]) -> Whole<Stmt>
    ensures found { Gives (λ s. (sign word : TheToken) → IsSymbol (codes "//=") sign → IsWord (codes "lambda") word → SpellsAfter target (sign ∷ word ∷ tokens.now) s) result }
    ensures only { GivesEach (λ s. (sign : TheToken) × (word : TheToken) × IsSymbol (codes "//=") sign × IsWord (codes "lambda") word × SpellsAfter target (sign ∷ word ∷ tokens.now) s) result }
{
    let Some(tail) = after_symbol(tokens, b":") else {
        return Err(ReadFault::NotSpelled);
    };
    let value = whole_expression(alloc, tail)?;
    Ok(Stmt::JoinLambda(target.into_inner(), value.into_inner()))
}

/// Reads the annotation after a colon, and the value after it, if there is one.
fn annotation(alloc: Global, target: Boxed<Expr>, tokens: &[Token]) -> Whole<Stmt>
    ensures found { GivesAfter IsColon (λ colon. SpellsAfter target (colon ∷ tokens.now)) result }
    ensures only { GivesEachAfter IsColon (λ colon. SpellsAfter target (colon ∷ tokens.now)) result }
{
    let (note, rest) = expression(alloc, tokens)?;
    if rest.is_empty() {
        return Ok(Stmt::Note(target.into_inner(), note.into_inner(), None));
    }
    let Some(tail) = after_symbol(rest, b"=") else {
        return Err(ReadFault::NotSpelled);
    };
    let value = whole_expression(alloc, tail)?;
    let value = Some(value.into_inner());
    Ok(Stmt::Note(target.into_inner(), note.into_inner(), value))
}
