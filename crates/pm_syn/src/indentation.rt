//! The faults of logical lines: a column that isn't allowed, and too many bytes.
ghost use Rattle.std.specs.Prelude.{◌≡◌, IfOk, OnOk, slice_get, length, nat_lt, [], ◌∷◌};
ghost use Rattle.pm_syn.specs.Faults as spec;
ghost use Rattle.pm_syn.specs.Indentation as indent;
ghost use Rattle.pm_syn.specs.ColumnStack as stack;

use crate::draft::{Draft, Indentation};
use crate::fault::{MAX_LINE, TextFault};
use crate::token::{Token, TokenKind};
use pm_io::{NoMemory, Stack};
use std::alloc::Global;

/// The first fault of the logical lines, if they have one.
pub(crate) fn first_fault(alloc: Global, drafts: &[Draft]) -> Result<Option<TextFault>, NoMemory>
    ensures { IfOk result (λ fault. fault ≡ slice_get (spec.line_faults drafts.now) 0) }
{
    let mut columns = Stack::new(alloc);
    columns.push(0)?;
    for draft in drafts {
        if let Some(fault) = fault_of(&mut columns, draft)? {
            return Ok(Some(fault));
        }
    }
    Ok(None)
}

/// Whether the tokens other than strings have more bytes than a logical line is allowed.
fn is_too_long(tokens: &[Token]) -> bool
    ensures { result ≡ nat_lt 4096 (spec.length_of tokens.now) }
{
    let mut left = MAX_LINE;
    for token in tokens {
        let bytes = counted(token);
        if bytes > left {
            return true;
        }
        left -= bytes;
    }
    false
}

/// How many bytes of the token count for the length of its line.
fn counted(token: &Token) -> usize
    ensures { result ≡ spec.counted token.now.kind (length token.now.text) }
{
    match token.kind {
        TokenKind::Str => 0,
        TokenKind::Name | TokenKind::Int(_) | TokenKind::Op => token.text.len(),
    }
}

// The functions below take the columns to which a line may return, innermost first: the column of the line before it, and
// those of the lines around that one.

/// Adds a line, and returns its first fault, if it has one.
fn fault_of(columns: &mut Stack<u32>, draft: &Draft) -> Result<Option<TextFault>, NoMemory>
    ensures fault { IfOk result (λ fault. fault ≡ slice_get (spec.faults_of_line columns.old draft.now) 0) }
    ensures columns { OnOk result (columns.new ≡ stack.after_line draft.now.indentation columns.old) }
{
    if !add_line(columns, draft.indentation)? {
        return Ok(Some(TextFault::BadIndent(draft.number)));
    }
    if is_too_long(draft.tokens.as_slice()) {
        return Ok(Some(TextFault::LineTooLong(draft.number)));
    }
    Ok(None)
}

/// Adds a line, and returns whether its column is allowed.
fn add_line(columns: &mut Stack<u32>, indentation: Indentation) -> Result<bool, NoMemory>
    ensures allowed { IfOk result (λ allowed. allowed ≡ indent.is_allowed indentation columns.old) }
    ensures columns { OnOk result (columns.new ≡ stack.after_line indentation columns.old) }
{
    match indentation {
        Indentation::Tabbed => Ok(false),
        Indentation::Blanks(column) => add_column(columns, column),
    }
}

fn add_column(columns: &mut Stack<u32>, column: u32) -> Result<bool, NoMemory>
    ensures allowed { IfOk result (λ allowed. allowed ≡ indent.is_column column columns.old) }
    ensures columns { OnOk result (columns.new ≡ stack.after_column column columns.old) }
{
    if is_deeper(columns, column) {
        columns.push(column)?;
        return Ok(true);
    }
    return_to(columns, column);
    Ok(is_at(columns, column))
}

/// Removes the columns that are greater than this one.
fn return_to(columns: &mut Stack<u32>, column: u32)
    ensures { columns.new ≡ stack.down_to column columns.old }
{
    while is_above(columns, column) {
        columns.pop();
    }
}

fn is_deeper(columns: &Stack<u32>, column: u32) -> bool
    ensures { result ≡ indent.is_deeper column columns.now }
{
    match columns.top() {
        Some(nearest) => *nearest < column,
        None => true,
    }
}

fn is_above(columns: &Stack<u32>, column: u32) -> bool
    ensures { result ≡ stack.is_above column columns.now }
{
    match columns.top() {
        Some(nearest) => *nearest > column,
        None => false,
    }
}

fn is_at(columns: &Stack<u32>, column: u32) -> bool
    ensures { result ≡ stack.is_nearest column columns.now }
{
    match columns.top() {
        Some(nearest) => *nearest == column,
        None => false,
    }
}
