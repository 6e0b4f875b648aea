//! A text as far as it has been read.
ghost use Rattle.std.specs.Prelude.{◌≡◌, ◌+◌, ◌≤◌, ◌<◌, ◌^◌, ◌++◌, ◌∷◌, ℕ, IfOk, List, OnOk, Some, drop, length, take, [], if◌then◌else◌};
ghost use Rattle.std.specs.List.{between};
ghost use Rattle.std.specs.Option.{option_to_list};
ghost use Rattle.pm_syn.specs.Lexemes.{Lexeme};
ghost use Rattle.pm_syn.specs.LogicalLines.{continued};
ghost use Rattle.pm_syn.specs.LogicalLines as lines;
ghost use Rattle.pm_syn.specs.Progress.{HasRead, IsElsewhereSame, begun_after_line_end, begun_with, ended_after_line_end, ended_with};
ghost use Rattle.pm_syn.specs.Reading.{misfit};
ghost use Rattle.pm_syn.specs.Reading as spec;

use crate::bracket::{Bracket, are_closed, nest, wrongly_closed};
use crate::draft::{Draft, Indentation};
use crate::lexeme::{Head, Sort};
use crate::text_line::TextLine;
use crate::token::{Token, TokenKind};
use pm_io::{List, NoMemory, Stack, Text};
use std::alloc::Global;

/// What has been read of a text.
#[derive(Drop)]
pub(crate) struct Reader {
    /// The line on which reading continues.
    pub line: TextLine,
    /// The sort of the last lexeme.
    pub last: Sort,
    /// The brackets that are open, innermost first.
    pub brackets: Stack<Bracket>,
    /// The logical lines that have ended.
    pub ended: Vec<Draft>,
    /// The logical line that has begun and hasn't ended.
    pub begun: Option<Draft>,
}

impl Reader {
    pub fn new(alloc: Global) -> Reader
        ensures { (text : List ℕ) → HasRead text 0 [] result }
    {
        Reader {
            line: TextLine {
                number: 1,
                start: 0,
            },
            last: Sort::Gap,
            brackets: Stack::new(alloc),
            ended: Vec::new(alloc),
            begun: None,
        }
    }

    /// The line to name if a lexeme of this sort would be a bad token.
    pub fn misfit(&self, sort: Sort, bytes: &[u8]) -> Option<u32>
        ensures { (text : List ℕ) (at : ℕ) (before : List Lexeme) → HasRead text at before self.now →
            result ≡ misfit before (record { sort = sort; bytes = bytes.now }) }
    {
        if is_name_after_number(self.last, sort) {
            Some(self.line.number)
        } else {
            wrongly_closed(&self.brackets, bytes, self.line.number)
        }
    }

    /// Reads the lexeme that begins there.
    pub fn take(
        &mut self,
        alloc: Global,
        text: &[u8],
        at: usize,
        head: Head,
    ) -> Result<(), NoMemory>
        requires fits { length text.now ≤ 2 ^ 20 }
        requires within { at + head.length ≤ length text.now }
        requires line { self.old.line.number ≤ at + 1 }
        requires start { self.old.line.start ≤ at }
        ensures { OnOk result ((before : List Lexeme) → HasRead text.now at before self.old →
            HasRead text.now (at + head.length) (record { sort = head.sort; bytes = between at (at + head.length) text.now } ∷ before) self.new) }
    {
        let indent = &text[self.line.start..at];
        let bytes = &text[at..at + head.length];
        self.add(alloc, head.sort, at, indent, bytes)?;
        nest(&mut self.brackets, bytes, self.line.number)?;
        self.last = head.sort;
        self.line = self.line.after(at, bytes);
        Ok(())
    }

    /// Ends the logical line, begins it or adds to it, as the lexeme after these bytes of its line does.
    fn add(
        &mut self,
        alloc: Global,
        sort: Sort,
        at: usize,
        indent: &[u8],
        bytes: &[u8],
    ) -> Result<(), NoMemory>
        requires indent { length indent.now < 2 ^ 32 }
        requires fits { at + length bytes.now < 2 ^ 32 }
        ensures ended { OnOk result (self.new.ended.items ≡ ended_with sort self.old) }
        ensures begun { OnOk result (self.new.begun ≡ begun_with sort at indent.now bytes.now self.old) }
        ensures same { OnOk result (IsElsewhereSame self.old self.new) }
    {
        match sort {
            Sort::Gap => Ok(()),
            Sort::LineEnd => self.end_line(),
            Sort::Token(kind) => self.take_token(alloc, kind, at, indent, bytes),
        }
    }

    /// Ends the logical line, if no bracket is open.
    fn end_line(&mut self) -> Result<(), NoMemory>
        ensures ended { OnOk result (self.new.ended.items ≡ ended_after_line_end self.old) }
        ensures begun { OnOk result (self.new.begun ≡ begun_after_line_end self.old) }
        ensures same { OnOk result (IsElsewhereSame self.old self.new) }
    {
        if are_closed(&self.brackets) {
            if let Some(draft) = self.begun.take() {
                self.ended.push(draft)?;
            }
        }
        Ok(())
    }

    /// Adds a token to the logical line that has begun, or begins one after these bytes of the line.
    fn take_token(
        &mut self,
        alloc: Global,
        kind: TokenKind,
        at: usize,
        indent: &[u8],
        bytes: &[u8],
    ) -> Result<(), NoMemory>
        requires indent { length indent.now < 2 ^ 32 }
        requires fits { at + length bytes.now < 2 ^ 32 }
        ensures ended { OnOk result (self.new.ended.items ≡ self.old.ended.items) }
        ensures begun { OnOk result (self.new.begun ≡ Some (continued self.old.line.number indent.now self.old.begun
            (record { kind = kind; text = bytes.now; start = at; end = at + length bytes.now }))) }
        ensures same { OnOk result (IsElsewhereSame self.old self.new) }
    {
        let token = Token {
            kind,
            text: Text::from_slice(alloc, bytes)?,
            start: at as u32,
            end: (at + bytes.len()) as u32,
        };
        let draft = opened(alloc, self.begun.take(), self.line.number, indent);
        self.begun = Some(draft.with(token)?);
        Ok(())
    }

    /// All logical lines that were read.
    pub fn into_drafts(self) -> Result<Vec<Draft>, NoMemory>
        ensures { IfOk result (λ drafts. drafts.items ≡ self.ended.items ++ option_to_list self.begun) }
    {
        let Reader {
            mut ended,
            begun,
            ..
        } = self;
        if let Some(draft) = begun {
            ended.push(draft)?;
        }
        Ok(ended)
    }
}

fn is_name_after_number(last: Sort, sort: Sort) -> bool
    ensures { result ≡ spec.is_name_after_number last sort }
{
    match (last, sort) {
        (Sort::Token(TokenKind::Int(_)), Sort::Token(TokenKind::Name)) => true,
        _ => false,
    }
}

/// The logical line that has begun, or one without tokens that begins on this line after these bytes.
fn opened(alloc: Global, begun: Option<Draft>, line: u32, indent: &[u8]) -> Draft
    requires { length indent.now < 2 ^ 32 }
    ensures { result ≡ lines.opened line indent.now begun }
{
    match begun {
        Some(draft) => draft,
        None => Draft {
            number: line,
            indentation: Indentation::of(indent),
            tokens: List::new(alloc),
        },
    }
}
