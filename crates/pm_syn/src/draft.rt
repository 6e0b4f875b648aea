//! Logical lines whose indentation and length have yet to be judged.
ghost use Rattle.std.specs.Prelude.{◌≡◌, ◌<◌, ◌^◌, ◌++◌, ◌∷◌, [], length, IfOk, map};
ghost use Rattle.pm_syn.specs.LogicalLines as spec;

use crate::token::{Line, Token};
use pm_io::{List, NoMemory};
use std::alloc::Global;

/// What is before the first token of a logical line.
#[derive(Clone, Copy)]
pub(crate) enum Indentation {
    /// This many blanks.
    Blanks(u32),
    /// A tab, and anything else.
    Tabbed,
}

impl Indentation {
    /// The indentation of a line that begins with these bytes, which are blanks and tabs.
    pub fn of(bytes: &[u8]) -> Indentation
        requires { length bytes.now < 2 ^ 32 }
        ensures { result ≡ spec.indentation_of bytes.now }
    {
        if bytes.contains(&b'\t') {
            Indentation::Tabbed
        } else {
            Indentation::Blanks(bytes.len() as u32)
        }
    }

    /// The column of the first token.
    pub fn column(self) -> u32
        ensures { result ≡ spec.column_of self }
    {
        match self {
            Indentation::Blanks(column) => column,
            Indentation::Tabbed => 0,
        }
    }
}

/// A logical line while it is read.
#[derive(Drop)]
pub(crate) struct Draft {
    pub number: u32,
    pub indentation: Indentation,
    pub tokens: List<Token>,
}

impl Draft {
    /// The line with one more token.
    pub fn with(self, token: Token) -> Result<Draft, NoMemory>
        ensures { IfOk result (λ draft. draft ≡ record self { tokens = self.tokens ++ token ∷ [] }) }
    {
        let mut draft = self;
        draft.tokens.push(token)?;
        Ok(draft)
    }

    fn into_line(self) -> Line
        ensures { result ≡ spec.line_from self }
    {
        let Draft {
            number,
            indentation,
            tokens,
        } = self;
        Line {
            number,
            column: indentation.column(),
            tokens,
        }
    }
}

/// The logical lines, in order.
pub(crate) fn lines_from(alloc: Global, drafts: Vec<Draft>) -> Result<List<Line>, NoMemory>
    ensures { IfOk result (λ lines. lines ≡ map spec.line_from drafts.items) }
{
    let mut lines = List::new(alloc);
    for draft in drafts {
        lines.push(draft.into_line())?;
    }
    Ok(lines)
}
