//! Reading a text into its logical lines.
ghost use Rattle.std.specs.Prelude.{◌≡◌, ◌⊎◌, ◌≤◌, ◌++◌, ◌^◌, List, Result, Err, IfOk, length};
ghost use Rattle.std.specs.Option.{option_to_list};
ghost use Rattle.pm_syn.specs.Answers.{IsAnswer};
ghost use Rattle.pm_syn.specs.Progress.{IsRead, named};
ghost use Rattle.pm_syn.specs.declared.fault.TextFault.{TextFault as TheFault};
ghost use Rattle.pm_syn.specs.declared.token.Line.{Line as TheLine};

use crate::bracket::unclosed;
use crate::draft::{Draft, lines_from};
use crate::fault::{MAX_FILE, TextFault};
use crate::indentation::first_fault;
use crate::lexeme::head_of;
use crate::reader::Reader;
use crate::token::Line;
use pm_io::{List, NoMemory};
use std::alloc::Global;

/// The logical lines of a text.
///
/// `FileTooLong` is returned if and only if the text has more than 2^20 bytes. Otherwise the text is read up to its end
/// or its first bad token, and the fault on the first line is returned; on one line a bad token, else a bad
/// indentation, else a line that is too long.
pub fn lex(alloc: Global, bytes: &[u8]) -> Result<List<Line>, TextFault>
    ensures answer { (result ≡ Err TextFault.NoMemory) ⊎ IsAnswer bytes.now result }
    ensures only { (answer : Result (List TheLine) TheFault) → IsAnswer bytes.now answer → (result ≡ Err TextFault.NoMemory) ⊎ (result ≡ answer) }
{
    if bytes.len() > MAX_FILE {
        return Err(TextFault::FileTooLong);
    }
    let ReadText { drafts, bad_token } = read(alloc, bytes)?;
    let line_fault = first_fault(alloc, drafts.as_slice())?;
    match named_fault(bad_token, line_fault) {
        Some(fault) => Err(fault),
        None => Ok(lines_from(alloc, drafts)?),
    }
}

/// A text that was read up to its end or to its first bad token.
#[derive(Drop)]
struct ReadText {
    /// Its logical lines, the last with the tokens before the bad one.
    drafts: Vec<Draft>,
    /// The line of the bad token, if there is one.
    bad_token: Option<u32>,
}

/// Reads a text as far as it can be read.
fn read(alloc: Global, text: &[u8]) -> Result<ReadText, NoMemory>
    requires { length text.now ≤ 2 ^ 20 }
    ensures { IfOk result (λ reading. IsRead text.now reading) }
{
    let mut reader = Reader::new(alloc);
    let mut at = 0;
    'lexemes: while at < text.len() {
        let Some(head) = head_of(&text[at..]) else {
            let line = reader.line.number;
            return stop(reader, Some(line));
        };
        if let Some(line) = reader.misfit(head.sort, &text[at..at + head.length]) {
            return stop(reader, Some(line));
        }
        reader.take(alloc, text, at, head)?;
        at += head.length;
    }
    let unclosed = unclosed(&reader.brackets);
    stop(reader, unclosed)
}

fn stop(reader: Reader, bad_token: Option<u32>) -> Result<ReadText, NoMemory>
    ensures { IfOk result (λ reading. (reading.drafts.items ≡ reader.ended.items ++ option_to_list reader.begun) × (reading.bad_token ≡ bad_token)) }
{
    Ok(ReadText {
        drafts: reader.into_drafts()?,
        bad_token,
    })
}

/// The fault to return: the bad token's, unless an earlier line has one.
fn named_fault(bad_token: Option<u32>, line_fault: Option<TextFault>) -> Option<TextFault>
    ensures { result ≡ named bad_token line_fault }
{
    let Some(line) = bad_token else {
        return line_fault;
    };
    match line_fault {
        Some(fault) if fault.is_before(line) => Some(fault),
        _ => Some(TextFault::BadToken(line)),
    }
}
