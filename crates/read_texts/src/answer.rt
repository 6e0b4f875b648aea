//! What a text is read as.
use crate::row::{question_of, text_of};
use pm_parse::{parse, parse_line};
use pm_syn::{Line, TextFault, Token, TokenKind, is_keyword, is_proper_name, lex};
use std::alloc::{AllocError, Global};
use tree_text::{write_nodes, write_statement};

/// The answer to a row: what its question asks about its text.
pub fn answer_of(alloc: Global, row: &str) -> Result<Vec<u8>, AllocError> {
    let text = text_of(alloc, row)?;
    let question = question_of(row);
    if question == "word" {
        return words(alloc, sort_of(text.as_slice()));
    }
    match lex(alloc, text.as_slice()) {
        Ok(lines) => match question {
            "count" => counts_of(alloc, lines.as_slice()),
            "lines" => lines_of(alloc, text.as_slice(), lines.as_slice()),
            "tokens" => tokens_of(alloc, text.as_slice(), lines.as_slice()),
            "statement" => statements_of(alloc, lines.as_slice()),
            "depth" => depths_of(alloc, lines.as_slice()),
            "tree" => tree_of(alloc, lines.as_slice()),
            _ => words(alloc, "no such question"),
        },
        Err(fault) => fault_text(alloc, fault),
    }
}

fn words(alloc: Global, words: &str) -> Result<Vec<u8>, AllocError> {
    let mut answer = Vec::from_slice(alloc, b" ")?;
    answer.extend_from_slice(words.as_bytes())?;
    Ok(answer)
}

fn fault_text(alloc: Global, fault: TextFault) -> Result<Vec<u8>, AllocError> {
    words(alloc, format!(in alloc; "{fault:?}")?.as_str())
}

// Whether a word is a name.
fn sort_of(word: &[u8]) -> &'static str {
    match (is_proper_name(word), is_keyword(word)) {
        (true, false) => "name",
        (false, true) => "reserved word",
        (false, false) => "neither",
        (true, true) => "both",
    }
}

// How many logical lines there are, and how many tokens in all.
fn counts_of(alloc: Global, lines: &[Line]) -> Result<Vec<u8>, AllocError> {
    let tokens = lines.iter().fold(
        0_usize,
        |count, line| count.saturating_add(line.tokens.len()),
    );
    words(
        alloc,
        format!(in alloc; "lines {}, tokens {tokens}", lines.len())?.as_str(),
    )
}

// The logical lines, each with its number, its column and its tokens.
fn lines_of(alloc: Global, text: &[u8], lines: &[Line]) -> Result<Vec<u8>, AllocError> {
    let mut answer = Vec::new(alloc);
    for line in lines {
        let head = format!(in alloc; "\n  {} {}", line.number, line.column)?;
        answer.extend_from_slice(head.as_bytes())?;
        for token in line.tokens.as_slice() {
            answer.push(b' ')?;
            push_token(&mut answer, text, token)?;
        }
    }
    Ok(answer)
}

// The tokens of all logical lines, each with what it is.
fn tokens_of(alloc: Global, text: &[u8], lines: &[Line]) -> Result<Vec<u8>, AllocError> {
    let mut answer = Vec::new(alloc);
    for line in lines {
        for token in line.tokens.as_slice() {
            answer.extend_from_slice(if answer.is_empty() { b" " } else { b", " })?;
            push_kind(alloc, &mut answer, token.kind)?;
            push_token(&mut answer, text, token)?;
        }
    }
    Ok(answer)
}

fn push_kind(alloc: Global, answer: &mut Vec<u8>, kind: TokenKind) -> Result<(), AllocError> {
    match kind {
        TokenKind::Name => answer.extend_from_slice(b"Name "),
        TokenKind::Int(number) => answer.extend_from_slice(format!(in alloc;
            "Int({number}) "
        )?.as_bytes()),
        TokenKind::Str => answer.extend_from_slice(b"Str "),
        TokenKind::Op => answer.extend_from_slice(b"Op "),
    }
}

// The bytes of a token, which are those of the text from its start to its end.
fn push_token(answer: &mut Vec<u8>, text: &[u8], token: &Token) -> Result<(), AllocError> {
    match text.get(token.start as usize..token.end as usize) {
        Some(bytes) if bytes == token.text.as_slice() => answer.extend_from_slice(bytes),
        _ => answer.extend_from_slice(b"(not in the text)"),
    }
}

// The statement of each logical line, or why it has none.
fn statements_of(alloc: Global, lines: &[Line]) -> Result<Vec<u8>, AllocError> {
    let mut answer = Vec::new(alloc);
    for line in lines {
        answer.push(b' ')?;
        match parse_line(alloc, line) {
            Ok(statement) => write_statement(alloc, &statement, &mut answer)?,
            Err(fault) => answer.extend_from_slice(format!(in alloc; "{fault:?}")?.as_bytes())?,
        }
    }
    Ok(answer)
}

// Whether each logical line has a statement that isn't too deep.
fn depths_of(alloc: Global, lines: &[Line]) -> Result<Vec<u8>, AllocError> {
    let mut answer = Vec::new(alloc);
    for line in lines {
        match parse_line(alloc, line) {
            Ok(_) => answer.extend_from_slice(b" fine")?,
            Err(fault) => answer.extend_from_slice(format!(in alloc; " {fault:?}")?.as_bytes())?,
        }
    }
    Ok(answer)
}

// The tree of the lines: their numbers, with the body of each in brackets after its number; or the file's first fault.
fn tree_of(alloc: Global, lines: &[Line]) -> Result<Vec<u8>, AllocError> {
    let mut answer = Vec::new(alloc);
    match parse(alloc, lines) {
        Ok(file) => write_nodes(alloc, file.nodes.as_slice(), &mut answer)?,
        Err(fault) => answer.extend_from_slice(format!(in alloc; " {fault:?}")?.as_bytes())?,
    }
    Ok(answer)
}
