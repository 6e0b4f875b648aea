//! Lines of tokens whose brackets are never closed. No text has such a line. Each is read on the stack that a program has.
use pm_io::{List, Text};
use pm_parse::{LineFault, parse_line};
use pm_syn::{Line, Token, TokenKind};
use std::alloc::Global;
use std::process::Abort;
use std::test::Fail;

// Tokens, and how often they are repeated in turn.
const UNCLOSED: &[(&[(TokenKind, &str)], usize)] = &[
    (&[(TokenKind::Op, "(")], 4095),
    (&[(TokenKind::Op, "[")], 2047),
    (&[(TokenKind::Op, "-"), (TokenKind::Op, "(")], 1365),
    (&[(TokenKind::Name, "not"), (TokenKind::Op, "(")], 1023),
    (&[(TokenKind::Name, "f"), (TokenKind::Op, "(")], 1365),
    (&[(TokenKind::Name, "a"), (TokenKind::Op, "[")], 1365),
    (
        &[
            (TokenKind::Op, "["),
            (TokenKind::Name, "a"),
            (TokenKind::Op, ","),
        ],
        1023,
    ),
];

fn push_tokens(
    rt: &impl Abort,
    alloc: Global,
    group: &[(TokenKind, &str)],
    tokens: &mut List<Token>,
) {
    for (kind, bytes) in group {
        let text = Text::from_slice(alloc, bytes.as_bytes()).expect(rt, "memory");
        let token = Token {
            kind: *kind,
            text,
            start: 0,
            end: 0,
        };
        tokens.push(token).expect(rt, "memory");
    }
}

fn repeated(
    rt: &impl Abort,
    alloc: Global,
    group: &[(TokenKind, &str)],
    count: usize,
) -> List<Token> {
    let mut tokens = List::new(alloc);
    for _ in 0..count {
        push_tokens(rt, alloc, group, &mut tokens);
    }
    tokens
}

fn line_of(tokens: List<Token>) -> Line {
    Line {
        number: 1,
        column: 0,
        tokens,
    }
}

fn is_no_statement(alloc: Global, line: &Line) -> bool {
    let fault = parse_line(alloc, line).err();
    matches!(fault, Some(LineFault::Syntax))
}

#[test]
fn lines_that_end_in_open_brackets_are_no_statements(rt: HostRuntime) -> Result<(), Fail> {
    let alloc = rt.alloc();
    for (group, count) in UNCLOSED {
        let line = line_of(repeated(&rt, alloc, group, *count));
        assert!(rt; is_no_statement(alloc, &line));
        let mut tokens = repeated(&rt, alloc, group, *count);
        push_tokens(&rt, alloc, &[(TokenKind::Name, "a")], &mut tokens);
        let line = line_of(tokens);
        assert!(rt; is_no_statement(alloc, &line));
    }
    Ok(())
}
