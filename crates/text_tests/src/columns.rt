//! Lines at columns that `lex` never gives.
use pm_io::List;
use pm_parse::{ParseFault, parse};
use pm_syn::{File, Line, lex};
use std::alloc::Global;
use std::process::Abort;
use std::test::Fail;

// The line that this text is, with this number and at this column.
fn line_at(rt: &impl Abort, alloc: Global, number: u32, column: u32, text: &str) -> Line {
    let mut lines = lex(alloc, text.as_bytes()).expect(rt, "a text without a fault");
    let line = lines.pop().expect(rt, "a line");
    Line {
        number,
        column,
        tokens: line.tokens,
    }
}

// What is read of lines at these columns, numbered from 0.
fn read_at(rt: &impl Abort, alloc: Global, texts: &[(u32, &str)]) -> Result<File, ParseFault> {
    let mut lines = List::new(alloc);
    let mut number: u32 = 0;
    for (column, text) in texts {
        let line = line_at(rt, alloc, number, *column, text);
        lines.push(line).expect(rt, "memory");
        number = number.wrapping_add(1);
    }
    parse(alloc, lines.as_slice())
}

// How many nodes are in the body of a file's only node, if the file has one node.
fn body_length(read: &Result<File, ParseFault>) -> Option<usize> {
    match read {
        Ok(file) if file.nodes.len() == 1 => Some(file.nodes.get(0)?.body.len()),
        _ => None,
    }
}

const CLASS: &str = "class A( Component ):";

#[test]
fn lines_are_allowed_at_the_column_of_their_body_alone(rt: HostRuntime) -> Result<(), Fail> {
    let alloc = rt.alloc();
    let two = read_at(&rt, alloc, &[(0, CLASS), (4, "pass"), (4, "pass")]);
    assert!(rt; body_length(&two) == Some(2));
    let greatest = read_at(&rt, alloc, &[(0, CLASS), (4294967295, "pass")]);
    assert!(rt; body_length(&greatest) == Some(1));
    let less_deep = read_at(&rt, alloc, &[(0, CLASS), (4, "pass"), (2, "pass")]);
    assert!(rt; matches!(less_deep, Err(ParseFault::Layout(2))));
    let first_indented = read_at(&rt, alloc, &[(4, "x = 1"), (0, "y = 1")]);
    assert!(rt; matches!(first_indented, Err(ParseFault::Layout(0))));
    Ok(())
}
