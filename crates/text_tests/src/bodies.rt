//! Bodies about as deep as a file can nest them.
use pm_parse::parse;
use pm_syn::{Node, lex};
use std::alloc::Global;
use std::process::Abort;
use std::test::Fail;

/// How many columns of blanks a file has room for, each line one deeper than the line before it.
const NESTED: usize = 1440;

// A file of `if`s in each other, each one column deeper.
fn nested_text(rt: &impl Abort, alloc: Global) -> Vec<u8> {
    let mut text = Vec::from_slice(alloc, b"class A( Component ):\n def construct( s ):\n").expect(
        rt, "memory",
    );
    for column in 2..NESTED {
        push_line(rt, &mut text, column, b"if a:\n");
    }
    push_line(rt, &mut text, NESTED, b"pass\n");
    text
}

fn push_line(rt: &impl Abort, text: &mut Vec<u8>, column: usize, line: &[u8]) {
    for _ in 0..column {
        text.push(b' ').expect(rt, "memory");
    }
    text.extend_from_slice(line).expect(rt, "memory");
}

// How many nodes are nested in each other, along the first of each body.
#[cycle(depth)]
fn depth_of(nodes: &[Node]) -> usize {
    match nodes.first() {
        Some(node) => depth_of(node.body.as_slice()).saturating_add(1),
        None => 0,
    }
}

#[test]
fn bodies_nest_as_deep_as_a_file_allows(rt: HostRuntime) -> Result<(), Fail> {
    let alloc = rt.alloc();
    let text = nested_text(&rt, alloc);
    let lines = lex(alloc, text.as_slice()).expect(&rt, "a text without a fault");
    let file = parse(alloc, lines.as_slice()).expect(&rt, "lines without a fault");
    assert!(rt; depth_of(file.nodes.as_slice()) == NESTED + 1);
    Ok(())
}
