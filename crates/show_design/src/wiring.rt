//! What a component connects and constrains: connections, ties, binds and constraints.
use crate::page::Page;
use crate::parts::{write_callee, write_part};
use pm_bits::Bits;
use pm_design::{Design, Kind, Term};

/// Writes a line for each connection of two parts.
pub fn write_joins(page: &mut Page, design: &Design, kind: &Kind) {
    for join in kind.joins.as_slice() {
        page.put(b"  join");
        page.put_field(b"line", join.line);
        page.put(b" ");
        write_part(page, design, kind, &join.a);
        page.put(b" ");
        write_part(page, design, kind, &join.b);
        end_line(page, join.equal_types);
    }
}

/// Writes a line for each connection of interfaces whose members differ.
pub fn write_mismatched(page: &mut Page, kind: &Kind) {
    for line in kind.mismatched.as_slice() {
        page.put(b"  mismatched");
        page.put_field(b"line", *line);
        page.put(b"\n");
    }
}

/// Writes a line for each tie.
pub fn write_ties(page: &mut Page, design: &Design, kind: &Kind) {
    for tie in kind.ties.as_slice() {
        page.put(b"  tie");
        page.put_field(b"line", tie.line);
        page.put(b" ");
        write_part(page, design, kind, &tie.part);
        page.put(b" ");
        match tie.value {
            Some(value) => write_bits(page, value),
            None => page.put(b"unfit"),
        }
        page.put(b"\n");
    }
}

/// Writes a constant, as `8'd5`.
pub fn write_bits(page: &mut Page, value: Bits) {
    page.put_number(value.width());
    page.put(b"'d");
    page.put_wide(value.value());
}

/// Writes a line for each connection of a caller port.
pub fn write_binds(page: &mut Page, design: &Design, kind: &Kind) {
    for bind in kind.binds.as_slice() {
        page.put(b"  bind");
        page.put_field(b"line", bind.line);
        page.put(b" ");
        write_callee(page, design, kind, &bind.a);
        page.put(b" ");
        write_callee(page, design, kind, &bind.b);
        end_line(page, bind.equal_types);
    }
}

// Says whether the types of the ends differ, and ends the line.
fn end_line(page: &mut Page, equal_types: bool) {
    page.put(if equal_types { b"\n" } else { b" unequal\n" });
}

/// Writes a line for each constraint.
pub fn write_rules(page: &mut Page, design: &Design, kind: &Kind) {
    for rule in kind.rules.as_slice() {
        page.put(b"  rule");
        page.put_field(b"line", rule.line);
        page.put(b" ");
        write_term(page, design, kind, &rule.before);
        page.put(b" < ");
        write_term(page, design, kind, &rule.after);
        page.put(b"\n");
    }
}

fn write_term(page: &mut Page, design: &Design, kind: &Kind, term: &Term) {
    match term {
        Term::Block(block) => {
            page.put(b"U(");
            page.put(block_name(kind, *block));
        }
        Term::Reads(part) => {
            page.put(b"RD(");
            write_part(page, design, kind, part);
        }
        Term::Writes(part) => {
            page.put(b"WR(");
            write_part(page, design, kind, part);
        }
        Term::Calls(callee) => {
            page.put(b"M(");
            write_callee(page, design, kind, callee);
        }
        Term::Wrong => {
            page.put(b"wrong");
            return;
        }
    }
    page.put(b")");
}

fn block_name(kind: &Kind, block: u32) -> &[u8] {
    match kind.blocks.as_slice().get(block as usize) {
        Some(block) => block.name.as_slice(),
        None => b"?",
    }
}
