//! Typed expressions.
use crate::page::Page;
use crate::parts::{write_callee, write_part, write_range, write_state};
use crate::scene::Scene;
use crate::wiring::write_bits;
use pm_bits::{Fold, Op};
use pm_design::{Ex, Part};

/// Writes an expression, in brackets where it has an operator.
#[cycle(expression)]
pub fn write_expression(page: &mut Page, scene: &Scene, expression: &Ex) {
    match expression {
        Ex::Const(value) => write_bits(page, *value),
        Ex::Get(part) => write_part(page, scene.design, scene.kind, part),
        Ex::Temp(temporary, lo, width) => write_temporary(page, scene, *temporary, *lo, *width),
        Ex::Pick(index, parts) => write_pick(page, scene, index.get(), parts.as_slice()),
        Ex::Number(state) => write_state(page, scene.kind, *state),
        Ex::Count(state) => {
            page.put(b"len(");
            write_state(page, scene.kind, *state);
            page.put(b")");
        }
        Ex::Item(state, place) => {
            write_state(page, scene.kind, *state);
            page.put(b"[");
            page.put_number(*place);
            page.put(b"]");
        }
        Ex::Last(state) => {
            write_state(page, scene.kind, *state);
            page.put(b"[-1]");
        }
        Ex::Ready(callee) => {
            write_callee(page, scene.design, scene.kind, callee);
            page.put(b".rdy()");
        }
        Ex::Not(a) => write_prefixed(page, scene, b"~", a.get()),
        Ex::Fold(fold, a) => write_prefixed(page, scene, fold_sign(*fold), a.get()),
        Ex::Bin(op, a, b) => {
            page.put(b"(");
            write_expression(page, scene, a.get());
            page.put(b" ");
            page.put(operator_sign(*op));
            page.put(b" ");
            write_expression(page, scene, b.get());
            page.put(b")");
        }
        Ex::Cat(parts) => {
            page.put(b"{");
            write_expressions(page, scene, parts.as_slice());
            page.put(b"}");
        }
        Ex::Zext(a, width) => write_resized(page, scene, b"zext(", a.get(), *width),
        Ex::Sext(a, width) => write_resized(page, scene, b"sext(", a.get(), *width),
        Ex::Trunc(a, width) => write_resized(page, scene, b"trunc(", a.get(), *width),
        Ex::Cond(test, a, b) => {
            page.put(b"(");
            write_expression(page, scene, test.get());
            page.put(b" ? ");
            write_expression(page, scene, a.get());
            page.put(b" : ");
            write_expression(page, scene, b.get());
            page.put(b")");
        }
    }
}

/// Writes expressions with commas between them.
#[cycle(expression)]
pub fn write_expressions(page: &mut Page, scene: &Scene, expressions: &[Ex]) {
    for (place, expression) in expressions.iter().enumerate() {
        if place > 0 {
            page.put(b", ");
        }
        write_expression(page, scene, expression);
    }
}

/// Writes the parts that an index picks one of.
#[cycle(expression)]
pub fn write_pick(page: &mut Page, scene: &Scene, index: &Ex, parts: &[Part]) {
    page.put(b"pick(");
    write_expression(page, scene, index);
    page.put(b"; ");
    write_parts(page, scene, parts);
    page.put(b")");
}

fn write_parts(page: &mut Page, scene: &Scene, parts: &[Part]) {
    for (place, part) in parts.iter().enumerate() {
        if place > 0 {
            page.put(b", ");
        }
        write_part(page, scene.design, scene.kind, part);
    }
}

#[cycle(expression)]
fn write_prefixed(page: &mut Page, scene: &Scene, sign: &[u8], a: &Ex) {
    page.put(b"(");
    page.put(sign);
    write_expression(page, scene, a);
    page.put(b")");
}

#[cycle(expression)]
fn write_resized(page: &mut Page, scene: &Scene, opening: &[u8], a: &Ex, width: u32) {
    page.put(opening);
    write_expression(page, scene, a);
    page.put(b", ");
    page.put_number(width);
    page.put(b")");
}

// Writes a temporary, with its bits where they aren't all of it.
fn write_temporary(page: &mut Page, scene: &Scene, temporary: u32, lo: u32, width: u32) {
    page.put_temporary(temporary);
    if !scene.is_whole(temporary, lo, width) {
        write_range(page, lo, width);
    }
}

fn fold_sign(fold: Fold) -> &'static [u8] {
    match fold {
        Fold::All => b"&",
        Fold::Any => b"|",
        Fold::Odd => b"^",
    }
}

fn operator_sign(op: Op) -> &'static [u8] {
    match op {
        Op::Add => b"+",
        Op::Sub => b"-",
        Op::Mul => b"*",
        Op::And => b"&",
        Op::Or => b"|",
        Op::Xor => b"^",
        Op::Shl => b"<<",
        Op::Shr => b">>",
        Op::Eq => b"==",
        Op::Ne => b"!=",
        Op::Lt => b"<",
        Op::Le => b"<=",
        Op::Gt => b">",
        Op::Ge => b">=",
    }
}
