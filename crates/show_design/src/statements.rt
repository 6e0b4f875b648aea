//! Typed statements, and the bodies of blocks and methods.
use crate::expressions::{write_expression, write_expressions, write_pick};
use crate::page::Page;
use crate::parts::{write_callee, write_part, write_state};
use crate::scene::Scene;
use pm_design::{Block, Design, Ex, Kind, Method, Side, St};

/// Writes the body of a block.
pub fn write_block_body(page: &mut Page, design: &Design, kind: &Kind, block: &Block) {
    let temps = block.temps.as_slice();
    let scene = Scene {
        design,
        kind,
        temps,
    };
    write_temps(page, temps);
    write_statements(page, &scene, 2, block.body.as_slice());
}

/// Writes the guard of a method, its body, and what it returns.
pub fn write_method_body(page: &mut Page, design: &Design, kind: &Kind, method: &Method) {
    let temps = method.temps.as_slice();
    let scene = Scene {
        design,
        kind,
        temps,
    };
    if let Some(guard) = &method.guard {
        page.put(b"    guard ");
        write_expression(page, &scene, guard);
        page.put(b"\n");
    }
    write_temps(page, temps);
    write_statements(page, &scene, 2, method.body.as_slice());
    if let Some(answer) = &method.answer {
        page.put(b"    return ");
        write_expression(page, &scene, answer);
        page.put(b"\n");
    }
}

// Writes the widths of temporaries, if there are any.
fn write_temps(page: &mut Page, temps: &[u32]) {
    if temps.is_empty() {
        return;
    }
    page.put(b"    temps");
    for width in temps {
        page.put(b" ");
        page.put_number(*width);
    }
    page.put(b"\n");
}

#[cycle(statement)]
fn write_statements(page: &mut Page, scene: &Scene, level: usize, body: &[St]) {
    for statement in body {
        write_statement(page, scene, level, statement);
    }
}

#[cycle(statement)]
fn write_statement(page: &mut Page, scene: &Scene, level: usize, statement: &St) {
    page.put_indent(level);
    match statement {
        St::If(test, then, otherwise) => {
            page.put(b"if ");
            write_expression(page, scene, test);
            page.put(b":\n");
            let inner = level.saturating_add(1);
            write_statements(page, scene, inner, then.as_slice());
            if !otherwise.is_empty() {
                page.put_indent(level);
                page.put(b"else:\n");
                write_statements(page, scene, inner, otherwise.as_slice());
            }
        }
        simple => {
            write_simple(page, scene, simple);
            page.put(b"\n");
        }
    }
}

// Writes a statement that has no statements below it.
fn write_simple(page: &mut Page, scene: &Scene, statement: &St) {
    match statement {
        St::Set(part, value) => {
            write_part(page, scene.design, scene.kind, part);
            write_value(page, scene, value);
        }
        St::SetPick(index, parts, value) => {
            write_pick(page, scene, index, parts.as_slice());
            write_value(page, scene, value);
        }
        St::SetTemp(temporary, value) => {
            page.put_temporary(*temporary);
            write_value(page, scene, value);
        }
        St::SetNumber(state, value) => {
            write_state(page, scene.kind, *state);
            write_value(page, scene, value);
        }
        St::Push(state, side, item) => {
            write_state(page, scene.kind, *state);
            page.put(match side {
                Side::Left => b".appendleft(",
                Side::Right => b".append(",
            });
            write_expression(page, scene, item);
            page.put(b")");
        }
        St::Pop(state, side, kept) => {
            write_kept(page, *kept);
            write_state(page, scene.kind, *state);
            page.put(match side {
                Side::Left => b".popleft()",
                Side::Right => b".pop()",
            });
        }
        St::Clear(state) => {
            write_state(page, scene.kind, *state);
            page.put(b".clear()");
        }
        St::Call(callee, arguments, kept) => {
            write_kept(page, *kept);
            write_callee(page, scene.design, scene.kind, callee);
            page.put(b"(");
            write_expressions(page, scene, arguments.as_slice());
            page.put(b")");
        }
        St::If(_, _, _) => {}
    }
}

fn write_value(page: &mut Page, scene: &Scene, value: &Ex) {
    page.put(b" = ");
    write_expression(page, scene, value);
}

// Writes the temporary that takes a result, if there is one.
fn write_kept(page: &mut Page, kept: Option<u32>) {
    if let Some(temporary) = kept {
        page.put_temporary(temporary);
        page.put(b" = ");
    }
}
