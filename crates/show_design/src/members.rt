//! What a component has: signals, states, children, caller ports, methods and blocks.
use crate::page::Page;
use crate::statements::{write_block_body, write_method_body};
use crate::words::Layer;
use pm_design::{BlockSort, Design, Kind, Role};

/// Writes a line for each signal.
pub fn write_signals(page: &mut Page, kind: &Kind) {
    for signal in kind.signals.as_slice() {
        page.put(match signal.role {
            Role::Input => b"  input ",
            Role::Output => b"  output ",
            Role::Inner => b"  wire ",
        });
        page.put(signal.name.as_slice());
        page.put(b" ");
        page.put_number(signal.width);
        page.put_shape(signal.shape);
        page.put(b"\n");
    }
}

/// Writes a line for each state.
pub fn write_states(page: &mut Page, kind: &Kind) {
    for state in kind.states.as_slice() {
        let is_number = state.maxlen == 0;
        page.put(if is_number { b"  number " } else { b"  deque " });
        page.put(state.name.as_slice());
        page.put(b" ");
        page.put_number(state.width);
        if is_number {
            page.put(b" start ");
            page.put_wide(state.start.value());
        } else {
            page.put_field(b"maxlen", state.maxlen);
        }
        page.put(b"\n");
    }
}

/// Writes a line for each child.
pub fn write_children(page: &mut Page, kind: &Kind) {
    for child in kind.children.as_slice() {
        page.put(b"  child ");
        page.put(child.name.as_slice());
        page.put_field(b"kind", child.kind);
        page.put_field(b"line", child.line);
        page.put(b"\n");
    }
}

/// Writes a line for each caller port.
pub fn write_callers(page: &mut Page, kind: &Kind) {
    for caller in kind.callers.as_slice() {
        page.put(b"  caller ");
        page.put(caller.name.as_slice());
        page.put(b"(");
        if let Some(argument) = caller.argument {
            page.put_number(argument);
        }
        page.put(b")");
        write_result(page, caller.result);
    }
}

/// Writes a line for each method, and its body where the layer has bodies.
pub fn write_methods(page: &mut Page, layer: Layer, design: &Design, kind: &Kind) {
    for method in kind.methods.as_slice() {
        page.put(b"  method ");
        page.put(method.name.as_slice());
        page.put(b"(");
        for (index, argument) in method.arguments.as_slice().iter().enumerate() {
            if index > 0 {
                page.put(b", ");
            }
            page.put_number(*argument);
        }
        page.put(b")");
        write_result(page, method.result);
        if layer == Layer::Bodies {
            write_method_body(page, design, kind, method);
        }
    }
}

// Writes an arrow and the width of the result, if there is one, and ends the line.
fn write_result(page: &mut Page, width: Option<u32>) {
    if let Some(width) = width {
        page.put(b" -> ");
        page.put_number(width);
    }
    page.put(b"\n");
}

/// Writes a line for each block, and its body where the layer has bodies.
pub fn write_blocks(page: &mut Page, layer: Layer, design: &Design, kind: &Kind) {
    for block in kind.blocks.as_slice() {
        page.put(match block.sort {
            BlockSort::Update => b"  update ",
            BlockSort::Once => b"  update_once ",
            BlockSort::Edge => b"  update_ff ",
        });
        page.put(block.name.as_slice());
        page.put(b"\n");
        if layer == Layer::Bodies {
            write_block_body(page, design, kind, block);
        }
    }
}
