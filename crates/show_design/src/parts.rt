//! What connections, binds and constraints name. A name that a design doesn't have is a question mark.
use crate::page::Page;
use pm_design::{Callee, Caller, Design, Kind, Method, Part, Signal};
use pm_io::List;

/// Writes a part, as `q.recv.msg[11:0]`.
pub fn write_part(page: &mut Page, design: &Design, kind: &Kind, part: &Part) {
    match part.owner.checked_sub(1) {
        None => page.put(signal_name(&kind.signals, part.signal)),
        Some(child) => {
            page.put(child_name(kind, child));
            page.put(b".");
            page.put(match kind_of_child(design, kind, child) {
                Some(its_kind) => signal_name(&its_kind.signals, part.signal),
                None => b"?",
            });
        }
    }
    write_range(page, part.lo, part.width);
}

/// Writes the bits of a signal from the lowest one on, as `[11:8]`.
pub fn write_range(page: &mut Page, lo: u32, width: u32) {
    page.put(b"[");
    page.put_number(lo.saturating_add(width).saturating_sub(1));
    page.put(b":");
    page.put_number(lo);
    page.put(b"]");
}

/// Writes the name of a state.
pub fn write_state(page: &mut Page, kind: &Kind, state: u32) {
    page.put(match kind.states.as_slice().get(state as usize) {
        Some(state) => state.name.as_slice(),
        None => b"?",
    });
}

/// Writes the name of a method or a caller port.
pub fn write_callee(page: &mut Page, design: &Design, kind: &Kind, callee: &Callee) {
    match callee {
        Callee::Own(method) => page.put(method_name(&kind.methods, *method)),
        Callee::Port(port) => page.put(caller_name(&kind.callers, *port)),
        Callee::Child(child, method) => {
            page.put(child_name(kind, *child));
            page.put(b".");
            page.put(match kind_of_child(design, kind, *child) {
                Some(its_kind) => method_name(&its_kind.methods, *method),
                None => b"?",
            });
        }
        Callee::ChildPort(child, port) => {
            page.put(child_name(kind, *child));
            page.put(b".");
            page.put(match kind_of_child(design, kind, *child) {
                Some(its_kind) => caller_name(&its_kind.callers, *port),
                None => b"?",
            });
        }
    }
}

fn kind_of_child<'a>(design: &'a Design, kind: &Kind, child: u32) -> Option<&'a Kind> {
    let number = kind.children.as_slice().get(child as usize)?.kind;
    design.kinds.as_slice().get(number as usize)
}

fn child_name(kind: &Kind, child: u32) -> &[u8] {
    match kind.children.as_slice().get(child as usize) {
        Some(child) => child.name.as_slice(),
        None => b"?",
    }
}

fn signal_name(signals: &List<Signal>, signal: u32) -> &[u8] {
    match signals.as_slice().get(signal as usize) {
        Some(signal) => signal.name.as_slice(),
        None => b"?",
    }
}

fn method_name(methods: &List<Method>, method: u32) -> &[u8] {
    match methods.as_slice().get(method as usize) {
        Some(method) => method.name.as_slice(),
        None => b"?",
    }
}

fn caller_name(callers: &List<Caller>, port: u32) -> &[u8] {
    match callers.as_slice().get(port as usize) {
        Some(caller) => caller.name.as_slice(),
        None => b"?",
    }
}
