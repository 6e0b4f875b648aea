//! The layers `kinds` and `bodies`: the bitstructs of a design, its kinds of component, and which kind is the top's.
use crate::members::{
    write_blocks, write_callers, write_children, write_methods, write_signals, write_states,
};
use crate::page::Page;
use crate::parts::write_range;
use crate::wiring::{write_binds, write_joins, write_mismatched, write_rules, write_ties};
use crate::words::Layer;
use pm_design::{Design, Kind, Shape};

/// Writes the layer, which is `kinds` or `bodies`.
pub fn write_kinds(page: &mut Page, layer: Layer, design: &Design) {
    for (number, shape) in design.shapes.as_slice().iter().enumerate() {
        write_shape(page, number, shape);
    }
    for (number, kind) in design.kinds.as_slice().iter().enumerate() {
        write_kind(page, layer, design, number, kind);
    }
    page.put(b"top ");
    page.put_number(design.top);
    page.put(b"\n");
}

fn write_shape(page: &mut Page, number: usize, shape: &Shape) {
    page.put(b"shape ");
    page.put_index(number);
    page.put(b" ");
    page.put(shape.name.as_slice());
    page.put(b" ");
    page.put_number(shape.width);
    page.put(b"\n");
    for field in shape.fields.as_slice() {
        page.put(b"  field ");
        page.put(field.name.as_slice());
        write_range(page, field.lo, field.width);
        page.put_shape(field.shape);
        page.put(b"\n");
    }
}

fn write_kind(page: &mut Page, layer: Layer, design: &Design, number: usize, kind: &Kind) {
    page.put(b"kind ");
    page.put_index(number);
    page.put(b" ");
    page.put(kind.class.as_slice());
    page.put_field(b"instances", kind.instances);
    page.put(b"\n");
    write_signals(page, kind);
    write_states(page, kind);
    write_children(page, kind);
    write_callers(page, kind);
    write_joins(page, design, kind);
    write_mismatched(page, kind);
    write_ties(page, design, kind);
    write_binds(page, design, kind);
    write_rules(page, design, kind);
    write_methods(page, layer, design, kind);
    write_blocks(page, layer, design, kind);
}
