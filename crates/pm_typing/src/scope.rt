//! Where an expression of a body stands.
use crate::frame::Bound;
use pm_design::Kind;
use pm_elab::{RawDesign, RawKind};
use pm_values::Table;

/// Whose body it is, for what it may read and write.
#[derive(Clone, Copy, PartialEq, Eq)]
pub enum BodySort {
    /// An `@update` block or a lambda.
    Update,
    /// An `@update_once` block.
    Once,
    /// An `@update_ff` block.
    Edge,
    /// A method or its guard.
    Method,
}

/// What all lines of a body see.
#[derive(Clone, Copy)]
pub struct Scope<'a> {
    pub design: &'a RawDesign,
    pub kind: &'a Kind,
    pub raw: &'a RawKind,
    /// The places of the names that the body assigns.
    pub own: &'a Table<u32>,
    pub sort: BodySort,
}

/// Where an expression stands within a body.
#[derive(Clone, Copy)]
pub struct At<'a> {
    /// What the names of the body stand for.
    pub bounds: &'a [Bound],
    pub line: u32,
    /// Whether it stands within an index.
    pub inside_index: bool,
}
