//! One run of `construct`.
use crate::class::ConstructedClass;
use crate::elaboration::RawKind;
use pm_design::Kind;
use pm_values::Value;

/// A name of `construct`.
#[derive(Drop)]
pub struct Local {
    pub value: Value,
    /// Whether it was assigned more than once.
    pub reassigned: bool,
}

/// One run of `construct`: what has become of the component so far. An interface has locals and attributes alone.
#[derive(Drop)]
pub struct Frame {
    pub class: ConstructedClass,
    pub kind: Kind,
    pub raw: RawKind,
    /// How many of its blocks are lambdas.
    pub lambdas: u32,
}
