//! An order in which the update blocks of a component run.
use crate::component::Component;

/// A component, and an order in which its update blocks run.
#[derive(Clone, Copy)]
pub struct Schedule<'a> {
    pub component: &'a Component,
    /// The indices of the blocks.
    pub order: &'a [usize],
}
