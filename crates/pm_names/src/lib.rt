//! What names, attributes, elements and slices mean in `construct`.
//!
//! A value that is looked up is lent where something keeps it, as a name or an attribute does, and is made where nothing
//! does, as a bit of a signal.
#![tactic(auto)]

mod attributes;
mod elements;
mod found;
mod site;
mod view;

pub use attributes::attribute;
pub use elements::{element, indexable, slice, sliceable};
pub use found::Found;
pub use site::named;
