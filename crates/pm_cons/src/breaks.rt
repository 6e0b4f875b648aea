//! What can be wrong with a listed order.

/// The first fault of a list of block numbers. The first three carry a place in the list, from 0.
#[derive(Clone, Copy, Debug, PartialEq, Eq, Drop)]
pub enum Break {
    /// The number at this place is no block.
    Unknown(u32),
    /// The block at this place is listed earlier too.
    Repeated(u32),
    /// The block at this place has a direct predecessor that isn't listed before it.
    Early(u32),
    /// The list has no fault at any place, and this is the least block that isn't in it.
    Missing(u32),
}
