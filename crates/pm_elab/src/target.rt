//! What `=` assigns to.
use pm_io::Text;

/// The left side of an assignment.
#[derive(Drop)]
pub enum Target {
    /// `name = ..`.
    Local(Text),
    /// `s.name = ..`.
    Attribute(Text),
    /// Anything else, which can't be assigned.
    Other,
}
