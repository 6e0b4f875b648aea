//! Where a body stands.
use pm_design::{Design, Kind};

/// Where a body stands: its design, its kind of component, and the widths of its temporaries.
#[derive(Clone, Copy)]
pub struct Scene<'a> {
    pub design: &'a Design,
    pub kind: &'a Kind,
    pub temps: &'a [u32],
}

impl Scene<'_> {
    /// Whether these are all bits of a temporary.
    pub fn is_whole(&self, temporary: u32, lo: u32, width: u32) -> bool {
        lo == 0 && self.temps.get(temporary as usize) == Some(&width)
    }
}
