//! Where a worker announces the block that it claimed.

/// Learns of each block that a worker is about to run. Tests use it to stop workers where they want them.
pub trait Gate: Sync {
    /// A worker claimed this block and hasn't run it yet.
    fn reached(&self, block: u32);
}

/// A gate that stops no worker.
#[derive(Clone, Copy, PartialEq, Eq)]
pub struct FreeGate;

impl Gate for FreeGate {
    fn reached(&self, _block: u32) {}
}
