//! What a state starts with.
use pm_bits::Bits;

/// What a state starts with. A deque is empty at first.
#[derive(Clone, Copy, PartialEq, Eq)]
pub struct Start {
    /// How many items a deque holds at most, or 0 for a number.
    pub maxlen: u32,
    /// The number, or 0 for a deque.
    pub value: Bits,
}
