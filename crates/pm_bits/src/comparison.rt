//! Comparisons of unsigned numbers, each with a result of one bit.
ghost use Rattle.std.specs.Prelude.{◌≡◌, ◌↔◌, ◌≢◌, IsNone, IfSome};
ghost use Rattle.pm_bits.specs.Comparison.{equality_of, inequality_of, less_of, at_most_of, greater_of, at_least_of};

use crate::bits::Bits;

impl Bits {
    /// One bit: whether the operands are equal. `None` if the widths differ.
    pub fn eq_bit(self, other: Bits) -> Option<Bits>
        ensures none { IsNone result ↔ (self.width ≢ other.width) }
        ensures value { IfSome result (λ b. b ≡ equality_of self other) }
    {
        if self.width() != other.width() {
            return None;
        }
        Some(Bits::of_truth(self.value() == other.value()))
    }

    /// One bit: whether the operands differ. `None` if the widths differ.
    pub fn ne_bit(self, other: Bits) -> Option<Bits>
        ensures none { IsNone result ↔ (self.width ≢ other.width) }
        ensures value { IfSome result (λ b. b ≡ inequality_of self other) }
    {
        if self.width() != other.width() {
            return None;
        }
        Some(Bits::of_truth(self.value() != other.value()))
    }

    /// One bit: whether this number is below the other. `None` if the widths differ.
    pub fn lt_bit(self, other: Bits) -> Option<Bits>
        ensures none { IsNone result ↔ (self.width ≢ other.width) }
        ensures value { IfSome result (λ b. b ≡ less_of self other) }
    {
        if self.width() != other.width() {
            return None;
        }
        Some(Bits::of_truth(self.value() < other.value()))
    }

    /// One bit: whether this number is at most the other. `None` if the widths differ.
    pub fn le_bit(self, other: Bits) -> Option<Bits>
        ensures none { IsNone result ↔ (self.width ≢ other.width) }
        ensures value { IfSome result (λ b. b ≡ at_most_of self other) }
    {
        if self.width() != other.width() {
            return None;
        }
        Some(Bits::of_truth(self.value() <= other.value()))
    }

    /// One bit: whether this number is above the other. `None` if the widths differ.
    pub fn gt_bit(self, other: Bits) -> Option<Bits>
        ensures none { IsNone result ↔ (self.width ≢ other.width) }
        ensures value { IfSome result (λ b. b ≡ greater_of self other) }
    {
        if self.width() != other.width() {
            return None;
        }
        Some(Bits::of_truth(self.value() > other.value()))
    }

    /// One bit: whether this number is at least the other. `None` if the widths differ.
    pub fn ge_bit(self, other: Bits) -> Option<Bits>
        ensures none { IsNone result ↔ (self.width ≢ other.width) }
        ensures value { IfSome result (λ b. b ≡ at_least_of self other) }
    {
        if self.width() != other.width() {
            return None;
        }
        Some(Bits::of_truth(self.value() >= other.value()))
    }
}
