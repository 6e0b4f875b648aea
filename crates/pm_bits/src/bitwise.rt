//! Operators on the bits of a value: each bit alone, all bits moved, and all bits in one.
ghost use Rattle.std.specs.Prelude.{◌≡◌, ◌≤◌, ◌↔◌, ◌≢◌, IsNone, IfSome, IsTrue};
ghost use Rattle.pm_bits.specs.Bitwise.{conjunction_of, disjunction_of, exclusive_of, complement_of, left_shift_of, right_shift_of, all_set_of, any_set_of, odd_set_of};

use crate::bits::{Bits, mask};

impl Bits {
    /// The bits set in both operands, of their width. `None` if the widths differ.
    #[tactic(auto, using(crate::proofs::Masks::and_uncut))]
    pub fn and(self, other: Bits) -> Option<Bits>
        ensures none { IsNone result ↔ (self.width ≢ other.width) }
        ensures value { IfSome result (λ b. b ≡ conjunction_of self other) }
    {
        if self.width() != other.width() {
            return None;
        }
        Some(Bits::of_low_bits(self.width(), self.value() & other.value()))
    }

    /// The bits set in at least one operand, of their width. `None` if the widths differ.
    #[tactic(auto, using(crate::proofs::Masks::or_uncut))]
    pub fn or(self, other: Bits) -> Option<Bits>
        ensures none { IsNone result ↔ (self.width ≢ other.width) }
        ensures value { IfSome result (λ b. b ≡ disjunction_of self other) }
    {
        if self.width() != other.width() {
            return None;
        }
        Some(Bits::of_low_bits(self.width(), self.value() | other.value()))
    }

    /// The bits set in exactly one operand, of their width. `None` if the widths differ.
    #[tactic(auto, using(crate::proofs::Masks::xor_uncut))]
    pub fn xor(self, other: Bits) -> Option<Bits>
        ensures none { IsNone result ↔ (self.width ≢ other.width) }
        ensures value { IfSome result (λ b. b ≡ exclusive_of self other) }
    {
        if self.width() != other.width() {
            return None;
        }
        Some(Bits::of_low_bits(self.width(), self.value() ^ other.value()))
    }

    /// The bits that are not set, of the same width.
    #[tactic(auto, using(crate::proofs::Masks::cut_complement))]
    pub fn not(self) -> Bits
        ensures { result ≡ complement_of self }
    {
        Bits::of_low_bits(self.width(), !self.value())
    }

    /// The bits moved towards the most significant end by as many bits as the other operand says.
    /// Zeros come in, and a shift by the width or more gives 0. `None` if the widths differ.
    #[tactic(auto, using(crate::proofs::Moves::moves))]
    pub fn shl(self, other: Bits) -> Option<Bits>
        ensures none { IsNone result ↔ (self.width ≢ other.width) }
        ensures value { IfSome result (λ b. b ≡ left_shift_of self other) }
    {
        if self.width() != other.width() {
            return None;
        }
        if self.is_moved_out_by(other) {
            return Some(Bits::of_low_bits(self.width(), 0));
        }
        Some(Bits::of_low_bits(self.width(), self.value() << other.value()))
    }

    /// The bits moved towards the least significant end by as many bits as the other operand says.
    /// Zeros come in, and a shift by the width or more gives 0. `None` if the widths differ.
    pub fn shr(self, other: Bits) -> Option<Bits>
        ensures none { IsNone result ↔ (self.width ≢ other.width) }
        ensures value { IfSome result (λ b. b ≡ right_shift_of self other) }
    {
        if self.width() != other.width() {
            return None;
        }
        if self.is_moved_out_by(other) {
            return Some(Bits::of_low_bits(self.width(), 0));
        }
        Some(Bits::of_low_bits(self.width(), self.value() >> other.value()))
    }

    // Whether a shift by this number moves all bits out of the width.
    fn is_moved_out_by(self, places: Bits) -> bool
        ensures { IsTrue result ↔ (self.width ≤ places.value) }
    {
        places.value() >= u128::from(self.width())
    }

    /// One bit: whether each bit is set.
    pub fn reduce_and(self) -> Bits
        ensures { result ≡ all_set_of self }
    {
        Bits::of_truth(self.value() == mask(self.width()))
    }

    /// One bit: whether some bit is set.
    pub fn reduce_or(self) -> Bits
        ensures { result ≡ any_set_of self }
    {
        Bits::of_truth(self.value() != 0)
    }

    /// One bit: whether an odd number of bits is set.
    #[tactic(auto, using(crate::proofs::Ones::set_bits_of_word))]
    pub fn reduce_xor(self) -> Bits
        ensures { result ≡ odd_set_of self }
    {
        Bits::of_low_bits(1, u128::from(self.value().count_ones()))
    }
}
