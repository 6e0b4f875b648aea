//! Sums, differences and products.
ghost use Rattle.std.specs.Prelude.{◌≡◌, ◌↔◌, ◌≢◌, IsNone, IfSome};
ghost use Rattle.pm_bits.specs.Arithmetic.{sum_of, difference_of, product_of};

use crate::bits::Bits;

impl Bits {
    /// The sum modulo 2 to the width, of the operands' width. `None` if the widths differ.
    #[tactic(auto, using(crate::proofs::Masks::cut_again))]
    pub fn add(self, other: Bits) -> Option<Bits>
        ensures none { IsNone result ↔ (self.width ≢ other.width) }
        ensures value { IfSome result (λ b. b ≡ sum_of self other) }
    {
        if self.width() != other.width() {
            return None;
        }
        Some(Bits::of_low_bits(self.width(), self.value().wrapping_add(other.value())))
    }

    /// The difference modulo 2 to the width, of the operands' width. `None` if the widths
    /// differ.
    #[tactic(auto, using(crate::proofs::Masks::cut_difference))]
    pub fn sub(self, other: Bits) -> Option<Bits>
        ensures none { IsNone result ↔ (self.width ≢ other.width) }
        ensures value { IfSome result (λ b. b ≡ difference_of self other) }
    {
        if self.width() != other.width() {
            return None;
        }
        Some(Bits::of_low_bits(self.width(), self.value().wrapping_sub(other.value())))
    }

    /// The product modulo 2 to the width, of the operands' width. `None` if the widths differ.
    #[tactic(auto, using(crate::proofs::Masks::cut_again))]
    pub fn mul(self, other: Bits) -> Option<Bits>
        ensures none { IsNone result ↔ (self.width ≢ other.width) }
        ensures value { IfSome result (λ b. b ≡ product_of self other) }
    {
        if self.width() != other.width() {
            return None;
        }
        Some(Bits::of_low_bits(self.width(), self.value().wrapping_mul(other.value())))
    }
}
