//! Parts of a value, values joined, and values of another width.
ghost use Rattle.std.specs.Prelude.{◌≡◌, ◌+◌, ◌<◌, ◌≤◌, ◌↔◌, ◌⊎◌, IsNone, IfSome};
ghost use Rattle.pm_bits.specs.Parts.{slice_of, with_slice_of, concatenation_of, zero_extension_of, sign_extension_of, truncation_of};

use crate::bits::{Bits, MAX_WIDTH, mask, sign_bit};

impl Bits {
    /// The bits from `lo` up to `hi - 1`, where bit 0 is the least significant, as a value of
    /// `hi - lo` bits. `None` if there is no such bit, or if one is past the width.
    pub fn slice(self, lo: u32, hi: u32) -> Option<Bits>
        ensures none { IsNone result ↔ ((hi ≤ lo) ⊎ (self.width < hi)) }
        ensures value { IfSome result (λ b. b ≡ slice_of self lo hi) }
    {
        if hi <= lo || hi > self.width() {
            return None;
        }
        Some(Bits::of_low_bits(hi - lo, self.value() >> lo))
    }

    /// This value with the bits from `lo` on replaced by the part. The width stays. `None` if the
    /// part passes the width.
    pub fn with_slice(self, lo: u32, part: Bits) -> Option<Bits>
        ensures none { IsNone result ↔ (self.width < lo + part.width) }
        ensures value { IfSome result (λ b. b ≡ with_slice_of self lo part) }
    {
        if lo > self.width() || part.width() > self.width() - lo {
            return None;
        }
        let covered = mask(part.width()) << lo;
        let value = (self.value() & !covered) | (part.value() << lo);
        Some(Bits::of_low_bits(self.width(), value))
    }

    /// The bits of both values, those of this one the most significant. `None` if they are more
    /// than 128 bits.
    #[tactic(auto, using(crate::proofs::Joins::joined))]
    pub fn concat(self, low: Bits) -> Option<Bits>
        ensures none { IsNone result ↔ (128 < self.width + low.width) }
        ensures value { IfSome result (λ b. b ≡ concatenation_of self low) }
    {
        let width = self.width() + low.width();
        if width > MAX_WIDTH {
            return None;
        }
        Some(Bits::of_low_bits(width, (self.value() << low.width()) | low.value()))
    }

    /// The same number in `n` bits. `None` if `n` is below the width or over 128.
    pub fn zext(self, n: u32) -> Option<Bits>
        ensures none { IsNone result ↔ ((n < self.width) ⊎ (128 < n)) }
        ensures value { IfSome result (λ b. b ≡ zero_extension_of self n) }
    {
        if n < self.width() || n > MAX_WIDTH {
            return None;
        }
        Some(Bits::of_low_bits(n, self.value()))
    }

    /// The same two's complement number in `n` bits: the most significant bit is repeated. `None`
    /// if `n` is below the width or over 128.
    pub fn sext(self, n: u32) -> Option<Bits>
        ensures none { IsNone result ↔ ((n < self.width) ⊎ (128 < n)) }
        ensures value { IfSome result (λ b. b ≡ sign_extension_of self n) }
    {
        if n < self.width() || n > MAX_WIDTH {
            return None;
        }
        let sign = sign_bit(self.width());
        Some(Bits::of_low_bits(n, (self.value() ^ sign).wrapping_sub(sign)))
    }

    /// The low `n` bits. `None` if `n` is 0 or over the width.
    pub fn trunc(self, n: u32) -> Option<Bits>
        ensures none { IsNone result ↔ ((n ≡ 0) ⊎ (self.width < n)) }
        ensures value { IfSome result (λ b. b ≡ truncation_of self n) }
    {
        if n == 0 || n > self.width() {
            return None;
        }
        Some(Bits::of_low_bits(n, self.value()))
    }
}
