//! The type of a value of 1 to 128 bits: how one is made, its width and its number.
ghost use Rattle.std.specs.Prelude.{◌≡◌, ◌+◌, ◌-◌, ◌≤◌, ◌<◌, ◌^◌, ◌%◌, ◌↔◌, ◌⊎◌, ◌<ℤ◌, ◌≤ℤ◌, pos, neg_ℤ, IsNone, IfSome};
ghost use Rattle.pm_bits.specs.Word.{Word, IsWord, word_of, word_of_int, truth_of};

use std::marker::Model;

/// The greatest width of a value.
pub(crate) const MAX_WIDTH: u32 = 128;

/// A value of 1 to 128 bits: a width and an unsigned number below 2 to the width.
#[derive(Clone, Copy, Debug, PartialEq, Eq)]
pub struct Bits {
    width: u32,
    value: u128,
}

impl Model for Bits {
    ghost Value = { Word };

    ghost view = { λ b. record { width = b.width; value = b.value } };

    ghost invariant = { λ b. IsWord (record { width = b.width; value = b.value }) };

    ghost inverse = { λ w. record { width = w.width; value = w.value } };
}

impl Bits {
    /// The value of this width with this number. A number that does not fit is refused, never cut.
    pub fn new(width: u32, value: u128) -> Option<Bits>
        ensures none { IsNone result ↔ ((width ≡ 0) ⊎ ((128 < width) ⊎ (2 ^ width ≤ value))) }
        ensures value { IfSome result (λ b. b ≡ record { width = width; value = value }) }
    {
        if width == 0 || width > MAX_WIDTH || value > mask(width) {
            return None;
        }
        Some(Bits { width, value })
    }

    /// The value of this width whose number is this one modulo 2 to the width. So a constant of a
    /// design takes the width of its context. A number is refused if it fits neither as an unsigned
    /// nor as a two's complement number.
    pub fn of_int(width: u32, c: i64) -> Option<Bits>
        ensures none { IsNone result
            ↔ ((width ≡ 0) ⊎ ((128 < width) ⊎ ((c <ℤ neg_ℤ (pos (2 ^ (width - 1)))) ⊎ (pos (2 ^ width) ≤ℤ c)))) }
        ensures value { IfSome result (λ b. b ≡ word_of_int width c) }
    {
        if width == 0 || width > MAX_WIDTH {
            return None;
        }
        let size = u128::from(c.unsigned_abs());
        if c < 0 {
            if size > sign_bit(width) {
                return None;
            }
            return Some(Bits::of_low_bits(width, 0u128.wrapping_sub(size)));
        }
        if size > mask(width) {
            return None;
        }
        Some(Bits::of_low_bits(width, size))
    }

    /// The number of bits, from 1 to 128.
    pub fn width(self) -> u32
        ensures width { result ≡ self.width }
        ensures positive { 1 ≤ result }
        ensures narrow { result ≤ 128 }
    {
        self.width
    }

    /// The bits as an unsigned number, below 2 to the width.
    pub fn value(self) -> u128
        ensures value { result ≡ self.value }
        ensures fits { result < 2 ^ self.width }
    {
        self.value
    }

    // The low bits of a number.
    #[tactic(auto, using(crate::proofs::Masks::masked))]
    pub(crate) fn of_low_bits(width: u32, number: u128) -> Bits
        requires positive { 1 ≤ width }
        requires narrow { width ≤ 128 }
        ensures { result ≡ word_of width number }
    {
        Bits {
            width,
            value: number & mask(width),
        }
    }

    // One bit, set if and only if the test holds.
    pub(crate) fn of_truth(test: bool) -> Bits
        ensures { result ≡ truth_of test }
    {
        Bits {
            width: 1,
            value: u128::from(test),
        }
    }
}

// The greatest number of a width: all its bits are set.
#[tactic(auto, using(crate::proofs::Masks::ones_of_width))]
pub(crate) fn mask(width: u32) -> u128
    requires positive { 1 ≤ width }
    requires narrow { width ≤ 128 }
    ensures { result + 1 ≡ 2 ^ width }
{
    u128::MAX >> (MAX_WIDTH - width)
}

// The most significant bit of a width.
pub(crate) fn sign_bit(width: u32) -> u128
    requires positive { 1 ≤ width }
    requires narrow { width ≤ 128 }
    ensures { result ≡ 2 ^ (width - 1) }
{
    1 << (width - 1)
}
