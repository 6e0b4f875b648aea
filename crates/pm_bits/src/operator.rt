//! The operators as values, so that the tree of a design can name them.
ghost use Rattle.std.specs.Prelude.{◌≡◌, ◌↔◌, ◌≢◌, IsNone, IfSome};
ghost use Rattle.pm_bits.specs.Operator.{result_of, folding_of};

use crate::bits::Bits;

/// An operator of two operands of one width, as in PyMTL3's `Bits`.
#[derive(Clone, Copy, Debug, PartialEq, Eq)]
pub enum Op {
    /// The sum modulo 2 to the width.
    Add,
    /// The difference modulo 2 to the width.
    Sub,
    /// The product modulo 2 to the width.
    Mul,
    /// The bits set in both operands.
    And,
    /// The bits set in at least one operand.
    Or,
    /// The bits set in exactly one operand.
    Xor,
    /// The left operand's bits moved towards the most significant end, with zeros coming in.
    Shl,
    /// The left operand's bits moved towards the least significant end, with zeros coming in.
    Shr,
    /// One bit: whether the operands are equal.
    Eq,
    /// One bit: whether the operands differ.
    Ne,
    /// One bit: whether the left operand is below the right one.
    Lt,
    /// One bit: whether the left operand is at most the right one.
    Le,
    /// One bit: whether the left operand is above the right one.
    Gt,
    /// One bit: whether the left operand is at least the right one.
    Ge,
}

/// How all bits of a value are folded into one.
#[derive(Clone, Copy, PartialEq, Eq)]
pub enum Fold {
    /// Whether each bit is set.
    All,
    /// Whether some bit is set.
    Any,
    /// Whether an odd number of bits is set.
    Odd,
}

impl Op {
    /// The operator's result, of the operands' width, or of one bit for a comparison. `None` if the
    /// widths differ.
    pub fn apply(self, left: Bits, right: Bits) -> Option<Bits>
        ensures none { IsNone result ↔ (left.width ≢ right.width) }
        ensures value { IfSome result (λ b. b ≡ result_of self left right) }
    {
        match self {
            Op::Add => left.add(right),
            Op::Sub => left.sub(right),
            Op::Mul => left.mul(right),
            Op::And => left.and(right),
            Op::Or => left.or(right),
            Op::Xor => left.xor(right),
            Op::Shl => left.shl(right),
            Op::Shr => left.shr(right),
            Op::Eq => left.eq_bit(right),
            Op::Ne => left.ne_bit(right),
            Op::Lt => left.lt_bit(right),
            Op::Le => left.le_bit(right),
            Op::Gt => left.gt_bit(right),
            Op::Ge => left.ge_bit(right),
        }
    }
}

impl Fold {
    /// The bits of the value folded into one bit.
    pub fn apply(self, value: Bits) -> Bits
        ensures { result ≡ folding_of self value }
    {
        match self {
            Fold::All => value.reduce_and(),
            Fold::Any => value.reduce_or(),
            Fold::Odd => value.reduce_xor(),
        }
    }
}
