//! Values of 1 to 128 bits, and the operators of a hardware design on them.
//!
//! A [`Bits`] is what a wire, a port or a register of a design carries: a width, and an unsigned
//! number below 2 to the width. The operators are those of PyMTL3's `Bits`: they take operands of
//! one width, wrap modulo 2 to the width, shift logically and compare unsigned numbers. A call
//! that has no value for its widths returns `None`. No call allocates, and none has a condition.
//!
//! **What a contract says.** Contracts see a `Bits` as a `Word`, a record of a width and a number.
//! Each call has a clause `none`, which says exactly when there is no value, and a clause `value`,
//! which gives the value by one definition over numbers, such as `sum_of` or `slice_of`. The
//! functions of [`laws`] prove that each result fits its width, and what each definition does to
//! single bits.
//!
//! - `bits`: the type [`Bits`], with `new`, `of_int`, `width` and `value`
//! - `arithmetic`: `add`, `sub`, `mul`
//! - `bitwise`: `and`, `or`, `xor`, `not`, `shl`, `shr`, `reduce_and`, `reduce_or`, `reduce_xor`
//! - `comparison`: `eq_bit`, `ne_bit`, `lt_bit`, `le_bit`, `gt_bit`, `ge_bit`
//! - `parts`: `slice`, `with_slice`, `concat`, `zext`, `sext`, `trunc`
//! - `operator`: the enums [`Op`] and [`Fold`], each with `apply`
//! - [`laws`]: the laws of the definitions
#![tactic(auto)]

mod arithmetic;
mod bits;
mod bitwise;
mod comparison;
pub mod laws;
mod operator;
mod parts;

pub use bits::Bits;
pub use operator::{Fold, Op};
