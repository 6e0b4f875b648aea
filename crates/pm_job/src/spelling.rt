//! The spelling of the narrow form: names, numbers, and the parts of a line.
ghost use Rattle.std.specs.Prelude.{◌≡◌, ◌<◌, IfSome, ◌^◌, option_map};
ghost use Rattle.pm_job.specs.Spelling as spec;

use crate::words::number;
use memchr::memchr;
use pm_bits::{Bits, Op};
use pm_design::Role;
use pm_syn::is_proper_name;

/// The greatest length of a name.
const MAX_NAME: usize = 64;

/// The text before the first blank, and the text after it.
#[tactic(auto, using(crate::proofs::Cuts::cut_at, crate::proofs::Cuts::cut_nowhere))]
pub(crate) fn cut(text: &[u8]) -> Option<(&[u8], &[u8])>
    ensures { option_map (λ parts. (parts.0.now, parts.1.now)) result ≡ spec.cut text.now }
{
    match memchr(b' ', text) {
        Some(end) => Some((&text[..end], &text[end + 1..])),
        None => None,
    }
}

/// Whether a word is a name.
#[tactic(auto, unfolding(crate::specs::Spelling::is_name))]
pub(crate) fn is_name(word: &[u8]) -> bool
    ensures { result ≡ spec.is_name word.now }
{
    is_proper_name(word) && word.len() <= MAX_NAME
}

/// Whether a signal or a block is allowed to have this name.
#[tactic(auto, unfolding(crate::specs::Spelling::is_new_name))]
pub(crate) fn is_new_name(word: &[u8]) -> bool
    ensures { result ≡ spec.is_new_name word.now }
{
    is_name(word) && word != b"clk".as_slice() && word != b"reset".as_slice()
}

/// The number that a word writes without leading zeros, if it is below the bound.
#[tactic(auto, unfolding(crate::specs::Spelling::numeral_below))]
pub(crate) fn numeral_below(bound: u128, word: &[u8]) -> Option<u128>
    ensures value { result ≡ spec.numeral_below bound word.now }
    ensures fits { IfSome result (λ value. value < bound) }
{
    if word.len() > 1 && word[0] == b'0' {
        return None;
    }
    number(word).filter(|value| *value < bound)
}

/// The number as a value of this width, if it fits.
#[tactic(auto, unfolding(crate::specs::Spelling::value_where_it_fits))]
pub(crate) fn value_where_it_fits(width: u32, number: u128) -> Option<Bits>
    ensures { result ≡ spec.value_where_it_fits width number }
{
    Bits::new(width, number)
}

/// The role that a kind of port gives.
#[tactic(auto, unfolding(crate::specs::Spelling::role_of))]
pub(crate) fn role_of(word: &[u8]) -> Option<Role>
    ensures { result ≡ spec.role_of word.now }
{
    if word == b"InPort(".as_slice() {
        Some(Role::Input)
    } else if word == b"OutPort(".as_slice() {
        Some(Role::Output)
    } else if word == b"Wire(".as_slice() {
        Some(Role::Inner)
    } else {
        None
    }
}

/// The operator that a sign means.
#[tactic(auto, unfolding(crate::specs::Spelling::operator_of))]
pub(crate) fn operator_of(word: &[u8]) -> Option<Op>
    ensures { result ≡ spec.operator_of word.now }
{
    if word == b"+".as_slice() {
        Some(Op::Add)
    } else if word == b"&".as_slice() {
        Some(Op::And)
    } else if word == b"|".as_slice() {
        Some(Op::Or)
    } else if word == b"^".as_slice() {
        Some(Op::Xor)
    } else {
        None
    }
}
