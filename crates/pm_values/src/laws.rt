//! Laws of integers, ranges and tables. No code calls these functions: each one proves its law.
ghost use Rattle.pm_values.specs.IntegerLaws.{QuotientAndRemainder, RemainderByPositive, RemainderByNegative, PowerIsProduct, BitsOfAnd, BitsOfOr, BitsOfXor};
ghost use Rattle.pm_values.specs.Ranges.{RangeUpwards, RangeDownwards};
ghost use Rattle.pm_values.specs.Tables.{PutIsFound, OthersStay, NewNameIsLast, OldNameStays};

/// A quotient and a remainder make up the number that was divided.
#[tactic(auto, using(crate::proofs::Divisions::quotient_and_remainder))]
pub fn quotient_and_remainder()
    ensures { QuotientAndRemainder }
{}

/// A remainder by a positive divisor is at least 0 and below the divisor.
#[tactic(auto, using(crate::proofs::Divisions::remainder_by_positive))]
pub fn remainder_by_a_positive()
    ensures { RemainderByPositive }
{}

/// A remainder by a negative divisor is at most 0 and above the divisor.
#[tactic(auto, using(crate::proofs::Divisions::remainder_by_negative))]
pub fn remainder_by_a_negative()
    ensures { RemainderByNegative }
{}

/// A power is a product.
pub fn a_power_is_a_product()
    ensures { PowerIsProduct }
{}

/// Bits of a conjunction are the lower bits.
#[tactic(auto, using(crate::proofs::OnBits::bits_of_and))]
pub fn bits_of_a_conjunction()
    ensures { BitsOfAnd }
{}

/// Bits of a disjunction are the greater bits.
#[tactic(auto, using(crate::proofs::OnBits::bits_of_or))]
pub fn bits_of_a_disjunction()
    ensures { BitsOfOr }
{}

/// Bits of an exclusive or are sums modulo 2.
#[tactic(auto, using(crate::proofs::OnBits::bits_of_xor))]
pub fn bits_of_an_exclusive_or()
    ensures { BitsOfXor }
{}

/// A range that counts up has the integers before its stop.
#[tactic(auto, using(crate::proofs::Counts::range_upwards))]
pub fn a_range_upwards_ends_before_its_stop()
    ensures { RangeUpwards }
{}

/// A range that counts down has the integers above its stop.
#[tactic(auto, using(crate::proofs::Counts::range_downwards))]
pub fn a_range_downwards_ends_before_its_stop()
    ensures { RangeDownwards }
{}

/// A name that was put stands for its value.
#[tactic(auto, using(crate::proofs::Tables::put_is_found))]
pub fn a_name_that_was_put_is_found<T>()
    ensures { PutIsFound T }
{}

/// Other names stand for what they stood for.
#[tactic(auto, using(crate::proofs::Tables::others_stay))]
pub fn other_names_stay<T>()
    ensures { OthersStay T }
{}

/// A new name goes to the end.
#[tactic(auto, using(crate::proofs::Tables::new_name_is_last))]
pub fn a_new_name_is_last<T>()
    ensures { NewNameIsLast T }
{}

/// A name that is there keeps its place.
#[tactic(auto, using(crate::proofs::Tables::old_name_stays))]
pub fn an_old_name_stays<T>()
    ensures { OldNameStays T }
{}
