//! Laws of the operators. No code calls these functions: each one proves its law.
ghost use Rattle.pm_bits.specs.BitLaws.{BitsOfConjunction, BitsOfDisjunction, BitsOfExclusive, BitsOfComplement, BitsOfLeftShift, BitsOfRightShift, LeftShiftIsProduct, RightShiftIsQuotient, SameFromBits, AllSetMeans, NoneSetMeans, EqualityMeans, LessMeans, AtMostMeans, SumOfDifference};
ghost use Rattle.pm_bits.specs.PartLaws.{HighOfConcatenation, LowOfConcatenation, SliceOfReplaced, BitsOutsideStay, TruncationOfZeroExtension, TruncationOfSignExtension, SignExtensionByFlip};
ghost use Rattle.pm_bits.specs.WordLaws.{ResultIsWord, FoldingIsWord, IntIsWord, ComplementIsWord, SliceIsWord, WithSliceIsWord, ConcatenationIsWord, ZeroExtensionIsWord, SignExtensionIsWord, TruncationIsWord};

/// Bits of a conjunction are products of bits.
#[tactic(auto, using(crate::proofs::OnBits::bits_of_conjunction))]
pub fn bits_of_a_conjunction()
    ensures { BitsOfConjunction }
{}

/// Bits of a disjunction are the greater bits.
#[tactic(auto, using(crate::proofs::OnBits::bits_of_disjunction))]
pub fn bits_of_a_disjunction()
    ensures { BitsOfDisjunction }
{}

/// Bits of an exclusive or are sums of bits modulo 2.
#[tactic(auto, using(crate::proofs::OnBits::bits_of_exclusive))]
pub fn bits_of_an_exclusive_or()
    ensures { BitsOfExclusive }
{}

/// Bits of a complement are flipped bits.
#[tactic(auto, using(crate::proofs::OnBits::bits_of_complement))]
pub fn bits_of_a_complement()
    ensures { BitsOfComplement }
{}

/// A shift to the left brings bits up, and zeros in.
#[tactic(auto, using(crate::proofs::OnBits::bits_of_left_shift))]
pub fn bits_of_a_left_shift()
    ensures { BitsOfLeftShift }
{}

/// A shift to the right brings bits down, and zeros in.
#[tactic(auto, using(crate::proofs::OnBits::bits_of_right_shift))]
pub fn bits_of_a_right_shift()
    ensures { BitsOfRightShift }
{}

/// A shift to the left is a product with a power of 2.
#[tactic(auto, using(crate::proofs::OnBits::left_shift_is_product))]
pub fn a_left_shift_is_a_product()
    ensures { LeftShiftIsProduct }
{}

/// A shift to the right is a quotient by a power of 2.
#[tactic(auto, using(crate::proofs::OnBits::right_shift_is_quotient))]
pub fn a_right_shift_is_a_quotient()
    ensures { RightShiftIsQuotient }
{}

/// Words of one width with the same bits are one word.
#[tactic(auto, using(crate::proofs::OnBits::same_from_bits))]
pub fn words_are_their_bits()
    ensures { SameFromBits }
{}

/// `reduce_and` is 1 exactly when each bit is 1.
#[tactic(auto, using(crate::proofs::OnBits::all_set_means))]
pub fn all_set_is_each_bit()
    ensures { AllSetMeans }
{}

/// `reduce_or` is 0 exactly when each bit is 0.
#[tactic(auto, using(crate::proofs::OnBits::none_set_means))]
pub fn none_set_is_no_bit()
    ensures { NoneSetMeans }
{}

/// `eq_bit` is 1 exactly when the words are one word.
#[tactic(auto, using(crate::proofs::OnBits::equality_means))]
pub fn equality_is_equality()
    ensures { EqualityMeans }
{}

/// `lt_bit` is 1 exactly when the first number is below the second.
#[tactic(auto, using(crate::proofs::OnBits::less_means))]
pub fn less_is_below()
    ensures { LessMeans }
{}

/// `le_bit` is 1 exactly when the first number is at most the second.
#[tactic(auto, using(crate::proofs::OnBits::at_most_means))]
pub fn at_most_is_at_most()
    ensures { AtMostMeans }
{}

/// `(a - b) + b` is `a`.
#[tactic(auto, using(crate::proofs::OnBits::sum_of_difference))]
pub fn a_difference_added_back()
    ensures { SumOfDifference }
{}

/// The high part of a concatenation is the first word.
#[tactic(auto, using(crate::proofs::OnParts::high_of_concatenation))]
pub fn high_part_of_a_concatenation()
    ensures { HighOfConcatenation }
{}

/// The low part of a concatenation is the second word.
#[tactic(auto, using(crate::proofs::OnParts::low_of_concatenation))]
pub fn low_part_of_a_concatenation()
    ensures { LowOfConcatenation }
{}

/// A slice at a part that was put in is the part.
#[tactic(auto, using(crate::proofs::OnParts::slice_of_replaced))]
pub fn a_part_put_in_is_read_again()
    ensures { SliceOfReplaced }
{}

/// A part that is put in changes no bit below or above it.
#[tactic(auto, using(crate::proofs::OnParts::bits_outside_stay))]
pub fn bits_outside_a_part_stay()
    ensures { BitsOutsideStay }
{}

/// The low part of an extension by zeros is the word.
#[tactic(auto, using(crate::proofs::OnParts::truncation_of_zero_extension))]
pub fn low_part_of_a_zero_extension()
    ensures { TruncationOfZeroExtension }
{}

/// The low part of an extension by the sign is the word.
#[tactic(auto, using(crate::proofs::OnParts::truncation_of_sign_extension))]
pub fn low_part_of_a_sign_extension()
    ensures { TruncationOfSignExtension }
{}

/// An extension by the sign is `(x ^ m) - m`, where `m` is the sign bit.
#[tactic(auto, using(crate::proofs::OnParts::sign_extension_by_flip))]
pub fn a_sign_extension_flips_the_sign()
    ensures { SignExtensionByFlip }
{}

/// An operator's result fits its width.
#[tactic(auto, using(crate::proofs::OnWords::result_is_word))]
pub fn a_result_is_a_word()
    ensures { ResultIsWord }
{}

/// A word folded into one bit is one bit.
#[tactic(auto, using(crate::proofs::OnWords::folding_is_word))]
pub fn a_folding_is_a_word()
    ensures { FoldingIsWord }
{}

/// A signed number modulo 2 to a width fits it.
#[tactic(auto, using(crate::proofs::OnWords::int_is_word))]
pub fn an_int_at_a_width_is_a_word()
    ensures { IntIsWord }
{}

/// A complement fits its width.
#[tactic(auto, using(crate::proofs::OnWords::complement_is_word))]
pub fn a_complement_is_a_word()
    ensures { ComplementIsWord }
{}

/// A slice within the width fits its own.
#[tactic(auto, using(crate::proofs::OnWords::slice_is_word))]
pub fn a_slice_is_a_word()
    ensures { SliceIsWord }
{}

/// A word with a part put in fits its width.
#[tactic(auto, using(crate::proofs::OnWords::with_slice_is_word))]
pub fn a_word_with_a_part_is_a_word()
    ensures { WithSliceIsWord }
{}

/// A concatenation of at most 128 bits is a word.
#[tactic(auto, using(crate::proofs::OnWords::concatenation_is_word))]
pub fn a_concatenation_is_a_word()
    ensures { ConcatenationIsWord }
{}

/// An extension by zeros fits the new width.
#[tactic(auto, using(crate::proofs::OnWords::zero_extension_is_word))]
pub fn a_zero_extension_is_a_word()
    ensures { ZeroExtensionIsWord }
{}

/// An extension by the sign fits the new width.
#[tactic(auto, using(crate::proofs::OnWords::sign_extension_is_word))]
pub fn a_sign_extension_is_a_word()
    ensures { SignExtensionIsWord }
{}

/// The low bits fit their number.
#[tactic(auto, using(crate::proofs::OnWords::truncation_is_word))]
pub fn a_truncation_is_a_word()
    ensures { TruncationIsWord }
{}
