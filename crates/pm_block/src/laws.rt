//! Laws of values and runs. No code calls these functions: each one proves its law.
ghost use Rattle.pm_block.specs.RunLaws.{AssignmentsWait, LastAssignmentCounts, OthersStay, PastTheEndReadsZero, PastTheEndWritesNothing, PutIsRead};
ghost use Rattle.pm_block.specs.ValueLaws.{ValueFits};

/// The value of a sound expression fits its width.
#[tactic(auto, using(crate::proofs::ValuesFit::value_fits))]
pub fn values_fit()
    ensures { ValueFits }
{}

/// An index past the end reads 0, and writes nothing.
#[tactic(auto, using(crate::proofs::RunsMean::past_the_end_reads_zero, crate::proofs::RunsMean::past_the_end_writes_nothing))]
pub fn an_index_past_the_end()
    ensures reads { PastTheEndReadsZero }
    ensures writes { PastTheEndWritesNothing }
{}

/// At the clock edge no assignment changes the places before the end of its block.
#[tactic(auto, using(crate::proofs::RunsMean::assignments_wait))]
pub fn assignments_wait_for_the_end()
    ensures { AssignmentsWait }
{}

/// A word that is put into places is read again, if no two of them are one, and all other places stay.
#[tactic(auto, using(crate::proofs::RunsMean::put_is_read, crate::proofs::RunsMean::others_stay))]
pub fn a_word_that_is_put_is_read_again()
    ensures same { PutIsRead }
    ensures others { OthersStay }
{}

/// At the clock edge the last of two assignments of a part counts.
#[tactic(auto, using(crate::proofs::RunsMean::last_assignment_counts))]
pub fn the_last_assignment_counts()
    ensures { LastAssignmentCounts }
{}
