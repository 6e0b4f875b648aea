//! What is true of vectors and traces.
ghost use Rattle.pm_trace.specs.Laws.{RowsHaveOneReading, ValuesAreReadBack};

/// A line is read in one way: whether it is a row, and what the row is then.
#[tactic(auto, using(crate::proofs::OneReading::rows_have_one_reading))]
pub fn rows_have_one_reading()
    ensures { RowsHaveOneReading }
{}

/// A value of a trace, read as hexadecimal after `0x`, is that value.
#[tactic(auto, using(crate::proofs::ReadBack::values_are_read_back))]
pub fn values_are_read_back()
    ensures { ValuesAreReadBack }
{}
