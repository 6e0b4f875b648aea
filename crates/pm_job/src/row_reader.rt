//! The rows of an input, line by line.
ghost use Rattle.std.specs.Prelude.{true, IfOk, ◌≡◌, ◌<◌, ◌++◌, drop, take, length, IsTrue};
ghost use Rattle.std.specs.List.{list_all};
ghost use Rattle.pm_io.specs.Causes.{HasCause};
ghost use Rattle.pm_io.specs.Known.{Empties};
ghost use Rattle.pm_io.specs.Reading.{ahead, new_reading};
ghost use Rattle.pm_job.specs.Answers.{reset_row, with_reset};
ghost use Rattle.pm_job.specs.Progress.{GivesHeader, GivesNoRow, GivesRow};
ghost use Rattle.pm_job.specs.Sound.{is_width, widths_of};
ghost use Rattle.pm_job.specs.Values.{value_widths};

use crate::component::Component;
use crate::finish::Finish;
use crate::initial::{bit, reset_values};
use crate::vectors::{RowGot, is_header, read_row};
use pm_bits::Bits;
use pm_io::{LineGot, Lines, NoMemory, Source};
use std::alloc::Global;

/// The greatest length of a line of the input before its LF, in bytes.
pub const LINE_LIMIT: usize = 65_536;

/// The greatest number of rows of an input.
pub const ROW_LIMIT: u64 = 1_048_576;

/// What the first line of an input is.
#[derive(Clone, Copy)]
pub enum HeaderGot {
    /// The header.
    Good,
    /// Nothing: there is no line, and the component needs none.
    Empty,
    /// Something else.
    Bad,
    /// Unknown: a read failed.
    Failed,
}

/// What the next line of an input is.
#[derive(Clone, Copy)]
pub enum NextRow {
    /// A row, whose values were put in place.
    Row,
    /// Nothing: the input is at its end.
    End,
    /// Something else.
    Refused,
    /// Unknown: a read failed.
    Failed,
}

/// The lines of an input, and the row that was read last.
#[derive(Drop)]
pub struct RowReader {
    pub lines: Lines,
    /// A value for each input, `reset` first.
    pub row: Vec<Bits>,
}

impl RowReader {
    /// A reader before the first line. In its row `reset` is 1, and each other input 0.
    pub fn new(alloc: Global, component: &Component) -> Result<RowReader, NoMemory>
        requires { list_all is_width (widths_of component.now.signals) ≡ true }
        ensures lines { IfOk result (λ rows. rows.lines ≡ new_reading LINE_LIMIT) }
        ensures row { IfOk result (λ rows. rows.row.items ≡ reset_row component.now) }
    {
        let lines = Lines::new(alloc, LINE_LIMIT)?;
        let row = reset_values(alloc, component.signals.as_slice())?;
        Ok(RowReader { lines, row })
    }

    /// Reads the first line of the input.
    pub fn read_header<I: Source>(&mut self, component: &Component, input: &mut I) -> HeaderGot
        requires live { IsTrue self.old.lines.live }
        requires limit { self.old.lines.limit ≡ LINE_LIMIT }
        ensures header { GivesHeader component.now (ahead self.old.lines.buffered (I.left input.old))
            (ahead self.new.lines.buffered (I.left input.new)) result }
        ensures row { self.new.row ≡ self.old.row }
        ensures limit { self.new.lines.limit ≡ self.old.lines.limit }
        ensures live { result ≡ HeaderGot.Good → IsTrue self.new.lines.live }
        ensures cause { HasCause (I.faults input.old) (I.faults input.new) (result ≡ HeaderGot.Failed) }
    {
        match self.lines.next(input) {
            LineGot::Line => {
                if is_header(component, self.lines.line()) {
                    HeaderGot::Good
                } else {
                    HeaderGot::Bad
                }
            }
            LineGot::End => {
                if is_header(component, b"".as_slice()) {
                    HeaderGot::Empty
                } else {
                    HeaderGot::Bad
                }
            }
            LineGot::TooLong => HeaderGot::Bad,
            LineGot::Failed => HeaderGot::Failed,
        }
    }

    /// Sets `reset` to 0 in the row.
    pub fn end_reset(&mut self)
        requires { 0 < length self.old.row.items }
        ensures row { self.new.row.items ≡ with_reset 0 (drop 1 self.old.row.items) }
        ensures lines { self.new.lines ≡ self.old.lines }
    {
        self.row[0] = bit(false);
    }

    /// Reads the next line into the row, after its value of `reset`.
    pub fn next_row<I: Source>(&mut self, input: &mut I) -> NextRow
        requires live { IsTrue self.old.lines.live }
        requires limit { self.old.lines.limit ≡ LINE_LIMIT }
        requires some { 0 < length self.old.row.items }
        ensures row { GivesRow (value_widths (drop 1 self.old.row.items)) (ahead self.old.lines.buffered (I.left input.old))
            (ahead self.new.lines.buffered (I.left input.new)) self.new.row.items result }
        ensures kept { self.new.row.items ≡ take 1 self.old.row.items ++ drop 1 self.new.row.items }
        ensures widths { value_widths self.new.row.items ≡ value_widths self.old.row.items }
        ensures limit { self.new.lines.limit ≡ self.old.lines.limit }
        ensures live { result ≡ NextRow.Row → IsTrue self.new.lines.live }
        ensures cause { HasCause (I.faults input.old) (I.faults input.new) (result ≡ NextRow.Failed) }
    {
        match self.lines.next(input) {
            LineGot::Line => match read_row(self.lines.line(), &mut self.row[1..]) {
                RowGot::Good => NextRow::Row,
                RowGot::Bad => NextRow::Refused,
            },
            LineGot::End => NextRow::End,
            LineGot::TooLong => NextRow::Refused,
            LineGot::Failed => NextRow::Failed,
        }
    }

    /// Ends a run after the greatest number of rows: one more line is refused.
    pub fn past_last_row<I: Source>(&mut self, input: &mut I) -> Finish
        requires { IsTrue self.old.lines.live }
        ensures past { GivesNoRow (ahead self.old.lines.buffered (I.left input.old)) result }
        ensures done { result ≡ Finish.Done → Empties (I.left input.old) (I.left input.new) }
        ensures read { HasCause (I.faults input.old) (I.faults input.new) (result ≡ Finish.ReadFault) }
        ensures write { result ≡ Finish.WriteFault → ⊥ }
        ensures memory { result ≡ Finish.NoMemory → ⊥ }
    {
        match self.lines.next(input) {
            LineGot::Line | LineGot::TooLong => Finish::Refused(ROW_LIMIT + 2),
            LineGot::End => Finish::Done,
            LineGot::Failed => Finish::ReadFault,
        }
    }
}
