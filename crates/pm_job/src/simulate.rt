//! A simulation: the header, the cycles of reset, and then a cycle for each row of the input.
ghost use Rattle.std.specs.Prelude.{true, IfOk, ◌≡◌, ◌+◌, [], IsTrue};
ghost use Rattle.std.specs.List.{list_all};
ghost use Rattle.pm_io.specs.Causes.{HasCause};
ghost use Rattle.pm_io.specs.Known.{Empties};
ghost use Rattle.pm_io.specs.Reading.{ahead, new_reading};
ghost use Rattle.pm_io.specs.Streams.{Puts};
ghost use Rattle.pm_job.specs.declared.row_reader.TheConstants.{LINE_LIMIT};
ghost use Rattle.pm_job.specs.Answers.{reset_row};
ghost use Rattle.pm_job.specs.Progress.{CanRun, EndsRows, EndsRun, Fits, IsOpened, next_values, opening_text, scheduled};
ghost use Rattle.pm_job.specs.Trace.{initial_values, row_text};

use crate::finish::Finish;
use crate::initial::zeros;
use crate::inputs::set_inputs;
use crate::row_reader::{HeaderGot, NextRow, ROW_LIMIT, RowReader};
use crate::schedule::Schedule;
use crate::settle::settle;
use crate::trace_text::{write_head, write_row};
use pm_bits::Bits;
use pm_io::{NoMemory, Put, Sink, Source, WriteBuffer, try_put};
use std::alloc::Global;

/// Simulates a component with the vectors of an input, and writes the trace.
pub fn simulate<I: Source, O: Sink>(
    alloc: Global,
    schedule: &Schedule<'_>,
    input: &mut I,
    output: &mut O,
) -> Finish
    requires runs { CanRun schedule.now }
    ensures ends { EndsRun (scheduled schedule.now) (I.left input.old) (O.held output.old) (O.held output.new) result }
    ensures done { result ≡ Finish.Done → Empties (I.left input.old) (I.left input.new) }
    ensures read { HasCause (I.faults input.old) (I.faults input.new) (result ≡ Finish.ReadFault) }
    ensures write { HasCause (O.faults output.old) (O.faults output.new) (result ≡ Finish.WriteFault) }
    ensures memory { result ≡ Finish.NoMemory → O.held output.new ≡ O.held output.old }
{
    match Simulation::new(alloc, *schedule) {
        Ok(mut simulation) => simulation.run(input, output),
        Err(_) => Finish::NoMemory,
    }
}

// A schedule with the rows of an input and the values of the signals, from cycle to cycle.
#[derive(Drop)]
struct Simulation<'a> {
    schedule: Schedule<'a>,
    rows: RowReader,
    // A value for each signal.
    values: Vec<Bits>,
    // The part of the trace that waits to be written.
    buffer: WriteBuffer,
}

impl<'a> Simulation<'a> {
    // A simulation before its first cycle.
    fn new(alloc: Global, schedule: Schedule<'a>) -> Result<Simulation<'a>, NoMemory>
        requires { CanRun schedule }
        ensures schedule { IfOk result (λ simulation. simulation.schedule ≡ schedule.entry) }
        ensures lines { IfOk result (λ simulation. simulation.rows.lines ≡ new_reading LINE_LIMIT) }
        ensures row { IfOk result (λ simulation. simulation.rows.row.items ≡ reset_row schedule.entry.component.now) }
        ensures values { IfOk result (λ simulation. simulation.values.items ≡ initial_values schedule.entry.component.now.signals) }
        ensures buffer { IfOk result (λ simulation. simulation.buffer ≡ []) }
    {
        let rows = RowReader::new(alloc, schedule.component)?;
        let values = zeros(alloc, schedule.component.signals.as_slice())?;
        Ok(Simulation {
            schedule,
            rows,
            values,
            buffer: WriteBuffer::new(),
        })
    }

    // Runs the cycles of reset, and then a cycle for each row.
    fn run<I: Source, O: Sink>(&mut self, input: &mut I, output: &mut O) -> Finish
        requires runs { CanRun self.old.schedule }
        requires lines { self.old.rows.lines ≡ new_reading LINE_LIMIT }
        requires row { self.old.rows.row.items ≡ reset_row self.old.schedule.component.now }
        requires values { self.old.values.items ≡ initial_values self.old.schedule.component.now.signals }
        requires buffer { self.old.buffer ≡ [] }
        ensures ends { EndsRun (scheduled self.old.schedule) (I.left input.old) (O.held output.old) (O.held output.new) result }
        ensures done { result ≡ Finish.Done → Empties (I.left input.old) (I.left input.new) }
        ensures read { HasCause (I.faults input.old) (I.faults input.new) (result ≡ Finish.ReadFault) }
        ensures write { HasCause (O.faults output.old) (O.faults output.new) (result ≡ Finish.WriteFault) }
        ensures memory { result ≡ Finish.NoMemory → ⊥ }
    {
        match self.rows.read_header(self.schedule.component, input) {
            HeaderGot::Good => match self.open_trace(output) {
                Put::All => self.follow_rows(input, output),
                Put::Failed => Finish::WriteFault,
            },
            HeaderGot::Empty => match self.open_trace(output) {
                Put::All => Finish::Done,
                Put::Failed => Finish::WriteFault,
            },
            HeaderGot::Bad => Finish::Refused(1),
            HeaderGot::Failed => Finish::ReadFault,
        }
    }

    // Writes the first line and the lines of the two cycles of reset, and sets `reset` to 0 in the row.
    fn open_trace<O: Sink>(&mut self, output: &mut O) -> Put
        requires runs { CanRun self.old.schedule }
        requires row { self.old.rows.row.items ≡ reset_row self.old.schedule.component.now }
        requires values { self.old.values.items ≡ initial_values self.old.schedule.component.now.signals }
        requires empty { self.old.buffer ≡ [] }
        ensures text { Puts (O.held output.old) (O.held output.new) (opening_text (scheduled self.old.schedule)) result }
        ensures opened { result ≡ Put.All → IsOpened (scheduled self.old.schedule) self.new.values.items self.new.rows.row.items self.new.buffer }
        ensures schedule { self.new.schedule ≡ self.old.schedule }
        ensures lines { self.new.rows.lines ≡ self.old.rows.lines }
        ensures cause { HasCause (O.faults output.old) (O.faults output.new) (result ≡ Put.Failed) }
    {
        try_put!(write_head(self.schedule.component, &mut self.buffer, output));
        try_put!(self.run_cycle(0, output));
        try_put!(self.run_cycle(1, output));
        self.rows.end_reset();
        Put::All
    }

    // Runs a cycle for each line that is left of the input.
    fn follow_rows<I: Source, O: Sink>(&mut self, input: &mut I, output: &mut O) -> Finish
        requires runs { CanRun self.old.schedule }
        requires live { IsTrue self.old.rows.lines.live }
        requires limit { self.old.rows.lines.limit ≡ LINE_LIMIT }
        requires opened { IsOpened (scheduled self.old.schedule) self.old.values.items self.old.rows.row.items self.old.buffer }
        ensures ends { EndsRows (scheduled self.old.schedule) self.old.values.items (ahead self.old.rows.lines.buffered (I.left input.old))
            (O.held output.old) (O.held output.new) result }
        ensures done { result ≡ Finish.Done → Empties (I.left input.old) (I.left input.new) }
        ensures read { HasCause (I.faults input.old) (I.faults input.new) (result ≡ Finish.ReadFault) }
        ensures write { HasCause (O.faults output.old) (O.faults output.new) (result ≡ Finish.WriteFault) }
        ensures memory { result ≡ Finish.NoMemory → ⊥ }
    {
        for count in 0..ROW_LIMIT {
            match self.rows.next_row(input) {
                NextRow::Row => {}
                NextRow::End => return Finish::Done,
                NextRow::Refused => return Finish::Refused(count + 2),
                NextRow::Failed => return Finish::ReadFault,
            }
            match self.run_cycle(count + 2, output) {
                Put::All => {}
                Put::Failed => return Finish::WriteFault,
            }
        }
        self.rows.past_last_row(input)
    }

    // Runs a cycle with the row, and writes its line.
    #[tactic(auto, unfolding(crate::specs::Progress::next_values))]
    fn run_cycle<O: Sink>(&mut self, cycle: u64, output: &mut O) -> Put
        requires runs { CanRun self.old.schedule }
        requires fits { Fits (scheduled self.old.schedule) self.old.values.items self.old.rows.row.items }
        requires empty { self.old.buffer ≡ [] }
        ensures text { Puts (O.held output.old) (O.held output.new)
            (row_text (scheduled self.old.schedule) cycle (next_values (scheduled self.old.schedule) self.old.values.items self.old.rows.row.items)) result }
        ensures values { self.new.values.items ≡ next_values (scheduled self.old.schedule) self.old.values.items self.old.rows.row.items }
        ensures fits { Fits (scheduled self.old.schedule) self.new.values.items self.old.rows.row.items }
        ensures schedule { self.new.schedule ≡ self.old.schedule }
        ensures rows { self.new.rows ≡ self.old.rows }
        ensures empty { result ≡ Put.All → self.new.buffer ≡ [] }
        ensures cause { HasCause (O.faults output.old) (O.faults output.new) (result ≡ Put.Failed) }
    {
        let Schedule { component, order } = self.schedule;
        set_inputs(
            component.signals.as_slice(),
            &self.rows.row,
            &mut self.values,
        );
        settle(component, order, &mut self.values);
        write_row(component, cycle, &self.values, &mut self.buffer, output)
    }
}
