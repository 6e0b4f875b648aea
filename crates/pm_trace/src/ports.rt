//! The vectors and the trace of a plan.
ghost use Rattle.std.specs.Prelude.{◌≡◌, ◌<◌, IfOk, [], length};
ghost use Rattle.pm_block.specs.Stored.{at_of};
ghost use Rattle.pm_design.specs.Layout.{layout_of};
ghost use Rattle.pm_design.specs.Ports.{HasPorts, IsRowOf, top_signal, top_signals};
ghost use Rattle.pm_design.specs.Runnable.{IsRunnable};
ghost use Rattle.pm_io.specs.Buffering.{Queues};
ghost use Rattle.pm_io.specs.Causes.{HasCause};
ghost use Rattle.pm_io.specs.Streams.{Puts};
ghost use Rattle.pm_trace.specs.Headers.{ReadsHeader};
ghost use Rattle.pm_trace.specs.Ports as spec;
ghost use Rattle.pm_trace.specs.Rows.{ReadsRow};
ghost use Rattle.pm_trace.specs.Trace.{head_text, names_text, values_text};

use crate::fault::HeadFault;
use crate::header::{Header, read_header_at};
use crate::row::{RowGot, read_row_at};
use crate::trace_text::{queue_name, queue_start, queue_value};
use pm_block::Values;
use pm_design::{Plan, Row};
use pm_io::{LF, List, NoMemory, Put, Sink, Text, WriteBuffer, try_put};
use std::alloc::Global;

/// Reads a line as the header of vectors for the inputs of a plan.
pub fn read_header(alloc: Global, plan: &Plan, line: &[u8]) -> Result<Header, HeadFault>
    requires { HasPorts plan.now }
    ensures { ReadsHeader (spec.input_names plan.now) line.now result }
{
    let names = input_names(alloc, plan)?;
    read_header_at(alloc, names.as_slice(), line)
}

/// Reads a line into a row of a plan's inputs. After `Bad` the row is unchanged.
#[tactic(auto, using(crate::proofs::FilledRows::row_still_fits))]
pub fn read_row(plan: &Plan, header: &Header, line: &[u8], row: &mut Row) -> RowGot
    requires { IsRowOf plan.now row.old.values }
    ensures reads { ReadsRow header.now.port_of line.now row.old.values row.new.values result }
    ensures fits { IsRowOf plan.now row.new.values }
{
    read_row_at(header, line, row)
}

/// Writes the line of names of a plan's trace.
pub fn write_head<K: Sink>(plan: &Plan, sink: &mut K) -> Put
    requires { HasPorts plan.now }
    ensures text { Puts (K.held sink.old) (K.held sink.new) (spec.head_of plan.now) result }
    ensures cause { HasCause (K.faults sink.old) (K.faults sink.new) (result ≡ Put.Failed) }
{
    let mut buffer = WriteBuffer::new();
    try_put!(queue_head(plan, &mut buffer, sink));
    buffer.flush(sink)
}

/// Writes the line of a cycle of a plan's trace: its number, `reset`, and the values of the ports.
pub fn write_row<K: Sink>(plan: &Plan, cycle: u64, values: &Values, sink: &mut K) -> Put
    requires plan { IsRunnable plan.now }
    requires layout { values.now.layout ≡ layout_of plan.now }
    ensures text { Puts (K.held sink.old) (K.held sink.new)
        (spec.row_of plan.now cycle (at_of values.now.bits)) result }
    ensures cause { HasCause (K.faults sink.old) (K.faults sink.new) (result ≡ Put.Failed) }
{
    let mut buffer = WriteBuffer::new();
    try_put!(queue_row(plan, cycle, values, &mut buffer, sink));
    buffer.flush(sink)
}

/// Queues the line of names of a plan's trace.
pub fn queue_head<K: Sink>(plan: &Plan, buffer: &mut WriteBuffer, sink: &mut K) -> Put
    requires { HasPorts plan.now }
    ensures text { Queues (K.held sink.old) (K.held sink.new) buffer.old buffer.new (spec.head_of plan.now) result }
    ensures cause { HasCause (K.faults sink.old) (K.faults sink.new) (result ≡ Put.Failed) }
{
    try_put!(buffer.put(sink, b"cycle reset"));
    try_put!(queue_port_names(plan, buffer, sink));
    buffer.put(sink, &[LF])
}

/// Queues the line of a cycle of a plan's trace: its number, `reset`, and the values of the ports.
#[tactic(auto, using(crate::proofs::PlanPorts::reset_there, pm_block::proofs::WholeSignals::signal_is_part))]
pub fn queue_row<K: Sink>(
    plan: &Plan,
    cycle: u64,
    values: &Values,
    buffer: &mut WriteBuffer,
    sink: &mut K,
) -> Put
    requires plan { IsRunnable plan.now }
    requires layout { values.now.layout ≡ layout_of plan.now }
    ensures text { Queues (K.held sink.old) (K.held sink.new) buffer.old buffer.new
        (spec.row_of plan.now cycle (at_of values.now.bits)) result }
    ensures cause { HasCause (K.faults sink.old) (K.faults sink.new) (result ≡ Put.Failed) }
{
    let reset = values.signal(0).value() == 1;
    try_put!(queue_start(cycle, reset, buffer, sink));
    try_put!(queue_port_values(plan, values, buffer, sink));
    buffer.put(sink, &[LF])
}

// The names of the inputs.
#[tactic(auto, using(pm_design::proofs::Elements::item_passes))]
fn input_names(alloc: Global, plan: &Plan) -> Result<List<Text>, NoMemory>
    requires { HasPorts plan.now }
    ensures { IfOk result (λ names. names ≡ spec.input_names plan.now) }
{
    let signals = plan.top_signals();
    let mut names = List::new(alloc);
    for number in plan.inputs.as_slice() {
        let name = signals[*number as usize].name.as_slice();
        names.push(Text::from_slice(alloc, name)?)?;
    }
    Ok(names)
}

// The name of a signal of the top.
fn name_of(plan: &Plan, number: u32) -> &Text
    requires top { plan.now.design.top < length plan.now.design.kinds }
    requires there { number < length (top_signals plan.now) }
    ensures { result.now ≡ (top_signal plan.now number).name }
{
    &plan.top_signals()[number as usize].name
}

// The names of the ports, each after a blank.
#[tactic(auto, using(crate::proofs::PlanPorts::port_of_top))]
fn queue_port_names<K: Sink>(plan: &Plan, buffer: &mut WriteBuffer, sink: &mut K) -> Put
    requires { HasPorts plan.now }
    ensures text { Queues (K.held sink.old) (K.held sink.new) buffer.old buffer.new
        (names_text (spec.port_names plan.now)) result }
    ensures cause { HasCause (K.faults sink.old) (K.faults sink.new) (result ≡ Put.Failed) }
{
    for number in plan.ports.as_slice() {
        try_put!(queue_name(name_of(plan, *number), buffer, sink));
    }
    Put::All
}

// The values of the ports, each after a blank.
#[tactic(auto, using(crate::proofs::PlanPorts::port_there, pm_block::proofs::WholeSignals::signal_is_part))]
fn queue_port_values<K: Sink>(
    plan: &Plan,
    values: &Values,
    buffer: &mut WriteBuffer,
    sink: &mut K,
) -> Put
    requires plan { IsRunnable plan.now }
    requires layout { values.now.layout ≡ layout_of plan.now }
    ensures text { Queues (K.held sink.old) (K.held sink.new) buffer.old buffer.new
        (values_text (spec.port_words plan.now (at_of values.now.bits))) result }
    ensures cause { HasCause (K.faults sink.old) (K.faults sink.new) (result ≡ Put.Failed) }
{
    for number in plan.ports.as_slice() {
        try_put!(queue_value(values.signal(*number), buffer, sink));
    }
    Put::All
}
