//! The text of a trace: a line of names, and then a line for each cycle.
ghost use Rattle.std.specs.Prelude.{◌≡◌, ◌≤◌, length, [], List, ℕ};
ghost use Rattle.pm_io.specs.Causes.{HasCause};
ghost use Rattle.pm_io.specs.Streams.{Puts};
ghost use Rattle.pm_io.specs.Buffering.{Queues};
ghost use Rattle.pm_job.specs.Trace.{head_text, hex_digits, hex_of, is_port as spec_is_port, port_name, port_names, port_value, port_values, row_text};

use crate::component::Component;
use itoa::Buffer;
use pm_bits::Bits;
use pm_design::{Role, Signal};
use pm_io::{LF, Put, Sink, WriteBuffer, try_put};

/// The byte between the fields of a line.
pub const BLANK: u8 = b' ';

/// The hexadecimal digits, by their values.
pub const HEX_DIGITS: [u8; 16] = *b"0123456789abcdef";

/// Writes the line of names. The buffer is empty before, and afterwards unless the write failed.
pub fn write_head<K: Sink>(component: &Component, buffer: &mut WriteBuffer, sink: &mut K) -> Put
    requires { buffer.old ≡ [] }
    ensures text { Puts (K.held sink.old) (K.held sink.new) (head_text component.now) result }
    ensures empty { result ≡ Put.All → buffer.new ≡ [] }
    ensures cause { HasCause (K.faults sink.old) (K.faults sink.new) (result ≡ Put.Failed) }
{
    try_put!(queue_head(component, buffer, sink));
    buffer.flush(sink)
}

/// Writes the line of a cycle. The buffer is empty before, and afterwards unless the write failed.
pub fn write_row<K: Sink>(
    component: &Component,
    cycle: u64,
    values: &[Bits],
    buffer: &mut WriteBuffer,
    sink: &mut K,
) -> Put
    requires one_each { length component.now.signals ≡ length values.now }
    requires empty { buffer.old ≡ [] }
    ensures text { Puts (K.held sink.old) (K.held sink.new) (row_text component.now cycle values.now) result }
    ensures empty { result ≡ Put.All → buffer.new ≡ [] }
    ensures cause { HasCause (K.faults sink.old) (K.faults sink.new) (result ≡ Put.Failed) }
{
    try_put!(queue_row(component, cycle, values, buffer, sink));
    buffer.flush(sink)
}

fn queue_head<K: Sink>(component: &Component, buffer: &mut WriteBuffer, sink: &mut K) -> Put
    ensures text { Queues (K.held sink.old) (K.held sink.new) buffer.old buffer.new (head_text component.now) result }
    ensures cause { HasCause (K.faults sink.old) (K.faults sink.new) (result ≡ Put.Failed) }
{
    try_put!(buffer.put(sink, b"cycle"));
    try_put!(queue_names(component.signals.as_slice(), buffer, sink));
    buffer.put(sink, &[LF])
}

fn queue_row<K: Sink>(
    component: &Component,
    cycle: u64,
    values: &[Bits],
    buffer: &mut WriteBuffer,
    sink: &mut K,
) -> Put
    requires { length component.now.signals ≡ length values.now }
    ensures text { Queues (K.held sink.old) (K.held sink.new) buffer.old buffer.new (row_text component.now cycle values.now) result }
    ensures cause { HasCause (K.faults sink.old) (K.faults sink.new) (result ≡ Put.Failed) }
{
    let mut digits = Buffer::new();
    try_put!(buffer.put(sink, digits.format(cycle).as_bytes()));
    try_put!(queue_values(component.signals.as_slice(), values, buffer, sink));
    buffer.put(sink, &[LF])
}

fn queue_names<K: Sink>(signals: &[Signal], buffer: &mut WriteBuffer, sink: &mut K) -> Put
    ensures text { Queues (K.held sink.old) (K.held sink.new) buffer.old buffer.new (port_names signals.now) result }
    ensures cause { HasCause (K.faults sink.old) (K.faults sink.new) (result ≡ Put.Failed) }
{
    for signal in signals {
        try_put!(queue_name(signal, buffer, sink));
    }
    Put::All
}

// A blank and the name of a port; nothing for a wire.
fn queue_name<K: Sink>(signal: &Signal, buffer: &mut WriteBuffer, sink: &mut K) -> Put
    ensures text { Queues (K.held sink.old) (K.held sink.new) buffer.old buffer.new (port_name signal.now) result }
    ensures cause { HasCause (K.faults sink.old) (K.faults sink.new) (result ≡ Put.Failed) }
{
    if !is_port(signal.role) {
        return Put::All;
    }
    try_put!(buffer.put(sink, &[BLANK]));
    buffer.put(sink, signal.name.as_slice())
}

fn queue_values<K: Sink>(
    signals: &[Signal],
    values: &[Bits],
    buffer: &mut WriteBuffer,
    sink: &mut K,
) -> Put
    requires { length signals.now ≡ length values.now }
    ensures text { Queues (K.held sink.old) (K.held sink.new) buffer.old buffer.new (port_values signals.now values.now) result }
    ensures cause { HasCause (K.faults sink.old) (K.faults sink.new) (result ≡ Put.Failed) }
{
    for (index, signal) in signals.iter().enumerate() {
        try_put!(queue_value(signal, values[index], buffer, sink));
    }
    Put::All
}

// A blank and the value of a port; nothing for a wire.
fn queue_value<K: Sink>(signal: &Signal, value: Bits, buffer: &mut WriteBuffer, sink: &mut K) -> Put
    ensures text { Queues (K.held sink.old) (K.held sink.new) buffer.old buffer.new (port_value signal.now value) result }
    ensures cause { HasCause (K.faults sink.old) (K.faults sink.new) (result ≡ Put.Failed) }
{
    if !is_port(signal.role) {
        return Put::All;
    }
    try_put!(buffer.put(sink, &[BLANK]));
    queue_hex(value.width().div_ceil(4), value.value(), buffer, sink)
}

// The given number of low hexadecimal digits of a number.
fn queue_hex<K: Sink>(count: u32, number: u128, buffer: &mut WriteBuffer, sink: &mut K) -> Put
    requires { count ≤ 32 }
    ensures text { Queues (K.held sink.old) (K.held sink.new) buffer.old buffer.new (hex_digits count number) result }
    ensures cause { HasCause (K.faults sink.old) (K.faults sink.new) (result ≡ Put.Failed) }
{
    let mut left = count;
    while left > 0 {
        left -= 1;
        let digit = (number >> (4 * left)) % 16;
        try_put!(buffer.put(sink, &[HEX_DIGITS[digit as usize]]));
    }
    Put::All
}

// Whether a signal of this role has a column.
fn is_port(role: Role) -> bool
    ensures { result ≡ spec_is_port role }
{
    match role {
        Role::Input | Role::Output => true,
        Role::Inner => false,
    }
}
