//! The text of a trace: a line of names, and then a line for each cycle.
ghost use Rattle.std.specs.Prelude.{◌≡◌, ◌≤◌, length, [], List, ℕ};
ghost use Rattle.pm_io.specs.Causes.{HasCause};
ghost use Rattle.pm_io.specs.Streams.{Puts};
ghost use Rattle.pm_io.specs.Buffering.{Queues};
ghost use Rattle.pm_trace.specs.Trace.{head_text, hex_digits, name_text, names_text, reset_digit as spec_reset_digit, row_text, start_text, value_text, values_text};

use itoa::Buffer;
use pm_bits::Bits;
use pm_io::{LF, Put, Sink, Text, WriteBuffer, try_put};

/// The hexadecimal digits, by their values.
const HEX_DIGITS: [u8; 16] = *b"0123456789abcdef";

/// Writes the line of names. The buffer is empty before, and afterwards unless the write failed.
pub fn write_head_at<K: Sink>(names: &[Text], buffer: &mut WriteBuffer, sink: &mut K) -> Put
    requires { buffer.old ≡ [] }
    ensures text { Puts (K.held sink.old) (K.held sink.new) (head_text names.now) result }
    ensures empty { result ≡ Put.All → buffer.new ≡ [] }
    ensures cause { HasCause (K.faults sink.old) (K.faults sink.new) (result ≡ Put.Failed) }
{
    try_put!(queue_head_at(names, buffer, sink));
    buffer.flush(sink)
}

/// Writes the line of a cycle. The buffer is empty before, and afterwards unless the write failed.
pub fn write_row_at<K: Sink>(
    cycle: u64,
    reset: bool,
    values: &[Bits],
    buffer: &mut WriteBuffer,
    sink: &mut K,
) -> Put
    requires { buffer.old ≡ [] }
    ensures text { Puts (K.held sink.old) (K.held sink.new) (row_text cycle reset values.now) result }
    ensures empty { result ≡ Put.All → buffer.new ≡ [] }
    ensures cause { HasCause (K.faults sink.old) (K.faults sink.new) (result ≡ Put.Failed) }
{
    try_put!(queue_row_at(cycle, reset, values, buffer, sink));
    buffer.flush(sink)
}

/// Queues the line of names.
pub fn queue_head_at<K: Sink>(names: &[Text], buffer: &mut WriteBuffer, sink: &mut K) -> Put
    ensures text { Queues (K.held sink.old) (K.held sink.new) buffer.old buffer.new (head_text names.now) result }
    ensures cause { HasCause (K.faults sink.old) (K.faults sink.new) (result ≡ Put.Failed) }
{
    try_put!(buffer.put(sink, b"cycle reset"));
    try_put!(queue_names(names, buffer, sink));
    buffer.put(sink, &[LF])
}

/// Queues the line of a cycle: its number, `reset`, and the value of each port.
pub fn queue_row_at<K: Sink>(
    cycle: u64,
    reset: bool,
    values: &[Bits],
    buffer: &mut WriteBuffer,
    sink: &mut K,
) -> Put
    ensures text { Queues (K.held sink.old) (K.held sink.new) buffer.old buffer.new
        (row_text cycle reset values.now) result }
    ensures cause { HasCause (K.faults sink.old) (K.faults sink.new) (result ≡ Put.Failed) }
{
    try_put!(queue_start(cycle, reset, buffer, sink));
    try_put!(queue_values(values, buffer, sink));
    buffer.put(sink, &[LF])
}

// The number of a cycle, a blank, and `reset`.
pub(crate) fn queue_start<K: Sink>(
    cycle: u64,
    reset: bool,
    buffer: &mut WriteBuffer,
    sink: &mut K,
) -> Put
    ensures text { Queues (K.held sink.old) (K.held sink.new) buffer.old buffer.new (start_text cycle reset) result }
    ensures cause { HasCause (K.faults sink.old) (K.faults sink.new) (result ≡ Put.Failed) }
{
    let mut digits = Buffer::new();
    try_put!(buffer.put(sink, digits.format(cycle).as_bytes()));
    buffer.put(sink, &[b' ', reset_digit(reset)])
}

fn reset_digit(reset: bool) -> u8
    ensures { result ≡ spec_reset_digit reset }
{
    if reset { b'1' } else { b'0' }
}

fn queue_names<K: Sink>(names: &[Text], buffer: &mut WriteBuffer, sink: &mut K) -> Put
    ensures text { Queues (K.held sink.old) (K.held sink.new) buffer.old buffer.new (names_text names.now) result }
    ensures cause { HasCause (K.faults sink.old) (K.faults sink.new) (result ≡ Put.Failed) }
{
    for name in names {
        try_put!(queue_name(name, buffer, sink));
    }
    Put::All
}

// A blank and a name.
pub(crate) fn queue_name<K: Sink>(name: &Text, buffer: &mut WriteBuffer, sink: &mut K) -> Put
    ensures text { Queues (K.held sink.old) (K.held sink.new) buffer.old buffer.new (name_text name.now) result }
    ensures cause { HasCause (K.faults sink.old) (K.faults sink.new) (result ≡ Put.Failed) }
{
    try_put!(buffer.put(sink, b" "));
    buffer.put(sink, name.as_slice())
}

fn queue_values<K: Sink>(values: &[Bits], buffer: &mut WriteBuffer, sink: &mut K) -> Put
    ensures text { Queues (K.held sink.old) (K.held sink.new) buffer.old buffer.new (values_text values.now) result }
    ensures cause { HasCause (K.faults sink.old) (K.faults sink.new) (result ≡ Put.Failed) }
{
    for value in values {
        try_put!(queue_value(*value, buffer, sink));
    }
    Put::All
}

// A blank and a value.
pub(crate) fn queue_value<K: Sink>(value: Bits, buffer: &mut WriteBuffer, sink: &mut K) -> Put
    ensures text { Queues (K.held sink.old) (K.held sink.new) buffer.old buffer.new (value_text value) result }
    ensures cause { HasCause (K.faults sink.old) (K.faults sink.new) (result ≡ Put.Failed) }
{
    try_put!(buffer.put(sink, b" "));
    queue_hex(value.width().div_ceil(4), value.value(), buffer, sink)
}

// The given number of low hexadecimal digits of a number.
fn queue_hex<K: Sink>(count: u32, number: u128, buffer: &mut WriteBuffer, sink: &mut K) -> Put
    requires { count ≤ 32 }
    ensures text { Queues (K.held sink.old) (K.held sink.new) buffer.old buffer.new (hex_digits count number) result }
    ensures cause { HasCause (K.faults sink.old) (K.faults sink.new) (result ≡ Put.Failed) }
{
    let mut left = count;
    while left > 0 {
        left -= 1;
        let digit = (number >> (4 * left)) % 16;
        try_put!(buffer.put(sink, &[HEX_DIGITS[digit as usize]]));
    }
    Put::All
}
