//! What a simulation begins with.
ghost use Rattle.std.specs.Prelude.{true, IfOk, if◌then◌else◌, ◌≡◌, drop};
ghost use Rattle.std.specs.List.{list_all};
ghost use Rattle.pm_job.specs.Answers.{with_reset, zeros_of};
ghost use Rattle.pm_job.specs.Sound.{is_width, widths_of};
ghost use Rattle.pm_job.specs.Trace.{inputs_of, initial_values};

use crate::inputs::is_input;
use pm_bits::Bits;
use pm_design::Signal;
use pm_io::NoMemory;
use std::alloc::Global;

/// A zero of the width of each signal.
pub fn zeros(alloc: Global, signals: &[Signal]) -> Result<Vec<Bits>, NoMemory>
    requires { list_all is_width (widths_of signals.now) ≡ true }
    ensures { IfOk result (λ values. values.items ≡ initial_values signals.now) }
{
    let mut values = Vec::new(alloc);
    for signal in signals {
        values.push(zero(signal.width))?;
    }
    Ok(values)
}

/// The value of `reset`, 1, and a zero of the width of each other input.
pub fn reset_values(alloc: Global, signals: &[Signal]) -> Result<Vec<Bits>, NoMemory>
    requires { list_all is_width (widths_of signals.now) ≡ true }
    ensures { IfOk result (λ row. row.items ≡ with_reset 1 (zeros_of (widths_of (inputs_of (drop 1 signals.now))))) }
{
    let mut row = Vec::new(alloc);
    row.push(bit(true))?;
    for index in 1..signals.len() {
        let signal = &signals[index];
        if is_input(signal.role) {
            row.push(zero(signal.width))?;
        }
    }
    Ok(row)
}

// The value 0 of a width.
fn zero(width: u32) -> Bits
    requires { is_width width ≡ true }
    ensures { result ≡ record { width = width; value = 0 } }
{
    Bits::new(width, 0).unwrap()
}

/// A value of one bit.
pub fn bit(is_set: bool) -> Bits
    ensures { result ≡ record { width = 1; value = (if is_set then 1 else 0) } }
{
    Bits::new(1, u128::from(is_set)).unwrap()
}
