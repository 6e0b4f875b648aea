//! The inputs of a component.
ghost use Rattle.std.specs.Prelude.{◌≡◌, length};
ghost use Rattle.pm_job.specs.Sound.{widths_of};
ghost use Rattle.pm_job.specs.Trace.{inputs_of, is_input as spec_is_input, with_inputs};
ghost use Rattle.pm_job.specs.Values.{value_widths};

use pm_bits::Bits;
use pm_design::{Role, Signal};

/// Sets the inputs to a row of values, in order of declaration.
pub fn set_inputs(signals: &[Signal], row: &[Bits], values: &mut [Bits])
    requires widths { value_widths values.old ≡ widths_of signals.now }
    requires row { value_widths row.now ≡ widths_of (inputs_of signals.now) }
    ensures values { values.new ≡ with_inputs signals.now values.old row.now }
    ensures widths { value_widths values.new ≡ value_widths values.old }
{
    let mut next = 0;
    for (index, signal) in signals.iter().enumerate() {
        if is_input(signal.role) {
            values[index] = row[next];
            next += 1;
        }
    }
}

/// Whether a signal of this role is an input.
pub fn is_input(role: Role) -> bool
    ensures { result ≡ spec_is_input role }
{
    match role {
        Role::Input => true,
        Role::Output | Role::Inner => false,
    }
}
