//! The settled values of a cycle.
ghost use Rattle.std.specs.Prelude.{◌≡◌, ℕ, ◌<◌, map, IsTrue, length};
ghost use Rattle.pm_job.specs.Sound.{assignment_fits, is_typed, widths_of};
ghost use Rattle.pm_job.specs.Values.{IsComputable, IsWithin, value_widths};
ghost use Rattle.pm_job.specs.Settled.{expression_value as spec_expression_value, operand_value as spec_operand_value, value_at};
ghost use Rattle.pm_job.specs.Progress.{AreWithin, after_block, after_blocks, arranged};
ghost use Rattle.pm_job.specs.Precedence.{blocks_at};

use crate::component::{Assignment, Component, Expression, Operand};
use pm_bits::Bits;

/// Runs the update blocks one after another, in this order.
pub fn settle(component: &Component, order: &[usize], values: &mut [Bits])
    requires typed { IsTrue (is_typed (arranged component.now order.now)) }
    requires indices { AreWithin (length component.now.blocks) order.now }
    requires widths { value_widths values.old ≡ widths_of component.now.signals }
    ensures values { values.new ≡ after_blocks (blocks_at component.now.blocks order.now) values.old }
    ensures widths { value_widths values.new ≡ value_widths values.old }
{
    let blocks = component.blocks.as_slice();
    for index in order {
        run_block(&blocks[*index], values);
    }
}

// Assigns the value of the block's expression to its target.
fn run_block(block: &Assignment, values: &mut [Bits])
    requires { IsTrue (assignment_fits (value_widths values.old) block.now) }
    ensures values { values.new ≡ after_block block.now values.old }
    ensures widths { value_widths values.new ≡ value_widths values.old }
{
    values[block.target] = expression_value(block.value, values);
}

// The value of an expression over these values of the signals.
fn expression_value(expression: Expression, values: &[Bits]) -> Bits
    requires { IsComputable values.now expression }
    ensures { result ≡ spec_expression_value (value_at values.now) expression }
{
    match expression {
        Expression::Just(a) => operand_value(a, values),
        Expression::Both(op, a, b) => {
            let left = operand_value(a, values);
            let right = operand_value(b, values);
            op.apply(left, right).unwrap()
        }
    }
}

fn operand_value(operand: Operand, values: &[Bits]) -> Bits
    requires { IsWithin (length values.now) operand }
    ensures { result ≡ spec_operand_value (value_at values.now) operand }
{
    match operand {
        Operand::Signal(index) => values[index],
        Operand::Constant(bits) => bits,
    }
}
