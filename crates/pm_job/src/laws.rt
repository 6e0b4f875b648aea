//! Laws of the equations of a cycle and of the narrow form, each proved once: no code calls them.
ghost use Rattle.pm_job.specs.Laws.{OneSolution, OrderedSettles, ReadAsWritten, SettledPermuted};

/// The values after blocks that ran in order solve the equations.
pub fn ordered_blocks_settle()
    ensures { OrderedSettles }
{}

/// The equations of blocks without a loop have exactly one solution, in whatever order the blocks are written.
pub fn blocks_without_a_loop_have_one_solution()
    ensures { OneSolution }
{}

/// The same blocks in another order have the same solutions.
pub fn order_of_blocks_leaves_solutions()
    ensures { SettledPermuted }
{}

/// A component of the narrow form is read from the texts that write it, line by line, and from no others. Empty lines
/// don't count.
pub fn components_are_read_as_they_are_written()
    ensures { ReadAsWritten }
{}
