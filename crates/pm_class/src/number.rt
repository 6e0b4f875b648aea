//! Numbers of what is in a list.
ghost use Rattle.std.specs.Prelude.{Ok};
ghost use Rattle.pm_elab.specs.Elab.{Gives};

use pm_values::BuildFault;

/// The number of what is added to a list of so many.
pub(crate) fn number_of(count: usize) -> Result<u32, BuildFault>
    ensures { Gives (Ok count) result }
{
    match u32::try_from(count) {
        Ok(number) => Ok(number),
        Err(_) => Err(BuildFault::NoMemory),
    }
}
