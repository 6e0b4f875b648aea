//! Why there is no order.
use pm_io::{List, NoMemory};
use std::alloc::AllocError;

/// Why the blocks have no order.
#[derive(Drop)]
pub enum OrderFault {
    /// Some block precedes itself. These are the blocks of the shortest loop through the least block that is on a loop,
    /// from that block on; if there are several, of the one whose list of numbers is least.
    Cycle(List<u32>),
    NoMemory,
}

impl From<NoMemory> for OrderFault {
    ghost use Rattle.std.specs.Prelude.{◌≡◌};
    ghost use Rattle.pm_sched.specs.declared.fault.OrderFault.TheVariants as fault;

    ghost from_gives = { λ _ error. error ≡ fault.NoMemory };

    fn from(_error: NoMemory) -> Self {
        OrderFault::NoMemory
    }
}

impl From<AllocError> for OrderFault {
    ghost use Rattle.std.specs.Prelude.{◌≡◌};
    ghost use Rattle.pm_sched.specs.declared.fault.OrderFault.TheVariants as fault;

    ghost from_gives = { λ _ error. error ≡ fault.NoMemory };

    fn from(_error: AllocError) -> Self {
        OrderFault::NoMemory
    }
}
