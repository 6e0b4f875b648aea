//! Why a design has no nets.
ghost use Rattle.std.specs.Prelude.{◌≡◌};

use pm_io::{NoMemory, Text};

/// Why a design has no nets. The first that applies is named, in this order: too many bits, then connections, drivers,
/// methods and work.
#[derive(Drop)]
pub enum NetFault {
    /// A connection of two sources, or a constant tied to a source: its line. A source is an own input of the component
    /// that connects, or an output of its child.
    BadDirection(u32),
    /// A connection of ends of different types or names, or a constant that doesn't fit: its line.
    JoinMismatch(u32),
    /// A net of one component with two drivers: the signal and the bit of its least flat bit.
    MultiWriter(Text, u32),
    /// A net of two or more flat bits without a driver: the signal and the bit of its least flat bit.
    NoWriter(Text, u32),
    /// More than 2^18 flat bits: how many.
    TooManyBits(u64),
    /// A caller port that is connected to no method: its name.
    NoCallee(Text),
    /// A caller port that is connected to two or more methods: its name.
    TwoCallees(Text),
    /// A method that can lead to a call of itself: its name.
    MethodCycle(Text),
    /// More than 2^24 nodes in the blocks: how many.
    TooMuchWork(u64),
    /// Memory ran out.
    NoMemory,
}

impl From<NoMemory> for NetFault {
    ghost use Rattle.pm_nets.specs.declared.fault.NetFault.TheVariants as fault;

    ghost from_gives = { λ _ error. error ≡ fault.NoMemory };

    fn from(_error: NoMemory) -> Self {
        NetFault::NoMemory
    }
}
