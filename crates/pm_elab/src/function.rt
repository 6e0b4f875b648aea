//! The functions that `construct` may call.

/// A function of the language, by the name that calls it.
#[derive(Clone, Copy, PartialEq, Eq)]
pub enum Function {
    InPort,
    OutPort,
    Wire,
    /// `mk_bits( n )`.
    MakeBits,
    /// `clog2( n )`.
    CeilingLog,
    /// `len( x )`.
    Length,
    /// `connect( a, b )`.
    Connect,
    /// `deque( maxlen = k )`.
    Deque,
    CallerPort,
    CalleePort,
    /// `U( f )`: an update block.
    Block,
    /// `RD( x )`: the blocks that read it.
    Readers,
    /// `WR( x )`: the blocks that write it.
    Writers,
    /// `M( m )`: the blocks that call it.
    Callers,
}
