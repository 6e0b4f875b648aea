//! What the functions that read tokens return.
ghost use Rattle.std.specs.Prelude.{◌≡◌};
ghost use Rattle.pm_grammar.specs.Readings.{IsBoxed};

use pm_io::{Boxed, NoMemory};
use pm_syn::{Expr, Token};
use std::alloc::{AllocError, Global};

/// Why nothing was read.
#[derive(Clone, Copy, Drop)]
pub(crate) enum ReadFault {
    /// The tokens don't spell it, or no prefix of them does.
    NotSpelled,
    /// Memory ran out.
    NoMemory,
}

impl From<AllocError> for ReadFault {
    ghost use Rattle.pm_grammar.specs.declared.reading.ReadFault.TheVariants as fault;

    ghost from_gives = { λ _ error. error ≡ fault.NoMemory };

    fn from(_error: AllocError) -> Self {
        ReadFault::NoMemory
    }
}

impl From<NoMemory> for ReadFault {
    ghost use Rattle.pm_grammar.specs.declared.reading.ReadFault.TheVariants as fault;

    ghost from_gives = { λ _ error. error ≡ fault.NoMemory };

    fn from(_error: NoMemory) -> Self {
        ReadFault::NoMemory
    }
}

/// What a prefix of the tokens spells and the tokens after it, or why nothing was read.
pub(crate) type Reading<'a, T> = Result<(T, &'a [Token]), ReadFault>;

/// What all of the tokens spell, or why nothing was read.
pub(crate) type Whole<T> = Result<T, ReadFault>;

/// An expression that was read, in a box, and the tokens after it.
pub(crate) fn boxed(alloc: Global, tree: Expr, rest: &[Token]) -> Reading<'_, Boxed<Expr>>
    ensures { IsBoxed tree rest.now result }
{
    Ok((Boxed::new(alloc, tree)?, rest))
}
