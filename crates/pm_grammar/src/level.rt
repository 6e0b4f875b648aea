//! How tightly operators bind.
ghost use Rattle.std.specs.Prelude.{◌≡◌};
ghost use Rattle.pm_grammar.specs.Levels as spec;

/// A level of expressions, from the loosest to the tightest.
#[derive(Clone, Copy)]
pub(crate) enum Level {
    /// `a if c else b`.
    Conditional,
    /// `or`.
    Disjunction,
    /// `and`.
    Conjunction,
    /// `not`.
    Negation,
    /// `==`, `!=`, `<`, `<=`, `>`, `>=`.
    Comparison,
    /// `|`.
    BitOr,
    /// `^`.
    BitXor,
    /// `&`.
    BitAnd,
    /// `<<`, `>>`.
    Shift,
    /// `+`, `-`.
    Sum,
    /// `*`, `//`, `%`.
    Product,
    /// `-`, `+` and `~` before an operand.
    Unary,
    /// `**`.
    Power,
    /// Attributes, calls, indexes and slices.
    Postfix,
    /// Names, numbers, and what is in brackets.
    Atom,
}

impl Level {
    /// The next tighter level; an atom's is its own.
    pub fn tighter(self) -> Level
        ensures { result ≡ spec.tighter self }
    {
        match self {
            Level::Conditional => Level::Disjunction,
            Level::Disjunction => Level::Conjunction,
            Level::Conjunction => Level::Negation,
            Level::Negation => Level::Comparison,
            Level::Comparison => Level::BitOr,
            Level::BitOr => Level::BitXor,
            Level::BitXor => Level::BitAnd,
            Level::BitAnd => Level::Shift,
            Level::Shift => Level::Sum,
            Level::Sum => Level::Product,
            Level::Product => Level::Unary,
            Level::Unary => Level::Power,
            Level::Power => Level::Postfix,
            Level::Postfix | Level::Atom => Level::Atom,
        }
    }

    /// How many levels are looser.
    pub fn rank(self) -> u32
        ensures { result ≡ spec.rank self }
    {
        self as u32
    }

    /// Whether its operators group to the left.
    pub fn groups_left(self) -> bool
        ensures { result ≡ spec.groups_left self }
    {
        match self {
            Level::Disjunction
            | Level::Conjunction
            | Level::BitOr
            | Level::BitXor
            | Level::BitAnd
            | Level::Shift
            | Level::Sum
            | Level::Product => true,
            Level::Conditional
            | Level::Negation
            | Level::Comparison
            | Level::Unary
            | Level::Power
            | Level::Postfix
            | Level::Atom => false,
        }
    }
}
