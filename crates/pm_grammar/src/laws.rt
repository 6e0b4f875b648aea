//! Laws of the grammar, each proved once: no code calls them.
ghost use Rattle.pm_grammar.specs.Laws.{EveryLineHasAnAnswer, TokensSpellOneExpression, TokensSpellOneStatement};

/// Tokens spell at most one expression.
pub fn tokens_spell_one_expression()
    ensures { TokensSpellOneExpression }
{}

/// The tokens of a logical line spell at most one statement.
pub fn tokens_spell_one_statement()
    ensures { TokensSpellOneStatement }
{}

/// The tokens of each logical line have an answer: the statement that they spell, or the fault that they spell none or one
/// that is too deep.
pub fn every_line_has_an_answer()
    ensures { EveryLineHasAnAnswer }
{}
