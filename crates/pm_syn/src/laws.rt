//! Laws of the definitions that `lex` meets. Each is the contract of a function that does nothing.
ghost use Rattle.pm_syn.specs.Laws as law;

/// A text has at most one answer: one list of logical lines, or one fault.
pub fn texts_have_one_answer()
    ensures { law.TextsHaveOneAnswer }
{}

/// A text has an answer. With `texts_have_one_answer`: exactly one.
pub fn every_text_has_an_answer()
    ensures { law.EveryTextHasAnAnswer }
{}

/// The logical lines of a text are cut from it, in order. Each has a token, and begins where its number and its column say.
/// Each token has the bytes from its start to its end, and is the longest that is spelled there.
pub fn lines_are_cut_from_the_text()
    ensures { law.LinesAreCutFromTheText }
{}

/// Nothing but gaps and line ends is before, between and after the tokens of a text. The brackets of each logical line
/// match. It has line ends only where one of its brackets is open, and at least one between it and the next logical line.
pub fn gaps_and_line_ends_stand_between_tokens()
    ensures { law.GapsAndLineEndsStandBetweenTokens }
{}

/// The columns of the logical lines are those of a stack that begins with 0: each is greater than the one before it, or is
/// on the stack. The tokens of no line, other than strings, have more than 4,096 bytes.
pub fn lines_are_indented()
    ensures { law.LinesAreIndented }
{}

/// Lines are those of a text if and only if the text has at most 2^20 bytes, they are cut from it, spaced in it, indented
/// and short, and no name begins directly where a number ends.
pub fn lines_are_exactly_these()
    ensures { law.LinesAreExactlyThese }
{}

/// After lines at columns of a stack, the nearest earlier line that is indented no further allows a column if and only if
/// the stack does.
pub fn columns_are_those_of_a_stack()
    ensures { law.ColumnsAreThoseOfAStack }
{}

/// A text has at most one bad token: the first position up to which it has tokens with space between them, where nothing of
/// these begins, an integer is too wide, a name is directly after a number or a closing bracket doesn't fit; or its end,
/// where a bracket is open.
pub fn texts_have_one_bad_token()
    ensures { law.TextsHaveOneBadToken }
{}

/// `BadToken` is the answer if and only if the text has a bad token on that line and no earlier line has a fault.
pub fn bad_tokens_are_named()
    ensures { law.BadTokensAreNamed }
{}

/// Of lines that are cut from a text and spaced in it, with no name directly after a number, the first that isn't indented
/// as the stack allows has the fault `BadIndent`, and the first that is too long `LineTooLong`.
pub fn first_faulty_lines_are_named()
    ensures { law.FirstFaultyLinesAreNamed }
{}
