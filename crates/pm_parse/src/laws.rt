//! Laws of files, each proved once: no code calls them.
ghost use Rattle.pm_parse.specs.FileLines.{FilesKeepTheOrderOfLines};
ghost use Rattle.pm_parse.specs.FileNames.{FilesHaveProperNames};
ghost use Rattle.pm_parse.specs.LaidOutFiles.{FilesAreLaidOut};
ghost use Rattle.pm_parse.specs.Laws.{EveryListOfLinesHasAnAnswer, FilesHaveOneAnswer};

/// Logical lines have at most one answer.
pub fn files_have_one_answer()
    ensures { FilesHaveOneAnswer }
{}

/// Every list of logical lines has an answer: a file, or a fault.
pub fn every_list_of_lines_has_an_answer()
    ensures { EveryListOfLinesHasAnAnswer }
{}

/// The nodes of a file are the lines that aren't skipped, in their order. If the numbers of the lines ascend, so do theirs.
pub fn files_keep_the_order_of_lines()
    ensures { FilesKeepTheOrderOfLines }
{}

/// If the names in the lines are spelled as names, every name in the file is spelled as a name and is no keyword.
pub fn files_have_proper_names()
    ensures { FilesHaveProperNames }
{}

/// Lines make a file exactly when their statements, at most 64 deep, are the nodes of a tree that is laid out well, each
/// body at one greater column.
pub fn files_are_laid_out()
    ensures { FilesAreLaidOut }
{}
