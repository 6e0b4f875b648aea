//! Laws of the files that texts give, each proved once: no code calls them.
ghost use Rattle.pm_file_laws.specs.Files.{DesignsOfTextsAreSound, FilesDeclareProperNames};

/// Each name that a statement of a file declares is spelled as a name and is no keyword, if the file is that of a text.
pub fn files_declare_proper_names()
    ensures { FilesDeclareProperNames }
{}

/// A design that the file of a text gives is sound but for its bodies, which are empty: if each type from the command
/// line has 1 to 128 bits.
pub fn designs_of_texts_are_sound()
    ensures { DesignsOfTextsAreSound }
{}
