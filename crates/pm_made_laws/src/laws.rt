//! Laws of what elaboration makes, each proved once: no code calls them.
ghost use Rattle.pm_made_laws.specs.Noted.{KindsAreNoted};
ghost use Rattle.pm_made_laws.specs.Scopes.{ScopesAreMade};
ghost use Rattle.pm_made_laws.specs.Shapes.{BitstructsArePacked};
ghost use Rattle.pm_made_laws.specs.Typed.{ExpressionsOfDesignsAreSound};

/// In a design that is given, each bitstruct has a field, the widths of its fields add up to its own, and each field
/// lies within it and has a type that is there: if the names that the file declares are proper ones, and each type from
/// the command line has 1 to 128 bits.
pub fn bitstructs_are_packed()
    ensures { BitstructsArePacked }
{}

/// In a design that is given, what the attributes of each kind have taken is there: bits of a signal with a type that
/// is there and as wide, a child, a method or a caller port. Nothing in an attribute is new. The types that are noted
/// of its methods and caller ports have the widths that the design says. The conditions are the same.
pub fn kinds_are_noted()
    ensures { KindsAreNoted }
{}

/// In a design that is given, what the lines of each body see is as the laws of typing ask: bitstructs are packed, and
/// the file's names, the names of `construct`, the component's attributes and those of its children are good values.
/// The conditions are the same.
pub fn scopes_are_made()
    ensures { ScopesAreMade }
{}

/// In the bodies of a design that is given, each value that typing gives an expression has the width of its type, which
/// is 1 to 128 bits, and reads no temporary that some path leaves unassigned. The conditions are the same.
pub fn expressions_of_designs_are_sound()
    ensures { ExpressionsOfDesignsAreSound }
{}
