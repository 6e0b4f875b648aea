//! Laws of typed bodies, each proved once: no code calls them.
ghost use Rattle.pm_body_laws.specs.Premises.{AreCalled, BlocksAreSound};
ghost use Rattle.pm_body_laws.specs.Wholes.{BodiesOfDesignsAreSound, TypedDesignsAreSound};
ghost use Rattle.pm_type_laws.specs.Good.{IsMade};
ghost use Rattle.pm_type_laws.specs.Sample as sample;

/// Each update block that is typed is sound, where its component is as elaboration makes it: the width of each expression
/// is the one that its place needs, each part may be read or written where it is, and no temporary is read before it is
/// assigned, on any path.
pub fn blocks_are_sound()
    ensures { BlocksAreSound }
{}

/// There is a component as elaboration makes it.
pub fn a_component_is_made()
    ensures made { IsMade sample.scope }
    ensures called { AreCalled sample.scope }
{}

/// In a design that is given, each body of a block, a lambda, a method or a guard is sound once it is typed: if the names
/// that the file declares are proper ones, and each type from the command line has 1 to 128 bits.
pub fn bodies_of_designs_are_sound()
    ensures { BodiesOfDesignsAreSound }
{}

/// A design that is given is sound once its bodies are typed. The conditions are the same.
pub fn typed_designs_are_sound()
    ensures { TypedDesignsAreSound }
{}
