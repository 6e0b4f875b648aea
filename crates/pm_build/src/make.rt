//! The call of a class, at each depth of nested constructs.
ghost use Rattle.std.specs.Prelude.{◌≡◌, Ok, Some, None};
ghost use Rattle.pm_class.specs.Class.{class_of};
ghost use Rattle.pm_elab.specs.Constructs as spec;
ghost use Rattle.pm_elab.specs.Elab.{Elabs, Gives};
ghost use Rattle.pm_elab.specs.Sites.{site_of};

use crate::runner::Runner;
use pm_class::{Class, class_named, construct_in, fitted, kind_made};
use pm_elab::{ConstructedClass, Elaboration, Given, Site};
use pm_eval::Builder;
use pm_values::{BuildFault, New, Value};
use std::alloc::Global;

// The kind that was made of the class at these arguments. An interface is made each time.
fn made_already(
    elaboration: &Elaboration,
    class: &Class<'_>,
    name: &[u8],
    values: &[Value],
) -> Result<Option<u32>, BuildFault>
    ensures { Gives (Ok (spec.made_already (class_of class.now).class (spec.kind_made elaboration.now.kinds name.now values.now))) result }
{
    match class.class {
        ConstructedClass::Component => kind_made(elaboration.kinds.as_slice(), name, values),
        ConstructedClass::Interface => Ok(None),
    }
}

// Outside of any `construct` nothing is made.
fn refused(line: u32, given: &[Given], class: &Class<'_>) -> Result<Value, BuildFault>
    ensures { Gives (spec.refused line given.now (class_of class.now)) result }
{
    fitted(line, given, construct_in(class.lines).parameters)?;
    Err(BuildFault::WrongKind(line))
}

/// What the call of a class makes, where so many more constructs may be nested, or outside of any `construct` (`None`).
pub fn make_at(
    alloc: Global,
    level: Option<usize>,
    site: &Site<'_>,
    elaboration: &mut Elaboration,
    name: &[u8],
    given: &[Given],
) -> Result<Value, BuildFault>
    ensures { Elabs (spec.make_at level (site_of site.now) name.now given.now elaboration.old) result elaboration.new }
{
    let class = match class_named(site.file.nodes, name) {
        Some(class) => class,
        None => return Err(BuildFault::WrongKind(site.line)),
    };
    let left = match level {
        Some(left) => left,
        None => return refused(site.line, given, &class),
    };
    let outer = Runner {
        builder: Builder {
            alloc,
            level: None,
            make: make_at,
        },
    };
    let construct = construct_in(class.lines);
    let values = outer.arguments_of(&site.file, elaboration, &construct, given, site.line)?;
    match made_already(elaboration, &class, name, values.as_slice())? {
        Some(kind) => return Ok(Value::New(New::Child(kind))),
        None => {}
    }
    if left == 0 {
        return Err(BuildFault::BuildDepth(site.line));
    }
    let inner = Runner {
        builder: Builder {
            alloc,
            level: Some(left - 1),
            make: make_at,
        },
    };
    inner.constructed(
        &outer,
        &site.file,
        elaboration,
        name,
        &class,
        values,
        site.line,
    )
}
