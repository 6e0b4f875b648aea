//! The design of a file's top class.
ghost use Rattle.std.specs.Prelude.{◌≡◌, Err, IfOk, IsTrue, [], map};
ghost use Rattle.pm_class.specs.Class.{class_of};
ghost use Rattle.pm_design.specs.Elaborated.{IsElaborated};
ghost use Rattle.pm_elab.specs.Constructs.{make_at};
ghost use Rattle.pm_elab.specs.Elab.{Elabs, Gives};
ghost use Rattle.pm_elab.specs.Files as spec;
ghost use Rattle.pm_elab.specs.Makes.{Makes};
ghost use Rattle.pm_elab.specs.Sites.{scope_of};
ghost use Rattle.pm_elab_laws.specs.Soundness.{are_good_params, declares_proper_names};
ghost use Rattle.pm_values.specs.declared.fault.BuildFault.TheVariants.{NoClass};

use crate::file::file_scope;
use crate::make::make_at;
use crate::method::outside;
use crate::runner::Runner;
use pm_class::{
    Class, arguments_of, class_named, construct_in, design_of, known_from, none_missing,
};
use pm_elab::{
    ConstructedClass, Elaboration, FileScope, Given, MAX_NESTING, Param, RawDesign, Site,
};
use pm_eval::Builder;
use pm_io::{List, Text};
use pm_syn::{File, Node};
use pm_values::{BuildFault, Table, Value};
use std::alloc::Global;

// No component class of the file has the name.
fn no_class(alloc: Global, name: &[u8]) -> Result<u32, BuildFault>
    ensures { Gives (Err (NoClass name.now)) result }
{
    Err(BuildFault::NoClass(Text::from_slice(alloc, name)?))
}

impl<
    F: Fn(
        Global,
        Option<usize>,
        &Site<'_>,
        &mut Elaboration,
        &[u8],
        &[Given],
    ) -> Result<Value, BuildFault>,
> Runner<F> {
    // The values of the parameters of the top class.
    #[tactic(auto, unfolding(pm_elab::specs::Files::top_values))]
    fn top_values(
        &self,
        file: &FileScope<'_>,
        elaboration: &mut Elaboration,
        class: &Class<'_>,
        params: &[Param],
    ) -> Result<List<Value>, BuildFault>
        requires { Makes self.now.builder.level (F.pre self.now.builder.make) (F.post self.now.builder.make) }
        ensures { Elabs (spec.top_values (make_at self.now.builder.level) (scope_of file.now) (class_of class.now) params.now elaboration.old) result elaboration.new }
    {
        let construct = construct_in(class.lines);
        known_from(self.builder.alloc, params, construct.parameters)?;
        none_missing(self.builder.alloc, params, construct.parameters)?;
        let given = arguments_of(self.builder.alloc, params)?;
        let site = outside(file, construct.line);
        let values = List::new(self.builder.alloc);
        self.parameters_from(
            &site,
            elaboration,
            values,
            given.as_slice(),
            construct.parameters,
        )
    }

    // The top class at its parameters.
    #[tactic(auto, unfolding(pm_elab::specs::Files::top_component))]
    fn top_component(
        &self,
        outer: &Runner<F>,
        file: &FileScope<'_>,
        elaboration: &mut Elaboration,
        name: &[u8],
        class: &Class<'_>,
        params: &[Param],
    ) -> Result<u32, BuildFault>
        requires inner { Makes self.now.builder.level (F.pre self.now.builder.make) (F.post self.now.builder.make) }
        requires outer { Makes outer.now.builder.level (F.pre outer.now.builder.make) (F.post outer.now.builder.make) }
        ensures { Elabs (spec.top_component (make_at outer.now.builder.level) (make_at self.now.builder.level) (scope_of file.now) name.now (class_of class.now) params.now elaboration.old) result elaboration.new }
    {
        let values = outer.top_values(file, elaboration, class, params)?;
        self.component(outer, file, elaboration, name, class, values)
    }

    // The top class, if it is a component class.
    fn top_by(
        &self,
        outer: &Runner<F>,
        file: &FileScope<'_>,
        elaboration: &mut Elaboration,
        name: &[u8],
        class: &Class<'_>,
        params: &[Param],
    ) -> Result<u32, BuildFault>
        requires inner { Makes self.now.builder.level (F.pre self.now.builder.make) (F.post self.now.builder.make) }
        requires outer { Makes outer.now.builder.level (F.pre outer.now.builder.make) (F.post outer.now.builder.make) }
        ensures { Elabs (spec.top_by (class_of class.now).class (make_at outer.now.builder.level) (make_at self.now.builder.level) (scope_of file.now) name.now (class_of class.now) params.now elaboration.old) result elaboration.new }
    {
        match class.class {
            ConstructedClass::Component => {
                self.top_component(outer, file, elaboration, name, class, params)
            }
            ConstructedClass::Interface => no_class(self.builder.alloc, name),
        }
    }

    // The kind of the top class.
    #[tactic(auto, unfolding(pm_elab::specs::Files::top))]
    fn top(
        &self,
        outer: &Runner<F>,
        file: &FileScope<'_>,
        elaboration: &mut Elaboration,
        name: &[u8],
        params: &[Param],
    ) -> Result<u32, BuildFault>
        requires inner { Makes self.now.builder.level (F.pre self.now.builder.make) (F.post self.now.builder.make) }
        requires outer { Makes outer.now.builder.level (F.pre outer.now.builder.make) (F.post outer.now.builder.make) }
        ensures { Elabs (spec.top (make_at outer.now.builder.level) (make_at self.now.builder.level) (scope_of file.now) name.now params.now elaboration.old) result elaboration.new }
    {
        match class_named(file.nodes, name) {
            Some(class) => self.top_by(outer, file, elaboration, name, &class, params),
            None => no_class(self.builder.alloc, name),
        }
    }

    // The file's statements, then the top class.
    #[tactic(auto, unfolding(pm_elab::specs::Files::elaborated))]
    fn elaborated(
        &self,
        outer: &Runner<F>,
        elaboration: &mut Elaboration,
        nodes: &[Node],
        name: &[u8],
        params: &[Param],
    ) -> Result<(Table<Value>, u32), BuildFault>
        requires inner { Makes self.now.builder.level (F.pre self.now.builder.make) (F.post self.now.builder.make) }
        requires outer { Makes outer.now.builder.level (F.pre outer.now.builder.make) (F.post outer.now.builder.make) }
        ensures { Elabs (spec.elaborated (make_at outer.now.builder.level) (make_at self.now.builder.level) nodes.now name.now params.now elaboration.old) result elaboration.new }
    {
        let names = outer.statements(elaboration, nodes)?;
        let top = self.top(outer, &file_scope(nodes, &names), elaboration, name, params)?;
        Ok((names, top))
    }
}

/// The design of the top class of a file at these parameters, its bodies as they are spelled, or the first fault.
///
/// The statements of the file run first, in order, and then `construct` of the top class and of every class that it makes.
/// A fault comes at the first statement that fails. `NoClass` and `BadParameter` come after the file's statements.
///
/// The design is sound but for its bodies, which are empty, if the names that the file declares are proper ones, as `parse`
/// gives them, and each type among the parameters has 1 to 128 bits.
#[tactic(auto, using(crate::proofs::Soundness::given_sound))]
pub fn build(
    alloc: Global,
    file: &File,
    class: &[u8],
    params: &[Param],
) -> Result<RawDesign, BuildFault>
    ensures design { Gives (spec.build file.now.nodes class.now params.now) result }
    ensures sound { IsTrue (declares_proper_names file.now.nodes) → IsTrue (are_good_params params.now) → IfOk result (λ given. IsElaborated given.design) }
{
    built(alloc, file.nodes.as_slice(), class, params)
}

// The design of the top class, or the first fault.
#[tactic(auto, unfolding(pm_elab::specs::Files::build))]
fn built(
    alloc: Global,
    nodes: &[Node],
    class: &[u8],
    params: &[Param],
) -> Result<RawDesign, BuildFault>
    ensures { Gives (spec.build nodes.now class.now params.now) result }
{
    let outer = Runner {
        builder: Builder {
            alloc,
            level: None,
            make: make_at,
        },
    };
    let inner = Runner {
        builder: Builder {
            alloc,
            level: Some(MAX_NESTING - 1),
            make: make_at,
        },
    };
    let mut elaboration = Elaboration {
        steps: 0,
        shapes: List::new(alloc),
        kinds: List::new(alloc),
    };
    let (names, top) = inner.elaborated(&outer, &mut elaboration, nodes, class, params)?;
    Ok(design_of(alloc, elaboration, names, top)?)
}
