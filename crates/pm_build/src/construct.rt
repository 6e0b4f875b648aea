//! What the call of a class makes: a kind of component, or an interface.
ghost use Rattle.std.specs.Prelude.{◌≡◌, Ok, None, [], map};
ghost use Rattle.pm_class.specs.Class.{class_of};
ghost use Rattle.pm_elab.specs.Classes as classes;
ghost use Rattle.pm_elab.specs.Classes.{construct_of};
ghost use Rattle.pm_elab.specs.Constructs as spec;
ghost use Rattle.pm_elab.specs.Constructs.{make_at};
ghost use Rattle.pm_elab.specs.Elab.{Elabs, Gives, Moves};
ghost use Rattle.pm_elab.specs.Makes.{Makes};
ghost use Rattle.pm_elab.specs.Sites.{scope_of, site_of};
ghost use Rattle.pm_build.specs.Bodies.{component_body, interface_body};

use crate::method::outside;
use crate::runner::Runner;
use pm_class::{
    Class, class_named, clean, component_start, construct_in, fitted, interface_start, keep,
    kind_made, leading, leading_values, members_of,
};
use pm_elab::{
    Construct, ConstructedClass, Elaboration, FileScope, Frame, Given, Site, value_named,
};
use pm_eval::Builder;
use pm_frame::captured;
use pm_io::List;
use pm_syn::{Expr, Par};
use pm_values::{BuildFault, New, Value, copy};
use std::alloc::Global;

impl<
    F: Fn(
        Global,
        Option<usize>,
        &Site<'_>,
        &mut Elaboration,
        &[u8],
        &[Given],
    ) -> Result<Value, BuildFault>,
> Runner<F> {
    // The value of a default.
    #[tactic(auto, unfolding(pm_elab::specs::Classes::default_of))]
    fn default_of(
        &self,
        site: &Site<'_>,
        elaboration: &mut Elaboration,
        default: &Option<Expr>,
    ) -> Result<Value, BuildFault>
        requires { Makes self.now.builder.level (F.pre self.now.builder.make) (F.post self.now.builder.make) }
        ensures { Elabs (classes.default_of (make_at self.now.builder.level) default.now (site_of site.now) elaboration.old) result elaboration.new }
    {
        match default {
            Some(e) => {
                let value = self.builder.eval(site, elaboration, e)?;
                clean(site.line, value)
            }
            None => Err(BuildFault::BadArguments(site.line)),
        }
    }

    // The value of a parameter that no argument fills by its place.
    #[tactic(auto, unfolding(pm_elab::specs::Classes::parameter_value))]
    fn parameter_value(
        &self,
        site: &Site<'_>,
        elaboration: &mut Elaboration,
        given: &[Given],
        parameter: &Par,
    ) -> Result<Value, BuildFault>
        requires { Makes self.now.builder.level (F.pre self.now.builder.make) (F.post self.now.builder.make) }
        ensures { Elabs (classes.parameter_value (make_at self.now.builder.level) given.now parameter.now (site_of site.now) elaboration.old) result elaboration.new }
    {
        match value_named(given, parameter.name.as_slice()) {
            Some(value) => Ok(copy(self.builder.alloc, value)?),
            None => self.default_of(site, elaboration, &parameter.default),
        }
    }

    /// The values of parameters in order, behind those that stand.
    #[tactic(auto, unfolding(pm_elab::specs::Classes::parameters_from))]
    pub(crate) fn parameters_from(
        &self,
        site: &Site<'_>,
        elaboration: &mut Elaboration,
        values: List<Value>,
        given: &[Given],
        parameters: &[Par],
    ) -> Result<List<Value>, BuildFault>
        requires { Makes self.now.builder.level (F.pre self.now.builder.make) (F.post self.now.builder.make) }
        ensures { Elabs (classes.parameters_from (make_at self.now.builder.level) values given.now parameters.now (site_of site.now) elaboration.old) result elaboration.new }
    {
        let mut done = values;
        for parameter in parameters {
            done.push(self.parameter_value(site, elaboration, given, parameter)?)?;
        }
        Ok(done)
    }

    // The body of a `construct`.
    #[tactic(auto, unfolding(pm_elab::specs::Constructs::construct_body, pm_elab::specs::Statements::body))]
    fn construct_body(
        &self,
        file: &FileScope<'_>,
        elaboration: &mut Elaboration,
        frame: &mut Frame,
        construct: &Construct<'_>,
    ) -> Result<(), BuildFault>
        requires { Makes self.now.builder.level (F.pre self.now.builder.make) (F.post self.now.builder.make) }
        ensures { Moves (spec.construct_body (make_at self.now.builder.level) (scope_of file.now) (construct_of construct.now) frame.old elaboration.old) result frame.new elaboration.new }
    {
        match construct.after {
            Some(statement) => self.simple(file, elaboration, frame, construct.line, statement),
            None => self.lines(file, elaboration, frame, construct.body),
        }
    }

    // The members of an interface, from the frame in which its `construct` begins.
    #[tactic(auto, unfolding(crate::specs::Bodies::interface_body))]
    fn interface_body(
        &self,
        file: &FileScope<'_>,
        elaboration: &mut Elaboration,
        frame: &mut Frame,
        class: &Class<'_>,
    ) -> Result<Value, BuildFault>
        requires { Makes self.now.builder.level (F.pre self.now.builder.make) (F.post self.now.builder.make) }
        ensures { Elabs (interface_body (make_at self.now.builder.level) (scope_of file.now) (class_of class.now) frame.old elaboration.old) result elaboration.new }
    {
        self.construct_body(file, elaboration, frame, &construct_in(class.lines))?;
        Ok(Value::NewInterface(members_of(self.builder.alloc, &frame.raw.attributes)?))
    }

    // An interface.
    #[tactic(auto, unfolding(pm_elab::specs::Constructs::interface, crate::specs::Bodies::interface_body))]
    fn interface(
        &self,
        file: &FileScope<'_>,
        elaboration: &mut Elaboration,
        name: &[u8],
        class: &Class<'_>,
        values: &[Value],
    ) -> Result<Value, BuildFault>
        requires { Makes self.now.builder.level (F.pre self.now.builder.make) (F.post self.now.builder.make) }
        ensures { Elabs (spec.interface (make_at self.now.builder.level) (scope_of file.now) name.now (class_of class.now) values.now elaboration.old) result elaboration.new }
    {
        let parameters = construct_in(class.lines).parameters;
        let mut frame = interface_start(self.builder.alloc, name, parameters, values)?;
        self.interface_body(file, elaboration, &mut frame, class)
    }

    // A component, from the frame in which its `construct` begins: the headers of its methods, which `outer` meets, then
    // `construct`.
    #[tactic(auto, unfolding(crate::specs::Bodies::component_body))]
    fn component_body(
        &self,
        outer: &Runner<F>,
        file: &FileScope<'_>,
        elaboration: &mut Elaboration,
        frame: &mut Frame,
        class: &Class<'_>,
    ) -> Result<(), BuildFault>
        requires inner { Makes self.now.builder.level (F.pre self.now.builder.make) (F.post self.now.builder.make) }
        requires outer { Makes outer.now.builder.level (F.pre outer.now.builder.make) (F.post outer.now.builder.make) }
        ensures { Moves (component_body (make_at outer.now.builder.level) (make_at self.now.builder.level) (scope_of file.now) (class_of class.now) frame.old elaboration.old) result frame.new elaboration.new }
    {
        outer.headers(file, elaboration, frame, class.lines)?;
        self.construct_body(file, elaboration, frame, &construct_in(class.lines))?;
        captured(self.builder.alloc, frame)
    }

    /// A component.
    pub(crate) fn component(
        &self,
        outer: &Runner<F>,
        file: &FileScope<'_>,
        elaboration: &mut Elaboration,
        name: &[u8],
        class: &Class<'_>,
        values: List<Value>,
    ) -> Result<u32, BuildFault>
        requires inner { Makes self.now.builder.level (F.pre self.now.builder.make) (F.post self.now.builder.make) }
        requires outer { Makes outer.now.builder.level (F.pre outer.now.builder.make) (F.post outer.now.builder.make) }
        ensures { Elabs (spec.component (make_at outer.now.builder.level) (make_at self.now.builder.level) (scope_of file.now) name.now (class_of class.now) values elaboration.old) result elaboration.new }
    {
        let parameters = construct_in(class.lines).parameters;
        let mut frame = component_start(self.builder.alloc, name, parameters, values.as_slice())?;
        match self.component_body(outer, file, elaboration, &mut frame, class) {
            Ok(()) => keep(elaboration, values, frame),
            Err(fault) => Err(fault),
        }
    }

    // A `construct` that runs.
    #[tactic(auto, unfolding(pm_elab::specs::Constructs::constructed))]
    pub(crate) fn constructed(
        &self,
        outer: &Runner<F>,
        file: &FileScope<'_>,
        elaboration: &mut Elaboration,
        name: &[u8],
        class: &Class<'_>,
        values: List<Value>,
        line: u32,
    ) -> Result<Value, BuildFault>
        requires inner { Makes self.now.builder.level (F.pre self.now.builder.make) (F.post self.now.builder.make) }
        requires outer { Makes outer.now.builder.level (F.pre outer.now.builder.make) (F.post outer.now.builder.make) }
        ensures { Elabs (spec.constructed (make_at outer.now.builder.level) (make_at self.now.builder.level) (scope_of file.now) name.now (class_of class.now) values line elaboration.old) result elaboration.new }
    {
        match class.class {
            ConstructedClass::Component => {
                let kind = self.component(outer, file, elaboration, name, class, values)?;
                Ok(Value::New(New::Child(kind)))
            }
            ConstructedClass::Interface => self.interface(
                file,
                elaboration,
                name,
                class,
                values.as_slice(),
            ),
        }
    }

    // The values of all parameters of a class; `self` stands outside of any `construct`.
    #[tactic(auto, unfolding(pm_elab::specs::Classes::arguments))]
    pub(crate) fn arguments_of(
        &self,
        file: &FileScope<'_>,
        elaboration: &mut Elaboration,
        construct: &Construct<'_>,
        given: &[Given],
        line: u32,
    ) -> Result<List<Value>, BuildFault>
        requires { Makes self.now.builder.level (F.pre self.now.builder.make) (F.post self.now.builder.make) }
        ensures { Elabs (classes.arguments (make_at self.now.builder.level) (scope_of file.now) (construct_of construct.now) given.now line elaboration.old) result elaboration.new }
    {
        fitted(line, given, construct.parameters)?;
        let places = leading(given);
        let values = leading_values(self.builder.alloc, given)?;
        let site = outside(file, construct.line);
        self.parameters_from(
            &site,
            elaboration,
            values,
            &given[places..],
            &construct.parameters[places..],
        )
    }
}
