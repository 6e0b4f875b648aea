//! Headers of methods, which are met before the statements of `construct`.
ghost use Rattle.std.specs.Prelude.{◌≡◌, [], IfOk, Ok, map};
ghost use Rattle.pm_elab.specs.Constructs.{make_at};
ghost use Rattle.pm_elab.specs.Elab.{Changes, Elabs, Moves, Runs};
ghost use Rattle.pm_elab.specs.Makes.{Makes};
ghost use Rattle.pm_elab.specs.Methods as spec;
ghost use Rattle.pm_elab.specs.Sites as sites;
ghost use Rattle.pm_elab.specs.Sites.{scope_of, site_of};
ghost use Rattle.pm_build.specs.Guards.{guard_of, lent_guard};

use crate::runner::Runner;
use pm_design::{Callee, Method};
use pm_elab::{
    Argument, BodyPlace, Code, Elaboration, FileScope, Frame, Given, MethodTypes, Site, type_in,
};
use pm_frame::{attribute_set, body_nodes, body_put, number_of, width_if};
use pm_io::{List, NoMemory, Text};
use pm_syn::{Expr, Node, Par, Stmt};
use pm_values::{BuildFault, Taken, Value, ValueType};
use std::alloc::Global;
use tree_copy::copy_expression;

/// A decorator `@non_blocking( lambda s: e )`.
#[derive(Clone, Copy)]
pub(crate) struct GuardLine<'a> {
    line: u32,
    condition: &'a Expr,
}

/// A place outside of any `construct`.
pub(crate) fn outside<'a>(file: &FileScope<'a>, line: u32) -> Site<'a>
    ensures { site_of result ≡ sites.outside (scope_of file.now) line }
{
    Site {
        file: *file,
        frame: None,
        turns: &[],
        line,
    }
}

// The widths of arguments.
fn widths_of(alloc: Global, arguments: &[Argument]) -> Result<List<u32>, NoMemory>
    ensures { IfOk result (λ widths. widths ≡ map (λ a. a.ty.width) arguments.now) }
{
    let mut widths = List::new(alloc);
    for argument in arguments {
        widths.push(argument.ty.width)?;
    }
    Ok(widths)
}

// A method whose body isn't typed yet.
fn untyped_method(alloc: Global, name: Text, arguments: List<u32>, width: Option<u32>) -> Method
    ensures { result ≡ spec.untyped_method name arguments width }
{
    Method {
        name,
        arguments,
        result: width,
        guard: None,
        body: List::new(alloc),
        answer: None,
        temps: List::new(alloc),
    }
}

// Adds a method whose body isn't typed yet.
#[tactic(auto, unfolding(pm_elab::specs::Methods::method_added))]
fn method_added(
    alloc: Global,
    frame: &mut Frame,
    name: &[u8],
    types: MethodTypes,
) -> Result<(), BuildFault>
    ensures { Changes (Ok (spec.method_added name.now types frame.old)) result frame.new }
{
    let widths = widths_of(alloc, types.arguments.as_slice())?;
    let name = Text::from_slice(alloc, name)?;
    let method = untyped_method(alloc, name, widths, width_if(types.result));
    frame.kind.methods.push(method)?;
    frame.raw.methods.push(types)?;
    Ok(())
}

// A method takes its name.
#[tactic(auto, unfolding(pm_elab::specs::Methods::named_method))]
fn named_method(
    alloc: Global,
    frame: &mut Frame,
    name: &[u8],
    types: MethodTypes,
) -> Result<(), BuildFault>
    ensures { Changes (Ok (spec.named_method name.now types frame.old)) result frame.new }
{
    let number = number_of(frame.kind.methods.len())?;
    method_added(alloc, frame, name, types)?;
    attribute_set(
        alloc,
        frame,
        name,
        Value::Taken(Taken::Method(Callee::Own(number))),
    )
}

// Adds the body of a guard, if there is one.
#[tactic(auto, unfolding(pm_elab::specs::Methods::guard_put))]
fn guard_put(
    alloc: Global,
    frame: &mut Frame,
    method: u32,
    guard: Option<GuardLine<'_>>,
) -> Result<(), BuildFault>
    ensures { Changes (Ok (spec.guard_put method (guard_of guard.entry) frame.old)) result frame.new }
{
    match guard {
        Some(guard) => {
            let condition = copy_expression(alloc, guard.condition)?;
            body_put(
                frame,
                BodyPlace::Guard(method),
                guard.line,
                Code::Guard(condition),
            )
        }
        None => Ok(()),
    }
}

// Adds a method, with its guard and its body.
#[tactic(auto, unfolding(pm_elab::specs::Methods::method_set))]
fn method_set(
    alloc: Global,
    frame: &mut Frame,
    name: &[u8],
    types: MethodTypes,
    guard: Option<GuardLine<'_>>,
    line: u32,
    nodes: List<Node>,
) -> Result<(), BuildFault>
    ensures { Changes (Ok (spec.method_set name.now types (guard_of guard.entry) line nodes frame.old)) result frame.new }
{
    let number = number_of(frame.kind.methods.len())?;
    named_method(alloc, frame, name, types)?;
    guard_put(alloc, frame, number, guard)?;
    body_put(
        frame,
        BodyPlace::Method(number),
        line,
        Code::Statements(nodes),
    )
}

fn is_used(frame: &Frame, name: &[u8]) -> bool
    ensures { result ≡ spec.is_used frame.now name.now }
{
    name == b"clk".as_slice() || frame.raw.attributes.contains(name)
}

// Adds a method of a new name.
#[tactic(auto, unfolding(pm_elab::specs::Methods::method_put))]
fn method_put(
    alloc: Global,
    frame: &mut Frame,
    name: &[u8],
    types: MethodTypes,
    guard: Option<GuardLine<'_>>,
    line: u32,
    nodes: List<Node>,
) -> Result<(), BuildFault>
    ensures { Changes (spec.method_put name.now types (guard_of guard.entry) line nodes frame.old) result frame.new }
{
    if is_used(frame, name) {
        return Err(BuildFault::SameName(line));
    }
    method_set(alloc, frame, name, types, guard, line, nodes)
}

impl<
    F: Fn(
        Global,
        Option<usize>,
        &Site<'_>,
        &mut Elaboration,
        &[u8],
        &[Given],
    ) -> Result<Value, BuildFault>,
> Runner<F> {
    // The type that an annotation gives.
    #[tactic(auto, unfolding(pm_elab::specs::Methods::annotation))]
    pub(crate) fn annotation(
        &self,
        site: &Site<'_>,
        elaboration: &mut Elaboration,
        e: &Expr,
    ) -> Result<ValueType, BuildFault>
        requires { Makes self.now.builder.level (F.pre self.now.builder.make) (F.post self.now.builder.make) }
        ensures { Elabs (spec.annotation (make_at self.now.builder.level) e.now (site_of site.now) elaboration.old) result elaboration.new }
    {
        let value = self.builder.eval(site, elaboration, e)?;
        type_in(site.line, &value)
    }

    // The type of an argument, which has an annotation and no default.
    fn argument_type(
        &self,
        site: &Site<'_>,
        elaboration: &mut Elaboration,
        note: &Option<Expr>,
        default: &Option<Expr>,
    ) -> Result<ValueType, BuildFault>
        requires { Makes self.now.builder.level (F.pre self.now.builder.make) (F.post self.now.builder.make) }
        ensures { Elabs (spec.argument_by (make_at self.now.builder.level) note.now default.now (site_of site.now) elaboration.old) result elaboration.new }
    {
        match (note, default) {
            (Some(e), None) => self.annotation(site, elaboration, e),
            _ => Err(BuildFault::WrongKind(site.line)),
        }
    }

    // An argument and its type.
    #[tactic(auto, unfolding(pm_elab::specs::Methods::argument))]
    fn argument(
        &self,
        site: &Site<'_>,
        elaboration: &mut Elaboration,
        parameter: &Par,
    ) -> Result<Argument, BuildFault>
        requires { Makes self.now.builder.level (F.pre self.now.builder.make) (F.post self.now.builder.make) }
        ensures { Elabs (spec.argument (make_at self.now.builder.level) parameter.now (site_of site.now) elaboration.old) result elaboration.new }
    {
        let ty = self.argument_type(site, elaboration, &parameter.note, &parameter.default)?;
        let name = Text::from_slice(self.builder.alloc, parameter.name.as_slice())?;
        Ok(Argument { name, ty })
    }

    // Arguments from left to right.
    #[tactic(auto, unfolding(pm_elab::specs::Methods::arguments_from))]
    fn arguments(
        &self,
        site: &Site<'_>,
        elaboration: &mut Elaboration,
        parameters: &[Par],
    ) -> Result<List<Argument>, BuildFault>
        requires { Makes self.now.builder.level (F.pre self.now.builder.make) (F.post self.now.builder.make) }
        ensures { Elabs (spec.arguments_from (make_at self.now.builder.level) [] parameters.now (site_of site.now) elaboration.old) result elaboration.new }
    {
        let mut arguments = List::new(self.builder.alloc);
        for parameter in parameters {
            arguments.push(self.argument(site, elaboration, parameter)?)?;
        }
        Ok(arguments)
    }

    // The type of a result, if there is one.
    #[tactic(auto, unfolding(pm_elab::specs::Methods::result_type))]
    fn result_type(
        &self,
        site: &Site<'_>,
        elaboration: &mut Elaboration,
        note: &Option<Expr>,
    ) -> Result<Option<ValueType>, BuildFault>
        requires { Makes self.now.builder.level (F.pre self.now.builder.make) (F.post self.now.builder.make) }
        ensures { Elabs (spec.result_type (make_at self.now.builder.level) note.now (site_of site.now) elaboration.old) result elaboration.new }
    {
        match note {
            Some(e) => Ok(Some(self.annotation(site, elaboration, e)?)),
            None => Ok(None),
        }
    }

    // The types of a method.
    #[tactic(auto, unfolding(pm_elab::specs::Methods::method_types))]
    fn method_types(
        &self,
        site: &Site<'_>,
        elaboration: &mut Elaboration,
        parameters: &[Par],
        note: &Option<Expr>,
    ) -> Result<MethodTypes, BuildFault>
        requires { Makes self.now.builder.level (F.pre self.now.builder.make) (F.post self.now.builder.make) }
        ensures { Elabs (spec.method_types (make_at self.now.builder.level) parameters.now note.now (site_of site.now) elaboration.old) result elaboration.new }
    {
        let arguments = self.arguments(site, elaboration, parameters)?;
        let result = self.result_type(site, elaboration, note)?;
        Ok(MethodTypes { arguments, result })
    }

    // `def name( s, .. )` in a class.
    #[tactic(auto, unfolding(pm_elab::specs::Methods::method))]
    fn method(
        &self,
        file: &FileScope<'_>,
        elaboration: &mut Elaboration,
        frame: &mut Frame,
        name: &[u8],
        parameters: &[Par],
        note: &Option<Expr>,
        guard: Option<GuardLine<'_>>,
        line: u32,
        nodes: List<Node>,
    ) -> Result<(), BuildFault>
        requires { Makes self.now.builder.level (F.pre self.now.builder.make) (F.post self.now.builder.make) }
        ensures { Moves (spec.method (make_at self.now.builder.level) (scope_of file.now) name.now parameters.now note.now (guard_of guard.entry) line nodes frame.old elaboration.old) result frame.new elaboration.new }
    {
        let site = outside(file, line);
        let types = self.method_types(&site, elaboration, parameters, note)?;
        method_put(self.builder.alloc, frame, name, types, guard, line, nodes)
    }

    // A `def` of a class: a method, or `construct`.
    #[tactic(auto, unfolding(pm_elab::specs::Methods::def_header))]
    fn def_header(
        &self,
        file: &FileScope<'_>,
        elaboration: &mut Elaboration,
        frame: &mut Frame,
        name: &[u8],
        parameters: &[Par],
        note: &Option<Expr>,
        guard: Option<GuardLine<'_>>,
        line: u32,
        nodes: List<Node>,
    ) -> Result<(), BuildFault>
        requires { Makes self.now.builder.level (F.pre self.now.builder.make) (F.post self.now.builder.make) }
        ensures { Moves (spec.def_header (make_at self.now.builder.level) (scope_of file.now) name.now parameters.now note.now (guard_of guard.entry) line nodes frame.old elaboration.old) result frame.new elaboration.new }
    {
        if name == b"construct".as_slice() {
            return Ok(());
        }
        self.method(
            file,
            elaboration,
            frame,
            name,
            parameters,
            note,
            guard,
            line,
            nodes,
        )
    }

    // A line of a class, after the decorator before it. Gives the decorator that it is.
    #[tactic(auto, unfolding(pm_elab::specs::Methods::header))]
    fn header<'a>(
        &self,
        file: &FileScope<'_>,
        elaboration: &mut Elaboration,
        frame: &mut Frame,
        guard: Option<GuardLine<'_>>,
        node: &'a Node,
    ) -> Result<Option<GuardLine<'a>>, BuildFault>
        requires { Makes self.now.builder.level (F.pre self.now.builder.make) (F.post self.now.builder.make) }
        ensures { Runs (spec.header (make_at self.now.builder.level) (scope_of file.now) (guard_of guard.entry) node.now frame.old elaboration.old) (lent_guard result) frame.new elaboration.new }
    {
        match &node.stmt {
            Stmt::NonBlocking(condition) => Ok(Some(GuardLine {
                line: node.line,
                condition,
            })),
            Stmt::Def(name, _, parameters, note, after) => {
                let nodes = body_nodes(self.builder.alloc, after, node.body.as_slice(), node.line)?;
                let parameters = parameters.as_slice();
                self.def_header(
                    file,
                    elaboration,
                    frame,
                    name.as_slice(),
                    parameters,
                    note,
                    guard,
                    node.line,
                    nodes,
                )?;
                Ok(None)
            }
            _ => Ok(None),
        }
    }

    /// The headers of a class's methods, in the order of its lines.
    #[tactic(auto, unfolding(pm_elab::specs::Methods::headers_from))]
    pub(crate) fn headers(
        &self,
        file: &FileScope<'_>,
        elaboration: &mut Elaboration,
        frame: &mut Frame,
        nodes: &[Node],
    ) -> Result<(), BuildFault>
        requires { Makes self.now.builder.level (F.pre self.now.builder.make) (F.post self.now.builder.make) }
        ensures { Moves (spec.headers (make_at self.now.builder.level) (scope_of file.now) nodes.now frame.old elaboration.old) result frame.new elaboration.new }
    {
        let mut guard = None;
        for node in nodes {
            guard = self.header(file, elaboration, frame, guard, node)?;
        }
        Ok(())
    }
}
