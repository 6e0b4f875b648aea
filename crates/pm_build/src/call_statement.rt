//! Calls on their own: connections, constraints, and calls whose value nothing takes.
ghost use Rattle.std.specs.Prelude.{◌≡◌, map};
ghost use Rattle.std.specs.Option.{option_map};
ghost use Rattle.pm_names.specs.Found.{value_of};
ghost use Rattle.pm_elab.specs.Constructs.{make_at};
ghost use Rattle.pm_elab.specs.Elab.{Moves};
ghost use Rattle.pm_elab.specs.Expressions.{passed};
ghost use Rattle.pm_elab.specs.Makes.{Makes};
ghost use Rattle.pm_elab.specs.Sites as sites;
ghost use Rattle.pm_elab.specs.Sites.{scope_of, site_of};
ghost use Rattle.pm_elab.specs.Statements as spec;

use crate::runner::{Runner, inside};
use pm_elab::{Called, Elaboration, FileScope, Frame, Function, Given, Site};
use pm_eval::both;
use pm_frame::{connected, constrained, unused};
use pm_names::{Found, named};
use pm_syn::{Arg, Expr};
use pm_values::{BuildFault, Value};
use std::alloc::Global;

fn is_own_value(found: Option<Found<'_>>) -> bool
    ensures { result ≡ spec.is_own_value (option_map value_of found.entry) }
{
    match found {
        Some(Found::Kept(Value::Own)) | Some(Found::Made(Value::Own)) => true,
        _ => false,
    }
}

/// Whether the expression is a name that means `s`.
#[tactic(auto, unfolding(pm_elab::specs::Statements::is_own))]
fn is_own(site: &Site<'_>, e: &Expr) -> bool
    ensures { result ≡ spec.is_own (site_of site.now) e.now }
{
    match e {
        Expr::Name(name) => is_own_value(named(site, name.as_slice())),
        _ => false,
    }
}

/// Whether the expression is `s.add_constraints`.
#[tactic(auto, unfolding(pm_elab::specs::Statements::constrains))]
fn constrains(site: &Site<'_>, e: &Expr) -> bool
    ensures { result ≡ spec.constrains (site_of site.now) e.now }
{
    match e {
        Expr::Attr(base, name) => {
            name.as_slice() == b"add_constraints".as_slice() && is_own(site, base.get())
        }
        _ => false,
    }
}

impl<
    F: Fn(
        Global,
        Option<usize>,
        &Site<'_>,
        &mut Elaboration,
        &[u8],
        &[Given],
    ) -> Result<Value, BuildFault>,
> Runner<F> {
    // `connect( a, b )`.
    #[tactic(auto, unfolding(pm_elab::specs::Statements::connect_call))]
    fn connect_call(
        &self,
        file: &FileScope<'_>,
        elaboration: &mut Elaboration,
        frame: &mut Frame,
        line: u32,
        arguments: &[Arg],
    ) -> Result<(), BuildFault>
        requires { Makes self.now.builder.level (F.pre self.now.builder.make) (F.post self.now.builder.make) }
        ensures { Moves (spec.connect_call (map (passed (make_at self.now.builder.level)) arguments.now) (sites.inside (scope_of file.now) frame.old line) frame.old elaboration.old) result frame.new elaboration.new }
    {
        let site = inside(file.nodes, file.names, frame, line);
        let given = self.builder.given(&site, elaboration, arguments)?;
        let (a, b) = both(line, given.as_slice())?;
        connected(
            self.builder.alloc,
            elaboration.kinds.as_slice(),
            a,
            b,
            frame,
            line,
        )
    }

    // A call whose value nothing takes.
    #[tactic(auto, unfolding(pm_elab::specs::Statements::unused_call))]
    fn unused_call(
        &self,
        file: &FileScope<'_>,
        elaboration: &mut Elaboration,
        frame: &mut Frame,
        line: u32,
        arguments: &[Arg],
        called: &Called,
    ) -> Result<(), BuildFault>
        requires { Makes self.now.builder.level (F.pre self.now.builder.make) (F.post self.now.builder.make) }
        ensures { Moves (spec.unused_call (make_at self.now.builder.level) called.now (map (passed (make_at self.now.builder.level)) arguments.now) (sites.inside (scope_of file.now) frame.old line) frame.old elaboration.old) result frame.new elaboration.new }
    {
        let site = inside(file.nodes, file.names, frame, line);
        let value = self.builder.call_of(&site, elaboration, arguments, called)?;
        unused(frame, &value, line)
    }

    // A call on its own, once it is known what is called.
    #[tactic(auto, unfolding(pm_elab::specs::Statements::call_statement))]
    fn call_statement(
        &self,
        file: &FileScope<'_>,
        elaboration: &mut Elaboration,
        frame: &mut Frame,
        line: u32,
        arguments: &[Arg],
        called: &Called,
    ) -> Result<(), BuildFault>
        requires { Makes self.now.builder.level (F.pre self.now.builder.make) (F.post self.now.builder.make) }
        ensures { Moves (spec.call_statement (make_at self.now.builder.level) called.now (map (passed (make_at self.now.builder.level)) arguments.now) (sites.inside (scope_of file.now) frame.old line) frame.old elaboration.old) result frame.new elaboration.new }
    {
        match called {
            Called::Function(Function::Connect) => {
                self.connect_call(file, elaboration, frame, line, arguments)
            }
            _ => self.unused_call(file, elaboration, frame, line, arguments, called),
        }
    }

    // `s.add_constraints( .. )`.
    #[tactic(auto, unfolding(pm_elab::specs::Statements::constraint_call))]
    fn constraint_call(
        &self,
        file: &FileScope<'_>,
        elaboration: &mut Elaboration,
        frame: &mut Frame,
        line: u32,
        arguments: &[Arg],
    ) -> Result<(), BuildFault>
        requires { Makes self.now.builder.level (F.pre self.now.builder.make) (F.post self.now.builder.make) }
        ensures { Moves (spec.constraint_call (map (passed (make_at self.now.builder.level)) arguments.now) (sites.inside (scope_of file.now) frame.old line) frame.old elaboration.old) result frame.new elaboration.new }
    {
        let site = inside(file.nodes, file.names, frame, line);
        let given = self.builder.given(&site, elaboration, arguments)?;
        constrained(self.builder.alloc, frame, given.as_slice(), line)
    }

    // A call on its own that adds no constraint.
    #[tactic(auto, unfolding(pm_elab::specs::Statements::plain_call))]
    fn plain_call(
        &self,
        file: &FileScope<'_>,
        elaboration: &mut Elaboration,
        frame: &mut Frame,
        line: u32,
        callee: &Expr,
        arguments: &[Arg],
    ) -> Result<(), BuildFault>
        requires { Makes self.now.builder.level (F.pre self.now.builder.make) (F.post self.now.builder.make) }
        ensures { Moves (spec.plain_call (make_at self.now.builder.level) callee.now (map (passed (make_at self.now.builder.level)) arguments.now) (sites.inside (scope_of file.now) frame.old line) frame.old elaboration.old) result frame.new elaboration.new }
    {
        let site = inside(file.nodes, file.names, frame, line);
        let called = self.builder.callee(&site, elaboration, callee)?;
        self.call_statement(file, elaboration, frame, line, arguments, &called)
    }

    // A call on its own.
    #[tactic(auto, unfolding(pm_elab::specs::Statements::do_call))]
    fn do_call(
        &self,
        file: &FileScope<'_>,
        elaboration: &mut Elaboration,
        frame: &mut Frame,
        line: u32,
        callee: &Expr,
        arguments: &[Arg],
    ) -> Result<(), BuildFault>
        requires { Makes self.now.builder.level (F.pre self.now.builder.make) (F.post self.now.builder.make) }
        ensures { Moves (spec.do_call (make_at self.now.builder.level) callee.now (map (passed (make_at self.now.builder.level)) arguments.now) (sites.inside (scope_of file.now) frame.old line) frame.old elaboration.old) result frame.new elaboration.new }
    {
        if constrains(&inside(file.nodes, file.names, frame, line), callee) {
            self.constraint_call(file, elaboration, frame, line, arguments)
        } else {
            self.plain_call(file, elaboration, frame, line, callee, arguments)
        }
    }

    // A value that nothing takes.
    #[tactic(auto, unfolding(pm_elab::specs::Statements::do_value))]
    fn do_value(
        &self,
        file: &FileScope<'_>,
        elaboration: &mut Elaboration,
        frame: &mut Frame,
        line: u32,
        e: &Expr,
    ) -> Result<(), BuildFault>
        requires { Makes self.now.builder.level (F.pre self.now.builder.make) (F.post self.now.builder.make) }
        ensures { Moves (spec.do_value (make_at self.now.builder.level) e.now (sites.inside (scope_of file.now) frame.old line) frame.old elaboration.old) result frame.new elaboration.new }
    {
        let site = inside(file.nodes, file.names, frame, line);
        let value = self.builder.eval(&site, elaboration, e)?;
        unused(frame, &value, line)
    }

    // An expression on its own.
    #[tactic(auto, unfolding(pm_elab::specs::Statements::do_statement))]
    pub(crate) fn do_statement(
        &self,
        file: &FileScope<'_>,
        elaboration: &mut Elaboration,
        frame: &mut Frame,
        line: u32,
        e: &Expr,
    ) -> Result<(), BuildFault>
        requires { Makes self.now.builder.level (F.pre self.now.builder.make) (F.post self.now.builder.make) }
        ensures { Moves (spec.do_statement (make_at self.now.builder.level) e.now (sites.inside (scope_of file.now) frame.old line) frame.old elaboration.old) result frame.new elaboration.new }
    {
        match e {
            Expr::Call(callee, arguments) => {
                self.do_call(
                    file,
                    elaboration,
                    frame,
                    line,
                    callee.get(),
                    arguments.as_slice(),
                )
            }
            _ => self.do_value(file, elaboration, frame, line, e),
        }
    }
}
