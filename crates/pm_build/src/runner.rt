//! Runs the statements of `construct` that have no others in them.
ghost use Rattle.std.specs.Prelude.{◌≡◌};
ghost use Rattle.pm_elab.specs.Constructs.{make_at};
ghost use Rattle.pm_elab.specs.Elab.{Elabs, Moves};
ghost use Rattle.pm_elab.specs.Makes.{Makes};
ghost use Rattle.pm_elab.specs.Sites as sites;
ghost use Rattle.pm_elab.specs.Sites.{scope_of, site_of};
ghost use Rattle.pm_elab.specs.Statements as spec;

use pm_elab::{Elaboration, FileScope, Frame, Given, Site, type_in};
use pm_eval::Builder;
use pm_frame::{assigned, connected, lambda_block, state_put, target_of};
use pm_syn::{AssignOp, Expr, Node, Stmt};
use pm_values::{BuildFault, Table, Value, ValueType};
use std::alloc::Global;

/// Runs the lines of `construct`.
#[derive(Clone, Copy)]
pub struct Runner<F> {
    pub builder: Builder<F>,
}

/// A place in a run of `construct`.
pub(crate) fn inside<'a>(
    nodes: &'a [Node],
    names: &'a Table<Value>,
    frame: &'a Frame,
    line: u32,
) -> Site<'a>
    ensures { site_of result ≡ sites.inside (record { nodes = nodes.now; names = names.now }) frame.now line }
{
    Site {
        file: FileScope { nodes, names },
        frame: Some(frame),
        turns: &[],
        line,
    }
}

impl<
    F: Fn(
        Global,
        Option<usize>,
        &Site<'_>,
        &mut Elaboration,
        &[u8],
        &[Given],
    ) -> Result<Value, BuildFault>,
> Runner<F> {
    // `assert e`.
    #[tactic(auto, unfolding(pm_elab::specs::Statements::assertion))]
    fn assertion(
        &self,
        file: &FileScope<'_>,
        elaboration: &mut Elaboration,
        frame: &mut Frame,
        line: u32,
        e: &Expr,
    ) -> Result<(), BuildFault>
        requires { Makes self.now.builder.level (F.pre self.now.builder.make) (F.post self.now.builder.make) }
        ensures { Moves (spec.assertion (make_at self.now.builder.level) e.now (sites.inside (scope_of file.now) frame.old line) frame.old elaboration.old) result frame.new elaboration.new }
    {
        let site = inside(file.nodes, file.names, frame, line);
        if self.builder.int_of(&site, elaboration, e)? == 0 {
            return Err(BuildFault::AssertFailed(line));
        }
        Ok(())
    }

    // `a = e`.
    #[tactic(auto, unfolding(pm_elab::specs::Statements::assignment))]
    fn assignment(
        &self,
        file: &FileScope<'_>,
        elaboration: &mut Elaboration,
        frame: &mut Frame,
        line: u32,
        to: &Expr,
        e: &Expr,
    ) -> Result<(), BuildFault>
        requires { Makes self.now.builder.level (F.pre self.now.builder.make) (F.post self.now.builder.make) }
        ensures { Moves (spec.assignment (make_at self.now.builder.level) to.now e.now (sites.inside (scope_of file.now) frame.old line) frame.old elaboration.old) result frame.new elaboration.new }
    {
        let site = inside(file.nodes, file.names, frame, line);
        let value = self.builder.eval(&site, elaboration, e)?;
        let target = target_of(self.builder.alloc, to)?;
        assigned(
            self.builder.alloc,
            elaboration.kinds.as_slice(),
            frame,
            &target,
            value,
            line,
        )
    }

    // `a //= b`.
    #[tactic(auto, unfolding(pm_elab::specs::Statements::join))]
    fn join(
        &self,
        file: &FileScope<'_>,
        elaboration: &mut Elaboration,
        frame: &mut Frame,
        line: u32,
        a: &Expr,
        b: &Expr,
    ) -> Result<(), BuildFault>
        requires { Makes self.now.builder.level (F.pre self.now.builder.make) (F.post self.now.builder.make) }
        ensures { Moves (spec.join (make_at self.now.builder.level) a.now b.now (sites.inside (scope_of file.now) frame.old line) frame.old elaboration.old) result frame.new elaboration.new }
    {
        let site = inside(file.nodes, file.names, frame, line);
        let first = self.builder.eval(&site, elaboration, a)?;
        let second = self.builder.eval(&site, elaboration, b)?;
        connected(
            self.builder.alloc,
            elaboration.kinds.as_slice(),
            &first,
            &second,
            frame,
            line,
        )
    }

    // `a //= lambda: e`.
    #[tactic(auto, unfolding(pm_elab::specs::Statements::lambda))]
    fn lambda(
        &self,
        file: &FileScope<'_>,
        elaboration: &mut Elaboration,
        frame: &mut Frame,
        line: u32,
        to: &Expr,
        e: &Expr,
    ) -> Result<(), BuildFault>
        requires { Makes self.now.builder.level (F.pre self.now.builder.make) (F.post self.now.builder.make) }
        ensures { Moves (spec.lambda (make_at self.now.builder.level) to.now e.now (sites.inside (scope_of file.now) frame.old line) frame.old elaboration.old) result frame.new elaboration.new }
    {
        let site = inside(file.nodes, file.names, frame, line);
        let target = self.builder.eval(&site, elaboration, to)?;
        lambda_block(self.builder.alloc, frame, &target, e, line)
    }

    // The type of a state.
    #[tactic(auto, unfolding(pm_elab::specs::Statements::state_type))]
    fn state_type(
        &self,
        site: &Site<'_>,
        elaboration: &mut Elaboration,
        ty: &Expr,
    ) -> Result<ValueType, BuildFault>
        requires { Makes self.now.builder.level (F.pre self.now.builder.make) (F.post self.now.builder.make) }
        ensures { Elabs (spec.state_type (make_at self.now.builder.level) ty.now (site_of site.now) elaboration.old) result elaboration.new }
    {
        let value = self.builder.eval(site, elaboration, ty)?;
        type_in(site.line, &value)
    }

    // `s.name : T = c`.
    #[tactic(auto, unfolding(pm_elab::specs::Statements::state))]
    fn state(
        &self,
        file: &FileScope<'_>,
        elaboration: &mut Elaboration,
        frame: &mut Frame,
        line: u32,
        to: &Expr,
        ty: &Expr,
        e: &Expr,
    ) -> Result<(), BuildFault>
        requires { Makes self.now.builder.level (F.pre self.now.builder.make) (F.post self.now.builder.make) }
        ensures { Moves (spec.state (make_at self.now.builder.level) to.now ty.now e.now (sites.inside (scope_of file.now) frame.old line) frame.old elaboration.old) result frame.new elaboration.new }
    {
        let site = inside(file.nodes, file.names, frame, line);
        let ty = self.state_type(&site, elaboration, ty)?;
        let value = self.builder.eval(&site, elaboration, e)?;
        let target = target_of(self.builder.alloc, to)?;
        state_put(self.builder.alloc, frame, &target, ty, &value, line)
    }

    // `a = b` and `a //= b`; other assignments stand in bodies.
    fn assign(
        &self,
        file: &FileScope<'_>,
        elaboration: &mut Elaboration,
        frame: &mut Frame,
        line: u32,
        op: AssignOp,
        a: &Expr,
        b: &Expr,
    ) -> Result<(), BuildFault>
        requires { Makes self.now.builder.level (F.pre self.now.builder.make) (F.post self.now.builder.make) }
        ensures { Moves (spec.assign_by op (make_at self.now.builder.level) a.now b.now (sites.inside (scope_of file.now) frame.old line) frame.old elaboration.old) result frame.new elaboration.new }
    {
        match op {
            AssignOp::Plain => self.assignment(file, elaboration, frame, line, a, b),
            AssignOp::Join => self.join(file, elaboration, frame, line, a, b),
            AssignOp::Now | AssignOp::Next => Ok(()),
        }
    }

    // A statement that has no others in it, once its step is taken.
    #[tactic(auto, unfolding(pm_elab::specs::Statements::simple_statement))]
    fn simple_statement(
        &self,
        file: &FileScope<'_>,
        elaboration: &mut Elaboration,
        frame: &mut Frame,
        line: u32,
        statement: &Stmt,
    ) -> Result<(), BuildFault>
        requires { Makes self.now.builder.level (F.pre self.now.builder.make) (F.post self.now.builder.make) }
        ensures { Moves (spec.simple_statement (make_at self.now.builder.level) statement.now (sites.inside (scope_of file.now) frame.old line) frame.old elaboration.old) result frame.new elaboration.new }
    {
        match statement {
            Stmt::Assert(e) => self.assertion(file, elaboration, frame, line, e),
            Stmt::Assign(op, a, b) => self.assign(file, elaboration, frame, line, *op, a, b),
            Stmt::JoinLambda(to, e) => self.lambda(file, elaboration, frame, line, to, e),
            Stmt::Note(to, ty, Some(e)) => self.state(file, elaboration, frame, line, to, ty, e),
            Stmt::Note(_, _, None) => Err(BuildFault::WrongKind(line)),
            Stmt::Do(e) => self.do_statement(file, elaboration, frame, line, e),
            _ => Ok(()),
        }
    }

    // A statement that has no others in it; it costs a step.
    #[tactic(auto, unfolding(pm_elab::specs::Statements::simple))]
    pub(crate) fn simple(
        &self,
        file: &FileScope<'_>,
        elaboration: &mut Elaboration,
        frame: &mut Frame,
        line: u32,
        statement: &Stmt,
    ) -> Result<(), BuildFault>
        requires { Makes self.now.builder.level (F.pre self.now.builder.make) (F.post self.now.builder.make) }
        ensures { Moves (spec.simple (make_at self.now.builder.level) (scope_of file.now) statement.now line frame.old elaboration.old) result frame.new elaboration.new }
    {
        elaboration.step(line)?;
        self.simple_statement(file, elaboration, frame, line, statement)
    }
}
