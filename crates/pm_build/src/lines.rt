//! Runs the lines of `construct`.
ghost use Rattle.std.specs.Prelude.{◌≡◌, map};
ghost use Rattle.pm_elab.specs.declared.statement.Before.TheVariants as before;
ghost use Rattle.pm_elab.specs.Constructs.{make_at};
ghost use Rattle.pm_elab.specs.Elab.{Moves, Runs};
ghost use Rattle.pm_elab.specs.Makes.{Makes};
ghost use Rattle.pm_elab.specs.Sites.{scope_of, site_of};
ghost use Rattle.pm_elab.specs.Statements as spec;

use crate::runner::{Runner, inside};
use pm_elab::{Before, Elaboration, FileScope, Frame, Given, Site};
use pm_frame::{block_def, decorator, local_put};
use pm_io::Boxed;
use pm_syn::{Expr, Node, Stmt};
use pm_values::{BuildFault, Range, Value};
use std::alloc::Global;

impl<
    F: Fn(
        Global,
        Option<usize>,
        &Site<'_>,
        &mut Elaboration,
        &[u8],
        &[Given],
    ) -> Result<Value, BuildFault>,
> Runner<F> {
    // Whether a condition holds; it costs a step.
    #[tactic(auto, unfolding(pm_elab::specs::Statements::condition))]
    fn condition(
        &self,
        file: &FileScope<'_>,
        elaboration: &mut Elaboration,
        frame: &mut Frame,
        line: u32,
        e: &Expr,
    ) -> Result<bool, BuildFault>
        requires { Makes self.now.builder.level (F.pre self.now.builder.make) (F.post self.now.builder.make) }
        ensures { Runs (spec.condition (make_at self.now.builder.level) (scope_of file.now) e.now line frame.old elaboration.old) result frame.new elaboration.new }
    {
        elaboration.step(line)?;
        let site = inside(file.nodes, file.names, frame, line);
        Ok(self.builder.int_of(&site, elaboration, e)? != 0)
    }

    // The integers of a loop; it costs a step.
    #[tactic(auto, unfolding(pm_elab::specs::Statements::loop_range))]
    fn loop_range(
        &self,
        file: &FileScope<'_>,
        elaboration: &mut Elaboration,
        frame: &mut Frame,
        line: u32,
        arguments: &[Expr],
    ) -> Result<Range, BuildFault>
        requires { Makes self.now.builder.level (F.pre self.now.builder.make) (F.post self.now.builder.make) }
        ensures { Runs (spec.loop_range (make_at self.now.builder.level) (scope_of file.now) arguments.now line frame.old elaboration.old) result frame.new elaboration.new }
    {
        elaboration.step(line)?;
        let site = inside(file.nodes, file.names, frame, line);
        self.builder.range(&site, elaboration, arguments)
    }

    // `def` in `construct`: under a decorator it is a block.
    #[tactic(auto, unfolding(pm_elab::specs::Statements::def))]
    fn def(
        &self,
        elaboration: &mut Elaboration,
        frame: &mut Frame,
        line: u32,
        before: Before,
        name: &[u8],
        after: &Option<Boxed<Stmt>>,
        below: &[Node],
    ) -> Result<Before, BuildFault>
        ensures { Runs (spec.def before name.now after.now below.now line frame.old elaboration.old) result frame.new elaboration.new }
    {
        match before {
            Before::Decorator(sort) => {
                elaboration.step(line)?;
                block_def(self.builder.alloc, frame, name, sort, after, below, line)?;
                Ok(Before::Nothing)
            }
            Before::Nothing | Before::Taken => Ok(Before::Nothing),
        }
    }

    // Any other statement.
    #[tactic(auto, unfolding(pm_elab::specs::Statements::plain))]
    fn plain(
        &self,
        file: &FileScope<'_>,
        elaboration: &mut Elaboration,
        frame: &mut Frame,
        line: u32,
        statement: &Stmt,
    ) -> Result<Before, BuildFault>
        requires { Makes self.now.builder.level (F.pre self.now.builder.make) (F.post self.now.builder.make) }
        ensures { Runs (spec.plain (make_at self.now.builder.level) (scope_of file.now) statement.now line frame.old elaboration.old) result frame.new elaboration.new }
    {
        self.simple(file, elaboration, frame, line, statement)?;
        Ok(Before::Nothing)
    }

    // The body of a header: the statement after its colon, or the lines below.
    #[cycle(run)]
    #[tactic(auto, unfolding(pm_elab::specs::Statements::body))]
    pub(crate) fn body(
        &self,
        file: &FileScope<'_>,
        elaboration: &mut Elaboration,
        frame: &mut Frame,
        line: u32,
        below: &[Node],
        after: &Option<Boxed<Stmt>>,
    ) -> Result<(), BuildFault>
        requires { Makes self.now.builder.level (F.pre self.now.builder.make) (F.post self.now.builder.make) }
        ensures { Moves (spec.body (make_at self.now.builder.level) (scope_of file.now) after.now (map (spec.run (make_at self.now.builder.level) (scope_of file.now)) below.now) line frame.old elaboration.old) result frame.new elaboration.new }
    {
        match after {
            Some(statement) => self.simple(file, elaboration, frame, line, statement.get()),
            None => self.lines(file, elaboration, frame, below),
        }
    }

    // The body of a branch that is taken.
    #[cycle(run)]
    #[tactic(auto, unfolding(pm_elab::specs::Statements::taken_branch))]
    fn taken_branch(
        &self,
        file: &FileScope<'_>,
        elaboration: &mut Elaboration,
        frame: &mut Frame,
        line: u32,
        below: &[Node],
        after: &Option<Boxed<Stmt>>,
    ) -> Result<Before, BuildFault>
        requires { Makes self.now.builder.level (F.pre self.now.builder.make) (F.post self.now.builder.make) }
        ensures { Runs (spec.taken_branch (make_at self.now.builder.level) (scope_of file.now) after.now (map (spec.run (make_at self.now.builder.level) (scope_of file.now)) below.now) line frame.old elaboration.old) result frame.new elaboration.new }
    {
        self.body(file, elaboration, frame, line, below, after)?;
        Ok(Before::Taken)
    }

    // `if` and `elif`.
    #[cycle(run)]
    #[tactic(auto, unfolding(pm_elab::specs::Statements::branch))]
    fn branch(
        &self,
        file: &FileScope<'_>,
        elaboration: &mut Elaboration,
        frame: &mut Frame,
        line: u32,
        below: &[Node],
        e: &Expr,
        after: &Option<Boxed<Stmt>>,
    ) -> Result<Before, BuildFault>
        requires { Makes self.now.builder.level (F.pre self.now.builder.make) (F.post self.now.builder.make) }
        ensures { Runs (spec.branch (make_at self.now.builder.level) (scope_of file.now) e.now after.now (map (spec.run (make_at self.now.builder.level) (scope_of file.now)) below.now) line frame.old elaboration.old) result frame.new elaboration.new }
    {
        if self.condition(file, elaboration, frame, line, e)? {
            self.taken_branch(file, elaboration, frame, line, below, after)
        } else {
            Ok(Before::Nothing)
        }
    }

    // A turn of a loop costs a step, sets the name and runs the body.
    #[cycle(run)]
    #[tactic(auto, unfolding(pm_elab::specs::Statements::turn))]
    fn turn(
        &self,
        file: &FileScope<'_>,
        elaboration: &mut Elaboration,
        frame: &mut Frame,
        line: u32,
        below: &[Node],
        name: &[u8],
        number: &i64,
        after: &Option<Boxed<Stmt>>,
    ) -> Result<(), BuildFault>
        requires { Makes self.now.builder.level (F.pre self.now.builder.make) (F.post self.now.builder.make) }
        ensures { Moves (spec.turn (make_at self.now.builder.level) (scope_of file.now) name.now after.now (map (spec.run (make_at self.now.builder.level) (scope_of file.now)) below.now) line number.now frame.old elaboration.old) result frame.new elaboration.new }
    {
        elaboration.step(line)?;
        local_put(self.builder.alloc, frame, name, Value::Int(*number))?;
        self.body(file, elaboration, frame, line, below, after)
    }

    // The turns of a loop.
    #[cycle(run)]
    #[tactic(auto, unfolding(pm_elab::specs::Statements::turns_of))]
    fn turns_of(
        &self,
        file: &FileScope<'_>,
        elaboration: &mut Elaboration,
        frame: &mut Frame,
        line: u32,
        below: &[Node],
        name: &[u8],
        range: Range,
        after: &Option<Boxed<Stmt>>,
    ) -> Result<(), BuildFault>
        requires { Makes self.now.builder.level (F.pre self.now.builder.make) (F.post self.now.builder.make) }
        ensures { Moves (spec.turns_of (make_at self.now.builder.level) (scope_of file.now) name.now after.now (map (spec.run (make_at self.now.builder.level) (scope_of file.now)) below.now) line range frame.old elaboration.old) result frame.new elaboration.new }
    {
        let mut range = range;
        while let Some(number) = range.next() {
            self.turn(file, elaboration, frame, line, below, name, &number, after)?;
        }
        Ok(())
    }

    // `for name in range( .. ):`.
    #[cycle(run)]
    #[tactic(auto, unfolding(pm_elab::specs::Statements::repeat))]
    fn repeat(
        &self,
        file: &FileScope<'_>,
        elaboration: &mut Elaboration,
        frame: &mut Frame,
        line: u32,
        below: &[Node],
        name: &[u8],
        arguments: &[Expr],
        after: &Option<Boxed<Stmt>>,
    ) -> Result<Before, BuildFault>
        requires { Makes self.now.builder.level (F.pre self.now.builder.make) (F.post self.now.builder.make) }
        ensures { Runs (spec.repeat (make_at self.now.builder.level) (scope_of file.now) name.now arguments.now after.now (map (spec.run (make_at self.now.builder.level) (scope_of file.now)) below.now) line frame.old elaboration.old) result frame.new elaboration.new }
    {
        let range = self.loop_range(file, elaboration, frame, line, arguments)?;
        self.turns_of(file, elaboration, frame, line, below, name, range, after)?;
        Ok(Before::Nothing)
    }

    // `elif`, unless an earlier branch was taken.
    #[cycle(run)]
    #[tactic(auto, unfolding(pm_elab::specs::Statements::later_branch))]
    fn later_branch(
        &self,
        file: &FileScope<'_>,
        elaboration: &mut Elaboration,
        frame: &mut Frame,
        line: u32,
        below: &[Node],
        e: &Expr,
        after: &Option<Boxed<Stmt>>,
        before: Before,
    ) -> Result<Before, BuildFault>
        requires { Makes self.now.builder.level (F.pre self.now.builder.make) (F.post self.now.builder.make) }
        ensures { Runs (spec.later_branch (make_at self.now.builder.level) (scope_of file.now) e.now after.now (map (spec.run (make_at self.now.builder.level) (scope_of file.now)) below.now) line before frame.old elaboration.old) result frame.new elaboration.new }
    {
        match before {
            Before::Taken => Ok(Before::Taken),
            Before::Nothing | Before::Decorator(_) => {
                self.branch(file, elaboration, frame, line, below, e, after)
            }
        }
    }

    // `else`, unless an earlier branch was taken.
    #[cycle(run)]
    #[tactic(auto, unfolding(pm_elab::specs::Statements::last_branch))]
    fn last_branch(
        &self,
        file: &FileScope<'_>,
        elaboration: &mut Elaboration,
        frame: &mut Frame,
        line: u32,
        below: &[Node],
        after: &Option<Boxed<Stmt>>,
        before: Before,
    ) -> Result<Before, BuildFault>
        requires { Makes self.now.builder.level (F.pre self.now.builder.make) (F.post self.now.builder.make) }
        ensures { Runs (spec.last_branch (make_at self.now.builder.level) (scope_of file.now) after.now (map (spec.run (make_at self.now.builder.level) (scope_of file.now)) below.now) line before frame.old elaboration.old) result frame.new elaboration.new }
    {
        match before {
            Before::Taken => Ok(Before::Taken),
            Before::Nothing | Before::Decorator(_) => {
                self.taken_branch(file, elaboration, frame, line, below, after)
            }
        }
    }

    // A line, by its statement and the lines below.
    #[cycle(run)]
    #[tactic(auto, unfolding(pm_elab::specs::Statements::statement))]
    fn statement(
        &self,
        file: &FileScope<'_>,
        elaboration: &mut Elaboration,
        frame: &mut Frame,
        line: u32,
        below: &[Node],
        statement: &Stmt,
        before: Before,
    ) -> Result<Before, BuildFault>
        requires { Makes self.now.builder.level (F.pre self.now.builder.make) (F.post self.now.builder.make) }
        ensures { Runs (spec.statement (make_at self.now.builder.level) (scope_of file.now) statement.now (map (spec.run (make_at self.now.builder.level) (scope_of file.now)) below.now) below.now line before frame.old elaboration.old) result frame.new elaboration.new }
    {
        match statement {
            Stmt::If(e, after) => self.branch(file, elaboration, frame, line, below, e, after),
            Stmt::Elif(e, after) => {
                self.later_branch(file, elaboration, frame, line, below, e, after, before)
            }
            Stmt::Else(after) => self.last_branch(
                file,
                elaboration,
                frame,
                line,
                below,
                after,
                before,
            ),
            Stmt::For(name, arguments, after) => {
                let name = name.as_slice();
                let arguments = arguments.as_slice();
                self.repeat(
                    file,
                    elaboration,
                    frame,
                    line,
                    below,
                    name,
                    arguments,
                    after,
                )
            }
            Stmt::Def(name, _, _, _, after) => {
                self.def(
                    elaboration,
                    frame,
                    line,
                    before,
                    name.as_slice(),
                    after,
                    below,
                )
            }
            Stmt::Mark(name) => Ok(Before::Decorator(decorator(name.as_slice()))),
            _ => self.plain(file, elaboration, frame, line, statement),
        }
    }

    // A line and those below it.
    #[cycle(run)]
    #[tactic(auto, using(crate::proofs::Nodes::run_line))]
    fn run(
        &self,
        file: &FileScope<'_>,
        elaboration: &mut Elaboration,
        frame: &mut Frame,
        node: &Node,
        before: Before,
    ) -> Result<Before, BuildFault>
        requires { Makes self.now.builder.level (F.pre self.now.builder.make) (F.post self.now.builder.make) }
        ensures { Runs (spec.run (make_at self.now.builder.level) (scope_of file.now) node.now before frame.old elaboration.old) result frame.new elaboration.new }
    {
        self.statement(
            file,
            elaboration,
            frame,
            node.line,
            node.body.as_slice(),
            &node.stmt,
            before,
        )
    }

    // Lines one after the other.
    #[cycle(run)]
    #[tactic(auto, unfolding(pm_elab::specs::Statements::lines))]
    pub(crate) fn lines(
        &self,
        file: &FileScope<'_>,
        elaboration: &mut Elaboration,
        frame: &mut Frame,
        nodes: &[Node],
    ) -> Result<(), BuildFault>
        requires { Makes self.now.builder.level (F.pre self.now.builder.make) (F.post self.now.builder.make) }
        ensures { Moves (spec.lines (map (spec.run (make_at self.now.builder.level) (scope_of file.now)) nodes.now) before.Nothing frame.old elaboration.old) result frame.new elaboration.new }
    {
        let mut before = Before::Nothing;
        for node in nodes {
            before = self.run(file, elaboration, frame, node, before)?;
        }
        Ok(())
    }
}
