//! The statements of a file.
ghost use Rattle.std.specs.Prelude.{◌≡◌, []};
ghost use Rattle.pm_elab.specs.Constructs.{make_at};
ghost use Rattle.pm_elab.specs.Elab.{Elabs, Moves};
ghost use Rattle.pm_elab.specs.Files as spec;
ghost use Rattle.pm_elab.specs.Makes.{Makes};
ghost use Rattle.pm_elab.specs.Sites.{scope_of, site_of};

use crate::method::outside;
use crate::runner::Runner;
use pm_class::{clean, field_put, has_class, name_of, shape_put};
use pm_design::Field;
use pm_elab::{Elaboration, FileScope, Given, Site};
use pm_io::{List, Text};
use pm_syn::{Expr, Node, Stmt};
use pm_values::{BuildFault, Table, Value};
use std::alloc::Global;

/// What every line of a file sees.
pub(crate) fn file_scope<'a>(nodes: &'a [Node], names: &'a Table<Value>) -> FileScope<'a>
    ensures { scope_of result ≡ record { nodes = nodes.now; names = names.now } }
{
    FileScope { nodes, names }
}

impl<
    F: Fn(
        Global,
        Option<usize>,
        &Site<'_>,
        &mut Elaboration,
        &[u8],
        &[Given],
    ) -> Result<Value, BuildFault>,
> Runner<F> {
    // A field of a bitstruct: `name : T`, which costs a step.
    #[tactic(auto, unfolding(pm_elab::specs::Files::field))]
    fn field(
        &self,
        file: &FileScope<'_>,
        elaboration: &mut Elaboration,
        line: u32,
        fields: List<Field>,
        name: &Expr,
        ty: &Expr,
    ) -> Result<List<Field>, BuildFault>
        requires { Makes self.now.builder.level (F.pre self.now.builder.make) (F.post self.now.builder.make) }
        ensures { Elabs (spec.field (make_at self.now.builder.level) (scope_of file.now) line fields name.now ty.now elaboration.old) result elaboration.new }
    {
        elaboration.step(line)?;
        let site = outside(file, line);
        let ty = self.annotation(&site, elaboration, ty)?;
        field_put(self.builder.alloc, line, fields, name_of(name), ty)
    }

    // A line of a bitstruct.
    #[tactic(auto, unfolding(pm_elab::specs::Files::field_of_line))]
    fn field_of_line(
        &self,
        file: &FileScope<'_>,
        elaboration: &mut Elaboration,
        fields: List<Field>,
        node: &Node,
    ) -> Result<List<Field>, BuildFault>
        requires { Makes self.now.builder.level (F.pre self.now.builder.make) (F.post self.now.builder.make) }
        ensures { Elabs (spec.field_of_line (make_at self.now.builder.level) (scope_of file.now) fields node.now elaboration.old) result elaboration.new }
    {
        match &node.stmt {
            Stmt::Note(name, ty, _) => self.field(file, elaboration, node.line, fields, name, ty),
            _ => Ok(fields),
        }
    }

    // The fields of a bitstruct's lines.
    #[tactic(auto, unfolding(pm_elab::specs::Files::fields_from))]
    fn fields(
        &self,
        file: &FileScope<'_>,
        elaboration: &mut Elaboration,
        nodes: &[Node],
    ) -> Result<List<Field>, BuildFault>
        requires { Makes self.now.builder.level (F.pre self.now.builder.make) (F.post self.now.builder.make) }
        ensures { Elabs (spec.fields_from (make_at self.now.builder.level) (scope_of file.now) [] nodes.now elaboration.old) result elaboration.new }
    {
        let mut fields = List::new(self.builder.alloc);
        for node in nodes {
            fields = self.field_of_line(file, elaboration, fields, node)?;
        }
        Ok(fields)
    }

    // The type of a bitstruct.
    #[tactic(auto, unfolding(pm_elab::specs::Files::bitstruct))]
    fn bitstruct(
        &self,
        file: &FileScope<'_>,
        elaboration: &mut Elaboration,
        line: u32,
        name: &[u8],
        nodes: &[Node],
    ) -> Result<Value, BuildFault>
        requires { Makes self.now.builder.level (F.pre self.now.builder.make) (F.post self.now.builder.make) }
        ensures { Elabs (spec.bitstruct (make_at self.now.builder.level) (scope_of file.now) line name.now nodes.now elaboration.old) result elaboration.new }
    {
        let fields = self.fields(file, elaboration, nodes)?;
        let ty = shape_put(self.builder.alloc, elaboration, line, name, fields)?;
        Ok(Value::Type(ty))
    }

    // `name = e`, which costs a step.
    #[tactic(auto, unfolding(pm_elab::specs::Files::constant))]
    fn constant(
        &self,
        file: &FileScope<'_>,
        elaboration: &mut Elaboration,
        line: u32,
        e: &Expr,
    ) -> Result<Value, BuildFault>
        requires { Makes self.now.builder.level (F.pre self.now.builder.make) (F.post self.now.builder.make) }
        ensures { Elabs (spec.constant (make_at self.now.builder.level) (scope_of file.now) line e.now elaboration.old) result elaboration.new }
    {
        elaboration.step(line)?;
        let site = outside(file, line);
        let value = self.builder.eval(&site, elaboration, e)?;
        clean(line, value)
    }

    // A class, or a bitstruct.
    fn class_value(
        &self,
        file: &FileScope<'_>,
        elaboration: &mut Elaboration,
        line: u32,
        name: &[u8],
        base: &Option<Text>,
        nodes: &[Node],
    ) -> Result<Value, BuildFault>
        requires { Makes self.now.builder.level (F.pre self.now.builder.make) (F.post self.now.builder.make) }
        ensures { Elabs (spec.class_value (make_at self.now.builder.level) (scope_of file.now) line name.now base.now nodes.now elaboration.old) result elaboration.new }
    {
        match base {
            None => self.bitstruct(file, elaboration, line, name, nodes),
            Some(_) => Ok(Value::Class(Text::from_slice(self.builder.alloc, name)?)),
        }
    }

    // `class name ..` of a new name, behind the earlier lines.
    #[tactic(auto, unfolding(pm_elab::specs::Files::class_statement))]
    fn class_statement(
        &self,
        earlier: &[Node],
        file: &FileScope<'_>,
        elaboration: &mut Elaboration,
        line: u32,
        name: &[u8],
        base: &Option<Text>,
        nodes: &[Node],
    ) -> Result<Value, BuildFault>
        requires { Makes self.now.builder.level (F.pre self.now.builder.make) (F.post self.now.builder.make) }
        ensures { Elabs (spec.class_statement (make_at self.now.builder.level) earlier.now (scope_of file.now) line name.now base.now nodes.now elaboration.old) result elaboration.new }
    {
        if has_class(earlier, name) {
            return Err(BuildFault::SameName(line));
        }
        self.class_value(file, elaboration, line, name, base, nodes)
    }

    // `name = e`: the name stands for the value from now on.
    #[tactic(auto, unfolding(pm_elab::specs::Files::constant_named))]
    fn constant_named(
        &self,
        nodes: &[Node],
        elaboration: &mut Elaboration,
        names: &mut Table<Value>,
        line: u32,
        to: &Expr,
        e: &Expr,
    ) -> Result<(), BuildFault>
        requires { Makes self.now.builder.level (F.pre self.now.builder.make) (F.post self.now.builder.make) }
        ensures { Moves (spec.constant_named (make_at self.now.builder.level) (record { nodes = nodes.now; names = names.old }) line to.now e.now elaboration.old) result names.new elaboration.new }
    {
        let value = self.constant(&file_scope(nodes, names), elaboration, line, e)?;
        names.put(self.builder.alloc, name_of(to), value)?;
        Ok(())
    }

    // A class's name stands for it from now on.
    #[tactic(auto, unfolding(pm_elab::specs::Files::class_given))]
    fn class_given(
        &self,
        earlier: &[Node],
        nodes: &[Node],
        elaboration: &mut Elaboration,
        names: &mut Table<Value>,
        line: u32,
        name: &[u8],
        base: &Option<Text>,
        body: &[Node],
    ) -> Result<(), BuildFault>
        requires { Makes self.now.builder.level (F.pre self.now.builder.make) (F.post self.now.builder.make) }
        ensures { Moves (spec.class_given (make_at self.now.builder.level) earlier.now (record { nodes = nodes.now; names = names.old }) line name.now base.now body.now elaboration.old) result names.new elaboration.new }
    {
        let file = file_scope(nodes, names);
        let value = self.class_statement(earlier, &file, elaboration, line, name, base, body)?;
        names.put(self.builder.alloc, name, value)?;
        Ok(())
    }

    // A statement of the file, behind the earlier lines.
    #[tactic(auto, unfolding(pm_elab::specs::Files::statement))]
    fn file_statement(
        &self,
        earlier: &[Node],
        nodes: &[Node],
        elaboration: &mut Elaboration,
        names: &mut Table<Value>,
        node: &Node,
    ) -> Result<(), BuildFault>
        requires { Makes self.now.builder.level (F.pre self.now.builder.make) (F.post self.now.builder.make) }
        ensures { Moves (spec.statement (make_at self.now.builder.level) earlier.now (record { nodes = nodes.now; names = names.old }) node.now elaboration.old) result names.new elaboration.new }
    {
        match &node.stmt {
            Stmt::Assign(_, to, e) => self.constant_named(
                nodes,
                elaboration,
                names,
                node.line,
                to,
                e,
            ),
            Stmt::Class(name, base) => {
                let body = node.body.as_slice();
                let name = name.as_slice();
                self.class_given(
                    earlier,
                    nodes,
                    elaboration,
                    names,
                    node.line,
                    name,
                    base,
                    body,
                )
            }
            _ => Ok(()),
        }
    }

    /// The names of the file, once all its statements have run.
    #[tactic(auto, unfolding(pm_elab::specs::Files::statements_from))]
    pub(crate) fn statements(
        &self,
        elaboration: &mut Elaboration,
        nodes: &[Node],
    ) -> Result<Table<Value>, BuildFault>
        requires { Makes self.now.builder.level (F.pre self.now.builder.make) (F.post self.now.builder.make) }
        ensures { Elabs (spec.statements_from (make_at self.now.builder.level) nodes.now 0 [] nodes.now elaboration.old) result elaboration.new }
    {
        let mut names = Table::new(self.builder.alloc);
        for (index, node) in nodes.iter().enumerate() {
            self.file_statement(&nodes[..index], nodes, elaboration, &mut names, node)?;
        }
        Ok(names)
    }
}
