//! Operators, by their operands.
ghost use Rattle.pm_elab.specs.Constructs.{make_at};
ghost use Rattle.pm_elab.specs.Elab.{Elabs};
ghost use Rattle.pm_elab.specs.Expressions as spec;
ghost use Rattle.pm_elab.specs.Makes.{Makes};
ghost use Rattle.pm_elab.specs.Sites.{site_of};

use crate::builder::Builder;
use crate::operators::{integer_or, orders, rule, settles, term_in};
use pm_design::Term;
use pm_elab::{Elaboration, Given, Site, int};
use pm_syn::{BinaryOp, Expr, UnaryOp};
use pm_values::{BuildFault, Value, applied, operated};
use std::alloc::Global;

impl<
    F: Fn(
        Global,
        Option<usize>,
        &Site<'_>,
        &mut Elaboration,
        &[u8],
        &[Given],
    ) -> Result<Value, BuildFault>,
> Builder<F> {
    /// `-e`, `+e`, `~e` and `not e`.
    #[cycle(eval)]
    #[tactic(auto, unfolding(pm_elab::specs::Expressions::unary))]
    pub(crate) fn unary(
        &self,
        site: &Site<'_>,
        elaboration: &mut Elaboration,
        op: UnaryOp,
        operand: &Expr,
    ) -> Result<Value, BuildFault>
        requires { Makes self.now.level (F.pre self.now.make) (F.post self.now.make) }
        ensures { Elabs (spec.unary op (spec.meaning (make_at self.now.level) operand.now) (site_of site.now) elaboration.old) result elaboration.new }
    {
        let number = self.int_of(site, elaboration, operand)?;
        integer_or(site.line, applied(op, number))
    }

    /// An operator.
    #[cycle(eval)]
    #[tactic(auto, unfolding(pm_elab::specs::Expressions::operation))]
    pub(crate) fn operation(
        &self,
        site: &Site<'_>,
        elaboration: &mut Elaboration,
        op: BinaryOp,
        left: &Expr,
        right: &Expr,
    ) -> Result<Value, BuildFault>
        requires { Makes self.now.level (F.pre self.now.make) (F.post self.now.make) }
        ensures { Elabs (spec.operation op (spec.meaning (make_at self.now.level) left.now) (spec.meaning (make_at self.now.level) right.now) (site_of site.now) elaboration.old) result elaboration.new }
    {
        let value = self.eval(site, elaboration, left)?;
        self.operation_on(site, elaboration, op, right, &value)
    }

    // An operator, once its left operand has a value.
    #[cycle(eval)]
    #[tactic(auto, unfolding(pm_elab::specs::Expressions::operation_on))]
    fn operation_on(
        &self,
        site: &Site<'_>,
        elaboration: &mut Elaboration,
        op: BinaryOp,
        right: &Expr,
        value: &Value,
    ) -> Result<Value, BuildFault>
        requires { Makes self.now.level (F.pre self.now.make) (F.post self.now.make) }
        ensures { Elabs (spec.operation_on op value.now (spec.meaning (make_at self.now.level) right.now) (site_of site.now) elaboration.old) result elaboration.new }
    {
        match term_in(value) {
            Some(term) => self.comparison(site, elaboration, op, right, term),
            None => self.int_operation(site, elaboration, op, right, value),
        }
    }

    // An operator on integers.
    #[cycle(eval)]
    #[tactic(auto, unfolding(pm_elab::specs::Expressions::int_operation))]
    fn int_operation(
        &self,
        site: &Site<'_>,
        elaboration: &mut Elaboration,
        op: BinaryOp,
        right: &Expr,
        value: &Value,
    ) -> Result<Value, BuildFault>
        requires { Makes self.now.level (F.pre self.now.make) (F.post self.now.make) }
        ensures { Elabs (spec.int_operation op value.now (spec.meaning (make_at self.now.level) right.now) (site_of site.now) elaboration.old) result elaboration.new }
    {
        let first = int(site.line, value)?;
        if settles(op, first) {
            return Ok(Value::Int(first));
        }
        let second = self.int_of(site, elaboration, right)?;
        integer_or(site.line, operated(op, first, second))
    }

    // A comparison of a term with what stands right of it.
    #[cycle(eval)]
    #[tactic(auto, unfolding(pm_elab::specs::Expressions::comparison))]
    fn comparison(
        &self,
        site: &Site<'_>,
        elaboration: &mut Elaboration,
        op: BinaryOp,
        right: &Expr,
        term: &Term,
    ) -> Result<Value, BuildFault>
        requires { Makes self.now.level (F.pre self.now.make) (F.post self.now.make) }
        ensures { Elabs (spec.comparison op term.now (spec.meaning (make_at self.now.level) right.now) (site_of site.now) elaboration.old) result elaboration.new }
    {
        if !orders(op) {
            return Err(BuildFault::WrongKind(site.line));
        }
        let value = self.eval(site, elaboration, right)?;
        rule(site.line, op, term, &value)
    }

    /// `a if c else b` runs one of a and b.
    #[cycle(eval)]
    #[tactic(auto, unfolding(pm_elab::specs::Expressions::choice))]
    pub(crate) fn choice(
        &self,
        site: &Site<'_>,
        elaboration: &mut Elaboration,
        this: &Expr,
        condition: &Expr,
        other: &Expr,
    ) -> Result<Value, BuildFault>
        requires { Makes self.now.level (F.pre self.now.make) (F.post self.now.make) }
        ensures { Elabs (spec.choice (spec.meaning (make_at self.now.level) this.now) (spec.meaning (make_at self.now.level) condition.now) (spec.meaning (make_at self.now.level) other.now) (site_of site.now) elaboration.old) result elaboration.new }
    {
        if self.int_of(site, elaboration, condition)? == 0 {
            self.eval(site, elaboration, other)
        } else {
            self.eval(site, elaboration, this)
        }
    }
}
