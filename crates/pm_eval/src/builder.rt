//! What expressions give. What makes a class is passed in, so that each rule is proved by itself.
ghost use Rattle.pm_elab.specs.Constructs.{make_at};
ghost use Rattle.pm_elab.specs.Elab.{Elabs};
ghost use Rattle.pm_elab.specs.Expressions as spec;
ghost use Rattle.pm_elab.specs.Makes.{Makes};
ghost use Rattle.pm_elab.specs.Sites.{site_of};
ghost use Rattle.pm_names.specs.Found.{found_in};

use crate::operators::{literal, truth};
use crate::places::{name_found, name_value};
use pm_elab::{Elaboration, Given, Site, int};
use pm_names::Found;
use pm_syn::Expr;
use pm_values::{BuildFault, Value};
use std::alloc::Global;

/// Runs expressions, and makes classes by a function.
#[derive(Clone, Copy)]
pub struct Builder<F> {
    pub alloc: Global,
    /// None outside of any `construct`, else how many more may be nested.
    pub level: Option<usize>,
    pub make: F,
}

impl<
    F: Fn(
        Global,
        Option<usize>,
        &Site<'_>,
        &mut Elaboration,
        &[u8],
        &[Given],
    ) -> Result<Value, BuildFault>,
> Builder<F> {
    /// What the call of the class makes.
    pub(crate) fn make_class(
        &self,
        site: &Site<'_>,
        elaboration: &mut Elaboration,
        class: &[u8],
        given: &[Given],
    ) -> Result<Value, BuildFault>
        requires { Makes self.now.level (F.pre self.now.make) (F.post self.now.make) }
        ensures { Elabs (make_at self.now.level (site_of site.now) class.now given.now elaboration.old) result elaboration.new }
    {
        (self.make)(self.alloc, self.level, site, elaboration, class, given)
    }

    /// What the expression gives at a place.
    #[cycle(eval)]
    #[tactic(auto, unfolding(pm_elab::specs::Expressions::name_value), using(crate::proofs::Meanings::forms))]
    pub fn eval(
        &self,
        site: &Site<'_>,
        elaboration: &mut Elaboration,
        e: &Expr,
    ) -> Result<Value, BuildFault>
        requires { Makes self.now.level (F.pre self.now.make) (F.post self.now.make) }
        ensures { Elabs (spec.eval (make_at self.now.level) e.now (site_of site.now) elaboration.old) result elaboration.new }
    {
        match e {
            Expr::Name(name) => name_value(self.alloc, site, name.as_slice()),
            Expr::Int(number) => literal(site.line, *number),
            Expr::Bool(holds) => Ok(Value::Int(truth(*holds))),
            Expr::Unary(op, operand) => self.unary(site, elaboration, *op, operand.get()),
            Expr::Binary(op, left, right) => {
                self.operation(site, elaboration, *op, left.get(), right.get())
            }
            Expr::Cond(this, condition, other) => {
                self.choice(site, elaboration, this.get(), condition.get(), other.get())
            }
            Expr::Attr(base, name) => {
                self.attribute_of(site, elaboration, base.get(), name.as_slice())
            }
            Expr::Call(callee, arguments) => {
                self.call(site, elaboration, arguments.as_slice(), callee.get())
            }
            Expr::Index(base, index) => self.index(site, elaboration, base.get(), index.get()),
            Expr::Slice(base, lo, hi) => {
                self.slice_expression(site, elaboration, base.get(), lo.get(), hi.get())
            }
            Expr::Items(elements) => self.items(site, elaboration, elements.as_slice()),
            Expr::Each(element, name, bounds) => self.comprehension(
                site,
                elaboration,
                bounds.as_slice(),
                element.get(),
                name.as_slice(),
            ),
        }
    }

    /// The integer that the expression gives.
    #[cycle(eval)]
    pub fn int_of(
        &self,
        site: &Site<'_>,
        elaboration: &mut Elaboration,
        e: &Expr,
    ) -> Result<i64, BuildFault>
        requires { Makes self.now.level (F.pre self.now.make) (F.post self.now.make) }
        ensures { Elabs (spec.int_of (spec.meaning (make_at self.now.level) e.now) (site_of site.now) elaboration.old) result elaboration.new }
    {
        let value = self.eval(site, elaboration, e)?;
        int(site.line, &value)
    }

    /// What the expression gives at a place, copied only where it is made for the purpose.
    #[cycle(eval)]
    #[tactic(auto, unfolding(pm_elab::specs::Expressions::name_value), using(crate::proofs::Meanings::forms))]
    pub(crate) fn find<'a>(
        &self,
        site: &Site<'a>,
        elaboration: &mut Elaboration,
        e: &Expr,
    ) -> Result<Found<'a>, BuildFault>
        requires { Makes self.now.level (F.pre self.now.make) (F.post self.now.make) }
        ensures { Elabs (spec.eval (make_at self.now.level) e.now (site_of site.now) elaboration.old) (found_in result) elaboration.new }
    {
        match e {
            Expr::Name(name) => name_found(site, name.as_slice()),
            Expr::Attr(base, name) => {
                self.find_attribute(site, elaboration, base.get(), name.as_slice())
            }
            Expr::Index(base, index) => self.find_element(
                site,
                elaboration,
                base.get(),
                index.get(),
            ),
            _ => {
                let value = self.eval(site, elaboration, e)?;
                Ok(Found::Made(value))
            }
        }
    }
}
