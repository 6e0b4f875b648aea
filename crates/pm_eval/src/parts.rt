//! Attributes, elements and slices, by what they are parts of.
ghost use Rattle.pm_elab.specs.Constructs.{make_at};
ghost use Rattle.pm_elab.specs.Elab.{Elabs};
ghost use Rattle.pm_elab.specs.Expressions as spec;
ghost use Rattle.pm_elab.specs.Makes.{Makes};
ghost use Rattle.pm_elab.specs.Sites.{site_of};
ghost use Rattle.pm_names.specs.Found.{found_in, value_of};

use crate::builder::Builder;
use pm_elab::{Elaboration, Given, Site};
use pm_names::{Found, attribute, element, indexable, slice, sliceable};
use pm_syn::Expr;
use pm_values::{BuildFault, Value};
use std::alloc::Global;

impl<
    F: Fn(
        Global,
        Option<usize>,
        &Site<'_>,
        &mut Elaboration,
        &[u8],
        &[Given],
    ) -> Result<Value, BuildFault>,
> Builder<F> {
    /// `e.name`.
    #[cycle(eval)]
    #[tactic(auto, unfolding(pm_elab::specs::Expressions::attribute_of))]
    pub(crate) fn find_attribute<'a>(
        &self,
        site: &Site<'a>,
        elaboration: &mut Elaboration,
        base: &Expr,
        name: &[u8],
    ) -> Result<Found<'a>, BuildFault>
        requires { Makes self.now.level (F.pre self.now.make) (F.post self.now.make) }
        ensures { Elabs (spec.attribute_of (spec.meaning (make_at self.now.level) base.now) name.now (site_of site.now) elaboration.old) (found_in result) elaboration.new }
    {
        let base = self.find(site, elaboration, base)?;
        attribute(self.alloc, elaboration, site, name, &base)
    }

    /// `e.name`, copied.
    #[cycle(eval)]
    pub(crate) fn attribute_of(
        &self,
        site: &Site<'_>,
        elaboration: &mut Elaboration,
        base: &Expr,
        name: &[u8],
    ) -> Result<Value, BuildFault>
        requires { Makes self.now.level (F.pre self.now.make) (F.post self.now.make) }
        ensures { Elabs (spec.attribute_of (spec.meaning (make_at self.now.level) base.now) name.now (site_of site.now) elaboration.old) result elaboration.new }
    {
        let found = self.find_attribute(site, elaboration, base, name)?;
        Ok(found.into_value(self.alloc)?)
    }

    /// `e[i]`.
    #[cycle(eval)]
    #[tactic(auto, unfolding(pm_elab::specs::Expressions::index))]
    pub(crate) fn find_element<'a>(
        &self,
        site: &Site<'a>,
        elaboration: &mut Elaboration,
        base: &Expr,
        index: &Expr,
    ) -> Result<Found<'a>, BuildFault>
        requires { Makes self.now.level (F.pre self.now.make) (F.post self.now.make) }
        ensures { Elabs (spec.index (spec.meaning (make_at self.now.level) base.now) (spec.meaning (make_at self.now.level) index.now) (site_of site.now) elaboration.old) (found_in result) elaboration.new }
    {
        let base = self.find(site, elaboration, base)?;
        self.element_of(site, elaboration, index, &base)
    }

    // An element, once the value has elements.
    #[cycle(eval)]
    #[tactic(auto, unfolding(pm_elab::specs::Expressions::element_of))]
    fn element_of<'a>(
        &self,
        site: &Site<'a>,
        elaboration: &mut Elaboration,
        index: &Expr,
        base: &Found<'a>,
    ) -> Result<Found<'a>, BuildFault>
        requires { Makes self.now.level (F.pre self.now.make) (F.post self.now.make) }
        ensures { Elabs (spec.element_of (value_of base.now) (spec.meaning (make_at self.now.level) index.now) (site_of site.now) elaboration.old) (found_in result) elaboration.new }
    {
        indexable(site.line, base.value())?;
        let at = self.int_of(site, elaboration, index)?;
        element(self.alloc, site.line, base, at)
    }

    /// `e[i]`, copied.
    #[cycle(eval)]
    pub(crate) fn index(
        &self,
        site: &Site<'_>,
        elaboration: &mut Elaboration,
        base: &Expr,
        index: &Expr,
    ) -> Result<Value, BuildFault>
        requires { Makes self.now.level (F.pre self.now.make) (F.post self.now.make) }
        ensures { Elabs (spec.index (spec.meaning (make_at self.now.level) base.now) (spec.meaning (make_at self.now.level) index.now) (site_of site.now) elaboration.old) result elaboration.new }
    {
        let found = self.find_element(site, elaboration, base, index)?;
        Ok(found.into_value(self.alloc)?)
    }

    /// `e[lo:hi]`.
    #[cycle(eval)]
    #[tactic(auto, unfolding(pm_elab::specs::Expressions::slice_expression))]
    pub(crate) fn slice_expression(
        &self,
        site: &Site<'_>,
        elaboration: &mut Elaboration,
        base: &Expr,
        lo: &Expr,
        hi: &Expr,
    ) -> Result<Value, BuildFault>
        requires { Makes self.now.level (F.pre self.now.make) (F.post self.now.make) }
        ensures { Elabs (spec.slice_expression (spec.meaning (make_at self.now.level) base.now) (spec.meaning (make_at self.now.level) lo.now) (spec.meaning (make_at self.now.level) hi.now) (site_of site.now) elaboration.old) result elaboration.new }
    {
        let base = self.find(site, elaboration, base)?;
        self.slice_of(site, elaboration, lo, hi, base.value())
    }

    // A slice, once the value has slices.
    #[cycle(eval)]
    #[tactic(auto, unfolding(pm_elab::specs::Expressions::slice_of))]
    fn slice_of(
        &self,
        site: &Site<'_>,
        elaboration: &mut Elaboration,
        lo: &Expr,
        hi: &Expr,
        value: &Value,
    ) -> Result<Value, BuildFault>
        requires { Makes self.now.level (F.pre self.now.make) (F.post self.now.make) }
        ensures { Elabs (spec.slice_of value.now (spec.meaning (make_at self.now.level) lo.now) (spec.meaning (make_at self.now.level) hi.now) (site_of site.now) elaboration.old) result elaboration.new }
    {
        sliceable(site.line, value)?;
        let (lo, hi) = self.bounds(site, elaboration, lo, hi)?;
        slice(site.line, value, lo, hi)
    }

    // The bounds of a slice.
    #[cycle(eval)]
    #[tactic(auto, unfolding(pm_elab::specs::Expressions::bounds))]
    fn bounds(
        &self,
        site: &Site<'_>,
        elaboration: &mut Elaboration,
        lo: &Expr,
        hi: &Expr,
    ) -> Result<(i64, i64), BuildFault>
        requires { Makes self.now.level (F.pre self.now.make) (F.post self.now.make) }
        ensures { Elabs (spec.bounds (spec.meaning (make_at self.now.level) lo.now) (spec.meaning (make_at self.now.level) hi.now) (site_of site.now) elaboration.old) result elaboration.new }
    {
        let lo = self.int_of(site, elaboration, lo)?;
        let hi = self.int_of(site, elaboration, hi)?;
        Ok((lo, hi))
    }
}
