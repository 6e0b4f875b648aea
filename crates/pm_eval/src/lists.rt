//! Lists, ranges and comprehensions.
ghost use Rattle.std.specs.Prelude.{map, []};
ghost use Rattle.pm_elab.specs.Constructs.{make_at};
ghost use Rattle.pm_elab.specs.Elab.{Elabs};
ghost use Rattle.pm_elab.specs.Expressions as spec;
ghost use Rattle.pm_elab.specs.Makes.{Makes};
ghost use Rattle.pm_elab.specs.Sites.{site_of};

use crate::builder::Builder;
use crate::operators::range_of;
use crate::places::with_turn;
use pm_elab::{Elaboration, Given, Site};
use pm_io::List;
use pm_syn::Expr;
use pm_values::{BuildFault, Range, Value};
use std::alloc::Global;

impl<
    F: Fn(
        Global,
        Option<usize>,
        &Site<'_>,
        &mut Elaboration,
        &[u8],
        &[Given],
    ) -> Result<Value, BuildFault>,
> Builder<F> {
    // The elements of a list, from left to right; each costs a step.
    #[cycle(eval)]
    #[tactic(auto, unfolding(pm_elab::specs::Expressions::items_from))]
    fn items_of(
        &self,
        site: &Site<'_>,
        elaboration: &mut Elaboration,
        elements: &[Expr],
    ) -> Result<List<Value>, BuildFault>
        requires { Makes self.now.level (F.pre self.now.make) (F.post self.now.make) }
        ensures { Elabs (spec.items_from [] (map (spec.meaning (make_at self.now.level)) elements.now) (site_of site.now) elaboration.old) result elaboration.new }
    {
        let mut items = List::new(self.alloc);
        for element in elements {
            elaboration.step(site.line)?;
            items.push(self.eval(site, elaboration, element)?)?;
        }
        Ok(items)
    }

    /// `[ a, b, .. ]`.
    #[cycle(eval)]
    #[tactic(auto, unfolding(pm_elab::specs::Expressions::items))]
    pub(crate) fn items(
        &self,
        site: &Site<'_>,
        elaboration: &mut Elaboration,
        elements: &[Expr],
    ) -> Result<Value, BuildFault>
        requires { Makes self.now.level (F.pre self.now.make) (F.post self.now.make) }
        ensures { Elabs (spec.items (map (spec.meaning (make_at self.now.level)) elements.now) (site_of site.now) elaboration.old) result elaboration.new }
    {
        let items = self.items_of(site, elaboration, elements)?;
        Ok(Value::Items(items))
    }

    // Integers, from left to right.
    #[cycle(eval)]
    #[tactic(auto, unfolding(pm_elab::specs::Expressions::ints_from))]
    fn ints(
        &self,
        site: &Site<'_>,
        elaboration: &mut Elaboration,
        es: &[Expr],
    ) -> Result<List<i64>, BuildFault>
        requires { Makes self.now.level (F.pre self.now.make) (F.post self.now.make) }
        ensures { Elabs (spec.ints_from [] (map (spec.meaning (make_at self.now.level)) es.now) (site_of site.now) elaboration.old) result elaboration.new }
    {
        let mut numbers = List::new(self.alloc);
        for e in es {
            numbers.push(self.int_of(site, elaboration, e)?)?;
        }
        Ok(numbers)
    }

    /// The integers of a range.
    #[cycle(eval)]
    #[tactic(auto, unfolding(pm_elab::specs::Expressions::range))]
    pub fn range(
        &self,
        site: &Site<'_>,
        elaboration: &mut Elaboration,
        bounds: &[Expr],
    ) -> Result<Range, BuildFault>
        requires { Makes self.now.level (F.pre self.now.make) (F.post self.now.make) }
        ensures { Elabs (spec.range (map (spec.meaning (make_at self.now.level)) bounds.now) (site_of site.now) elaboration.old) result elaboration.new }
    {
        let numbers = self.ints(site, elaboration, bounds)?;
        range_of(site.line, numbers.as_slice())
    }

    // The element of a comprehension at one of its turns.
    #[cycle(eval)]
    #[tactic(auto, unfolding(pm_elab::specs::Expressions::turn))]
    fn turn(
        &self,
        site: &Site<'_>,
        elaboration: &mut Elaboration,
        element: &Expr,
        name: &[u8],
        at: i64,
    ) -> Result<Value, BuildFault>
        requires { Makes self.now.level (F.pre self.now.make) (F.post self.now.make) }
        ensures { Elabs (spec.turn (spec.meaning (make_at self.now.level) element.now) name.now at (site_of site.now) elaboration.old) result elaboration.new }
    {
        elaboration.step(site.line)?;
        let turns = with_turn(self.alloc, site.turns, name, at)?;
        let inside = Site {
            file: site.file,
            frame: site.frame,
            turns: turns.as_slice(),
            line: site.line,
        };
        self.eval(&inside, elaboration, element)
    }

    // The elements of a comprehension over the integers of a range.
    #[cycle(eval)]
    #[tactic(auto, unfolding(pm_elab::specs::Expressions::turns_from))]
    fn turns_of(
        &self,
        site: &Site<'_>,
        elaboration: &mut Elaboration,
        element: &Expr,
        name: &[u8],
        range: Range,
    ) -> Result<List<Value>, BuildFault>
        requires { Makes self.now.level (F.pre self.now.make) (F.post self.now.make) }
        ensures { Elabs (spec.turns_from [] (spec.meaning (make_at self.now.level) element.now) name.now range (site_of site.now) elaboration.old) result elaboration.new }
    {
        let mut range = range;
        let mut items = List::new(self.alloc);
        while let Some(at) = range.next() {
            items.push(self.turn(site, elaboration, element, name, at)?)?;
        }
        Ok(items)
    }

    // A comprehension over the integers of a range.
    #[cycle(eval)]
    #[tactic(auto, unfolding(pm_elab::specs::Expressions::turns))]
    fn turns(
        &self,
        site: &Site<'_>,
        elaboration: &mut Elaboration,
        element: &Expr,
        name: &[u8],
        range: Range,
    ) -> Result<Value, BuildFault>
        requires { Makes self.now.level (F.pre self.now.make) (F.post self.now.make) }
        ensures { Elabs (spec.turns (spec.meaning (make_at self.now.level) element.now) name.now range (site_of site.now) elaboration.old) result elaboration.new }
    {
        let items = self.turns_of(site, elaboration, element, name, range)?;
        Ok(Value::Items(items))
    }

    /// `[ e for name in range( .. ) ]`.
    #[cycle(eval)]
    #[tactic(auto, unfolding(pm_elab::specs::Expressions::comprehension))]
    pub(crate) fn comprehension(
        &self,
        site: &Site<'_>,
        elaboration: &mut Elaboration,
        bounds: &[Expr],
        element: &Expr,
        name: &[u8],
    ) -> Result<Value, BuildFault>
        requires { Makes self.now.level (F.pre self.now.make) (F.post self.now.make) }
        ensures { Elabs (spec.comprehension (spec.meaning (make_at self.now.level) element.now) name.now (map (spec.meaning (make_at self.now.level)) bounds.now) (site_of site.now) elaboration.old) result elaboration.new }
    {
        let range = self.range(site, elaboration, bounds)?;
        self.turns(site, elaboration, element, name, range)
    }
}
