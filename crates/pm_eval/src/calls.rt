//! Calls.
ghost use Rattle.std.specs.Prelude.{map};
ghost use Rattle.pm_elab.specs.Constructs.{make_at};
ghost use Rattle.pm_elab.specs.Elab.{Elabs};
ghost use Rattle.pm_elab.specs.Expressions as spec;
ghost use Rattle.pm_elab.specs.Makes.{Makes};
ghost use Rattle.pm_elab.specs.Sites.{site_of};
ghost use Rattle.pm_elab.specs.declared.function.Function.TheVariants as functions;
ghost use Rattle.pm_eval.specs.Arguments.{length_meant};

use crate::arguments::{copied_name, function_in, named_block, only_literal};
use crate::builder::Builder;
use crate::function::{called, length_in};
use crate::operators::{constant_given, constant_literal};
use pm_elab::{Called, Elaboration, Function, Given, Site};
use pm_io::List;
use pm_syn::{Arg, Expr};
use pm_values::{BuildFault, Value};
use std::alloc::Global;

impl<
    F: Fn(
        Global,
        Option<usize>,
        &Site<'_>,
        &mut Elaboration,
        &[u8],
        &[Given],
    ) -> Result<Value, BuildFault>,
> Builder<F> {
    /// What is called.
    #[cycle(eval)]
    #[tactic(auto, unfolding(pm_elab::specs::Expressions::callee))]
    pub fn callee(
        &self,
        site: &Site<'_>,
        elaboration: &mut Elaboration,
        e: &Expr,
    ) -> Result<Called, BuildFault>
        requires { Makes self.now.level (F.pre self.now.make) (F.post self.now.make) }
        ensures { Elabs (spec.callee (spec.meaning (make_at self.now.level) e.now) (site_of site.now) elaboration.old) result elaboration.new }
    {
        match function_in(self.level, site, e) {
            Some(function) => Ok(Called::Function(function)),
            None => {
                let value = self.eval(site, elaboration, e)?;
                Ok(Called::Value(value))
            }
        }
    }

    // The value of an argument.
    #[cycle(eval)]
    #[tactic(auto, unfolding(pm_elab::specs::Expressions::one_given), using(crate::proofs::Meanings::forms))]
    fn one_given(
        &self,
        site: &Site<'_>,
        elaboration: &mut Elaboration,
        argument: &Arg,
    ) -> Result<Given, BuildFault>
        requires { Makes self.now.level (F.pre self.now.make) (F.post self.now.make) }
        ensures { Elabs (spec.one_given (spec.passed (make_at self.now.level) argument.now) (site_of site.now) elaboration.old) result elaboration.new }
    {
        let name = copied_name(self.alloc, &argument.name)?;
        let value = self.eval(site, elaboration, &argument.value)?;
        Ok(Given { name, value })
    }

    /// The values of arguments, from left to right.
    #[cycle(eval)]
    #[tactic(auto, unfolding(pm_elab::specs::Expressions::given_from))]
    pub fn given(
        &self,
        site: &Site<'_>,
        elaboration: &mut Elaboration,
        arguments: &[Arg],
    ) -> Result<List<Given>, BuildFault>
        requires { Makes self.now.level (F.pre self.now.make) (F.post self.now.make) }
        ensures { Elabs (spec.given (map (spec.passed (make_at self.now.level)) arguments.now) (site_of site.now) elaboration.old) result elaboration.new }
    {
        let mut given = List::new(self.alloc);
        for argument in arguments {
            given.push(self.one_given(site, elaboration, argument)?)?;
        }
        Ok(given)
    }

    // The call of a function on values.
    #[cycle(eval)]
    #[tactic(auto, unfolding(pm_elab::specs::Expressions::function_call))]
    fn function_call(
        &self,
        site: &Site<'_>,
        elaboration: &mut Elaboration,
        function: Function,
        arguments: &[Arg],
    ) -> Result<Value, BuildFault>
        requires { Makes self.now.level (F.pre self.now.make) (F.post self.now.make) }
        ensures { Elabs (spec.function_call function (map (spec.passed (make_at self.now.level)) arguments.now) (site_of site.now) elaboration.old) result elaboration.new }
    {
        let given = self.given(site, elaboration, arguments)?;
        called(function, site.line, given.as_slice())
    }

    // `len( x )` of the one argument.
    #[cycle(eval)]
    fn lone_length(
        &self,
        site: &Site<'_>,
        elaboration: &mut Elaboration,
        e: &Expr,
    ) -> Result<Value, BuildFault>
        requires { Makes self.now.level (F.pre self.now.make) (F.post self.now.make) }
        ensures { Elabs (length_meant (spec.meaning (make_at self.now.level) e.now) (site_of site.now) elaboration.old) result elaboration.new }
    {
        let found = self.find(site, elaboration, e)?;
        length_in(site.line, found.value())
    }

    // `len( x )`.
    #[cycle(eval)]
    fn length_call(
        &self,
        site: &Site<'_>,
        elaboration: &mut Elaboration,
        arguments: &[Arg],
    ) -> Result<Value, BuildFault>
        requires { Makes self.now.level (F.pre self.now.make) (F.post self.now.make) }
        ensures { Elabs (spec.function_call functions.Length (map (spec.passed (make_at self.now.level)) arguments.now) (site_of site.now) elaboration.old) result elaboration.new }
    {
        match arguments {
            [argument] if argument.name.is_none() => {
                self.lone_length(site, elaboration, &argument.value)
            }
            _ => self.function_call(site, elaboration, Function::Length, arguments),
        }
    }

    // `U( f )`, where f is the name of a block.
    #[cycle(eval)]
    #[tactic(auto, unfolding(pm_elab::specs::Expressions::block_call))]
    fn block_call(
        &self,
        site: &Site<'_>,
        elaboration: &mut Elaboration,
        arguments: &[Arg],
    ) -> Result<Value, BuildFault>
        requires { Makes self.now.level (F.pre self.now.make) (F.post self.now.make) }
        ensures { Elabs (spec.block_call (map (spec.passed (make_at self.now.level)) arguments.now) (site_of site.now) elaboration.old) result elaboration.new }
    {
        match named_block(self.level, site, arguments)? {
            Some(term) => Ok(Value::Term(term)),
            None => self.function_call(site, elaboration, Function::Block, arguments),
        }
    }

    // The constant of the one argument.
    #[cycle(eval)]
    #[tactic(auto, unfolding(pm_elab::specs::Expressions::constant_call))]
    fn constant_call(
        &self,
        site: &Site<'_>,
        elaboration: &mut Elaboration,
        width: u32,
        arguments: &[Arg],
    ) -> Result<Value, BuildFault>
        requires { Makes self.now.level (F.pre self.now.make) (F.post self.now.make) }
        ensures { Elabs (spec.constant_call width (map (spec.passed (make_at self.now.level)) arguments.now) (site_of site.now) elaboration.old) result elaboration.new }
    {
        let given = self.given(site, elaboration, arguments)?;
        constant_given(site.line, width, given.as_slice())
    }

    // `BitsN( c )`.
    #[cycle(eval)]
    #[tactic(auto, unfolding(pm_elab::specs::Expressions::type_call))]
    fn type_call(
        &self,
        site: &Site<'_>,
        elaboration: &mut Elaboration,
        width: u32,
        arguments: &[Arg],
    ) -> Result<Value, BuildFault>
        requires { Makes self.now.level (F.pre self.now.make) (F.post self.now.make) }
        ensures { Elabs (spec.type_call width (map (spec.passed (make_at self.now.level)) arguments.now) (site_of site.now) elaboration.old) result elaboration.new }
    {
        match only_literal(self.level, arguments) {
            Some(number) => constant_literal(site.line, width, number),
            None => self.constant_call(site, elaboration, width, arguments),
        }
    }

    // The call of a class.
    #[cycle(eval)]
    #[tactic(auto, unfolding(pm_elab::specs::Expressions::class_call))]
    fn class_call(
        &self,
        site: &Site<'_>,
        elaboration: &mut Elaboration,
        class: &[u8],
        arguments: &[Arg],
    ) -> Result<Value, BuildFault>
        requires { Makes self.now.level (F.pre self.now.make) (F.post self.now.make) }
        ensures { Elabs (spec.class_call (make_at self.now.level) class.now (map (spec.passed (make_at self.now.level)) arguments.now) (site_of site.now) elaboration.old) result elaboration.new }
    {
        let given = self.given(site, elaboration, arguments)?;
        self.make_class(site, elaboration, class, given.as_slice())
    }

    // The call of a value.
    #[cycle(eval)]
    #[tactic(auto, unfolding(pm_elab::specs::Expressions::value_call))]
    fn value_call(
        &self,
        site: &Site<'_>,
        elaboration: &mut Elaboration,
        arguments: &[Arg],
        value: &Value,
    ) -> Result<Value, BuildFault>
        requires { Makes self.now.level (F.pre self.now.make) (F.post self.now.make) }
        ensures { Elabs (spec.value_call (make_at self.now.level) value.now (map (spec.passed (make_at self.now.level)) arguments.now) (site_of site.now) elaboration.old) result elaboration.new }
    {
        match value {
            Value::Type(ty) if ty.shape.is_none() => {
                self.type_call(site, elaboration, ty.width, arguments)
            }
            Value::Class(name) => self.class_call(site, elaboration, name.as_slice(), arguments),
            _ => Err(BuildFault::WrongKind(site.line)),
        }
    }

    /// A call, once it is known what is called.
    #[cycle(eval)]
    #[tactic(auto, unfolding(pm_elab::specs::Expressions::call_of))]
    pub fn call_of(
        &self,
        site: &Site<'_>,
        elaboration: &mut Elaboration,
        arguments: &[Arg],
        called: &Called,
    ) -> Result<Value, BuildFault>
        requires { Makes self.now.level (F.pre self.now.make) (F.post self.now.make) }
        ensures { Elabs (spec.call_of (make_at self.now.level) called.now (map (spec.passed (make_at self.now.level)) arguments.now) (site_of site.now) elaboration.old) result elaboration.new }
    {
        match called {
            Called::Function(Function::Block) => self.block_call(site, elaboration, arguments),
            Called::Function(Function::Length) => self.length_call(site, elaboration, arguments),
            Called::Function(function) => {
                self.function_call(site, elaboration, *function, arguments)
            }
            Called::Value(value) => self.value_call(site, elaboration, arguments, value),
        }
    }

    /// `f( .. )`.
    #[cycle(eval)]
    #[tactic(auto, unfolding(pm_elab::specs::Expressions::call))]
    pub(crate) fn call(
        &self,
        site: &Site<'_>,
        elaboration: &mut Elaboration,
        arguments: &[Arg],
        callee: &Expr,
    ) -> Result<Value, BuildFault>
        requires { Makes self.now.level (F.pre self.now.make) (F.post self.now.make) }
        ensures { Elabs (spec.call (make_at self.now.level) (spec.meaning (make_at self.now.level) callee.now) (map (spec.passed (make_at self.now.level)) arguments.now) (site_of site.now) elaboration.old) result elaboration.new }
    {
        let called = self.callee(site, elaboration, callee)?;
        self.call_of(site, elaboration, arguments, &called)
    }
}
