//! What expressions are, by their trees.
ghost use Rattle.std.specs.Prelude.{◌≡◌, map, [], true};
ghost use Rattle.pm_typing.specs.Counted.{Counts};
ghost use Rattle.pm_typing.specs.Expressions as spec;
ghost use Rattle.pm_typing.specs.Sites.{site_of};
ghost use Rattle.pm_typing.specs.Things.{right_in, thing_in, thing_of};

use crate::arguments::{any_named, is_bare, lone, only_literal};
use crate::calls::{constant_call, field_types, literal_constant, ready_call, struct_value};
use crate::functions::{called, length_of};
use crate::indexes::element;
use crate::names::name_thing;
use crate::operands::{bits_value, condition, value_of};
use crate::operators::{application, either, literal, operation};
use crate::picks::dynamic;
use crate::references::{attribute, sliced};
use pm_design::Ex;
use pm_io::{Boxed, List};
use pm_syn::{Arg, BinaryOp, Expr, UnaryOp};
use pm_typing::{
    At, BodyFunction, Effect, Effected, Operand, Right, Scope, Tally, Thing, TypeFault,
};
use pm_values::ValueType;
use std::alloc::Global;

/// Types the expressions of a body.
#[derive(Clone, Copy)]
pub struct Typer<'a> {
    pub alloc: Global,
    pub scope: Scope<'a>,
}

fn truth<'a>(holds: bool) -> Thing<'a>
    ensures { thing_of result ≡ spec.truth_thing holds }
{
    Thing::Int(if holds { 1 } else { 0 })
}

fn within_index<'a>(at: &At<'a>) -> At<'a>
    ensures bounds { result.bounds.now ≡ at.now.bounds.now }
    ensures line { result.line ≡ at.now.line }
    ensures inside_index { result.inside_index ≡ true }
{
    At {
        bounds: at.bounds,
        line: at.line,
        inside_index: true,
    }
}

impl<'a> Typer<'a> {
    /// What the expression is.
    #[cycle(eval)]
    #[tactic(auto, using(crate::proofs::Meanings::forms))]
    pub fn thing(&self, at: &At<'_>, tally: &mut Tally, e: &Expr) -> Result<Thing<'a>, TypeFault>
        ensures { Counts (spec.eval e.now (site_of self.now.scope at.now) tally.old) (thing_in result) tally.new }
    {
        match e {
            Expr::Name(name) => name_thing(&self.scope, at, name.as_slice()),
            Expr::Int(number) => literal(at.line, *number),
            Expr::Bool(holds) => Ok(truth(*holds)),
            Expr::Unary(op, operand) => self.unary(at, tally, *op, operand.get()),
            Expr::Binary(op, left, right) => {
                self.binary(at, tally, *op, left.get(), right.get())
            }
            Expr::Cond(this, condition, other) => {
                self.choice(at, tally, this.get(), condition.get(), other.get())
            }
            Expr::Attr(base, name) => self.attribute_of(at, tally, base.get(), name.as_slice()),
            Expr::Call(callee, arguments) => {
                self.call(at, tally, arguments.as_slice(), callee.get())
            }
            Expr::Index(base, index) => self.index(at, tally, base.get(), index.get()),
            Expr::Slice(base, lo, hi) => {
                self.slice_expression(at, tally, base.get(), lo.get(), hi.get())
            }
            Expr::Items(_) | Expr::Each(_, _, _) => Err(TypeFault::NotAllowedHere(at.line)),
        }
    }

    /// The value of the expression.
    #[cycle(eval)]
    #[tactic(auto, unfolding(pm_typing::specs::Expressions::operand))]
    pub fn operand(&self, at: &At<'_>, tally: &mut Tally, e: &Expr) -> Result<Operand, TypeFault>
        ensures { Counts (spec.operand (spec.meaning e.now) (site_of self.now.scope at.now) tally.old) result tally.new }
    {
        let thing = self.thing(at, tally, e)?;
        value_of(self.alloc, &self.scope, tally, at.line, thing)
    }

    /// What the expression is as a whole right side, where a call may change states.
    #[tactic(auto, using(crate::proofs::Meanings::forms))]
    pub fn right(&self, at: &At<'_>, tally: &mut Tally, e: &Expr) -> Result<Right<'a>, TypeFault>
        ensures { Counts ((spec.meaning e.now).right (site_of self.now.scope at.now) tally.old) (right_in result) tally.new }
    {
        match e {
            Expr::Call(callee, arguments) => {
                self.right_call(at, tally, arguments.as_slice(), callee.get())
            }
            Expr::Name(_)
            | Expr::Int(_)
            | Expr::Bool(_)
            | Expr::Unary(_, _)
            | Expr::Binary(_, _, _)
            | Expr::Cond(_, _, _)
            | Expr::Attr(_, _)
            | Expr::Index(_, _)
            | Expr::Slice(_, _, _)
            | Expr::Items(_)
            | Expr::Each(_, _, _) => {
                let thing = self.thing(at, tally, e)?;
                Ok(Right::Plain(thing))
            }
        }
    }

    #[cycle(eval)]
    #[tactic(auto, unfolding(pm_typing::specs::Expressions::unary))]
    fn unary(
        &self,
        at: &At<'_>,
        tally: &mut Tally,
        op: UnaryOp,
        operand: &Expr,
    ) -> Result<Thing<'a>, TypeFault>
        ensures { Counts (spec.unary op (spec.meaning operand.now) (site_of self.now.scope at.now) tally.old) (thing_in result) tally.new }
    {
        let value = self.operand(at, tally, operand)?;
        application(self.alloc, tally, at.line, op, value)
    }

    #[cycle(eval)]
    #[tactic(auto, unfolding(pm_typing::specs::Expressions::binary))]
    fn binary(
        &self,
        at: &At<'_>,
        tally: &mut Tally,
        op: BinaryOp,
        left: &Expr,
        right: &Expr,
    ) -> Result<Thing<'a>, TypeFault>
        ensures { Counts (spec.binary op (spec.meaning left.now) (spec.meaning right.now) (site_of self.now.scope at.now) tally.old) (thing_in result) tally.new }
    {
        let x = self.operand(at, tally, left)?;
        let y = self.operand(at, tally, right)?;
        operation(self.alloc, tally, at.line, op, x, y)
    }

    // Both branches, and then their choice.
    #[cycle(eval)]
    #[tactic(auto, unfolding(pm_typing::specs::Expressions::branches))]
    fn branches(
        &self,
        at: &At<'_>,
        tally: &mut Tally,
        this: &Expr,
        other: &Expr,
        condition: Boxed<Ex>,
    ) -> Result<Thing<'a>, TypeFault>
        ensures { Counts (spec.branches condition (spec.meaning this.now) (spec.meaning other.now) (site_of self.now.scope at.now) tally.old) (thing_in result) tally.new }
    {
        let x = self.operand(at, tally, this)?;
        let y = self.operand(at, tally, other)?;
        either(self.alloc, tally, at.line, condition, x, y)
    }

    // An integer condition keeps one branch, and the other isn't typed.
    #[cycle(eval)]
    #[tactic(auto, unfolding(pm_typing::specs::Expressions::choice_by))]
    fn choice_by(
        &self,
        at: &At<'_>,
        tally: &mut Tally,
        this: &Expr,
        other: &Expr,
        value: Operand,
    ) -> Result<Thing<'a>, TypeFault>
        ensures { Counts (spec.choice_by value (spec.meaning this.now) (spec.meaning other.now) (site_of self.now.scope at.now) tally.old) (thing_in result) tally.new }
    {
        match value {
            Operand::Int(number) => {
                if number == 0 {
                    self.thing(at, tally, other)
                } else {
                    self.thing(at, tally, this)
                }
            }
            Operand::Bits(e, ty) => {
                let c = condition(self.alloc, tally, at.line, e, ty)?;
                self.branches(at, tally, this, other, c)
            }
        }
    }

    #[cycle(eval)]
    #[tactic(auto, unfolding(pm_typing::specs::Expressions::choice))]
    fn choice(
        &self,
        at: &At<'_>,
        tally: &mut Tally,
        this: &Expr,
        condition: &Expr,
        other: &Expr,
    ) -> Result<Thing<'a>, TypeFault>
        ensures { Counts (spec.choice (spec.meaning this.now) (spec.meaning condition.now) (spec.meaning other.now) (site_of self.now.scope at.now) tally.old) (thing_in result) tally.new }
    {
        let value = self.operand(at, tally, condition)?;
        self.choice_by(at, tally, this, other, value)
    }

    #[cycle(eval)]
    #[tactic(auto, unfolding(pm_typing::specs::Expressions::attribute_of))]
    fn attribute_of(
        &self,
        at: &At<'_>,
        tally: &mut Tally,
        base: &Expr,
        name: &[u8],
    ) -> Result<Thing<'a>, TypeFault>
        ensures { Counts (spec.attribute_of (spec.meaning base.now) name.now (site_of self.now.scope at.now) tally.old) (thing_in result) tally.new }
    {
        let thing = self.thing(at, tally, base)?;
        attribute(self.alloc, &self.scope, at.line, name, thing)
    }

    #[tactic(auto, unfolding(pm_typing::specs::Expressions::indexed))]
    fn indexed(
        &self,
        at: &At<'_>,
        tally: &mut Tally,
        thing: Thing<'a>,
        index: Thing<'_>,
    ) -> Result<Thing<'a>, TypeFault>
        ensures { Counts (spec.indexed (site_of self.now.scope at.now) (thing_of thing.entry) (thing_of index.entry) tally.old) (thing_in result) tally.new }
    {
        match index {
            Thing::Int(number) => {
                element(self.alloc, &self.scope, tally, at.line, number, thing)
            }
            _ => {
                let (e, ty) = bits_value(self.alloc, &self.scope, tally, at.line, index)?;
                dynamic(self.alloc, tally, at.line, at.inside_index, e, ty, thing)
            }
        }
    }

    #[cycle(eval)]
    #[tactic(auto, unfolding(pm_typing::specs::Expressions::index))]
    fn index(
        &self,
        at: &At<'_>,
        tally: &mut Tally,
        base: &Expr,
        index: &Expr,
    ) -> Result<Thing<'a>, TypeFault>
        ensures { Counts (spec.index (spec.meaning base.now) (spec.meaning index.now) (site_of self.now.scope at.now) tally.old) (thing_in result) tally.new }
    {
        let thing = self.thing(at, tally, base)?;
        let place = self.thing(&within_index(at), tally, index)?;
        self.indexed(at, tally, thing, place)
    }

    #[cycle(eval)]
    #[tactic(auto, unfolding(pm_typing::specs::Expressions::slice_expression))]
    fn slice_expression(
        &self,
        at: &At<'_>,
        tally: &mut Tally,
        base: &Expr,
        lo: &Expr,
        hi: &Expr,
    ) -> Result<Thing<'a>, TypeFault>
        ensures { Counts (spec.slice_expression (spec.meaning base.now) (spec.meaning lo.now) (spec.meaning hi.now) (site_of self.now.scope at.now) tally.old) (thing_in result) tally.new }
    {
        let thing = self.thing(at, tally, base)?;
        let lo = self.thing(at, tally, lo)?;
        let hi = self.thing(at, tally, hi)?;
        sliced(self.alloc, at.line, &lo, &hi, thing)
    }

    // The value of an argument.
    #[cycle(eval)]
    #[tactic(auto, using(crate::proofs::Meanings::passed_arg))]
    fn argument(&self, at: &At<'_>, tally: &mut Tally, argument: &Arg) -> Result<Operand, TypeFault>
        ensures { Counts (spec.operand (spec.passed argument.now).meaning (site_of self.now.scope at.now) tally.old) result tally.new }
    {
        self.operand(at, tally, &argument.value)
    }

    /// The values of arguments, from left to right.
    #[cycle(eval)]
    #[tactic(auto, unfolding(pm_typing::specs::Expressions::operands_from))]
    fn operands(
        &self,
        at: &At<'_>,
        tally: &mut Tally,
        arguments: &[Arg],
    ) -> Result<List<Operand>, TypeFault>
        ensures { Counts (spec.operands_from [] (map spec.passed arguments.now) (site_of self.now.scope at.now) tally.old) result tally.new }
    {
        let mut operands = List::new(self.alloc);
        for argument in arguments {
            operands.push(self.argument(at, tally, argument)?)?;
        }
        Ok(operands)
    }

    #[cycle(eval)]
    #[tactic(auto, unfolding(pm_typing::specs::Expressions::values_call))]
    fn values_call(
        &self,
        at: &At<'_>,
        tally: &mut Tally,
        arguments: &[Arg],
        function: BodyFunction,
    ) -> Result<Thing<'a>, TypeFault>
        ensures { Counts (spec.values_call function (map spec.passed arguments.now) (site_of self.now.scope at.now) tally.old) (thing_in result) tally.new }
    {
        let operands = self.operands(at, tally, arguments)?;
        called(
            self.alloc,
            tally,
            at.line,
            function,
            any_named(arguments),
            operands,
        )
    }

    #[cycle(eval)]
    #[tactic(auto, unfolding(pm_typing::specs::Expressions::length_meant))]
    fn length_meant(&self, at: &At<'_>, tally: &mut Tally, e: &Expr) -> Result<Thing<'a>, TypeFault>
        ensures { Counts (spec.length_meant (spec.meaning e.now) (site_of self.now.scope at.now) tally.old) (thing_in result) tally.new }
    {
        let thing = self.thing(at, tally, e)?;
        length_of(self.alloc, &self.scope, tally, at.line, thing)
    }

    #[cycle(eval)]
    #[tactic(auto, unfolding(pm_typing::specs::Expressions::length_call), using(crate::proofs::LoneArguments::lone_length, crate::proofs::LoneArguments::no_length))]
    fn length_call(
        &self,
        at: &At<'_>,
        tally: &mut Tally,
        arguments: &[Arg],
    ) -> Result<Thing<'a>, TypeFault>
        ensures { Counts (spec.length_call (map spec.passed arguments.now) (site_of self.now.scope at.now) tally.old) (thing_in result) tally.new }
    {
        match lone(arguments) {
            Some(e) => self.length_meant(at, tally, e),
            None => Err(TypeFault::NotAllowedHere(at.line)),
        }
    }

    #[cycle(eval)]
    #[tactic(auto, unfolding(pm_typing::specs::Expressions::function_call))]
    fn function_call(
        &self,
        at: &At<'_>,
        tally: &mut Tally,
        arguments: &[Arg],
        function: BodyFunction,
    ) -> Result<Thing<'a>, TypeFault>
        ensures { Counts (spec.function_call function (map spec.passed arguments.now) (site_of self.now.scope at.now) tally.old) (thing_in result) tally.new }
    {
        match function {
            BodyFunction::Length => self.length_call(at, tally, arguments),
            BodyFunction::Concat
            | BodyFunction::Zext
            | BodyFunction::Sext
            | BodyFunction::Trunc
            | BodyFunction::Reduce(_)
            | BodyFunction::CeilingLog
            | BodyFunction::MakeBits => self.values_call(at, tally, arguments, function),
        }
    }

    #[cycle(eval)]
    #[tactic(auto, unfolding(pm_typing::specs::Expressions::integer_call))]
    fn integer_call(
        &self,
        at: &At<'_>,
        tally: &mut Tally,
        arguments: &[Arg],
        width: u32,
    ) -> Result<Thing<'a>, TypeFault>
        ensures { Counts (spec.integer_call width (map spec.passed arguments.now) (site_of self.now.scope at.now) tally.old) (thing_in result) tally.new }
    {
        let operands = self.operands(at, tally, arguments)?;
        let named = any_named(arguments);
        constant_call(
            self.alloc,
            tally,
            at.line,
            width,
            named,
            operands.as_slice(),
        )
    }

    #[cycle(eval)]
    #[tactic(auto, unfolding(pm_typing::specs::Expressions::width_call))]
    fn width_call(
        &self,
        at: &At<'_>,
        tally: &mut Tally,
        arguments: &[Arg],
        width: u32,
    ) -> Result<Thing<'a>, TypeFault>
        ensures { Counts (spec.width_call width (map spec.passed arguments.now) (site_of self.now.scope at.now) tally.old) (thing_in result) tally.new }
    {
        match only_literal(arguments) {
            Some(number) => literal_constant(self.alloc, tally, at.line, width, number),
            None => self.integer_call(at, tally, arguments, width),
        }
    }

    #[cycle(eval)]
    #[tactic(auto, unfolding(pm_typing::specs::Expressions::struct_call))]
    fn struct_call(
        &self,
        at: &At<'_>,
        tally: &mut Tally,
        arguments: &[Arg],
        ty: ValueType,
        shape: u32,
    ) -> Result<Thing<'a>, TypeFault>
        ensures { Counts (spec.struct_call ty shape (map spec.passed arguments.now) (site_of self.now.scope at.now) tally.old) (thing_in result) tally.new }
    {
        let operands = self.operands(at, tally, arguments)?;
        let named = any_named(arguments);
        let fields = field_types(self.alloc, &self.scope, shape)?;
        struct_value(
            self.alloc,
            tally,
            at.line,
            ty,
            fields.as_slice(),
            named,
            operands,
        )
    }

    #[cycle(eval)]
    #[tactic(auto, unfolding(pm_typing::specs::Expressions::type_call))]
    fn type_call(
        &self,
        at: &At<'_>,
        tally: &mut Tally,
        arguments: &[Arg],
        ty: ValueType,
    ) -> Result<Thing<'a>, TypeFault>
        ensures { Counts (spec.type_call ty (map spec.passed arguments.now) (site_of self.now.scope at.now) tally.old) (thing_in result) tally.new }
    {
        match ty.shape {
            Some(shape) => self.struct_call(at, tally, arguments, ty, shape),
            None => self.width_call(at, tally, arguments, ty.width),
        }
    }

    // A call within an expression.
    #[cycle(eval)]
    #[tactic(auto, unfolding(pm_typing::specs::Expressions::call_of))]
    fn call_of(
        &self,
        at: &At<'_>,
        tally: &mut Tally,
        arguments: &[Arg],
        thing: Thing<'a>,
    ) -> Result<Thing<'a>, TypeFault>
        ensures { Counts (spec.call_of (thing_of thing.entry) (map spec.passed arguments.now) (site_of self.now.scope at.now) tally.old) (thing_in result) tally.new }
    {
        match thing {
            Thing::Function(function) => self.function_call(at, tally, arguments, function),
            Thing::Type(ty) => self.type_call(at, tally, arguments, ty),
            Thing::Ready(callee) => {
                ready_call(self.alloc, tally, at.line, callee, is_bare(arguments))
            }
            _ => Err(TypeFault::NotAllowedHere(at.line)),
        }
    }

    #[cycle(eval)]
    #[tactic(auto, unfolding(pm_typing::specs::Expressions::call))]
    fn call(
        &self,
        at: &At<'_>,
        tally: &mut Tally,
        arguments: &[Arg],
        callee: &Expr,
    ) -> Result<Thing<'a>, TypeFault>
        ensures { Counts (spec.call (spec.meaning callee.now) (map spec.passed arguments.now) (site_of self.now.scope at.now) tally.old) (thing_in result) tally.new }
    {
        let thing = self.thing(at, tally, callee)?;
        self.call_of(at, tally, arguments, thing)
    }

    // A call that may change states.
    #[tactic(auto, unfolding(pm_typing::specs::Expressions::effect_of))]
    fn effect_of(
        &self,
        at: &At<'_>,
        tally: &mut Tally,
        arguments: &[Arg],
        what: Effected,
    ) -> Result<Right<'a>, TypeFault>
        ensures { Counts (spec.effect_of what (map spec.passed arguments.now) (site_of self.now.scope at.now) tally.old) (right_in result) tally.new }
    {
        let operands = self.operands(at, tally, arguments)?;
        Ok(Right::Effect(Effect {
            what,
            arguments: operands,
            named: any_named(arguments),
        }))
    }

    // A call that is a whole right side.
    #[tactic(auto, unfolding(pm_typing::specs::Expressions::right_call_of))]
    fn right_call_of(
        &self,
        at: &At<'_>,
        tally: &mut Tally,
        arguments: &[Arg],
        thing: Thing<'a>,
    ) -> Result<Right<'a>, TypeFault>
        ensures { Counts (spec.right_call_of (thing_of thing.entry) (map spec.passed arguments.now) (site_of self.now.scope at.now) tally.old) (right_in result) tally.new }
    {
        match thing {
            Thing::Method(callee) => {
                self.effect_of(at, tally, arguments, Effected::Method(callee))
            }
            Thing::Change(state, change) => {
                self.effect_of(at, tally, arguments, Effected::Deque(state, change))
            }
            _ => {
                let value = self.call_of(at, tally, arguments, thing)?;
                Ok(Right::Plain(value))
            }
        }
    }

    #[tactic(auto, unfolding(pm_typing::specs::Expressions::right_call))]
    fn right_call(
        &self,
        at: &At<'_>,
        tally: &mut Tally,
        arguments: &[Arg],
        callee: &Expr,
    ) -> Result<Right<'a>, TypeFault>
        ensures { Counts (spec.right_call (spec.meaning callee.now) (map spec.passed arguments.now) (site_of self.now.scope at.now) tally.old) (right_in result) tally.new }
    {
        let thing = self.thing(at, tally, callee)?;
        self.right_call_of(at, tally, arguments, thing)
    }
}
