//! Bodies of blocks, methods and guards.
ghost use Rattle.std.specs.Prelude.{◌≡◌, [], IfOk, Ok, map, length, replicate, None};
ghost use Rattle.std.specs.Option.{option_copied};
ghost use Rattle.pm_typing.specs.declared.frame.Bound.TheVariants as bounds;
ghost use Rattle.pm_typing.specs.Counted.{Counts, Gives};
ghost use Rattle.pm_typing.specs.Sites.{scope_of};
ghost use Rattle.pm_types.specs.Bodies as spec;
ghost use Rattle.pm_types.specs.LentReturns.{return_of};

use crate::assignments::{bind, right_value, store_new};
use crate::own_names::{add_arguments, add_nodes};
use crate::statements::lines;
use crate::targets::may_write;
use pm_design::{Block, BlockSort, Ex, Kind, St};
use pm_elab::{Argument, BodyPlace, Code, MethodTypes, RawBody, RawDesign, RawKind};
use pm_io::{Boxed, List, NoMemory};
use pm_syn::{Expr, Node, Stmt};
use pm_type_expr::{Typer, bits_in, condition, fitted, type_of, value_of};
use pm_typing::{At, BodySort, Bound, Frame, Operand, Scope, Tally, TypeFault};
use pm_values::{Reference, Table, ValueType};
use std::alloc::Global;

/// A typed body: of a block, a method or a guard of a number.
#[derive(Drop)]
pub enum TypedBody {
    /// The statements and the widths of the temporaries.
    Block(u32, List<St>, List<u32>),
    /// The statements, the widths of the temporaries, and the answer.
    Method(u32, List<St>, List<u32>, Option<Ex>),
    Guard(u32, Ex),
}

/// What the bodies of a kind see.
#[derive(Clone, Copy)]
pub struct KindScope<'a> {
    pub design: &'a RawDesign,
    pub kind: &'a Kind,
    pub raw: &'a RawKind,
}

fn sort_at(sort: BlockSort) -> BodySort
    ensures { result ≡ spec.sort_at sort }
{
    match sort {
        BlockSort::Update => BodySort::Update,
        BlockSort::Once => BodySort::Once,
        BlockSort::Edge => BodySort::Edge,
    }
}

fn sort_of_block(block: Option<&Block>) -> BodySort
    ensures { result ≡ spec.sort_of_block (option_copied block.entry) }
{
    match block {
        Some(block) => sort_at(block.sort),
        None => BodySort::Update,
    }
}

fn unassigned(alloc: Global, count: usize) -> Result<List<Bound>, NoMemory>
    ensures { IfOk result (λ list. list ≡ replicate count bounds.Unassigned) }
{
    let mut list = List::new(alloc);
    for _ in 0..count {
        list.push(Bound::Unassigned)?;
    }
    Ok(list)
}

// A frame in which no name is assigned.
#[tactic(auto, unfolding(crate::specs::Bodies::first_frame))]
fn first_frame(alloc: Global, count: usize) -> Result<Frame, NoMemory>
    ensures { IfOk result (λ frame. frame ≡ spec.first_frame count) }
{
    let bounds = unassigned(alloc, count)?;
    let mut stored = List::new(alloc);
    for _ in 0..count {
        stored.push(None)?;
    }
    Ok(Frame {
        bounds,
        stored,
        temps: List::new(alloc),
        out: List::new(alloc),
    })
}

fn place_of(place: Option<&u32>) -> u32
    ensures { result ≡ spec.place_of (option_copied place.entry) }
{
    match place {
        Some(place) => *place,
        None => 0,
    }
}

// An argument is a temporary of its own, which is assigned. The last of two arguments of one name has the name.
#[tactic(auto, unfolding(crate::specs::Bodies::with_argument))]
fn add_argument(own: &Table<u32>, frame: &mut Frame, argument: &Argument) -> Result<(), NoMemory>
    ensures { IfOk result (λ _. frame.new ≡ spec.with_argument own.now argument.now frame.old) }
{
    let place = place_of(own.get(argument.name.as_slice()));
    let temp = store_new(frame, place, argument.ty)?;
    bind(frame, place, Bound::Temp(temp, argument.ty));
    Ok(())
}

#[tactic(auto, unfolding(crate::specs::Bodies::with_arguments))]
fn put_arguments(
    own: &Table<u32>,
    frame: &mut Frame,
    arguments: &[Argument],
) -> Result<(), NoMemory>
    ensures { IfOk result (λ _. frame.new ≡ spec.with_arguments own.now arguments.now frame.old) }
{
    for argument in arguments {
        add_argument(own, frame, argument)?;
    }
    Ok(())
}

// The names that arguments and lines assign.
#[tactic(auto, unfolding(crate::specs::Bodies::names_of))]
fn names_of(alloc: Global, arguments: &[Argument], nodes: &[Node]) -> Result<Table<u32>, NoMemory>
    ensures { IfOk result (λ own. own ≡ spec.names_of arguments.now nodes.now) }
{
    let mut own = Table::new(alloc);
    add_arguments(alloc, &mut own, arguments)?;
    add_nodes(alloc, &mut own, nodes)?;
    Ok(own)
}

#[tactic(auto, unfolding(crate::specs::Bodies::block_body))]
fn block_body(
    typer: &Typer<'_>,
    tally: &mut Tally,
    block: u32,
    nodes: &[Node],
) -> Result<TypedBody, TypeFault>
    ensures { Counts (spec.block_body (scope_of typer.now.scope) block nodes.now tally.old) result tally.new }
{
    let mut frame = first_frame(typer.alloc, typer.scope.own.len())?;
    lines(typer, &mut frame, tally, nodes)?;
    Ok(TypedBody::Block(block, frame.out, frame.temps))
}

fn set_whole(
    alloc: Global,
    block: u32,
    target: &Reference,
    e: Boxed<Ex>,
) -> Result<TypedBody, NoMemory>
    ensures { IfOk result (λ body. body ≡ spec.lambda_done block target.now e) }
{
    let mut out = List::new(alloc);
    out.push(St::Set(target.part, e.into_inner()))?;
    Ok(TypedBody::Block(block, out, List::new(alloc)))
}

#[tactic(auto, unfolding(crate::specs::Bodies::lambda_to))]
fn lambda_to(
    typer: &Typer<'_>,
    tally: &mut Tally,
    block: u32,
    line: u32,
    target: &Reference,
    operand: Operand,
) -> Result<TypedBody, TypeFault>
    ensures { Counts (spec.lambda_to (scope_of typer.now.scope) block line target.now operand tally.old) result tally.new }
{
    if !may_write(typer.scope.sort, target) {
        return Err(TypeFault::NotAllowedHere(line));
    }
    let e = fitted(typer.alloc, tally, line, type_of(target), operand)?;
    tally.node()?;
    Ok(set_whole(typer.alloc, block, target, e)?)
}

// `a //= lambda: e`.
#[tactic(auto, unfolding(crate::specs::Bodies::lambda_body))]
fn lambda_body(
    typer: &Typer<'_>,
    tally: &mut Tally,
    block: u32,
    line: u32,
    target: &Reference,
    e: &Expr,
) -> Result<TypedBody, TypeFault>
    ensures { Counts (spec.lambda_body (scope_of typer.now.scope) block line target.now e.now tally.old) result tally.new }
{
    let at = At {
        bounds: &[],
        line,
        inside_index: false,
    };
    let operand = typer.operand(&at, tally, e)?;
    lambda_to(typer, tally, block, line, target, operand)
}

#[tactic(auto, unfolding(crate::specs::Bodies::guard_of))]
fn guard_of(
    typer: &Typer<'_>,
    tally: &mut Tally,
    method: u32,
    line: u32,
    operand: Operand,
) -> Result<TypedBody, TypeFault>
    ensures { Counts (spec.guard_of method line operand tally.old) result tally.new }
{
    let (e, ty) = bits_in(line, operand)?;
    let c = condition(typer.alloc, tally, line, e, ty)?;
    Ok(TypedBody::Guard(method, c.into_inner()))
}

// The condition of a method's `rdy`.
#[tactic(auto, unfolding(crate::specs::Bodies::guard_body))]
fn guard_body(
    typer: &Typer<'_>,
    tally: &mut Tally,
    method: u32,
    line: u32,
    e: &Expr,
) -> Result<TypedBody, TypeFault>
    ensures { Counts (spec.guard_body (scope_of typer.now.scope) method line e.now tally.old) result tally.new }
{
    let at = At {
        bounds: &[],
        line,
        inside_index: false,
    };
    let operand = typer.operand(&at, tally, e)?;
    guard_of(typer, tally, method, line, operand)
}

/// The last line, if it is a `return`.
#[derive(Clone, Copy)]
pub struct Returned<'a> {
    pub line: u32,
    pub expression: &'a Expr,
}

fn last_return(nodes: &[Node]) -> Option<Returned<'_>>
    ensures { return_of result ≡ spec.last_return nodes.now }
{
    match nodes {
        [.., last] => match &last.stmt {
            Stmt::Return(e) => Some(Returned {
                line: last.line,
                expression: e,
            }),
            _ => None,
        },
        [] => None,
    }
}

#[tactic(auto, unfolding(crate::specs::Bodies::answered))]
fn answered(
    typer: &Typer<'_>,
    tally: &mut Tally,
    frame: Frame,
    method: u32,
    line: u32,
    ty: ValueType,
    e: &Expr,
) -> Result<TypedBody, TypeFault>
    ensures { Counts (spec.answered (scope_of typer.now.scope) method line ty e.now frame tally.old) result tally.new }
{
    let mut frame = frame;
    let operand = right_value(typer, &mut frame, tally, line, e)?;
    let answer = fitted(typer.alloc, tally, line, ty, operand)?;
    let answer = Some(answer.into_inner());
    Ok(TypedBody::Method(method, frame.out, frame.temps, answer))
}

// A `return` stands exactly where there is a result.
#[tactic(auto, unfolding(crate::specs::Bodies::answer_of))]
fn answer_of(
    typer: &Typer<'_>,
    tally: &mut Tally,
    frame: Frame,
    method: u32,
    line: u32,
    result_type: Option<ValueType>,
    returned: Option<Returned<'_>>,
) -> Result<TypedBody, TypeFault>
    ensures { Counts (spec.answer_of (scope_of typer.now.scope) method line result_type (return_of returned.entry) frame tally.old) result tally.new }
{
    match (result_type, returned) {
        (None, None) => Ok(TypedBody::Method(method, frame.out, frame.temps, None)),
        (None, Some(returned)) => Err(TypeFault::NotAllowedHere(returned.line)),
        (Some(_), None) => Err(TypeFault::NotAllowedHere(line)),
        (Some(ty), Some(returned)) => {
            answered(
                typer,
                tally,
                frame,
                method,
                returned.line,
                ty,
                returned.expression,
            )
        }
    }
}

fn lines_before<'a>(returned: &Option<Returned<'_>>, nodes: &'a [Node]) -> &'a [Node]
    ensures { result.now ≡ spec.lines_before (return_of returned.now) nodes.now }
{
    match returned {
        Some(_) if 0 < nodes.len() => &nodes[..nodes.len() - 1],
        _ => nodes,
    }
}

#[tactic(auto, unfolding(crate::specs::Bodies::method_lines))]
fn method_lines(
    typer: &Typer<'_>,
    tally: &mut Tally,
    frame: Frame,
    method: u32,
    line: u32,
    types: &MethodTypes,
    nodes: &[Node],
) -> Result<TypedBody, TypeFault>
    ensures { Counts (spec.method_lines (scope_of typer.now.scope) method line types.now nodes.now frame tally.old) result tally.new }
{
    let mut frame = frame;
    let returned = last_return(nodes);
    lines(typer, &mut frame, tally, lines_before(&returned, nodes))?;
    answer_of(typer, tally, frame, method, line, types.result, returned)
}

// A method.
#[tactic(auto, unfolding(crate::specs::Bodies::method_body))]
fn method_body(
    typer: &Typer<'_>,
    tally: &mut Tally,
    method: u32,
    line: u32,
    types: &MethodTypes,
    nodes: &[Node],
) -> Result<TypedBody, TypeFault>
    ensures { Counts (spec.method_body (scope_of typer.now.scope) method line types.now nodes.now tally.old) result tally.new }
{
    let mut frame = first_frame(typer.alloc, typer.scope.own.len())?;
    put_arguments(typer.scope.own, &mut frame, types.arguments.as_slice())?;
    method_lines(typer, tally, frame, method, line, types, nodes)
}

impl<'a> KindScope<'a> {
    // The typer of a body of this sort, which assigns these names.
    fn typer(&self, alloc: Global, sort: BodySort, own: &'a Table<u32>) -> Typer<'a>
        ensures { scope_of result.scope ≡ spec.body_scope self.now.design.now self.now.kind.now self.now.raw.now sort own.now }
    {
        Typer {
            alloc,
            scope: Scope {
                design: self.design,
                kind: self.kind,
                raw: self.raw,
                own,
                sort,
            },
        }
    }

    fn block_lines(
        &self,
        alloc: Global,
        tally: &mut Tally,
        block: u32,
        nodes: &[Node],
    ) -> Result<TypedBody, TypeFault>
        ensures { Counts (spec.block_lines self.now.design.now self.now.kind.now self.now.raw.now block nodes.now tally.old) result tally.new }
    {
        let own = names_of(alloc, &[], nodes)?;
        let sort = sort_of_block(self.kind.blocks.get(block as usize));
        let inner = KindScope {
            design: self.design,
            kind: self.kind,
            raw: self.raw,
        };
        block_body(&inner.typer(alloc, sort, &own), tally, block, nodes)
    }

    fn typed_method(
        &self,
        alloc: Global,
        tally: &mut Tally,
        method: u32,
        line: u32,
        types: &MethodTypes,
        nodes: &[Node],
    ) -> Result<TypedBody, TypeFault>
        ensures { Counts (spec.typed_method self.now.design.now self.now.kind.now self.now.raw.now method line types.now nodes.now tally.old) result tally.new }
    {
        let own = names_of(alloc, types.arguments.as_slice(), nodes)?;
        let inner = KindScope {
            design: self.design,
            kind: self.kind,
            raw: self.raw,
        };
        let typer = inner.typer(alloc, BodySort::Method, &own);
        method_body(&typer, tally, method, line, types, nodes)
    }

    fn statements(
        &self,
        alloc: Global,
        tally: &mut Tally,
        place: BodyPlace,
        line: u32,
        nodes: &[Node],
    ) -> Result<TypedBody, TypeFault>
        ensures { Counts (spec.statements_by self.now.design.now self.now.kind.now self.now.raw.now place line nodes.now tally.old) result tally.new }
    {
        match place {
            BodyPlace::Block(block) => self.block_lines(alloc, tally, block, nodes),
            BodyPlace::Method(method) => match self.raw.methods.get(method as usize) {
                Some(types) => self.typed_method(alloc, tally, method, line, types, nodes),
                None => Err(TypeFault::NotAllowedHere(line)),
            },
            BodyPlace::Guard(_) => Err(TypeFault::NotAllowedHere(line)),
        }
    }

    fn by_code(
        &self,
        alloc: Global,
        tally: &mut Tally,
        body: &RawBody,
    ) -> Result<TypedBody, TypeFault>
        ensures { Counts (spec.body_by self.now.design.now self.now.kind.now self.now.raw.now body.now body.now.code tally.old) result tally.new }
    {
        let none = Table::new(alloc);
        let inner = KindScope {
            design: self.design,
            kind: self.kind,
            raw: self.raw,
        };
        match &body.code {
            Code::Statements(nodes) => {
                self.statements(alloc, tally, body.place, body.line, nodes.as_slice())
            }
            Code::Guard(e) => {
                let typer = inner.typer(alloc, BodySort::Method, &none);
                guard_body(&typer, tally, number_of(body.place), body.line, e)
            }
            Code::Lambda(target, e) => {
                let typer = inner.typer(alloc, BodySort::Update, &none);
                lambda_body(&typer, tally, number_of(body.place), body.line, target, e)
            }
        }
    }

    /// The typed body.
    #[tactic(auto, unfolding(crate::specs::Bodies::whole_body))]
    pub fn typed(
        &self,
        alloc: Global,
        tally: &mut Tally,
        body: &RawBody,
    ) -> Result<TypedBody, TypeFault>
        ensures { Counts (spec.whole_body self.now.design.now self.now.kind.now self.now.raw.now body.now tally.old) result tally.new }
    {
        tally.line = body.line;
        self.by_code(alloc, tally, body)
    }
}

fn number_of(place: BodyPlace) -> u32
    ensures { result ≡ spec.number_of place }
{
    match place {
        BodyPlace::Block(number) | BodyPlace::Method(number) | BodyPlace::Guard(number) => number,
    }
}
