//! Update blocks and lambdas.
ghost use Rattle.std.specs.Prelude.{◌≡◌, ◌+◌, IfOk, Ok};
ghost use Rattle.pm_elab.specs.Elab.{Changes, Gives};
ghost use Rattle.pm_elab.specs.Statements as spec;

use crate::name::lambda_name;
use crate::placing::number_of;
use pm_design::{Block, BlockSort};
use pm_elab::{BodyPlace, Code, ConstructedClass, Frame, RawBody};
use pm_io::{Boxed, List, NoMemory, Text};
use pm_syn::{Expr, Node, Stmt};
use pm_values::{BuildFault, Reference, Taken, Value};
use std::alloc::Global;
use tree_copy::{copy_expression, copy_nodes, copy_statement};

/// When a block under the decorator runs.
#[tactic(auto, unfolding(pm_elab::specs::Statements::decorator))]
pub fn decorator(name: &[u8]) -> BlockSort
    ensures { result ≡ spec.decorator name.now }
{
    if name == b"update_ff".as_slice() {
        BlockSort::Edge
    } else if name == b"update_once".as_slice() {
        BlockSort::Once
    } else {
        BlockSort::Update
    }
}

#[tactic(auto, unfolding(pm_elab::specs::Statements::has_block))]
fn has_block(frame: &Frame, name: &[u8]) -> bool
    ensures { result ≡ spec.has_block frame.now name.now }
{
    frame
        .kind
        .blocks
        .as_slice()
        .iter()
        .any(|block| block.name.as_slice() == name)
}

/// Adds a body.
#[tactic(auto, unfolding(pm_elab::specs::Statements::body_put))]
pub fn body_put(
    frame: &mut Frame,
    place: BodyPlace,
    line: u32,
    code: Code,
) -> Result<(), BuildFault>
    ensures { Changes (Ok (spec.body_put place line code frame.old)) result frame.new }
{
    frame.raw.bodies.push(RawBody { place, line, code })?;
    Ok(())
}

/// Adds a block, whose body isn't typed yet.
#[tactic(auto, unfolding(pm_elab::specs::Statements::block_set))]
fn block_set(
    alloc: Global,
    frame: &mut Frame,
    name: Text,
    sort: BlockSort,
) -> Result<(), BuildFault>
    ensures { Changes (Ok (spec.block_set name sort frame.old)) result frame.new }
{
    frame.kind.blocks.push(Block {
        name,
        sort,
        body: List::new(alloc),
        temps: List::new(alloc),
    })?;
    Ok(())
}

/// Adds a block of a new name, and its body.
#[tactic(auto, unfolding(pm_elab::specs::Statements::block_put))]
fn block_put(
    alloc: Global,
    frame: &mut Frame,
    name: Text,
    sort: BlockSort,
    line: u32,
    code: Code,
) -> Result<(), BuildFault>
    ensures { Changes (spec.block_put name sort line code frame.old) result frame.new }
{
    if has_block(frame, name.as_slice()) {
        return Err(BuildFault::SameName(line));
    }
    let number = number_of(frame.kind.blocks.len())?;
    block_set(alloc, frame, name, sort)?;
    body_put(frame, BodyPlace::Block(number), line, code)
}

/// The lines of a body: the statement after the colon, or those below.
#[tactic(auto, unfolding(pm_elab::specs::Statements::body_nodes))]
pub fn body_nodes(
    alloc: Global,
    after: &Option<Boxed<Stmt>>,
    below: &[Node],
    line: u32,
) -> Result<List<Node>, NoMemory>
    ensures { IfOk result (λ nodes. nodes ≡ spec.body_nodes after.now below.now line) }
{
    match after {
        None => copy_nodes(alloc, below),
        Some(statement) => {
            let stmt = copy_statement(alloc, statement.get())?;
            let mut nodes = List::new(alloc);
            nodes.push(Node {
                line,
                stmt,
                body: List::new(alloc),
            })?;
            Ok(nodes)
        }
    }
}

/// `def name(): ..` under a decorator.
#[tactic(auto, unfolding(pm_elab::specs::Statements::block_def))]
pub fn block_def(
    alloc: Global,
    frame: &mut Frame,
    name: &[u8],
    sort: BlockSort,
    after: &Option<Boxed<Stmt>>,
    below: &[Node],
    line: u32,
) -> Result<(), BuildFault>
    ensures { Changes (spec.block_def name.now sort after.now below.now line frame.old) result frame.new }
{
    match frame.class {
        ConstructedClass::Component => {
            let nodes = body_nodes(alloc, after, below, line)?;
            let name = Text::from_slice(alloc, name)?;
            block_put(alloc, frame, name, sort, line, Code::Statements(nodes))
        }
        ConstructedClass::Interface => Err(BuildFault::WrongKind(line)),
    }
}

/// Adds a block of one assignment, with its target as it is now.
#[tactic(auto, unfolding(pm_elab::specs::Statements::lambda_put))]
fn lambda_put(
    alloc: Global,
    frame: &mut Frame,
    target: &Reference,
    e: &Expr,
    line: u32,
) -> Result<(), BuildFault>
    ensures { Changes (spec.lambda_put target.now e.now line frame.old) result frame.new }
{
    let name = lambda_name(alloc, frame.lambdas)?;
    let code = Code::Lambda(*target, copy_expression(alloc, e)?);
    block_put(alloc, frame, name, BlockSort::Update, line, code)?;
    frame.lambdas = next(frame.lambdas)?;
    Ok(())
}

fn next(number: u32) -> Result<u32, BuildFault>
    ensures { Gives (Ok (number + 1)) result }
{
    match number.checked_add(1) {
        Some(next) => Ok(next),
        None => Err(BuildFault::NoMemory),
    }
}

/// `a //= lambda: e`, once a has a value: an own signal or a port of a child.
#[tactic(auto, unfolding(pm_elab::specs::Statements::lambda_block))]
pub fn lambda_block(
    alloc: Global,
    frame: &mut Frame,
    target: &Value,
    e: &Expr,
    line: u32,
) -> Result<(), BuildFault>
    ensures { Changes (spec.lambda_block target.now e.now line frame.old) result frame.new }
{
    match frame.class {
        ConstructedClass::Component => match target {
            Value::Taken(Taken::Signal(signal)) => lambda_put(alloc, frame, signal, e, line),
            _ => Err(BuildFault::WrongKind(line)),
        },
        ConstructedClass::Interface => Err(BuildFault::WrongKind(line)),
    }
}
