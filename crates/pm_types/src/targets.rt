//! What may be assigned.
ghost use Rattle.std.specs.Prelude.{◌≡◌, IfOk};
ghost use Rattle.pm_design.specs.Lookups as lookups;
ghost use Rattle.pm_typing.specs.Things.{thing_of};
ghost use Rattle.pm_types.specs.Targets as spec;

use pm_design::{Ex, Role, St};
use pm_io::{Boxed, List, NoMemory};
use pm_syn::AssignOp;
use pm_type_expr::{element_type, parts_of, type_of};
use pm_typing::{BodySort, Thing, TypeFault};
use pm_values::{Form, Reference, ValueType};
use std::alloc::Global;

/// What an assignment assigns.
#[derive(Drop)]
pub enum Target {
    /// A signal, or some of its bits.
    Whole(Reference),
    /// The element that an index chooses.
    Picked(Boxed<Ex>, List<Reference>),
}

fn assigns_signals(sort: BodySort) -> bool
    ensures { result ≡ spec.assigns_signals sort }
{
    match sort {
        BodySort::Method => false,
        BodySort::Update | BodySort::Once | BodySort::Edge => true,
    }
}

fn is_input(role: Role) -> bool
    ensures { result ≡ lookups.is_input role }
{
    match role {
        Role::Input => true,
        Role::Output | Role::Inner => false,
    }
}

/// Whether a body of this sort may assign the reference.
pub fn may_write(sort: BodySort, reference: &Reference) -> bool
    ensures { result ≡ spec.may_write sort reference.now }
{
    let to_input = is_input(reference.role);
    let fits = if reference.part.owner == 0 {
        !to_input
    } else {
        to_input
    };
    assigns_signals(sort) && fits
}

#[tactic(auto, unfolding(crate::specs::Targets::may_write_all))]
fn may_write_all(sort: BodySort, references: &[Reference]) -> bool
    ensures { result ≡ spec.may_write_all sort references.now }
{
    for reference in references {
        if !may_write(sort, reference) {
            return false;
        }
    }
    true
}

/// A thing that may be assigned.
#[tactic(auto, unfolding(crate::specs::Targets::target_of))]
pub fn target_of(sort: BodySort, line: u32, thing: Thing<'_>) -> Result<Target, TypeFault>
    ensures { result ≡ spec.target_of sort line (thing_of thing.entry) }
{
    match thing {
        Thing::Signal(reference) => {
            if may_write(sort, &reference) {
                Ok(Target::Whole(reference))
            } else {
                Err(TypeFault::NotAllowedHere(line))
            }
        }
        Thing::Pick(index, elements) => {
            if may_write_all(sort, elements.as_slice()) {
                Ok(Target::Picked(index, elements))
            } else {
                Err(TypeFault::NotAllowedHere(line))
            }
        }
        _ => Err(TypeFault::NotAllowedHere(line)),
    }
}

/// The type of a target.
#[tactic(auto, unfolding(crate::specs::Targets::target_type))]
pub fn target_type(target: &Target) -> ValueType
    ensures { result ≡ spec.target_type target.now }
{
    match target {
        Target::Whole(reference) => type_of(reference),
        Target::Picked(_, elements) => element_type(elements.as_slice()),
    }
}

fn is_whole(reference: &Reference) -> bool
    ensures { result ≡ spec.is_whole reference.now }
{
    match reference.form {
        Form::Whole => true,
        Form::Field | Form::Slice | Form::Bit => false,
    }
}

#[tactic(auto, unfolding(crate::specs::Targets::are_whole))]
fn are_whole(references: &[Reference]) -> bool
    ensures { result ≡ spec.are_whole references.now }
{
    for reference in references {
        if !is_whole(reference) {
            return false;
        }
    }
    true
}

fn is_all_whole(target: &Target) -> bool
    ensures { result ≡ spec.whole_at target.now }
{
    match target {
        Target::Whole(reference) => is_whole(reference),
        Target::Picked(_, elements) => are_whole(elements.as_slice()),
    }
}

fn is_edge(sort: BodySort) -> bool
    ensures { result ≡ spec.is_edge sort }
{
    match sort {
        BodySort::Edge => true,
        BodySort::Update | BodySort::Once | BodySort::Method => false,
    }
}

/// Whether the assignment suits its block and its target.
#[tactic(auto, unfolding(crate::specs::Targets::suits))]
pub fn suits(op: AssignOp, sort: BodySort, target: &Target) -> bool
    ensures { result ≡ spec.suits op sort target.now }
{
    match op {
        AssignOp::Now => !is_edge(sort),
        AssignOp::Next => is_edge(sort) && is_all_whole(target),
        AssignOp::Plain | AssignOp::Join => false,
    }
}

/// The statement that assigns an expression.
#[tactic(auto, unfolding(crate::specs::Targets::set_statement))]
pub fn set_statement(alloc: Global, target: Target, e: Boxed<Ex>) -> Result<St, NoMemory>
    ensures { IfOk result (λ statement. statement ≡ spec.set_statement target e) }
{
    match target {
        Target::Whole(reference) => Ok(St::Set(reference.part, e.into_inner())),
        Target::Picked(index, elements) => {
            let parts = parts_of(alloc, elements.as_slice())?;
            Ok(St::SetPick(index.into_inner(), parts, e.into_inner()))
        }
    }
}
