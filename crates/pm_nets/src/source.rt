//! Which parts bring values to the nets within a component.
ghost use Rattle.std.specs.Prelude.{◌≡◌, ◌<◌, ◌-◌, IsTrue, length, slice_index_or};
ghost use Rattle.std.specs.List.{list_all};
ghost use Rattle.pm_design.specs.Elaborated.{is_before};
ghost use Rattle.pm_design.specs.Lookups.{is_input as is_input_of, lies_within, owner_kind_of, signal_of};
ghost use Rattle.pm_nets.specs.Faults.{is_output as is_output_of, is_source as is_source_of};

use pm_design::{Child, Design, Kind, Part, Role, Signal};

/// An input.
pub(crate) fn is_input(role: Role) -> bool
    ensures { result ≡ is_input_of role }
{
    match role {
        Role::Input => true,
        Role::Output => false,
        Role::Inner => false,
    }
}

/// An output.
pub(crate) fn is_output(role: Role) -> bool
    ensures { result ≡ is_output_of role }
{
    match role {
        Role::Input => false,
        Role::Output => true,
        Role::Inner => false,
    }
}

pub(crate) fn kind_at<'a>(design: &'a Design, k: u32) -> &'a Kind
    requires { k < length design.now.kinds }
    ensures { result.now ≡ slice_index_or design.now.kinds k result.now }
{
    &design.kinds.as_slice()[k as usize]
}

fn child_at<'a>(kind: &'a Kind, c: u32) -> &'a Child
    requires { c < length kind.now.children }
    ensures { result.now ≡ slice_index_or kind.now.children c result.now }
{
    &kind.children.as_slice()[c as usize]
}

fn signal_at<'a>(kind: &'a Kind, s: u32) -> &'a Signal
    requires { s < length kind.now.signals }
    ensures { result.now ≡ slice_index_or kind.now.signals s result.now }
{
    &kind.signals.as_slice()[s as usize]
}

/// The kind whose signals a part names.
#[tactic(auto, using(crate::proofs::Owners::owner_kinds))]
pub(crate) fn owner_kind<'a>(design: &'a Design, kind: &'a Kind, part: Part) -> &'a Kind
    requires children { IsTrue (list_all (is_before (length design.now.kinds)) kind.now.children) }
    requires part { IsTrue (lies_within design.now kind.now part) }
    ensures { result.now ≡ owner_kind_of design.now kind.now part.owner }
{
    if part.owner == 0 {
        return kind;
    }
    kind_at(design, child_at(kind, part.owner - 1).kind)
}

/// The role of the signal of a part.
#[tactic(auto, using(crate::proofs::Owners::signals))]
fn role_of(design: &Design, kind: &Kind, part: Part) -> Role
    requires children { IsTrue (list_all (is_before (length design.now.kinds)) kind.now.children) }
    requires part { IsTrue (lies_within design.now kind.now part) }
    ensures { result ≡ (signal_of design.now kind.now part).role }
{
    signal_at(owner_kind(design, kind, part), part.signal).role
}

/// Whether a part is of an own input or of a child's output.
pub(crate) fn is_source(design: &Design, kind: &Kind, part: Part) -> bool
    requires children { IsTrue (list_all (is_before (length design.now.kinds)) kind.now.children) }
    requires part { IsTrue (lies_within design.now kind.now part) }
    ensures { result ≡ is_source_of design.now kind.now part }
{
    let role = role_of(design, kind, part);
    if part.owner == 0 {
        is_input(role)
    } else {
        is_output(role)
    }
}
