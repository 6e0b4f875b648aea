//! Names of what stands within a list or an interface.
ghost use Rattle.std.specs.Prelude.{◌≡◌, IfOk};
ghost use Rattle.pm_elab.specs.Placing as spec;
ghost use Rattle.pm_elab.specs.Statements as statements;

use itoa::Buffer;
use pm_io::{NoMemory, Text};
use std::alloc::Global;

/// The name of an element: `name[k]`.
#[tactic(auto, unfolding(pm_elab::specs::Placing::element_name))]
pub(crate) fn element_name(alloc: Global, name: &[u8], index: usize) -> Result<Text, NoMemory>
    ensures { IfOk result (λ text. text ≡ spec.element_name name.now index) }
{
    let mut digits = Buffer::new();
    let mut bytes = Vec::from_slice(alloc, name)?;
    bytes.extend_from_slice(b"[")?;
    bytes.extend_from_slice(digits.format(index).as_bytes())?;
    bytes.extend_from_slice(b"]")?;
    Ok(Text::from_vec(bytes))
}

/// The name of a member: `name.member`.
#[tactic(auto, unfolding(pm_elab::specs::Placing::member_name))]
pub(crate) fn member_name(alloc: Global, name: &[u8], member: &[u8]) -> Result<Text, NoMemory>
    ensures { IfOk result (λ text. text ≡ spec.member_name name.now member.now) }
{
    let mut bytes = Vec::from_slice(alloc, name)?;
    bytes.extend_from_slice(b".")?;
    bytes.extend_from_slice(member)?;
    Ok(Text::from_vec(bytes))
}

/// The name of the lambda of a number: `lambda_k`.
#[tactic(auto, unfolding(pm_elab::specs::Statements::lambda_name))]
pub(crate) fn lambda_name(alloc: Global, number: u32) -> Result<Text, NoMemory>
    ensures { IfOk result (λ text. text ≡ statements.lambda_name number) }
{
    let mut digits = Buffer::new();
    let mut bytes = Vec::from_slice(alloc, b"lambda_")?;
    bytes.extend_from_slice(digits.format(number).as_bytes())?;
    Ok(Text::from_vec(bytes))
}
