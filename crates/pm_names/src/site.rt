//! What names mean.
ghost use Rattle.std.specs.Prelude.{◌≡◌, ◌++◌, decimal};
ghost use Rattle.std.specs.Option.{option_copied, option_map};
ghost use Rattle.std.specs.Str.{bytes_eq};
ghost use Rattle.pm_elab.specs.Sites as spec;
ghost use Rattle.pm_elab.specs.Sites.{site_of};
ghost use Rattle.pm_names.specs.Found.{value_of};

use crate::found::Found;
use itoa::Buffer;
use pm_elab::{Frame, Site, Turn};
use pm_values::{Value, ValueType};

fn turn_named(turns: &[Turn], name: &[u8]) -> Option<Value>
    ensures { result ≡ spec.turn_named turns.now name.now }
{
    for turn in turns {
        if turn.name.as_slice() == name {
            return Some(Value::Int(turn.value));
        }
    }
    None
}

fn local_named<'a>(frame: Option<&'a Frame>, name: &[u8]) -> Option<Found<'a>>
    ensures { option_map value_of result ≡ spec.local_named (option_copied frame.entry) name.now }
{
    let frame = frame?;
    match frame.raw.locals.get(name) {
        Some(local) => Some(Found::Kept(&local.value)),
        None => {
            if name == b"s".as_slice() {
                Some(Found::Made(Value::Own))
            } else {
                None
            }
        }
    }
}

// Whether the name is the prefix and then the number.
fn is_numbered(name: &[u8], prefix: &[u8], number: u32) -> bool
    ensures { result ≡ bytes_eq name.now (prefix.now ++ decimal number) }
{
    name.starts_with(prefix) && &name[prefix.len()..] == Buffer::new().format(number).as_bytes()
}

fn is_type_name(name: &[u8], width: u32) -> bool
    ensures { result ≡ spec.is_type_name name.now width }
{
    is_numbered(name, b"Bits", width) || is_numbered(name, b"b", width)
}

/// The width that the name of a type names, 1 to 128.
#[tactic(auto, unfolding(pm_elab::specs::Sites::named_width), using(crate::proofs::Names::find_here))]
pub fn named_width(name: &[u8]) -> Option<u32>
    ensures { result ≡ spec.named_width name.now }
{
    for width in 1..129 {
        if is_type_name(name, width) {
            return Some(width);
        }
    }
    None
}

fn type_named(name: &[u8]) -> Option<Value>
    ensures { result ≡ spec.type_named name.now }
{
    let width = named_width(name)?;
    Some(Value::Type(ValueType { width, shape: None }))
}

/// What the name means: a comprehension's name, a name of `construct`, a name of the file, or a type.
#[tactic(auto, unfolding(pm_elab::specs::Sites::named))]
pub fn named<'a>(site: &Site<'a>, name: &[u8]) -> Option<Found<'a>>
    ensures { option_map value_of result ≡ spec.named (site_of site.now) name.now }
{
    if let Some(value) = turn_named(site.turns, name) {
        return Some(Found::Made(value));
    }
    if let Some(found) = local_named(site.frame, name) {
        return Some(found);
    }
    match site.file.names.get(name) {
        Some(value) => Some(Found::Kept(value)),
        None => match type_named(name) {
            Some(value) => Some(Found::Made(value)),
            None => None,
        },
    }
}
