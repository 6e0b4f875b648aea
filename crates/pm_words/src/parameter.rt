//! Parameters of a design.
ghost use Rattle.std.specs.Prelude.{◌≡◌, ◌++◌, decimal, map, option_map};
ghost use Rattle.std.specs.Str.{bytes_eq};
ghost use Rattle.pm_syn.specs.Names.{is_spelled_as_name};
ghost use Rattle.pm_words.specs.Readings as spec;

use crate::fault::WordsFault;
use crate::literal::integer_of;
use itoa::Buffer;
use memchr::memchr;
use pm_elab::{Param, ParamValue};
use pm_io::{List, Text};
use pm_syn::{is_keyword, is_proper_name};
use std::alloc::Global;

/// The parameters that words give, each as `name=value`.
pub(crate) fn params_of(alloc: Global, words: &[&str]) -> Result<List<Param>, WordsFault>
    ensures { spec.Gives (spec.params_of (map (λ word. word.now) words.now)) result }
{
    let mut params = List::new(alloc);
    'words: for word in words {
        match param_of(alloc, word.as_bytes()) {
            Ok(param) => params.push(param)?,
            Err(fault) => return Err(fault),
        }
    }
    Ok(params)
}

// The parameter of `name=value`.
#[tactic(auto, unfolding(crate::specs::Readings::param_of))]
fn param_of(alloc: Global, word: &[u8]) -> Result<Param, WordsFault>
    ensures { spec.Gives (spec.param_of word.now) result }
{
    let Some((name, value)) = cut(word) else {
        return Err(WordsFault::Usage);
    };
    let Some(value) = value_of_word(value) else {
        return Err(WordsFault::Usage);
    };
    Ok(Param {
        name: name_in(alloc, name)?,
        value,
    })
}

// The text before the first `=`, and the text after it.
#[tactic(auto, using(crate::proofs::Cuts::cut_at, crate::proofs::Cuts::cut_nowhere))]
fn cut(text: &[u8]) -> Option<(&[u8], &[u8])>
    ensures { option_map (λ parts. (parts.0.now, parts.1.now)) result ≡ spec.cut text.now }
{
    match memchr(b'=', text) {
        Some(end) => Some((&text[..end], &text[end + 1..])),
        None => None,
    }
}

#[tactic(auto, unfolding(crate::specs::Readings::name_in))]
fn name_in(alloc: Global, word: &[u8]) -> Result<Text, WordsFault>
    ensures { spec.Gives (spec.name_in word.now) result }
{
    if is_spelled_as_name(word) {
        Ok(Text::from_slice(alloc, word)?)
    } else {
        Err(WordsFault::Usage)
    }
}

// Whether the word is spelled as a name, reserved or not.
#[tactic(auto, using(crate::proofs::Names::proper_or_reserved))]
fn is_spelled_as_name(word: &[u8]) -> bool
    ensures { result ≡ is_spelled_as_name word.now }
{
    is_proper_name(word) || is_keyword(word)
}

// `BitsN`, or an integer as a design spells it, with or without a minus.
#[tactic(auto, unfolding(crate::specs::Readings::value_of_word))]
fn value_of_word(word: &[u8]) -> Option<ParamValue>
    ensures { result ≡ spec.value_of_word word.now }
{
    match width_of(word) {
        Some(width) => Some(ParamValue::Width(width)),
        None => match integer_of(word) {
            Some(integer) => Some(ParamValue::Int(integer)),
            None => None,
        },
    }
}

// The width N of `BitsN`, 1 to 128.
#[tactic(auto, unfolding(crate::specs::Readings::width_of), using(crate::proofs::Widths::find_here))]
fn width_of(word: &[u8]) -> Option<u32>
    ensures { result ≡ spec.width_of word.now }
{
    for width in 1..129 {
        if is_width(word, width) {
            return Some(width);
        }
    }
    None
}

// Whether the word is `BitsN` for this width.
#[tactic(auto, unfolding(crate::specs::Readings::is_width))]
fn is_width(word: &[u8], width: u32) -> bool
    ensures { result ≡ spec.is_width word.now width }
{
    is_numbered(word, b"Bits", width)
}

// Whether the word is the prefix and then the number.
fn is_numbered(word: &[u8], prefix: &[u8], number: u32) -> bool
    ensures { result ≡ bytes_eq word.now (prefix.now ++ decimal number) }
{
    word.starts_with(prefix) && &word[prefix.len()..] == Buffer::new().format(number).as_bytes()
}
