//! What the words of a command line or of a row ask.
ghost use Rattle.std.specs.Prelude.{IfOk, IfSome, IsTrue};
ghost use Rattle.pm_elab_laws.specs.Soundness.{are_good_params, is_good_param};

use crate::refusal::Refusal;
use pm_elab::{Param, ParamValue};
use pm_io::{List, Text};
use pm_syn::{Line, TextFault, TokenKind, is_keyword, is_proper_name, lex};
use std::alloc::Global;

/// The greatest width of a type.
const MAX_WIDTH: u32 = 128;

/// How far a design goes before it is shown.
#[derive(Clone, Copy, PartialEq, Eq)]
pub enum Layer {
    /// Its kinds of component, as `construct` makes them.
    Kinds,
    /// Its kinds of component with the typed bodies of blocks and methods.
    Bodies,
    /// Its instances and their nets.
    Nets,
}

/// What is asked: the layer, the top class and its parameters.
#[derive(Drop)]
pub struct Question<'a> {
    pub layer: Layer,
    pub class: &'a [u8],
    pub params: List<Param>,
}

/// The question that these words ask: the layer, the top class, and a word `name=value` for each parameter.
pub fn question_of<'a>(
    alloc: Global,
    layer: &str,
    class: &'a str,
    assignments: &[String],
) -> Result<Question<'a>, Refusal>
    ensures { IfOk result (λ question. IsTrue (are_good_params question.params)) }
{
    let layer = layer_of(layer)?;
    if class.is_empty() {
        return Err(Refusal::Usage);
    }
    Ok(Question {
        layer,
        class: class.as_bytes(),
        params: params_of(alloc, assignments)?,
    })
}

fn layer_of(word: &str) -> Result<Layer, Refusal> {
    match word {
        "kinds" => Ok(Layer::Kinds),
        "bodies" => Ok(Layer::Bodies),
        "nets" => Ok(Layer::Nets),
        _ => Err(Refusal::Usage),
    }
}

fn params_of(alloc: Global, assignments: &[String]) -> Result<List<Param>, Refusal>
    ensures { IfOk result (λ params. IsTrue (are_good_params params)) }
{
    let mut params = List::new(alloc);
    for assignment in assignments {
        params.push(param_of(alloc, assignment.as_str())?)?;
    }
    Ok(params)
}

fn param_of(alloc: Global, assignment: &str) -> Result<Param, Refusal>
    ensures { IfOk result (λ param. IsTrue (is_good_param param.value)) }
{
    let Some((name, value)) = assignment.split_once('=') else {
        return Err(Refusal::Usage);
    };
    let name = name.as_bytes();
    if !is_proper_name(name) && !is_keyword(name) {
        return Err(Refusal::Usage);
    }
    let value = value_of(alloc, value)?;
    Ok(Param {
        name: Text::from_slice(alloc, name)?,
        value,
    })
}

// `BitsN`, or an integer as a design spells it, with or without a minus before it.
fn value_of(alloc: Global, value: &str) -> Result<ParamValue, Refusal>
    ensures { IfOk result (λ value. IsTrue (is_good_param value)) }
{
    if let Some(digits) = value.strip_prefix("Bits") {
        return match width_of(digits) {
            Some(width) => Ok(ParamValue::Width(width)),
            None => Err(Refusal::Usage),
        };
    }
    let integer = match value.strip_prefix("-") {
        Some(size) => negative(size_of(alloc, size)?),
        None => i64::try_from(size_of(alloc, value)?).ok(),
    };
    match integer {
        Some(integer) => Ok(ParamValue::Int(integer)),
        None => Err(Refusal::Usage),
    }
}

fn width_of(digits: &str) -> Option<u32>
    ensures { IfSome result (λ width. IsTrue (is_good_param (ParamValue.Width width))) }
{
    if digits.starts_with('0') || digits.starts_with('+') {
        return None;
    }
    let width = digits.parse().ok()?;
    if width < 1 || width > MAX_WIDTH {
        return None;
    }
    Some(width)
}

// The integer of 64 bits below 0 that has this size.
fn negative(size: u128) -> Option<i64> {
    let size = u64::try_from(size).ok()?;
    0i64.checked_sub_unsigned(size)
}

fn size_of(alloc: Global, spelled: &str) -> Result<u128, Refusal> {
    match lex(alloc, spelled.as_bytes()) {
        Ok(lines) => integer_in(lines.as_slice(), spelled.len()).ok_or(Refusal::Usage),
        Err(TextFault::NoMemory) => Err(Refusal::NoMemory),
        Err(_) => Err(Refusal::Usage),
    }
}

// The integer, if the lines are one token of this length that is an integer.
fn integer_in(lines: &[Line], length: usize) -> Option<u128> {
    let [line] = lines else {
        return None;
    };
    match line.tokens.as_slice() {
        [token] if token.text.len() == length => match token.kind {
            TokenKind::Int(integer) => Some(integer),
            _ => None,
        },
        _ => None,
    }
}
