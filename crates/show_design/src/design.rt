//! From the text of a design file to its design.
ghost use Rattle.std.specs.Prelude.{◌≡◌, IfOk, IsTrue, Ok};
ghost use Rattle.pm_design.specs.Sound.{IsSound};
ghost use Rattle.pm_elab_laws.specs.Soundness.{are_good_params};
ghost use Rattle.pm_file_laws.specs.Files.{IsFileOf};
ghost use Rattle.show_design.specs.Designs.{IsDesignOf};

use crate::kinds::write_kinds;
use crate::nets::write_nets;
use crate::page::Page;
use crate::refusal::Refusal;
use crate::words::{Layer, Question};
use pm_build::build;
use pm_design::Design;
use pm_elab::RawDesign;
use pm_parse::parse;
use pm_syn::{File, lex};
use pm_types::type_bodies;
use std::alloc::Global;

/// Writes what the question asks of the design in the text.
pub fn show(
    alloc: Global,
    page: &mut Page,
    text: &[u8],
    question: &Question<'_>,
) -> Result<(), Refusal>
    requires { IsTrue (are_good_params question.now.params) }
{
    let raw = design_of(alloc, text, question)?;
    match question.layer {
        Layer::Kinds => {
            write_kinds(page, Layer::Kinds, &raw.design);
            Ok(())
        }
        Layer::Bodies => {
            write_kinds(page, Layer::Bodies, &typed(alloc, text, question, raw)?);
            Ok(())
        }
        Layer::Nets => write_nets(alloc, page, &typed(alloc, text, question, raw)?),
    }
}

// The tree of the text.
fn file_of(alloc: Global, text: &[u8]) -> Result<File, Refusal>
    ensures { IfOk result (λ file. IsFileOf text.now file) }
{
    let lines = lex(alloc, text)?;
    let file = parse(alloc, lines.as_slice())?;
    Ok(file)
}

// What `construct` makes.
fn design_of(alloc: Global, text: &[u8], question: &Question<'_>) -> Result<RawDesign, Refusal>
    ensures { IfOk result (λ raw. IsDesignOf text.now question.now.class.now question.now.params raw) }
{
    let file = file_of(alloc, text)?;
    let raw = build(alloc, &file, question.class, question.params.as_slice())?;
    Ok(raw)
}

// The design with typed bodies, which is sound.
fn typed(
    alloc: Global,
    text: &[u8],
    question: &Question<'_>,
    raw: RawDesign,
) -> Result<Design, Refusal>
    requires params { IsTrue (are_good_params question.now.params) }
    requires raw { IsDesignOf text.now question.now.class.now question.now.params raw }
    ensures { IfOk result IsSound }
{
    let design = type_bodies(alloc, raw)?;
    Ok(design)
}
