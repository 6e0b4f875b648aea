//! The job that the words of a row ask for, as a text.
use pm_elab::{Param, ParamValue};
use pm_words::{Job, Options, Target, WordsFault, job_of};
use std::alloc::{AllocError, Global};

/// The job that the words of a row ask for.
pub fn answer_of(alloc: Global, row: &str) -> Result<Vec<u8>, AllocError> {
    let words = words_of(alloc, row)?;
    match job_of(alloc, &words) {
        Ok(job) => text_of(alloc, &job),
        Err(WordsFault::Usage) => Vec::from_slice(alloc, b"usage"),
        Err(WordsFault::NoMemory) => Vec::from_slice(alloc, b"out of memory"),
    }
}

// What is in backquotes.
fn words_of(alloc: Global, row: &str) -> Result<Vec<String>, AllocError> {
    let mut words = Vec::new(alloc);
    let mut is_word = false;
    for part in row.split('`') {
        if is_word {
            words.push(String::from_str(alloc, part)?)?;
        }
        is_word = !is_word;
    }
    Ok(words)
}

fn text_of(alloc: Global, job: &Job) -> Result<Vec<u8>, AllocError> {
    match job {
        Job::Check(target) => target_text(alloc, b"check", target),
        Job::Order(target) => target_text(alloc, b"order", target),
        Job::Sim(target, options) => {
            let mut text = target_text(alloc, b"sim", target)?;
            push_options(alloc, &mut text, options)?;
            Ok(text)
        }
    }
}

fn target_text(alloc: Global, action: &[u8], target: &Target) -> Result<Vec<u8>, AllocError> {
    let mut text = Vec::from_slice(alloc, action)?;
    push_word(&mut text, target.file.as_slice())?;
    push_word(&mut text, target.class.as_slice())?;
    for param in target.params.as_slice() {
        push_param(alloc, &mut text, param)?;
    }
    Ok(text)
}

fn push_param(alloc: Global, text: &mut Vec<u8>, param: &Param) -> Result<(), AllocError> {
    push_word(text, param.name.as_slice())?;
    match param.value {
        ParamValue::Int(integer) => {
            text.extend_from_slice(format!(in alloc; "={integer}")?.as_bytes())
        }
        ParamValue::Width(width) => {
            text.extend_from_slice(format!(in alloc; "=Bits{width}")?.as_bytes())
        }
    }
}

fn push_options(alloc: Global, text: &mut Vec<u8>, options: &Options) -> Result<(), AllocError> {
    match &options.order {
        Some(order) => {
            push_word(text, b"order")?;
            push_word(text, order.as_slice())?;
        }
        None => {}
    }
    text.extend_from_slice(format!(in alloc; " reset {}", options.reset)?.as_bytes())
}

fn push_word(text: &mut Vec<u8>, word: &[u8]) -> Result<(), AllocError> {
    text.push(b' ')?;
    text.extend_from_slice(word)
}
