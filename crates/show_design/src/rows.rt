//! Rows of designs: a title, the words of a question, and a design's text up to a line `--`.
use crate::design::show;
use crate::page::Page;
use crate::refusal::{Refusal, write_refusal};
use crate::words::question_of;
use std::alloc::{AllocError, Global};

/// The row that is being read.
#[derive(Drop)]
pub struct Row {
    words: Vec<String>,
    text: Vec<u8>,
}

impl Row {
    /// A row of which nothing has been read.
    pub fn new(alloc: Global) -> Row {
        Row {
            words: Vec::new(alloc),
            text: Vec::new(alloc),
        }
    }

    /// Reads one more line. Lines before the words that are empty or begin with `#` are printed as they are; at the
    /// row's last line what becomes of its design is printed.
    pub fn read(&mut self, alloc: Global, page: &mut Page, line: &str) -> Result<(), AllocError> {
        if line == "--" {
            self.answer(alloc, page);
            self.words.clear();
            self.text.clear();
            return Ok(());
        }
        if !self.words.is_empty() {
            self.text.extend_from_slice(line.as_bytes())?;
            return self.text.extend_from_slice(b"\n");
        }
        if line.is_empty() || line.starts_with('#') {
            page.put(line.as_bytes());
            page.put(b"\n");
            return Ok(());
        }
        push_words(alloc, &mut self.words, line)
    }

    fn answer(&self, alloc: Global, page: &mut Page) {
        if let Err(refusal) = self.show(alloc, page) {
            write_refusal(page, &refusal);
        }
    }

    fn show(&self, alloc: Global, page: &mut Page) -> Result<(), Refusal> {
        let [layer, class, assignments @ ..] = self.words.as_slice() else {
            return Err(Refusal::Usage);
        };
        let question = question_of(alloc, layer.as_str(), class.as_str(), assignments)?;
        show(alloc, page, self.text.as_slice(), &question)
    }
}

fn push_words(alloc: Global, words: &mut Vec<String>, line: &str) -> Result<(), AllocError> {
    for word in line.split_whitespace() {
        words.push(String::from_str(alloc, word)?)?;
    }
    Ok(())
}
