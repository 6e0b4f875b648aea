//! What the runs are given.
use std::alloc::{AllocError, Global};

/// What the runs are given.
#[derive(Drop)]
pub struct Settings {
    pub alloc: Global,
    /// The row of the words of the command line.
    pub words: String,
    /// The name of the only file.
    pub name: String,
    /// The content of the only file.
    pub content: String,
    /// The row of the input.
    pub input: String,
    /// How many bytes a write takes at most.
    pub most: usize,
}

impl Settings {
    /// No words, a file without a name, no input, and writes of any length.
    pub fn new(alloc: Global) -> Settings {
        Settings {
            alloc,
            words: String::new(alloc),
            name: String::new(alloc),
            content: String::new(alloc),
            input: String::new(alloc),
            most: 4096,
        }
    }

    /// Sets what a row sets. Rows of other kinds set nothing.
    pub fn change(&mut self, row: &str) -> Result<(), AllocError> {
        let (kind, value) = parts_of(row);
        match kind {
            "file" => {
                self.content.clear();
                replace(&mut self.name, value)
            }
            "|" => {
                self.content.push_str(value)?;
                self.content.push('\n')
            }
            "words" => replace(&mut self.words, value),
            "input" => replace(&mut self.input, value),
            "most" => {
                self.most = value.parse().unwrap_or(0);
                Ok(())
            }
            _ => Ok(()),
        }
    }
}

/// The first word of a row, and the text after it.
pub fn parts_of(row: &str) -> (&str, &str) {
    row.split_once(' ').unwrap_or((row, ""))
}

fn replace(text: &mut String, value: &str) -> Result<(), AllocError> {
    text.clear();
    text.push_str(value)
}
