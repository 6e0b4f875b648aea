//! Jobs.
use pm_elab::Param;
use pm_io::{List, Text};

/// What the words of a command line ask for.
#[derive(Drop)]
pub enum Job {
    /// Read a design, and say how large it is.
    Check(Target),
    /// Read a design, and print the order in which its blocks run.
    Order(Target),
    /// Read a design, and simulate it.
    Sim(Target, Options),
}

/// A design: a file, and a class of it at the values of parameters.
#[derive(Drop)]
pub struct Target {
    /// The name of the file.
    pub file: Text,
    /// The name of the top class.
    pub class: Text,
    /// The parameters that are given, in the order of the words.
    pub params: List<Param>,
}

/// How a design is simulated.
#[derive(Drop)]
pub struct Options {
    /// The name of the order file, if there is one.
    pub order: Option<Text>,
    /// How many reset cycles come first: 0 to 1,000.
    pub reset: u32,
}
