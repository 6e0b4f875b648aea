//! Tests of `pm_syn`, `pm_grammar` and `pm_parse` that no row of text can make: lines that `lex` never gives, and bodies
//! about as deep as a file can nest them. The rows of texts are those of the program `read_texts`.
#![tactic(auto)]

#[cfg(test)]
mod bodies;
#[cfg(test)]
mod columns;
#[cfg(test)]
mod unclosed_brackets;
