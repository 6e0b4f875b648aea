//! Laws of elaboration, in a reader's words.
//!
//! The definitions of `pm_elab` say what each expression, statement and class does; the crates above answer exactly them.
//! The laws here say what follows for every file: what was made is kept, steps are bounded, a component class at equal
//! values is one kind, and what every kind of a design has. The crate has no code. `proofs/Keeping.antt` says which rules
//! a law owes, and `proofs/Operators.antt` to `proofs/Files.antt` carry any such facts through all definitions.
#![tactic(auto)]

pub mod laws;
