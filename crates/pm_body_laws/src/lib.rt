//! Laws of the typing of bodies.
#![tactic(auto)]

pub mod laws;
