//! Laws of what elaboration makes for the bodies of a design, in a reader's words.
//!
//! `pm_type_laws` proves that typing gives sound expressions where what a body meets is as `IsMade` says. The laws here
//! say that it is so in every design that `build` gives. The crate has no code. Its laws rest on the walk of
//! `pm_elab_laws` over the definition of elaboration.
#![tactic(auto)]

pub mod laws;
