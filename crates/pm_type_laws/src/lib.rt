//! Laws of typing, in a reader's words.
//!
//! The definitions of `pm_typing` say what each expression of a body gives; `pm_type_expr` answers exactly them. The law
//! here says what follows where a body's component is as elaboration makes it: `specs/Good.antt` says what that asks of
//! values, and `specs/Views.antt` what a body may name. The crate has no code. `proofs/Yields.antt` carries properties
//! through computations, and `proofs/Values.antt` to `proofs/Expressions.antt` go through the definitions in their order.
#![tactic(auto)]

pub mod laws;
