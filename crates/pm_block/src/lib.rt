//! The run of a body: what one update block of a plan does to the values of its places.
//!
//! [`run_body`] runs a block once, on anything that implements [`Places`], such as [`Values`], the values of all nets and
//! states of a plan. Its contract gives the values that it leaves by one definition over functions, which takes the naming
//! of bits as a parameter. [`Temps`] is the room for temporaries and for assignments that wait for the end of a block, made
//! once; a run takes no memory. [`Steps`] counts the steps, at most one for each node of the body.
//!
//! A caller that runs several blocks at one clock edge uses the parts: [`run_all`] for each body, and then [`settle`] once.
//! The laws in [`laws`] say what the definitions mean. Bodies with states or methods aren't run yet.
#![tactic(auto)]

mod block_run;
mod first;
pub mod laws;
mod lookup;
mod most;
mod object;
mod places;
mod run;
mod site;
mod steps;
mod tables;
mod temps;
mod value;
mod values;
mod waiting;

pub use block_run::{Run, run_body};
pub use places::Places;
pub use run::{run_all, run_one, settle};
pub use site::Site;
pub use steps::Steps;
pub use temps::Temps;
pub use value::value_of;
pub use values::Values;
pub use waiting::{Waiting, Write};
