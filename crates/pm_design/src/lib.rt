//! The types of an elaborated design.
//!
//! A design is a list of kinds of component. Each kind has signals, states, children, connections, methods, update
//! blocks and constraints. Bodies of blocks and methods are typed and have no loops. Kinds, signals and the like refer
//! to one another by their index in the design's lists, counted from 0. Everything here is plain data: elaboration
//! makes it, and later passes read it.
#![tactic(auto)]

mod body;
mod connection;
mod design;
pub mod laws;
mod plan;
mod signal;

pub use body::{Block, BlockSort, Ex, Method, Side, St};
pub use connection::{Bind, Callee, Caller, Join, Part, Rule, Term, Tie};
pub use design::{Child, Design, Kind, State};
pub use plan::{Edges, Flat, FlatPart, Instance, Nets, Plan, Row};
pub use signal::{Field, Role, Shape, Signal};
