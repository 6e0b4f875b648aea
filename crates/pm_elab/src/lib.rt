//! What elaboration is: the types of a run of `construct`, and the definitions that contracts cite.
//!
//! Elaboration runs the `construct` of a component class and of all classes that it makes. The definitions say what each
//! expression and each statement does: `specs/` has them in the order of a reading, from names and values to kinds and
//! files. A step is a computation on an `Elaboration`, which counts the steps and holds the bitstructs and the kinds that
//! were made so far; it gives a result or the first fault. The crates above have the code, one for each part.
#![tactic(auto)]

mod body;
mod call;
mod class;
mod elaboration;
mod frame;
mod function;
mod given;
mod member;
mod parameter;
mod site;
mod sort;
mod state;
mod statement;
mod target;

pub use body::{Argument, BodyPlace, Code, MethodTypes, RawBody};
pub use call::{Called, Given};
pub use class::{Construct, ConstructedClass};
pub use elaboration::{
    Elaboration, MAX_INSTANCES, MAX_NESTING, MAX_STEPS, MadeKind, RawDesign, RawKind,
};
pub use frame::{Frame, Local};
pub use function::Function;
pub use given::{are_unnamed, value_named};
pub use member::{kind_of_child, member_named};
pub use parameter::{Param, ParamValue};
pub use site::{FileScope, Site, Turn};
pub use sort::{
    bits_of_width, constant, constant_of, int, is_attribute, is_element, is_member, is_plain,
    is_settled, item, list, literal_constant, signal_type, type_in,
};
pub use state::Start;
pub use statement::Before;
pub use target::Target;
