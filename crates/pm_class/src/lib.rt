//! The parts of elaboration that evaluate no expression.
//!
//! A class is found by its name, and its arguments are tested against the parameters of its `construct`. A component is
//! made once for equal arguments, and its kind is kept behind those that were made before. Bitstructs take their fields,
//! parameters from the command line become arguments, and at the end what was made becomes a design. What each function
//! does is a definition of `pm_elab`.
#![tactic(auto)]

mod arguments;
mod bitstruct;
mod class;
mod construct;
mod design;
mod equality;
mod file;
mod kind;
mod members;
mod moving;
mod number;
mod parameter;
mod start;

pub use arguments::{
    are_fitting, are_plain, clean, fitted, is_filled, leading, leading_values, name_parameters,
};
pub use bitstruct::{field_added, field_put, has_field, shape_put};
pub use class::{Class, class_named, class_of_line};
pub use construct::{construct_in, construct_of_line};
pub use design::design_of;
pub use equality::{same, same_arguments};
pub use file::{has_class, is_class, name_of};
pub use kind::{is_kind_of, keep, kind_made};
pub use members::members_of;
pub use parameter::{arguments_of, gives, has_parameter, known_from, none_missing, value_of};
pub use start::{component_start, interface_start, locals_from};
