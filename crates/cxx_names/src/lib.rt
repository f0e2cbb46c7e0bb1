//! The declarations of a unit by scope and name, so that no lookup goes over all of them (3.3, 3.4.1).
#![tactic(auto)]

mod alike;
mod clash;
mod entry;
mod filed;
mod found;
mod kept;
mod looked;
mod meant;
mod named;
mod names;
mod opened;
mod other;
mod pair;
mod role;
mod spaces;
mod words;

pub use alike::{agree, is_incomplete};
pub use entry::declares_name;
pub use found::{
    first_class, first_enumeration, first_function, first_object, first_space, kind_of_found,
};
pub use looked::NamedClass;
pub use named::type_in;
pub use names::Names;
pub use other::has_name;
pub use words::{MetWord, Words};
