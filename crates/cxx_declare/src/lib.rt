//! How names are declared in the state of a reading, and what is asked of its declarations (3.3, 3.4, 3.5, 7.2, 8.3).
#![tactic(auto)]

mod again;
mod asks;
mod bases;
mod bodies;
mod class_definitions;
mod classes;
mod conflict;
mod enumerations;
mod facts;
mod friends;
mod functions;
mod linking;
mod member_usings;
mod members;
mod objects;
mod outside;
mod outside_classes;
mod parts;
mod spaces;
mod usings;
mod values;

pub use again::declare_again;
pub use asks::{elaborated, kind, kind_of_name, type_named, type_of_name};
pub use bases::{BaseOf, declare_base};
pub use bodies::{begin_body, end_body};
pub use class_definitions::{MemberWords, begin_class, begin_unnamed, declare_member, end_class};
pub use classes::class_here;
pub use enumerations::{declare_enumeration, declare_enumerator, end_enumeration};
pub use friends::{befriend_again, befriend_class, befriend_function};
pub use functions::declare_function;
pub use member_usings::bring_member;
pub use objects::{
    declare_linked_object, declare_object, declare_parameter, declare_synonym, define_declared,
    define_object,
};
pub use outside::{agree_here, enter_member, stand_in};
pub use outside_classes::enter_class;
pub use spaces::{
    close_space, declare_alias, declare_directive, open_space, open_unnamed, space_here,
};
pub use usings::bring_here;
