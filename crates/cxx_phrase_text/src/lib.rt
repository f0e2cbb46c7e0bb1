//! Expressions and initializers in the plain form.
//!
//! A tree is written as the definition of its words has it: each conversion as a cast, parentheses round those operands
//! alone that want them, and each name by the number that it has in the text.
#![tactic(auto)]

mod calls;
mod expressions;
mod form;
mod initializers;
mod laws;
mod lists;
mod members;
mod names;
mod operands;
mod operators;
mod production;
mod standing;
mod words;

pub use calls::{ListedCall, add_calls};
pub use expressions::write_expression;
pub use initializers::write_initializer;
pub use laws::operands_stand_apart;
pub use names::Names;
