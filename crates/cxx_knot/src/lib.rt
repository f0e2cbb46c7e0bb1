//! The readers of declarations and those of expressions inside one another: bounds, the values of enumerators and default
//! arguments are expressions, and casts and sizes have types. A statement is told by what stands ahead.
#![tactic(auto)]

mod asking;
mod behind;
mod knot;
mod types;
mod values;

pub use asking::Asking;
pub use knot::{
    condition_ahead, head_ahead, read_declarator, read_initializer, read_phrase, read_specifiers,
};
