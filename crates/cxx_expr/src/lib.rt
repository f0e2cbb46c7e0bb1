//! What one expression means whose parts were read (clause 5), and how objects are initialized (8.5): the definitions, and
//! the code for literals, operators, casts, sizes and conversions.
#![tactic(auto)]

mod bases;
mod casts;
pub mod conditional;
pub mod converting;
mod copies;
pub mod faults;
mod literals;
pub mod nodes;
pub mod operands;
pub mod operators;
pub mod production;
mod questions;
mod sizes;
mod statics;

pub use bases::one_base;
pub use casts::{cast, functional};
pub use converting::convert;
pub use copies::{node_of, node_over};
pub use literals::literal;
pub use operators::{binary, prefix, step, subscript};
pub use questions::{Chosen, Questions};
pub use sizes::size;
pub use statics::{class_of_scope, is_function_at, static_class};
