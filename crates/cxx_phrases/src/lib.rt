//! How expressions and initializers are read from tokens (5, 8.5), over any user that says what they mean.
#![tactic(auto)]

mod arguments;
mod brackets;
mod forms;
mod initializer;
mod initializers;
mod level;
mod levels;
mod lists;
mod names;
mod operands;
mod operators;
mod phrases;
mod primary;
mod production;
mod shape;

pub use initializer::Initializer;
pub use initializers::{read_expression, read_initializer, read_sized};
pub use level::Level;
pub use phrases::Phrases;
pub use shape::TypeShape;
