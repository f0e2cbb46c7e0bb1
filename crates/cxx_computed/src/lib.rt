//! The values of constant expressions (5.19).
#![tactic(auto)]

mod constants;
mod formulas;
mod integers;
pub mod laws;
mod operators;
mod values;

pub use constants::{binary_operator, unary_operator};
pub use formulas::{ComputeStop, computed};
pub use integers::{converted_value, holds};
pub use operators::{BinaryOperator, UnaryOperator, ValueFault};
pub use values::{binary_value, unary_value};
