//! What the operators do with operands that are of no class (clause 5).
#![tactic(auto)]

mod answer;
mod arithmetic;
mod binary;
mod compound;
mod conditional;
pub mod laws;
mod making;
mod operand;
mod plan;
mod pointers;
mod result;
mod unary;

pub use answer::{ResultFault, built_in_result, conditional_result};
pub use arithmetic::{integer_of, integral_promoted, usual};
pub use cxx_model::BuiltIn;
pub use making::leveled;
pub use operand::operand_kind;
