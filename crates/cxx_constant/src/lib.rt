//! The values of integral constant expressions, over the trees of a reading (5.19).
#![tactic(auto)]

mod expression;
mod fault;
mod form;
mod forms;
mod known;
pub mod laws;
mod missing;
mod names;
mod operands;
mod operators;
mod production;
mod values;

pub use expression::constant;
pub use fault::ConstantFault;
pub use names::value_of_name;
