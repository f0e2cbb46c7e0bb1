//! A table that gives each type a number: two numbers are the same exactly where the types are.
#![tactic(auto)]

mod form;
mod intern;
pub mod laws;
mod similar;
mod table;
mod tree;

pub use cxx_model::TypeNode;
pub use table::TypeTable;
