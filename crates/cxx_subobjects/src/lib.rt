//! The base class subobjects of a class (10.1, 10.2).
#![tactic(auto)]

mod bases;
mod direct;
pub mod laws;
mod reached;
mod steps;
mod table;

pub use bases::{Subobjects, base_subobjects};
