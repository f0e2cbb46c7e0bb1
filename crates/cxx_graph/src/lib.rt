//! The facts of a unit in their order, the classes that were reserved for them, and the templates.
#![tactic(auto)]

mod graph;
mod kept;
pub mod laws;
mod pending;
mod promotion;
mod rows;

pub use cxx_model::Specialisation;
pub use graph::{AddFault, Graph};
