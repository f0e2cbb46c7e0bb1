//! How objects are initialized that are of no class (8.5).
#![tactic(auto)]

mod bounds;
mod elements;
mod strings;
mod values;
mod whole;
mod written;

pub use whole::initialize;
