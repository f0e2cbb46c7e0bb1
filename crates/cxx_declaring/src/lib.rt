//! The declarations of a unit, as the readers of specifiers and declarators ask for them.
#![tactic(auto)]

mod declares;
mod declaring;
mod phrases;

pub use declaring::Declaring;
