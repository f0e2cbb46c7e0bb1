//! Names (5.1), calls (5.2.2) and members (5.2.5) as expressions.
#![tactic(auto)]

mod bases;
mod calls;
mod classes;
mod facts;
mod implied;
mod members;
mod names;
mod signatures;

pub use calls::call;
pub use implied::name;
pub use members::{arrow, selected};
