//! The object for which a function of a class is called, inside its body (9.3.2).
#![tactic(auto)]

mod this;

pub use this::this_object;
