//! Which definition of an object, a function, a template or a class stands first (3.2).
#![tactic(auto)]

mod defined;

pub use defined::Definitions;
