//! How a statement begins: a declaration is told from an expression (6.8), in a condition too (6.4).
#![tactic(auto)]

mod conditions;
mod head;
mod heads;
mod names;
mod shape;
mod suffixes;

pub use conditions::is_declared_condition;
pub use head::Head;
pub use heads::{head_at, is_declaration};
pub use shape::Shape;
