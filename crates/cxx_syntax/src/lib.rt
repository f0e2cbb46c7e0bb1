//! Readers of declarations: specifiers and declarators, over any user that says what a name is.
#![tactic(auto)]

mod cv;
mod declarators;
mod defaults;
mod kinds;
mod layers;
mod nested;
mod parameters;
mod reader;
mod shapes;
mod steps;
mod trees;

pub use defaults::Defaults;
pub use kinds::Kinds;
pub use layers::{declared, declared_member, declared_parameter, is_declared_void, refused};
pub use nested::Nested;
pub use parameters::specified;
pub use reader::Reader;
pub use shapes::brackets_passed;
pub use steps::{class_key, has_type};
