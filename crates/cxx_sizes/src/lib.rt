//! Sizes of types (5.3.3), by the layouts of classes (9.2, 10).
#![tactic(auto)]

mod arithmetic;
mod classes;
mod extents;
mod layouts;

pub use layouts::{Layouts, SizeFault};
