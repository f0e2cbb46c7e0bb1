//! What names, conversions and operators mean: the definitions, in `specs/`, and plain types that they share with the
//! code above.
//!
//! They speak of a graph of declarations with types as trees, and of nothing of the code. The crates above are proved
//! equal to them.
#![tactic(auto)]

mod operator;
mod size;
mod steps;

pub use operator::{BinaryFamily, UnaryFamily};
pub use size::{Extent, Layout, SizeReason};
pub use steps::SequenceSteps;
