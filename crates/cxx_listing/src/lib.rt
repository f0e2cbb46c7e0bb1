//! The calls of a reading: each with the candidate that it means, and why every other one is not meant.
#![tactic(auto)]

mod laws;
mod lines;
mod text;

pub use laws::calls_are_listed;
pub use text::calls_text;
