//! Candidates for the built-in operators (13.6).
#![tactic(auto)]

mod adding;
mod answer;
mod conversions;
mod letters;
mod making;
mod operators;
mod shapes;

pub use answer::built_in_candidates;
