//! Statements (clause 6), read over anyone who reads their expressions and declarations.
#![tactic(auto)]

mod around;
mod behind;
mod conditions;
mod knot;
mod labels;
mod loop_parts;
mod making;
mod parts;
mod production;
mod reader;
mod simple;
mod tests;
mod values;
mod within;

pub use knot::read_body;
pub use parts::{Head, Parts, Purpose, Target};
