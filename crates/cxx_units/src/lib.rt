//! What the reading of a unit is made of (3.5, clause 7): what specifiers say, what fits and ends declarators, specifications
//! of linkage, the trees of declarations, and the state before them and behind them.
#![tactic(auto)]

mod declarators;
pub mod ends;
pub mod linkage;
pub mod said;
pub mod trees;
pub mod types;
mod unit;

pub use declarators::{declarator_ended, declared_fits, no_declarators, place_of_name};
pub use trees::declaration_tree;
pub use unit::{begun, first_place, part_added, whole};
