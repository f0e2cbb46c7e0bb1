//! Strings side by side, which are one string (2.1, 2.13.4).
//!
//! The text of such strings has white space, comments and marker lines between them. `side_by_side` writes the strings
//! alone, with one space between two of them.
#![tactic(auto)]

mod blanks;
mod bytes;
mod join;
mod laws;
mod piece;
mod string;

pub use join::side_by_side;
pub use laws::{each_string_is_counted, one_string_stays, spaced_once};
