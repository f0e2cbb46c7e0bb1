//! What printed names begin with: the stem of a name, whatever kind of name it is.
#![tactic(auto)]

mod names;
mod of_name;
mod operators;

pub use names::stem;
pub use of_name::stem_of_name;
pub use operators::WORDS;
