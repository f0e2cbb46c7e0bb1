//! What the words of a command line say.
#![tactic(auto)]

mod depth;
mod job;
mod reader;
mod words;

pub use job::{DEFAULT_DEPTH, Job, MOST_DEPTH, Mode};
pub use words::read_words;
