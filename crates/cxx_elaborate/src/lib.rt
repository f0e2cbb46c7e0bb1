//! What one expression means whose parts were read (clause 5): that of its production.
#![tactic(auto)]

mod asking;
mod brackets;
mod elaborating;
mod open;
mod this;

pub use asking::whole;
pub use elaborating::elaborate;
