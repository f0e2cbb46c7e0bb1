//! Casts (5.2.9 to 5.2.11, 5.4): which are allowed, where no function of a class is called.
#![tactic(auto)]

mod explicit;
pub mod laws;
mod middle;
mod named;
mod pointers;
mod words;

pub use explicit::{CastSteps, cast};
pub use named::{const_cast, reinterpret_cast, static_cast};
