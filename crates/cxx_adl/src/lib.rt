//! Argument-dependent lookup (3.4.2).
#![tactic(auto)]

mod adl;
mod asking;
mod declared;
mod facts;
mod functions;
pub mod laws;
mod names;
mod numbers;
mod parts;
mod scopes;
mod sets;

pub use adl::adl_set;
pub use cxx_model::Associated;
pub use numbers::add_option;
pub use parts::{Part, reached};
pub use sets::associated;
