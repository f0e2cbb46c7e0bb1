//! The declarations of a name in a scope, the entities that they name, and the members of a class and its bases (3.3, 7.3.3,
//! 10.2).
#![tactic(auto)]

mod entities;
mod index;
pub mod laws;
mod lists;
mod looking;
mod lookups;
mod member;
mod members;
mod sightings;
mod table;
mod wanted;
mod ways;

pub use cxx_model::{Hit, MemberFound};
pub use index::{MemberIndex, Noted};
pub use lists::holds_scope;
pub use looking::Looking;
pub use sightings::{Sighting, Sought};
pub use wanted::Wanted;
