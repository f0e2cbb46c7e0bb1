//! What names mean as members of classes, over the index of names and the bases of a class, so that no lookup goes over the
//! whole unit (10.2).
#![tactic(auto)]

mod bases;
mod declared;
mod lookup;
mod paths;
mod rows;
mod seeking;
mod table;
mod ways;

pub use cxx_members::Wanted;
pub use cxx_model::{Hit, MemberFound};
pub use lookup::member;
