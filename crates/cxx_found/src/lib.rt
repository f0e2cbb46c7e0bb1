//! What names mean among all that is declared so far, over the index of names (3.4.1, 3.4.2, 3.4.3.2, 7.3.3, 7.3.4).
#![tactic(auto)]

mod again;
mod associated;
mod entities;
mod here;
mod lookups;
mod nearest;
mod nowhere;
mod outward;
mod qualified;
mod seeking;
mod sets;
mod shown;

pub use cxx_members::Wanted;
pub use cxx_model::Found;
pub use lookups::{brought, found, found_by_types, found_types, kind, qualified_in, sought};
