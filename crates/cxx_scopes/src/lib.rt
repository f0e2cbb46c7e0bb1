//! What a name means where it stands: unqualified, qualified and member lookup (3.4, 7.3, 10.2).
#![tactic(auto)]

mod directives;
mod index;
pub mod laws;
mod lists;
mod lookups;
mod ordinary;
mod qualified;

pub use cxx_members::Wanted;
pub use cxx_model::{Found, Hit, MemberFound};
pub use index::ScopeIndex;
