//! The members that a class declares by itself at its end (12.1, 12.8): the default constructor, the copy constructor and
//! the copy assignment operator.
#![tactic(auto)]

mod deciding;
mod index;
mod kinds;
mod making;
mod passing;
mod rows;
mod specials;

pub use deciding::Implied;
pub use index::SpecialMembers;
pub use making::implicit_members;
