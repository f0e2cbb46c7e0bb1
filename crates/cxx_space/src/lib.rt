//! The declarations of namespaces, and with them those of a unit (3.5, clause 7), and the definitions of classes (clause 9):
//! the reader of such declarations stands over anyone who reads what they are made of as the definitions say.
#![tactic(auto)]

mod bases;
mod bodies;
mod classes;
mod declarations;
mod declarators;
mod friends;
mod functions;
mod later;
mod members;
mod namespaces;
mod space;
mod unit;

pub use space::Defines;
pub use unit::read_unit;
