//! Which declarations in blocks declare members of namespaces (3.5), by those and by their names.
#![tactic(auto)]

mod linkages;

pub use linkages::Linkages;
