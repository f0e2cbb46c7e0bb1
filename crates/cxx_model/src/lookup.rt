//! What lookups find (3.4, 10.2).

use crate::listed::{Listed, NumberList};
use crate::types::{ClassId, FactId, FactList};

/// A declaration, and the positions of the bases that lead to its class, from 1.
#[derive(Drop)]
pub struct Hit {
    pub fact: FactId,
    pub path: NumberList,
}

/// What the lookup of a member finds (10.2).
#[derive(Drop)]
pub enum MemberFound {
    /// The first facts of the entities, ascending, and the least path to them.
    Set(FactList, NumberList),
    /// Two declarations, or two ways to one, of which none hides the other.
    Ambiguous(Hit, Hit),
    Empty,
}

/// What an unqualified or a qualified lookup finds (3.4.1, 3.4.3.2).
#[derive(Drop)]
pub enum Found {
    /// The first facts of the entities, ascending.
    Set(FactList),
    /// A member of the class whose scope declares the name.
    Member(ClassId, MemberFound),
    /// Two different entities that are not both functions.
    Ambiguous(FactId, FactId),
    Empty,
}

/// The classes and namespaces that argument-dependent lookup asks (3.4.2).
#[derive(Drop)]
pub struct Associated {
    pub classes: NumberList,
    pub spaces: NumberList,
}
