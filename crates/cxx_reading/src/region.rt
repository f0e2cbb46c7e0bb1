use cxx_model::{ClassId, ScopeId};

/// Where a name is looked up.
#[derive(Clone, Copy)]
pub enum Region {
    /// From a scope outward (3.4.1).
    Outward(ScopeId),
    /// In a namespace that qualifies it, and those that its directives reach (3.4.3.2).
    Inside(ScopeId),
    /// Among the members of a class that qualifies it, and of its bases (3.4.3.1).
    Class(ClassId),
}
