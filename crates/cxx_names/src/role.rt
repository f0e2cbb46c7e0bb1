//! What the test for conflicts sees of a declaration (3.3, 7.3.3, 13.1), so that one stands for all that it sees alike.

ghost use Rattle.std.specs.Prelude.{◌≡◌};
ghost use Rattle.cxx_names.specs.Roles.{has_role as has_the_role, role_by, role_in, same_role as same_role_of};

use crate::looked::fact_of;
use crate::meant::first_of;
use cxx_graph::Graph;
use cxx_model::{ClassId, Entity, EnumId, FactId, MemberKind, ScopeId, TypeId};

/// What the test for conflicts sees of a declaration that is no member of a class, beside its name and its scope.
#[derive(Clone, Copy, PartialEq, Eq)]
pub(crate) enum Role {
    Object { of: TypeId, first: FactId },
    Function { of: TypeId, first: FactId },
    Class { class: ClassId, is_union: bool },
    Enumeration { number: EnumId },
    Synonym { of: TypeId },
    Namespace { inner: ScopeId },
    Using { target: FactId },
}

/// The role of a declaration with a number, where it has one.
pub(crate) fn role_of(number: FactId, what: Entity) -> Option<Role>
    ensures { result ≡ role_by number.0 what }
{
    match what {
        Entity::Object {
            of,
            member: MemberKind::Free,
            first,
            ..
        } => Some(Role::Object {
            of,
            first: first_of(number, first),
        }),
        Entity::Function {
            of,
            member: MemberKind::Free,
            first,
            ..
        } => Some(Role::Function {
            of,
            first: first_of(number, first),
        }),
        Entity::Class { class, is_union } => Some(Role::Class { class, is_union }),
        Entity::Enumeration { number } => Some(Role::Enumeration { number }),
        Entity::Synonym { of } => Some(Role::Synonym { of }),
        Entity::Namespace { inner } => Some(Role::Namespace { inner }),
        Entity::Using { target } => Some(Role::Using { target }),
        _ => None,
    }
}

fn role_at(graph: &Graph, number: FactId) -> Option<Role>
    ensures { result ≡ role_in graph.now.facts number }
{
    match fact_of(graph, number) {
        Some(fact) => role_of(number, fact.what),
        None => None,
    }
}

// Whether two declarations have one role.
fn same_role(one: Option<Role>, two: Option<Role>) -> bool
    ensures { result ≡ same_role_of one two }
{
    match one {
        Some(one) => match two {
            Some(two) => one == two,
            None => false,
        },
        None => false,
    }
}

/// Whether one of some declarations has a role.
pub(crate) fn has_role(graph: &Graph, numbers: &[FactId], role: Option<Role>) -> bool
    ensures { result ≡ has_the_role graph.now.facts numbers.now role }
{
    for number in numbers {
        if same_role(role_at(graph, *number), role) {
            return true;
        }
    }
    false
}
