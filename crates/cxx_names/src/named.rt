//! The types that names mean (7.1.3).

ghost use Rattle.std.specs.Prelude.{◌≡◌, ◌<◌, [], ◌∷◌, length, option_map, IfSome};
ghost use Rattle.cxx_model.specs.Facts.Declarations.{declares_at, graph_at};
ghost use Rattle.cxx_model.specs.Facts.Fitted.{IsEntityBelow, IsGraphBelow};
ghost use Rattle.cxx_types.specs.Makes.{Makes};
ghost use Rattle.cxx_reading.specs.Seen.{fact_numbers, numbered_at, type_in as type_in_all, type_named_by};
ghost use Rattle.cxx_names.specs.Looked.{looked_up};
ghost use Rattle.cxx_names.specs.Meant.{IsNamedBelow, first_named, named_at, or_void};

use crate::looked::fact_of;
use cxx_graph::Graph;
use cxx_model::{Base, ClassId, Entity, EnumId, FactId, OutOfMemory, TypeId};
use cxx_types::TypeTable;

/// A type that a declaration names.
#[derive(Clone, Copy)]
pub(crate) enum NamedType {
    Class(ClassId),
    Enumeration(EnumId),
    Other(TypeId),
}

fn type_named(types: &TypeTable, what: Entity) -> Option<NamedType>
    requires { IsEntityBelow (length types.now) what }
    ensures is { option_map (named_at types.now) result ≡ type_named_by (declares_at types.now what) }
    ensures below { IfSome result (IsNamedBelow (length types.now)) }
{
    let _ = types;
    match what {
        Entity::Injected { class } => Some(NamedType::Class(class)),
        Entity::Class { class, .. } => Some(NamedType::Class(class)),
        Entity::Enumeration { number } => Some(NamedType::Enumeration(number)),
        Entity::Synonym { of } => Some(NamedType::Other(of)),
        _ => None,
    }
}

#[tactic(auto, using(crate::proofs::Clashing::fact_below, crate::proofs::Looking::named_alone))]
fn type_named_at(graph: &Graph, types: &TypeTable, number: FactId) -> Option<NamedType>
    requires { IsGraphBelow (length types.now) graph.now }
    ensures is { option_map (named_at types.now) result ≡ first_named (looked_up types.now graph.now.facts (number ∷ [])) }
    ensures below { IfSome result (IsNamedBelow (length types.now)) }
{
    match fact_of(graph, number) {
        Some(fact) => type_named(types, fact.what),
        None => None,
    }
}

// The first type that some declarations name.
#[tactic(auto, using(crate::proofs::Looking::named_more))]
fn first_type(graph: &Graph, types: &TypeTable, numbers: &[FactId]) -> Option<NamedType>
    requires { IsGraphBelow (length types.now) graph.now }
    ensures is { option_map (named_at types.now) result ≡ first_named (looked_up types.now graph.now.facts numbers.now) }
    ensures below { IfSome result (IsNamedBelow (length types.now)) }
{
    for number in numbers {
        if let Some(named) = type_named_at(graph, types, *number) {
            return Some(named);
        }
    }
    None
}

fn make(types: &mut TypeTable, named: Option<NamedType>) -> Result<TypeId, OutOfMemory>
    requires { IfSome named (IsNamedBelow (length types.old)) }
    ensures { Makes types.old types.new result (or_void (option_map (named_at types.old) named)) }
{
    match named {
        Some(NamedType::Class(class)) => types.class(class),
        Some(NamedType::Enumeration(number)) => types.enumeration(number),
        Some(NamedType::Other(of)) => Ok(of),
        None => types.plain(Base::Void),
    }
}

/// The type that declarations that were found name; `void` where they name none.
#[tactic(auto, using(crate::proofs::Looking::type_numbered))]
pub fn type_in(
    graph: &Graph,
    types: &mut TypeTable,
    numbers: &[FactId],
) -> Result<TypeId, OutOfMemory>
    requires { IsGraphBelow (length types.old) graph.now }
    ensures { Makes types.old types.new result (type_in_all (numbered_at (graph_at types.old graph.now) (fact_numbers numbers.now))) }
{
    let named = first_type(graph, types, numbers);
    make(types, named)
}
