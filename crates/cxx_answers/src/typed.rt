//! The type of an object, by its declarations so far (3.5, 8.3.4).

ghost use Rattle.std.specs.Prelude.{◌≡◌, ◌<◌, length, List};
ghost use Rattle.std.specs.List.{slice_get};
ghost use Rattle.std.specs.Option.{option_copied};
ghost use Rattle.cxx_answers.specs.Typed as definition;
ghost use Rattle.cxx_answers.specs.Typed.{first_of, first_said, typed, typed_bounded};
ghost use Rattle.cxx_model.specs.Facts.Declarations.{declares_at, facts_at, type_of_option};
ghost use Rattle.cxx_model.specs.Facts.Entities.{first_or as first_number_or, has_no_bound as has_no_bound_by, object_type as object_type_by};
ghost use Rattle.cxx_model.specs.Facts.Fitted.{Fitted, IsEntityBelow, IsTypeNumberBelow};
ghost use Rattle.cxx_model.specs.Types.Numbers.{type_at};
ghost use Rattle.cxx_model.specs.Types.Trees.{CxxType};
ghost use Rattle.cxx_tree.specs.Held.{meaning, type_of};

use cxx_graph::Graph;
use cxx_model::{Bound, Entity, Fact, FactId, TypeId, TypeNode};
use cxx_tree::State;
use cxx_types::TypeTable;

/// The first declaration of an entity.
pub(crate) fn first_or(number: FactId, first: Option<FactId>) -> FactId
    ensures { result.0 ≡ first_number_or number.0 first }
{
    match first {
        Some(first) => first,
        None => number,
    }
}

// The first declaration of what a fact with a number declares, where that is an object.
fn first_declared(number: FactId, what: Entity) -> FactId
    ensures { (types : List CxxType) → result.0 ≡ first_of number.0 (declares_at types what) }
{
    match what {
        Entity::Object { first, .. } => first_or(number, first),
        _ => number,
    }
}

/// The fact with a number, where it is there.
pub fn fact_of(graph: &Graph, number: FactId) -> Option<&Fact>
    ensures { option_copied result ≡ slice_get graph.now.facts number.0 }
{
    graph.facts().get(number.0 as usize)
}

/// The first declaration of the object that a fact with a number declares (3.5).
#[tactic(auto, using(crate::proofs::Typing::entity_is))]
pub fn entity_number(state: &State, number: FactId) -> FactId
    ensures { result.0 ≡ definition.entity_number (meaning state.now) number.0 }
{
    match fact_of(state.graph(), number) {
        None => number,
        Some(fact) => first_declared(number, fact.what),
    }
}

// The type that a declaration gives to an object.
fn type_given(types: &TypeTable, entity: FactId, number: FactId, what: Entity) -> Option<TypeId>
    requires { IsEntityBelow (length types.now) what }
    ensures is { type_of_option types.now result ≡ typed entity.0 number.0 (declares_at types.now what) }
    ensures below { IsTypeNumberBelow (length types.now) result }
{
    let _ = types;
    match what {
        Entity::Object { of, first, .. } => {
            if first_or(number, first).0 == entity.0 {
                Some(of)
            } else {
                None
            }
        }
        _ => None,
    }
}

// An array whose bound is not written.
fn has_no_bound(types: &TypeTable, number: TypeId) -> bool
    requires { number.0 < length types.now }
    ensures { result ≡ has_no_bound_by (type_at types.now number.0) }
{
    match types.node(number) {
        TypeNode::Array(_, Bound::Unknown) => true,
        _ => false,
    }
}

// The type that a declaration gives to an object, where it is no array without a bound.
fn type_bounded(types: &TypeTable, entity: FactId, number: FactId, what: Entity) -> Option<TypeId>
    requires { IsEntityBelow (length types.now) what }
    ensures is { type_of_option types.now result ≡ typed_bounded entity.0 number.0 (declares_at types.now what) }
    ensures below { IsTypeNumberBelow (length types.now) result }
{
    match type_given(types, entity, number, what) {
        None => None,
        Some(of) => {
            if has_no_bound(types, of) {
                None
            } else {
                Some(of)
            }
        }
    }
}

// The type in the first declaration of an object. None of those before it declares the object.
#[tactic(auto, using(crate::proofs::Typing::typed_skipped))]
fn first_type(graph: &Graph, types: &TypeTable, entity: FactId) -> Option<TypeId>
    requires { Fitted graph.now types.now }
    ensures is { type_of_option types.now result ≡ first_said (typed entity.0) 0 (facts_at types.now graph.now.facts) }
    ensures below { IsTypeNumberBelow (length types.now) result }
{
    let facts = graph.facts();
    for number in entity.0..graph.length() {
        let fact = &facts[number as usize];
        if let Some(of) = type_given(types, entity, FactId(number), fact.what) {
            return Some(of);
        }
    }
    None
}

// The first type of an object that has a bound where it is one of an array.
#[tactic(auto, using(crate::proofs::Typing::bounded_skipped))]
fn first_bounded(graph: &Graph, types: &TypeTable, entity: FactId) -> Option<TypeId>
    requires { Fitted graph.now types.now }
    ensures is { type_of_option types.now result ≡ first_said (typed_bounded entity.0) 0 (facts_at types.now graph.now.facts) }
    ensures below { IsTypeNumberBelow (length types.now) result }
{
    let facts = graph.facts();
    for number in entity.0..graph.length() {
        let fact = &facts[number as usize];
        if let Some(of) = type_bounded(types, entity, FactId(number), fact.what) {
            return Some(of);
        }
    }
    None
}

/// The type of an object, by the number of its first declaration (3.5, 8.3.4).
#[tactic(auto, using(crate::proofs::Typing::object_type_is))]
pub fn object_type(graph: &Graph, types: &TypeTable, entity: FactId) -> Option<TypeId>
    requires { Fitted graph.now types.now }
    ensures is { type_of_option types.now result ≡ object_type_by (facts_at types.now graph.now.facts) entity.0 (length (facts_at types.now graph.now.facts)) }
    ensures below { IsTypeNumberBelow (length types.now) result }
{
    match first_bounded(graph, types, entity) {
        Some(of) => Some(of),
        None => first_type(graph, types, entity),
    }
}

/// The type of the object that a fact with a number declares, with the bound that any of its declarations gives; or else
/// another type (3.5, 8.3.4).
#[tactic(auto, unfolding(cxx_tree::specs::Held::meaning))]
pub fn type_so_far(state: &State, number: FactId, of: TypeId) -> TypeId
    requires { of.0 < length (state.now).types }
    ensures is { type_of state.now result ≡ definition.type_so_far (meaning state.now) number.0 (type_of state.now of) }
    ensures known { result.0 < length (state.now).types }
{
    match object_type(state.graph(), state.types(), entity_number(state, number)) {
        Some(known) => known,
        None => of,
    }
}
