//! What the declarations that a name has are.

ghost use Rattle.std.specs.Prelude.{ℕ, List, ◌≡◌, ◌<◌, ◌++◌, ◌∷◌, [], length, Some, OnOk, IfOk};
ghost use Rattle.std.specs.List.{slice_get};
ghost use Rattle.std.specs.Option.{option_copied};
ghost use Rattle.cxx_meaning.specs.Lookups.Wanted as wanted;
ghost use Rattle.cxx_model.specs.Facts.Declarations.{declares_at, fact_at as fact_of_types, graph_at, name_at, type_of_option};
ghost use Rattle.cxx_model.specs.Facts.Entities as entities;
ghost use Rattle.cxx_model.specs.Facts.Fitted.{IsEntityBelow, IsFactBelow, IsNameBelow, IsTypeNumberBelow};
ghost use Rattle.cxx_model.specs.Types.Numbers.{type_at};
ghost use Rattle.cxx_model.specs.Types.Trees.{CxxType};
ghost use Rattle.cxx_reading.specs.Seen.{declared_in as declared_by};
ghost use Rattle.cxx_tree.specs.Held.{meaning, type_of};
ghost use Rattle.cxx_expr.specs.Names as definition;
ghost use Rattle.cxx_expr.specs.Views.{AreFactsKnown, numbered};
ghost use Rattle.cxx_called.specs.Views.{IsOfThere, named_of};

use cxx_expr::operands::referred;
use cxx_graph::Graph;
use cxx_model::{
    Bound, Entity, Fact, FactId, FactList, Listed, Name, Pattern, Place, ScopeId, TemplateId,
    TypeId, TypeNode,
};
use cxx_names::has_name;
use cxx_tree::State;
use cxx_types::TypeTable;
use std::alloc::{AllocError, Global};

// ---- one declaration

fn pattern_of(graph: &Graph, template: TemplateId) -> Option<&Pattern>
    ensures { option_copied result ≡ slice_get graph.now.patterns template.0 }
{
    graph.patterns().get(template.0 as usize)
}

// Whether a template is one of functions (14).
#[tactic(auto, using(cxx_names::proofs::Templates::functions_some, cxx_names::proofs::Templates::functions_none))]
fn is_of_functions(graph: &Graph, template: TemplateId) -> bool
    ensures { (types : List CxxType) → result ≡ wanted.is_of_functions (slice_get (graph_at types graph.now).patterns template.0) }
{
    match pattern_of(graph, template) {
        Some(pattern) => pattern.of.is_some(),
        None => false,
    }
}

/// Whether a declaration is one of a function or a function template (13, 14.5.5).
pub(crate) fn is_function(graph: &Graph, what: Entity) -> bool
    ensures { (types : List CxxType) → result ≡ wanted.is_function (graph_at types graph.now) (declares_at types what) }
{
    match what {
        Entity::Function { .. } => true,
        Entity::Template { template, .. } => is_of_functions(graph, template),
        _ => false,
    }
}

// Whether a declaration hides a type of its scope (3.3.7).
fn hides_types(graph: &Graph, what: Entity) -> bool
    ensures { (types : List CxxType) → result ≡ wanted.hides_types (graph_at types graph.now) (declares_at types what) }
{
    match what {
        Entity::Object { .. } => true,
        Entity::Enumerator { .. } => true,
        _ => is_function(graph, what),
    }
}

/// The first declaration of an entity.
pub(crate) fn first_or(number: FactId, first: Option<FactId>) -> FactId
    ensures { result.0 ≡ entities.first_or number.0 first }
{
    match first {
        Some(first) => first,
        None => number,
    }
}

fn fact_in(graph: &Graph, number: FactId) -> &Fact
    requires { number.0 < length graph.now.facts }
    ensures { slice_get graph.now.facts number.0 ≡ Some result.now }
{
    &graph.facts()[number.0 as usize]
}

/// The declaration with a number.
#[tactic(auto, using(crate::proofs::Declared::fact_is, cxx_names::proofs::Clashing::fact_below, crate::proofs::Declared::of_there))]
pub(crate) fn fact_at(state: &State, number: FactId) -> &Fact
    requires { number.0 < length (state.now).graph.facts }
    ensures is { slice_get (meaning state.now).graph.facts number.0 ≡ Some (fact_of_types (state.now).types result.now) }
    ensures below { IsFactBelow (length (state.now).types) result.now }
    ensures there { IsOfThere (state.now).graph (result.now).what }
{
    let graph = state.graph();
    graph.in_range();
    fact_in(graph, number)
}

// ---- what hides the types of its scope (3.3.7)

#[tactic(auto, unfolding(cxx_tree::specs::Held::meaning))]
fn is_value(state: &State, what: Entity) -> bool
    ensures { result ≡ wanted.hides_types (meaning state.now).graph (declares_at (state.now).types what) }
{
    hides_types(state.graph(), what)
}

#[tactic(auto, using(crate::proofs::Declared::facts_below_more, crate::proofs::Declared::value_added, crate::proofs::Declared::type_left))]
fn add_value(values: &mut FactList, state: &State, number: FactId) -> Result<(), AllocError>
    requires known { number.0 < length (state.now).graph.facts }
    requires values { AreFactsKnown state.now values.old }
    ensures is { OnOk result (numbered state.now values.new ≡ numbered state.now values.old ++ definition.values_among (meaning state.now).graph (numbered state.now (number ∷ []))) }
    ensures known { OnOk result (AreFactsKnown state.now values.new) }
{
    if is_value(state, fact_at(state, number).what) {
        values.push(number)?;
    }
    Ok(())
}

/// The declarations among some that are no types (3.3.7).
#[tactic(auto, using(crate::proofs::Declared::known_at, crate::proofs::Declared::values_end))]
pub(crate) fn values_among(
    alloc: Global,
    state: &State,
    all: &[FactId],
) -> Result<FactList, AllocError>
    requires { AreFactsKnown state.now all.now }
    ensures is { IfOk result (λ values. numbered state.now values ≡ definition.values_among (meaning state.now).graph (numbered state.now all.now)) }
    ensures known { IfOk result (AreFactsKnown state.now) }
{
    let mut values = Listed::new(alloc);
    for number in all {
        add_value(&mut values, state, *number)?;
    }
    Ok(values)
}

// ---- objects

fn type_declared(what: Entity) -> Option<TypeId>
    ensures is { (types : List CxxType) → type_of_option types result ≡ definition.type_declared (declares_at types what) }
    ensures below { (count : ℕ) → IsEntityBelow count what → IsTypeNumberBelow count result }
{
    match what {
        Entity::Object { of, .. } => Some(of),
        Entity::Function { of, .. } => Some(of),
        _ => None,
    }
}

fn fact_found(graph: &Graph, number: FactId) -> Option<&Fact>
    ensures { option_copied result ≡ slice_get graph.now.facts number.0 }
{
    graph.facts().get(number.0 as usize)
}

#[tactic(auto, using(crate::proofs::Declared::declared_some, crate::proofs::Declared::declared_none))]
fn type_by_fact(state: &State, target: FactId) -> Option<TypeId>
    ensures is { type_of_option (state.now).types result ≡ definition.type_by_fact (slice_get (meaning state.now).graph.facts target.0) }
    ensures below { IsTypeNumberBelow (length (state.now).types) result }
{
    match fact_found(state.graph(), target) {
        Some(fact) => type_declared(fact.what),
        None => None,
    }
}

fn type_or_own(state: &State, target: FactId, own: TypeId) -> TypeId
    requires { own.0 < length (state.now).types }
    ensures is { type_of state.now result ≡ definition.or_own (type_of state.now own) (definition.type_by_fact (slice_get (meaning state.now).graph.facts target.0)) }
    ensures below { result.0 < length (state.now).types }
{
    match type_by_fact(state, target) {
        Some(of) => of,
        None => own,
    }
}

// ---- the bound that the own initializer of an array gives (8.3.4, 8.5.1)

fn is_same_place(one: Place, two: Place) -> bool
    ensures { result ≡ definition.same_place one two }
{
    one.line == two.line && one.column == two.column
}

// The type by a further declaration of an object.
fn type_again(target: FactId, what: Entity) -> Option<TypeId>
    ensures is { (types : List CxxType) → type_of_option types result ≡ definition.type_again target.0 (declares_at types what) }
    ensures below { (count : ℕ) → IsEntityBelow count what → IsTypeNumberBelow count result }
{
    match what {
        Entity::Object {
            of,
            first: Some(first),
            ..
        } => { if first.0 == target.0 { Some(of) } else { None } }
        _ => None,
    }
}

// The type by a further declaration of an object, where it stands at a place.
fn known_at(target: FactId, place: Place, fact: &Fact) -> Option<TypeId>
    ensures is { (types : List CxxType) → type_of_option types result ≡ definition.known_at target.0 place (fact_of_types types fact.now) }
    ensures below { (count : ℕ) → IsEntityBelow count (fact.now).what → IsTypeNumberBelow count result }
{
    if is_same_place(fact.place, place) {
        type_again(target, fact.what)
    } else {
        None
    }
}

// The same by a number.
#[tactic(auto, using(crate::proofs::Declared::again_some, crate::proofs::Declared::again_none))]
fn known_of(state: &State, target: FactId, place: Place, number: FactId) -> Option<TypeId>
    ensures is { type_of_option (state.now).types result ≡ definition.known_among target.0 place (numbered state.now (number ∷ [])) }
    ensures below { IsTypeNumberBelow (length (state.now).types) result }
{
    match fact_found(state.graph(), number) {
        Some(fact) => known_at(target, place, fact),
        None => None,
    }
}

// The type by the first of some declarations that declares an object again at a place.
#[tactic(auto, using(crate::proofs::Declared::again_end, crate::proofs::Declared::again_found))]
fn known_among(state: &State, target: FactId, place: Place, numbers: &[FactId]) -> Option<TypeId>
    ensures is { type_of_option (state.now).types result ≡ definition.known_among target.0 place (numbered state.now numbers.now) }
    ensures below { IsTypeNumberBelow (length (state.now).types) result }
{
    for number in numbers {
        if let Some(of) = known_of(state, target, place, *number) {
            return Some(of);
        }
    }
    None
}

// The same by a number, where its declaration has a name.
#[tactic(auto, using(crate::proofs::Declared::named_one, crate::proofs::Declared::named_none), unfolding(cxx_tree::specs::Held::meaning))]
fn known_of_named(
    state: &State,
    target: FactId,
    place: Place,
    name: &Name,
    number: FactId,
) -> Option<TypeId>
    requires { IsNameBelow (length (state.now).types) name.now }
    ensures is { type_of_option (state.now).types result ≡ definition.known_among target.0 place (numbered state.now (named_of state.now name.now (number ∷ []))) }
    ensures below { IsTypeNumberBelow (length (state.now).types) result }
{
    if has_name(state.graph(), state.types(), number, name) {
        known_of(state, target, place, number)
    } else {
        None
    }
}

// The type by the first of some declarations that has a name and declares an object again at a place.
#[tactic(auto, using(crate::proofs::Declared::named_end, crate::proofs::Declared::named_found, crate::proofs::Declared::named_step))]
fn known_named(
    state: &State,
    target: FactId,
    place: Place,
    name: &Name,
    numbers: &[FactId],
) -> Option<TypeId>
    requires { IsNameBelow (length (state.now).types) name.now }
    ensures is { type_of_option (state.now).types result ≡ definition.known_among target.0 place (numbered state.now (named_of state.now name.now numbers.now)) }
    ensures below { IsTypeNumberBelow (length (state.now).types) result }
{
    for number in numbers {
        if let Some(of) = known_of_named(state, target, place, name, *number) {
            return Some(of);
        }
    }
    None
}

// The type by the first declaration of a name in a scope that declares an object again at a place.
#[tactic(auto, using(crate::proofs::Declared::numbered_same, crate::proofs::Declared::numbered_named, cxx_names::proofs::Wordless::no_unnamed), unfolding(cxx_tree::specs::Held::meaning))]
fn known_in(
    state: &State,
    target: FactId,
    place: Place,
    scope: ScopeId,
    name: &Name,
) -> Option<TypeId>
    requires { IsNameBelow (length (state.now).types) name.now }
    ensures is { type_of_option (state.now).types result ≡ definition.known_among target.0 place (declared_by (meaning state.now).graph scope.0 (name_at (state.now).types name.now)) }
    ensures below { IsTypeNumberBelow (length (state.now).types) result }
{
    match name {
        Name::Spelled(word) => {
            let row = state
                .names()
                .declared_in(state.graph(), scope, word.as_slice());
            known_among(state, target, place, row)
        }
        Name::Unnamed => None,
        _ => known_named(state, target, place, name, state.graph().facts_of(scope)),
    }
}

// An array whose bound is not written.
fn has_no_bound(types: &TypeTable, number: TypeId) -> bool
    requires { number.0 < length types.now }
    ensures { result ≡ entities.has_no_bound (type_at types.now number.0) }
{
    match types.node(number) {
        TypeNode::Array(_, Bound::Unknown) => true,
        _ => false,
    }
}

fn type_known(own: TypeId, known: Option<TypeId>) -> TypeId
    ensures is { (types : List CxxType) → type_at types result.0 ≡ definition.or_own (type_at types own.0) (type_of_option types known) }
    ensures below { (count : ℕ) → own.0 < count → IsTypeNumberBelow count known → result.0 < count }
{
    match known {
        Some(of) => of,
        None => own,
    }
}

// A type of an object, with the bound that the initializer of its first declaration gives.
fn in_full(state: &State, target: FactId, fact: &Fact, of: TypeId) -> TypeId
    requires of { of.0 < length (state.now).types }
    requires name { IsNameBelow (length (state.now).types) (fact.now).name }
    ensures is { type_of state.now result ≡ definition.in_full (meaning state.now).graph target.0 (fact_of_types (state.now).types fact.now) (type_of state.now of) }
    ensures below { result.0 < length (state.now).types }
{
    if has_no_bound(state.types(), of) {
        let known = known_in(state, target, fact.place, fact.scope, &fact.name);
        type_known(of, known)
    } else {
        of
    }
}

#[tactic(auto, using(crate::proofs::Declared::full_some, crate::proofs::Declared::full_none))]
fn in_full_by(state: &State, target: FactId, of: TypeId) -> TypeId
    requires { of.0 < length (state.now).types }
    ensures is { type_of state.now result ≡ definition.in_full_by (meaning state.now).graph target.0 (slice_get (meaning state.now).graph.facts target.0) (type_of state.now of) }
    ensures below { result.0 < length (state.now).types }
{
    match fact_found(state.graph(), target) {
        Some(fact) => in_full(state, target, fact, of),
        None => of,
    }
}

/// The type of an object or a function by its first declaration, with the bound that its own initializer gives; a reference
/// is what it refers to (3.5).
pub(crate) fn type_of_first(state: &State, target: FactId, own: TypeId) -> TypeId
    requires { own.0 < length (state.now).types }
    ensures is { type_of state.now result ≡ definition.type_of_first (meaning state.now).graph target.0 (type_of state.now own) }
    ensures below { result.0 < length (state.now).types }
{
    let of = in_full_by(state, target, type_or_own(state, target, own));
    referred(state.types(), of)
}

// ---- functions

// Whether a declaration is one of a function.
fn is_function_with(target: FactId, number: FactId, what: Entity) -> bool
    ensures { (types : List CxxType) → result ≡ definition.is_function_with target.0 number.0 (declares_at types what) }
{
    match what {
        Entity::Function { first, .. } => first_or(number, first).0 == target.0,
        _ => false,
    }
}

#[tactic(auto, using(crate::proofs::Declared::one_function))]
fn is_one_of(state: &State, target: FactId, number: FactId) -> bool
    requires { number.0 < length (state.now).graph.facts }
    ensures { result ≡ definition.are_one_function target.0 (numbered state.now (number ∷ [])) }
{
    is_function_with(target, number, fact_at(state, number).what)
}

/// Whether some declarations are all of one function.
#[tactic(auto, using(crate::proofs::Declared::known_at))]
pub(crate) fn are_one_function(state: &State, target: FactId, numbers: &[FactId]) -> bool
    requires { AreFactsKnown state.now numbers.now }
    ensures { result ≡ definition.are_one_function target.0 (numbered state.now numbers.now) }
{
    for number in numbers {
        if !is_one_of(state, target, *number) {
            return false;
        }
    }
    true
}
