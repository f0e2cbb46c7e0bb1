//! Facts by their numbers, and what they are to a lookup.

ghost use Rattle.std.specs.Prelude.{◌≡◌, ◌<◌, length, [], ◌∷◌, List, Some, None, if◌then◌else◌, option_map};
ghost use Rattle.std.specs.List.{slice_get};
ghost use Rattle.std.specs.Option.{option_copied};
ghost use Rattle.cxx_model.specs.Facts.Declarations.{declares_at, graph_at};
ghost use Rattle.cxx_model.specs.Facts.Fitted.{IsEntityBelow, IsGraphBelow};
ghost use Rattle.cxx_model.specs.Types.Numbers.{type_at};
ghost use Rattle.cxx_model.specs.Types.Trees.{CxxType};
ghost use Rattle.cxx_meaning.specs.Lookups.Wanted.{hides_types as hides_a_type, is_function as is_a_function, is_of_functions as is_one_of_functions, names_type as names_a_type};
ghost use Rattle.cxx_reading.specs.Declaring.{enumeration_in, first_function, first_object, is_object as is_an_object, is_same_function as is_one_function};
ghost use Rattle.cxx_reading.specs.Seen.{any_hides, any_type, kind_of_found};
ghost use Rattle.cxx_reading.specs.Paths.{first_space};
ghost use Rattle.cxx_reading.specs.Classes.{first_class};
ghost use Rattle.cxx_names.specs.Looked.{class_named_at, enumeration_number, looked_up, scope_number};

use crate::alike::same_parameters;
use cxx_graph::Graph;
use cxx_model::{
    ClassId, Entity, EnumId, Fact, FactId, Kind, Pattern, ScopeId, TemplateId, TypeId,
};
use cxx_types::TypeTable;

/// A class that a declaration declares (9.1), or that has its name in its own scope (9), which does not say whether it is a
/// union.
#[derive(Clone, Copy)]
pub struct NamedClass {
    pub class: ClassId,
    pub is_union: Option<bool>,
}

pub(crate) fn fact_of(graph: &Graph, number: FactId) -> Option<&Fact>
    ensures { option_copied result ≡ slice_get graph.now.facts number.0 }
{
    graph.facts().get(number.0 as usize)
}

fn pattern_of(graph: &Graph, template: TemplateId) -> Option<&Pattern>
    ensures { option_copied result ≡ slice_get graph.now.patterns template.0 }
{
    graph.patterns().get(template.0 as usize)
}

/// Whether a template is one of functions (14).
#[tactic(auto, using(crate::proofs::Templates::functions_some, crate::proofs::Templates::functions_none))]
pub(crate) fn is_of_functions(graph: &Graph, template: TemplateId) -> bool
    ensures { (types : List CxxType) → result ≡ is_one_of_functions (slice_get (graph_at types graph.now).patterns template.0) }
{
    match pattern_of(graph, template) {
        Some(pattern) => pattern.of.is_some(),
        None => false,
    }
}

/// Whether a declaration is one of a function or of a function template.
pub(crate) fn is_function(graph: &Graph, what: Entity) -> bool
    ensures { (types : List CxxType) → result ≡ is_a_function (graph_at types graph.now) (declares_at types what) }
{
    match what {
        Entity::Function { .. } => true,
        Entity::Template { template, .. } => is_of_functions(graph, template),
        _ => false,
    }
}

/// Whether a declaration hides a type of its scope (3.3.7).
pub(crate) fn hides_types(graph: &Graph, what: Entity) -> bool
    ensures { (types : List CxxType) → result ≡ hides_a_type (graph_at types graph.now) (declares_at types what) }
{
    match what {
        Entity::Object { .. } => true,
        Entity::Enumerator { .. } => true,
        _ => is_function(graph, what),
    }
}

// Whether a declaration names a type (3.4.4).
fn names_type(graph: &Graph, what: Entity) -> bool
    ensures { (types : List CxxType) → result ≡ names_a_type (graph_at types graph.now) (declares_at types what) }
{
    match what {
        Entity::Injected { .. } => true,
        Entity::Class { .. } => true,
        Entity::Enumeration { .. } => true,
        Entity::Synonym { .. } => true,
        Entity::Template { template, .. } => !is_of_functions(graph, template),
        _ => false,
    }
}

fn is_type_at(graph: &Graph, number: FactId) -> bool
    ensures { (types : List CxxType) → result ≡ any_type (graph_at types graph.now) (looked_up types graph.now.facts (number ∷ [])) }
{
    match fact_of(graph, number) {
        Some(fact) => names_type(graph, fact.what),
        None => false,
    }
}

// Whether one of some declarations names a type.
fn has_type(graph: &Graph, numbers: &[FactId]) -> bool
    ensures { (types : List CxxType) → result ≡ any_type (graph_at types graph.now) (looked_up types graph.now.facts numbers.now) }
{
    for number in numbers {
        if is_type_at(graph, *number) {
            return true;
        }
    }
    false
}

fn hides_at(graph: &Graph, number: FactId) -> bool
    ensures { (types : List CxxType) → result ≡ any_hides (graph_at types graph.now) (looked_up types graph.now.facts (number ∷ [])) }
{
    match fact_of(graph, number) {
        Some(fact) => hides_types(graph, fact.what),
        None => false,
    }
}

// Whether one of some declarations hides a type of its scope.
fn has_hiding(graph: &Graph, numbers: &[FactId]) -> bool
    ensures { (types : List CxxType) → result ≡ any_hides (graph_at types graph.now) (looked_up types graph.now.facts numbers.now) }
{
    for number in numbers {
        if hides_at(graph, *number) {
            return true;
        }
    }
    false
}

fn kind_by(hides: bool, names_type: bool, names_space: bool) -> Kind
    ensures { result ≡ (if hides then Kind.Value else (if names_type then Kind.OfType else (if names_space then Kind.Space else Kind.Value))) }
{
    if hides {
        Kind::Value
    } else if names_type {
        Kind::OfType
    } else if names_space {
        Kind::Space
    } else {
        Kind::Value
    }
}

/// What declarations that were found are to a reader (3.3.7).
#[tactic(auto, using(crate::proofs::Looking::space_some))]
pub(crate) fn kind_of(graph: &Graph, numbers: &[FactId]) -> Kind
    ensures { (types : List CxxType) → result ≡ kind_of_found (graph_at types graph.now) (looked_up types graph.now.facts numbers.now) }
{
    let hides = has_hiding(graph, numbers);
    let of_type = has_type(graph, numbers);
    let space = first_space_of(graph, numbers);
    kind_by(hides, of_type, space.is_some())
}

fn is_object(what: Entity) -> bool
    ensures { (types : List CxxType) → result ≡ is_an_object (declares_at types what) }
{
    match what {
        Entity::Object { .. } => true,
        _ => false,
    }
}

fn is_object_at(graph: &Graph, number: FactId) -> bool
    ensures { (types : List CxxType) → (if result then Some number else None) ≡ first_object (looked_up types graph.now.facts (number ∷ [])) }
{
    match fact_of(graph, number) {
        Some(fact) => is_object(fact.what),
        None => false,
    }
}

/// The first of some declarations that is one of an object.
pub(crate) fn first_object_of(graph: &Graph, numbers: &[FactId]) -> Option<FactId>
    ensures { (types : List CxxType) → result ≡ first_object (looked_up types graph.now.facts numbers.now) }
{
    for number in numbers {
        if is_object_at(graph, *number) {
            return Some(*number);
        }
    }
    None
}

fn is_same_function(types: &TypeTable, of: TypeId, what: Entity) -> bool
    requires of { of.0 < length types.now }
    requires what { IsEntityBelow (length types.now) what }
    ensures { result ≡ is_one_function (type_at types.now of.0) (declares_at types.now what) }
{
    match what {
        Entity::Function { of: other, .. } => same_parameters(types, false, of, other),
        _ => false,
    }
}

#[tactic(auto, using(crate::proofs::Clashing::fact_below))]
fn is_function_at(graph: &Graph, types: &TypeTable, of: TypeId, number: FactId) -> bool
    requires of { of.0 < length types.now }
    requires below { IsGraphBelow (length types.now) graph.now }
    ensures { (if result then Some number else None) ≡ first_function (type_at types.now of.0) (looked_up types.now graph.now.facts (number ∷ [])) }
{
    match fact_of(graph, number) {
        Some(fact) => is_same_function(types, of, fact.what),
        None => false,
    }
}

/// The first of some declarations that is one of the function with the parameters of a type (13.1).
pub(crate) fn first_function_of(
    graph: &Graph,
    types: &TypeTable,
    of: TypeId,
    numbers: &[FactId],
) -> Option<FactId>
    requires of { of.0 < length types.now }
    requires below { IsGraphBelow (length types.now) graph.now }
    ensures { result ≡ first_function (type_at types.now of.0) (looked_up types.now graph.now.facts numbers.now) }
{
    for number in numbers {
        if is_function_at(graph, types, of, *number) {
            return Some(*number);
        }
    }
    None
}

fn enumeration_at(graph: &Graph, number: FactId) -> Option<EnumId>
    ensures { (types : List CxxType) → option_map enumeration_number result ≡ enumeration_in (looked_up types graph.now.facts (number ∷ [])) }
{
    match fact_of(graph, number) {
        Some(fact) => match fact.what {
            Entity::Enumeration { number } => Some(number),
            _ => None,
        },
        None => None,
    }
}

/// The first enumeration among some declarations.
#[tactic(auto, using(crate::proofs::Looking::enumeration_more))]
pub(crate) fn first_enumeration_of(graph: &Graph, numbers: &[FactId]) -> Option<EnumId>
    ensures { (types : List CxxType) → option_map enumeration_number result ≡ enumeration_in (looked_up types graph.now.facts numbers.now) }
{
    for number in numbers {
        if let Some(found) = enumeration_at(graph, *number) {
            return Some(found);
        }
    }
    None
}

fn class_at(graph: &Graph, number: FactId) -> Option<NamedClass>
    ensures { (types : List CxxType) → option_map class_named_at result ≡ first_class (looked_up types graph.now.facts (number ∷ [])) }
{
    match fact_of(graph, number) {
        Some(fact) => match fact.what {
            Entity::Class { class, is_union } => Some(NamedClass {
                class,
                is_union: Some(is_union),
            }),
            Entity::Injected { class } => Some(NamedClass {
                class,
                is_union: None,
            }),
            _ => None,
        },
        None => None,
    }
}

/// The first class among some declarations.
#[tactic(auto, using(crate::proofs::Looking::class_more))]
pub(crate) fn first_class_of(graph: &Graph, numbers: &[FactId]) -> Option<NamedClass>
    ensures { (types : List CxxType) → option_map class_named_at result ≡ first_class (looked_up types graph.now.facts numbers.now) }
{
    for number in numbers {
        if let Some(found) = class_at(graph, *number) {
            return Some(found);
        }
    }
    None
}

fn space_at(graph: &Graph, number: FactId) -> Option<ScopeId>
    ensures { (types : List CxxType) → option_map scope_number result ≡ first_space (looked_up types graph.now.facts (number ∷ [])) }
{
    match fact_of(graph, number) {
        Some(fact) => match fact.what {
            Entity::Namespace { inner } => Some(inner),
            _ => None,
        },
        None => None,
    }
}

/// The first namespace among some declarations.
#[tactic(auto, using(crate::proofs::Looking::space_more))]
pub(crate) fn first_space_of(graph: &Graph, numbers: &[FactId]) -> Option<ScopeId>
    ensures { (types : List CxxType) → option_map scope_number result ≡ first_space (looked_up types graph.now.facts numbers.now) }
{
    for number in numbers {
        if let Some(found) = space_at(graph, *number) {
            return Some(found);
        }
    }
    None
}
