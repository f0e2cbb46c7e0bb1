//! The values of names (5.19, 7.2).
ghost use Rattle.std.specs.Prelude.{◌≡◌, List};
ghost use Rattle.std.specs.List.{slice_get};
ghost use Rattle.std.specs.Option.{option_copied};
ghost use Rattle.cxx_model.specs.Facts.Declarations.{declares_at, facts_at};
ghost use Rattle.cxx_model.specs.Facts.Entities.{first_or as first_number_or, meant_by};
ghost use Rattle.cxx_model.specs.Types.Trees.{CxxType};
ghost use Rattle.cxx_tree.specs.Arena.{number_of_option};
ghost use Rattle.cxx_constant.specs.Forms as definition;
ghost use Rattle.cxx_constant.specs.Given.{first_given, given};

use cxx_graph::Graph;
use cxx_model::{Entity, Fact, FactId};

fn first_or(number: FactId, first: Option<FactId>) -> FactId
    ensures { result.0 ≡ first_number_or number.0 first }
{
    match first {
        Some(first) => first,
        None => number,
    }
}

// The value that a declaration gives to an object.
fn value_given(entity: FactId, number: FactId, what: Entity) -> Option<i128>
    ensures { (types : List CxxType) → result ≡ given entity.0 number.0 (declares_at types what) }
{
    match what {
        Entity::Object { value, first, .. } => {
            if first_or(number, first).0 == entity.0 {
                value
            } else {
                None
            }
        }
        _ => None,
    }
}

// The value of an object, by the number of its first declaration. None of those before it declares the object.
#[tactic(auto, using(crate::proofs::Scanned::skipped))]
fn value_of_object(graph: &Graph, entity: FactId) -> Option<i128>
    ensures { (types : List CxxType) → result ≡ first_given entity.0 0 (facts_at types graph.now.facts) }
{
    let facts = graph.facts();
    for number in entity.0..graph.length() {
        let fact = &facts[number as usize];
        if let Some(value) = value_given(entity, FactId(number), fact.what) {
            return Some(value);
        }
    }
    None
}

// The value that is declared.
#[tactic(auto, using(crate::proofs::Scanned::value_is))]
fn value_declared(graph: &Graph, number: FactId, what: Entity) -> Option<i128>
    ensures { (types : List CxxType) → result ≡ definition.value_declared (facts_at types graph.now.facts) number.0 (declares_at types what) }
{
    match what {
        Entity::Enumerator { value, .. } => Some(value),
        Entity::Object { first, .. } => value_of_object(graph, first_or(number, first)),
        _ => None,
    }
}

fn fact(graph: &Graph, number: FactId) -> Option<&Fact>
    ensures { option_copied result ≡ slice_get graph.now.facts number.0 }
{
    graph.facts().get(number.0 as usize)
}

// The value of what a declaration stands for: one of a using-declaration is its target (7.3.3).
#[tactic(auto, using(crate::proofs::Scanned::fact_is))]
fn value_meant(graph: &Graph, number: FactId, what: Entity) -> Option<i128>
    ensures { (types : List CxxType) → result ≡ definition.value_meant (facts_at types graph.now.facts) (meant_by (facts_at types graph.now.facts) number.0 (declares_at types what)) }
{
    match what {
        Entity::Using { target } => match fact(graph, target) {
            None => None,
            Some(fact) => value_declared(graph, target, fact.what),
        },
        _ => value_declared(graph, number, what),
    }
}

/// The value of what a name was bound to: of an enumerator (7.2), or of a const object once a constant expression that
/// initializes it was read (5.19). For an object it goes over the declarations from the first of the object to the one that
/// gives the value.
#[tactic(auto, using(crate::proofs::Scanned::fact_is))]
pub fn value_of_name(graph: &Graph, target: Option<FactId>) -> Option<i128>
    ensures { (types : List CxxType) → result ≡ definition.value_of_name (facts_at types graph.now.facts) (number_of_option target) }
{
    match target {
        None => None,
        Some(number) => match fact(graph, number) {
            None => None,
            Some(fact) => value_meant(graph, number, fact.what),
        },
    }
}
