//! Classes among declarations that were found (3.4.3.1).

ghost use Rattle.std.specs.Prelude.{◌≡◌, ◌<◌, length, option_map};
ghost use Rattle.cxx_model.specs.Facts.Declarations.{declares_at, graph_at};
ghost use Rattle.cxx_model.specs.Facts.Fitted.{Fitted, IsEntityBelow};
ghost use Rattle.cxx_model.specs.Facts.Graph.{IsClassNumberInRange};
ghost use Rattle.cxx_model.specs.Types.Numbers.{type_at};
ghost use Rattle.cxx_paths.specs.Asked.{class_number};
ghost use Rattle.cxx_reading.specs.Paths as definition;
ghost use Rattle.cxx_reading.specs.Seen.{fact_numbers, numbered_at};
ghost use Rattle.cxx_tree.specs.Held.{meaning};

use crate::faults::fact_of;
use cxx_graph::Graph;
use cxx_model::{ClassId, Entity, FactId, TypeId, TypeNode};
use cxx_tree::State;
use cxx_types::TypeTable;

fn plain_class(types: &TypeTable, of: TypeId) -> Option<ClassId>
    requires { of.0 < length types.now }
    ensures { option_map class_number result ≡ definition.plain_class (type_at types.now of.0) }
{
    match types.node(of) {
        TypeNode::Class(class) => Some(*class),
        _ => None,
    }
}

// The class that a type is, cv words aside (7.1.3).
fn class_of_type(types: &TypeTable, of: TypeId) -> Option<ClassId>
    requires { of.0 < length types.now }
    ensures { option_map class_number result ≡ definition.class_of_type (type_at types.now of.0) }
{
    match types.node(of) {
        TypeNode::Class(class) => Some(*class),
        TypeNode::Qualified(_, of) => plain_class(types, *of),
        _ => None,
    }
}

// The class that a declaration names.
fn class_meant(types: &TypeTable, what: Entity) -> Option<ClassId>
    requires { IsEntityBelow (length types.now) what }
    ensures { option_map class_number result ≡ definition.class_meant (declares_at types.now what) }
{
    match what {
        Entity::Injected { class } => Some(class),
        Entity::Class { class, .. } => Some(class),
        Entity::Synonym { of } => class_of_type(types, of),
        _ => None,
    }
}

// The class that the first of some declarations names.
#[tactic(auto, using(cxx_names::proofs::Clashing::fact_below))]
fn first_meant(graph: &Graph, types: &TypeTable, numbers: &[FactId]) -> Option<ClassId>
    requires { Fitted graph.now types.now }
    ensures { option_map class_number result ≡ definition.first_meant (numbered_at (graph_at types.now graph.now) (fact_numbers numbers.now)) }
{
    for number in numbers {
        if let Some(fact) = fact_of(graph, *number) {
            return class_meant(types, fact.what);
        }
    }
    None
}

// The same of the state.
#[tactic(auto, unfolding(cxx_tree::specs::Held::meaning))]
fn first_class(state: &State, numbers: &[FactId]) -> Option<ClassId>
    ensures is { option_map class_number result ≡ definition.first_meant (numbered_at (meaning state.now).graph (fact_numbers numbers.now)) }
    ensures there { IsClassNumberInRange (state.now).graph result }
{
    let graph = state.graph();
    graph.in_range();
    first_meant(graph, state.types(), numbers)
}

/// The class that the first of some declarations names, where one may stand.
pub(crate) fn class_if(state: &State, classes: bool, numbers: &[FactId]) -> Option<ClassId>
    ensures is { option_map class_number result ≡ definition.class_if classes (definition.first_meant (numbered_at (meaning state.now).graph (fact_numbers numbers.now))) }
    ensures there { IsClassNumberInRange (state.now).graph result }
{
    if classes {
        return first_class(state, numbers);
    }
    None
}
