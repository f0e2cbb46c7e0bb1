//! Members that are static, and functions (9.4, 9.3).

ghost use Rattle.std.specs.Prelude.{◌≡◌, List, Some};
ghost use Rattle.std.specs.List.{slice_get};
ghost use Rattle.std.specs.Option.{option_copied};
ghost use Rattle.cxx_meaning.specs.Lookups.Member.{class_of_scope as class_of_one};
ghost use Rattle.cxx_model.specs.Facts.Declarations.{declares_at, fact_at};
ghost use Rattle.cxx_model.specs.Facts.Graph.{IsClassNumberInRange};
ghost use Rattle.cxx_model.specs.Types.Trees.{CxxType};
ghost use Rattle.cxx_expr.specs.Names as definition;
ghost use Rattle.cxx_tree.specs.Held.{meaning};

use cxx_graph::Graph;
use cxx_model::{ClassId, Entity, Fact, FactId, MemberKind, ScopeId};
use cxx_tree::State;

fn is_static(member: MemberKind) -> bool
    ensures { result ≡ definition.is_static member }
{
    match member {
        MemberKind::Static => true,
        _ => false,
    }
}

fn is_static_member(what: Entity) -> bool
    ensures { (types : List CxxType) → result ≡ definition.is_static_member (declares_at types what) }
{
    match what {
        Entity::Object { member, .. } => is_static(member),
        Entity::Function { member, .. } => is_static(member),
        _ => false,
    }
}

/// The class to which a scope belongs (9.2).
#[tactic(auto, unfolding(cxx_tree::specs::Held::meaning))]
pub fn class_of_scope(state: &State, scope: ScopeId) -> Option<ClassId>
    ensures is { result ≡ class_of_one (meaning state.now).graph.facts scope }
    ensures there { IsClassNumberInRange (state.now).graph result }
{
    let graph = state.graph();
    graph.in_range();
    state.names().class_of_scope(graph, scope)
}

fn class_of_fact(state: &State, fact: &Fact) -> Option<ClassId>
    ensures is { definition.class_or_none result ≡ definition.class_of_fact (meaning state.now).graph (Some (fact_at (state.now).types fact.now)) }
    ensures there { IsClassNumberInRange (state.now).graph result }
{
    if is_static_member(fact.what) {
        class_of_scope(state, fact.scope)
    } else {
        None
    }
}

fn fact_found(graph: &Graph, number: FactId) -> Option<&Fact>
    ensures { option_copied result ≡ slice_get graph.now.facts number.0 }
{
    graph.facts().get(number.0 as usize)
}

/// The class that declares what a number names, where that is a static member (9.4).
#[tactic(auto, using(crate::proofs::Classed::class_some, crate::proofs::Classed::class_none))]
pub fn static_class(state: &State, target: FactId) -> Option<ClassId>
    ensures is { definition.class_or_none result ≡ definition.static_class (meaning state.now).graph target.0 }
    ensures there { IsClassNumberInRange (state.now).graph result }
{
    match fact_found(state.graph(), target) {
        Some(fact) => class_of_fact(state, fact),
        None => None,
    }
}

fn is_function(what: Entity) -> bool
    ensures { (types : List CxxType) → result ≡ definition.declares_function (declares_at types what) }
{
    match what {
        Entity::Function { .. } => true,
        _ => false,
    }
}

fn is_function_fact(state: &State, fact: &Fact) -> bool
    ensures { result ≡ definition.is_function_fact (Some (fact_at (state.now).types fact.now)) }
{
    let _ = state;
    is_function(fact.what)
}

/// Whether the declaration with a number is that of a function (8.3.5).
#[tactic(auto, using(crate::proofs::Classed::function_some, crate::proofs::Classed::function_none))]
pub fn is_function_at(state: &State, target: FactId) -> bool
    ensures { result ≡ definition.is_function_at (meaning state.now).graph target.0 }
{
    match fact_found(state.graph(), target) {
        Some(fact) => is_function_fact(state, fact),
        None => false,
    }
}
