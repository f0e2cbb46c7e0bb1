//! Which declaration gives a default argument (8.3.6).

ghost use Rattle.std.specs.Prelude.{ℕ, ◌≡◌, ◌<◌, List, IfSome, option_map};
ghost use Rattle.std.specs.List.{slice_get};
ghost use Rattle.std.specs.Option.{option_copied};
ghost use Rattle.cxx_model.specs.Facts.Declarations.{fact_at, facts_at};
ghost use Rattle.cxx_model.specs.Types.Trees.{CxxType};
ghost use Rattle.cxx_reading.specs.Declaring.{declares_by};
ghost use Rattle.cxx_reading.specs.Givers.{scope_in};
ghost use Rattle.cxx_reading.specs.Trees.{CxxTree};
ghost use Rattle.cxx_tree.specs.Defaults.{first_declared, first_given as first_given_of, is_given as is_given_by};
ghost use Rattle.cxx_tree.specs.Held.{AreFallbacksBelow, fallback_at, fallbacks_at};

use crate::kept::Fallback;
use cxx_graph::Graph;
use cxx_model::{Entity, Fact, FactId, ScopeId};

fn first_or(number: FactId, fact: Option<&Fact>) -> FactId
    ensures { (types : List CxxType) → result.0 ≡ first_declared number.0 (declares_by (option_map (fact_at types) (option_copied fact.entry))) }
{
    match fact {
        Some(fact) => match fact.what {
            Entity::Function {
                first: Some(first),
                ..
            } => first,
            _ => number,
        },
        None => number,
    }
}

fn fact_of(graph: &Graph, number: FactId) -> Option<&Fact>
    ensures { option_copied result ≡ slice_get graph.now.facts number.0 }
{
    graph.facts().get(number.0 as usize)
}

// The first declaration of the function that a declaration declares.
fn function_of(graph: &Graph, declaration: FactId) -> FactId
    ensures { (types : List CxxType) → result.0 ≡ first_declared declaration.0 (declares_by (slice_get (facts_at types graph.now.facts) declaration.0)) }
{
    first_or(declaration, fact_of(graph, declaration))
}

// The scope of a declaration.
fn scope_of(graph: &Graph, declaration: FactId) -> ScopeId
    ensures { (types : List CxxType) → result.0 ≡ scope_in (slice_get (facts_at types graph.now.facts) declaration.0) }
{
    match fact_of(graph, declaration) {
        Some(fact) => fact.scope,
        None => ScopeId(0),
    }
}

// Whether a default argument is that of a parameter of a function, given in a scope.
fn is_given(graph: &Graph, scope: ScopeId, function: FactId, index: u32, one: Fallback) -> bool
    ensures { (types : List CxxType) (trees : List CxxTree) → result ≡ is_given_by (facts_at types graph.now.facts) scope.0 function.0 index (fallback_at trees one) }
{
    one.index == index
        && (scope_of(graph, one.declaration).0 == scope.0
            && function_of(graph, one.declaration).0 == function.0)
}

/// The first of some default arguments that is that of the parameter with an index of the function with a first
/// declaration, of those that are given in a scope.
pub(crate) fn first_given(
    graph: &Graph,
    scope: ScopeId,
    function: FactId,
    index: u32,
    all: &[Fallback],
) -> Option<Fallback>
    ensures is { (types : List CxxType) (trees : List CxxTree) → option_map (fallback_at trees) result ≡ first_given_of (facts_at types graph.now.facts) scope.0 function.0 index (fallbacks_at trees all.now) }
    ensures below { (count : ℕ) → AreFallbacksBelow count all.now → IfSome result (λ one. one.tree.0 < count) }
{
    for one in all {
        if is_given(graph, scope, function, index, *one) {
            return Some(*one);
        }
    }
    None
}
