//! Declarations that tell default arguments in a scope (8.3.6).

ghost use Rattle.std.specs.Prelude.{◌≡◌, IfOk, IfSome};
ghost use Rattle.std.specs.List.{slice_get};
ghost use Rattle.cxx_answers.specs.Answers as definition;
ghost use Rattle.cxx_answers.specs.Told.{IsTelling};
ghost use Rattle.cxx_expr.specs.Views.{AreFactsKnown, numbered};
ghost use Rattle.cxx_model.specs.Facts.Fitted.{Fitted};
ghost use Rattle.cxx_names.specs.Plain.{ArePlain};
ghost use Rattle.cxx_reading.specs.Givers as givers;
ghost use Rattle.cxx_reading.specs.Seen.{fact_numbers, numbered_at};
ghost use Rattle.cxx_tree.specs.Held.{meaning};

use crate::givers::Telling;
use cxx_model::{FactId, FactList, ScopeId};
use cxx_tree::State;
use std::alloc::{AllocError, Global};

/// What a state has to tell default arguments.
pub(crate) fn telling_of<'s>(state: &'s State) -> Telling<'s>
    ensures graph { result.graph.now ≡ (state.now).graph }
    ensures types { result.types.now ≡ (state.now).types }
    ensures telling { IsTelling result }
    ensures fitted { Fitted (state.now).graph (state.now).types }
    ensures plain { ArePlain (state.now).graph.facts }
{
    Telling {
        graph: state.graph(),
        names: state.names(),
        types: state.types(),
    }
}

/// The declarations with some numbers.
#[tactic(auto, using(crate::proofs::Found::known_in, crate::proofs::Found::all_known))]
pub(crate) fn known_of(
    alloc: Global,
    state: &State,
    numbers: &[FactId],
) -> Result<FactList, AllocError>
    ensures is { IfOk result (λ all. numbered state.now all ≡ numbered_at (meaning state.now).graph (fact_numbers numbers.now)) }
    ensures known { IfOk result (AreFactsKnown state.now) }
{
    let telling = telling_of(state);
    telling.known(alloc, numbers)
}

/// Some functions by their first declarations, and behind them the others that tell their default arguments in a scope.
#[tactic(auto, using(crate::proofs::Found::givers_in, crate::proofs::Found::all_known))]
pub(crate) fn with_givers(
    alloc: Global,
    state: &State,
    scope: ScopeId,
    numbers: &[FactId],
) -> Result<FactList, AllocError>
    ensures is { IfOk result (λ all. numbered state.now all ≡ givers.with_givers (meaning state.now).graph scope.0 (numbered_at (meaning state.now).graph (fact_numbers numbers.now))) }
    ensures known { IfOk result (AreFactsKnown state.now) }
{
    let telling = telling_of(state);
    telling.with_givers(alloc, scope, numbers)
}

// The scope of a declaration; that of the unit where there is none with its number.
#[tactic(auto, using(crate::proofs::Found::scope_first, crate::proofs::Found::scope_missing))]
fn scope_of_fact(state: &State, number: FactId) -> ScopeId
    ensures { result.0 ≡ givers.scope_in (slice_get (meaning state.now).graph.facts number.0) }
{
    let telling = telling_of(state);
    match telling.fact(number) {
        Some(fact) => fact.scope,
        None => ScopeId(0),
    }
}

/// The scope of the declaration that tells the default arguments of a function in a scope.
#[tactic(auto, using(crate::proofs::Found::scope_there, crate::proofs::Found::scope_none))]
pub(crate) fn scope_of_giver(state: &State, scope: ScopeId, function: FactId) -> ScopeId
    ensures { result.0 ≡ definition.scope_of_giver (meaning state.now).graph function.0 (givers.giver (meaning state.now).graph scope.0 function.0) }
{
    let telling = telling_of(state);
    match telling.giver(scope, function) {
        Some(one) => telling.scope_of(one),
        None => scope_of_fact(state, function),
    }
}
