//! Members of namespaces, those that blocks declare among them (3.5), and their first declarations (3, 13.1).

ghost use Rattle.std.specs.Prelude.{◌≡◌, ◌<◌, length, IfOk, List, option_map};
ghost use Rattle.cxx_model.specs.Facts.Declarations.{spelled};
ghost use Rattle.cxx_names.specs.Clashes.{number_in};
ghost use Rattle.cxx_reading.specs.Declaring as declaring;
ghost use Rattle.cxx_reading.specs.Linked as linked_by;
ghost use Rattle.cxx_reading.specs.Linked.{linked_in};
ghost use Rattle.cxx_reading.specs.Seen.{declared_in};
ghost use Rattle.cxx_declare.specs.Functions.{is_linked_here as is_one_linked_here};
ghost use Rattle.cxx_declare.specs.Made.{IsEarlierFunction, IsEarlierObject};
ghost use Rattle.cxx_tree.specs.Held.{meaning, type_of};

use cxx_model::{ClassId, FactId, OutOfMemory, ScopeId, TypeId};
use cxx_names::{first_function, first_object};
use cxx_tree::State;

/// The sooner of two declarations.
pub(crate) fn sooner(one: Option<FactId>, two: Option<FactId>) -> Option<FactId>
    ensures fact { result ≡ linked_by.sooner_fact one two }
    ensures number { option_map number_in result ≡ linked_by.sooner (option_map number_in one) (option_map number_in two) }
{
    match one {
        None => two,
        Some(first) => match two {
            None => Some(first),
            Some(second) => {
                if second.0 < first.0 {
                    Some(second)
                } else {
                    Some(first)
                }
            }
        },
    }
}

/// Whether a scope is that of a namespace.
#[tactic(auto, unfolding(cxx_tree::specs::Held::meaning))]
pub(crate) fn is_space(state: &State, scope: ScopeId) -> bool
    ensures { result ≡ linked_by.is_space_at (meaning state.now).graph scope.0 }
{
    state.names().is_space(state.graph(), scope)
}

/// The innermost namespace round a scope (7.3.1).
#[tactic(auto, unfolding(cxx_tree::specs::Held::meaning))]
pub(crate) fn home_of(state: &State, scope: ScopeId) -> ScopeId
    ensures { result.0 ≡ linked_by.home_of (meaning state.now).graph scope.0 }
{
    state.names().home(state.graph(), scope)
}

#[tactic(auto, unfolding(cxx_tree::specs::Held::meaning))]
fn home_here(state: &State) -> ScopeId
    ensures { result.0 ≡ declaring.home_here (meaning state.now) }
{
    home_of(state, state.scope())
}

#[tactic(auto, unfolding(cxx_tree::specs::Held::meaning))]
fn is_space_here(state: &State) -> bool
    ensures { result ≡ linked_by.is_space_at (meaning state.now).graph (meaning state.now).here.scope }
{
    is_space(state, state.scope())
}

/// The class in whose scope the reader stands (9.2).
#[tactic(auto, unfolding(cxx_tree::specs::Held::meaning))]
pub(crate) fn class_of_here(state: &State) -> Option<ClassId>
    ensures { result ≡ declaring.class_of_here (meaning state.now) }
{
    state.names().class_of_scope(state.graph(), state.scope())
}

/// Whether a function is linked that is declared where the reader stands.
pub(crate) fn is_linked_here(state: &State) -> bool
    ensures { result ≡ is_one_linked_here (meaning state.now) }
{
    !is_space_here(state)
}

// ---- objects

// The first declaration of the object that has a name in a scope.
#[tactic(auto, unfolding(cxx_tree::specs::Held::meaning))]
fn object_in(state: &State, scope: ScopeId, word: &[u8]) -> Option<FactId>
    ensures is { result ≡ declaring.first_object (declared_in (meaning state.now).graph scope.0 (spelled word.now)) }
    ensures earlier { IsEarlierObject state.now word.now result }
{
    state.names().first_object(state.graph(), scope, word)
}

// The same of those that blocks declare as a member of a namespace.
fn linked_object(state: &State, space: ScopeId, word: &[u8]) -> Result<Option<FactId>, OutOfMemory>
    ensures is { IfOk result (λ first. first ≡ declaring.first_object (linked_in (meaning state.now) space.0 (spelled word.now))) }
    ensures earlier { IfOk result (λ first. IsEarlierObject state.now word.now first) }
{
    let numbers = state.linked_in(space, word)?;
    Ok(first_object(state.graph(), numbers.as_slice()))
}

// The first declaration of the object that is a member of a namespace and has a name.
#[tactic(auto, unfolding(cxx_reading::specs::Declaring::first_member_object))]
fn member_object(state: &State, space: ScopeId, word: &[u8]) -> Result<Option<FactId>, OutOfMemory>
    ensures is { IfOk result (λ first. first ≡ declaring.first_member_object (meaning state.now) space.0 (spelled word.now)) }
    ensures earlier { IfOk result (λ first. IsEarlierObject state.now word.now first) }
{
    let own = object_in(state, space, word);
    let linked = linked_object(state, space, word)?;
    Ok(sooner(own, linked))
}

/// The first declaration of an object that is declared where the reader stands, and not linked.
#[tactic(auto, unfolding(cxx_tree::specs::Held::meaning))]
pub(crate) fn first_object_here(state: &State, word: &[u8]) -> Result<Option<FactId>, OutOfMemory>
    ensures is { IfOk result (λ first. first ≡ declaring.first_object_here (meaning state.now) (spelled word.now)) }
    ensures earlier { IfOk result (λ first. IsEarlierObject state.now word.now first) }
{
    if is_space_here(state) {
        member_object(state, state.scope(), word)
    } else {
        Ok(object_in(state, state.scope(), word))
    }
}

/// The same of one that a block declares with `extern` (3.5).
pub(crate) fn first_linked_object(state: &State, word: &[u8]) -> Result<Option<FactId>, OutOfMemory>
    ensures is { IfOk result (λ first. first ≡ declaring.first_member_object (meaning state.now) (declaring.home_here (meaning state.now)) (spelled word.now)) }
    ensures earlier { IfOk result (λ first. IsEarlierObject state.now word.now first) }
{
    member_object(state, home_here(state), word)
}

// ---- functions

// The first declaration of the function with the parameters of a type that has a name in a scope.
#[tactic(auto, unfolding(cxx_tree::specs::Held::meaning))]
fn function_in(state: &State, of: TypeId, scope: ScopeId, word: &[u8]) -> Option<FactId>
    requires { of.0 < length (state.now).types }
    ensures is { result ≡ declaring.first_function (type_of state.now of) (declared_in (meaning state.now).graph scope.0 (spelled word.now)) }
    ensures earlier { IsEarlierFunction state.now word.now result }
{
    state
        .names()
        .first_function(state.graph(), state.types(), of, scope, word)
}

fn linked_function(
    state: &State,
    of: TypeId,
    space: ScopeId,
    word: &[u8],
) -> Result<Option<FactId>, OutOfMemory>
    requires { of.0 < length (state.now).types }
    ensures is { IfOk result (λ first. first ≡ declaring.first_function (type_of state.now of) (linked_in (meaning state.now) space.0 (spelled word.now))) }
    ensures earlier { IfOk result (λ first. IsEarlierFunction state.now word.now first) }
{
    let numbers = state.linked_in(space, word)?;
    Ok(first_function(state.graph(), state.types(), of, numbers.as_slice()))
}

#[tactic(auto, unfolding(cxx_reading::specs::Declaring::first_member_function))]
fn member_function(
    state: &State,
    of: TypeId,
    space: ScopeId,
    word: &[u8],
) -> Result<Option<FactId>, OutOfMemory>
    requires { of.0 < length (state.now).types }
    ensures is { IfOk result (λ first. first ≡ declaring.first_member_function (meaning state.now) space.0 (spelled word.now) (type_of state.now of)) }
    ensures earlier { IfOk result (λ first. IsEarlierFunction state.now word.now first) }
{
    let own = function_in(state, of, space, word);
    let linked = linked_function(state, of, space, word)?;
    Ok(sooner(own, linked))
}

/// The first declaration of the function with the parameters of a type and a name that is a member of the innermost
/// namespace (3.5, 13.1).
pub(crate) fn first_function_here(
    state: &State,
    of: TypeId,
    word: &[u8],
) -> Result<Option<FactId>, OutOfMemory>
    requires { of.0 < length (state.now).types }
    ensures is { IfOk result (λ first. first ≡ declaring.first_member_function (meaning state.now) (declaring.home_here (meaning state.now)) (spelled word.now) (type_of state.now of)) }
    ensures earlier { IfOk result (λ first. IsEarlierFunction state.now word.now first) }
{
    member_function(state, of, home_here(state), word)
}
