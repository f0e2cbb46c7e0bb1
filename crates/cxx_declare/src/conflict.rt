//! What stands in the way of a declaration (3.2, 3.3, 3.5).

ghost use Rattle.std.specs.Prelude.{◌≡◌, ◌&&◌, not, [], ◌∷◌, false, true, List, length, None, Some, if◌then◌else◌, IfOk, option_map};
ghost use Rattle.std.specs.List.{slice_get};
ghost use Rattle.cxx_model.specs.Facts.Conflicts.{defined_before, first_conflict as first_conflict_of};
ghost use Rattle.cxx_model.specs.Facts.Declarations.{declares_at, fact_at, name_at};
ghost use Rattle.cxx_model.specs.Facts.Entities.{entity_by};
ghost use Rattle.cxx_model.specs.Facts.Fitted.{IsFactBelow};
ghost use Rattle.cxx_model.specs.Stops.{Gives};
ghost use Rattle.cxx_model.specs.Types.Same.{same_bool as same_bool_of};
ghost use Rattle.cxx_model.specs.Types.Trees.{CxxType};
ghost use Rattle.cxx_defined.specs.Defined.{IsOwnEntity};
ghost use Rattle.cxx_names.specs.Clashes.{IsPlain, IsPlainName, number_in};
ghost use Rattle.cxx_reading.specs.Declaring as declaring;
ghost use Rattle.cxx_reading.specs.Declaring.{free_by, undefined_by};
ghost use Rattle.cxx_reading.specs.Linked as linked_by;
ghost use Rattle.cxx_reading.specs.Linked.{is_an_object as is_one_object, linked_in};
ghost use Rattle.cxx_reading.specs.Seen.{declared_in, fact_numbers, numbered_at};
ghost use Rattle.cxx_declare.specs.Functions.{free_if as free_if_by};
ghost use Rattle.cxx_declare.specs.Made.{IsReady, definable_by, definable_object_by, is_object_there, moved, word_in};
ghost use Rattle.cxx_tree.specs.Held.{meaning};

use crate::members::{class_of_here, home_of, is_space, sooner};
use crate::parts::{conflicting, fact_of, first_of, spelled, word_of};
use cxx_graph::Graph;
use cxx_model::{ClassId, Entity, Fact, FactId, FactList, Name, OutOfMemory, Place, ScopeId, Stop};
use cxx_paths::place_of;
use cxx_tree::State;
use std::alloc::{AllocError, Global};

// ---- those of the scope itself

#[tactic(auto, unfolding(cxx_tree::specs::Held::meaning))]
fn first_conflict(state: &State, fact: &Fact) -> Option<FactId>
    requires below { IsFactBelow (length (state.now).types) fact.now }
    requires plain { IsPlain fact.now }
    ensures { option_map number_in result ≡ first_conflict_of (meaning state.now).graph (fact_at (state.now).types fact.now) }
{
    state
        .names()
        .first_conflict(state.graph(), state.types(), fact)
}

// ---- what is linked to a namespace (3.5)

// The linked declarations that declare a member of a namespace with a name.
#[tactic(auto, unfolding(cxx_tree::specs::Held::meaning))]
fn linked_named(state: &State, space: ScopeId, name: &Name) -> Result<FactList, OutOfMemory>
    requires { IsPlainName name.now }
    ensures { IfOk result (λ numbers. numbered_at (meaning state.now).graph (fact_numbers numbers) ≡ linked_in (meaning state.now) space.0 (name_at (state.now).types name.now)) }
{
    match name {
        Name::Spelled(word) => state.linked_in(space, word.as_slice()),
        _ => Ok(FactList::new(state.alloc())),
    }
}

// The first of some declarations with which a new one conflicts, as if they stood in its scope.
#[tactic(auto, unfolding(cxx_tree::specs::Held::meaning))]
fn clash_among(state: &State, numbers: &[FactId], fact: &Fact) -> Option<FactId>
    requires below { IsFactBelow (length (state.now).types) fact.now }
    requires plain { IsPlain fact.now }
    ensures { option_map number_in result ≡ linked_by.clash_among (meaning state.now).graph (fact_at (state.now).types fact.now) (numbered_at (meaning state.now).graph (fact_numbers numbers.now)) }
{
    state
        .names()
        .clash_among(state.graph(), state.types(), numbers, fact)
}

fn clash_linked(state: &State, space: ScopeId, fact: &Fact) -> Result<Option<FactId>, OutOfMemory>
    requires below { IsFactBelow (length (state.now).types) fact.now }
    requires plain { IsPlain fact.now }
    ensures { IfOk result (λ clash. option_map number_in clash ≡ linked_by.clash_among (meaning state.now).graph (fact_at (state.now).types fact.now) (linked_in (meaning state.now) space.0 (name_at (state.now).types (fact.now).name))) }
{
    let numbers = linked_named(state, space, &fact.name)?;
    Ok(clash_among(state, numbers.as_slice(), fact))
}

fn name_again(alloc: Global, name: &Name) -> Result<Name, AllocError>
    requires { IsPlainName name.now }
    ensures { IfOk result (λ again. again ≡ name.now) }
{
    match name {
        Name::Spelled(word) => spelled(alloc, word.as_slice()),
        _ => Ok(Name::Unnamed),
    }
}

// The same declaration in another scope.
fn rescoped(alloc: Global, space: ScopeId, fact: &Fact) -> Result<Fact, AllocError>
    requires { IsPlainName (fact.now).name }
    ensures { IfOk result (λ other. other ≡ moved space fact.now) }
{
    let name = name_again(alloc, &fact.name)?;
    Ok(Fact {
        place: fact.place,
        scope: space,
        name,
        access: fact.access,
        what: fact.what,
    })
}

fn clash_moved(state: &State, space: ScopeId, fact: &Fact) -> Result<Option<FactId>, OutOfMemory>
    requires below { IsFactBelow (length (state.now).types) fact.now }
    requires plain { IsPlain fact.now }
    ensures { IfOk result (λ clash. option_map number_in clash ≡ linked_by.sooner (first_conflict_of (meaning state.now).graph (fact_at (state.now).types fact.now)) (linked_by.clash_among (meaning state.now).graph (fact_at (state.now).types fact.now) (linked_in (meaning state.now) space.0 (name_at (state.now).types (fact.now).name)))) }
{
    let own = first_conflict(state, fact);
    let linked = clash_linked(state, space, fact)?;
    Ok(sooner(own, linked))
}

// The first that conflicts with a new one, as if that stood in a namespace.
#[tactic(auto, unfolding(cxx_reading::specs::Linked::clash_in_space))]
fn clash_in_space(state: &State, space: ScopeId, fact: &Fact) -> Result<Option<FactId>, OutOfMemory>
    requires below { IsFactBelow (length (state.now).types) fact.now }
    requires plain { IsPlain fact.now }
    ensures { IfOk result (λ clash. option_map number_in clash ≡ linked_by.clash_in_space (meaning state.now) space.0 (fact_at (state.now).types fact.now)) }
{
    let other = rescoped(state.alloc(), space, fact)?;
    clash_moved(state, space, &other)
}

// ---- objects of blocks

pub(crate) fn same_bool(one: bool, two: bool) -> bool
    ensures { result ≡ same_bool_of one two }
{
    if one { two } else { !two }
}

fn is_object(what: Entity) -> bool
    ensures { (types : List CxxType) → result ≡ is_one_object (declares_at types what) }
{
    match what {
        Entity::Object { .. } => true,
        _ => false,
    }
}

fn is_object_at(graph: &Graph, number: FactId) -> bool
    ensures { (types : List CxxType) → result ≡ is_object_there types (slice_get graph.now.facts number.0) }
{
    match fact_of(graph, number) {
        Some(fact) => is_object(fact.what),
        None => false,
    }
}

fn is_apart_by(object: bool, linked: bool, other: bool) -> bool
    ensures { result ≡ (object && not (same_bool_of linked other)) }
{
    object && !same_bool(linked, other)
}

// Whether a declaration is one of an object that is linked, where a new one is not, or the other way round.
fn is_apart(state: &State, linked: bool, number: FactId) -> bool
    ensures { (if result then Some number.0 else None) ≡ linked_by.first_apart (meaning state.now) linked (numbered_at (meaning state.now).graph (fact_numbers (number ∷ []))) }
{
    let object = is_object_at(state.graph(), number);
    is_apart_by(object, linked, state.is_linked(number))
}

fn first_apart(state: &State, linked: bool, numbers: &[FactId]) -> Option<FactId>
    ensures { option_map number_in result ≡ linked_by.first_apart (meaning state.now) linked (numbered_at (meaning state.now).graph (fact_numbers numbers.now)) }
{
    for number in numbers {
        if is_apart(state, linked, *number) {
            return Some(*number);
        }
    }
    None
}

// The declarations of a name in a scope.
#[tactic(auto, unfolding(cxx_tree::specs::Held::meaning))]
fn declared_named<'a>(state: &'a State, scope: ScopeId, name: &Name) -> &'a [FactId]
    requires { IsPlainName name.now }
    ensures { numbered_at (meaning state.now).graph (fact_numbers result.now) ≡ declared_in (meaning state.now).graph scope.0 (name_at (state.now).types name.now) }
{
    match name {
        Name::Spelled(word) => state
            .names()
            .declared_in(state.graph(), scope, word.as_slice()),
        _ => &[],
    }
}

// The first object of a block with a name that is linked, where a new one is not, or the other way round.
#[tactic(auto, unfolding(cxx_reading::specs::Linked::clash_apart))]
fn clash_apart(state: &State, linked: bool, fact: &Fact) -> Option<FactId>
    requires { IsPlainName (fact.now).name }
    ensures { option_map number_in result ≡ linked_by.clash_apart (meaning state.now) linked (fact_at (state.now).types fact.now) }
{
    if is_object(fact.what) {
        first_apart(state, linked, declared_named(state, fact.scope, &fact.name))
    } else {
        None
    }
}

// ---- all of them

// Those with which a linked declaration of a block conflicts: those of its block, and of its namespace.
fn clash_of_linked(state: &State, fact: &Fact) -> Result<Option<FactId>, OutOfMemory>
    requires below { IsFactBelow (length (state.now).types) fact.now }
    requires plain { IsPlain fact.now }
    ensures { IfOk result (λ clash. option_map number_in clash ≡ linked_by.sooner (linked_by.clash_apart (meaning state.now) true (fact_at (state.now).types fact.now)) (linked_by.clash_in_space (meaning state.now) (linked_by.home_of (meaning state.now).graph (fact.now).scope.0) (fact_at (state.now).types fact.now))) }
{
    let own = clash_apart(state, true, fact);
    let other = clash_in_space(state, home_of(state, fact.scope), fact)?;
    Ok(sooner(own, other))
}

// What a declaration meets besides those of its scope.
#[tactic(auto, unfolding(cxx_reading::specs::Linked::clash_besides))]
fn clash_besides(state: &State, linked: bool, fact: &Fact) -> Result<Option<FactId>, OutOfMemory>
    requires below { IsFactBelow (length (state.now).types) fact.now }
    requires plain { IsPlain fact.now }
    ensures { IfOk result (λ clash. option_map number_in clash ≡ linked_by.clash_besides (meaning state.now) linked (fact_at (state.now).types fact.now)) }
{
    if is_space(state, fact.scope) {
        return clash_linked(state, fact.scope, fact);
    }
    if linked {
        return clash_of_linked(state, fact);
    }
    Ok(clash_apart(state, false, fact))
}

#[tactic(auto, unfolding(cxx_reading::specs::Linked::first_clash))]
fn first_clash(state: &State, linked: bool, fact: &Fact) -> Result<Option<FactId>, OutOfMemory>
    requires below { IsFactBelow (length (state.now).types) fact.now }
    requires plain { IsPlain fact.now }
    ensures { IfOk result (λ clash. option_map number_in clash ≡ linked_by.first_clash (meaning state.now) linked (fact_at (state.now).types fact.now)) }
{
    let own = first_conflict(state, fact);
    let other = clash_besides(state, linked, fact)?;
    Ok(sooner(own, other))
}

#[tactic(auto, unfolding(cxx_tree::specs::Held::meaning))]
fn free_with(state: &State, fact: &Fact, conflict: Option<FactId>) -> Result<(), Stop>
    ensures { Gives (λ unit. unit) result (free_by (meaning state.now) (fact_at (state.now).types fact.now) (word_in (fact.now).name) (option_map number_in conflict)) }
{
    match conflict {
        None => Ok(()),
        Some(number) => {
            let other = place_of(state.graph(), number);
            Err(Stop::Fault(conflicting(state.alloc(), fact.place, word_of(&fact.name), other)?))
        }
    }
}

fn free_by_clash(state: &State, linked: bool, fact: &Fact) -> Result<(), Stop>
    requires below { IsFactBelow (length (state.now).types) fact.now }
    requires plain { IsPlain fact.now }
    ensures { Gives (λ unit. unit) result (free_by (meaning state.now) (fact_at (state.now).types fact.now) (word_in (fact.now).name) (linked_by.first_clash (meaning state.now) linked (fact_at (state.now).types fact.now))) }
{
    match first_clash(state, linked, fact) {
        Ok(clash) => free_with(state, fact, clash),
        Err(_) => Err(Stop::OutOfMemory),
    }
}

/// No declaration stands in the way of a new one (3.3).
#[tactic(auto, unfolding(cxx_reading::specs::Declaring::free))]
pub(crate) fn free(state: &State, fact: &Fact) -> Result<(), Stop>
    requires below { IsFactBelow (length (state.now).types) fact.now }
    requires plain { IsPlain fact.now }
    ensures { Gives (λ unit. unit) result (declaring.free (meaning state.now) (fact_at (state.now).types fact.now) (word_in (fact.now).name)) }
{
    free_by_clash(state, false, fact)
}

fn free_in_class(state: &State, class: Option<ClassId>, fact: &Fact) -> Result<(), Stop>
    requires below { IsFactBelow (length (state.now).types) fact.now }
    requires plain { IsPlain fact.now }
    ensures { Gives (λ unit. unit) result (declaring.free_in_class (meaning state.now) (fact_at (state.now).types fact.now) (word_in (fact.now).name) class) }
{
    match class {
        None => free(state, fact),
        Some(_) => Ok(()),
    }
}

/// The same of an object; nothing that a class declares stands in the way of its static member (9.4.2).
#[tactic(auto, unfolding(cxx_reading::specs::Declaring::free_object))]
pub(crate) fn free_object(state: &State, fact: &Fact) -> Result<(), Stop>
    requires below { IsFactBelow (length (state.now).types) fact.now }
    requires plain { IsPlain fact.now }
    ensures { Gives (λ unit. unit) result (declaring.free_object (meaning state.now) (fact_at (state.now).types fact.now) (word_in (fact.now).name)) }
{
    free_in_class(state, class_of_here(state), fact)
}

/// The same of one in a block that declares a member of its namespace (3.5).
#[tactic(auto, unfolding(cxx_reading::specs::Declaring::free_linked))]
pub(crate) fn free_linked(state: &State, fact: &Fact) -> Result<(), Stop>
    requires below { IsFactBelow (length (state.now).types) fact.now }
    requires plain { IsPlain fact.now }
    ensures { Gives (λ unit. unit) result (declaring.free_linked (meaning state.now) (fact_at (state.now).types fact.now) (word_in (fact.now).name)) }
{
    free_by_clash(state, true, fact)
}

/// The one or the other.
pub(crate) fn free_if(state: &State, linked: bool, fact: &Fact) -> Result<(), Stop>
    requires below { IsFactBelow (length (state.now).types) fact.now }
    requires plain { IsPlain fact.now }
    ensures { Gives (λ unit. unit) result (free_if_by linked (meaning state.now) (fact_at (state.now).types fact.now) (word_in (fact.now).name)) }
{
    if linked {
        free_linked(state, fact)
    } else {
        free(state, fact)
    }
}

#[tactic(auto, unfolding(cxx_tree::specs::Held::meaning))]
fn undefined_with(
    state: &State,
    place: Place,
    word: &[u8],
    definition: Option<FactId>,
) -> Result<(), Stop>
    ensures { Gives (λ unit. unit) result (undefined_by (meaning state.now) place word.now (option_map number_in definition)) }
{
    match definition {
        None => Ok(()),
        Some(number) => {
            let other = place_of(state.graph(), number);
            Err(Stop::Fault(conflicting(state.alloc(), place, word, other)?))
        }
    }
}

// The first definition of what a fact with a number declares.
#[tactic(auto, using(crate::proofs::Defining::before_is), unfolding(cxx_tree::specs::Held::meaning))]
fn definition_of(state: &State, number: FactId, what: Entity) -> Option<FactId>
    requires { IsOwnEntity what }
    ensures { option_map number_in result ≡ defined_before (meaning state.now).graph.facts (meaning state.now).defined (entity_by number.0 (declares_at (state.now).types what)) }
{
    if let Entity::Class { class, .. } = what {
        return state.definitions().first_of_class(class);
    }
    state.definitions().before(first_of(number, what))
}

/// What a fact with a number declares has no definition yet (3.2).
#[tactic(auto, unfolding(cxx_reading::specs::Declaring::undefined))]
pub(crate) fn undefined(
    state: &State,
    place: Place,
    word: &[u8],
    number: FactId,
    what: Entity,
) -> Result<(), Stop>
    requires { IsOwnEntity what }
    ensures { Gives (λ unit. unit) result (declaring.undefined (meaning state.now) place word.now number.0 (declares_at (state.now).types what)) }
{
    let definition = definition_of(state, number, what);
    undefined_with(state, place, word, definition)
}

/// Nothing stands in the way of a definition (3.2, 3.3).
pub(crate) fn definable(state: &State, fact: &Fact) -> Result<(), Stop>
    requires ready { IsReady state.now fact.now }
    requires own { IsOwnEntity (fact.now).what }
    ensures { Gives (λ unit. unit) result (definable_by (meaning state.now) (fact.now).place (word_in (fact.now).name) (fact_at (state.now).types fact.now)) }
{
    free(state, fact)?;
    let number = FactId(state.graph().length());
    undefined(state, fact.place, word_of(&fact.name), number, fact.what)
}

/// The same of the definition of an object.
pub(crate) fn definable_object(state: &State, fact: &Fact) -> Result<(), Stop>
    requires ready { IsReady state.now fact.now }
    requires own { IsOwnEntity (fact.now).what }
    ensures { Gives (λ unit. unit) result (definable_object_by (meaning state.now) (fact.now).place (word_in (fact.now).name) (fact_at (state.now).types fact.now)) }
{
    free_object(state, fact)?;
    let number = FactId(state.graph().length());
    undefined(state, fact.place, word_of(&fact.name), number, fact.what)
}
