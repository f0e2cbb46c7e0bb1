//! Classes that are named, and not defined there (3.3.1, 7.1.5.3, 9.1).

ghost use Rattle.std.specs.Prelude.{◌≡◌, ◌<◌, length, option_map, IfOk, IfSome};
ghost use Rattle.cxx_model.specs.Facts.Declarations.{fact_at, spelled as spelled_name};
ghost use Rattle.cxx_model.specs.Facts.Graph.{scopes};
ghost use Rattle.cxx_model.specs.Types.Trees.{class_type};
ghost use Rattle.cxx_meaning.specs.Lookups.Wanted.{types_only};
ghost use Rattle.cxx_names.specs.Looked.{class_named_at};
ghost use Rattle.cxx_reading.specs.Classes as definition;
ghost use Rattle.cxx_reading.specs.Paths.{name_in, sought_in};
ghost use Rattle.cxx_reading.specs.Seen.{declared_in, fact_numbers, numbered_at};
ghost use Rattle.cxx_reading.specs.Trees.{last_part};
ghost use Rattle.cxx_declare.specs.Classes.{IsClassFact, IsNextClass, declared_as, next_added, next_declared};
ghost use Rattle.cxx_declare.specs.Made.{IsReady, IsTypeThere, made, word_in};
ghost use Rattle.cxx_tree.specs.Answered.{IsAnswered};
ghost use Rattle.cxx_tree.specs.Arena.{path_at};
ghost use Rattle.cxx_tree.specs.Held.{meaning, type_of};

use crate::conflict::{free, same_bool};
use crate::facts::{declare, fact_in};
use crate::parts::spelled;
use cxx_found::{Found, Wanted};
use cxx_model::{ClassId, Entity, Fact, FactId, Path, Place, ScopeId, Stop, TypeId};
use cxx_names::{NamedClass, first_class};
use cxx_paths::{
    last_place, last_word, name_sought, place_among, region_here, set_in, unambiguous_name,
    undeclared_name, wrong_name,
};
use cxx_reading::Region;
use cxx_tree::{State, is_plain_path};
use std::alloc::AllocError;

fn class_type(state: &mut State, class: ClassId) -> Result<TypeId, Stop>
    requires { class.0 < length (state.old).graph.classes }
    ensures { IsAnswered type_of IsTypeThere state.old state.new result (Ok (class_type class.0, meaning state.old)) }
{
    match state.class_type(class) {
        Ok(of) => Ok(of),
        Err(_) => Err(Stop::OutOfMemory),
    }
}

// ---- a class is declared (9.1)

// The declaration of a class with a number.
pub(crate) fn class_fact(
    state: &State,
    scope: ScopeId,
    path: &Path,
    class: ClassId,
    is_union: bool,
) -> Result<Fact, AllocError>
    ensures is { IfOk result (λ fact. fact_at (state.now).types fact ≡ definition.class_fact scope.0 (last_part (path_at path.now).parts) class.0 is_union) }
    ensures made { IfOk result (IsClassFact scope class is_union) }
{
    let parts = path.parts.as_slice();
    let name = spelled(state.alloc(), last_word(parts))?;
    Ok(fact_in(
        scope,
        last_place(parts),
        name,
        Entity::Class { class, is_union },
    ))
}

fn declare_fact(state: &mut State, fact: Fact, class: ClassId) -> Result<TypeId, Stop>
    requires ready { IsReady state.old fact }
    requires there { class.0 < length (state.old).graph.classes }
    ensures { IsAnswered type_of IsTypeThere state.old state.new result (declared_as class.0 (fact_at (state.old).types fact) (word_in fact.name) (meaning state.old)) }
{
    match declare(state, fact) {
        Ok(_) => class_type(state, class),
        Err(stop) => Err(stop),
    }
}

// A class that is declared in a scope is declared there again.
fn declare_again(
    state: &mut State,
    scope: ScopeId,
    path: &Path,
    is_union: bool,
    class: ClassId,
) -> Result<TypeId, Stop>
    requires scope { scope.0 < scopes (state.old).graph.facts }
    requires class { class.0 < length (state.old).graph.classes }
    ensures { IsAnswered type_of IsTypeThere state.old state.new result (definition.declare_again scope.0 (last_part (path_at path.now).parts) is_union class.0 (meaning state.old)) }
{
    match class_fact(state, scope, path, class, is_union) {
        Ok(fact) => declare_fact(state, fact, class),
        Err(_) => Err(Stop::OutOfMemory),
    }
}

// Adds the first declaration of a class that was reserved.
#[tactic(auto, using(cxx_names::proofs::Plain::plain_fact))]
fn add_next(state: &mut State, fact: Fact, class: ClassId) -> Result<TypeId, Stop>
    requires ready { IsReady state.old fact }
    requires there { class.0 < length (state.old).graph.classes }
    ensures { IsAnswered type_of IsTypeThere state.old state.new result (next_added class.0 (fact_at (state.old).types fact) (meaning state.old)) }
{
    match state.add(fact) {
        Ok(_) => class_type(state, class),
        Err(stop) => Err(stop),
    }
}

// One more class is reserved, and its first declaration is added.
fn declare_next(state: &mut State, fact: Fact, class: ClassId) -> Result<TypeId, Stop>
    requires { IsNextClass state.old class fact }
    ensures { IsAnswered type_of IsTypeThere state.old state.new result (next_declared class.0 (fact_at (state.old).types fact) (word_in fact.name) (meaning state.old)) }
{
    match free(state, &fact) {
        Ok(()) => match state.reserve_class() {
            Ok(_) => add_next(state, fact, class),
            Err(stop) => Err(stop),
        },
        Err(stop) => Err(stop),
    }
}

/// The number of the next class.
pub(crate) fn next_class(state: &State) -> ClassId
    ensures { result.0 ≡ length (state.now).graph.classes }
{
    ClassId(state.graph().class_count())
}

fn declare_new(
    state: &mut State,
    scope: ScopeId,
    path: &Path,
    is_union: bool,
) -> Result<TypeId, Stop>
    requires { scope.0 < scopes (state.old).graph.facts }
    ensures { IsAnswered type_of IsTypeThere state.old state.new result (definition.declare_new scope.0 (last_part (path_at path.now).parts) is_union (meaning state.old)) }
{
    let class = next_class(state);
    match class_fact(state, scope, path, class, is_union) {
        Ok(fact) => declare_next(state, fact, class),
        Err(_) => Err(Stop::OutOfMemory),
    }
}

/// The class that a name declares in a scope already.
pub(crate) fn class_in(state: &State, scope: ScopeId, word: &[u8]) -> Option<NamedClass>
    ensures is { option_map class_named_at result ≡ definition.first_class (declared_in (meaning state.now).graph scope.0 (spelled_name word.now)) }
    ensures there { IfSome result (λ one. one.class.0 < length (state.now).graph.classes) }
{
    let graph = state.graph();
    graph.in_range();
    first_class(graph, state.names().declared_in(graph, scope, word))
}

// A class is declared in a scope (9.1).
#[tactic(auto, unfolding(cxx_reading::specs::Classes::declare_class))]
fn declare_class(
    state: &mut State,
    scope: ScopeId,
    path: &Path,
    is_union: bool,
) -> Result<TypeId, Stop>
    requires { scope.0 < scopes (state.old).graph.facts }
    ensures { IsAnswered type_of IsTypeThere state.old state.new result (definition.declare_class scope.0 (last_part (path_at path.now).parts) is_union (meaning state.old)) }
{
    match class_in(state, scope, last_word(path.parts.as_slice())) {
        Some(one) => declare_again(state, scope, path, is_union, one.class),
        None => declare_new(state, scope, path, is_union),
    }
}

// ---- a class is named (3.4.4, 7.1.5.3)

// The innermost scope that is that of no class and of no parameters (3.3.1).
#[tactic(auto, unfolding(cxx_tree::specs::Held::meaning))]
fn open_scope(state: &State) -> ScopeId
    ensures is { result.0 ≡ definition.open_of (meaning state.now).graph (meaning state.now).here.scope }
    ensures there { result.0 < scopes (state.now).graph.facts }
{
    let graph = state.graph();
    graph.in_range();
    state.names().open_scope(graph, state.scope())
}

// A name alone that means no type declares a class (3.3.1).
fn class_missing(state: &mut State, path: &Path, is_union: bool) -> Result<TypeId, Stop>
    ensures { IsAnswered type_of IsTypeThere state.old state.new result (definition.class_missing (path_at path.now) is_union (meaning state.old)) }
{
    if is_plain_path(path) {
        return declare_class(state, open_scope(state), path, is_union);
    }
    Err(undeclared_name(state, path))
}

// The first class among declarations.
pub(crate) fn class_of(state: &State, numbers: &[FactId]) -> Option<NamedClass>
    ensures is { option_map class_named_at result ≡ definition.first_class (numbered_at (meaning state.now).graph (fact_numbers numbers.now)) }
    ensures there { IfSome result (λ one. one.class.0 < length (state.now).graph.classes) }
{
    let graph = state.graph();
    graph.in_range();
    first_class(graph, numbers)
}

// Whether a class may be named by the key of a union, or by another one.
pub(crate) fn is_of_key(one: Option<bool>, is_union: bool) -> bool
    ensures { result ≡ definition.is_of_key one is_union }
{
    match one {
        None => true,
        Some(one) => same_bool(one, is_union),
    }
}

// A union is named by its key alone (7.1.5.3).
fn class_taken(
    state: &mut State,
    path: &Path,
    other: Place,
    is_union: bool,
    named: Option<NamedClass>,
) -> Result<TypeId, Stop>
    requires { IfSome named (λ one. one.class.0 < length (state.old).graph.classes) }
    ensures { IsAnswered type_of IsTypeThere state.old state.new result (definition.class_taken (last_part (path_at path.now).parts) other is_union (option_map class_named_at named) (meaning state.old)) }
{
    match named {
        Some(one) if is_of_key(one.is_union, is_union) => class_type(state, one.class),
        _ => Err(wrong_name(state, path, other)),
    }
}

fn class_among(
    state: &mut State,
    path: &Path,
    is_union: bool,
    numbers: &[FactId],
) -> Result<TypeId, Stop>
    ensures { IsAnswered type_of IsTypeThere state.old state.new result (definition.class_among (path_at path.now) is_union (numbered_at (meaning state.old).graph (fact_numbers numbers.now)) (meaning state.old)) }
{
    let named = class_of(state, numbers);
    match place_among(state, numbers) {
        None => class_missing(state, path, is_union),
        Some(other) => class_taken(state, path, other, is_union, named),
    }
}

#[tactic(auto, using(cxx_paths::proofs::Stopping::clear_then, cxx_paths::proofs::Stopping::clear_stopped))]
fn class_found(
    state: &mut State,
    path: &Path,
    is_union: bool,
    found: &Found,
) -> Result<TypeId, Stop>
    ensures { IsAnswered type_of IsTypeThere state.old state.new result (definition.class_found (path_at path.now) is_union found.now (meaning state.old)) }
{
    match unambiguous_name(state, path, found) {
        Ok(()) => class_among(state, path, is_union, set_in(found)),
        Err(stop) => Err(stop),
    }
}

fn class_named_in(
    state: &mut State,
    path: &Path,
    is_union: bool,
    region: Region,
) -> Result<TypeId, Stop>
    ensures { IsAnswered type_of IsTypeThere state.old state.new result (definition.class_found (path_at path.now) is_union (sought_in (meaning state.old).graph types_only region (name_in (path_at path.now))) (meaning state.old)) }
{
    match name_sought(state, Wanted::Types, region, path) {
        Ok(found) => class_found(state, path, is_union, &found),
        Err(_) => Err(Stop::OutOfMemory),
    }
}

#[tactic(auto, using(cxx_paths::proofs::Stopping::region_then, cxx_paths::proofs::Stopping::region_stopped), unfolding(cxx_reading::specs::Classes::class_named))]
fn class_named(state: &mut State, path: &Path, is_union: bool) -> Result<TypeId, Stop>
    ensures { IsAnswered type_of IsTypeThere state.old state.new result (definition.class_named (path_at path.now) is_union (meaning state.old)) }
{
    match region_here(state, path) {
        Ok(region) => class_named_in(state, path, is_union, region),
        Err(stop) => Err(stop),
    }
}

/// The class that a name behind `class`, `struct` or `union` means, where the key and the name may be all of their
/// declaration (3.3.1, 3.4.4, 7.1.5.3).
#[tactic(auto, unfolding(cxx_reading::specs::Classes::class_here, cxx_tree::specs::Held::meaning))]
pub fn class_here(
    state: &mut State,
    path: &Path,
    is_union: bool,
    is_all: bool,
) -> Result<TypeId, Stop>
    ensures { IsAnswered type_of IsTypeThere state.old state.new result (definition.class_here is_union is_all (path_at path.now) (meaning state.old)) }
{
    if is_all {
        return declare_class(state, state.scope(), path, is_union);
    }
    class_named(state, path, is_union)
}
