//! Friends of classes (11.4).

ghost use Rattle.std.specs.Prelude.{◌≡◌, ◌<◌, true, length, IfSome, List, option_map};
ghost use Rattle.std.specs.List.{slice_get};
ghost use Rattle.cxx_model.specs.declared.facts.Entity.TheVariants as entity;
ghost use Rattle.cxx_model.specs.declared.facts.Name.TheVariants.{Unnamed};
ghost use Rattle.cxx_model.specs.declared.token.TokenKind.{TokenKind};
ghost use Rattle.cxx_model.specs.Facts.Declarations.{declares_at, fact_at, facts_at, graph_at, spelled as spelled_name};
ghost use Rattle.cxx_model.specs.Facts.Graph.{IsClassNumberInRange, scopes};
ghost use Rattle.cxx_model.specs.Types.Trees.{CxxType};
ghost use Rattle.cxx_meaning.specs.Lookups.Wanted.{types_only};
ghost use Rattle.cxx_names.specs.Looked.{class_named_at};
ghost use Rattle.cxx_reading.specs.Classes.{first_class as first_class_of};
ghost use Rattle.cxx_reading.specs.Declaring.{class_of_here};
ghost use Rattle.cxx_reading.specs.Linked.{home_of as home_in};
ghost use Rattle.cxx_reading.specs.Paths.{name_in, place_of_fact, sought_in};
ghost use Rattle.cxx_reading.specs.Seen.{declared_in, fact_numbers, numbered_at};
ghost use Rattle.cxx_reading.specs.Trees.{is_plain_path as is_plain_path_of, last_part};
ghost use Rattle.cxx_declare.specs.Befriended.{brought_by, class_declared, is_declared, next_numbered, number_of_fact};
ghost use Rattle.cxx_declare.specs.Classes.{IsNextClass};
ghost use Rattle.cxx_declare.specs.Friends as friends;
ghost use Rattle.cxx_declare.specs.Made.{made, token, word_in};
ghost use Rattle.cxx_tree.specs.Answered.{AnyKnown, IsAnswered, IsFactKnown, fact_number, itself, scope_of_option};
ghost use Rattle.cxx_tree.specs.Arena.{path_at};
ghost use Rattle.cxx_tree.specs.Held.{meaning, type_of};

use crate::again::declare_again;
use crate::bases::add_told;
use crate::classes::{class_fact, class_in, class_of, is_of_key, next_class};
use crate::conflict::free;
use crate::facts::fact_in;
use crate::functions::declare_unread;
use crate::members::home_of;
use crate::parts::fact_of;
use cxx_found::{Found, Wanted};
use cxx_graph::Graph;
use cxx_model::{ClassId, Cv, Entity, Fact, FactId, Name, Path, Place, ScopeId, Stop, TypeId};
use cxx_names::NamedClass;
use cxx_paths::{
    last_place, last_word, name_sought, place_of, region_here, set_in, unambiguous_name,
    undeclared_name, wrong_name,
};
use cxx_reading::Region;
use cxx_tree::{State, is_plain_path};

// ---- what is befriended is noted in the class

fn friend_fact(scope: ScopeId, place: Place, class: ClassId, target: FactId) -> Fact
    ensures { result ≡ made scope place Unnamed (entity.Friend class target) }
{
    fact_in(
        scope,
        place,
        Name::Unnamed,
        Entity::Friend { class, target },
    )
}

// The class in whose scope the reader stands, which is there.
#[tactic(auto, unfolding(cxx_tree::specs::Held::meaning))]
fn class_here(state: &State) -> Option<ClassId>
    ensures is { result ≡ class_of_here (meaning state.now) }
    ensures there { IsClassNumberInRange (state.now).graph result }
{
    let graph = state.graph();
    graph.in_range();
    state.names().class_of_scope(graph, state.scope())
}

fn befriend_by(
    state: &mut State,
    class: Option<ClassId>,
    place: Place,
    target: FactId,
) -> Result<(), Stop>
    requires class { IsClassNumberInRange (state.old).graph class }
    requires target { target.0 < length (state.old).graph.facts }
    ensures { IsAnswered itself AnyKnown state.old state.new result (friends.befriend_by place target.0 class (meaning state.old)) }
{
    match class {
        None => Ok(()),
        Some(class) => {
            let scope = state.scope();
            add_told(state, friend_fact(scope, place, class, target))
        }
    }
}

// The class in whose scope the reader stands befriends what was declared.
fn befriend(state: &mut State, place: Place, number: FactId) -> Result<(), Stop>
    requires { number.0 < length (state.old).graph.facts }
    ensures { IsAnswered itself AnyKnown state.old state.new result (friends.befriend place number.0 (meaning state.old)) }
{
    let class = class_here(state);
    befriend_by(state, class, place, number)
}

// The same in the scope of the class, where the reader stands then.
fn befriend_in(
    state: &mut State,
    scope: ScopeId,
    place: Place,
    number: FactId,
) -> Result<FactId, Stop>
    requires { number.0 < length (state.old).graph.facts }
    ensures { IsAnswered fact_number AnyKnown state.old state.new result (friends.befriended scope.0 place (number.0, meaning state.old)) }
{
    // No reader asks for a scope that has not begun.
    if scope.0 >= state.names().scopes(state.graph()).0 {
        return Err(Stop::OutOfMemory);
    }
    state.set_scope(scope);
    match befriend(state, place, number) {
        Ok(()) => Ok(number),
        Err(stop) => Err(stop),
    }
}

// ---- functions

// The innermost namespace where the reader stands, which is there.
#[tactic(auto, unfolding(cxx_tree::specs::Held::meaning))]
fn home_here(state: &State) -> ScopeId
    ensures is { result.0 ≡ home_in (meaning state.now).graph (meaning state.now).here.scope }
    ensures there { result.0 < scopes (state.now).graph.facts }
{
    let graph = state.graph();
    graph.in_range();
    state.names().home(graph, state.scope())
}

/// A class befriends a function whose name has no qualifiers: one of the innermost namespace round the class, where it is
/// declared (7.3.1.2 p3). The reader stands in the given scope then, which is that of the class. The declarator has its own list
/// of parameters with that scope, or none.
#[tactic(auto, unfolding(crate::specs::Friends::befriend_function))]
pub fn befriend_function(
    state: &mut State,
    scope: ScopeId,
    list: Option<ScopeId>,
    place: Place,
    word: &[u8],
    of: TypeId,
) -> Result<FactId, Stop>
    requires { of.0 < length (state.old).types }
    ensures { (kind : TokenKind) → IsAnswered fact_number AnyKnown state.old state.new result (friends.befriend_function scope.0 (scope_of_option list) (token kind place word.now) (type_of state.old of) (meaning state.old)) }
{
    let home = home_here(state);
    state.set_scope(home);
    match declare_unread(state, list, place, word, of) {
        Ok(number) => befriend_in(state, scope, place, number),
        Err(stop) => Err(stop),
    }
}

/// A class befriends a function whose name has qualifiers, which is declared again where its declarator stands (8.3, 11.4). The
/// reader stands in the given scope then, which is that of the class.
pub fn befriend_again(
    state: &mut State,
    scope: ScopeId,
    place: Place,
    word: &[u8],
    cv: Cv,
    of: TypeId,
) -> Result<FactId, Stop>
    requires { of.0 < length (state.old).types }
    ensures { (kind : TokenKind) → IsAnswered fact_number AnyKnown state.old state.new result (friends.befriend_again scope.0 (token kind place word.now) cv (type_of state.old of) (meaning state.old)) }
{
    match declare_again(state, place, word, cv, of) {
        Ok(number) => befriend_in(state, scope, place, number),
        Err(stop) => Err(stop),
    }
}

// ---- classes that are found

// Whether the declaration with a number is there.
fn is_there(graph: &Graph, number: FactId) -> bool
    ensures is { (types : List CxxType) → result ≡ is_declared (slice_get (facts_at types graph.now.facts) number.0) }
    ensures there { result ≡ true → number.0 < length graph.now.facts }
{
    match fact_of(graph, number) {
        Some(_) => true,
        None => false,
    }
}

fn first_of(graph: &Graph, numbers: &[FactId]) -> Option<FactId>
    ensures is { (types : List CxxType) → option_map number_of_fact result ≡ friends.first_number (numbered_at (graph_at types graph.now) (fact_numbers numbers.now)) }
    ensures there { IfSome result (λ number. number.0 < length graph.now.facts) }
{
    for number in numbers {
        if is_there(graph, *number) {
            return Some(*number);
        }
    }
    None
}

// The first of some declarations.
#[tactic(auto, unfolding(cxx_tree::specs::Held::meaning))]
fn first_number(state: &State, numbers: &[FactId]) -> Option<FactId>
    ensures is { option_map number_of_fact result ≡ friends.first_number (numbered_at (meaning state.now).graph (fact_numbers numbers.now)) }
    ensures there { IfSome result (λ number. number.0 < length (state.now).graph.facts) }
{
    first_of(state.graph(), numbers)
}

// Whether a declaration stands within a namespace itself.
fn stands_within(state: &State, home: ScopeId, number: FactId) -> bool
    ensures { result ≡ friends.stands_within (meaning state.now).graph home.0 (slice_get (meaning state.now).graph.facts number.0) }
{
    match fact_of(state.graph(), number) {
        Some(fact) => home_of(state, fact.scope).0 == home.0,
        None => false,
    }
}

fn brings(what: Entity, number: FactId) -> bool
    ensures { (types : List CxxType) → result ≡ friends.brings number.0 (declares_at types what) }
{
    match what {
        Entity::Using { target } => target.0 == number.0,
        _ => false,
    }
}

// Whether a declaration is a using-declaration of the one with a number.
fn is_brought(graph: &Graph, number: FactId, by: FactId) -> bool
    ensures { (types : List CxxType) → result ≡ brought_by number.0 (slice_get (facts_at types graph.now.facts) by.0) }
{
    match fact_of(graph, by) {
        Some(fact) => brings(fact.what, number),
        None => false,
    }
}

fn any_brings(graph: &Graph, number: FactId, numbers: &[FactId]) -> bool
    ensures { (types : List CxxType) → result ≡ friends.any_brings number.0 (numbered_at (graph_at types graph.now) (fact_numbers numbers.now)) }
{
    for by in numbers {
        if is_brought(graph, number, *by) {
            return true;
        }
    }
    false
}

// Whether a using-declaration brings a declaration to a namespace (7.3.3).
fn is_brought_to(state: &State, home: ScopeId, word: &[u8], number: FactId) -> bool
    ensures { result ≡ friends.any_brings number.0 (declared_in (meaning state.now).graph home.0 (spelled_name word.now)) }
{
    let graph = state.graph();
    any_brings(graph, number, state.names().declared_in(graph, home, word))
}

fn is_within(state: &State, home: ScopeId, word: &[u8], number: Option<FactId>) -> bool
    ensures { result ≡ friends.is_within (meaning state.now).graph home.0 word.now (option_map number_of_fact number) }
{
    match number {
        None => false,
        Some(number) => {
            stands_within(state, home, number) || is_brought_to(state, home, word, number)
        }
    }
}

// Whether the lookup may find it (7.3.1.2 p3).
fn is_near(state: &State, home: ScopeId, word: &[u8], found: &Found) -> bool
    ensures { result ≡ friends.is_near (meaning state.now).graph home.0 word.now found.now }
{
    match found {
        Found::Member(_, _) => true,
        _ => is_within(state, home, word, first_number(state, set_in(found))),
    }
}

#[tactic(auto, unfolding(cxx_tree::specs::Held::meaning))]
fn place_at(state: &State, number: FactId) -> Place
    ensures { result ≡ place_of_fact (meaning state.now).graph number.0 }
{
    place_of(state.graph(), number)
}

// The declaration with a number, where it is of a class that may be named by this key (7.1.5.3).
#[tactic(auto, using(cxx_paths::proofs::Stopping::stopped_at))]
fn befriended_as(
    state: &mut State,
    path: &Path,
    is_union: bool,
    number: FactId,
    named: Option<NamedClass>,
) -> Result<FactId, Stop>
    requires { number.0 < length (state.old).graph.facts }
    ensures { IsAnswered fact_number IsFactKnown state.old state.new result (friends.befriended_as (last_part (path_at path.now).parts) (place_of_fact (meaning state.old).graph number.0) is_union number.0 (option_map class_named_at named) (meaning state.old)) }
{
    let other = place_at(state, number);
    match named {
        Some(one) if is_of_key(one.is_union, is_union) => Ok(number),
        _ => Err(wrong_name(state, path, other)),
    }
}

#[tactic(auto, using(cxx_paths::proofs::Stopping::stopped_at))]
fn befriended_all(
    state: &mut State,
    path: &Path,
    is_union: bool,
    numbers: &[FactId],
) -> Result<FactId, Stop>
    ensures { IsAnswered fact_number IsFactKnown state.old state.new result (friends.befriended_all (last_part (path_at path.now).parts) is_union (numbered_at (meaning state.old).graph (fact_numbers numbers.now)) (meaning state.old)) }
{
    let named = class_of(state, numbers);
    match first_number(state, numbers) {
        None => Err(undeclared_name(state, path)),
        Some(number) => befriended_as(state, path, is_union, number, named),
    }
}

// ---- classes of the innermost namespace

// One more class is reserved, and its first declaration is added.
#[tactic(auto, using(cxx_names::proofs::Plain::plain_fact))]
fn declare_next(state: &mut State, fact: Fact, class: ClassId) -> Result<FactId, Stop>
    requires { IsNextClass state.old class fact }
    ensures { IsAnswered fact_number IsFactKnown state.old state.new result (next_numbered (fact_at (state.old).types fact) (word_in fact.name) (meaning state.old)) }
{
    match free(state, &fact) {
        Ok(()) => match state.reserve_class() {
            Ok(_) => state.add(fact),
            Err(stop) => Err(stop),
        },
        Err(stop) => Err(stop),
    }
}

// A class that is declared nowhere is declared by its friend declaration (7.3.1.2 p3).
fn befriend_new(
    state: &mut State,
    path: &Path,
    is_union: bool,
    home: ScopeId,
) -> Result<FactId, Stop>
    requires { home.0 < scopes (state.old).graph.facts }
    ensures { IsAnswered fact_number IsFactKnown state.old state.new result (friends.befriend_new (last_part (path_at path.now).parts) is_union home.0 (meaning state.old)) }
{
    let class = next_class(state);
    match class_fact(state, home, path, class, is_union) {
        Ok(fact) => declare_next(state, fact, class),
        Err(_) => Err(Stop::OutOfMemory),
    }
}

fn is_class(what: Entity) -> bool
    ensures { (types : List CxxType) → result ≡ friends.declares_class (declares_at types what) }
{
    match what {
        Entity::Class { .. } => true,
        _ => false,
    }
}

// Whether the declaration with a number declares a class.
fn declares_class(graph: &Graph, number: FactId) -> bool
    ensures is { (types : List CxxType) → result ≡ class_declared (slice_get (facts_at types graph.now.facts) number.0) }
    ensures there { result ≡ true → number.0 < length graph.now.facts }
{
    match fact_of(graph, number) {
        Some(fact) => is_class(fact.what),
        None => false,
    }
}

// The first of some declarations that declares a class.
fn class_number(graph: &Graph, numbers: &[FactId]) -> Option<FactId>
    ensures is { (types : List CxxType) → option_map number_of_fact result ≡ friends.class_number (numbered_at (graph_at types graph.now) (fact_numbers numbers.now)) }
    ensures there { IfSome result (λ number. number.0 < length graph.now.facts) }
{
    for number in numbers {
        if declares_class(graph, *number) {
            return Some(*number);
        }
    }
    None
}

// The first declaration of a class with a name in a scope.
fn class_declared_in(state: &State, scope: ScopeId, word: &[u8]) -> Option<FactId>
    ensures is { option_map number_of_fact result ≡ friends.class_number (declared_in (meaning state.now).graph scope.0 (spelled_name word.now)) }
    ensures there { IfSome result (λ number. number.0 < length (state.now).graph.facts) }
{
    let graph = state.graph();
    class_number(graph, state.names().declared_in(graph, scope, word))
}

fn befriend_home(
    state: &mut State,
    path: &Path,
    is_union: bool,
    home: ScopeId,
) -> Result<FactId, Stop>
    requires { home.0 < scopes (state.old).graph.facts }
    ensures { IsAnswered fact_number IsFactKnown state.old state.new result (friends.befriend_home (last_part (path_at path.now).parts) is_union home.0 (meaning state.old)) }
{
    let word = last_word(path.parts.as_slice());
    let named = class_in(state, home, word);
    match class_declared_in(state, home, word) {
        None => befriend_new(state, path, is_union, home),
        Some(number) => befriended_as(state, path, is_union, number, named),
    }
}

// ---- classes

fn befriend_set(
    state: &mut State,
    path: &Path,
    is_union: bool,
    found: &Found,
) -> Result<FactId, Stop>
    ensures { IsAnswered fact_number IsFactKnown state.old state.new result (friends.befriend_set (last_part (path_at path.now).parts) is_union (is_plain_path_of (path_at path.now)) found.now (meaning state.old)) }
{
    let home = home_here(state);
    if !is_plain_path(path) || is_near(state, home, last_word(path.parts.as_slice()), found) {
        return befriended_all(state, path, is_union, set_in(found));
    }
    befriend_home(state, path, is_union, home)
}

#[tactic(auto, using(cxx_paths::proofs::Stopping::clear_then, cxx_paths::proofs::Stopping::clear_stopped))]
fn befriend_found(
    state: &mut State,
    path: &Path,
    is_union: bool,
    found: &Found,
) -> Result<FactId, Stop>
    ensures { IsAnswered fact_number IsFactKnown state.old state.new result (friends.befriend_found (path_at path.now) is_union found.now (meaning state.old)) }
{
    match unambiguous_name(state, path, found) {
        Ok(()) => befriend_set(state, path, is_union, found),
        Err(stop) => Err(stop),
    }
}

fn befriend_in_region(
    state: &mut State,
    path: &Path,
    is_union: bool,
    region: Region,
) -> Result<FactId, Stop>
    ensures { IsAnswered fact_number IsFactKnown state.old state.new result (friends.befriend_found (path_at path.now) is_union (sought_in (meaning state.old).graph types_only region (name_in (path_at path.now))) (meaning state.old)) }
{
    match name_sought(state, Wanted::Types, region, path) {
        Ok(found) => befriend_found(state, path, is_union, &found),
        Err(_) => Err(Stop::OutOfMemory),
    }
}

// The declaration of the class that a name behind its key means (3.4.4).
#[tactic(auto, using(cxx_paths::proofs::Stopping::region_then, cxx_paths::proofs::Stopping::region_stopped), unfolding(crate::specs::Friends::befriend_named))]
fn befriend_named(state: &mut State, path: &Path, is_union: bool) -> Result<FactId, Stop>
    ensures { IsAnswered fact_number IsFactKnown state.old state.new result (friends.befriend_named (path_at path.now) is_union (meaning state.old)) }
{
    match region_here(state, path) {
        Ok(region) => befriend_in_region(state, path, is_union, region),
        Err(stop) => Err(stop),
    }
}

/// A class befriends the class that a name behind its key means (11.4). Without qualifiers it is one of the innermost namespace
/// round the befriending class, where it is declared if nothing else declares it (7.3.1.2 p3).
#[tactic(auto, unfolding(crate::specs::Friends::befriend_class))]
pub fn befriend_class(state: &mut State, path: &Path, is_union: bool) -> Result<(), Stop>
    ensures { IsAnswered itself AnyKnown state.old state.new result (friends.befriend_class is_union (path_at path.now) (meaning state.old)) }
{
    match befriend_named(state, path, is_union) {
        Ok(number) => befriend(state, last_place(path.parts.as_slice()), number),
        Err(stop) => Err(stop),
    }
}
