//! Namespaces (7.3.1), their other names (7.3.2), using-directives (7.3.4), and names of namespaces (3.4.6).

ghost use Rattle.std.specs.Prelude.{◌≡◌, ◌<◌, IfSome, option_map};
ghost use Rattle.cxx_model.specs.declared.token.TokenKind.{TokenKind};
ghost use Rattle.cxx_model.specs.Facts.Declarations.{fact_at, spelled};
ghost use Rattle.cxx_model.specs.Facts.Graph.{scopes};
ghost use Rattle.cxx_names.specs.Looked.{scope_number as number_of_scope};
ghost use Rattle.cxx_meaning.specs.Lookups.Wanted.{namespaces_only};
ghost use Rattle.cxx_reading.specs.Paths.{name_in, sought_in};
ghost use Rattle.cxx_reading.specs.Spaces as spaces;
ghost use Rattle.cxx_reading.specs.Trees.{last_part};
ghost use Rattle.cxx_declare.specs.Made.{IsReady, token, word_in};
ghost use Rattle.cxx_declare.specs.Opened.{IsFirst, added_within, declared_within, opened_first, space_added};
ghost use Rattle.cxx_tree.specs.Answered.{AnyKnown, IsAnswered, IsScopeKnown, itself, scope_number};
ghost use Rattle.cxx_tree.specs.Arena.{path_at};
ghost use Rattle.cxx_tree.specs.Held.{meaning};

use crate::conflict::free;
use crate::facts::{fact_in, tell, word_fact};
use cxx_found::{Found, Wanted};
use cxx_model::{Entity, Fact, Name, Path, Place, ScopeId, Stop};
use cxx_paths::{
    name_sought, set_in, space_among, space_region_here, unambiguous_name, undeclared_name,
};
use cxx_reading::Region;
use cxx_tree::State;

// ---- a namespace begins

// Adds a declaration, and the reader stands in a scope then.
#[tactic(auto, using(cxx_names::proofs::Plain::plain_fact))]
fn add_within(state: &mut State, fact: Fact, inner: ScopeId) -> Result<(), Stop>
    requires ready { IsReady state.old fact }
    requires there { inner.0 < scopes (state.old).graph.facts }
    ensures { IsAnswered itself AnyKnown state.old state.new result (added_within inner.0 (fact_at (state.old).types fact) (meaning state.old)) }
{
    match state.add(fact) {
        Ok(_) => {
            state.set_scope(inner);
            Ok(())
        }
        Err(stop) => Err(stop),
    }
}

fn declare_within(state: &mut State, fact: Fact, inner: ScopeId) -> Result<(), Stop>
    requires ready { IsReady state.old fact }
    requires there { inner.0 < scopes (state.old).graph.facts }
    ensures { IsAnswered itself AnyKnown state.old state.new result (declared_within inner.0 (fact_at (state.old).types fact) (word_in fact.name) (meaning state.old)) }
{
    match free(state, &fact) {
        Ok(()) => add_within(state, fact, inner),
        Err(stop) => Err(stop),
    }
}

// It is opened again (7.3.1).
fn open_again(state: &mut State, place: Place, word: &[u8], inner: ScopeId) -> Result<(), Stop>
    requires { inner.0 < scopes (state.old).graph.facts }
    ensures { (kind : TokenKind) → IsAnswered itself AnyKnown state.old state.new result (spaces.open_again (token kind place word.now) inner.0 (meaning state.old)) }
{
    match word_fact(state, place, word, Entity::Namespace { inner }) {
        Ok(fact) => declare_within(state, fact, inner),
        Err(_) => Err(Stop::OutOfMemory),
    }
}

// Adds the scope of a namespace, and its first declaration.
fn add_first(state: &mut State, place: Place, fact: Fact, inner: ScopeId) -> Result<(), Stop>
    requires { IsFirst state.old inner fact }
    ensures { IsAnswered itself AnyKnown state.old state.new result (space_added place inner.0 (fact_at (state.old).types fact) (meaning state.old)) }
{
    match state.add_space(place) {
        Ok(_) => add_within(state, fact, inner),
        Err(stop) => Err(stop),
    }
}

fn declare_first(state: &mut State, place: Place, fact: Fact, inner: ScopeId) -> Result<(), Stop>
    requires { IsFirst state.old inner fact }
    ensures { IsAnswered itself AnyKnown state.old state.new result (opened_first place inner.0 (fact_at (state.old).types fact) (word_in fact.name) (meaning state.old)) }
{
    match free(state, &fact) {
        Ok(()) => add_first(state, place, fact, inner),
        Err(stop) => Err(stop),
    }
}

fn open_new(state: &mut State, place: Place, word: &[u8]) -> Result<(), Stop>
    ensures { (kind : TokenKind) → IsAnswered itself AnyKnown state.old state.new result (spaces.open_new (token kind place word.now) (meaning state.old)) }
{
    let inner = state.names().scopes(state.graph());
    match word_fact(state, place, word, Entity::Namespace { inner }) {
        Ok(fact) => declare_first(state, place, fact, inner),
        Err(_) => Err(Stop::OutOfMemory),
    }
}

// The namespace that has a name where the reader stands as its own.
fn opened_before(state: &State, word: &[u8]) -> Option<ScopeId>
    ensures is { option_map number_of_scope result ≡ spaces.opened_before (meaning state.now).graph (meaning state.now).here.scope (spelled word.now) }
    ensures there { IfSome result (λ inner. inner.0 < scopes (state.now).graph.facts) }
{
    let graph = state.graph();
    graph.in_range();
    state.names().opened_before(graph, state.scope(), word)
}

/// A namespace begins, at its name (7.3.1). The reader stands in it then.
pub fn open_space(state: &mut State, place: Place, word: &[u8]) -> Result<(), Stop>
    ensures { (kind : TokenKind) → IsAnswered itself AnyKnown state.old state.new result (spaces.open_space (token kind place word.now) (meaning state.old)) }
{
    match opened_before(state, word) {
        Some(inner) => open_again(state, place, word, inner),
        None => open_new(state, place, word),
    }
}

// ---- an unnamed one (7.3.1.1)

// It is declared with a directive that nominates it.
#[tactic(auto, using(cxx_names::proofs::Plain::plain_fact))]
fn declare_unnamed(state: &mut State, place: Place, inner: ScopeId) -> Result<(), Stop>
    requires { inner.0 < scopes (state.old).graph.facts }
    ensures { IsAnswered itself AnyKnown state.old state.new result (spaces.declare_unnamed place inner.0 (meaning state.old)) }
{
    let scope = state.scope();
    let named = fact_in(scope, place, Name::Unnamed, Entity::Namespace { inner });
    let nominated = fact_in(
        scope,
        place,
        Name::Unnamed,
        Entity::Directive { nominated: inner },
    );
    match state.add(named) {
        Ok(_) => add_within(state, nominated, inner),
        Err(stop) => Err(stop),
    }
}

fn new_unnamed(state: &mut State, place: Place) -> Result<(), Stop>
    ensures { IsAnswered itself AnyKnown state.old state.new result (spaces.new_unnamed place (meaning state.old)) }
{
    match state.add_space(place) {
        Ok(inner) => declare_unnamed(state, place, inner),
        Err(stop) => Err(stop),
    }
}

// The unnamed namespace of the scope where the reader stands.
fn unnamed_before(state: &State) -> Option<ScopeId>
    ensures is { option_map number_of_scope result ≡ spaces.unnamed_before (meaning state.now).graph (meaning state.now).here.scope }
    ensures there { IfSome result (λ inner. inner.0 < scopes (state.now).graph.facts) }
{
    let graph = state.graph();
    graph.in_range();
    state.names().unnamed_before(graph, state.scope())
}

/// An unnamed namespace begins, at the word `namespace` (7.3.1.1). The reader stands in it then.
pub fn open_unnamed(state: &mut State, place: Place) -> Result<(), Stop>
    ensures { IsAnswered itself AnyKnown state.old state.new result (spaces.open_unnamed place (meaning state.old)) }
{
    match unnamed_before(state) {
        Some(inner) => declare_unnamed(state, place, inner),
        None => new_unnamed(state, place),
    }
}

/// A namespace ends: the reader stands in what holds it (7.3.1).
pub fn close_space(state: &mut State) -> Result<(), Stop>
    ensures { IsAnswered itself AnyKnown state.old state.new result (spaces.close_space (meaning state.old)) }
{
    state.close_space();
    Ok(())
}

// ---- other names and directives

/// Another name of a namespace is declared (7.3.2).
pub fn declare_alias(
    state: &mut State,
    place: Place,
    word: &[u8],
    inner: ScopeId,
) -> Result<(), Stop>
    requires { inner.0 < scopes (state.old).graph.facts }
    ensures { (kind : TokenKind) → IsAnswered itself AnyKnown state.old state.new result (spaces.declare_alias (token kind place word.now) inner.0 (meaning state.old)) }
{
    match word_fact(state, place, word, Entity::Namespace { inner }) {
        Ok(fact) => tell(state, fact),
        Err(_) => Err(Stop::OutOfMemory),
    }
}

/// A using-directive nominates a namespace (7.3.4).
#[tactic(auto, using(cxx_names::proofs::Plain::plain_fact))]
pub fn declare_directive(state: &mut State, place: Place, inner: ScopeId) -> Result<(), Stop>
    requires { inner.0 < scopes (state.old).graph.facts }
    ensures { IsAnswered itself AnyKnown state.old state.new result (spaces.declare_directive place inner.0 (meaning state.old)) }
{
    let fact = fact_in(
        state.scope(),
        place,
        Name::Unnamed,
        Entity::Directive { nominated: inner },
    );
    match state.add(fact) {
        Ok(_) => Ok(()),
        Err(stop) => Err(stop),
    }
}

// ---- names of namespaces

#[tactic(auto, using(cxx_paths::proofs::Stopping::stopped_at))]
fn space_by(state: &State, path: &Path, space: Option<ScopeId>) -> Result<ScopeId, Stop>
    requires { IfSome space (λ inner. inner.0 < scopes (state.now).graph.facts) }
    ensures { IsAnswered scope_number IsScopeKnown state.now state.now result (spaces.space_by (last_part (path_at path.now).parts) (option_map number_of_scope space) (meaning state.now)) }
{
    match space {
        Some(inner) => Ok(inner),
        None => Err(undeclared_name(state, path)),
    }
}

#[tactic(auto, using(cxx_paths::proofs::Stopping::clear_then, cxx_paths::proofs::Stopping::clear_stopped))]
fn space_found(state: &State, path: &Path, found: &Found) -> Result<ScopeId, Stop>
    ensures { IsAnswered scope_number IsScopeKnown state.now state.now result (spaces.space_found (last_part (path_at path.now).parts) found.now (meaning state.now)) }
{
    match unambiguous_name(state, path, found) {
        Ok(()) => space_by(state, path, space_among(state, set_in(found))),
        Err(stop) => Err(stop),
    }
}

fn space_in(state: &State, path: &Path, region: Region) -> Result<ScopeId, Stop>
    ensures { IsAnswered scope_number IsScopeKnown state.now state.now result (spaces.space_found (last_part (path_at path.now).parts) (sought_in (meaning state.now).graph namespaces_only region (name_in (path_at path.now))) (meaning state.now)) }
{
    match name_sought(state, Wanted::Spaces, region, path) {
        Ok(found) => space_found(state, path, &found),
        Err(_) => Err(Stop::OutOfMemory),
    }
}

/// The namespace that a name means where the reader stands (3.4.6).
#[tactic(auto, using(cxx_paths::proofs::Stopping::region_then, cxx_paths::proofs::Stopping::region_stopped), unfolding(cxx_reading::specs::Spaces::space_here))]
pub fn space_here(state: &State, path: &Path) -> Result<ScopeId, Stop>
    ensures { IsAnswered scope_number IsScopeKnown state.now state.now result (spaces.space_here (path_at path.now) (meaning state.now)) }
{
    match space_region_here(state, path) {
        Ok(region) => space_in(state, path, region),
        Err(stop) => Err(stop),
    }
}
