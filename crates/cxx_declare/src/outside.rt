//! Members of namespaces and of classes that are declared outside of these, by names with qualifiers (8.3, 9.4.2, 3.4.1).

ghost use Rattle.std.specs.Prelude.{◌≡◌, ◌<◌, ◌&&◌, ◌||◌, ◌∷◌, [], List, Some, length, nat_eq};
ghost use Rattle.cxx_model.specs.declared.token.TokenKind.{TokenKind};
ghost use Rattle.cxx_model.specs.Facts.Declarations.{declares_at};
ghost use Rattle.cxx_model.specs.Facts.Fitted.{IsEntityBelow};
ghost use Rattle.cxx_model.specs.Facts.Graph.{scopes};
ghost use Rattle.cxx_model.specs.Types.Numbers.{type_at};
ghost use Rattle.std.specs.List.{slice_get};
ghost use Rattle.cxx_meaning.specs.Lookups.Wanted.{any_name, is_nonstatic_kind};
ghost use Rattle.cxx_declare.specs.Agreed.{disagreeing};
ghost use Rattle.cxx_declare.specs.Made.{token};
ghost use Rattle.cxx_paths.specs.Asked.{IsRegionThere, IsStop};
ghost use Rattle.cxx_reading.specs.Declaring.{class_of_here as class_of_here_of};
ghost use Rattle.cxx_reading.specs.Linked.{home_of as home_in};
ghost use Rattle.cxx_declare.specs.Outside as members;
ghost use Rattle.cxx_reading.specs.Paths.{name_in, sought_in};
ghost use Rattle.cxx_reading.specs.Seen.{fact_numbers, numbered_at};
ghost use Rattle.cxx_reading.specs.Trees.{last_part};
ghost use Rattle.cxx_tree.specs.Answered.{AnyKnown, IsAnswered, itself};
ghost use Rattle.cxx_tree.specs.Arena.{path_at};
ghost use Rattle.cxx_tree.specs.Held.{meaning, type_of};

use crate::members::{class_of_here, home_of};
use crate::parts::{conflicting, fact_of};
use cxx_found::{Found, Wanted};
use cxx_model::{
    ClassId, Entity, Fact, FactId, MemberFound, MemberKind, Path, Place, ScopeId, Stop, TypeId,
};
use cxx_names::agree;
use cxx_paths::{
    ambiguous_member, ambiguous_name, found_in, last_place, last_word, name_sought, place_among,
    region_here, scope_of, undeclared_name,
};
use cxx_reading::Region;
use cxx_tree::State;
use cxx_types::TypeTable;

// ---- the name

/// The reader stands in a scope.
pub fn stand_in(state: &mut State, scope: ScopeId) -> Result<(), Stop>
    requires { scope.0 < scopes (state.old).graph.facts }
    ensures { IsAnswered itself AnyKnown state.old state.new result (members.stand_in scope.0 (meaning state.old)) }
{
    state.set_scope(scope);
    Ok(())
}

// The scope of a class (9.2), by its scopes in order; that of the unit where there is none.
fn first_or_unit(scopes: &[ScopeId]) -> ScopeId
    ensures { result ≡ members.scope_or_unit (slice_get scopes.now 0) }
{
    match scopes {
        [] => ScopeId(0),
        [one, ..] => *one,
    }
}

// The scope of a class; that of the unit where the class has not begun.
pub(crate) fn scope_of_class(state: &State, class: ClassId) -> ScopeId
    ensures is { result.0 ≡ members.scope_of_class (meaning state.now).graph class }
    ensures there { result.0 < scopes (state.now).graph.facts }
{
    let _here = state.scope();
    first_or_unit(state.names().scopes_of_class(state.graph(), class))
}

// The reader stands in the scope of the class of a member that was found (9.4.2).
#[tactic(auto, using(cxx_paths::proofs::Stopping::stopped_at))]
fn entered_member(
    state: &mut State,
    path: &Path,
    class: ClassId,
    of: &MemberFound,
) -> Result<(), Stop>
    ensures { IsAnswered itself AnyKnown state.old state.new result (members.entered_member (last_part (path_at path.now).parts) class of.now (meaning state.old)) }
{
    match of {
        MemberFound::Empty => Err(undeclared_name(state, path)),
        MemberFound::Set(_, _) => {
            let scope = scope_of_class(state, class);
            stand_in(state, scope)
        }
        MemberFound::Ambiguous(one, two) => {
            let parts = path.parts.as_slice();
            let word = last_word(parts);
            Err(ambiguous_member(state, last_place(parts), word, one, two))
        }
    }
}

#[tactic(auto, using(cxx_paths::proofs::Stopping::stopped_at))]
fn entered_found(state: &mut State, path: &Path, region: Region, found: &Found) -> Result<(), Stop>
    requires { IsRegionThere state.old region }
    ensures { IsAnswered itself AnyKnown state.old state.new result (members.entered_found (last_part (path_at path.now).parts) region found.now (meaning state.old)) }
{
    match found {
        Found::Set(_) => stand_in(state, scope_of(region)),
        Found::Ambiguous(one, two) => Err(ambiguous_name(state, path, *one, *two)),
        Found::Member(class, of) => entered_member(state, path, *class, of),
        Found::Empty => Err(undeclared_name(state, path)),
    }
}

fn enter_in(state: &mut State, path: &Path, region: Region) -> Result<(), Stop>
    requires { IsRegionThere state.old region }
    ensures { IsAnswered itself AnyKnown state.old state.new result (members.entered_found (last_part (path_at path.now).parts) region (sought_in (meaning state.old).graph any_name region (name_in (path_at path.now))) (meaning state.old)) }
{
    match name_sought(state, Wanted::Any, region, path) {
        Ok(found) => entered_found(state, path, region, &found),
        Err(_) => Err(Stop::OutOfMemory),
    }
}

/// The name of a declarator means something in its namespace or its class, where the reader stands then (3.4.1, 8.3).
#[tactic(auto, using(cxx_paths::proofs::Stopping::region_then, cxx_paths::proofs::Stopping::region_stopped), unfolding(crate::specs::Outside::enter_member))]
pub fn enter_member(state: &mut State, path: &Path) -> Result<(), Stop>
    ensures { IsAnswered itself AnyKnown state.old state.new result (members.enter_member (path_at path.now) (meaning state.old)) }
{
    match region_here(state, path) {
        Ok(region) => enter_in(state, path, region),
        Err(stop) => Err(stop),
    }
}

// ---- what is declared

// What belongs to an object of its class.
fn is_nonstatic(member: MemberKind) -> bool
    ensures { result ≡ is_nonstatic_kind member }
{
    match member {
        MemberKind::Free => false,
        MemberKind::Static => false,
        _ => true,
    }
}

// Whether a declaration is of a synonym of a type, or of an object or a function with that type.
fn agrees(types: &TypeTable, is_typedef: bool, of: TypeId, what: Entity) -> bool
    requires of { of.0 < length types.now }
    requires what { IsEntityBelow (length types.now) what }
    ensures { result ≡ members.agrees is_typedef (type_at types.now of.0) (declares_at types.now what) }
{
    match what {
        Entity::Synonym { of: other } => is_typedef && types.same(other, of),
        Entity::Object {
            of: other,
            member,
            ..
        } => !is_typedef && (!is_nonstatic(member) && agree(types, other, of)),
        Entity::Function { of: other, .. } => !is_typedef && types.same(other, of),
        _ => false,
    }
}

// Whether a scope is that where the reader stands, or within the namespace itself that this is.
#[tactic(auto, unfolding(cxx_tree::specs::Held::meaning))]
fn is_own(state: &State, scope: ScopeId) -> bool
    ensures { result ≡ (nat_eq scope.0 (meaning state.now).here.scope || nat_eq (home_in (meaning state.now).graph scope.0) (meaning state.now).here.scope) }
{
    scope.0 == state.scope().0 || home_of(state, scope).0 == state.scope().0
}

// Whether a declaration is of a member of that namespace, with a type.
fn fact_agrees(state: &State, is_typedef: bool, of: TypeId, fact: &Fact) -> bool
    requires of { of.0 < length (state.now).types }
    requires below { IsEntityBelow (length (state.now).types) (fact.now).what }
    ensures { result ≡ ((nat_eq (fact.now).scope.0 (meaning state.now).here.scope || nat_eq (home_in (meaning state.now).graph (fact.now).scope.0) (meaning state.now).here.scope) && members.agrees is_typedef (type_of state.now of) (declares_at (state.now).types (fact.now).what)) }
{
    is_own(state, fact.scope) && agrees(state.types(), is_typedef, of, fact.what)
}

// The same by its number.
fn agrees_at(state: &State, is_typedef: bool, of: TypeId, number: FactId) -> bool
    requires { of.0 < length (state.now).types }
    ensures { result ≡ members.any_agrees (meaning state.now).graph (meaning state.now).here.scope is_typedef (type_of state.now of) (numbered_at (meaning state.now).graph (number.0 ∷ [])) }
{
    match fact_of(state.graph(), number) {
        Some(fact) => fact_agrees(state, is_typedef, of, fact),
        None => false,
    }
}

// Whether one of some declarations is.
fn any_agrees(state: &State, is_typedef: bool, of: TypeId, numbers: &[FactId]) -> bool
    requires { of.0 < length (state.now).types }
    ensures { result ≡ members.any_agrees (meaning state.now).graph (meaning state.now).here.scope is_typedef (type_of state.now of) (numbered_at (meaning state.now).graph (fact_numbers numbers.now)) }
{
    for number in numbers {
        if agrees_at(state, is_typedef, of, *number) {
            return true;
        }
    }
    false
}

/// Where no member agrees, given where the first of the entities stands that the name means.
pub(crate) fn stop_at(state: &State, place: Place, word: &[u8], first: Option<Place>) -> Stop
    ensures { IsStop (disagreeing place word.now first) result }
{
    match conflicting(state.alloc(), place, word, first.unwrap_or(place)) {
        Ok(fault) => Stop::Fault(fault),
        Err(_) => Stop::OutOfMemory,
    }
}

fn agreed_among(
    state: &State,
    is_typedef: bool,
    place: Place,
    word: &[u8],
    of: TypeId,
    numbers: &[FactId],
) -> Result<(), Stop>
    requires { of.0 < length (state.now).types }
    ensures { (kind : TokenKind) → IsAnswered itself AnyKnown state.now state.now result (members.agreed_by (token kind place word.now) (numbered_at (meaning state.now).graph (fact_numbers numbers.now)) (members.any_agrees (meaning state.now).graph (meaning state.now).here.scope is_typedef (type_of state.now of) (numbered_at (meaning state.now).graph (fact_numbers numbers.now))) (meaning state.now)) }
{
    if any_agrees(state, is_typedef, of, numbers) {
        return Ok(());
    }
    Err(stop_at(state, place, word, place_among(state, numbers)))
}

fn region_in(scope: ScopeId, class: Option<ClassId>) -> Region
    ensures { result ≡ members.region_in scope.0 class }
{
    match class {
        None => Region::Inside(scope),
        Some(class) => Region::Class(class),
    }
}

/// Where the members of the namespace or the class are looked up in which the reader stands.
#[tactic(auto, unfolding(cxx_tree::specs::Held::meaning))]
pub(crate) fn region_of_members(state: &State) -> Region
    ensures { result ≡ members.region_in (meaning state.now).here.scope (class_of_here_of (meaning state.now)) }
{
    region_in(state.scope(), class_of_here(state))
}

/// The namespace or the class where the reader stands has declared a member with a type (8.3, 9.4.2): a synonym of it for a
/// typedef, else an object or a function. Else the first of the entities that the name means there stands in the way.
pub fn agree_here(
    state: &State,
    is_typedef: bool,
    place: Place,
    word: &[u8],
    of: TypeId,
) -> Result<(), Stop>
    requires { of.0 < length (state.now).types }
    ensures { (kind : TokenKind) → IsAnswered itself AnyKnown state.now state.now result (members.agree_here is_typedef (token kind place word.now) (type_of state.now of) (meaning state.now)) }
{
    match found_in(state, region_of_members(state), word) {
        Ok(numbers) => agreed_among(state, is_typedef, place, word, of, numbers.as_slice()),
        Err(_) => Err(Stop::OutOfMemory),
    }
}
