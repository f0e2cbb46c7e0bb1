//! What a name means in a region (3.4.1, 3.4.3.1, 3.4.3.2, 7.3.4).

ghost use Rattle.std.specs.Prelude.{◌≡◌, IfOk};
ghost use Rattle.cxx_meaning.specs.Lookups.Pending.{Asked};
ghost use Rattle.cxx_members.specs.Answers.{Answers};
ghost use Rattle.cxx_members.specs.Views.{wanted_at};
ghost use Rattle.cxx_model.specs.declared.lookup.MemberFound.{MemberFound as OneMember};
ghost use Rattle.cxx_model.specs.Facts.Declarations.{CxxGraph, spelled};
ghost use Rattle.cxx_reading.specs.Paths as definition;
ghost use Rattle.cxx_reading.specs.Paths.{name_in};
ghost use Rattle.cxx_reading.specs.declared.region.Region.TheVariants.{Class as InClass, Inside};
ghost use Rattle.cxx_reading.specs.Seen.{fact_numbers, members_of, numbered_at, set_in as set_in_of, sought_from};
ghost use Rattle.cxx_tree.specs.Arena.{path_at};
ghost use Rattle.cxx_tree.specs.Held.{meaning};

use crate::last::last_word;
use crate::regions::region_here;
use cxx_found::{Found, Wanted, qualified_in, sought};
use cxx_inherited::member;
use cxx_model::{ClassId, FactId, FactList, MemberFound, OutOfMemory, Path, ScopeId, Stop, Wait};
use cxx_reading::Region;
use cxx_tree::State;

// From a scope outward.
#[tactic(auto, unfolding(cxx_tree::specs::Held::meaning))]
fn sought_outward(
    state: &State,
    wanted: Wanted,
    scope: ScopeId,
    word: &[u8],
) -> Result<Found, OutOfMemory>
    ensures { IfOk result (λ found. found ≡ sought_from (meaning state.now).graph (wanted_at wanted) scope.0 (spelled word.now)) }
{
    sought(
        state.alloc(),
        state.names(),
        state.graph(),
        state.types(),
        wanted,
        scope,
        word,
    )
}

// Behind `::` in a namespace.
#[tactic(auto, using(crate::proofs::Behind::inside_found))]
fn sought_inside(
    state: &State,
    wanted: Wanted,
    space: ScopeId,
    word: &[u8],
) -> Result<Found, OutOfMemory>
    ensures { IfOk result (λ found. found ≡ definition.sought_in (meaning state.now).graph (wanted_at wanted) (Inside space) (spelled word.now)) }
{
    qualified_in(
        state.alloc(),
        state.names(),
        state.graph(),
        state.types(),
        wanted,
        space,
        word,
    )
}

// What was found of a member of a class.
fn found_of_member(class: ClassId, of: Result<MemberFound, Wait>) -> Result<Found, OutOfMemory>
    ensures { (asked : Asked OneMember) → Answers of asked → IfOk result (λ found. found ≡ definition.member_or_none class asked) }
{
    match of {
        Ok(of) => Ok(Found::Member(class, of)),
        Err(Wait::Needs(_)) => Ok(Found::Empty),
        Err(Wait::OutOfMemory) => Err(OutOfMemory),
    }
}

// Behind `::` in a class.
#[tactic(auto, unfolding(cxx_reading::specs::Paths::sought_in, cxx_tree::specs::Held::meaning))]
fn sought_in_class(
    state: &State,
    wanted: Wanted,
    class: ClassId,
    word: &[u8],
) -> Result<Found, OutOfMemory>
    ensures { IfOk result (λ found. found ≡ definition.sought_in (meaning state.now).graph (wanted_at wanted) (InClass class) (spelled word.now)) }
{
    let of = member(
        state.alloc(),
        state.names(),
        state.graph(),
        state.types(),
        wanted,
        class,
        word,
    );
    found_of_member(class, of)
}

/// What a word means in a region, of what is wanted, among all that is declared so far.
#[tactic(auto, unfolding(cxx_reading::specs::Paths::sought_in))]
pub fn sought_in(
    state: &State,
    wanted: Wanted,
    region: Region,
    word: &[u8],
) -> Result<Found, OutOfMemory>
    ensures { IfOk result (λ found. found ≡ definition.sought_in (meaning state.now).graph (wanted_at wanted) region (spelled word.now)) }
{
    match region {
        Region::Outward(scope) => sought_outward(state, wanted, scope, word),
        Region::Inside(space) => sought_inside(state, wanted, space, word),
        Region::Class(class) => sought_in_class(state, wanted, class, word),
    }
}

/// The same of the last part of a name.
pub fn name_sought(
    state: &State,
    wanted: Wanted,
    region: Region,
    path: &Path,
) -> Result<Found, OutOfMemory>
    ensures { IfOk result (λ found. found ≡ definition.sought_in (meaning state.now).graph (wanted_at wanted) region (name_in (path_at path.now))) }
{
    sought_in(state, wanted, region, last_word(path.parts.as_slice()))
}

/// The entities of a set of members of a class, by their first declarations.
fn members_in(of: &MemberFound) -> &[FactId]
    ensures { result.now ≡ members_of of.now }
{
    match of {
        MemberFound::Set(facts, _) => facts.as_slice(),
        _ => &[],
    }
}

/// The entities of a set, by their first declarations.
pub fn set_in(found: &Found) -> &[FactId]
    ensures { (graph : CxxGraph) → numbered_at graph (fact_numbers result.now) ≡ set_in_of graph found.now }
{
    match found {
        Found::Set(facts) => facts.as_slice(),
        Found::Member(_, of) => members_in(of),
        _ => &[],
    }
}

// The members of a set, where what was found is used no more.
fn into_members(state: &State, of: MemberFound) -> FactList
    ensures { result ≡ members_of of }
{
    match of {
        MemberFound::Set(facts, _path) => facts,
        _ => FactList::new(state.alloc()),
    }
}

// The same, where what was found is used no more.
fn into_set(state: &State, found: Found) -> FactList
    ensures { (graph : CxxGraph) → numbered_at graph (fact_numbers result) ≡ set_in_of graph found }
{
    match found {
        Found::Set(facts) => facts,
        Found::Member(_class, of) => into_members(state, of),
        _ => FactList::new(state.alloc()),
    }
}

/// The entities that a word means in a region, by their first declarations; none where it is ambiguous.
pub fn found_in(state: &State, region: Region, word: &[u8]) -> Result<FactList, OutOfMemory>
    ensures { IfOk result (λ numbers. numbered_at (meaning state.now).graph (fact_numbers numbers) ≡ definition.found_in (meaning state.now).graph region (spelled word.now)) }
{
    let found = sought_in(state, Wanted::Any, region, word)?;
    Ok(into_set(state, found))
}

/// The entities that a name with its qualifiers means where the reader stands; none where one of its parts means nothing that
/// may stand there.
#[tactic(auto, unfolding(cxx_reading::specs::Paths::found_of))]
pub fn found_of(state: &State, path: &Path) -> Result<FactList, OutOfMemory>
    ensures { IfOk result (λ numbers. numbered_at (meaning state.now).graph (fact_numbers numbers) ≡ definition.found_of (meaning state.now).graph (meaning state.now).here.scope (path_at path.now)) }
{
    match region_here(state, path) {
        Ok(region) => found_in(state, region, last_word(path.parts.as_slice())),
        Err(Stop::OutOfMemory) => Err(OutOfMemory),
        Err(_) => Ok(FactList::new(state.alloc())),
    }
}
