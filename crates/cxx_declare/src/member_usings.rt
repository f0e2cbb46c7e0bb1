//! Using-declarations in classes (7.3.3).

ghost use Rattle.std.specs.Prelude.{◌≡◌, ◌<◌, ◌≤◌, length, nat_lt, OnOk};
ghost use Rattle.cxx_declare.specs.MemberUsings as definition;
ghost use Rattle.cxx_meaning.specs.Lookups.Wanted.{any_name};
ghost use Rattle.cxx_reading.specs.Paths.{name_in, sought_in};
ghost use Rattle.cxx_reading.specs.Seen.{members_of as members_found};
ghost use Rattle.cxx_reading.specs.Trees.{last_part};
ghost use Rattle.cxx_tree.specs.Answered.{AnyKnown, IsAnswered, itself};
ghost use Rattle.cxx_tree.specs.Arena.{path_at};
ghost use Rattle.cxx_tree.specs.Held.{meaning};

use crate::facts::{tell, word_fact};
use cxx_found::{Found, Wanted};
use cxx_model::{Access, Entity, FactId, MemberFound, Path, Stop};
use cxx_paths::{
    last_place, last_word, member_region_here, name_sought, unambiguous_name, undeclared_name,
};
use cxx_reading::Region;
use cxx_tree::State;

// ---- what is brought

fn members_of(of: &MemberFound) -> &[FactId]
    ensures { result.now ≡ members_found of.now }
{
    match of {
        MemberFound::Set(facts, _) => facts.as_slice(),
        _ => &[],
    }
}

fn targets_of(found: &Found) -> &[FactId]
    ensures { result.now ≡ definition.targets_of found.now }
{
    match found {
        Found::Member(_, of) => members_of(of),
        _ => &[],
    }
}

// ---- it is declared

// One more entity has the name in the class.
fn bring_one(state: &mut State, label: Access, path: &Path, target: FactId) -> Result<(), Stop>
    requires { target.0 < length (state.old).graph.facts }
    ensures answered { IsAnswered itself AnyKnown state.old state.new result (definition.bring_one label (last_part (path_at path.now).parts) target (meaning state.old)) }
    ensures longer { OnOk result (length (state.old).graph.facts ≤ length (state.new).graph.facts) }
{
    let parts = path.parts.as_slice();
    match word_fact(
        state,
        last_place(parts),
        last_word(parts),
        Entity::Using { target },
    ) {
        Ok(mut fact) => {
            fact.access = label;
            tell(state, fact)
        }
        Err(_) => Err(Stop::OutOfMemory),
    }
}

// Where that is among so many that are declared.
fn bring_if(
    state: &mut State,
    label: Access,
    path: &Path,
    target: FactId,
    count: usize,
) -> Result<(), Stop>
    requires { count ≤ length (state.old).graph.facts }
    ensures answered { IsAnswered itself AnyKnown state.old state.new result (definition.bring_if (nat_lt target.0 count) label (last_part (path_at path.now).parts) target (meaning state.old)) }
    ensures longer { OnOk result (length (state.old).graph.facts ≤ length (state.new).graph.facts) }
{
    if (target.0 as usize) < count {
        return bring_one(state, label, path, target);
    }
    Ok(())
}

fn bring_each(
    state: &mut State,
    label: Access,
    path: &Path,
    targets: &[FactId],
    count: usize,
) -> Result<(), Stop>
    requires { count ≤ length (state.old).graph.facts }
    ensures { IsAnswered itself AnyKnown state.old state.new result (definition.bring_members label count (last_part (path_at path.now).parts) targets.now (meaning state.old)) }
{
    for target in targets {
        match bring_if(state, label, path, *target, count) {
            Ok(()) => {}
            Err(stop) => return Err(stop),
        }
    }
    Ok(())
}

// How many are declared.
fn all_facts(state: &State) -> usize
    ensures { result ≡ length (state.now).graph.facts }
{
    state.graph().facts().len()
}

#[tactic(auto, using(crate::proofs::BringingMembers::facts_counted))]
fn fact_count(state: &State) -> usize
    ensures is { result ≡ length (meaning state.now).graph.facts }
    ensures all { result ≡ length (state.now).graph.facts }
{
    all_facts(state)
}

#[tactic(auto, using(cxx_paths::proofs::Stopping::stopped_at))]
fn bring_some(state: &mut State, label: Access, path: &Path, targets: &[FactId]) -> Result<(), Stop>
    ensures { IsAnswered itself AnyKnown state.old state.new result (definition.bring_some label (last_part (path_at path.now).parts) targets.now (meaning state.old)) }
{
    if targets.is_empty() {
        return Err(undeclared_name(state, path));
    }
    let count = fact_count(state);
    bring_each(state, label, path, targets, count)
}

#[tactic(auto, using(cxx_paths::proofs::Stopping::clear_then, cxx_paths::proofs::Stopping::clear_stopped))]
fn bring_found(state: &mut State, label: Access, path: &Path, found: &Found) -> Result<(), Stop>
    ensures { IsAnswered itself AnyKnown state.old state.new result (definition.bring_found label (last_part (path_at path.now).parts) found.now (meaning state.old)) }
{
    match unambiguous_name(state, path, found) {
        Ok(()) => bring_some(state, label, path, targets_of(found)),
        Err(stop) => Err(stop),
    }
}

fn bring_in(state: &mut State, label: Access, path: &Path, region: Region) -> Result<(), Stop>
    ensures { IsAnswered itself AnyKnown state.old state.new result (definition.bring_found label (last_part (path_at path.now).parts) (sought_in (meaning state.old).graph any_name region (name_in (path_at path.now))) (meaning state.old)) }
{
    match name_sought(state, Wanted::Any, region, path) {
        Ok(found) => bring_found(state, label, path, &found),
        Err(_) => Err(Stop::OutOfMemory),
    }
}

/// What a name means in the class before it is declared in the class where the reader stands, with an access (7.3.3, 11.1). It
/// stops where what stands before the name means no class, where the name means no member of that, or several that do not go
/// together, and at a declaration that is in the way.
#[tactic(auto, using(cxx_paths::proofs::Stopping::region_then, cxx_paths::proofs::Stopping::region_stopped), unfolding(crate::specs::MemberUsings::bring_member))]
pub fn bring_member(state: &mut State, label: Access, path: &Path) -> Result<(), Stop>
    ensures { IsAnswered itself AnyKnown state.old state.new result (definition.bring_member label (path_at path.now) (meaning state.old)) }
{
    match member_region_here(state, path) {
        Ok(region) => bring_in(state, label, path, region),
        Err(stop) => Err(stop),
    }
}
