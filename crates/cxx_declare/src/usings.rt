//! Using-declarations (7.3.3).

ghost use Rattle.std.specs.Prelude.{◌≡◌, ◌<◌, ◌≤◌, ◌∷◌, [], length, IfOk, List, OnOk};
ghost use Rattle.cxx_meaning.specs.Lookups.Wanted.{names_space};
ghost use Rattle.cxx_model.specs.Facts.Declarations.{declares_at, graph_at};
ghost use Rattle.cxx_model.specs.Types.Trees.{CxxType};
ghost use Rattle.cxx_declare.specs.Brought.{AreFoundThere, AreThere, place_of_space};
ghost use Rattle.cxx_reading.specs.declared.region.Region.TheVariants.{Inside};
ghost use Rattle.cxx_reading.specs.Paths.{name_in};
ghost use Rattle.cxx_reading.specs.Seen.{fact_numbers, numbered_at};
ghost use Rattle.cxx_reading.specs.Trees.{last_part};
ghost use Rattle.cxx_reading.specs.Usings as usings;
ghost use Rattle.cxx_tree.specs.Answered.{AnyKnown, IsAnswered, itself};
ghost use Rattle.cxx_tree.specs.Arena.{path_at};
ghost use Rattle.cxx_tree.specs.Held.{meaning};

use crate::facts::{tell, word_fact};
use crate::parts::fact_of;
use cxx_found::{Found, brought};
use cxx_graph::Graph;
use cxx_model::{Entity, FactId, OutOfMemory, Path, Place, ScopeId, Stop};
use cxx_paths::{
    ambiguous_name, last_place, last_word, undeclared_name, using_region_here, wrong_name,
};
use cxx_reading::Region;
use cxx_tree::State;

// ---- what is brought

// From a namespace.
#[tactic(auto, unfolding(cxx_reading::specs::Usings::brought_in))]
fn brought_from(state: &State, space: ScopeId, path: &Path) -> Result<Found, OutOfMemory>
    ensures is { IfOk result (λ found. found ≡ usings.brought_in (meaning state.now).graph (Inside space) (name_in (path_at path.now))) }
    ensures there { IfOk result (AreFoundThere state.now) }
{
    let graph = state.graph();
    graph.in_range();
    brought(
        state.alloc(),
        state.names(),
        graph,
        state.types(),
        space,
        last_word(path.parts.as_slice()),
    )
}

// A name without qualifiers, or behind a class, brings nothing.
#[tactic(auto, unfolding(cxx_reading::specs::Usings::brought_in))]
fn brought_in(state: &State, region: Region, path: &Path) -> Result<Found, OutOfMemory>
    ensures is { IfOk result (λ found. found ≡ usings.brought_in (meaning state.now).graph region (name_in (path_at path.now))) }
    ensures there { IfOk result (AreFoundThere state.now) }
{
    match region {
        Region::Outward(_) => Ok(Found::Empty),
        Region::Inside(space) => brought_from(state, space, path),
        Region::Class(_) => Ok(Found::Empty),
    }
}

// ---- it is declared

// One more entity has the name here.
fn bring_one(state: &mut State, path: &Path, target: FactId) -> Result<(), Stop>
    requires { target.0 < length (state.old).graph.facts }
    ensures answered { IsAnswered itself AnyKnown state.old state.new result (usings.bring_each (last_part (path_at path.now).parts) (target ∷ []) (meaning state.old)) }
    ensures longer { OnOk result (length (state.old).graph.facts ≤ length (state.new).graph.facts) }
{
    let parts = path.parts.as_slice();
    match word_fact(
        state,
        last_place(parts),
        last_word(parts),
        Entity::Using { target },
    ) {
        Ok(fact) => tell(state, fact),
        Err(_) => Err(Stop::OutOfMemory),
    }
}

fn bring_each(state: &mut State, path: &Path, targets: &[FactId]) -> Result<(), Stop>
    requires { AreThere (length (state.old).graph.facts) targets.now }
    ensures { IsAnswered itself AnyKnown state.old state.new result (usings.bring_each (last_part (path_at path.now).parts) targets.now (meaning state.old)) }
{
    for target in targets {
        match bring_one(state, path, *target) {
            Ok(()) => {}
            Err(stop) => return Err(stop),
        }
    }
    Ok(())
}

// ---- what may be brought

fn is_space(what: Entity) -> bool
    ensures { (types : List CxxType) → result ≡ names_space (declares_at types what) }
{
    match what {
        Entity::Namespace { .. } => true,
        _ => false,
    }
}

// Where a declaration stands, where it is one of a namespace.
#[tactic(auto, using(crate::proofs::Bringing::space_none, crate::proofs::Bringing::space_passed, crate::proofs::Bringing::space_one))]
fn space_at(graph: &Graph, number: FactId) -> Option<Place>
    ensures { (types : List CxxType) → result ≡ place_of_space (usings.space_among (numbered_at (graph_at types graph.now) (number.0 ∷ []))) }
{
    match fact_of(graph, number) {
        Some(fact) => {
            if is_space(fact.what) {
                Some(fact.place)
            } else {
                None
            }
        }
        None => None,
    }
}

// The same of the first of some declarations that is.
fn first_space(graph: &Graph, numbers: &[FactId]) -> Option<Place>
    ensures { (types : List CxxType) → result ≡ place_of_space (usings.space_among (numbered_at (graph_at types graph.now) (fact_numbers numbers.now))) }
{
    for number in numbers {
        if let Some(place) = space_at(graph, *number) {
            return Some(place);
        }
    }
    None
}

#[tactic(auto, unfolding(cxx_tree::specs::Held::meaning))]
fn space_among(state: &State, numbers: &[FactId]) -> Option<Place>
    ensures { result ≡ place_of_space (usings.space_among (numbered_at (meaning state.now).graph (fact_numbers numbers.now))) }
{
    first_space(state.graph(), numbers)
}

fn bring_all(state: &mut State, path: &Path, targets: &[FactId]) -> Result<(), Stop>
    requires { AreThere (length (state.old).graph.facts) targets.now }
    ensures { IsAnswered itself AnyKnown state.old state.new result (usings.bring_all (last_part (path_at path.now).parts) targets.now (usings.space_among (numbered_at (meaning state.old).graph (fact_numbers targets.now))) (meaning state.old)) }
{
    if let Some(other) = space_among(state, targets) {
        return Err(wrong_name(state, path, other));
    }
    bring_each(state, path, targets)
}

#[tactic(auto, using(cxx_paths::proofs::Stopping::stopped_at))]
fn bring_found(state: &mut State, path: &Path, found: &Found) -> Result<(), Stop>
    requires { AreFoundThere state.old found.now }
    ensures { IsAnswered itself AnyKnown state.old state.new result (usings.bring_found (last_part (path_at path.now).parts) found.now (meaning state.old)) }
{
    match found {
        Found::Set(targets) => bring_all(state, path, targets.as_slice()),
        Found::Ambiguous(one, two) => Err(ambiguous_name(state, path, *one, *two)),
        _ => Err(undeclared_name(state, path)),
    }
}

fn bring_in(state: &mut State, path: &Path, region: Region) -> Result<(), Stop>
    ensures { IsAnswered itself AnyKnown state.old state.new result (usings.bring_found (last_part (path_at path.now).parts) (usings.brought_in (meaning state.old).graph region (name_in (path_at path.now))) (meaning state.old)) }
{
    match brought_in(state, region, path) {
        Ok(found) => bring_found(state, path, &found),
        Err(_) => Err(Stop::OutOfMemory),
    }
}

/// What a name means in its namespace is declared where the reader stands (7.3.3). It stops where the name means no entity, or
/// two of which none hides the other, at the name of a namespace, and at a declaration that is in the way.
#[tactic(auto, using(cxx_paths::proofs::Stopping::region_then, cxx_paths::proofs::Stopping::region_stopped), unfolding(cxx_reading::specs::Usings::bring_here))]
pub fn bring_here(state: &mut State, path: &Path) -> Result<(), Stop>
    ensures { IsAnswered itself AnyKnown state.old state.new result (usings.bring_here (path_at path.now) (meaning state.old)) }
{
    match using_region_here(state, path) {
        Ok(region) => bring_in(state, path, region),
        Err(stop) => Err(stop),
    }
}
