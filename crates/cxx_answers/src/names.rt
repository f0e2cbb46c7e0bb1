//! What a name means (3.4.1, 3.4.3).

ghost use Rattle.std.specs.Prelude.{◌≡◌, ◌&&◌, List, [], ◌∷◌};
ghost use Rattle.cxx_answers.specs.Answers as definition;
ghost use Rattle.cxx_answers.specs.Named.{name_found};
ghost use Rattle.cxx_expr.specs.Views.{AreFactsKnown, numbered};
ghost use Rattle.cxx_meaning.specs.Lookups.Wanted.{any_name};
ghost use Rattle.cxx_model.specs.Facts.Declarations.{declares_at, graph_at};
ghost use Rattle.cxx_model.specs.Types.Trees.{CxxType};
ghost use Rattle.cxx_names.specs.Index.{Notes};
ghost use Rattle.cxx_names.specs.Looked.{looked_up};
ghost use Rattle.cxx_reading.specs.Paths.{found_in, name_in, sought_in};
ghost use Rattle.cxx_reading.specs.Seen.{fact_numbers, numbered_at};
ghost use Rattle.cxx_tree.specs.Answered.{AnyKnown, IsAnswered, itself};
ghost use Rattle.cxx_tree.specs.Arena.{path_at};
ghost use Rattle.cxx_tree.specs.Held.{fact_of_option, meaning};

use crate::seen::with_givers;
use crate::typed::fact_of;
use cxx_expr::faults::fault;
use cxx_found::{Found, Wanted};
use cxx_graph::Graph;
use cxx_model::{
    Entity, FactId, FactList, FaultText, LeftOut, MemberKind, Path, Place, ScopeId, Stop,
};
use cxx_names::Names;
use cxx_paths::{last_place, name_sought, region_here, scope_of, set_in, unambiguous_name};
use cxx_reading::Region;
use cxx_tree::State;
use std::alloc::Global;

fn is_free(member: MemberKind) -> bool
    ensures { result ≡ definition.is_free member }
{
    match member {
        MemberKind::Free => true,
        _ => false,
    }
}

// Whether it is an object that is no member of a class.
fn is_free_object(what: Entity) -> bool
    ensures { (types : List CxxType) → result ≡ definition.is_free_object (declares_at types what) }
{
    match what {
        Entity::Object { member, .. } => is_free(member),
        _ => false,
    }
}

// Whether a declaration is that of an object of a block or of a parameter (8.3.6).
fn is_local(graph: &Graph, names: &Names, number: FactId) -> bool
    requires { Notes names.now graph.now.facts }
    ensures { (types : List CxxType) → result ≡ definition.names_local (graph_at types graph.now) (looked_up types graph.now.facts (number ∷ [])) }
{
    match fact_of(graph, number) {
        Some(fact) => is_free_object(fact.what) && !names.is_space(graph, fact.scope),
        None => false,
    }
}

// Whether one of some declarations is that of such an object.
fn names_local(graph: &Graph, names: &Names, numbers: &[FactId]) -> bool
    requires { Notes names.now graph.now.facts }
    ensures { (types : List CxxType) → result ≡ definition.names_local (graph_at types graph.now) (looked_up types graph.now.facts numbers.now) }
{
    for number in numbers {
        if is_local(graph, names, *number) {
            return true;
        }
    }
    false
}

// The same of the state.
fn means_local(state: &State, numbers: &[FactId]) -> bool
    ensures { result ≡ definition.names_local (meaning state.now).graph (numbered state.now numbers.now) }
{
    names_local(state.graph(), state.names(), numbers)
}

// A default argument means no local object (8.3.6).
#[tactic(auto, unfolding(cxx_tree::specs::Held::meaning))]
fn is_refused(state: &State, numbers: &[FactId]) -> bool
    ensures { result ≡ (meaning state.now).in_default && definition.names_local (meaning state.now).graph (numbered state.now numbers.now) }
{
    state.in_default() && means_local(state, numbers)
}

// Whether a declaration is that of the object which the last condition declares, in a scope (6.4).
fn is_tested(graph: &Graph, tested: Option<FactId>, scope: ScopeId, number: FactId) -> bool
    ensures { (types : List CxxType) → result ≡ definition.names_tested (fact_of_option tested) scope.0 (looked_up types graph.now.facts (number ∷ [])) }
{
    match fact_of(graph, number) {
        Some(fact) => match tested {
            Some(tested) => number.0 == tested.0 && fact.scope.0 == scope.0,
            None => false,
        },
        None => false,
    }
}

// Whether one of some declarations is that of this object.
fn names_tested(graph: &Graph, tested: Option<FactId>, scope: ScopeId, numbers: &[FactId]) -> bool
    ensures { (types : List CxxType) → result ≡ definition.names_tested (fact_of_option tested) scope.0 (looked_up types graph.now.facts numbers.now) }
{
    for number in numbers {
        if is_tested(graph, tested, scope, *number) {
            return true;
        }
    }
    false
}

// The same of the state.
fn means_tested(state: &State, numbers: &[FactId]) -> bool
    ensures { result ≡ definition.names_tested (meaning state.now).tested (meaning state.now).here.scope (numbered state.now numbers.now) }
{
    names_tested(state.graph(), state.tested(), state.scope(), numbers)
}

// What a `for` does behind each turn does not name the object that its condition declares (6.5.3).
#[tactic(auto, unfolding(cxx_tree::specs::Held::meaning))]
fn is_left_out(state: &State, numbers: &[FactId]) -> bool
    ensures { result ≡ (meaning state.now).in_step && definition.names_tested (meaning state.now).tested (meaning state.now).here.scope (numbered state.now numbers.now) }
{
    state.in_step() && means_tested(state, numbers)
}

// What a name means that has these declarations, where it may mean them.
#[tactic(auto, using(cxx_expr::proofs::Kept::later_refl))]
fn name_meant(
    alloc: Global,
    state: &mut State,
    path: &Path,
    all: FactList,
) -> Result<FactList, Stop>
    requires { AreFactsKnown state.old all }
    ensures { IsAnswered numbered AreFactsKnown state.old state.new result (definition.name_meant (path_at path.now) (numbered state.old all) (meaning state.old)) }
{
    let parts = path.parts.as_slice();
    if is_refused(state, all.as_slice()) {
        let place = last_place(parts);
        return Err(Stop::Fault(fault(alloc, place, FaultText::OperandsDoNotFit)?));
    }
    if is_left_out(state, all.as_slice()) {
        let place = last_place(parts);
        let text = FaultText::LeftOut(LeftOut::ConditionNameInStep);
        return Err(Stop::Fault(fault(alloc, place, text)?));
    }
    Ok(all)
}

// What a name means in a region, by the entities that were found.
#[tactic(auto, using(cxx_expr::proofs::Kept::later_refl))]
fn name_among(
    alloc: Global,
    state: &mut State,
    path: &Path,
    region: Region,
    numbers: &[FactId],
) -> Result<FactList, Stop>
    requires { numbered_at (meaning state.old).graph (fact_numbers numbers.now) ≡ found_in (meaning state.old).graph region (name_in (path_at path.now)) }
    ensures { IsAnswered numbered AreFactsKnown state.old state.new result (definition.name_meant (path_at path.now) (definition.meant_in (meaning state.old).graph region (name_in (path_at path.now))) (meaning state.old)) }
{
    let all = with_givers(alloc, state, scope_of(region), numbers)?;
    name_meant(alloc, state, path, all)
}

// The same of what was found, where that is not ambiguous.
#[tactic(auto, using(cxx_paths::proofs::Stopping::clear_then, cxx_paths::proofs::Stopping::clear_stopped))]
fn name_found(
    alloc: Global,
    state: &mut State,
    path: &Path,
    region: Region,
    found: &Found,
) -> Result<FactList, Stop>
    requires { found.now ≡ sought_in (meaning state.old).graph any_name region (name_in (path_at path.now)) }
    ensures { IsAnswered numbered AreFactsKnown state.old state.new result (name_found (path_at path.now) region found.now (meaning state.old)) }
{
    match unambiguous_name(state, path, found) {
        Ok(()) => name_among(alloc, state, path, region, set_in(found)),
        Err(stop) => Err(stop),
    }
}

// What a name means that is looked up in a region.
#[tactic(auto, using(cxx_expr::proofs::Kept::later_refl))]
fn name_in_region(
    alloc: Global,
    state: &mut State,
    path: &Path,
    region: Region,
) -> Result<FactList, Stop>
    ensures { IsAnswered numbered AreFactsKnown state.old state.new result (definition.name_in_region (path_at path.now) region (meaning state.old)) }
{
    match name_sought(state, Wanted::Any, region, path) {
        Ok(found) => name_found(alloc, state, path, region, &found),
        Err(_) => Err(Stop::OutOfMemory),
    }
}

/// All declarations that a name with its qualifiers means where the reader stands (3.4.1, 3.4.3): its entities by their first
/// declarations, and behind them the declarations of functions that tell their default arguments where it is looked up (8.3.6).
/// It stops where a qualifier means no namespace, where the name is ambiguous (3.4), at a local object in a default argument
/// (8.3.6), and at the object that the condition of a `for` declares in what that does behind each turn (6.5.3).
#[tactic(auto, using(cxx_paths::proofs::Stopping::region_then, cxx_paths::proofs::Stopping::region_stopped), unfolding(crate::specs::Answers::name_here))]
pub fn name_here(alloc: Global, state: &mut State, path: &Path) -> Result<FactList, Stop>
    ensures { IsAnswered numbered AreFactsKnown state.old state.new result (definition.name_here (path_at path.now) (meaning state.old)) }
{
    match region_here(state, path) {
        Ok(region) => name_in_region(alloc, state, path, region),
        Err(stop) => Err(stop),
    }
}

/// A name, by its place, means the entity with this first declaration, which is kept (3.4).
#[tactic(auto, unfolding(crate::specs::Answers::bound_here))]
pub fn bound_here(state: &mut State, place: Place, target: FactId) -> Result<(), Stop>
    ensures { IsAnswered itself AnyKnown state.old state.new result (definition.bound_here place target.0 (meaning state.old)) }
{
    match state.add_use(place, target) {
        Ok(()) => Ok(()),
        Err(_) => Err(Stop::OutOfMemory),
    }
}
