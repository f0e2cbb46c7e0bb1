//! What a name means as a member of a class (3.4.5, 10.2).

ghost use Rattle.std.specs.Prelude.{◌≡◌, ◌<◌, List, length, IfOk};
ghost use Rattle.cxx_answers.specs.Members as definition;
ghost use Rattle.cxx_expr.specs.Views.{AreFactsKnown, IsClassKnown, class_of_number, class_of_option, numbered};
ghost use Rattle.cxx_meaning.specs.Lookups.Member.{member as member_of};
ghost use Rattle.cxx_meaning.specs.Lookups.Wanted.{any_name};
ghost use Rattle.cxx_model.specs.Facts.Declarations.{facts_at, spelled};
ghost use Rattle.cxx_model.specs.Facts.Graph.{Graph as GraphHeld, IsClassNumberInRange};
ghost use Rattle.cxx_model.specs.Types.Trees.{CxxType};
ghost use Rattle.cxx_names.specs.Index.{Notes};
ghost use Rattle.cxx_paths.specs.Behind.{IsClassThere, region_behind as region_behind_of};
ghost use Rattle.cxx_reading.specs.Trees.{last_part};
ghost use Rattle.cxx_tree.specs.Answered.{IsAnswered};
ghost use Rattle.cxx_tree.specs.Arena.{path_at, path_parts_at};
ghost use Rattle.cxx_tree.specs.Held.{meaning};

use crate::seen::known_of;
use cxx_expr::faults::{fault, not_built_at};
use cxx_graph::Graph;
use cxx_inherited::{Wanted, member};
use cxx_model::{
    ClassId, FactList, FaultText, Listed, MemberFound, OutOfMemory, Path, PathPart, Stop, Wait,
};
use cxx_names::Names;
use cxx_paths::{ambiguous_member, last_place, last_word, region_behind, region_here};
use cxx_reading::Region;
use cxx_tree::State;
use std::alloc::Global;

// Whether the definition of a class has begun (9.2).
fn has_begun(graph: &Graph, names: &Names, class: ClassId) -> bool
    requires { Notes names.now graph.now.facts }
    ensures { (types : List CxxType) → result ≡ definition.has_begun class.0 (facts_at types graph.now.facts) }
{
    match names.scopes_of_class(graph, class) {
        [] => false,
        _ => true,
    }
}

// The same of the state.
#[tactic(auto, unfolding(cxx_tree::specs::Held::meaning))]
fn has_members(state: &State, class: ClassId) -> bool
    ensures { result ≡ definition.has_begun class.0 (meaning state.now).graph.facts }
{
    has_begun(state.graph(), state.names(), class)
}

// ---- what is found

#[tactic(auto, using(cxx_expr::proofs::Kept::later_refl, cxx_paths::proofs::Stopping::stops_at))]
fn member_meant(
    alloc: Global,
    state: &mut State,
    parts: &[PathPart],
    found: MemberFound,
) -> Result<FactList, Stop>
    ensures { IsAnswered numbered AreFactsKnown state.old state.new result (definition.in_state (meaning state.old) (definition.member_meant (meaning state.old).graph (last_part (path_parts_at parts.now)) found)) }
{
    match found {
        MemberFound::Empty => Ok(Listed::new(alloc)),
        MemberFound::Set(facts, _) => Ok(known_of(alloc, state, facts.as_slice())?),
        MemberFound::Ambiguous(one, two) => {
            let word = last_word(parts);
            Err(ambiguous_member(state, last_place(parts), word, &one, &two))
        }
    }
}

// What the name means in a class whose definition has begun.
#[tactic(auto, using(cxx_expr::proofs::Kept::later_refl), unfolding(cxx_tree::specs::Held::meaning))]
fn member_in(
    alloc: Global,
    state: &mut State,
    class: ClassId,
    parts: &[PathPart],
) -> Result<FactList, Stop>
    ensures { IsAnswered numbered AreFactsKnown state.old state.new result (definition.in_state (meaning state.old) (definition.member_found (meaning state.old).graph (last_part (path_parts_at parts.now)) (member_of (meaning state.old).graph any_name class (spelled (last_part (path_parts_at parts.now)).word)))) }
{
    let found = member(
        alloc,
        state.names(),
        state.graph(),
        state.types(),
        Wanted::Any,
        class,
        last_word(parts),
    );
    match found {
        Ok(found) => member_meant(alloc, state, parts, found),
        Err(Wait::Needs(_)) => Err(Stop::Fault(not_built_at(alloc, last_place(parts))?)),
        Err(Wait::OutOfMemory) => Err(Stop::OutOfMemory),
    }
}

/// All declarations that a name means as a member of a class, its entities by their first declarations (10.2). It stops at a
/// class whose definition has not begun, and where two members do not go together.
#[tactic(auto, using(cxx_expr::proofs::Kept::later_refl), unfolding(crate::specs::Members::member_here))]
pub fn member_here(
    alloc: Global,
    state: &mut State,
    class: ClassId,
    path: &Path,
) -> Result<FactList, Stop>
    ensures { IsAnswered numbered AreFactsKnown state.old state.new result (definition.member_here class.0 (path_at path.now) (meaning state.old)) }
{
    let parts = path.parts.as_slice();
    if !has_members(state, class) {
        let place = last_place(parts);
        return Err(Stop::Fault(fault(alloc, place, FaultText::IncompleteClass)?));
    }
    member_in(alloc, state, class, parts)
}

// ---- where the name is looked up

// The class of a region.
fn class_of_region(region: Region) -> Option<ClassId>
    ensures is { class_of_option result ≡ definition.class_of_region region }
    ensures there { (graph : GraphHeld) → IsClassThere graph region → IsClassNumberInRange graph result }
{
    match region {
        Region::Class(class) => Some(class),
        _ => None,
    }
}

// What is written before a member is a class (5.2.5).
#[tactic(auto, using(cxx_expr::proofs::Kept::later_refl))]
fn naming_by(
    alloc: Global,
    state: &mut State,
    parts: &[PathPart],
    class: Option<ClassId>,
) -> Result<ClassId, Stop>
    requires { IsClassNumberInRange (state.old).graph class }
    ensures { IsAnswered class_of_number IsClassKnown state.old state.new result (definition.in_state (meaning state.old) (definition.naming_by (last_part (path_parts_at parts.now)) (class_of_option class))) }
{
    match class {
        Some(class) => Ok(class),
        None => {
            let place = last_place(parts);
            Err(Stop::Fault(fault(alloc, place, FaultText::OperandsDoNotFit)?))
        }
    }
}

#[tactic(auto, using(cxx_expr::proofs::Kept::later_refl))]
fn naming_in(alloc: Global, state: &mut State, class: ClassId, path: &Path) -> Result<ClassId, Stop>
    requires { class.0 < length (state.old).graph.classes }
    ensures { IsAnswered class_of_number IsClassKnown state.old state.new result (definition.in_state (meaning state.old) (definition.naming_in (last_part (path_at path.now).parts) (region_behind_of (meaning state.old).graph (meaning state.old).here.scope class (path_at path.now)))) }
{
    match region_behind(state, class, path) {
        Ok(region) => naming_by(alloc, state, path.parts.as_slice(), class_of_region(region)),
        Err(stop) => Err(stop),
    }
}

/// The class in which a name is looked up behind an object of a class (3.4.5). It stops at a class whose definition has not
/// begun, at a part before `::` that means nothing which may stand there, and where the last of these is no class.
#[tactic(auto, using(cxx_expr::proofs::Kept::later_refl), unfolding(crate::specs::Members::naming_here))]
pub fn naming_here(
    alloc: Global,
    state: &mut State,
    class: ClassId,
    path: &Path,
) -> Result<ClassId, Stop>
    requires { class.0 < length (state.old).graph.classes }
    ensures { IsAnswered class_of_number IsClassKnown state.old state.new result (definition.naming_here class.0 (path_at path.now) (meaning state.old)) }
{
    if !has_members(state, class) {
        let place = last_place(path.parts.as_slice());
        return Err(Stop::Fault(fault(alloc, place, FaultText::IncompleteClass)?));
    }
    naming_in(alloc, state, class, path)
}

/// The class that the qualifiers of a name mean where it stands, if they mean one (3.4.3.1).
#[tactic(auto, unfolding(crate::specs::Members::qualifier_here))]
pub fn qualifier_here(state: &State, path: &Path) -> Result<Option<ClassId>, OutOfMemory>
    ensures is { IfOk result (λ class. class_of_option class ≡ definition.qualifier_here (path_at path.now) (meaning state.now)) }
    ensures there { IfOk result (IsClassNumberInRange (state.now).graph) }
{
    match region_here(state, path) {
        Ok(region) => Ok(class_of_region(region)),
        Err(Stop::OutOfMemory) => Err(OutOfMemory),
        Err(_) => Ok(None),
    }
}
