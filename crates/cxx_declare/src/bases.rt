//! The bases of a class (clause 10).

ghost use Rattle.std.specs.Prelude.{◌≡◌, ◌<◌, length, List, option_map, true, false, Ok};
ghost use Rattle.cxx_meaning.specs.Lookups.Wanted.{types_only};
ghost use Rattle.cxx_model.specs.Facts.Declarations.{fact_at, facts_at};
ghost use Rattle.cxx_model.specs.Facts.Entities.{has_end};
ghost use Rattle.cxx_model.specs.Facts.Graph.{is_complete, scopes};
ghost use Rattle.cxx_model.specs.Types.Numbers.{type_at};
ghost use Rattle.cxx_model.specs.Types.Trees.{CxxType};
ghost use Rattle.cxx_reading.specs.Paths.{name_in, sought_in};
ghost use Rattle.cxx_reading.specs.Seen.{fact_numbers, numbered_at, type_in};
ghost use Rattle.cxx_reading.specs.Trees.{last_part};
ghost use Rattle.cxx_declare.specs.Based.{base_of, class_in_option, made_base, number_of_class};
ghost use Rattle.cxx_declare.specs.Bases as definition;
ghost use Rattle.cxx_declare.specs.Begun.{IsAddable};
ghost use Rattle.cxx_declare.specs.Made.{told_added};
ghost use Rattle.cxx_tree.specs.Answered.{AnyKnown, IsAnswered, class_number, itself};
ghost use Rattle.cxx_tree.specs.Arena.{path_at};
ghost use Rattle.cxx_tree.specs.Held.{meaning};

use crate::parts::incomplete;
use cxx_found::{Found, Wanted};
use cxx_graph::Graph;
use cxx_model::{
    Access, ClassId, Entity, Fact, FactId, Name, Path, Place, ScopeId, Stop, TypeId, TypeNode,
};
use cxx_paths::{
    last_place, name_sought, not_wanted_name, place_among, region_here, set_in, unambiguous_name,
};
use cxx_reading::Region;
use cxx_tree::State;
use cxx_types::TypeTable;

/// Where a base is declared.
#[derive(Clone, Copy)]
pub struct BaseOf {
    /// The scope of the class.
    pub scope: ScopeId,
    pub class: ClassId,
    /// Its position among the bases, from 1.
    pub position: u32,
    /// The access of what it inherits (11.2).
    pub access: Access,
}

// ---- what a name means as that of a base

// The class that a type is, cv words aside.
fn class_under(types: &TypeTable, of: TypeId) -> Option<ClassId>
    requires { of.0 < length types.now }
    ensures { option_map number_of_class result ≡ definition.class_under (type_at types.now of.0) }
{
    match types.node(of) {
        TypeNode::Class(class) => Some(*class),
        TypeNode::Qualified(_, of) => class_under(types, *of),
        _ => None,
    }
}

// The class that declarations that were found name.
fn class_among(state: &mut State, numbers: &[FactId]) -> Result<Option<ClassId>, Stop>
    ensures { IsAnswered class_in_option AnyKnown state.old state.new result (Ok (definition.class_under (type_in (numbered_at (meaning state.old).graph (fact_numbers numbers.now))), meaning state.old)) }
{
    match state.type_named(numbers) {
        Ok(of) => Ok(class_under(state.types(), of)),
        Err(_) => Err(Stop::OutOfMemory),
    }
}

fn base_among(state: &mut State, path: &Path, numbers: &[FactId]) -> Result<ClassId, Stop>
    ensures { IsAnswered class_number AnyKnown state.old state.new result (definition.base_among (last_part (path_at path.now).parts) (numbered_at (meaning state.old).graph (fact_numbers numbers.now)) (meaning state.old)) }
{
    let refused = not_wanted_name(state, path, place_among(state, numbers));
    match class_among(state, numbers) {
        Ok(Some(class)) => Ok(class),
        Ok(None) => Err(refused),
        Err(stop) => Err(stop),
    }
}

#[tactic(auto, using(cxx_paths::proofs::Stopping::clear_then, cxx_paths::proofs::Stopping::clear_stopped))]
fn base_found(state: &mut State, path: &Path, found: &Found) -> Result<ClassId, Stop>
    ensures { IsAnswered class_number AnyKnown state.old state.new result (definition.base_found (last_part (path_at path.now).parts) found.now (meaning state.old)) }
{
    match unambiguous_name(state, path, found) {
        Ok(()) => base_among(state, path, set_in(found)),
        Err(stop) => Err(stop),
    }
}

fn base_in(state: &mut State, path: &Path, region: Region) -> Result<ClassId, Stop>
    ensures { IsAnswered class_number AnyKnown state.old state.new result (definition.base_found (last_part (path_at path.now).parts) (sought_in (meaning state.old).graph types_only region (name_in (path_at path.now))) (meaning state.old)) }
{
    match name_sought(state, Wanted::Types, region, path) {
        Ok(found) => base_found(state, path, &found),
        Err(_) => Err(Stop::OutOfMemory),
    }
}

// The class that a name means as that of a base (10 p2).
#[tactic(auto, using(cxx_paths::proofs::Stopping::region_then, cxx_paths::proofs::Stopping::region_stopped), unfolding(crate::specs::Bases::base_named))]
fn base_named(state: &mut State, path: &Path) -> Result<ClassId, Stop>
    ensures { IsAnswered class_number AnyKnown state.old state.new result (definition.base_named (path_at path.now) (meaning state.old)) }
{
    match region_here(state, path) {
        Ok(region) => base_in(state, path, region),
        Err(stop) => Err(stop),
    }
}

// ---- it is declared

// Whether the end of a class was read (9.2).
#[tactic(auto, using(cxx_names::proofs::Ended::ended_known, cxx_names::proofs::Ended::ended_past, crate::proofs::Based::never_whole))]
fn ends_in(graph: &Graph, class: ClassId) -> bool
    ensures is { (types : List CxxType) → result ≡ has_end class.0 (facts_at types graph.now.facts) }
    ensures whole { result ≡ is_complete graph.now.facts class.0 }
    ensures there { result ≡ true → class.0 < length graph.now.classes }
{
    graph.in_range();
    if class.0 < graph.class_count() {
        graph.complete(class)
    } else {
        false
    }
}

#[tactic(auto, unfolding(cxx_tree::specs::Held::meaning))]
fn is_ended(state: &State, class: ClassId) -> bool
    ensures is { result ≡ has_end class.0 (meaning state.now).graph.facts }
    ensures whole { result ≡ is_complete (state.now).graph.facts class.0 }
    ensures there { result ≡ true → class.0 < length (state.now).graph.classes }
{
    ends_in(state.graph(), class)
}

// Whether a class has begun, with a scope, and not ended.
fn is_open(state: &State, of: BaseOf) -> bool
    ensures scope { result ≡ true → of.scope.0 < scopes (state.now).graph.facts }
    ensures class { result ≡ true → of.class.0 < length (state.now).graph.classes }
    ensures unended { result ≡ true → is_complete (state.now).graph.facts of.class.0 ≡ false }
    ensures open { of.scope.0 < scopes (state.now).graph.facts → of.class.0 < length (state.now).graph.classes → is_complete (state.now).graph.facts of.class.0 ≡ false → result ≡ true }
{
    let graph = state.graph();
    if of.scope.0 >= state.names().scopes(graph).0 {
        return false;
    }
    if of.class.0 >= graph.class_count() {
        return false;
    }
    !is_ended(state, of.class)
}

fn base_fact(of: BaseOf, place: Place, base: ClassId) -> Fact
    ensures { result ≡ made_base of place base }
{
    Fact {
        place,
        scope: of.scope,
        name: Name::Unnamed,
        access: of.access,
        what: Entity::Ancestor {
            class: of.class,
            parent: base,
            index: of.position,
            access: of.access,
        },
    }
}

/// Adds a fact of which the number is not asked.
pub(crate) fn add_told(state: &mut State, fact: Fact) -> Result<(), Stop>
    requires { IsAddable state.old fact }
    ensures { IsAnswered itself AnyKnown state.old state.new result (told_added (fact_at (state.old).types fact) (meaning state.old)) }
{
    match state.add(fact) {
        Ok(_) => Ok(()),
        Err(stop) => Err(stop),
    }
}

// Adds a base whose end was read.
fn add_whole(state: &mut State, of: BaseOf, place: Place, base: ClassId) -> Result<(), Stop>
    requires scope { of.scope.0 < scopes (state.old).graph.facts }
    requires class { of.class.0 < length (state.old).graph.classes }
    requires base { base.0 < length (state.old).graph.classes }
    requires whole { is_complete (state.old).graph.facts base.0 ≡ true }
    requires unended { is_complete (state.old).graph.facts of.class.0 ≡ false }
    ensures { IsAnswered itself AnyKnown state.old state.new result (told_added (definition.base_fact (base_of of) place base.0) (meaning state.old)) }
{
    add_told(state, base_fact(of, place, base))
}

#[tactic(auto, using(crate::proofs::Based::known_added, crate::proofs::Based::known_stopped, crate::proofs::Based::no_memory))]
fn declare_known(state: &mut State, of: BaseOf, place: Place, base: ClassId) -> Result<(), Stop>
    ensures { IsAnswered itself AnyKnown state.old state.new result (definition.declare_known (base_of of) place base.0 (meaning state.old)) }
{
    if !is_ended(state, base) {
        return Err(incomplete(state.alloc(), place));
    }
    // No reader asks for a base of a class that did not begin, or that has ended.
    if !is_open(state, of) {
        return Err(Stop::OutOfMemory);
    }
    add_whole(state, of, place, base)
}

/// A name stands for a base of a class (10): names of types alone are looked up, and the class that is found is complete.
#[tactic(auto, using(crate::proofs::Based::base_then, crate::proofs::Based::base_stopped))]
pub fn declare_base(state: &mut State, of: BaseOf, path: &Path) -> Result<(), Stop>
    ensures { IsAnswered itself AnyKnown state.old state.new result (definition.declare_base (base_of of) (path_at path.now) (meaning state.old)) }
{
    match base_named(state, path) {
        Ok(base) => declare_known(state, of, last_place(path.parts.as_slice()), base),
        Err(stop) => Err(stop),
    }
}
