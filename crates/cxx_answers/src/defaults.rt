//! Default arguments: those that declarations gave, and how they begin and end (8.3.6).

ghost use Rattle.std.specs.Prelude.{Ok, ◌≡◌, ◌<◌, length, List, IfOk};
ghost use Rattle.cxx_answers.specs.Answers as definition;
ghost use Rattle.cxx_answers.specs.Defaults as defaults;
ghost use Rattle.cxx_expr.specs.Making.{IsTreeKnown};
ghost use Rattle.cxx_model.specs.declared.fault.FaultText.TheVariants as says;
ghost use Rattle.cxx_model.specs.Facts.Declarations.{facts_at};
ghost use Rattle.cxx_model.specs.Facts.Entities.{has_end};
ghost use Rattle.cxx_model.specs.Stops.{Faulty, fault as fault_of};
ghost use Rattle.cxx_model.specs.Types.Trees.{CxxType};
ghost use Rattle.cxx_reading.specs.Givers.{giver};
ghost use Rattle.cxx_tree.specs.Answered.{AnyKnown, IsAnswered, itself};
ghost use Rattle.cxx_tree.specs.Arena.{number_of_option, path_at};
ghost use Rattle.cxx_tree.specs.Defaults.{first_given, with_offer};
ghost use Rattle.cxx_tree.specs.Held.{meaning, tree, trees, type_of};

use crate::answering::Answering;
use crate::seen::scope_of_giver;
use cxx_cursor::last_place;
use cxx_expr::convert;
use cxx_expr::faults::{fault, not_built_at};
use cxx_graph::Graph;
use cxx_model::{ClassId, FactId, Fault, FaultText, Path, Place, ScopeId, Stop, TreeId, TypeId};
use cxx_paths::{region_here, scope_of};
use cxx_tree::State;
use std::alloc::{AllocError, Global};

// None was read so far.
fn no_fallback(alloc: Global, place: Place) -> Result<Box<Fault>, AllocError>
    ensures { IfOk result (λ at. Faulty at.value ≡ fault_of place says.OperandsDoNotFit) }
{
    fault(alloc, place, FaultText::OperandsDoNotFit)
}

// That which a declaration gave in the scope that tells the default arguments in a scope.
#[tactic(auto, using(cxx_expr::proofs::Kept::later_refl))]
fn fallback_in(
    state: &mut State,
    place: Place,
    scope: ScopeId,
    target: FactId,
    index: usize,
) -> Result<TreeId, Stop>
    ensures { IsAnswered tree IsTreeKnown state.old state.new result (definition.fallback_by place (meaning state.old) (first_given (meaning state.old).graph.facts (definition.scope_of_giver (meaning state.old).graph target.0 (giver (meaning state.old).graph scope.0 target.0)) target.0 index (meaning state.old).given)) }
{
    let Ok(index) = u32::try_from(index) else {
        return Err(Stop::OutOfMemory);
    };
    let scope = scope_of_giver(state, scope, target);
    match state.first_given(scope, target, index) {
        Some(given) => Ok(given.tree),
        None => Err(Stop::Fault(no_fallback(state.alloc(), place)?)),
    }
}

/// The default argument of the parameter with an index, by the name that is called and the first declaration of its function,
/// as it is converted: that which a declaration gave in the scope that tells the default arguments where the name is looked
/// up. One in a class that was not read yet is not there (9.2 p2).
#[tactic(auto, using(cxx_paths::proofs::Stopping::region_then, cxx_paths::proofs::Stopping::region_stopped), unfolding(crate::specs::Answers::fallback_here))]
pub fn fallback_here(
    state: &mut State,
    path: &Path,
    target: FactId,
    index: usize,
) -> Result<TreeId, Stop>
    ensures { IsAnswered tree IsTreeKnown state.old state.new result (definition.fallback_here (path_at path.now) target.0 index (meaning state.old)) }
{
    match region_here(state, path) {
        Ok(region) => {
            let place = last_place(path.parts.as_slice());
            let scope = scope_of(region);
            fallback_in(state, place, scope, target, index)
        }
        Err(stop) => Err(stop),
    }
}

// The class in which the function stands in the scope of whose list of parameters the reader is (8.3.5).
#[tactic(auto, unfolding(cxx_tree::specs::Held::meaning))]
fn class_of_list(state: &State) -> Option<ClassId>
    ensures { result ≡ defaults.class_of_list (meaning state.now) }
{
    let around = state.names().parent(state.graph(), state.scope());
    state.names().class_of_scope(state.graph(), around)
}

// Whether there is one.
#[tactic(auto, unfolding(crate::specs::Defaults::is_list_of_class))]
fn is_list_of_class(state: &State) -> bool
    ensures { result ≡ defaults.is_list_of_class (meaning state.now) }
{
    match class_of_list(state) {
        Some(_) => true,
        None => false,
    }
}

// Whether the end of a class was read (9.2).
#[tactic(auto, using(cxx_names::proofs::Ended::ended_known, cxx_names::proofs::Ended::ended_past))]
fn ends_in(graph: &Graph, class: ClassId) -> bool
    ensures { (types : List CxxType) → result ≡ has_end class.0 (facts_at types graph.now.facts) }
{
    graph.in_range();
    if class.0 < graph.class_count() {
        graph.complete(class)
    } else {
        false
    }
}

// Whether a class is one that has not ended (9.2).
#[tactic(auto, unfolding(cxx_tree::specs::Held::meaning))]
fn is_class_open(state: &State, class: Option<ClassId>) -> bool
    ensures { result ≡ defaults.is_class_open (meaning state.now).graph class }
{
    match class {
        Some(class) => !ends_in(state.graph(), class),
        None => false,
    }
}

/// Whether the default arguments in the list of parameters in whose scope the reader stands are read later: in a class that
/// has not ended, where the outermost one has ended (9.2 p2).
#[tactic(auto, using(cxx_expr::proofs::Kept::later_refl), unfolding(crate::specs::Defaults::is_default_later))]
pub fn is_default_later(state: &mut State) -> Result<bool, Stop>
    ensures { IsAnswered itself AnyKnown state.old state.new result (defaults.is_default_later (meaning state.old)) }
{
    Ok(is_class_open(state, class_of_list(state)))
}

/// A default argument begins to be read, at its `=`: whether another one is being read round it. Those of a function of a
/// class that is defined outside of it are not read yet.
#[tactic(auto, using(cxx_expr::proofs::Kept::later_refl), unfolding(crate::specs::Defaults::begin_default, cxx_tree::specs::Held::meaning))]
pub fn begin_default(state: &mut State, equals: Place) -> Result<bool, Stop>
    ensures { IsAnswered itself AnyKnown state.old state.new result (defaults.begin_default equals (meaning state.old)) }
{
    if is_list_of_class(state) {
        return Err(Stop::Fault(not_built_at(state.alloc(), equals)?));
    }
    let was = state.in_default();
    state.set_in_default(true);
    Ok(was)
}

// Keeps a default argument, of the parameter with an index.
fn offer(state: &mut State, index: usize, number: TreeId) -> Result<(), Stop>
    requires { number.0 < length (trees state.old) }
    ensures { IsAnswered itself AnyKnown state.old state.new result (Ok (tt, with_offer index (tree state.old number) (meaning state.old))) }
{
    let Ok(index) = u32::try_from(index) else {
        return Err(Stop::OutOfMemory);
    };
    match state.add_offer(index, number) {
        Ok(()) => Ok(()),
        Err(_) => Err(Stop::OutOfMemory),
    }
}

/// A default argument that was passed over, of the parameter with an index, is kept for the declaration that it stands in.
#[tactic(auto, unfolding(crate::specs::Defaults::offer_default))]
pub fn offer_default(state: &mut State, index: usize, number: TreeId) -> Result<(), Stop>
    requires { number.0 < length (trees state.old) }
    ensures { IsAnswered itself AnyKnown state.old state.new result (defaults.offer_default index (tree state.old number) (meaning state.old)) }
{
    offer(state, index, number)
}

// Keeps a default argument that was read, and it is read no more.
#[tactic(auto, using(cxx_expr::proofs::Kept::later_trans, cxx_expr::proofs::Kept::tree_later, cxx_expr::proofs::Kept::tree_kept))]
fn offered(state: &mut State, was: bool, index: usize, number: TreeId) -> Result<TreeId, Stop>
    requires { number.0 < length (trees state.old) }
    ensures { IsAnswered tree IsTreeKnown state.old state.new result (Ok (defaults.offered_as was index (tree state.old number, meaning state.old))) }
{
    offer(state, index, number)?;
    state.set_in_default(was);
    Ok(number)
}

/// A default argument was read, of the parameter with an index and a type: it is converted once, at its `=`, and kept.
#[tactic(auto, using(cxx_expr::proofs::Kept::later_trans), unfolding(crate::specs::Defaults::end_default))]
pub fn end_default(
    alloc: Global,
    state: &mut State,
    equals: Place,
    was: bool,
    index: usize,
    of: TypeId,
    number: TreeId,
) -> Result<TreeId, Stop>
    requires of { of.0 < length (state.old).types }
    requires number { number.0 < length (trees state.old) }
    ensures { IsAnswered tree IsTreeKnown state.old state.new result (defaults.end_default equals was index (type_of state.old of) (tree state.old number) (meaning state.old)) }
{
    let converted = convert(alloc, &Answering, state, equals, of, number)?;
    offered(state, was, index, converted)
}

// ---- one that was passed over

/// A default argument that was passed over begins to be read (9.2 p2).
#[tactic(auto, unfolding(crate::specs::Defaults::begin_later))]
pub fn begin_later(state: &mut State) -> Result<(), Stop>
    ensures { IsAnswered itself AnyKnown state.old state.new result (defaults.begin_later (meaning state.old)) }
{
    state.set_in_default(true);
    Ok(())
}

// The declaration of its function gives it, where that is told.
#[tactic(auto, using(cxx_expr::proofs::Kept::later_refl))]
fn given_to(
    state: &mut State,
    declaration: Option<FactId>,
    index: u32,
    number: TreeId,
) -> Result<(), Stop>
    requires { number.0 < length (trees state.old) }
    ensures { IsAnswered itself AnyKnown state.old state.new result (Ok (tt, defaults.given_to (number_of_option declaration) index (tree state.old number) (meaning state.old))) }
{
    let Some(declaration) = declaration else {
        return Ok(());
    };
    match state.add_fallback(declaration, index, number) {
        Ok(()) => Ok(()),
        Err(_) => Err(Stop::OutOfMemory),
    }
}

// The same, and it is read no more.
#[tactic(auto, using(cxx_expr::proofs::Kept::later_trans, cxx_expr::proofs::Kept::tree_later, cxx_expr::proofs::Kept::tree_kept))]
fn kept(
    state: &mut State,
    declaration: Option<FactId>,
    index: u32,
    number: TreeId,
) -> Result<(), Stop>
    requires { number.0 < length (trees state.old) }
    ensures { IsAnswered itself AnyKnown state.old state.new result (Ok (defaults.kept_as (number_of_option declaration) index (tree state.old number, meaning state.old))) }
{
    state.set_in_default(false);
    given_to(state, declaration, index, number)
}

/// A default argument that was passed over was read, of the parameter with an index and a type: it is converted once, at its
/// `=`, and given by the declaration of its function, where that is told.
#[tactic(auto, using(cxx_expr::proofs::Kept::later_trans), unfolding(crate::specs::Defaults::end_later))]
pub fn end_later(
    alloc: Global,
    state: &mut State,
    equals: Place,
    declaration: Option<FactId>,
    index: u32,
    of: TypeId,
    number: TreeId,
) -> Result<(), Stop>
    requires of { of.0 < length (state.old).types }
    requires number { number.0 < length (trees state.old) }
    ensures { IsAnswered itself AnyKnown state.old state.new result (defaults.end_later equals (number_of_option declaration) index (type_of state.old of) (tree state.old number) (meaning state.old)) }
{
    let converted = convert(alloc, &Answering, state, equals, of, number)?;
    kept(state, declaration, index, converted)
}
