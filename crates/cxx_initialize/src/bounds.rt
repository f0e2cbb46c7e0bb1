//! The bounds of arrays (8.3.4).

ghost use Rattle.std.specs.Prelude.{◌≡◌, ◌<◌, length};
ghost use Rattle.cxx_model.specs.Types.Numbers.{bound_at, type_at};
ghost use Rattle.cxx_model.specs.Types.Trees.{array_of, number_bound};
ghost use Rattle.cxx_tree.specs.Arena.{bound_of};
ghost use Rattle.cxx_tree.specs.Answered.{IsAnswered};
ghost use Rattle.cxx_tree.specs.Held.{meaning, tree, trees, type_of};
ghost use Rattle.cxx_expr.specs.Initializing as definition;
ghost use Rattle.cxx_expr.specs.Making.{GrowsType, IsTreeKnown};
ghost use Rattle.cxx_initialize.specs.Bounds.{IsArrayOf, bound_in, is_unknown_bound, room_in};

use crate::strings::text_count;
use cxx_expr::faults::fault;
use cxx_model::{Bound, FaultText, Place, Stop, TreeId, TypeId, TypeNode};
use cxx_tree::State;
use cxx_types::TypeTable;
use std::alloc::Global;

fn room_by(types: &TypeTable, bound: &Bound) -> Option<u64>
    ensures { result ≡ room_in (bound_at types.now bound.now) }
{
    let _ = types;
    match bound {
        Bound::Number(count) => Some(*count),
        _ => None,
    }
}

/// How many elements an array has room for, where a number says it.
pub fn room_of(types: &TypeTable, of: TypeId) -> Option<u64>
    requires { of.0 < length types.now }
    ensures { result ≡ room_in (bound_in (type_at types.now of.0)) }
{
    match types.node(of) {
        TypeNode::Array(_, bound) => room_by(types, bound),
        _ => None,
    }
}

/// How many elements there may be more.
pub fn one_less(room: Option<u64>) -> Option<u64>
    ensures { bound_of result ≡ definition.one_less (bound_of room) }
{
    match room {
        None => None,
        Some(0) => Some(0),
        Some(count) => Some(count - 1),
    }
}

fn has_room(room: Option<u64>, count: u64) -> bool
    ensures { result ≡ definition.has_room (bound_of room) count }
{
    match room {
        None => true,
        Some(most) => !(most < count),
    }
}

/// Whether an array has room for a string.
#[tactic(auto, using(crate::proofs::Rooms::has_room_in))]
pub fn fits(state: &State, of: TypeId, number: TreeId) -> bool
    requires of { of.0 < length (state.now).types }
    requires number { number.0 < length (trees state.now) }
    ensures { result ≡ definition.has_room (bound_in (type_of state.now of)) (definition.text_count (tree state.now number)) }
{
    has_room(room_of(state.types(), of), text_count(state, number))
}

/// A string where there is room for it.
#[tactic(auto, using(cxx_expr::proofs::Kept::later_refl))]
pub fn text_part(
    alloc: Global,
    state: &mut State,
    place: Place,
    of: TypeId,
    number: TreeId,
) -> Result<TreeId, Stop>
    requires of { of.0 < length (state.old).types }
    requires number { number.0 < length (trees state.old) }
    ensures { IsAnswered tree IsTreeKnown state.old state.new result (definition.text_part place (bound_in (type_of state.old of)) (tree state.old number) (meaning state.old)) }
{
    if fits(state, of, number) {
        return Ok(number);
    }
    Err(Stop::Fault(fault(alloc, place, FaultText::OperandsDoNotFit)?))
}

fn is_unknown(types: &TypeTable, bound: &Bound) -> bool
    ensures { result ≡ is_unknown_bound (bound_at types.now bound.now) }
{
    let _ = types;
    match bound {
        Bound::Unknown => true,
        _ => false,
    }
}

// Whether an array has no bound.
fn is_open(types: &TypeTable, of: TypeId) -> bool
    requires { of.0 < length types.now }
    ensures { result ≡ is_unknown_bound (bound_in (type_at types.now of.0)) }
{
    match types.node(of) {
        TypeNode::Array(_, bound) => is_unknown(types, bound),
        _ => true,
    }
}

fn array_type(state: &mut State, of: TypeId, count: u64) -> Result<TypeId, Stop>
    requires { of.0 < length (state.old).types }
    ensures { GrowsType state.old state.new result (array_of (type_of state.old of) (number_bound count)) }
{
    match state.array_of(of, Some(count)) {
        Ok(of) => Ok(of),
        Err(_) => Err(Stop::OutOfMemory),
    }
}

/// The type of an array, with its bound.
#[tactic(auto, using(cxx_expr::proofs::Kept::later_refl, crate::proofs::Rooms::bound_known, crate::proofs::Rooms::bound_open))]
pub fn array_with(
    state: &mut State,
    of: TypeId,
    element: TypeId,
    count: u64,
) -> Result<TypeId, Stop>
    requires of { of.0 < length (state.old).types }
    requires element { element.0 < length (state.old).types }
    requires is { IsArrayOf state.old of element }
    ensures { GrowsType state.old state.new result (definition.array_with (type_of state.old element) (bound_in (type_of state.old of)) count) }
{
    if is_open(state.types(), of) {
        return array_type(state, element, count);
    }
    Ok(of)
}
