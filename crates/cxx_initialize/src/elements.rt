//! Arrays from what stands in braces (8.5.1).

ghost use Rattle.std.specs.Prelude.{◌≡◌, ◌<◌, length};
ghost use Rattle.cxx_tree.specs.Answered.{IsAnswered};
ghost use Rattle.cxx_tree.specs.Arena.{bound_of};
ghost use Rattle.cxx_tree.specs.Held.{meaning, tree, trees, type_of};
ghost use Rattle.cxx_expr.specs.Initializing as definition;
ghost use Rattle.cxx_expr.specs.Making.{AreTreesHeld, Gathers, GrowsTree, IsTreeKnown, trees_held};
ghost use Rattle.cxx_expr.specs.Nodes.{IsOneKnown, one_tree};
ghost use Rattle.cxx_initialize.specs.Behind as behind;
ghost use Rattle.cxx_initialize.specs.Bounds.{IsArrayOf, bound_in};

use crate::bounds::{array_with, one_less, room_of, text_part};
use crate::strings::{is_text_for, text_by};
use crate::values::value_part;
use crate::written::{initialized_part, is_braces_at, only_part, parts_of, start_of};
use cxx_expr::Questions;
use cxx_expr::faults::fault;
use cxx_model::{FaultText, LeftOut, Listed, Place, Stop, TreeId, TreeIdList, TypeId, TypeNode};
use cxx_tree::State;
use std::alloc::Global;

// An element, where there is room for one.
#[cycle(parts)]
#[tactic(auto, using(cxx_expr::proofs::Kept::later_refl))]
fn element_in<Q: Questions>(
    alloc: Global,
    questions: &Q,
    state: &mut State,
    place: Place,
    element: TypeId,
    room: Option<u64>,
    number: TreeId,
) -> Result<TreeId, Stop>
    requires ready { Q.is_ready questions.now }
    requires element { element.0 < length (state.old).types }
    requires number { number.0 < length (trees state.old) }
    ensures { IsAnswered tree IsTreeKnown state.old state.new result (definition.element_in place (definition.part (Q.asks questions.now) (type_of state.old element)) (bound_of room) (tree state.old number) (meaning state.old)) }
{
    match room {
        Some(0) => Err(Stop::Fault(fault(alloc, place, FaultText::OperandsDoNotFit)?)),
        _ => part(alloc, questions, state, element, number),
    }
}

// An element behind those before it.
#[cycle(parts)]
#[tactic(auto, using(cxx_expr::proofs::Kept::trees_more, cxx_expr::proofs::Kept::trees_below_more, cxx_expr::proofs::Kept::trees_later, cxx_expr::proofs::Kept::trees_kept))]
fn element_more<Q: Questions>(
    alloc: Global,
    questions: &Q,
    state: &mut State,
    place: Place,
    element: TypeId,
    room: Option<u64>,
    done: &mut TreeIdList,
    number: TreeId,
) -> Result<(), Stop>
    requires ready { Q.is_ready questions.now }
    requires element { element.0 < length (state.old).types }
    requires done { AreTreesHeld state.old done.old }
    requires number { number.0 < length (trees state.old) }
    ensures { Gathers done.new state.old state.new result (behind.element_more place (definition.part (Q.asks questions.now) (type_of state.old element)) (bound_of room) (trees_held state.old done.old) (tree state.old number) (meaning state.old)) }
{
    let next = element_in(alloc, questions, state, place, element, room, number)?;
    Ok(done.push(next)?)
}

/// Each element in turn.
#[cycle(parts)]
#[tactic(auto, using(cxx_expr::proofs::Kept::later_refl, cxx_expr::proofs::Kept::later_trans, cxx_expr::proofs::Kept::there_at, crate::proofs::Each::each_ends, crate::proofs::Each::behind_none))]
pub fn elements<Q: Questions>(
    alloc: Global,
    questions: &Q,
    state: &mut State,
    place: Place,
    element: TypeId,
    room: Option<u64>,
    numbers: &[TreeId],
) -> Result<TreeIdList, Stop>
    requires ready { Q.is_ready questions.now }
    requires element { element.0 < length (state.old).types }
    requires numbers { AreTreesHeld state.old numbers.now }
    ensures { IsAnswered trees_held AreTreesHeld state.old state.new result (definition.elements place (definition.part (Q.asks questions.now) (type_of state.old element)) (bound_of room) (trees_held state.old numbers.now) (meaning state.old)) }
{
    let mut done = Listed::new(alloc);
    let mut room = room;
    for number in numbers {
        element_more(
            alloc, questions, state, place, element, room, &mut done, *number,
        )?;
        room = one_less(room);
    }
    Ok(done)
}

// An array over its elements.
#[tactic(auto, using(cxx_expr::proofs::Kept::later_trans, cxx_expr::proofs::Kept::trees_later, cxx_expr::proofs::Kept::trees_kept, cxx_expr::proofs::Kept::tree_later, cxx_expr::proofs::Kept::tree_kept, crate::proofs::Parts::trees_count))]
fn list_over(
    alloc: Global,
    state: &mut State,
    of: TypeId,
    element: TypeId,
    number: TreeId,
    parts: TreeIdList,
) -> Result<TreeId, Stop>
    requires of { of.0 < length (state.old).types }
    requires element { element.0 < length (state.old).types }
    requires is { IsArrayOf state.old of element }
    requires number { number.0 < length (trees state.old) }
    requires parts { AreTreesHeld state.old parts }
    ensures { GrowsTree state.old state.new result (definition.initialized (tree state.old number) (definition.array_with (type_of state.old element) (bound_in (type_of state.old of)) (length (trees_held state.old parts))) (trees_held state.old parts)) }
{
    let whole = array_with(state, of, element, parts.len() as u64)?;
    initialized_part(alloc, state, number, whole, parts)
}

// An array from what stands in braces.
#[cycle(parts)]
#[tactic(auto, using(cxx_expr::proofs::Kept::later_trans, cxx_expr::proofs::Kept::trees_later, cxx_expr::proofs::Kept::trees_kept, cxx_expr::proofs::Kept::tree_later, cxx_expr::proofs::Kept::tree_kept, cxx_expr::proofs::Kept::type_later, cxx_expr::proofs::Kept::type_kept, crate::proofs::Rooms::array_kept, crate::proofs::Rooms::elements_room))]
fn list_part<Q: Questions>(
    alloc: Global,
    questions: &Q,
    state: &mut State,
    place: Place,
    of: TypeId,
    element: TypeId,
    number: TreeId,
) -> Result<TreeId, Stop>
    requires ready { Q.is_ready questions.now }
    requires of { of.0 < length (state.old).types }
    requires element { element.0 < length (state.old).types }
    requires is { IsArrayOf state.old of element }
    requires number { number.0 < length (trees state.old) }
    ensures { IsAnswered tree IsTreeKnown state.old state.new result (definition.list_part place (definition.part (Q.asks questions.now) (type_of state.old element)) (type_of state.old element) (bound_in (type_of state.old of)) (tree state.old number) (meaning state.old)) }
{
    let numbers = parts_of(alloc, state, number)?;
    let room = room_of(state.types(), of);
    let parts = elements(
        alloc,
        questions,
        state,
        place,
        element,
        room,
        numbers.as_slice(),
    )?;
    list_over(alloc, state, of, element, number, parts)
}

#[cycle(parts)]
#[tactic(auto)]
fn braces_part<Q: Questions>(
    alloc: Global,
    questions: &Q,
    state: &mut State,
    place: Place,
    of: TypeId,
    element: TypeId,
    number: TreeId,
    text: Option<TreeId>,
) -> Result<TreeId, Stop>
    requires ready { Q.is_ready questions.now }
    requires of { of.0 < length (state.old).types }
    requires element { element.0 < length (state.old).types }
    requires is { IsArrayOf state.old of element }
    requires number { number.0 < length (trees state.old) }
    requires text { IsOneKnown state.old text }
    ensures { IsAnswered tree IsTreeKnown state.old state.new result (definition.braces_part place (definition.part (Q.asks questions.now) (type_of state.old element)) (type_of state.old element) (bound_in (type_of state.old of)) (tree state.old number) (one_tree state.old text) (meaning state.old)) }
{
    match text {
        Some(text) => text_part(alloc, state, place, of, text),
        None => list_part(alloc, questions, state, place, of, element, number),
    }
}

// An array in another one.
#[cycle(parts)]
#[tactic(auto, using(cxx_expr::proofs::Kept::later_refl, crate::proofs::Parts::text_in_only))]
fn array_part<Q: Questions>(
    alloc: Global,
    questions: &Q,
    state: &mut State,
    of: TypeId,
    element: TypeId,
    number: TreeId,
) -> Result<TreeId, Stop>
    requires ready { Q.is_ready questions.now }
    requires of { of.0 < length (state.old).types }
    requires element { element.0 < length (state.old).types }
    requires is { IsArrayOf state.old of element }
    requires number { number.0 < length (trees state.old) }
    ensures { IsAnswered tree IsTreeKnown state.old state.new result (definition.array_part (definition.part (Q.asks questions.now) (type_of state.old element)) (type_of state.old element) (bound_in (type_of state.old of)) (tree state.old number) (meaning state.old)) }
{
    let start = start_of(state, number);
    if is_braces_at(state, number) {
        let one = only_part(state, number);
        let text = text_by(state, element, one);
        return braces_part(alloc, questions, state, start, of, element, number, text);
    }
    if is_text_for(state, element, number) {
        return text_part(alloc, state, start, of, number);
    }
    Err(Stop::Fault(fault(alloc, start, FaultText::LeftOut(LeftOut::BraceElision))?))
}

// What initializes an object in another one.
#[cycle(parts)]
#[tactic(auto, unfolding(cxx_expr::specs::Initializing::part))]
fn part<Q: Questions>(
    alloc: Global,
    questions: &Q,
    state: &mut State,
    of: TypeId,
    number: TreeId,
) -> Result<TreeId, Stop>
    requires ready { Q.is_ready questions.now }
    requires of { of.0 < length (state.old).types }
    requires number { number.0 < length (trees state.old) }
    ensures { IsAnswered tree IsTreeKnown state.old state.new result (definition.part (Q.asks questions.now) (type_of state.old of) (tree state.old number) (meaning state.old)) }
{
    match state.types().node(of) {
        TypeNode::Array(element, _) => {
            let element = *element;
            array_part(alloc, questions, state, of, element, number)
        }
        _ => value_part(alloc, questions, state, of, number),
    }
}
