//! The initializers of whole objects (8.5).

ghost use Rattle.std.specs.Prelude.{◌≡◌, ◌<◌, [], ◌∷◌, length};
ghost use Rattle.cxx_model.specs.Facts.Fitted.{Fitted};
ghost use Rattle.cxx_model.specs.Types.Numbers.{type_at};
ghost use Rattle.cxx_tree.specs.Answered.{IsAnswered};
ghost use Rattle.cxx_tree.specs.Held.{meaning, tree, trees, type_of};
ghost use Rattle.cxx_expr.specs.Initializing as definition;
ghost use Rattle.cxx_expr.specs.Making.{AreTreesHeld, GrowsTree, IsTreeKnown, trees_held};
ghost use Rattle.cxx_expr.specs.Nodes.{IsNodeHeld, IsOneKnown, node_tree, one_tree};
ghost use Rattle.cxx_initialize.specs.Bounds.{IsArrayOf, bound_in};

use crate::bounds::{array_with, fits, room_of};
use crate::elements::elements;
use crate::strings::{text_by, text_count};
use crate::values::one_of;
use crate::written::{as_copy, initialized, is_braces};
use cxx_expr::Questions;
use cxx_expr::conditional::is_class;
use cxx_expr::faults::{fault, not_built_at};
use cxx_expr::nodes::only_child;
use cxx_graph::Graph;
use cxx_model::{FaultText, Listed, Node, Stop, TreeId, TreeIdList, TypeId, TypeNode};
use cxx_standard::{cv_of, kind_of};
use cxx_tree::State;
use cxx_types::TypeTable;
use std::alloc::Global;

// ---- arrays (8.5.1, 8.5.2)

// The string alone, with the bound that it gives.
#[tactic(auto, using(cxx_expr::proofs::Kept::later_trans, cxx_expr::proofs::Kept::tree_later, cxx_expr::proofs::Kept::tree_kept, cxx_expr::proofs::NodeKept::node_later, cxx_expr::proofs::NodeKept::node_kept))]
fn text_over(
    alloc: Global,
    state: &mut State,
    of: TypeId,
    element: TypeId,
    node: Node,
    text: TreeId,
) -> Result<TreeId, Stop>
    requires of { of.0 < length (state.old).types }
    requires element { element.0 < length (state.old).types }
    requires is { IsArrayOf state.old of element }
    requires node { IsNodeHeld state.old node }
    requires text { text.0 < length (trees state.old) }
    ensures { GrowsTree state.old state.new result (definition.as_copy (node_tree state.old node) (definition.array_with (type_of state.old element) (bound_in (type_of state.old of)) (definition.text_count (tree state.old text))) (tree state.old text ∷ [])) }
{
    let count = text_count(state, text);
    let whole = array_with(state, of, element, count)?;
    as_copy(alloc, state, node, whole, text)
}

#[tactic(auto, using(cxx_expr::proofs::Kept::later_refl))]
fn text_whole(
    alloc: Global,
    state: &mut State,
    of: TypeId,
    element: TypeId,
    node: Node,
    text: TreeId,
) -> Result<TreeId, Stop>
    requires of { of.0 < length (state.old).types }
    requires element { element.0 < length (state.old).types }
    requires is { IsArrayOf state.old of element }
    requires node { IsNodeHeld state.old node }
    requires text { text.0 < length (trees state.old) }
    ensures { IsAnswered tree IsTreeKnown state.old state.new result (definition.text_whole (node_tree state.old node).label.place (type_of state.old element) (bound_in (type_of state.old of)) (node_tree state.old node) (tree state.old text) (meaning state.old)) }
{
    if fits(state, of, text) {
        return text_over(alloc, state, of, element, node, text);
    }
    Err(Stop::Fault(fault(alloc, node.place, FaultText::OperandsDoNotFit)?))
}

// An array over its elements.
#[tactic(auto, using(cxx_expr::proofs::Kept::later_trans, cxx_expr::proofs::Kept::trees_later, cxx_expr::proofs::Kept::trees_kept, cxx_expr::proofs::NodeKept::node_later, cxx_expr::proofs::NodeKept::node_kept, crate::proofs::Parts::trees_count))]
fn list_over(
    state: &mut State,
    of: TypeId,
    element: TypeId,
    node: Node,
    parts: TreeIdList,
) -> Result<TreeId, Stop>
    requires of { of.0 < length (state.old).types }
    requires element { element.0 < length (state.old).types }
    requires is { IsArrayOf state.old of element }
    requires node { IsNodeHeld state.old node }
    requires parts { AreTreesHeld state.old parts }
    ensures { GrowsTree state.old state.new result (definition.initialized (node_tree state.old node) (definition.array_with (type_of state.old element) (bound_in (type_of state.old of)) (length (trees_held state.old parts))) (trees_held state.old parts)) }
{
    let whole = array_with(state, of, element, parts.len() as u64)?;
    initialized(state, node, whole, parts)
}

#[tactic(auto, using(cxx_expr::proofs::NodeKept::children_are, cxx_expr::proofs::NodeKept::node_later, cxx_expr::proofs::NodeKept::node_kept, cxx_expr::proofs::Kept::later_trans, cxx_expr::proofs::Kept::type_later, cxx_expr::proofs::Kept::type_kept, crate::proofs::Rooms::array_kept, crate::proofs::Rooms::elements_room))]
fn list_whole<Q: Questions>(
    alloc: Global,
    questions: &Q,
    state: &mut State,
    of: TypeId,
    element: TypeId,
    node: Node,
) -> Result<TreeId, Stop>
    requires ready { Q.is_ready questions.now }
    requires of { of.0 < length (state.old).types }
    requires element { element.0 < length (state.old).types }
    requires is { IsArrayOf state.old of element }
    requires node { IsNodeHeld state.old node }
    ensures { IsAnswered tree IsTreeKnown state.old state.new result (definition.list_part (node_tree state.old node).label.place (definition.part (Q.asks questions.now) (type_of state.old element)) (type_of state.old element) (bound_in (type_of state.old of)) (node_tree state.old node) (meaning state.old)) }
{
    let room = room_of(state.types(), of);
    let parts = elements(
        alloc,
        questions,
        state,
        node.place,
        element,
        room,
        node.children.as_slice(),
    )?;
    list_over(state, of, element, node, parts)
}

// An array behind braces.
fn array_braces<Q: Questions>(
    alloc: Global,
    questions: &Q,
    state: &mut State,
    of: TypeId,
    element: TypeId,
    node: Node,
    text: Option<TreeId>,
) -> Result<TreeId, Stop>
    requires ready { Q.is_ready questions.now }
    requires of { of.0 < length (state.old).types }
    requires element { element.0 < length (state.old).types }
    requires is { IsArrayOf state.old of element }
    requires node { IsNodeHeld state.old node }
    requires text { IsOneKnown state.old text }
    ensures { IsAnswered tree IsTreeKnown state.old state.new result (definition.array_braces (Q.asks questions.now) (node_tree state.old node).label.place (type_of state.old element) (bound_in (type_of state.old of)) (node_tree state.old node) (one_tree state.old text) (meaning state.old)) }
{
    match text {
        Some(text) => text_whole(alloc, state, of, element, node, text),
        None => list_whole(alloc, questions, state, of, element, node),
    }
}

// An array from an expression, which has to be a string.
#[tactic(auto, using(cxx_expr::proofs::Kept::later_refl))]
fn array_from<Q: Questions>(
    alloc: Global,
    questions: &Q,
    state: &mut State,
    of: TypeId,
    element: TypeId,
    node: Node,
    text: Option<TreeId>,
) -> Result<TreeId, Stop>
    requires of { of.0 < length (state.old).types }
    requires element { element.0 < length (state.old).types }
    requires is { IsArrayOf state.old of element }
    requires node { IsNodeHeld state.old node }
    requires text { IsOneKnown state.old text }
    ensures { IsAnswered tree IsTreeKnown state.old state.new result (definition.array_from (Q.asks questions.now) (node_tree state.old node).label.place (type_of state.old element) (bound_in (type_of state.old of)) (node_tree state.old node) (one_tree state.old text) (meaning state.old)) }
{
    let _ = questions;
    match text {
        Some(text) => text_whole(alloc, state, of, element, node, text),
        None => Err(Stop::Fault(fault(alloc, node.place, FaultText::NoConversion)?)),
    }
}

#[tactic(auto, using(crate::proofs::Parts::text_in_only), unfolding(cxx_expr::specs::Initializing::array_whole))]
fn array_whole<Q: Questions>(
    alloc: Global,
    questions: &Q,
    state: &mut State,
    of: TypeId,
    element: TypeId,
    node: Node,
) -> Result<TreeId, Stop>
    requires ready { Q.is_ready questions.now }
    requires of { of.0 < length (state.old).types }
    requires element { element.0 < length (state.old).types }
    requires is { IsArrayOf state.old of element }
    requires node { IsNodeHeld state.old node }
    ensures { IsAnswered tree IsTreeKnown state.old state.new result (definition.array_whole (Q.asks questions.now) (node_tree state.old node).label.place (type_of state.old element) (bound_in (type_of state.old of)) (node_tree state.old node) (meaning state.old)) }
{
    let one = only_child(state, &node);
    let text = text_by(state, element, one);
    if is_braces(state, &node) {
        return array_braces(alloc, questions, state, of, element, node, text);
    }
    array_from(alloc, questions, state, of, element, node, text)
}

// ---- values and references (8.5, 8.5.3)

#[tactic(auto, using(cxx_expr::proofs::Kept::later_trans, cxx_expr::proofs::NodeKept::node_later, cxx_expr::proofs::NodeKept::node_kept, cxx_expr::proofs::Kept::type_later, cxx_expr::proofs::Kept::type_kept, crate::proofs::Parts::one_of_only), unfolding(cxx_expr::specs::Initializing::value_whole))]
fn value_whole<Q: Questions>(
    alloc: Global,
    questions: &Q,
    state: &mut State,
    of: TypeId,
    node: Node,
) -> Result<TreeId, Stop>
    requires ready { Q.is_ready questions.now }
    requires of { of.0 < length (state.old).types }
    requires node { IsNodeHeld state.old node }
    ensures { IsAnswered tree IsTreeKnown state.old state.new result (definition.value_whole (Q.asks questions.now) (node_tree state.old node).label.place (type_of state.old of) (node_tree state.old node) (meaning state.old)) }
{
    let one = only_child(state, &node);
    let value = one_of(alloc, questions, state, node.place, of, one)?;
    as_copy(alloc, state, node, of, value)
}

// ---- what is written

fn whole_by<Q: Questions>(
    alloc: Global,
    questions: &Q,
    state: &mut State,
    of: TypeId,
    node: Node,
) -> Result<TreeId, Stop>
    requires ready { Q.is_ready questions.now }
    requires of { of.0 < length (state.old).types }
    requires node { IsNodeHeld state.old node }
    ensures { IsAnswered tree IsTreeKnown state.old state.new result (definition.whole_by (Q.asks questions.now) (node_tree state.old node).label.place (type_of state.old of) (node_tree state.old node) (meaning state.old)) }
{
    match state.types().node(of) {
        TypeNode::Array(element, _) => {
            let element = *element;
            array_whole(alloc, questions, state, of, element, node)
        }
        _ => value_whole(alloc, questions, state, of, node),
    }
}

// ---- nothing

fn wants_value(types: &TypeTable, of: TypeId) -> bool
    requires { of.0 < length types.now }
    ensures { result ≡ definition.wants_value (type_at types.now of.0) }
{
    match types.node(of) {
        TypeNode::Reference(_) => true,
        _ => cv_of(types, of).is_const,
    }
}

#[tactic(auto, using(cxx_expr::proofs::Kept::later_refl))]
fn nothing_by(alloc: Global, state: &mut State, of: TypeId, node: Node) -> Result<TreeId, Stop>
    requires of { of.0 < length (state.old).types }
    requires node { IsNodeHeld state.old node }
    ensures { IsAnswered tree IsTreeKnown state.old state.new result (definition.nothing_by (node_tree state.old node).label.place (type_of state.old of) (node_tree state.old node) (meaning state.old)) }
{
    if wants_value(state.types(), of) {
        return Err(Stop::Fault(fault(alloc, node.place, FaultText::NoConversion)?));
    }
    initialized(state, node, of, Listed::new(alloc))
}

fn is_nothing(text: &[u8]) -> bool
    ensures { result ≡ definition.is_nothing text.now }
{
    match text {
        [] => true,
        [_, ..] => false,
    }
}

// The class of an object, or of the elements of an array.
fn is_made_of_class(graph: &Graph, types: &TypeTable, of: TypeId) -> bool
    requires known { of.0 < length types.now }
    requires fitted { Fitted graph.now types.now }
    ensures { result ≡ definition.is_made_of_class (type_at types.now of.0) }
{
    match types.node(of) {
        TypeNode::Array(element, _) => is_made_of_class(graph, types, *element),
        _ => is_class(kind_of(graph, types, of)),
    }
}

/// The initializer of an object of a type, as it was read, with its parts as they are converted and the type with its
/// bound (8.5). What is of a class is not read yet; a fault of the whole stands at its place, one of a part where that
/// begins.
#[tactic(auto, using(cxx_expr::proofs::Kept::later_refl), unfolding(cxx_expr::specs::Initializing::initialize))]
pub fn initialize<Q: Questions>(
    alloc: Global,
    questions: &Q,
    state: &mut State,
    of: TypeId,
    node: Node,
) -> Result<TreeId, Stop>
    requires ready { Q.is_ready questions.now }
    requires of { of.0 < length (state.old).types }
    requires node { IsNodeHeld state.old node }
    ensures { IsAnswered tree IsTreeKnown state.old state.new result (definition.initialize (Q.asks questions.now) (type_of state.old of) (node_tree state.old node) (meaning state.old)) }
{
    if is_made_of_class(state.graph(), state.types(), of) {
        return Err(Stop::Fault(not_built_at(alloc, node.place)?));
    }
    if is_nothing(node.spelling.as_slice()) {
        return nothing_by(alloc, state, of, node);
    }
    whole_by(alloc, questions, state, of, node)
}
