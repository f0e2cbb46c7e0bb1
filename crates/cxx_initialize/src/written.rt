//! What is written in an initializer, and what it becomes.

ghost use Rattle.std.specs.Prelude.{◌≡◌, ◌<◌, [], ◌∷◌, length, codes, IfOk};
ghost use Rattle.cxx_reading.specs.Trees.{children_of};
ghost use Rattle.cxx_tree.specs.Held.{tree, trees, type_of};
ghost use Rattle.cxx_expr.specs.Initializing as definition;
ghost use Rattle.cxx_expr.specs.Making.{AreTreesHeld, GrowsTree, trees_held};
ghost use Rattle.cxx_expr.specs.Nodes.{IsNodeHeld, IsOneKnown, node_tree, one_tree};
ghost use Rattle.cxx_expr.specs.Operands.{only};
ghost use Rattle.cxx_initialize.specs.Behind as behind;

use cxx_expr::converting::push;
use cxx_expr::node_over;
use cxx_expr::nodes::only_child;
use cxx_expr::operators::listed_one;
use cxx_expr::production::INITIALIZER;
use cxx_model::{Node, Place, Stop, Text, TreeId, TreeIdList, TypeId};
use cxx_tree::State;
use std::alloc::{AllocError, Global};

fn are_braces(production: u8, spelling: &[u8]) -> bool
    ensures { result ≡ behind.are_braces production spelling.now }
{
    production == INITIALIZER && spelling == b"{".as_slice()
}

/// Whether a node is one of braces.
pub fn is_braces(state: &State, node: &Node) -> bool
    ensures { result ≡ definition.is_braces (node_tree state.now node.now) }
{
    let _ = state;
    are_braces(node.production, node.spelling.as_slice())
}

/// Whether a tree is one of braces.
pub fn is_braces_at(state: &State, number: TreeId) -> bool
    requires { number.0 < length (trees state.now) }
    ensures { result ≡ definition.is_braces (tree state.now number) }
{
    let node = state.node(number);
    are_braces(node.production, node.spelling.as_slice())
}

/// Where a tree begins.
pub fn start_of(state: &State, number: TreeId) -> Place
    requires { number.0 < length (trees state.now) }
    ensures { result ≡ (tree state.now number).label.start }
{
    state.node(number).start
}

/// The one part of a tree.
#[tactic(auto, using(cxx_expr::proofs::NodeKept::node_held))]
pub fn only_part(state: &State, number: TreeId) -> Option<TreeId>
    requires { number.0 < length (trees state.now) }
    ensures is { one_tree state.now result ≡ only (children_of (tree state.now number)) }
    ensures known { IsOneKnown state.now result }
{
    only_child(state, state.node(number))
}

/// The parts of a tree.
#[tactic(auto, using(cxx_expr::proofs::NodeKept::children_are, cxx_expr::proofs::NodeKept::parts_held))]
pub fn parts_of(alloc: Global, state: &State, number: TreeId) -> Result<TreeIdList, AllocError>
    requires { number.0 < length (trees state.now) }
    ensures is { IfOk result (λ numbers. trees_held state.now numbers ≡ children_of (tree state.now number)) }
    ensures below { IfOk result (λ numbers. AreTreesHeld state.now numbers) }
{
    TreeIdList::from_slice(alloc, state.node(number).children.as_slice())
}

fn equals(alloc: Global) -> Result<Text, AllocError>
    ensures { IfOk result (λ text. text ≡ codes "=") }
{
    Text::from_slice(alloc, b"=")
}

/// The node as that of `T x = a`.
pub fn as_copy(
    alloc: Global,
    state: &mut State,
    node: Node,
    of: TypeId,
    value: TreeId,
) -> Result<TreeId, Stop>
    requires node { IsNodeHeld state.old node }
    requires of { of.0 < length (state.old).types }
    requires value { value.0 < length (trees state.old) }
    ensures { GrowsTree state.old state.new result (definition.as_copy (node_tree state.old node) (type_of state.old of) (tree state.old value ∷ [])) }
{
    let mut node = node;
    node.spelling = equals(alloc)?;
    node.of = Some(of);
    node.children = listed_one(alloc, value)?;
    push(state, node)
}

/// The node with the type of the object, over its parts as they are converted.
pub fn initialized(
    state: &mut State,
    node: Node,
    of: TypeId,
    parts: TreeIdList,
) -> Result<TreeId, Stop>
    requires node { IsNodeHeld state.old node }
    requires of { of.0 < length (state.old).types }
    requires parts { AreTreesHeld state.old parts }
    ensures { GrowsTree state.old state.new result (definition.initialized (node_tree state.old node) (type_of state.old of) (trees_held state.old parts)) }
{
    let mut node = node;
    node.of = Some(of);
    node.children = parts;
    push(state, node)
}

/// The same of a tree.
pub fn initialized_part(
    alloc: Global,
    state: &mut State,
    number: TreeId,
    of: TypeId,
    parts: TreeIdList,
) -> Result<TreeId, Stop>
    requires number { number.0 < length (trees state.old) }
    requires of { of.0 < length (state.old).types }
    requires parts { AreTreesHeld state.old parts }
    ensures { GrowsTree state.old state.new result (definition.initialized (tree state.old number) (type_of state.old of) (trees_held state.old parts)) }
{
    let node = node_over(alloc, state.node(number), of, parts)?;
    push(state, node)
}
