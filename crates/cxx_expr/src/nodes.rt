//! The node that is elaborated, and its parts.

ghost use Rattle.std.specs.Prelude.{◌≡◌, ◌<◌, length};
ghost use Rattle.cxx_model.specs.Facts.Fitted.{IsTypeNumberBelow};
ghost use Rattle.cxx_reading.specs.Trees.{children_of};
ghost use Rattle.cxx_standard.specs.Views.{operand_at};
ghost use Rattle.cxx_expr.specs.Making.{AreTreesHeld, GrowsTree, trees_held};
ghost use Rattle.cxx_expr.specs.Nodes.{AreThreeKnown, AreTwoKnown, IsNodeHeld, IsOneKnown, node_tree, one_tree, three_trees, two_trees};
ghost use Rattle.cxx_expr.specs.Operands as definition;

use crate::converting::push;
use cxx_model::{Node, Operand, Stop, TreeId, TreeIdList};
use cxx_tree::State;

/// A node with what it gives, over its parts as they are converted.
pub fn given_over(
    state: &mut State,
    node: Node,
    operand: Operand,
    children: TreeIdList,
) -> Result<TreeId, Stop>
    requires of { IsTypeNumberBelow (length (state.old).types) node.of }
    requires operand { operand.of.0 < length (state.old).types }
    requires children { AreTreesHeld state.old children }
    ensures { GrowsTree state.old state.new result (definition.given_over (node_tree state.old node) (operand_at (state.old).types operand) (trees_held state.old children)) }
{
    let mut node = node;
    node.operand = Some(operand);
    node.children = children;
    push(state, node)
}

/// The one of some trees that is alone.
pub fn only(state: &State, numbers: &[TreeId]) -> Option<TreeId>
    requires { AreTreesHeld state.now numbers.now }
    ensures is { one_tree state.now result ≡ definition.only (trees_held state.now numbers.now) }
    ensures known { IsOneKnown state.now result }
{
    let _ = state;
    match numbers {
        [one] => Some(*one),
        _ => None,
    }
}

/// The one part of a node.
#[tactic(auto, using(crate::proofs::NodeKept::children_are))]
pub fn only_child(state: &State, node: &Node) -> Option<TreeId>
    requires { IsNodeHeld state.now node.now }
    ensures is { one_tree state.now result ≡ definition.only (children_of (node_tree state.now node.now)) }
    ensures known { IsOneKnown state.now result }
{
    only(state, node.children.as_slice())
}

fn both(state: &State, numbers: &[TreeId]) -> Option<(TreeId, TreeId)>
    requires { AreTreesHeld state.now numbers.now }
    ensures is { two_trees state.now result ≡ definition.both (trees_held state.now numbers.now) }
    ensures known { AreTwoKnown state.now result }
{
    let _ = state;
    match numbers {
        [one, two] => Some((*one, *two)),
        _ => None,
    }
}

/// The two parts of a node.
#[tactic(auto, using(crate::proofs::NodeKept::children_are))]
pub fn both_children(state: &State, node: &Node) -> Option<(TreeId, TreeId)>
    requires { IsNodeHeld state.now node.now }
    ensures is { two_trees state.now result ≡ definition.both (children_of (node_tree state.now node.now)) }
    ensures known { AreTwoKnown state.now result }
{
    both(state, node.children.as_slice())
}

fn all_three(state: &State, numbers: &[TreeId]) -> Option<(TreeId, TreeId, TreeId)>
    requires { AreTreesHeld state.now numbers.now }
    ensures is { three_trees state.now result ≡ definition.all_three (trees_held state.now numbers.now) }
    ensures known { AreThreeKnown state.now result }
{
    let _ = state;
    match numbers {
        [one, two, three] => Some((*one, *two, *three)),
        _ => None,
    }
}

/// The three parts of a node.
#[tactic(auto, using(crate::proofs::NodeKept::children_are))]
pub fn three_children(state: &State, node: &Node) -> Option<(TreeId, TreeId, TreeId)>
    requires { IsNodeHeld state.now node.now }
    ensures is { three_trees state.now result ≡ definition.all_three (children_of (node_tree state.now node.now)) }
    ensures known { AreThreeKnown state.now result }
{
    all_three(state, node.children.as_slice())
}
