//! What is known where an expression stands.
ghost use Rattle.std.specs.Prelude.{◌≡◌, ◌<◌, length, Some};
ghost use Rattle.std.specs.List.{slice_get};
ghost use Rattle.cxx_tree.specs.Arena.{AreTreesBelow, IsNodeBelow, label_at, tree_over};
ghost use Rattle.cxx_constant.specs.Constants as definition;
ghost use Rattle.cxx_constant.specs.Known.{trees_in, tree_at, IsKnown};

use crate::production;
use cxx_graph::Graph;
use cxx_model::{Node, TreeId};
use cxx_sizes::Layouts;
use cxx_tree::Trees;
use cxx_types::TypeTable;

/// What is declared, the layouts of its classes, and the types and nodes that were made.
#[derive(Clone, Copy)]
pub(crate) struct Known<'a> {
    pub layouts: &'a Layouts,
    pub graph: &'a Graph,
    pub types: &'a TypeTable,
    pub trees: &'a Trees,
}

/// The node of a tree.
pub(crate) fn node<'a>(known: &Known<'a>, number: TreeId) -> &'a Node
    requires known { IsKnown known.now }
    requires there { number.0 < length known.now.trees.now }
    ensures below { IsNodeBelow (length known.now.types.now) result.now }
    ensures children { AreTreesBelow number.0 (result.now).children }
    ensures tree { tree_at known.now number ≡ tree_over known.now.types.now (trees_in known.now) result.now }
{
    known.trees.node(number)
}

// What stands last, alone.
#[tactic(auto, using(crate::proofs::Wholes::last_drop))]
fn last_alone(parts: &[TreeId]) -> &[TreeId]
    ensures { result.now ≡ definition.last_alone parts.now }
{
    match parts.len().checked_sub(1) {
        None => parts,
        Some(before) => &parts[before..],
    }
}

/// The operands of an expression, of all that it is written with. Before that of a cast stand the trees of the type (8.1).
pub(crate) fn operands_of<'a>(known: &Known<'_>, number: TreeId, node: &'a Node) -> &'a [TreeId]
    requires { AreTreesBelow number.0 (node.now).children }
    ensures is { result.now ≡ definition.operands_in (label_at known.now.types.now node.now) (node.now).children }
    ensures below { AreTreesBelow number.0 result.now }
{
    let _ = known;
    let _ = number;
    let parts = node.children.as_slice();
    if node.production == production::CAST {
        last_alone(parts)
    } else {
        parts
    }
}
