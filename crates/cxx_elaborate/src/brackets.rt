//! Brackets (5.1).

ghost use Rattle.std.specs.Prelude.{◌<◌, length};
ghost use Rattle.cxx_tree.specs.Answered.{IsAnswered};
ghost use Rattle.cxx_tree.specs.Held.{meaning, tree, trees};
ghost use Rattle.cxx_expr.specs.Elaborating as definition;
ghost use Rattle.cxx_expr.specs.Making.{GrowsTree, IsTreeKnown};
ghost use Rattle.cxx_expr.specs.Nodes.{IsNodeHeld, node_tree};

use cxx_expr::nodes::{given_over, only_child};
use cxx_expr::operands::operand_of;
use cxx_expr::operators::{listed_one, misshapen};
use cxx_model::{Node, Stop, TreeId};
use cxx_tree::State;
use std::alloc::Global;

// Brackets give what stands in them.
#[tactic(auto, using(cxx_expr::proofs::Kept::later_trans, cxx_expr::proofs::NodeKept::node_later, cxx_expr::proofs::NodeKept::node_kept, cxx_expr::proofs::Kept::tree_later, cxx_expr::proofs::Kept::tree_kept))]
fn over_one(alloc: Global, state: &mut State, node: Node, one: TreeId) -> Result<TreeId, Stop>
    requires node { IsNodeHeld state.old node }
    requires one { one.0 < length (trees state.old) }
    ensures { GrowsTree state.old state.new result (definition.over_one (node_tree state.old node) (tree state.old one)) }
{
    let operand = operand_of(state, one)?;
    let parts = listed_one(alloc, one)?;
    given_over(state, node, operand, parts)
}

/// An expression in brackets.
#[tactic(auto, using(cxx_expr::proofs::Kept::later_refl), unfolding(cxx_expr::specs::Elaborating::parenthesis))]
pub fn parenthesis(alloc: Global, state: &mut State, node: Node) -> Result<TreeId, Stop>
    requires { IsNodeHeld state.old node }
    ensures { IsAnswered tree IsTreeKnown state.old state.new result (definition.parenthesis (node_tree state.old node) (meaning state.old)) }
{
    match only_child(state, &node) {
        None => Err(Stop::Fault(misshapen(alloc, node.start)?)),
        Some(one) => over_one(alloc, state, node, one),
    }
}
