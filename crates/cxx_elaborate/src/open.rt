//! Expressions that depend on parameters of templates (14.6.2).

ghost use Rattle.std.specs.Prelude.{◌≡◌, ◌<◌, [], if◌then◌else◌, length};
ghost use Rattle.cxx_tree.specs.Held.{tree, trees};
ghost use Rattle.cxx_expr.specs.Elaborating as definition;
ghost use Rattle.cxx_expr.specs.Making.{AreTreesHeld, GrowsTree, trees_held};
ghost use Rattle.cxx_expr.specs.Nodes.{IsNodeHeld, node_tree};
ghost use Rattle.cxx_expr.specs.Operands as operands;

use cxx_expr::converting::push;
use cxx_expr::production::{CAST, SIZE};
use cxx_model::{Node, Stop, TreeId};
use cxx_tree::State;

// Whether an expression gives nothing yet.
fn is_open(state: &State, number: TreeId) -> bool
    requires { number.0 < length (trees state.now) }
    ensures { result ≡ operands.is_none (tree state.now number).label.operand }
{
    match state.node(number).operand {
        None => true,
        Some(_) => false,
    }
}

fn any_open(state: &State, numbers: &[TreeId]) -> bool
    requires { AreTreesHeld state.now numbers.now }
    ensures { result ≡ operands.any_open (trees_held state.now numbers.now) }
{
    let mut left = numbers;
    while let [number, others @ ..] = left {
        if is_open(state, *number) {
            return true;
        }
        left = others;
    }
    false
}

// The same of the last part alone.
#[tactic(auto, using(crate::proofs::Last::last_open, crate::proofs::Last::none_open, cxx_expr::proofs::Kept::below_at))]
fn last_open(state: &State, numbers: &[TreeId]) -> bool
    requires { AreTreesHeld state.now numbers.now }
    ensures { result ≡ operands.any_open (definition.last_alone (trees_held state.now numbers.now)) }
{
    if numbers.is_empty() {
        return false;
    }
    is_open(state, numbers[numbers.len() - 1])
}

// The operand of `sizeof` is an expression, where no type is written.
fn operand_open(state: &State, node: &Node) -> bool
    requires { IsNodeHeld state.now node.now }
    ensures { result ≡ operands.any_open (if operands.is_none (node_tree state.now node.now).label.of then trees_held state.now node.now.children else []) }
{
    match node.of {
        None => any_open(state, node.children.as_slice()),
        Some(_) => false,
    }
}

/// Whether a part that is an expression depends on parameters of templates.
#[tactic(auto, using(cxx_expr::proofs::NodeKept::children_are))]
pub fn is_any_open(state: &State, node: &Node) -> bool
    requires { IsNodeHeld state.now node.now }
    ensures { result ≡ operands.any_open (definition.expressions_in (node_tree state.now node.now)) }
{
    if node.production == CAST {
        return last_open(state, node.children.as_slice());
    }
    if node.production == SIZE {
        return operand_open(state, node);
    }
    any_open(state, node.children.as_slice())
}

/// An expression that gives nothing yet.
pub fn without_operand(state: &mut State, node: Node) -> Result<TreeId, Stop>
    requires { IsNodeHeld state.old node }
    ensures { GrowsTree state.old state.new result (definition.without_operand (node_tree state.old node)) }
{
    let mut node = node;
    node.operand = None;
    push(state, node)
}
