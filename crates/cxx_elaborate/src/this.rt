//! `this` (9.3.2).

ghost use Rattle.std.specs.Prelude.{◌<◌, [], length};
ghost use Rattle.cxx_expr.specs.Implied as definition;
ghost use Rattle.cxx_expr.specs.Making.{GrowsTree, GrowsType, IsTreeKnown};
ghost use Rattle.cxx_expr.specs.Nodes.{IsNodeHeld, node_tree};
ghost use Rattle.cxx_expr.specs.Operands as operands;
ghost use Rattle.cxx_model.specs.Types.Trees as types;
ghost use Rattle.cxx_reading.specs.Initializers.{value_operand};
ghost use Rattle.cxx_tree.specs.Answered.{IsAnswered};
ghost use Rattle.cxx_tree.specs.Held.{meaning, tree, type_of};

use cxx_expr::faults::fault;
use cxx_expr::nodes::given_over;
use cxx_model::{ConstantKind, FaultText, Listed, Node, Operand, Stop, TreeId, TypeId};
use cxx_this::this_object;
use cxx_tree::State;
use std::alloc::Global;

fn pointer_to(state: &mut State, of: TypeId) -> Result<TypeId, Stop>
    requires { of.0 < length (state.old).types }
    ensures { GrowsType state.old state.new result (types.pointer_to (type_of state.old of)) }
{
    match state.pointer_to(of) {
        Ok(of) => Ok(of),
        Err(_) => Err(Stop::OutOfMemory),
    }
}

// A pointer to an object of a type, which is a value.
#[tactic(auto, using(cxx_expr::proofs::Kept::later_trans, cxx_expr::proofs::NodeKept::node_later, cxx_expr::proofs::NodeKept::node_kept))]
fn pointer_given(alloc: Global, state: &mut State, node: Node, of: TypeId) -> Result<TreeId, Stop>
    requires node { IsNodeHeld state.old node }
    requires of { of.0 < length (state.old).types }
    ensures { GrowsTree state.old state.new result (operands.given_over (node_tree state.old node) (value_operand (types.pointer_to (type_of state.old of))) []) }
{
    let pointer = Operand {
        of: pointer_to(state, of)?,
        lvalue: false,
        constant: ConstantKind::No,
    };
    given_over(state, node, pointer, Listed::new(alloc))
}

/// A pointer to the object for which the function is called in whose body the reader stands.
#[tactic(auto, using(cxx_expr::proofs::Kept::later_trans, cxx_expr::proofs::NodeKept::node_later, cxx_expr::proofs::NodeKept::node_kept), unfolding(cxx_expr::specs::Implied::this))]
pub fn this(alloc: Global, state: &mut State, node: Node) -> Result<TreeId, Stop>
    requires { IsNodeHeld state.old node }
    ensures { IsAnswered tree IsTreeKnown state.old state.new result (definition.this (node_tree state.old node) (meaning state.old)) }
{
    match this_object(state)? {
        Some(of) => pointer_given(alloc, state, node, of),
        None => Err(Stop::Fault(fault(alloc, node.place, FaultText::OperandsDoNotFit)?)),
    }
}
