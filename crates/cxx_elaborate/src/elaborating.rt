//! What an expression means, by its production.

ghost use Rattle.cxx_tree.specs.Answered.{IsAnswered};
ghost use Rattle.cxx_tree.specs.Held.{meaning, tree};
ghost use Rattle.cxx_expr.specs.Elaborating as definition;
ghost use Rattle.cxx_expr.specs.Making.{IsTreeKnown};
ghost use Rattle.cxx_expr.specs.Nodes.{IsNodeHeld, node_tree};

use crate::brackets::parenthesis;
use crate::open::{is_any_open, without_operand};
use crate::this::this;
use cxx_called::{arrow, call, name, selected};
use cxx_expr::conditional::conditional;
use cxx_expr::operators::misshapen;
use cxx_expr::production::{
    ARROW, ASSIGNMENT, BINARY, CALL, CAST, CONDITIONAL, FUNCTIONAL_CAST, LITERAL, MEMBER, NAME,
    PARENTHESIS, PREFIX, SIZE, STEP, SUBSCRIPT, THIS,
};
use cxx_expr::{Questions, binary, cast, functional, literal, prefix, size, step, subscript};
use cxx_model::{Node, Stop, TreeId};
use cxx_tree::State;
use std::alloc::Global;

// The operators of clause 5. There is no other production of expressions.
#[tactic(auto, using(cxx_expr::proofs::Kept::later_refl))]
fn operated<Q: Questions>(
    alloc: Global,
    questions: &Q,
    state: &mut State,
    node: Node,
) -> Result<TreeId, Stop>
    requires ready { Q.is_ready questions.now }
    requires node { IsNodeHeld state.old node }
    ensures { IsAnswered tree IsTreeKnown state.old state.new result (definition.operated (Q.asks questions.now) (node_tree state.old node) (meaning state.old)) }
{
    if node.production == MEMBER {
        selected(alloc, questions, state, node)
    } else if node.production == ARROW {
        arrow(alloc, questions, state, node)
    } else if node.production == SUBSCRIPT {
        subscript(alloc, questions, state, node)
    } else if node.production == STEP {
        step(alloc, questions, state, node)
    } else if node.production == PREFIX {
        prefix(alloc, questions, state, node)
    } else if node.production == BINARY {
        binary(alloc, questions, state, node)
    } else if node.production == CONDITIONAL {
        conditional(alloc, questions, state, node)
    } else if node.production == ASSIGNMENT {
        binary(alloc, questions, state, node)
    } else if node.production == THIS {
        this(alloc, state, node)
    } else {
        Err(Stop::Fault(misshapen(alloc, node.start)?))
    }
}

#[tactic(auto, unfolding(cxx_expr::specs::Elaborating::by_production))]
fn by_production<Q: Questions>(
    alloc: Global,
    questions: &Q,
    state: &mut State,
    node: Node,
) -> Result<TreeId, Stop>
    requires ready { Q.is_ready questions.now }
    requires node { IsNodeHeld state.old node }
    ensures { IsAnswered tree IsTreeKnown state.old state.new result (definition.by_production (Q.asks questions.now) (node_tree state.old node) (meaning state.old)) }
{
    if node.production == LITERAL {
        literal(alloc, state, node)
    } else if node.production == NAME {
        name(alloc, questions, state, node)
    } else if node.production == PARENTHESIS {
        parenthesis(alloc, state, node)
    } else if node.production == CALL {
        call(alloc, questions, state, node)
    } else if node.production == FUNCTIONAL_CAST {
        functional(alloc, questions, state, node)
    } else if node.production == SIZE {
        size(alloc, questions, state, node)
    } else if node.production == CAST {
        cast(alloc, questions, state, node)
    } else {
        operated(alloc, questions, state, node)
    }
}

/// What an expression means whose parts are known: its tree, with what it gives, the conversions of its parts, and what it
/// names (clause 5). One that depends on parameters of templates asks nothing (14.6.2). It stops as the questions do, and
/// at what has no meaning.
#[tactic(auto, unfolding(cxx_expr::specs::Elaborating::elaborate))]
pub fn elaborate<Q: Questions>(
    alloc: Global,
    questions: &Q,
    state: &mut State,
    node: Node,
) -> Result<TreeId, Stop>
    requires ready { Q.is_ready questions.now }
    requires node { IsNodeHeld state.old node }
    ensures { IsAnswered tree IsTreeKnown state.old state.new result (definition.elaborate (Q.asks questions.now) (node_tree state.old node) (meaning state.old)) }
{
    if is_any_open(state, &node) {
        return without_operand(state, node);
    }
    by_production(alloc, questions, state, node)
}
