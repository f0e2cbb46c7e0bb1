//! The type of what is measured, where it is an expression (5.3.3).

ghost use Rattle.std.specs.Prelude.{ℕ, List, ◌≡◌, ◌<◌, length};
ghost use Rattle.cxx_answers.specs.Bare.{type_of_bare, type_of_tree, type_within as type_within_of};
ghost use Rattle.cxx_expr.specs.Making.{AreTreesHeld, GrowsType, trees_held};
ghost use Rattle.cxx_expr.specs.Nodes.{IsOneKnown, one_tree};
ghost use Rattle.cxx_expr.specs.SizesOf as definition;
ghost use Rattle.cxx_model.specs.Facts.Declarations.{CxxFact};
ghost use Rattle.cxx_model.specs.Facts.Here.{cut_of};
ghost use Rattle.cxx_reading.specs.Trees.{in_turn};
ghost use Rattle.cxx_tree.specs.Arena.{number_of_option};
ghost use Rattle.cxx_tree.specs.Held.{meaning, tree, trees, type_of};

use crate::typed::object_type;
use cxx_expr::operands::{operand_of, plain_type, referred};
use cxx_expr::production::{NAME, PARENTHESIS};
use cxx_model::{Base, FactId, Stop, TreeId, TypeId};
use cxx_tree::State;

// What stands in brackets, without them, where something stands there.
fn bare(state: &State, number: TreeId) -> Option<TreeId>
    requires { number.0 < length (trees state.now) }
    ensures is { (all : List CxxFact) (cut : ℕ) → type_of_tree all cut (tree state.now number) ≡ type_within_of all cut (one_tree state.now result) }
    ensures known { IsOneKnown state.now result }
{
    let mut number = number;
    loop {
        let node = state.node(number);
        if node.production != PARENTHESIS {
            return Some(number);
        }
        let [inside, ..] = node.children.as_slice() else {
            return None;
        };
        number = *inside;
    }
}

// The type of what a name means, which a later declaration of it may give; or else its own.
#[tactic(auto, unfolding(cxx_tree::specs::Held::meaning))]
fn type_of_target(state: &State, own: TypeId, target: Option<FactId>) -> TypeId
    requires { own.0 < length (state.now).types }
    ensures is { type_of state.now result ≡ definition.type_of_target (meaning state.now).graph.facts (cut_of (meaning state.now).graph.facts (meaning state.now).here) (type_of state.now own) (number_of_option target) }
    ensures known { result.0 < length (state.now).types }
{
    let Some(target) = target else {
        return own;
    };
    match object_type(state.graph(), state.types(), target) {
        Some(of) => referred(state.types(), of),
        None => own,
    }
}

// The type of what an expression gives.
fn type_in(state: &mut State, number: TreeId) -> Result<TypeId, Stop>
    requires { number.0 < length (trees state.old) }
    ensures { GrowsType state.old state.new result (definition.type_in (tree state.old number).label) }
{
    let operand = operand_of(state, number)?;
    Ok(operand.of)
}

// The type of an expression with no brackets round it.
fn type_bare(state: &mut State, number: TreeId) -> Result<TypeId, Stop>
    requires { number.0 < length (trees state.old) }
    ensures { GrowsType state.old state.new result (type_of_bare (meaning state.old).graph.facts (cut_of (meaning state.old).graph.facts (meaning state.old).here) (tree state.old number)) }
{
    let own = type_in(state, number)?;
    let node = state.node(number);
    if node.production == NAME {
        Ok(type_of_target(state, own, node.target))
    } else {
        Ok(own)
    }
}

fn type_within(state: &mut State, number: Option<TreeId>) -> Result<TypeId, Stop>
    requires { IsOneKnown state.old number }
    ensures { GrowsType state.old state.new result (type_within_of (meaning state.old).graph.facts (cut_of (meaning state.old).graph.facts (meaning state.old).here) (one_tree state.old number)) }
{
    match number {
        Some(number) => type_bare(state, number),
        None => plain_type(state, Base::Void),
    }
}

/// The type of the first of some operands, with a bound that a later declaration of it gives (5.3.3, 8.3.4).
pub fn type_of_operand(state: &mut State, operands: &[TreeId]) -> Result<TypeId, Stop>
    requires { AreTreesHeld state.old operands.now }
    ensures { GrowsType state.old state.new result (definition.type_of_operand (meaning state.old).graph.facts (cut_of (meaning state.old).graph.facts (meaning state.old).here) (in_turn (trees_held state.old operands.now))) }
{
    match operands {
        [first, ..] => {
            let inside = bare(state, *first);
            type_within(state, inside)
        }
        [] => plain_type(state, Base::Void),
    }
}
