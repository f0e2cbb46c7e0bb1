//! The conditional operator (5.16).

ghost use Rattle.std.specs.Prelude.{List, ◌≡◌, ◌<◌, length};
ghost use Rattle.cxx_builtin.specs.Built.{IsBuiltBelow, built_at};
ghost use Rattle.cxx_meaning.specs.Conversions.BuiltIn.{bool_type as bool_type_of, is_condition as is_condition_kind};
ghost use Rattle.cxx_meaning.specs.Conversions.Conditional as conditional_operator;
ghost use Rattle.cxx_meaning.specs.Conversions.Standard.{is_class as is_class_kind};
ghost use Rattle.cxx_model.specs.Types.Trees.{CxxType};
ghost use Rattle.cxx_standard.specs.Views.{kind_at};
ghost use Rattle.cxx_tree.specs.Answered.{IsAnswered};
ghost use Rattle.cxx_tree.specs.Held.{meaning, tree, trees};
ghost use Rattle.cxx_expr.specs.Built.{GrowsMeaning};
ghost use Rattle.cxx_expr.specs.Making.{AreTreesHeld, GrowsType, IsTreeKnown, trees_held};
ghost use Rattle.cxx_expr.specs.Nodes.{IsNodeHeld, node_tree};
ghost use Rattle.cxx_expr.specs.Operands as operands;
ghost use Rattle.cxx_expr.specs.Operators as definition;

use crate::converting::{convert, convert_each};
use crate::faults::not_built_at;
use crate::nodes::{given_over, three_children};
use crate::operands::{judged_beside, plain_type};
use crate::operators::{listed_one, listed_two, misshapen, no_fit};
use crate::questions::Questions;
use cxx_builtin::{BuiltIn, ResultFault, operand_kind};
use cxx_model::{Base, ConstantKind, Node, Operand, Place, Stop, TreeId, TypeId};
use cxx_standard::{TypeKind, kind_of};
use cxx_tree::State;
use std::alloc::Global;

fn bool_type(state: &mut State) -> Result<TypeId, Stop>
    ensures { GrowsType state.old state.new result bool_type_of }
{
    plain_type(state, Base::Bool)
}

// What the arms become.
#[tactic(auto, using(crate::proofs::Kept::later_trans, crate::proofs::Kept::tree_later, crate::proofs::Kept::tree_kept, crate::proofs::Kept::operand_later, crate::proofs::Kept::operand_kept))]
fn arms_meaning<Q: Questions>(
    alloc: Global,
    questions: &Q,
    state: &mut State,
    place: Place,
    one: TreeId,
    two: TreeId,
) -> Result<BuiltIn, Stop>
    requires ready { Q.is_ready questions.now }
    requires one { one.0 < length (trees state.old) }
    requires two { two.0 < length (trees state.old) }
    ensures { GrowsMeaning state.old state.new result (definition.meaning_at place (conditional_operator.conditional (meaning state.old).graph (operands.judged_beside (Q.asks questions.now) (tree state.old two) (tree state.old one) (meaning state.old)) (operands.judged_beside (Q.asks questions.now) (tree state.old one) (tree state.old two) (meaning state.old)))) }
{
    let left = judged_beside(questions, state, two, one)?;
    let right = judged_beside(questions, state, one, two)?;
    match questions.conditional(state, left, right) {
        Ok(meaning) => Ok(meaning),
        Err(ResultFault::NoFit) => Err(Stop::Fault(no_fit(alloc, place)?)),
        Err(ResultFault::Needs(_)) => Err(Stop::Fault(not_built_at(alloc, place)?)),
        Err(ResultFault::OutOfMemory) => Err(Stop::OutOfMemory),
    }
}

#[tactic(auto, using(crate::proofs::Kept::later_trans, crate::proofs::NodeKept::node_later, crate::proofs::NodeKept::node_kept, crate::proofs::Kept::operand_kept, crate::proofs::NodeKept::listed_is), unfolding(crate::specs::Operators::arms_built))]
fn arms_built<Q: Questions>(
    alloc: Global,
    questions: &Q,
    state: &mut State,
    node: Node,
    test: TreeId,
    arms: &[TreeId],
    found: BuiltIn,
) -> Result<TreeId, Stop>
    requires ready { Q.is_ready questions.now }
    requires node { IsNodeHeld state.old node }
    requires test { test.0 < length (trees state.old) }
    requires arms { AreTreesHeld state.old arms.now }
    requires found { IsBuiltBelow (length (state.old).types) found }
    ensures { IsAnswered tree IsTreeKnown state.old state.new result (definition.arms_built (Q.asks questions.now) (node_tree state.old node) (tree state.old test) (trees_held state.old arms.now) (built_at (state.old).types found) (meaning state.old)) }
{
    let operand = Operand {
        of: found.result,
        lvalue: found.lvalue,
        constant: ConstantKind::No,
    };
    let before = listed_one(alloc, test)?;
    let operands = convert_each(
        alloc,
        questions,
        state,
        node.place,
        found.operands.as_slice(),
        before,
        arms,
    )?;
    given_over(state, node, operand, operands)
}

#[tactic(auto, using(crate::proofs::Kept::later_trans, crate::proofs::NodeKept::node_later, crate::proofs::NodeKept::node_kept, crate::proofs::Kept::tree_later, crate::proofs::Kept::tree_kept), unfolding(crate::specs::Operators::arms))]
fn arms<Q: Questions>(
    alloc: Global,
    questions: &Q,
    state: &mut State,
    node: Node,
    one: TreeId,
    two: TreeId,
    test: TreeId,
) -> Result<TreeId, Stop>
    requires ready { Q.is_ready questions.now }
    requires node { IsNodeHeld state.old node }
    requires one { one.0 < length (trees state.old) }
    requires two { two.0 < length (trees state.old) }
    requires test { test.0 < length (trees state.old) }
    ensures { IsAnswered tree IsTreeKnown state.old state.new result (definition.arms (Q.asks questions.now) (node_tree state.old node) (tree state.old one) (tree state.old two) (tree state.old test) (meaning state.old)) }
{
    let parts = listed_two(alloc, one, two)?;
    let found = arms_meaning(alloc, questions, state, node.place, one, two)?;
    arms_built(alloc, questions, state, node, test, parts.as_slice(), found)
}

#[tactic(auto, using(crate::proofs::Kept::later_trans, crate::proofs::NodeKept::node_later, crate::proofs::NodeKept::node_kept, crate::proofs::Kept::tree_later, crate::proofs::Kept::tree_kept), unfolding(crate::specs::Operators::conditional_built))]
fn conditional_built<Q: Questions>(
    alloc: Global,
    questions: &Q,
    state: &mut State,
    node: Node,
    test: TreeId,
    one: TreeId,
    two: TreeId,
) -> Result<TreeId, Stop>
    requires ready { Q.is_ready questions.now }
    requires node { IsNodeHeld state.old node }
    requires test { test.0 < length (trees state.old) }
    requires one { one.0 < length (trees state.old) }
    requires two { two.0 < length (trees state.old) }
    ensures { IsAnswered tree IsTreeKnown state.old state.new result (definition.conditional_built (Q.asks questions.now) (node_tree state.old node) (tree state.old test) (tree state.old one) (tree state.old two) (meaning state.old)) }
{
    let of = bool_type(state)?;
    let condition = convert(alloc, questions, state, node.place, of, test)?;
    arms(alloc, questions, state, node, one, two, condition)
}

/// Whether a type is a class.
pub fn is_class(kind: TypeKind) -> bool
    ensures { (types : List CxxType) → result ≡ is_class_kind (kind_at types kind) }
{
    match kind {
        TypeKind::Class(_) => true,
        _ => false,
    }
}

/// Whether an expression is of a class.
pub fn is_of_class(state: &State, number: TreeId) -> bool
    requires { number.0 < length (trees state.now) }
    ensures { result ≡ operands.is_of_class (tree state.now number) }
{
    match state.node(number).operand {
        None => false,
        Some(operand) => is_class(kind_of(state.graph(), state.types(), operand.of)),
    }
}

fn is_condition(kind: TypeKind) -> bool
    ensures { (types : List CxxType) → result ≡ is_condition_kind (kind_at types kind) }
{
    match kind {
        TypeKind::Arithmetic(_) => true,
        TypeKind::Enumeration(_) => true,
        TypeKind::Pointer(_) => true,
        _ => false,
    }
}

fn is_test(state: &State, number: TreeId) -> bool
    requires { number.0 < length (trees state.now) }
    ensures { result ≡ definition.is_test (tree state.now number) }
{
    match state.node(number).operand {
        None => false,
        Some(operand) => is_condition(operand_kind(state.graph(), state.types(), operand)),
    }
}

/// `a ? b : c`.
#[tactic(auto, using(crate::proofs::Kept::later_refl), unfolding(crate::specs::Operators::conditional))]
pub fn conditional<Q: Questions>(
    alloc: Global,
    questions: &Q,
    state: &mut State,
    node: Node,
) -> Result<TreeId, Stop>
    requires ready { Q.is_ready questions.now }
    requires node { IsNodeHeld state.old node }
    ensures { IsAnswered tree IsTreeKnown state.old state.new result (definition.conditional (Q.asks questions.now) (node_tree state.old node) (meaning state.old)) }
{
    match three_children(state, &node) {
        None => Err(Stop::Fault(misshapen(alloc, node.start)?)),
        Some((test, one, two)) => {
            if is_of_class(state, test) || (is_of_class(state, one) || is_of_class(state, two)) {
                return Err(Stop::Fault(not_built_at(alloc, node.place)?));
            }
            if is_test(state, test) {
                return conditional_built(alloc, questions, state, node, test, one, two);
            }
            Err(Stop::Fault(no_fit(alloc, node.place)?))
        }
    }
}
