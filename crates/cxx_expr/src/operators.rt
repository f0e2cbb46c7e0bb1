//! The operators of operands that are of no class and no enumeration (5.2.1, 5.2.6, 5.3.1, 5.3.2, 5.6 to 5.18), and `&` and
//! `,` of those that are.

ghost use Rattle.std.specs.Prelude.{List, ◌≡◌, ◌<◌, ◌∷◌, [], codes, length, position, bytes_eq, IfOk, IfSome};
ghost use Rattle.cxx_builtin.specs.Built.{IsBuiltBelow, built_at};
ghost use Rattle.cxx_meaning.specs.Conversions.BuiltIn as built_in;
ghost use Rattle.cxx_meaning.specs.Conversions.BuiltIn.{built_in_result};
ghost use Rattle.cxx_model.specs.Stops.{Faulty, fault as fault_of};
ghost use Rattle.cxx_model.specs.Text.Spelling.{number_in as number_in_of, operators};
ghost use Rattle.cxx_model.specs.Types.Trees.{CxxType, fundamental};
ghost use Rattle.cxx_model.specs.declared.base.Base.TheVariants as base;
ghost use Rattle.cxx_reading.specs.Initializers.{operand_of as operand_of_tree, value_operand};
ghost use Rattle.cxx_model.specs.declared.fault.FaultText.TheVariants as says;
ghost use Rattle.cxx_model.specs.declared.punct.TheConstants as punctuation;
ghost use Rattle.cxx_standard.specs.Views.{kind_at};
ghost use Rattle.cxx_tree.specs.Arena.{path_of_option};
ghost use Rattle.cxx_tree.specs.Answered.{IsAnswered};
ghost use Rattle.cxx_tree.specs.Held.{meaning, tree, trees};
ghost use Rattle.cxx_expr.specs.Built.{GrowsMeaning};
ghost use Rattle.cxx_expr.specs.Making.{AreTreesHeld, GrowsOperand, GrowsOperands, IsTreeKnown, trees_held};
ghost use Rattle.cxx_expr.specs.Nodes.{IsNodeHeld, node_tree};
ghost use Rattle.cxx_expr.specs.Operands as operands;
ghost use Rattle.cxx_expr.specs.Operators as definition;
ghost use Rattle.cxx_expr.specs.Views.{AreOperandsBelow, operands_in};

use crate::converting::convert_each;
use crate::faults::{fault, not_built_at};
use crate::nodes::{both_children, given_over, only_child};
use crate::operands::{judged_beside, operand_of, plain_type};
use crate::production::MEMBER;
use crate::questions::Questions;
use cxx_builtin::{BuiltIn, ResultFault};
use cxx_model::{
    Base, ConstantKind, Fault, FaultText, LeftOut, Listed, Node, Operand, OperandList, Path, Place,
    Stop, TreeId, TreeIdList, punct,
};
use cxx_standard::{TypeKind, kind_of};
use cxx_tree::{State, is_plain_path};
use std::alloc::{AllocError, Global};

/// No meaning of clause 5.
pub fn no_fit(alloc: Global, place: Place) -> Result<Box<Fault>, AllocError>
    ensures { IfOk result (λ at. Faulty at.value ≡ fault_of place says.OperandsDoNotFit) }
{
    fault(alloc, place, FaultText::OperandsDoNotFit)
}

/// A tree with another count of parts than its production has.
pub fn misshapen(alloc: Global, start: Place) -> Result<Box<Fault>, AllocError>
    ensures { IfOk result (λ at. Faulty at.value ≡ fault_of start says.SyntaxError) }
{
    fault(alloc, start, FaultText::SyntaxError)
}

// ---- by what the operator does

fn number_in(table: &[&[u8]], text: &[u8]) -> Option<usize>
    ensures value { result ≡ position (λ entry. bytes_eq text.now entry.now) table.now }
    ensures within { IfSome result (λ n. n < length table.now) }
{
    table.iter().position(|entry| text == *entry)
}

#[tactic(auto, unfolding(cxx_model::specs::Text::Spelling::operators))]
fn primary_number(text: &[u8]) -> Option<u8>
    ensures { result ≡ number_in_of operators text.now }
{
    match number_in(&punct::SPELLINGS, text) {
        Some(number) => Some(number as u8),
        None => None,
    }
}

// The number of an operator by its primary spelling; zero is that of none.
fn number_or_none(text: &[u8]) -> u8
    ensures { result ≡ definition.or_none (number_in_of operators text.now) }
{
    match primary_number(text) {
        Some(number) => number,
        None => 0,
    }
}

#[tactic(auto, unfolding(crate::specs::Operators::operator_in))]
fn operator_in(state: &State, node: &Node) -> u8
    ensures { result ≡ definition.operator_in (node_tree state.now node.now) }
{
    let _ = state;
    number_or_none(node.spelling.as_slice())
}

/// What an operator does with its operands.
pub fn meaning_of<Q: Questions>(
    alloc: Global,
    questions: &Q,
    state: &mut State,
    place: Place,
    operator: u8,
    operands: OperandList,
) -> Result<BuiltIn, Stop>
    requires { AreOperandsBelow (length (state.old).types) operands }
    ensures { GrowsMeaning state.old state.new result (definition.meaning_at place (built_in_result (meaning state.old).graph operator (operands_in (state.old).types operands))) }
{
    match questions.built_in(state, operator, &operands) {
        Ok(meaning) => Ok(meaning),
        Err(ResultFault::NoFit) => Err(Stop::Fault(no_fit(alloc, place)?)),
        Err(ResultFault::Needs(_)) => Err(Stop::Fault(not_built_at(alloc, place)?)),
        Err(ResultFault::OutOfMemory) => Err(Stop::OutOfMemory),
    }
}

// Each operand is converted to the type that the meaning names.
#[tactic(auto, using(crate::proofs::Kept::later_trans, crate::proofs::NodeKept::node_later, crate::proofs::NodeKept::node_kept, crate::proofs::Kept::operand_kept, crate::proofs::NodeKept::listed_is), unfolding(crate::specs::Operators::built))]
fn built<Q: Questions>(
    alloc: Global,
    questions: &Q,
    state: &mut State,
    node: Node,
    parts: &[TreeId],
    found: BuiltIn,
) -> Result<TreeId, Stop>
    requires ready { Q.is_ready questions.now }
    requires node { IsNodeHeld state.old node }
    requires parts { AreTreesHeld state.old parts.now }
    requires found { IsBuiltBelow (length (state.old).types) found }
    ensures { IsAnswered tree IsTreeKnown state.old state.new result (definition.built (Q.asks questions.now) (node_tree state.old node) (trees_held state.old parts.now) (built_at (state.old).types found) (meaning state.old)) }
{
    let operand = Operand {
        of: found.result,
        lvalue: found.lvalue,
        constant: ConstantKind::No,
    };
    let operands = convert_each(
        alloc,
        questions,
        state,
        node.place,
        found.operands.as_slice(),
        Listed::new(alloc),
        parts,
    )?;
    given_over(state, node, operand, operands)
}

#[tactic(auto, using(crate::proofs::Kept::later_trans, crate::proofs::NodeKept::node_later, crate::proofs::NodeKept::node_kept, crate::proofs::Kept::trees_later, crate::proofs::Kept::trees_kept))]
fn built_by<Q: Questions>(
    alloc: Global,
    questions: &Q,
    state: &mut State,
    node: Node,
    operator: u8,
    parts: &[TreeId],
    operands: OperandList,
) -> Result<TreeId, Stop>
    requires ready { Q.is_ready questions.now }
    requires node { IsNodeHeld state.old node }
    requires parts { AreTreesHeld state.old parts.now }
    requires operands { AreOperandsBelow (length (state.old).types) operands }
    ensures { IsAnswered tree IsTreeKnown state.old state.new result (definition.built_by (Q.asks questions.now) (node_tree state.old node) operator (trees_held state.old parts.now) (operands_in (state.old).types operands) (meaning state.old)) }
{
    let found = meaning_of(alloc, questions, state, node.place, operator, operands)?;
    built(alloc, questions, state, node, parts, found)
}

// ---- questions of operators (13.3.1.2)

fn is_question(kind: TypeKind) -> bool
    ensures { (types : List CxxType) → result ≡ operands.is_question_kind (kind_at types kind) }
{
    match kind {
        TypeKind::Enumeration(_) => true,
        TypeKind::Class(_) => true,
        _ => false,
    }
}

// Whether an operand asks which function its operator means.
fn asks_operator(state: &State, number: TreeId) -> bool
    requires { number.0 < length (trees state.now) }
    ensures { result ≡ operands.asks_operator (tree state.now number) }
{
    match state.node(number).operand {
        None => false,
        Some(operand) => is_question(kind_of(state.graph(), state.types(), operand.of)),
    }
}

// ---- one operand

/// A list of one tree.
pub fn listed_one(alloc: Global, one: TreeId) -> Result<TreeIdList, AllocError>
    ensures { IfOk result (λ all. all ≡ one ∷ []) }
{
    let mut all = Listed::new(alloc);
    all.push(one)?;
    Ok(all)
}

/// A list of two trees.
pub fn listed_two(alloc: Global, one: TreeId, two: TreeId) -> Result<TreeIdList, AllocError>
    ensures { IfOk result (λ all. all ≡ one ∷ two ∷ []) }
{
    let mut all = listed_one(alloc, one)?;
    all.push(two)?;
    Ok(all)
}

/// A list of one operand.
pub fn operands_one(alloc: Global, one: Operand) -> Result<OperandList, AllocError>
    ensures { IfOk result (λ all. all ≡ one ∷ []) }
{
    let mut all = Listed::new(alloc);
    all.push(one)?;
    Ok(all)
}

fn operands_two(alloc: Global, one: Operand, two: Operand) -> Result<OperandList, AllocError>
    ensures { IfOk result (λ all. all ≡ one ∷ two ∷ []) }
{
    let mut all = operands_one(alloc, one)?;
    all.push(two)?;
    Ok(all)
}

#[tactic(auto, using(crate::proofs::Kept::later_trans, crate::proofs::NodeKept::node_later, crate::proofs::NodeKept::node_kept, crate::proofs::Kept::tree_later, crate::proofs::Kept::tree_kept), unfolding(crate::specs::Operators::prefix_built))]
fn prefix_built<Q: Questions>(
    alloc: Global,
    questions: &Q,
    state: &mut State,
    node: Node,
    one: TreeId,
) -> Result<TreeId, Stop>
    requires ready { Q.is_ready questions.now }
    requires node { IsNodeHeld state.old node }
    requires one { one.0 < length (trees state.old) }
    ensures { IsAnswered tree IsTreeKnown state.old state.new result (definition.prefix_built (Q.asks questions.now) (node_tree state.old node) (tree state.old one) (meaning state.old)) }
{
    let operator = operator_in(state, &node);
    let parts = listed_one(alloc, one)?;
    let operand = operand_of(state, one)?;
    let operands = operands_one(alloc, operand)?;
    built_by(
        alloc,
        questions,
        state,
        node,
        operator,
        parts.as_slice(),
        operands,
    )
}

// The operands stay what they are: `&` and `,` have their own meaning where no function is viable (13.3.1.2 p9).
#[tactic(auto, using(crate::proofs::Kept::later_trans, crate::proofs::NodeKept::node_later, crate::proofs::NodeKept::node_kept, crate::proofs::Kept::trees_later, crate::proofs::Kept::trees_kept), unfolding(crate::specs::Operators::own_meaning, crate::specs::Operators::unconverted))]
fn own_meaning<Q: Questions>(
    alloc: Global,
    questions: &Q,
    state: &mut State,
    node: Node,
    operator: u8,
    parts: TreeIdList,
    operands: OperandList,
) -> Result<TreeId, Stop>
    requires ready { Q.is_ready questions.now }
    requires node { IsNodeHeld state.old node }
    requires parts { AreTreesHeld state.old parts }
    requires operands { AreOperandsBelow (length (state.old).types) operands }
    ensures { IsAnswered tree IsTreeKnown state.old state.new result (definition.own_meaning (node_tree state.old node) operator (trees_held state.old parts) (operands_in (state.old).types operands) (meaning state.old)) }
{
    let found = meaning_of(alloc, questions, state, node.place, operator, operands)?;
    let operand = Operand {
        of: found.result,
        lvalue: found.lvalue,
        constant: ConstantKind::No,
    };
    given_over(state, node, operand, parts)
}

// The address of an operand.
#[tactic(auto, using(crate::proofs::Kept::later_trans, crate::proofs::NodeKept::node_later, crate::proofs::NodeKept::node_kept, crate::proofs::Kept::tree_later, crate::proofs::Kept::tree_kept))]
fn address<Q: Questions>(
    alloc: Global,
    questions: &Q,
    state: &mut State,
    node: Node,
    one: TreeId,
) -> Result<TreeId, Stop>
    requires ready { Q.is_ready questions.now }
    requires node { IsNodeHeld state.old node }
    requires one { one.0 < length (trees state.old) }
    ensures { IsAnswered tree IsTreeKnown state.old state.new result (definition.own_meaning (node_tree state.old node) punctuation.AMPERSAND (tree state.old one ∷ []) (operand_of_tree (tree state.old one) ∷ []) (meaning state.old)) }
{
    let parts = listed_one(alloc, one)?;
    let operand = operand_of(state, one)?;
    let operands = operands_one(alloc, operand)?;
    own_meaning(
        alloc,
        questions,
        state,
        node,
        punct::AMPERSAND,
        parts,
        operands,
    )
}

#[tactic(auto, using(crate::proofs::Kept::later_refl), unfolding(crate::specs::Operators::prefix_asked))]
fn prefix_asked<Q: Questions>(
    alloc: Global,
    questions: &Q,
    state: &mut State,
    node: Node,
    one: TreeId,
) -> Result<TreeId, Stop>
    requires ready { Q.is_ready questions.now }
    requires node { IsNodeHeld state.old node }
    requires one { one.0 < length (trees state.old) }
    ensures { IsAnswered tree IsTreeKnown state.old state.new result (definition.prefix_asked (node_tree state.old node) (tree state.old one) (meaning state.old)) }
{
    if operator_in(state, &node) == punct::AMPERSAND {
        return address(alloc, questions, state, node, one);
    }
    Err(Stop::Fault(not_built_at(alloc, node.place)?))
}

fn has_qualifiers(path: &Option<Path>) -> bool
    ensures { result ≡ definition.has_qualifiers (path_of_option path.now) }
{
    match path {
        None => false,
        Some(path) => !is_plain_path(path),
    }
}

// Whether the object of a member is `*this`, which is not written (9.3.1).
fn is_implied(spelling: &[u8]) -> bool
    ensures { result ≡ bytes_eq spelling.now (codes "this") }
{
    spelling == b"this".as_slice()
}

// Whether a name with qualifiers, which stands alone, means a member of `*this`.
fn names_member(state: &State, number: TreeId) -> bool
    requires { number.0 < length (trees state.now) }
    ensures { result ≡ definition.names_member (tree state.now number) }
{
    let node = state.node(number);
    node.production == MEMBER && has_qualifiers(&node.path) && is_implied(node.spelling.as_slice())
}

// Behind `&` it is a pointer to a member (5.3.1 p2, 8.3.3).
fn points_to_member(state: &State, node: &Node, one: TreeId) -> bool
    requires node { IsNodeHeld state.now node.now }
    requires one { one.0 < length (trees state.now) }
    ensures { result ≡ definition.points_to_member (node_tree state.now node.now) (tree state.now one) }
{
    operator_in(state, node) == punct::AMPERSAND && names_member(state, one)
}

fn prefix_by<Q: Questions>(
    alloc: Global,
    questions: &Q,
    state: &mut State,
    node: Node,
    one: TreeId,
) -> Result<TreeId, Stop>
    requires ready { Q.is_ready questions.now }
    requires node { IsNodeHeld state.old node }
    requires one { one.0 < length (trees state.old) }
    ensures { IsAnswered tree IsTreeKnown state.old state.new result (definition.prefix_by (Q.asks questions.now) (node_tree state.old node) (tree state.old one) (meaning state.old)) }
{
    if asks_operator(state, one) {
        return prefix_asked(alloc, questions, state, node, one);
    }
    prefix_built(alloc, questions, state, node, one)
}

/// An operator in front of its operand (5.3.1, 5.3.2). A pointer to a member is left out.
#[tactic(auto, using(crate::proofs::Kept::later_refl), unfolding(crate::specs::Operators::prefix))]
pub fn prefix<Q: Questions>(
    alloc: Global,
    questions: &Q,
    state: &mut State,
    node: Node,
) -> Result<TreeId, Stop>
    requires ready { Q.is_ready questions.now }
    requires node { IsNodeHeld state.old node }
    ensures { IsAnswered tree IsTreeKnown state.old state.new result (definition.prefix (Q.asks questions.now) (node_tree state.old node) (meaning state.old)) }
{
    match only_child(state, &node) {
        None => Err(Stop::Fault(misshapen(alloc, node.start)?)),
        Some(one) => {
            if points_to_member(state, &node, one) {
                let text = FaultText::LeftOut(LeftOut::PointerToMember);
                return Err(Stop::Fault(fault(alloc, node.start, text)?));
            }
            prefix_by(alloc, questions, state, node, one)
        }
    }
}

fn int_operand(state: &mut State) -> Result<Operand, Stop>
    ensures { GrowsOperand state.old state.new result (value_operand (fundamental base.Int)) }
{
    let of = plain_type(state, Base::Int)?;
    Ok(Operand {
        of,
        lvalue: false,
        constant: ConstantKind::No,
    })
}

#[tactic(auto, using(crate::proofs::Kept::later_trans, crate::proofs::NodeKept::node_later, crate::proofs::NodeKept::node_kept, crate::proofs::Kept::tree_later, crate::proofs::Kept::tree_kept, crate::proofs::Kept::operand_later, crate::proofs::Kept::operand_kept), unfolding(crate::specs::Operators::step_built))]
fn step_built<Q: Questions>(
    alloc: Global,
    questions: &Q,
    state: &mut State,
    node: Node,
    one: TreeId,
) -> Result<TreeId, Stop>
    requires ready { Q.is_ready questions.now }
    requires node { IsNodeHeld state.old node }
    requires one { one.0 < length (trees state.old) }
    ensures { IsAnswered tree IsTreeKnown state.old state.new result (definition.step_built (Q.asks questions.now) (node_tree state.old node) (tree state.old one) (meaning state.old)) }
{
    let operator = operator_in(state, &node);
    let parts = listed_one(alloc, one)?;
    let operand = operand_of(state, one)?;
    let int = int_operand(state)?;
    let operands = operands_two(alloc, operand, int)?;
    built_by(
        alloc,
        questions,
        state,
        node,
        operator,
        parts.as_slice(),
        operands,
    )
}

/// `++` or `--` behind its operand (5.2.6).
#[tactic(auto, using(crate::proofs::Kept::later_refl), unfolding(crate::specs::Operators::step))]
pub fn step<Q: Questions>(
    alloc: Global,
    questions: &Q,
    state: &mut State,
    node: Node,
) -> Result<TreeId, Stop>
    requires ready { Q.is_ready questions.now }
    requires node { IsNodeHeld state.old node }
    ensures { IsAnswered tree IsTreeKnown state.old state.new result (definition.step (Q.asks questions.now) (node_tree state.old node) (meaning state.old)) }
{
    match only_child(state, &node) {
        None => Err(Stop::Fault(misshapen(alloc, node.start)?)),
        Some(one) => {
            if asks_operator(state, one) {
                return Err(Stop::Fault(not_built_at(alloc, node.place)?));
            }
            step_built(alloc, questions, state, node, one)
        }
    }
}

// ---- two operands

fn is_comparison(operator: u8) -> bool
    ensures { result ≡ built_in.is_comparison operator }
{
    operator == punct::LESS
        || (operator == punct::GREATER
            || (operator == punct::LESS_OR_EQUAL
                || (operator == punct::GREATER_OR_EQUAL
                    || (operator == punct::EQUAL_TO || operator == punct::NOT_EQUAL_TO))))
}

fn takes_null(operator: u8) -> bool
    ensures { result ≡ definition.takes_null operator }
{
    is_comparison(operator) || operator == punct::EQUALS
}

#[tactic(auto, unfolding(crate::specs::Operators::operand_beside))]
fn operand_beside<Q: Questions>(
    questions: &Q,
    state: &mut State,
    operator: u8,
    other: TreeId,
    number: TreeId,
) -> Result<Operand, Stop>
    requires ready { Q.is_ready questions.now }
    requires other { other.0 < length (trees state.old) }
    requires number { number.0 < length (trees state.old) }
    ensures { GrowsOperand state.old state.new result (definition.operand_beside (Q.asks questions.now) operator (tree state.old other) (tree state.old number) (meaning state.old)) }
{
    if takes_null(operator) {
        judged_beside(questions, state, other, number)
    } else {
        operand_of(state, number)
    }
}

// What two operands give.
#[tactic(auto, using(crate::proofs::Kept::later_trans, crate::proofs::Kept::tree_later, crate::proofs::Kept::tree_kept, crate::proofs::Kept::operand_later, crate::proofs::Kept::operand_kept))]
fn operands_beside<Q: Questions>(
    alloc: Global,
    questions: &Q,
    state: &mut State,
    operator: u8,
    one: TreeId,
    two: TreeId,
) -> Result<OperandList, Stop>
    requires ready { Q.is_ready questions.now }
    requires one { one.0 < length (trees state.old) }
    requires two { two.0 < length (trees state.old) }
    ensures { GrowsOperands state.old state.new result (definition.operand_beside (Q.asks questions.now) operator (tree state.old two) (tree state.old one) (meaning state.old) ∷ definition.operand_beside (Q.asks questions.now) operator (tree state.old one) (tree state.old two) (meaning state.old) ∷ []) }
{
    let left = operand_beside(questions, state, operator, two, one)?;
    let right = operand_beside(questions, state, operator, one, two)?;
    Ok(operands_two(alloc, left, right)?)
}

#[tactic(auto, using(crate::proofs::Kept::later_trans, crate::proofs::NodeKept::node_later, crate::proofs::NodeKept::node_kept, crate::proofs::Kept::tree_later, crate::proofs::Kept::tree_kept), unfolding(crate::specs::Operators::binary_built))]
fn binary_built<Q: Questions>(
    alloc: Global,
    questions: &Q,
    state: &mut State,
    node: Node,
    operator: u8,
    one: TreeId,
    two: TreeId,
) -> Result<TreeId, Stop>
    requires ready { Q.is_ready questions.now }
    requires node { IsNodeHeld state.old node }
    requires one { one.0 < length (trees state.old) }
    requires two { two.0 < length (trees state.old) }
    ensures { IsAnswered tree IsTreeKnown state.old state.new result (definition.binary_built (Q.asks questions.now) (node_tree state.old node) operator (tree state.old one) (tree state.old two) (meaning state.old)) }
{
    let parts = listed_two(alloc, one, two)?;
    let operands = operands_beside(alloc, questions, state, operator, one, two)?;
    built_by(
        alloc,
        questions,
        state,
        node,
        operator,
        parts.as_slice(),
        operands,
    )
}

#[tactic(auto, using(crate::proofs::Kept::later_trans, crate::proofs::Kept::tree_later, crate::proofs::Kept::tree_kept, crate::proofs::Kept::operand_later, crate::proofs::Kept::operand_kept))]
fn operands_both(
    alloc: Global,
    state: &mut State,
    one: TreeId,
    two: TreeId,
) -> Result<OperandList, Stop>
    requires one { one.0 < length (trees state.old) }
    requires two { two.0 < length (trees state.old) }
    ensures { GrowsOperands state.old state.new result (operand_of_tree (tree state.old one) ∷ operand_of_tree (tree state.old two) ∷ []) }
{
    let first = operand_of(state, one)?;
    let second = operand_of(state, two)?;
    Ok(operands_two(alloc, first, second)?)
}

// Two operands of which the second is what is given.
#[tactic(auto, using(crate::proofs::Kept::later_trans, crate::proofs::NodeKept::node_later, crate::proofs::NodeKept::node_kept, crate::proofs::Kept::tree_later, crate::proofs::Kept::tree_kept))]
fn comma<Q: Questions>(
    alloc: Global,
    questions: &Q,
    state: &mut State,
    node: Node,
    one: TreeId,
    two: TreeId,
) -> Result<TreeId, Stop>
    requires ready { Q.is_ready questions.now }
    requires node { IsNodeHeld state.old node }
    requires one { one.0 < length (trees state.old) }
    requires two { two.0 < length (trees state.old) }
    ensures { IsAnswered tree IsTreeKnown state.old state.new result (definition.own_meaning (node_tree state.old node) punctuation.COMMA (tree state.old one ∷ tree state.old two ∷ []) (operand_of_tree (tree state.old one) ∷ operand_of_tree (tree state.old two) ∷ []) (meaning state.old)) }
{
    let parts = listed_two(alloc, one, two)?;
    let operands = operands_both(alloc, state, one, two)?;
    own_meaning(alloc, questions, state, node, punct::COMMA, parts, operands)
}

#[tactic(auto, using(crate::proofs::Kept::later_refl), unfolding(crate::specs::Operators::binary_asked))]
fn binary_asked<Q: Questions>(
    alloc: Global,
    questions: &Q,
    state: &mut State,
    node: Node,
    operator: u8,
    one: TreeId,
    two: TreeId,
) -> Result<TreeId, Stop>
    requires ready { Q.is_ready questions.now }
    requires node { IsNodeHeld state.old node }
    requires one { one.0 < length (trees state.old) }
    requires two { two.0 < length (trees state.old) }
    ensures { IsAnswered tree IsTreeKnown state.old state.new result (definition.binary_asked (node_tree state.old node) operator (tree state.old one) (tree state.old two) (meaning state.old)) }
{
    if operator == punct::COMMA {
        return comma(alloc, questions, state, node, one, two);
    }
    Err(Stop::Fault(not_built_at(alloc, node.place)?))
}

// An operator between its operands, by its number.
#[tactic(auto, using(crate::proofs::Kept::later_refl), unfolding(crate::specs::Operators::binary_by))]
fn binary_by<Q: Questions>(
    alloc: Global,
    questions: &Q,
    state: &mut State,
    node: Node,
    operator: u8,
) -> Result<TreeId, Stop>
    requires ready { Q.is_ready questions.now }
    requires node { IsNodeHeld state.old node }
    ensures { IsAnswered tree IsTreeKnown state.old state.new result (definition.binary_by (Q.asks questions.now) (node_tree state.old node) operator (meaning state.old)) }
{
    match both_children(state, &node) {
        None => Err(Stop::Fault(misshapen(alloc, node.start)?)),
        Some((one, two)) => {
            if asks_operator(state, one) || asks_operator(state, two) {
                return binary_asked(alloc, questions, state, node, operator, one, two);
            }
            binary_built(alloc, questions, state, node, operator, one, two)
        }
    }
}

/// An operator between its operands (5.6 to 5.15, 5.17, 5.18).
pub fn binary<Q: Questions>(
    alloc: Global,
    questions: &Q,
    state: &mut State,
    node: Node,
) -> Result<TreeId, Stop>
    requires ready { Q.is_ready questions.now }
    requires node { IsNodeHeld state.old node }
    ensures { IsAnswered tree IsTreeKnown state.old state.new result (definition.binary (Q.asks questions.now) (node_tree state.old node) (meaning state.old)) }
{
    let operator = operator_in(state, &node);
    binary_by(alloc, questions, state, node, operator)
}

/// `a[b]` (5.2.1).
pub fn subscript<Q: Questions>(
    alloc: Global,
    questions: &Q,
    state: &mut State,
    node: Node,
) -> Result<TreeId, Stop>
    requires ready { Q.is_ready questions.now }
    requires node { IsNodeHeld state.old node }
    ensures { IsAnswered tree IsTreeKnown state.old state.new result (definition.subscript (Q.asks questions.now) (node_tree state.old node) (meaning state.old)) }
{
    binary_by(alloc, questions, state, node, punct::LEFT_BRACKET)
}
