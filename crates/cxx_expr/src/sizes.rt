//! `sizeof` (5.3.3).

ghost use Rattle.std.specs.Prelude.{◌≡◌, ◌<◌, ◌++◌, length, decimal, codes, IfOk};
ghost use Rattle.cxx_meaning.specs.Conversions.Kinds.{is_array as is_array_type};
ghost use Rattle.cxx_meaning.specs.Conversions.Sizes as sizes;
ghost use Rattle.cxx_model.specs.Stops.{Faulty, fault as fault_of};
ghost use Rattle.cxx_model.specs.Types.Trees.{fundamental};
ghost use Rattle.cxx_model.specs.declared.base.Base.TheVariants as base;
ghost use Rattle.cxx_reading.specs.Initializers.{value_operand};
ghost use Rattle.cxx_standard.specs.Views.{operand_at};
ghost use Rattle.cxx_tree.specs.Answered.{IsAnswered};
ghost use Rattle.cxx_tree.specs.Held.{meaning, tree, type_of};
ghost use Rattle.cxx_expr.specs.Making.{GrowsOperand, GrowsTree, GrowsType, IsTreeKnown};
ghost use Rattle.cxx_expr.specs.Nodes.{IsNodeHeld, node_tree};
ghost use Rattle.cxx_expr.specs.SizesOf as definition;

use crate::conditional::is_class;
use crate::converting::push;
use crate::faults::fault;
use crate::operands::{plain_type, referred};
use crate::questions::Questions;
use cxx_meaning::SizeReason;
use cxx_model::{
    Base, ConstantKind, Fault, FaultText, Node, Operand, Place, Stop, Text, TreeId, TypeId,
    TypeNode,
};
use cxx_standard::kind_of;
use cxx_tree::State;
use itoa::Buffer;
use std::alloc::{AllocError, Global};

// The type that is written, or that of the operand.
#[tactic(auto, using(crate::proofs::Kept::later_refl), unfolding(crate::specs::SizesOf::measured))]
fn measured<Q: Questions>(questions: &Q, state: &mut State, node: &Node) -> Result<TypeId, Stop>
    requires { IsNodeHeld state.old node.now }
    ensures { GrowsType state.old state.new result (definition.measured (node_tree state.old node.now) (meaning state.old)) }
{
    match node.of {
        Some(of) => Ok(of),
        None => questions.type_of_operand(state, node.children.as_slice()),
    }
}

fn is_array(state: &State, of: TypeId) -> bool
    requires { of.0 < length (state.now).types }
    ensures { result ≡ is_array_type (type_of state.now of) }
{
    match state.types().node(of) {
        TypeNode::Array(_, _) => true,
        _ => false,
    }
}

// An array and a class are not complete; a function and `void` have no size.
fn no_size_text(state: &State, of: TypeId) -> FaultText
    requires { of.0 < length (state.now).types }
    ensures { result ≡ definition.no_size_text (type_of state.now of) }
{
    if is_array(state, of) {
        FaultText::IncompleteClass
    } else if is_class(kind_of(state.graph(), state.types(), of)) {
        FaultText::IncompleteClass
    } else {
        FaultText::OperandsDoNotFit
    }
}

fn no_size(alloc: Global, state: &State, start: Place, of: TypeId) -> Result<Box<Fault>, AllocError>
    requires { of.0 < length (state.now).types }
    ensures { IfOk result (λ at. Faulty at.value ≡ fault_of start (definition.no_size_text (sizes.referred (type_of state.now of)))) }
{
    let to = referred(state.types(), of);
    fault(alloc, start, no_size_text(state, to))
}

// A number in decimal digits, as one of `unsigned long`.
fn size_text(alloc: Global, size: u64) -> Result<Text, AllocError>
    ensures { IfOk result (λ text. text ≡ decimal size ++ codes "UL") }
{
    let mut buffer = Buffer::new();
    let mut text = Text::from_slice(alloc, buffer.format(size).as_bytes())?;
    text.push(b'U')?;
    text.push(b'L')?;
    Ok(text)
}

fn size_operand(state: &mut State) -> Result<Operand, Stop>
    ensures { GrowsOperand state.old state.new result (value_operand (fundamental base.UnsignedLong)) }
{
    let of = plain_type(state, Base::UnsignedLong)?;
    Ok(Operand {
        of,
        lvalue: false,
        constant: ConstantKind::No,
    })
}

fn spelled_as(state: &mut State, node: Node, text: Text, operand: Operand) -> Result<TreeId, Stop>
    requires node { IsNodeHeld state.old node }
    requires operand { operand.of.0 < length (state.old).types }
    ensures { GrowsTree state.old state.new result (definition.spelled_as (node_tree state.old node) text (operand_at (state.old).types operand)) }
{
    let mut node = node;
    node.spelling = text;
    node.operand = Some(operand);
    push(state, node)
}

// The size stands for the whole.
#[tactic(auto, using(crate::proofs::Kept::later_trans, crate::proofs::NodeKept::node_kept))]
fn size_tree(alloc: Global, state: &mut State, node: Node, size: u64) -> Result<TreeId, Stop>
    requires { IsNodeHeld state.old node }
    ensures { GrowsTree state.old state.new result (definition.size_tree (node_tree state.old node) size) }
{
    let operand = size_operand(state)?;
    let text = size_text(alloc, size)?;
    spelled_as(state, node, text, operand)
}

#[tactic(auto, using(crate::proofs::Kept::later_refl))]
fn size_by(
    alloc: Global,
    state: &mut State,
    node: Node,
    of: TypeId,
    found: Result<u64, SizeReason>,
) -> Result<TreeId, Stop>
    requires node { IsNodeHeld state.old node }
    requires of { of.0 < length (state.old).types }
    ensures { IsAnswered tree IsTreeKnown state.old state.new result (definition.size_by (node_tree state.old node) (type_of state.old of) found (meaning state.old)) }
{
    match found {
        Ok(size) => size_tree(alloc, state, node, size),
        Err(SizeReason::TooLarge) => Err(Stop::Fault(fault(
            alloc,
            node.start,
            FaultText::ConstantOverflow,
        )?)),
        Err(SizeReason::NoSize) => Err(Stop::Fault(no_size(alloc, state, node.start, of)?)),
    }
}

/// The size of a type or of an operand.
#[tactic(auto, using(crate::proofs::Kept::later_trans, crate::proofs::NodeKept::node_kept, crate::proofs::Kept::type_later, crate::proofs::Kept::type_kept), unfolding(crate::specs::SizesOf::size))]
pub fn size<Q: Questions>(
    alloc: Global,
    questions: &Q,
    state: &mut State,
    node: Node,
) -> Result<TreeId, Stop>
    requires ready { Q.is_ready questions.now }
    requires node { IsNodeHeld state.old node }
    ensures { IsAnswered tree IsTreeKnown state.old state.new result (definition.size (Q.asks questions.now) (node_tree state.old node) (meaning state.old)) }
{
    let of = measured(questions, state, &node)?;
    let found = questions.size(state, of)?;
    size_by(alloc, state, node, of, found)
}
