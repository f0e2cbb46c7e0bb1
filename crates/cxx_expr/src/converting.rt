//! Implicit conversions of expressions (clause 4, 8.5, 8.5.3).

ghost use Rattle.std.specs.Prelude.{ℕ, List, ◌≡◌, ◌<◌, ◌||◌, not, length};
ghost use Rattle.cxx_meaning.specs.Conversions.Asking.{Gives};
ghost use Rattle.cxx_meaning.specs.Conversions.Standard as standard;
ghost use Rattle.cxx_model.specs.Types.Numbers.{AreTypesBelow};
ghost use Rattle.cxx_meaning.specs.Conversions.Sizes.{referred as referred_type};
ghost use Rattle.cxx_model.specs.Types.Trees.{CxxType, unqualified};
ghost use Rattle.cxx_reading.specs.Initializers as reading;
ghost use Rattle.cxx_reading.specs.Initializers.{operand_of as operand_of_tree};
ghost use Rattle.cxx_standard.specs.Views.{found_at, kind_at, operand_at};
ghost use Rattle.cxx_tree.specs.Answered.{IsAnswered};
ghost use Rattle.cxx_tree.specs.Arena.{IsNodeBelow, tree_over};
ghost use Rattle.cxx_tree.specs.Held.{meaning, tree, trees, type_of};
ghost use Rattle.cxx_expr.specs.Bases as bases;
ghost use Rattle.cxx_expr.specs.Converting as definition;
ghost use Rattle.cxx_expr.specs.Making.{AreTreesHeld, Gathers, GrowsTree, IsTreeKnown, trees_held};
ghost use Rattle.cxx_expr.specs.Operands.{is_none};
ghost use Rattle.cxx_expr.specs.Views.{types_in};

use crate::bases::one_base;
use crate::conditional::is_class;
use crate::faults::{fault, not_built_at};
use crate::operands::{bare_type, judged_to, referred, result_operand, value_operand};
use crate::production::CAST;
use crate::questions::Questions;
use cxx_model::{
    FaultText, Listed, Node, Operand, Place, Second, StandardSequence, Stop, TreeId, TreeIdList,
    TypeId, TypeNode, Wait,
};
use cxx_names::is_incomplete;
use cxx_standard::{TypeKind, kind_of, standard_sequence};
use cxx_tree::State;
use std::alloc::Global;

/// Adds a node.
pub fn push(state: &mut State, node: Node) -> Result<TreeId, Stop>
    requires below { IsNodeBelow (length (state.old).types) node }
    requires children { AreTreesHeld state.old node.children }
    ensures { GrowsTree state.old state.new result (tree_over (state.old).types (trees state.old) node) }
{
    match state.push(node) {
        Ok(number) => Ok(number),
        Err(_) => Err(Stop::OutOfMemory),
    }
}

// A conversion, with what it gives, covers the tokens of what it converts.
#[tactic(auto, using(crate::proofs::Kept::tree_kept))]
fn covering(
    alloc: Global,
    state: &mut State,
    of: TypeId,
    operand: Operand,
    number: TreeId,
) -> Result<TreeId, Stop>
    requires of { of.0 < length (state.old).types }
    requires operand { operand.of.0 < length (state.old).types }
    requires known { number.0 < length (trees state.old) }
    ensures { GrowsTree state.old state.new result (bases.covering_tree (type_of state.old of) (operand_at (state.old).types operand) (tree state.old number)) }
{
    let mut children = Listed::new(alloc);
    children.push(number)?;
    let from = state.node(number);
    let node = Node {
        production: CAST,
        children,
        first: from.first,
        last: from.last,
        start: from.start,
        place: from.place,
        path: None,
        operand: Some(operand),
        of: Some(of),
        target: None,
        call: None,
        spelling: Listed::new(alloc),
    };
    push(state, node)
}

// To a value of a type.
#[tactic(auto, using(crate::proofs::Kept::later_trans, crate::proofs::Kept::tree_later, crate::proofs::Kept::tree_kept, crate::proofs::Kept::type_later, crate::proofs::Kept::type_kept))]
fn conversion(alloc: Global, state: &mut State, of: TypeId, number: TreeId) -> Result<TreeId, Stop>
    requires of { of.0 < length (state.old).types }
    requires known { number.0 < length (trees state.old) }
    ensures { GrowsTree state.old state.new result (reading.conversion_tree (type_of state.old of) (tree state.old number)) }
{
    let operand = value_operand(state, of)?;
    covering(alloc, state, of, operand, number)
}

// To the type, or what it refers to, cv words aside.
#[tactic(auto, using(crate::proofs::Kept::later_trans, crate::proofs::Kept::tree_later, crate::proofs::Kept::tree_kept))]
fn to_value(alloc: Global, state: &mut State, of: TypeId, number: TreeId) -> Result<TreeId, Stop>
    requires of { of.0 < length (state.old).types }
    requires known { number.0 < length (trees state.old) }
    ensures { GrowsTree state.old state.new result (reading.conversion_tree (unqualified (referred_type (type_of state.old of))) (tree state.old number)) }
{
    let to = referred(state.types(), of);
    let bare = bare_type(state, to)?;
    conversion(alloc, state, bare, number)
}

// To a reference that is bound to a base (8.5.3).
#[tactic(auto, using(crate::proofs::Kept::later_trans, crate::proofs::Kept::tree_later, crate::proofs::Kept::tree_kept, crate::proofs::Kept::type_later, crate::proofs::Kept::type_kept))]
fn bound(alloc: Global, state: &mut State, of: TypeId, number: TreeId) -> Result<TreeId, Stop>
    requires of { of.0 < length (state.old).types }
    requires known { number.0 < length (trees state.old) }
    ensures { GrowsTree state.old state.new result (bases.base_tree (type_of state.old of) (tree state.old number)) }
{
    let operand = result_operand(state, of)?;
    covering(alloc, state, of, operand, number)
}

fn to_base(alloc: Global, state: &mut State, of: TypeId, number: TreeId) -> Result<TreeId, Stop>
    requires of { of.0 < length (state.old).types }
    requires known { number.0 < length (trees state.old) }
    ensures { GrowsTree state.old state.new result (definition.to_base (type_of state.old of) (tree state.old number)) }
{
    match state.types().node(of) {
        TypeNode::Reference(_) => bound(alloc, state, of, number),
        _ => to_value(alloc, state, of, number),
    }
}

fn converted_by(
    alloc: Global,
    state: &mut State,
    of: TypeId,
    number: TreeId,
    step: Second,
) -> Result<TreeId, Stop>
    requires of { of.0 < length (state.old).types }
    requires known { number.0 < length (trees state.old) }
    ensures { GrowsTree state.old state.new result (definition.converted_by (type_of state.old of) (tree state.old number) step) }
{
    match step {
        Second::DerivedToBase => to_base(alloc, state, of, number),
        _ => to_value(alloc, state, of, number),
    }
}

// A conversion stands where there is a promotion or conversion.
#[tactic(auto, using(crate::proofs::Kept::later_refl))]
fn by_step(
    alloc: Global,
    state: &mut State,
    of: TypeId,
    number: TreeId,
    step: Option<Second>,
) -> Result<TreeId, Stop>
    requires of { of.0 < length (state.old).types }
    requires known { number.0 < length (trees state.old) }
    ensures { GrowsTree state.old state.new result (definition.by_step (type_of state.old of) (tree state.old number) step) }
{
    match step {
        None => Ok(number),
        Some(step) => converted_by(alloc, state, of, number, step),
    }
}

#[tactic(auto, unfolding(cxx_tree::specs::Held::meaning))]
fn sequence_to(
    alloc: Global,
    state: &State,
    operand: Operand,
    of: TypeId,
) -> Result<Option<StandardSequence>, Wait>
    requires operand { operand.of.0 < length (state.now).types }
    requires of { of.0 < length (state.now).types }
    ensures { Gives (found_at (state.now).types) result (standard.standard_sequence (meaning state.now).graph (operand_at (state.now).types operand) (type_of state.now of)) }
{
    standard_sequence(alloc, state.graph(), state.types(), operand, of)
}

// An expression of another type.
#[tactic(auto, using(crate::proofs::Kept::later_trans, crate::proofs::Kept::tree_later, crate::proofs::Kept::tree_kept, crate::proofs::Kept::type_later, crate::proofs::Kept::type_kept), unfolding(crate::specs::Converting::convert_known))]
fn convert_known<Q: Questions>(
    alloc: Global,
    questions: &Q,
    state: &mut State,
    place: Place,
    base_place: Place,
    of: TypeId,
    number: TreeId,
) -> Result<TreeId, Stop>
    requires ready { Q.is_ready questions.now }
    requires of { of.0 < length (state.old).types }
    requires number { number.0 < length (trees state.old) }
    ensures { IsAnswered tree IsTreeKnown state.old state.new result (definition.convert_known (Q.asks questions.now) place base_place (type_of state.old of) (tree state.old number) (meaning state.old)) }
{
    let operand = judged_to(questions, state, of, number)?;
    match sequence_to(alloc, state, operand, of) {
        Ok(Some(sequence)) => {
            one_base(alloc, state, base_place, operand, of)?;
            by_step(alloc, state, of, number, sequence.second)
        }
        Ok(None) => Err(Stop::Fault(fault(alloc, place, FaultText::NoConversion)?)),
        Err(Wait::Needs(_)) => Err(Stop::Fault(not_built_at(alloc, place)?)),
        Err(Wait::OutOfMemory) => Err(Stop::OutOfMemory),
    }
}

// Whether an expression is of the type, or depends on parameters of templates.
fn stays(state: &State, of: TypeId, number: TreeId) -> bool
    requires of { of.0 < length (state.now).types }
    requires number { number.0 < length (trees state.now) }
    ensures { result ≡ definition.stays (type_of state.now of) (tree state.now number) }
{
    match state.node(number).operand {
        None => true,
        Some(operand) => state.types().same(operand.of, of),
    }
}

// No object is made of an incomplete class (8.5, 9.2).
#[tactic(auto, using(crate::proofs::Kept::later_refl))]
fn class_value(alloc: Global, state: &State, number: TreeId) -> Result<TreeId, Stop>
    requires { number.0 < length (trees state.now) }
    ensures { IsAnswered tree IsTreeKnown state.now state.now result (definition.class_value (tree state.now number) (meaning state.now)) }
{
    let node = state.node(number);
    match node.operand {
        None => Ok(number),
        Some(_) => {
            let fault = fault(alloc, node.start, FaultText::IncompleteClass)?;
            Err(Stop::Fault(fault))
        }
    }
}

// The classes that two types are, and whether they are the same.
fn is_same_class(one: TypeKind, two: TypeKind) -> bool
    ensures { (types : List CxxType) → result ≡ definition.is_same_class (kind_at types one) (kind_at types two) }
{
    match one {
        TypeKind::Class(one) => match two {
            TypeKind::Class(two) => one.0 == two.0,
            _ => false,
        },
        _ => false,
    }
}

// A value of the class itself is the object that it makes (12.8).
fn is_own_value(state: &State, of: TypeId, operand: Operand) -> bool
    requires of { of.0 < length (state.now).types }
    requires operand { operand.of.0 < length (state.now).types }
    ensures { result ≡ definition.is_own_value (type_of state.now of) (operand_at (state.now).types operand) }
{
    let one = kind_of(state.graph(), state.types(), of);
    let two = kind_of(state.graph(), state.types(), operand.of);
    !operand.lvalue && is_same_class(one, two)
}

// An expression of which no object of the type is made without a constructor.
fn is_no_own_value(state: &State, of: TypeId, number: TreeId) -> bool
    requires of { of.0 < length (state.now).types }
    requires number { number.0 < length (trees state.now) }
    ensures { result ≡ not (is_none (tree state.now number).label.operand || definition.is_own_value (type_of state.now of) (operand_of_tree (tree state.now number))) }
{
    match state.node(number).operand {
        None => false,
        Some(operand) => !is_own_value(state, of, operand),
    }
}

// An object of a class is made of another expression by a constructor (8.5, 12.1).
fn is_constructed(state: &State, of: TypeId, number: TreeId) -> bool
    requires of { of.0 < length (state.now).types }
    requires number { number.0 < length (trees state.now) }
    ensures { result ≡ definition.is_constructed (type_of state.now of) (tree state.now number) }
{
    let kind = kind_of(state.graph(), state.types(), of);
    is_class(kind) && is_no_own_value(state, of, number)
}

// An expression as it is converted to a type, asked at a place, and the place where an ambiguous base is a fault (13.3.3.1).
#[tactic(auto, using(crate::proofs::Kept::later_refl), unfolding(crate::specs::Converting::convert_at, cxx_tree::specs::Held::meaning))]
fn convert_at<Q: Questions>(
    alloc: Global,
    questions: &Q,
    state: &mut State,
    place: Place,
    base_place: Place,
    of: TypeId,
    number: TreeId,
) -> Result<TreeId, Stop>
    requires ready { Q.is_ready questions.now }
    requires of { of.0 < length (state.old).types }
    requires number { number.0 < length (trees state.old) }
    ensures { IsAnswered tree IsTreeKnown state.old state.new result (definition.convert_at (Q.asks questions.now) place base_place (type_of state.old of) (tree state.old number) (meaning state.old)) }
{
    if is_incomplete(state.graph(), state.types(), of) {
        return class_value(alloc, state, number);
    }
    if is_constructed(state, of, number) {
        let start = state.node(number).start;
        return Err(Stop::Fault(not_built_at(alloc, start)?));
    }
    if stays(state, of, number) {
        return Ok(number);
    }
    convert_known(alloc, questions, state, place, base_place, of, number)
}

/// An expression as it is converted to a type, asked at a place (13.3.3.1).
#[tactic(auto, unfolding(crate::specs::Converting::convert))]
pub fn convert<Q: Questions>(
    alloc: Global,
    questions: &Q,
    state: &mut State,
    place: Place,
    of: TypeId,
    number: TreeId,
) -> Result<TreeId, Stop>
    requires ready { Q.is_ready questions.now }
    requires of { of.0 < length (state.old).types }
    requires number { number.0 < length (trees state.old) }
    ensures { IsAnswered tree IsTreeKnown state.old state.new result (definition.convert (Q.asks questions.now) place (type_of state.old of) (tree state.old number) (meaning state.old)) }
{
    convert_at(alloc, questions, state, place, place, of, number)
}

/// The types behind the first one.
pub fn types_after(types: &[TypeId]) -> &[TypeId]
    ensures is { (all : List CxxType) → types_in all result.now ≡ definition.types_after (types_in all types.now) }
    ensures below { (count : ℕ) → AreTypesBelow count types.now → AreTypesBelow count result.now }
{
    match types {
        [] => types,
        [_, others @ ..] => others,
    }
}

// The next expression, where a type is left for it.
#[tactic(auto, using(crate::proofs::Kept::later_refl))]
fn convert_next<Q: Questions>(
    alloc: Global,
    questions: &Q,
    state: &mut State,
    place: Place,
    types: &[TypeId],
    number: TreeId,
) -> Result<TreeId, Stop>
    requires ready { Q.is_ready questions.now }
    requires types { AreTypesBelow (length (state.old).types) types.now }
    requires number { number.0 < length (trees state.old) }
    ensures { IsAnswered tree IsTreeKnown state.old state.new result (definition.convert_next (Q.asks questions.now) place (types_in (state.old).types types.now) (tree state.old number) (meaning state.old)) }
{
    match types {
        [] => Ok(number),
        [of, ..] => {
            let start = state.node(number).start;
            convert_at(alloc, questions, state, place, start, *of, number)
        }
    }
}

// The same behind those that are converted.
#[tactic(auto, using(crate::proofs::Kept::trees_more, crate::proofs::Kept::trees_below_more, crate::proofs::Kept::trees_later, crate::proofs::Kept::trees_kept), unfolding(crate::specs::Converting::convert_more))]
fn convert_more<Q: Questions>(
    alloc: Global,
    questions: &Q,
    state: &mut State,
    place: Place,
    types: &[TypeId],
    done: &mut TreeIdList,
    number: TreeId,
) -> Result<(), Stop>
    requires ready { Q.is_ready questions.now }
    requires types { AreTypesBelow (length (state.old).types) types.now }
    requires done { AreTreesHeld state.old done.old }
    requires number { number.0 < length (trees state.old) }
    ensures { Gathers done.new state.old state.new result (definition.convert_more (Q.asks questions.now) place (types_in (state.old).types types.now) (trees_held state.old done.old) (tree state.old number) (meaning state.old)) }
{
    let next = convert_next(alloc, questions, state, place, types, number)?;
    Ok(done.push(next)?)
}

/// Each expression in turn, converted to its type, behind those that are converted.
#[tactic(auto, using(crate::proofs::Kept::later_refl, crate::proofs::Kept::later_trans, crate::proofs::Kept::types_later, crate::proofs::Kept::there_at, crate::proofs::Each::each_ends, crate::proofs::Each::each_fails))]
pub fn convert_each<Q: Questions>(
    alloc: Global,
    questions: &Q,
    state: &mut State,
    place: Place,
    types: &[TypeId],
    done: TreeIdList,
    numbers: &[TreeId],
) -> Result<TreeIdList, Stop>
    requires ready { Q.is_ready questions.now }
    requires types { AreTypesBelow (length (state.old).types) types.now }
    requires done { AreTreesHeld state.old done }
    requires numbers { AreTreesHeld state.old numbers.now }
    ensures { IsAnswered trees_held AreTreesHeld state.old state.new result (definition.convert_each (Q.asks questions.now) place (types_in (state.old).types types.now) (trees_held state.old done) (trees_held state.old numbers.now) (meaning state.old)) }
{
    let mut done = done;
    let mut types = types;
    for number in numbers {
        convert_more(alloc, questions, state, place, types, &mut done, *number)?;
        types = types_after(types);
    }
    Ok(done)
}
