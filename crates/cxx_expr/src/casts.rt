//! Casts of what is of no class, and to references (5.2.3, 5.2.9 to 5.2.11, 5.4).

ghost use Rattle.std.specs.Prelude.{List, ◌≡◌, ◌<◌, length, codes, not, ◌&&◌, ◌||◌, Ok, IfOk};
ghost use Rattle.cxx_casts.specs.Made.{cast_at};
ghost use Rattle.cxx_meaning.specs.Conversions.Asking.{Gives as WaitGives};
ghost use Rattle.cxx_meaning.specs.Conversions.Casts as meaning_casts;
ghost use Rattle.cxx_meaning.specs.Conversions.Standard.{is_class as is_class_kind};
ghost use Rattle.cxx_meaning.specs.Conversions.Kinds.{kind_of as kind_of_type};
ghost use Rattle.cxx_model.specs.declared.fault.FaultText.TheVariants as says;
ghost use Rattle.cxx_model.specs.Stops.{Faulty, Gives, fault as fault_of};
ghost use Rattle.cxx_model.specs.Types.Trees.{CxxType};
ghost use Rattle.cxx_reading.specs.Declarators.{is_reference as is_reference_type};
ghost use Rattle.cxx_reading.specs.Trees.{children_of};
ghost use Rattle.cxx_standard.specs.Views.{kind_at, operand_at};
ghost use Rattle.cxx_tree.specs.Answered.{IsAnswered};
ghost use Rattle.cxx_tree.specs.Held.{meaning, tree, trees, type_of};
ghost use Rattle.cxx_expr.specs.Bases as bases;
ghost use Rattle.cxx_expr.specs.Casts as definition;
ghost use Rattle.cxx_expr.specs.Casting.{GrowsCast, IsSplit, IsStepsBelow, split_of};
ghost use Rattle.cxx_expr.specs.Making.{AreTreesHeld, GrowsTree, GrowsType, IsTreeKnown, trees_held};
ghost use Rattle.cxx_expr.specs.Nodes.{IsNodeHeld, node_tree};
ghost use Rattle.cxx_expr.specs.Operands as operands;

use crate::bases::{is_only_base, one_base};
use crate::conditional::{is_class, is_of_class};
use crate::converting::push;
use crate::faults::{fault, not_built_at};
use crate::nodes::given_over;
use crate::operands::{
    is_reference, judged_to, operand_of, plain_type, result_operand, value_operand,
};
use crate::operators::{misshapen, no_fit};
use crate::production::CAST;
use crate::questions::Questions;
use cxx_casts::{CastSteps, const_cast, reinterpret_cast, static_cast};
use cxx_model::{
    Base, Fault, FaultText, Listed, Node, Operand, Place, Stop, Text, TreeId, TreeIdList, TypeId,
    Wait,
};
use cxx_names::is_incomplete;
use cxx_standard::{TypeKind, kind_of};
use cxx_tree::State;
use std::alloc::{AllocError, Global};

// ---- parts

// The type to which a cast leads.
#[tactic(auto, using(crate::proofs::Kept::later_refl))]
fn target_of(state: &mut State, node: &Node) -> Result<TypeId, Stop>
    requires { IsNodeHeld state.old node.now }
    ensures { GrowsType state.old state.new result (definition.target_of (node_tree state.old node.now)) }
{
    match node.of {
        Some(of) => Ok(of),
        None => plain_type(state, Base::Void),
    }
}

#[tactic(auto, using(crate::proofs::Splits::split_some, crate::proofs::Splits::split_none, crate::proofs::Splits::below_taken, crate::proofs::Kept::below_at))]
fn split_last(
    alloc: Global,
    state: &State,
    numbers: &[TreeId],
) -> Result<Option<(TreeIdList, TreeId)>, AllocError>
    requires { AreTreesHeld state.now numbers.now }
    ensures is { IfOk result (λ parts. split_of state.now parts ≡ definition.split_last (trees_held state.now numbers.now)) }
    ensures below { IfOk result (IsSplit state.now) }
{
    let _ = state;
    if numbers.is_empty() {
        return Ok(None);
    }
    let last = numbers.len() - 1;
    let front = TreeIdList::from_slice(alloc, &numbers[..last])?;
    Ok(Some((front, numbers[last])))
}

// The trees of the type of a cast, and its operand.
#[tactic(auto, using(crate::proofs::NodeKept::children_are))]
fn split_children(
    alloc: Global,
    state: &State,
    node: &Node,
) -> Result<Option<(TreeIdList, TreeId)>, AllocError>
    requires { IsNodeHeld state.now node.now }
    ensures is { IfOk result (λ parts. split_of state.now parts ≡ definition.split_last (children_of (node_tree state.now node.now))) }
    ensures below { IfOk result (IsSplit state.now) }
{
    split_last(alloc, state, node.children.as_slice())
}

// ---- trees

// A cast by a keyword to a type, over the trees of that and its operand.
#[tactic(auto, using(crate::proofs::Kept::later_trans, crate::proofs::Kept::trees_more, crate::proofs::Kept::trees_below_more, crate::proofs::Kept::trees_later, crate::proofs::Kept::trees_kept, crate::proofs::Kept::tree_later, crate::proofs::Kept::tree_kept, crate::proofs::Kept::type_later, crate::proofs::Kept::type_kept))]
fn cast_over(
    state: &mut State,
    word: Text,
    of: TypeId,
    node: &Node,
    front: TreeIdList,
    one: TreeId,
) -> Result<TreeId, Stop>
    requires of { of.0 < length (state.old).types }
    requires front { AreTreesHeld state.old front }
    requires one { one.0 < length (trees state.old) }
    ensures { GrowsTree state.old state.new result (definition.cast_over word (type_of state.old of) (node_tree state.old node.now) (trees_held state.old front) (tree state.old one)) }
{
    let operand = result_operand(state, of)?;
    let mut children = front;
    children.push(one)?;
    let cast = Node {
        production: CAST,
        children,
        first: node.first,
        last: node.last,
        start: node.start,
        place: node.place,
        path: None,
        operand: Some(operand),
        of: Some(of),
        target: None,
        call: None,
        spelling: word,
    };
    push(state, cast)
}

fn const_word(alloc: Global) -> Result<Text, AllocError>
    ensures { IfOk result (λ word. word ≡ codes "const_cast") }
{
    Text::from_slice(alloc, b"const_cast")
}

fn static_word(alloc: Global) -> Result<Text, AllocError>
    ensures { IfOk result (λ word. word ≡ codes "static_cast") }
{
    Text::from_slice(alloc, b"static_cast")
}

fn reinterpret_word(alloc: Global) -> Result<Text, AllocError>
    ensures { IfOk result (λ word. word ≡ codes "reinterpret_cast") }
{
    Text::from_slice(alloc, b"reinterpret_cast")
}

// Two casts, the first by a keyword to the type between.
#[tactic(auto, using(crate::proofs::Kept::later_trans, crate::proofs::Kept::trees_later, crate::proofs::Kept::trees_kept, crate::proofs::Kept::type_later, crate::proofs::Kept::type_kept, crate::proofs::NodeKept::node_later, crate::proofs::NodeKept::node_kept))]
fn two_casts(
    alloc: Global,
    state: &mut State,
    word: Text,
    middle: TypeId,
    of: TypeId,
    node: &Node,
    front: TreeIdList,
    one: TreeId,
) -> Result<TreeId, Stop>
    requires middle { middle.0 < length (state.old).types }
    requires of { of.0 < length (state.old).types }
    requires leads { type_of state.old of ≡ definition.target_of (node_tree state.old node.now) }
    requires node { IsNodeHeld state.old node.now }
    requires front { AreTreesHeld state.old front }
    requires one { one.0 < length (trees state.old) }
    ensures { GrowsTree state.old state.new result (definition.two_casts word (type_of state.old middle) (node_tree state.old node.now) (trees_held state.old front) (tree state.old one)) }
{
    let inner = cast_over(state, word, middle, node, Listed::new(alloc), one)?;
    let outer = const_word(alloc)?;
    cast_over(state, outer, of, node, front, inner)
}

// What `(T)e` becomes.
fn explicit_tree(
    alloc: Global,
    state: &mut State,
    of: TypeId,
    node: &Node,
    front: TreeIdList,
    one: TreeId,
    found: CastSteps,
) -> Result<TreeId, Stop>
    requires of { of.0 < length (state.old).types }
    requires leads { type_of state.old of ≡ definition.target_of (node_tree state.old node.now) }
    requires node { IsNodeHeld state.old node.now }
    requires front { AreTreesHeld state.old front }
    requires one { one.0 < length (trees state.old) }
    requires found { IsStepsBelow (length (state.old).types) found }
    ensures { GrowsTree state.old state.new result (definition.explicit_tree (node_tree state.old node.now) (trees_held state.old front) (tree state.old one) (cast_at (state.old).types found)) }
{
    match found {
        CastSteps::Const => cast_over(state, const_word(alloc)?, of, node, front, one),
        CastSteps::Static => cast_over(state, static_word(alloc)?, of, node, front, one),
        CastSteps::Reinterpret => {
            cast_over(state, reinterpret_word(alloc)?, of, node, front, one)
        }
        CastSteps::StaticThenConst(middle) => {
            let word = static_word(alloc)?;
            two_casts(alloc, state, word, middle, of, node, front, one)
        }
        CastSteps::ReinterpretThenConst(middle) => {
            let word = reinterpret_word(alloc)?;
            two_casts(alloc, state, word, middle, of, node, front, one)
        }
    }
}

// ---- `(T)e` (5.4)

fn only_base(alloc: Global, state: &State, from: Operand, of: TypeId) -> Result<bool, Stop>
    requires from { from.of.0 < length (state.now).types }
    requires of { of.0 < length (state.now).types }
    ensures { Gives (λ only. only) result (Ok (bases.is_only_base (meaning state.now).graph (operand_at (state.now).types from) (type_of state.now of))) }
{
    match is_only_base(alloc, state, from, of) {
        Ok(only) => Ok(only),
        Err(_) => Err(Stop::OutOfMemory),
    }
}

// A static cast for which `(T)e` stands leads to no base that is ambiguous (4.10, 10.2).
fn steps_to_one(
    alloc: Global,
    state: &State,
    place: Place,
    from: Operand,
    of: TypeId,
    found: CastSteps,
) -> Result<(), Stop>
    requires from { from.of.0 < length (state.now).types }
    requires of { of.0 < length (state.now).types }
    requires found { IsStepsBelow (length (state.now).types) found }
    ensures { Gives (λ done. done) result (definition.steps_to_one (meaning state.now).graph place (operand_at (state.now).types from) (type_of state.now of) (cast_at (state.now).types found)) }
{
    match found {
        CastSteps::Static => one_base(alloc, state, place, from, of),
        CastSteps::StaticThenConst(middle) => one_base(alloc, state, place, from, middle),
        _ => Ok(()),
    }
}

// For which named casts it stands.
fn steps_found<Q: Questions>(
    alloc: Global,
    questions: &Q,
    state: &mut State,
    place: Place,
    from: Operand,
    of: TypeId,
) -> Result<CastSteps, Stop>
    requires ready { Q.is_ready questions.now }
    requires from { from.of.0 < length (state.old).types }
    requires of { of.0 < length (state.old).types }
    ensures { GrowsCast state.old state.new result (definition.found_at place (meaning_casts.cast (meaning state.old).graph (bases.is_only_base (meaning state.old).graph (operand_at (state.old).types from) (type_of state.old of)) (operand_at (state.old).types from) (type_of state.old of))) }
{
    let is_single = only_base(alloc, state, from, of)?;
    match questions.cast(state, is_single, from, of) {
        Ok(Some(found)) => Ok(found),
        Ok(None) => Err(Stop::Fault(no_fit(alloc, place)?)),
        Err(Wait::Needs(_)) => Err(Stop::Fault(not_built_at(alloc, place)?)),
        Err(Wait::OutOfMemory) => Err(Stop::OutOfMemory),
    }
}

#[tactic(auto, using(crate::proofs::Kept::later_trans, crate::proofs::Kept::operand_later, crate::proofs::Kept::operand_kept, crate::proofs::Kept::type_later, crate::proofs::Kept::type_kept), unfolding(crate::specs::Casts::explicit_found))]
fn explicit_found<Q: Questions>(
    alloc: Global,
    questions: &Q,
    state: &mut State,
    place: Place,
    from: Operand,
    of: TypeId,
) -> Result<CastSteps, Stop>
    requires ready { Q.is_ready questions.now }
    requires from { from.of.0 < length (state.old).types }
    requires of { of.0 < length (state.old).types }
    ensures { GrowsCast state.old state.new result (definition.explicit_found (meaning state.old).graph place (operand_at (state.old).types from) (type_of state.old of)) }
{
    let found = steps_found(alloc, questions, state, place, from, of)?;
    steps_to_one(alloc, state, place, from, of, found)?;
    Ok(found)
}

#[tactic(auto, using(crate::proofs::Kept::later_trans, crate::proofs::Kept::type_later, crate::proofs::Kept::type_kept))]
fn explicit_cast<Q: Questions>(
    alloc: Global,
    questions: &Q,
    state: &mut State,
    place: Place,
    of: TypeId,
    number: TreeId,
) -> Result<CastSteps, Stop>
    requires ready { Q.is_ready questions.now }
    requires of { of.0 < length (state.old).types }
    requires number { number.0 < length (trees state.old) }
    ensures { GrowsCast state.old state.new result (definition.explicit_found (meaning state.old).graph place (operands.judged_to (Q.asks questions.now) (type_of state.old of) (tree state.old number) (meaning state.old)) (type_of state.old of)) }
{
    let from = judged_to(questions, state, of, number)?;
    explicit_found(alloc, questions, state, place, from, of)
}

#[tactic(auto, using(crate::proofs::Kept::later_trans, crate::proofs::Kept::trees_later, crate::proofs::Kept::trees_kept, crate::proofs::Kept::tree_later, crate::proofs::Kept::tree_kept, crate::proofs::Kept::type_later, crate::proofs::Kept::type_kept, crate::proofs::NodeKept::node_later, crate::proofs::NodeKept::node_kept), unfolding(crate::specs::Casts::explicit_built))]
fn explicit_built<Q: Questions>(
    alloc: Global,
    questions: &Q,
    state: &mut State,
    of: TypeId,
    node: &Node,
    front: TreeIdList,
    one: TreeId,
) -> Result<TreeId, Stop>
    requires ready { Q.is_ready questions.now }
    requires of { of.0 < length (state.old).types }
    requires leads { type_of state.old of ≡ definition.target_of (node_tree state.old node.now) }
    requires node { IsNodeHeld state.old node.now }
    requires front { AreTreesHeld state.old front }
    requires one { one.0 < length (trees state.old) }
    ensures { IsAnswered tree IsTreeKnown state.old state.new result (definition.explicit_built (Q.asks questions.now) (node_tree state.old node.now) (trees_held state.old front) (tree state.old one) (meaning state.old)) }
{
    let found = explicit_cast(alloc, questions, state, node.place, of, one)?;
    explicit_tree(alloc, state, of, node, front, one, found)
}

fn is_to_class(state: &State, of: TypeId) -> bool
    requires { of.0 < length (state.now).types }
    ensures { result ≡ is_class_kind (kind_of_type (type_of state.now of)) }
{
    is_class(kind_of(state.graph(), state.types(), of))
}

// A cast to a reference makes no object of a class.
fn needs_class(state: &State, of: TypeId, one: TreeId) -> bool
    requires of { of.0 < length (state.now).types }
    requires one { one.0 < length (trees state.now) }
    ensures { result ≡ (not (is_reference_type (type_of state.now of)) && (operands.is_of_class (tree state.now one) || is_class_kind (kind_of_type (type_of state.now of)))) }
{
    !is_reference(state.types(), of) && (is_of_class(state, one) || is_to_class(state, of))
}

// No object is made of an incomplete class (9.2).
fn incomplete(alloc: Global, place: Place) -> Result<Box<Fault>, AllocError>
    ensures { IfOk result (λ at. Faulty at.value ≡ fault_of place says.IncompleteClass) }
{
    fault(alloc, place, FaultText::IncompleteClass)
}

// What constructors and conversion functions do is not read yet.
#[tactic(auto, unfolding(cxx_tree::specs::Held::meaning))]
fn class_fault(
    alloc: Global,
    state: &State,
    of: TypeId,
    place: Place,
) -> Result<Box<Fault>, AllocError>
    requires { of.0 < length (state.now).types }
    ensures { IfOk result (λ at. Faulty at.value ≡ definition.class_needed_at (meaning state.now).graph (type_of state.now of) place) }
{
    if is_incomplete(state.graph(), state.types(), of) {
        incomplete(alloc, place)
    } else {
        not_built_at(alloc, place)
    }
}

#[tactic(auto, using(crate::proofs::Kept::later_refl), unfolding(crate::specs::Casts::explicit))]
fn explicit_to<Q: Questions>(
    alloc: Global,
    questions: &Q,
    state: &mut State,
    of: TypeId,
    node: &Node,
    front: TreeIdList,
    one: TreeId,
) -> Result<TreeId, Stop>
    requires ready { Q.is_ready questions.now }
    requires of { of.0 < length (state.old).types }
    requires leads { type_of state.old of ≡ definition.target_of (node_tree state.old node.now) }
    requires node { IsNodeHeld state.old node.now }
    requires front { AreTreesHeld state.old front }
    requires one { one.0 < length (trees state.old) }
    ensures { IsAnswered tree IsTreeKnown state.old state.new result (definition.explicit (Q.asks questions.now) (node_tree state.old node.now) (trees_held state.old front) (tree state.old one) (meaning state.old)) }
{
    if needs_class(state, of, one) {
        return Err(Stop::Fault(class_fault(alloc, state, of, node.place)?));
    }
    explicit_built(alloc, questions, state, of, node, front, one)
}

// ---- the named casts

#[tactic(auto, using(crate::proofs::Kept::later_refl))]
fn named_by(
    alloc: Global,
    state: &mut State,
    word: Text,
    of: TypeId,
    node: &Node,
    front: TreeIdList,
    one: TreeId,
    allowed: bool,
) -> Result<TreeId, Stop>
    requires of { of.0 < length (state.old).types }
    requires leads { type_of state.old of ≡ definition.target_of (node_tree state.old node.now) }
    requires front { AreTreesHeld state.old front }
    requires one { one.0 < length (trees state.old) }
    ensures { IsAnswered tree IsTreeKnown state.old state.new result (definition.named_by word (node_tree state.old node.now) (trees_held state.old front) (tree state.old one) allowed (meaning state.old)) }
{
    if allowed {
        return cast_over(state, word, of, node, front, one);
    }
    Err(Stop::Fault(no_fit(alloc, node.place)?))
}

#[tactic(auto, unfolding(cxx_tree::specs::Held::meaning))]
fn static_allowed(
    alloc: Global,
    state: &State,
    is_single: bool,
    from: Operand,
    of: TypeId,
) -> Result<bool, Wait>
    requires from { from.of.0 < length (state.now).types }
    requires of { of.0 < length (state.now).types }
    ensures { WaitGives (λ x. x) result (meaning_casts.static_cast (meaning state.now).graph is_single (operand_at (state.now).types from) (type_of state.now of)) }
{
    static_cast(alloc, state.graph(), state.types(), is_single, from, of)
}

fn allowed_at(
    alloc: Global,
    state: &State,
    place: Place,
    from: Operand,
    of: TypeId,
) -> Result<bool, Stop>
    requires from { from.of.0 < length (state.now).types }
    requires of { of.0 < length (state.now).types }
    ensures { Gives (λ allowed. allowed) result (definition.allowed_at place (meaning_casts.static_cast (meaning state.now).graph (bases.is_only_base (meaning state.now).graph (operand_at (state.now).types from) (type_of state.now of)) (operand_at (state.now).types from) (type_of state.now of))) }
{
    let is_single = only_base(alloc, state, from, of)?;
    match static_allowed(alloc, state, is_single, from, of) {
        Ok(allowed) => Ok(allowed),
        Err(Wait::Needs(_)) => Err(Stop::Fault(not_built_at(alloc, place)?)),
        Err(Wait::OutOfMemory) => Err(Stop::OutOfMemory),
    }
}

// Where it is allowed it leads to no base that is ambiguous (4.10, 10.2).
fn leads_to_one(
    alloc: Global,
    state: &State,
    place: Place,
    from: Operand,
    of: TypeId,
    allowed: bool,
) -> Result<(), Stop>
    requires from { from.of.0 < length (state.now).types }
    requires of { of.0 < length (state.now).types }
    ensures { Gives (λ done. done) result (definition.leads_to_one (meaning state.now).graph place (operand_at (state.now).types from) (type_of state.now of) allowed) }
{
    if allowed {
        one_base(alloc, state, place, from, of)
    } else {
        Ok(())
    }
}

#[tactic(auto, unfolding(crate::specs::Casts::static_found))]
fn static_found(
    alloc: Global,
    state: &State,
    place: Place,
    from: Operand,
    of: TypeId,
) -> Result<bool, Stop>
    requires from { from.of.0 < length (state.now).types }
    requires of { of.0 < length (state.now).types }
    ensures { Gives (λ allowed. allowed) result (definition.static_found (meaning state.now).graph place (operand_at (state.now).types from) (type_of state.now of)) }
{
    let allowed = allowed_at(alloc, state, place, from, of)?;
    leads_to_one(alloc, state, place, from, of, allowed)?;
    Ok(allowed)
}

#[tactic(auto, using(crate::proofs::Kept::later_trans, crate::proofs::Kept::trees_later, crate::proofs::Kept::trees_kept, crate::proofs::Kept::tree_later, crate::proofs::Kept::tree_kept, crate::proofs::Kept::type_later, crate::proofs::Kept::type_kept, crate::proofs::NodeKept::node_kept), unfolding(crate::specs::Casts::static_built))]
fn static_built<Q: Questions>(
    alloc: Global,
    questions: &Q,
    state: &mut State,
    of: TypeId,
    node: &Node,
    front: TreeIdList,
    one: TreeId,
) -> Result<TreeId, Stop>
    requires ready { Q.is_ready questions.now }
    requires of { of.0 < length (state.old).types }
    requires leads { type_of state.old of ≡ definition.target_of (node_tree state.old node.now) }
    requires node { IsNodeHeld state.old node.now }
    requires front { AreTreesHeld state.old front }
    requires one { one.0 < length (trees state.old) }
    ensures { IsAnswered tree IsTreeKnown state.old state.new result (definition.static_built (Q.asks questions.now) (node_tree state.old node.now) (trees_held state.old front) (tree state.old one) (meaning state.old)) }
{
    let from = judged_to(questions, state, of, one)?;
    let allowed = static_found(alloc, state, node.place, from, of)?;
    let word = static_word(alloc)?;
    named_by(alloc, state, word, of, node, front, one, allowed)
}

#[tactic(auto, using(crate::proofs::Kept::later_refl), unfolding(crate::specs::Casts::static_cast_of))]
fn static_to<Q: Questions>(
    alloc: Global,
    questions: &Q,
    state: &mut State,
    of: TypeId,
    node: &Node,
    front: TreeIdList,
    one: TreeId,
) -> Result<TreeId, Stop>
    requires ready { Q.is_ready questions.now }
    requires of { of.0 < length (state.old).types }
    requires leads { type_of state.old of ≡ definition.target_of (node_tree state.old node.now) }
    requires node { IsNodeHeld state.old node.now }
    requires front { AreTreesHeld state.old front }
    requires one { one.0 < length (trees state.old) }
    ensures { IsAnswered tree IsTreeKnown state.old state.new result (definition.static_cast_of (Q.asks questions.now) (node_tree state.old node.now) (trees_held state.old front) (tree state.old one) (meaning state.old)) }
{
    if needs_class(state, of, one) {
        return Err(Stop::Fault(class_fault(alloc, state, of, node.place)?));
    }
    static_built(alloc, questions, state, of, node, front, one)
}

fn const_allowed(state: &State, from: Operand, of: TypeId) -> bool
    requires from { from.of.0 < length (state.now).types }
    requires of { of.0 < length (state.now).types }
    ensures { result ≡ meaning_casts.const_cast (operand_at (state.now).types from) (type_of state.now of) }
{
    const_cast(state.graph(), state.types(), from, of)
}

#[tactic(auto, using(crate::proofs::Kept::later_trans, crate::proofs::Kept::trees_later, crate::proofs::Kept::trees_kept, crate::proofs::Kept::tree_later, crate::proofs::Kept::tree_kept, crate::proofs::Kept::type_later, crate::proofs::Kept::type_kept, crate::proofs::NodeKept::node_kept), unfolding(crate::specs::Casts::constant))]
fn const_to(
    alloc: Global,
    state: &mut State,
    of: TypeId,
    node: &Node,
    front: TreeIdList,
    one: TreeId,
) -> Result<TreeId, Stop>
    requires of { of.0 < length (state.old).types }
    requires leads { type_of state.old of ≡ definition.target_of (node_tree state.old node.now) }
    requires node { IsNodeHeld state.old node.now }
    requires front { AreTreesHeld state.old front }
    requires one { one.0 < length (trees state.old) }
    ensures { IsAnswered tree IsTreeKnown state.old state.new result (definition.constant (node_tree state.old node.now) (trees_held state.old front) (tree state.old one) (meaning state.old)) }
{
    let from = operand_of(state, one)?;
    let allowed = const_allowed(state, from, of);
    let word = const_word(alloc)?;
    named_by(alloc, state, word, of, node, front, one, allowed)
}

fn reinterpret_allowed(state: &State, from: Operand, of: TypeId) -> bool
    requires from { from.of.0 < length (state.now).types }
    requires of { of.0 < length (state.now).types }
    ensures { result ≡ meaning_casts.reinterpret_cast (operand_at (state.now).types from) (type_of state.now of) }
{
    reinterpret_cast(state.graph(), state.types(), from, of)
}

#[tactic(auto, using(crate::proofs::Kept::later_trans, crate::proofs::Kept::trees_later, crate::proofs::Kept::trees_kept, crate::proofs::Kept::tree_later, crate::proofs::Kept::tree_kept, crate::proofs::Kept::type_later, crate::proofs::Kept::type_kept, crate::proofs::NodeKept::node_kept), unfolding(crate::specs::Casts::reinterpreted))]
fn reinterpret_to(
    alloc: Global,
    state: &mut State,
    of: TypeId,
    node: &Node,
    front: TreeIdList,
    one: TreeId,
) -> Result<TreeId, Stop>
    requires of { of.0 < length (state.old).types }
    requires leads { type_of state.old of ≡ definition.target_of (node_tree state.old node.now) }
    requires node { IsNodeHeld state.old node.now }
    requires front { AreTreesHeld state.old front }
    requires one { one.0 < length (trees state.old) }
    ensures { IsAnswered tree IsTreeKnown state.old state.new result (definition.reinterpreted (node_tree state.old node.now) (trees_held state.old front) (tree state.old one) (meaning state.old)) }
{
    let from = operand_of(state, one)?;
    let allowed = reinterpret_allowed(state, from, of);
    let word = reinterpret_word(alloc)?;
    named_by(alloc, state, word, of, node, front, one, allowed)
}

#[tactic(auto, unfolding(crate::specs::Casts::cast_as))]
fn cast_to<Q: Questions>(
    alloc: Global,
    questions: &Q,
    state: &mut State,
    of: TypeId,
    node: &Node,
    front: TreeIdList,
    one: TreeId,
) -> Result<TreeId, Stop>
    requires ready { Q.is_ready questions.now }
    requires of { of.0 < length (state.old).types }
    requires leads { type_of state.old of ≡ definition.target_of (node_tree state.old node.now) }
    requires node { IsNodeHeld state.old node.now }
    requires front { AreTreesHeld state.old front }
    requires one { one.0 < length (trees state.old) }
    ensures { IsAnswered tree IsTreeKnown state.old state.new result (definition.cast_as (Q.asks questions.now) (node_tree state.old node.now) (trees_held state.old front) (tree state.old one) (meaning state.old)) }
{
    if node.spelling.as_slice() == b"static_cast".as_slice() {
        static_to(alloc, questions, state, of, node, front, one)
    } else if node.spelling.as_slice() == b"const_cast".as_slice() {
        const_to(alloc, state, of, node, front, one)
    } else if node.spelling.as_slice() == b"reinterpret_cast".as_slice() {
        reinterpret_to(alloc, state, of, node, front, one)
    } else {
        explicit_to(alloc, questions, state, of, node, front, one)
    }
}

#[tactic(auto, using(crate::proofs::Kept::later_trans, crate::proofs::Kept::trees_later, crate::proofs::Kept::trees_kept, crate::proofs::Kept::tree_later, crate::proofs::Kept::tree_kept, crate::proofs::NodeKept::node_later, crate::proofs::NodeKept::node_kept))]
fn cast_split<Q: Questions>(
    alloc: Global,
    questions: &Q,
    state: &mut State,
    node: &Node,
    front: TreeIdList,
    one: TreeId,
) -> Result<TreeId, Stop>
    requires ready { Q.is_ready questions.now }
    requires node { IsNodeHeld state.old node.now }
    requires front { AreTreesHeld state.old front }
    requires one { one.0 < length (trees state.old) }
    ensures { IsAnswered tree IsTreeKnown state.old state.new result (definition.cast_as (Q.asks questions.now) (node_tree state.old node.now) (trees_held state.old front) (tree state.old one) (meaning state.old)) }
{
    let of = target_of(state, node)?;
    cast_to(alloc, questions, state, of, node, front, one)
}

/// A cast.
#[tactic(auto, using(crate::proofs::Kept::later_refl), unfolding(crate::specs::Casts::cast))]
pub fn cast<Q: Questions>(
    alloc: Global,
    questions: &Q,
    state: &mut State,
    node: Node,
) -> Result<TreeId, Stop>
    requires ready { Q.is_ready questions.now }
    requires node { IsNodeHeld state.old node }
    ensures { IsAnswered tree IsTreeKnown state.old state.new result (definition.cast (Q.asks questions.now) (node_tree state.old node) (meaning state.old)) }
{
    match split_children(alloc, state, &node)? {
        None => Err(Stop::Fault(misshapen(alloc, node.start)?)),
        Some((front, one)) => cast_split(alloc, questions, state, &node, front, one),
    }
}

// ---- `T(..)` (5.2.3)

fn has_zero(kind: TypeKind) -> bool
    ensures { (types : List CxxType) → result ≡ definition.has_zero (kind_at types kind) }
{
    match kind {
        TypeKind::Void => true,
        TypeKind::Arithmetic(_) => true,
        TypeKind::Enumeration(_) => true,
        TypeKind::Pointer(_) => true,
        _ => false,
    }
}

#[tactic(auto, using(crate::proofs::Kept::later_trans, crate::proofs::NodeKept::node_later, crate::proofs::NodeKept::node_kept))]
fn zero_tree(alloc: Global, state: &mut State, of: TypeId, node: Node) -> Result<TreeId, Stop>
    requires of { of.0 < length (state.old).types }
    requires leads { type_of state.old of ≡ definition.target_of (node_tree state.old node) }
    requires node { IsNodeHeld state.old node }
    ensures { GrowsTree state.old state.new result (definition.zero_tree (node_tree state.old node)) }
{
    let operand = value_operand(state, of)?;
    given_over(state, node, operand, Listed::new(alloc))
}

// Without an argument it is a zero of the type (8.5).
#[tactic(auto, using(crate::proofs::Kept::later_refl), unfolding(crate::specs::Casts::zero))]
fn zero(alloc: Global, state: &mut State, of: TypeId, node: Node) -> Result<TreeId, Stop>
    requires of { of.0 < length (state.old).types }
    requires leads { type_of state.old of ≡ definition.target_of (node_tree state.old node) }
    requires node { IsNodeHeld state.old node }
    ensures { IsAnswered tree IsTreeKnown state.old state.new result (definition.zero (node_tree state.old node) (meaning state.old)) }
{
    let kind = kind_of(state.graph(), state.types(), of);
    if is_class(kind) {
        return Err(Stop::Fault(class_fault(alloc, state, of, node.place)?));
    }
    if has_zero(kind) {
        return zero_tree(alloc, state, of, node);
    }
    Err(Stop::Fault(no_fit(alloc, node.place)?))
}

#[tactic(auto, using(crate::proofs::Kept::later_refl), unfolding(crate::specs::Casts::several))]
fn several(alloc: Global, state: &mut State, of: TypeId, node: &Node) -> Result<TreeId, Stop>
    requires of { of.0 < length (state.old).types }
    requires leads { type_of state.old of ≡ definition.target_of (node_tree state.old node.now) }
    ensures { IsAnswered tree IsTreeKnown state.old state.new result (definition.several (node_tree state.old node.now) (meaning state.old)) }
{
    if is_class(kind_of(state.graph(), state.types(), of)) {
        return Err(Stop::Fault(class_fault(alloc, state, of, node.place)?));
    }
    Err(Stop::Fault(no_fit(alloc, node.place)?))
}

#[tactic(auto, using(crate::proofs::Kept::below_at, crate::proofs::Splits::functional_none, crate::proofs::Splits::functional_one, crate::proofs::Splits::functional_more))]
fn functional_to<Q: Questions>(
    alloc: Global,
    questions: &Q,
    state: &mut State,
    of: TypeId,
    node: Node,
) -> Result<TreeId, Stop>
    requires ready { Q.is_ready questions.now }
    requires of { of.0 < length (state.old).types }
    requires leads { type_of state.old of ≡ definition.target_of (node_tree state.old node) }
    requires node { IsNodeHeld state.old node }
    ensures { IsAnswered tree IsTreeKnown state.old state.new result (definition.functional_of (Q.asks questions.now) (node_tree state.old node) (trees_held state.old node.children) (meaning state.old)) }
{
    let count = node.children.as_slice().len();
    if count == 0 {
        return zero(alloc, state, of, node);
    }
    if count == 1 {
        let one = node.children.as_slice()[0];
        return explicit_to(alloc, questions, state, of, &node, Listed::new(alloc), one);
    }
    several(alloc, state, of, &node)
}

/// A type and arguments in brackets.
#[tactic(auto, using(crate::proofs::Kept::later_trans, crate::proofs::NodeKept::node_later, crate::proofs::NodeKept::node_kept, crate::proofs::NodeKept::children_are, crate::proofs::Kept::trees_kept), unfolding(crate::specs::Casts::functional))]
pub fn functional<Q: Questions>(
    alloc: Global,
    questions: &Q,
    state: &mut State,
    node: Node,
) -> Result<TreeId, Stop>
    requires ready { Q.is_ready questions.now }
    requires node { IsNodeHeld state.old node }
    ensures { IsAnswered tree IsTreeKnown state.old state.new result (definition.functional (Q.asks questions.now) (node_tree state.old node) (meaning state.old)) }
{
    let of = target_of(state, &node)?;
    functional_to(alloc, questions, state, of, node)
}
