//! Calls (5.2.2).

ghost use Rattle.std.specs.Prelude.{ℕ, List, ◌≡◌, ◌<◌, ◌-◌, [], length, IfOk, Some};
ghost use Rattle.cxx_model.specs.Facts.Declarations.{declares_at, type_of_option};
ghost use Rattle.cxx_model.specs.Facts.Fitted.{IsTypeNumberBelow};
ghost use Rattle.cxx_model.specs.Facts.Graph.{IsClassNumberInRange};
ghost use Rattle.cxx_model.specs.Stops.{Faulty};
ghost use Rattle.cxx_model.specs.Types.Numbers.{type_at};
ghost use Rattle.cxx_model.specs.Types.Trees.{CxxType, class_type};
ghost use Rattle.cxx_meaning.specs.Lookups.Wanted as wanted;
ghost use Rattle.cxx_tree.specs.Answered.{IsAnswered};
ghost use Rattle.cxx_reading.specs.Plain.{target_or};
ghost use Rattle.cxx_this.specs.This.{class_at, class_or_none};
ghost use Rattle.cxx_tree.specs.Arena.{label_at, number_of_option, path_at};
ghost use Rattle.cxx_tree.specs.Held.{Held, meaning, tree, trees, type_of};
ghost use Rattle.cxx_expr.specs.Calls as definition;
ghost use Rattle.cxx_expr.specs.Making.{AddsOperand, AreTreesHeld, Gathers, GrowsOperands, GrowsTree, IsTreeKnown, trees_held};
ghost use Rattle.cxx_expr.specs.Names as names;
ghost use Rattle.cxx_expr.specs.Nodes.{IsNodeHeld, node_tree};
ghost use Rattle.cxx_expr.specs.Operands as operands_of;
ghost use Rattle.cxx_expr.specs.Views.{AreFactsKnown, AreOperandsBelow, IsChosen, chosen_of, numbered, question_of};
ghost use Rattle.cxx_expr.specs.declared.production.TheConstants as production;
ghost use Rattle.cxx_called.specs.Tails as tails;
ghost use Rattle.cxx_called.specs.Tails.{GrowsNode, IsFirstSplit, first_split};
ghost use Rattle.cxx_called.specs.Views.{asked_of, IsFoundBelow, IsSignatureBelow, found_signature, signature_at};

use crate::bases::based;
use crate::classes::{qualified, written};
use crate::facts::{fact_at, is_function, values_among};
use crate::implied::{named_here, object_for, object_tree};
use crate::members::{class_of_type, declared_member, naming};
use crate::names::{declared, is_plain, means_object, no_path, place_in, type_of_class, word_in};
use crate::signatures::{Signature, called_signature, fits_count};
use cxx_cursor::joined;
use cxx_expr::conditional::is_of_class;
use cxx_expr::converting::{convert_each, push};
use cxx_expr::faults::{fault, not_built_at};
use cxx_expr::nodes::given_over;
use cxx_expr::operands::{judged, operand_of, result_operand};
use cxx_expr::operators::{listed_one, misshapen, no_fit};
use cxx_expr::production::{ARROW, MEMBER, NAME};
use cxx_expr::{Chosen, Questions, class_of_scope, is_function_at, node_of, static_class};
use cxx_model::{
    ClassId, ConstantKind, Entity, FactId, Fault, FaultText, Listed, Node, Operand, OperandList,
    Path, PathPart, Place, ScopeId, Stop, Text, TreeId, TreeIdList, TypeId, Word,
};
use cxx_tree::State;
use std::alloc::{AllocError, Global};

// ---- default arguments (8.3.6)

// One more behind other arguments.
#[tactic(auto, using(cxx_expr::proofs::Kept::trees_more, cxx_expr::proofs::Kept::trees_below_more, cxx_expr::proofs::Kept::trees_later, cxx_expr::proofs::Kept::trees_kept), unfolding(cxx_expr::specs::Calls::fallback_more))]
fn fallback_more<Q: Questions>(
    questions: &Q,
    state: &mut State,
    path: &Path,
    target: FactId,
    index: usize,
    done: &mut TreeIdList,
) -> Result<(), Stop>
    requires ready { Q.is_ready questions.now }
    requires done { AreTreesHeld state.old done.old }
    ensures { Gathers done.new state.old state.new result (definition.fallback_more (Q.asks questions.now) (path_at path.now) target.0 index (trees_held state.old done.old) (meaning state.old)) }
{
    let next = questions.fallback(state, path, target, index)?;
    Ok(done.push(next)?)
}

// The default arguments of the parameters from an index up to an end.
#[tactic(auto, using(cxx_expr::proofs::Kept::later_refl, cxx_expr::proofs::Kept::later_trans, cxx_expr::proofs::Each::fallbacks_end, cxx_expr::proofs::Each::fallbacks_fails))]
fn fallbacks<Q: Questions>(
    questions: &Q,
    state: &mut State,
    path: &Path,
    target: FactId,
    begin: usize,
    done: TreeIdList,
    end: usize,
) -> Result<TreeIdList, Stop>
    requires ready { Q.is_ready questions.now }
    requires done { AreTreesHeld state.old done }
    ensures { IsAnswered trees_held AreTreesHeld state.old state.new result (definition.fallbacks (Q.asks questions.now) (path_at path.now) target.0 begin (trees_held state.old done) (end - begin) (meaning state.old)) }
{
    let mut done = done;
    for index in begin..end {
        fallback_more(questions, state, path, target, index, &mut done)?;
    }
    Ok(done)
}

// The same, of a call by the name of a node.
fn left_out<Q: Questions>(
    questions: &Q,
    state: &mut State,
    node: &Node,
    target: FactId,
    begin: usize,
    done: TreeIdList,
    end: usize,
) -> Result<TreeIdList, Stop>
    requires ready { Q.is_ready questions.now }
    requires done { AreTreesHeld state.old done }
    ensures { IsAnswered trees_held AreTreesHeld state.old state.new result (definition.fallbacks (Q.asks questions.now) (names.path_in (label_at (state.old).types node.now)) target.0 begin (trees_held state.old done) (end - begin) (meaning state.old)) }
{
    match &node.path {
        Some(path) => fallbacks(questions, state, path, target, begin, done, end),
        None => {
            let path = no_path(state.alloc());
            fallbacks(questions, state, &path, target, begin, done, end)
        }
    }
}

// ---- a call of a function by its name (13.3.1.1.1)

#[tactic(auto, using(cxx_expr::proofs::Kept::later_trans, cxx_expr::proofs::NodeKept::node_later, cxx_expr::proofs::NodeKept::node_kept, cxx_expr::proofs::Kept::trees_later, cxx_expr::proofs::Kept::trees_kept))]
fn chosen_tree(
    state: &mut State,
    node: Node,
    chosen: &Chosen,
    class: Option<TypeId>,
    arguments: TreeIdList,
) -> Result<TreeId, Stop>
    requires node { IsNodeHeld state.old node }
    requires chosen { IsChosen state.old chosen.now }
    requires arguments { AreTreesHeld state.old arguments }
    requires class { IsTypeNumberBelow (length (state.old).types) class }
    ensures { GrowsTree state.old state.new result (definition.chosen_tree (node_tree state.old node) (chosen_of state.old chosen.now) (type_of_option (state.old).types class) (trees_held state.old arguments)) }
{
    let operand = result_operand(state, chosen.result)?;
    let mut node = node;
    node.of = class;
    node.target = Some(chosen.target);
    node.call = Some(chosen.number);
    given_over(state, node, operand, arguments)
}

// The same of a static member of a class (9.4).
#[tactic(auto, using(cxx_expr::proofs::Kept::later_trans, cxx_expr::proofs::NodeKept::node_later, cxx_expr::proofs::NodeKept::node_kept, cxx_expr::proofs::Kept::trees_later, cxx_expr::proofs::Kept::trees_kept, crate::proofs::Chosen::chosen_later, crate::proofs::Chosen::chosen_kept))]
fn chosen_in(
    state: &mut State,
    node: Node,
    chosen: &Chosen,
    class: ClassId,
    arguments: TreeIdList,
) -> Result<TreeId, Stop>
    requires node { IsNodeHeld state.old node }
    requires chosen { IsChosen state.old chosen.now }
    requires class { class.0 < length (state.old).graph.classes }
    requires arguments { AreTreesHeld state.old arguments }
    ensures { GrowsTree state.old state.new result (definition.chosen_tree (node_tree state.old node) (chosen_of state.old chosen.now) (Some (class_type class.0)) (trees_held state.old arguments)) }
{
    let of = type_of_class(state, class)?;
    chosen_tree(state, node, chosen, Some(of), arguments)
}

// The same with its class, where the function is a static member.
fn chosen_as(
    state: &mut State,
    node: Node,
    chosen: &Chosen,
    arguments: TreeIdList,
) -> Result<TreeId, Stop>
    requires node { IsNodeHeld state.old node }
    requires chosen { IsChosen state.old chosen.now }
    requires arguments { AreTreesHeld state.old arguments }
    ensures { GrowsTree state.old state.new result (definition.chosen_tree (node_tree state.old node) (chosen_of state.old chosen.now) (names.static_class (meaning state.old).graph chosen.now.target.0) (trees_held state.old arguments)) }
{
    match static_class(state, chosen.target) {
        Some(class) => chosen_in(state, node, chosen, class, arguments),
        None => chosen_tree(state, node, chosen, None, arguments),
    }
}

// Once the default arguments behind the arguments are there.
#[tactic(auto, using(cxx_expr::proofs::Kept::later_trans, cxx_expr::proofs::NodeKept::node_later, cxx_expr::proofs::NodeKept::node_kept, cxx_expr::proofs::Kept::trees_later, cxx_expr::proofs::Kept::trees_kept, cxx_expr::proofs::Kept::trees_more, cxx_expr::proofs::Kept::trees_below_more, crate::proofs::Chosen::chosen_later, crate::proofs::Chosen::chosen_kept), unfolding(crate::specs::Tails::converted))]
fn converted<Q: Questions>(
    alloc: Global,
    questions: &Q,
    state: &mut State,
    node: Node,
    arguments: &[TreeId],
    chosen: &Chosen,
    behind: TreeIdList,
) -> Result<TreeId, Stop>
    requires ready { Q.is_ready questions.now }
    requires node { IsNodeHeld state.old node }
    requires arguments { AreTreesHeld state.old arguments.now }
    requires chosen { IsChosen state.old chosen.now }
    requires behind { AreTreesHeld state.old behind }
    ensures { IsAnswered tree IsTreeKnown state.old state.new result (tails.converted (Q.asks questions.now) (node_tree state.old node) (trees_held state.old arguments.now) (chosen_of state.old chosen.now) (trees_held state.old behind) (meaning state.old)) }
{
    let given = convert_each(
        alloc,
        questions,
        state,
        node.place,
        chosen.parameters.as_slice(),
        Listed::new(alloc),
        arguments,
    )?;
    let all = joined(given, behind)?;
    chosen_as(state, node, chosen, all)
}

// Once the function is noted.
#[tactic(auto, using(cxx_expr::proofs::Kept::later_trans, cxx_expr::proofs::NodeKept::node_later, cxx_expr::proofs::NodeKept::node_kept, cxx_expr::proofs::Kept::trees_later, cxx_expr::proofs::Kept::trees_kept, crate::proofs::Chosen::chosen_later, crate::proofs::Chosen::chosen_kept, crate::proofs::Signed::types_length, crate::proofs::Signed::trees_length), unfolding(crate::specs::Tails::filled, crate::specs::Tails::converted))]
fn filled<Q: Questions>(
    alloc: Global,
    questions: &Q,
    state: &mut State,
    node: Node,
    arguments: &[TreeId],
    chosen: &Chosen,
) -> Result<TreeId, Stop>
    requires ready { Q.is_ready questions.now }
    requires node { IsNodeHeld state.old node }
    requires arguments { AreTreesHeld state.old arguments.now }
    requires chosen { IsChosen state.old chosen.now }
    ensures { IsAnswered tree IsTreeKnown state.old state.new result (tails.filled (Q.asks questions.now) (node_tree state.old node) (trees_held state.old arguments.now) (chosen_of state.old chosen.now) (meaning state.old)) }
{
    let count = arguments.len();
    let end = chosen.parameters.len();
    let none = Listed::new(alloc);
    let behind = left_out(questions, state, &node, chosen.target, count, none, end)?;
    converted(alloc, questions, state, node, arguments, chosen, behind)
}

// What the call is once it is known which function it means.
#[tactic(auto, using(cxx_expr::proofs::Kept::later_trans, cxx_expr::proofs::NodeKept::node_later, cxx_expr::proofs::NodeKept::node_kept, cxx_expr::proofs::Kept::trees_later, cxx_expr::proofs::Kept::trees_kept, crate::proofs::Chosen::chosen_later, crate::proofs::Chosen::chosen_kept), unfolding(cxx_expr::specs::Calls::chosen_call, crate::specs::Tails::filled, crate::specs::Tails::converted))]
fn chosen_call<Q: Questions>(
    alloc: Global,
    questions: &Q,
    state: &mut State,
    node: Node,
    arguments: &[TreeId],
    chosen: Chosen,
) -> Result<TreeId, Stop>
    requires ready { Q.is_ready questions.now }
    requires node { IsNodeHeld state.old node }
    requires arguments { AreTreesHeld state.old arguments.now }
    requires chosen { IsChosen state.old chosen }
    ensures { IsAnswered tree IsTreeKnown state.old state.new result (definition.chosen_call (Q.asks questions.now) (node_tree state.old node) (trees_held state.old arguments.now) (chosen_of state.old chosen) (meaning state.old)) }
{
    questions.bound(state, node.place, chosen.target)?;
    filled(alloc, questions, state, node, arguments, &chosen)
}

#[tactic(auto, using(crate::proofs::Judged::operands_more, crate::proofs::Judged::operands_below_more, crate::proofs::Judged::operands_kept, crate::proofs::Judged::operands_later))]
fn push_judged<Q: Questions>(
    questions: &Q,
    state: &mut State,
    found: &mut OperandList,
    number: TreeId,
) -> Result<(), Stop>
    requires ready { Q.is_ready questions.now }
    requires before { AreOperandsBelow (length (state.old).types) found.old }
    requires number { number.0 < length (trees state.old) }
    ensures { AddsOperand found.old found.new state.old state.new result (operands_of.judged (Q.asks questions.now) (tree state.old number) (meaning state.old)) }
{
    let operand = judged(questions, state, number)?;
    Ok(found.push(operand)?)
}

// What each of some expressions gives, where it matters whether it is a null pointer constant.
#[tactic(auto, using(cxx_expr::proofs::Kept::later_refl, cxx_expr::proofs::Kept::later_trans, cxx_expr::proofs::Kept::there_at, crate::proofs::Judged::judged_end))]
fn judged_each<Q: Questions>(
    alloc: Global,
    questions: &Q,
    state: &mut State,
    numbers: &[TreeId],
) -> Result<OperandList, Stop>
    requires ready { Q.is_ready questions.now }
    requires numbers { AreTreesHeld state.old numbers.now }
    ensures { GrowsOperands state.old state.new result (operands_of.judged_each (Q.asks questions.now) (trees_held state.old numbers.now) (meaning state.old)) }
{
    let mut found = Listed::new(alloc);
    for number in numbers {
        push_judged(questions, state, &mut found, *number)?;
    }
    Ok(found)
}

fn is_none_left(spelling: &[u8]) -> bool
    ensures { result ≡ names.is_none_left spelling.now }
{
    match spelling {
        [] => true,
        _ => false,
    }
}

// Whether the name that is called stands in no brackets and has no qualifiers (3.4.2).
fn is_bare(node: &Node) -> bool
    ensures { result ≡ definition.is_bare (label_at [] node.now) }
{
    is_none_left(node.spelling.as_slice()) && is_plain(node)
}

// Which function the call means.
fn asked<Q: Questions>(
    questions: &Q,
    state: &mut State,
    node: &Node,
    functions: &[FactId],
    operands: OperandList,
) -> Result<Chosen, Stop>
    requires ready { Q.is_ready questions.now }
    requires functions { AreFactsKnown state.old functions.now }
    requires operands { AreOperandsBelow (length (state.old).types) operands }
    ensures { IsAnswered chosen_of IsChosen state.old state.new result ((Q.asks questions.now).call (question_of state.old (node.now).place (definition.is_bare (label_at (state.old).types node.now)) (names.word_in (label_at (state.old).types node.now)).word functions.now operands) (meaning state.old)) }
{
    questions.call(
        state,
        node.place,
        is_bare(node),
        word_in(node),
        functions,
        operands,
    )
}

// The question of a call, by what its arguments give.
#[tactic(auto, using(cxx_expr::proofs::Kept::later_trans, crate::proofs::Judged::question_is, crate::proofs::Judged::facts_known))]
fn question<Q: Questions>(
    alloc: Global,
    questions: &Q,
    state: &mut State,
    node: &Node,
    functions: &[FactId],
    arguments: &[TreeId],
) -> Result<Chosen, Stop>
    requires ready { Q.is_ready questions.now }
    requires functions { AreFactsKnown state.old functions.now }
    requires arguments { AreTreesHeld state.old arguments.now }
    ensures { IsAnswered chosen_of IsChosen state.old state.new result ((Q.asks questions.now).call (definition.question (Q.asks questions.now) (label_at (state.old).types node.now) (numbered state.old functions.now) (trees_held state.old arguments.now) (meaning state.old)) (meaning state.old)) }
{
    let operands = judged_each(alloc, questions, state, arguments)?;
    asked(questions, state, node, functions, operands)
}

#[tactic(auto, using(cxx_expr::proofs::Kept::later_trans, cxx_expr::proofs::NodeKept::node_later, cxx_expr::proofs::NodeKept::node_kept, cxx_expr::proofs::Kept::trees_later, cxx_expr::proofs::Kept::trees_kept), unfolding(cxx_expr::specs::Calls::function_call))]
fn function_call<Q: Questions>(
    alloc: Global,
    questions: &Q,
    state: &mut State,
    node: Node,
    functions: &[FactId],
    arguments: &[TreeId],
) -> Result<TreeId, Stop>
    requires ready { Q.is_ready questions.now }
    requires node { IsNodeHeld state.old node }
    requires functions { AreFactsKnown state.old functions.now }
    requires arguments { AreTreesHeld state.old arguments.now }
    ensures { IsAnswered tree IsTreeKnown state.old state.new result (definition.function_call (Q.asks questions.now) (node_tree state.old node) (numbered state.old functions.now) (trees_held state.old arguments.now) (meaning state.old)) }
{
    let chosen = question(alloc, questions, state, &node, functions, arguments)?;
    chosen_call(alloc, questions, state, node, arguments, chosen)
}

// ---- a call of what an expression gives

// Over what is called and the arguments behind it.
#[tactic(auto, using(cxx_expr::proofs::Kept::later_trans, cxx_expr::proofs::NodeKept::node_later, cxx_expr::proofs::NodeKept::node_kept, cxx_expr::proofs::Kept::trees_later, cxx_expr::proofs::Kept::trees_kept))]
fn through_tree(
    state: &mut State,
    node: Node,
    gives: TypeId,
    parts: TreeIdList,
) -> Result<TreeId, Stop>
    requires node { IsNodeHeld state.old node }
    requires gives { gives.0 < length (state.old).types }
    requires parts { AreTreesHeld state.old parts }
    ensures { GrowsTree state.old state.new result (definition.through_tree (node_tree state.old node) (type_of state.old gives) (trees_held state.old parts)) }
{
    let operand = result_operand(state, gives)?;
    let mut node = node;
    node.place = node.start;
    given_over(state, node, operand, parts)
}

#[tactic(auto, using(cxx_expr::proofs::Kept::later_trans, cxx_expr::proofs::NodeKept::node_later, cxx_expr::proofs::NodeKept::node_kept, cxx_expr::proofs::Kept::type_later, cxx_expr::proofs::Kept::type_kept), unfolding(cxx_expr::specs::Calls::through_signature))]
fn through_signature<Q: Questions>(
    alloc: Global,
    questions: &Q,
    state: &mut State,
    node: Node,
    callee: TreeId,
    arguments: &[TreeId],
    signature: Signature,
) -> Result<TreeId, Stop>
    requires ready { Q.is_ready questions.now }
    requires node { IsNodeHeld state.old node }
    requires callee { callee.0 < length (trees state.old) }
    requires arguments { AreTreesHeld state.old arguments.now }
    requires signature { IsSignatureBelow (length (state.old).types) signature }
    ensures { IsAnswered tree IsTreeKnown state.old state.new result (definition.through_signature (Q.asks questions.now) (node_tree state.old node) (tree state.old callee) (trees_held state.old arguments.now) (signature_at (state.old).types signature) (meaning state.old)) }
{
    let before = listed_one(alloc, callee)?;
    let parts = convert_each(
        alloc,
        questions,
        state,
        node.start,
        signature.parameters.as_slice(),
        before,
        arguments,
    )?;
    through_tree(state, node, signature.result, parts)
}

#[tactic(auto, using(cxx_expr::proofs::Kept::later_refl, crate::proofs::Signed::trees_length))]
fn through_counted<Q: Questions>(
    alloc: Global,
    questions: &Q,
    state: &mut State,
    node: Node,
    callee: TreeId,
    arguments: &[TreeId],
    signature: Signature,
) -> Result<TreeId, Stop>
    requires ready { Q.is_ready questions.now }
    requires node { IsNodeHeld state.old node }
    requires callee { callee.0 < length (trees state.old) }
    requires arguments { AreTreesHeld state.old arguments.now }
    requires signature { IsSignatureBelow (length (state.old).types) signature }
    ensures { IsAnswered tree IsTreeKnown state.old state.new result (definition.through_counted (Q.asks questions.now) (node_tree state.old node) (tree state.old callee) (trees_held state.old arguments.now) (signature_at (state.old).types signature) (meaning state.old)) }
{
    if fits_count(&signature, arguments.len()) {
        return through_signature(alloc, questions, state, node, callee, arguments, signature);
    }
    Err(Stop::Fault(fault(alloc, node.start, FaultText::NoConversion)?))
}

// The operator of a class that is called is not read yet; else there is nothing to call.
fn no_callee(
    alloc: Global,
    state: &State,
    start: Place,
    callee: TreeId,
) -> Result<Box<Fault>, AllocError>
    requires { callee.0 < length (trees state.now) }
    ensures { IfOk result (λ at. Faulty at.value ≡ definition.no_callee start (tree state.now callee)) }
{
    if is_of_class(state, callee) {
        not_built_at(alloc, start)
    } else {
        no_fit(alloc, start)
    }
}

#[tactic(auto, using(cxx_expr::proofs::Kept::later_refl))]
fn through_by<Q: Questions>(
    alloc: Global,
    questions: &Q,
    state: &mut State,
    node: Node,
    callee: TreeId,
    arguments: &[TreeId],
    found: Option<Signature>,
) -> Result<TreeId, Stop>
    requires ready { Q.is_ready questions.now }
    requires node { IsNodeHeld state.old node }
    requires callee { callee.0 < length (trees state.old) }
    requires arguments { AreTreesHeld state.old arguments.now }
    requires found { IsFoundBelow (length (state.old).types) found }
    ensures { IsAnswered tree IsTreeKnown state.old state.new result (definition.through_by (Q.asks questions.now) (node_tree state.old node) (tree state.old callee) (trees_held state.old arguments.now) (found_signature (state.old).types found) (meaning state.old)) }
{
    match found {
        Some(signature) => {
            through_counted(alloc, questions, state, node, callee, arguments, signature)
        }
        None => Err(Stop::Fault(no_callee(alloc, state, node.start, callee)?)),
    }
}

// A call of what an expression gives.
#[tactic(auto, using(cxx_expr::proofs::Kept::later_trans, cxx_expr::proofs::NodeKept::node_later, cxx_expr::proofs::NodeKept::node_kept, cxx_expr::proofs::Kept::trees_later, cxx_expr::proofs::Kept::trees_kept, cxx_expr::proofs::Kept::tree_later, cxx_expr::proofs::Kept::tree_kept), unfolding(cxx_expr::specs::Calls::through))]
fn through<Q: Questions>(
    alloc: Global,
    questions: &Q,
    state: &mut State,
    node: Node,
    callee: TreeId,
    arguments: &[TreeId],
) -> Result<TreeId, Stop>
    requires ready { Q.is_ready questions.now }
    requires node { IsNodeHeld state.old node }
    requires callee { callee.0 < length (trees state.old) }
    requires arguments { AreTreesHeld state.old arguments.now }
    ensures { IsAnswered tree IsTreeKnown state.old state.new result (definition.through (Q.asks questions.now) (node_tree state.old node) (tree state.old callee) (trees_held state.old arguments.now) (meaning state.old)) }
{
    let operand = operand_of(state, callee)?;
    let found = called_signature(alloc, state, operand)?;
    through_by(alloc, questions, state, node, callee, arguments, found)
}

// ---- a call by a name

// The name reaches up to the arguments.
fn behind_called(state: &State, node: &Node, arguments: &[TreeId]) -> u32
    requires { AreTreesHeld state.now arguments.now }
    ensures { result ≡ definition.behind_called (label_at (state.now).types node.now) (trees_held state.now arguments.now) }
{
    match arguments {
        [] => node.last,
        [one, ..] => state.node(*one).first,
    }
}

// The name that is called, up to the tokens that are left behind it, and the call without it.
fn apart(alloc: Global, node: Node, last: u32) -> (Node, Node)
    ensures name { (held : Held) → (node_tree held result.0).label ≡ record (label_at held.types node) { production = production.NAME; spelling = []; last = last } }
    ensures call { (held : Held) → node_tree held result.1 ≡ definition.without_name (node_tree held node) }
    ensures name_held { (held : Held) → IsNodeHeld held node → IsNodeHeld held result.0 }
    ensures call_held { (held : Held) → IsNodeHeld held node → IsNodeHeld held result.1 }
{
    let mut call = node;
    let path = call.path.take();
    call.spelling = Listed::new(alloc);
    let name = Node {
        production: NAME,
        children: Listed::new(alloc),
        first: call.first,
        last,
        start: call.start,
        place: call.place,
        path,
        operand: call.operand,
        of: call.of,
        target: call.target,
        call: call.call,
        spelling: Listed::new(alloc),
    };
    (name, call)
}

// A call of what a name gives that is an expression of its own.
#[tactic(auto, using(cxx_expr::proofs::Kept::later_trans, cxx_expr::proofs::NodeKept::node_later, cxx_expr::proofs::NodeKept::node_kept, cxx_expr::proofs::Kept::trees_later, cxx_expr::proofs::Kept::trees_kept), unfolding(cxx_expr::specs::Calls::value_call))]
fn value_call<Q: Questions>(
    alloc: Global,
    questions: &Q,
    state: &mut State,
    node: Node,
    all: &[FactId],
    arguments: &[TreeId],
) -> Result<TreeId, Stop>
    requires ready { Q.is_ready questions.now }
    requires node { IsNodeHeld state.old node }
    requires all { AreFactsKnown state.old all.now }
    requires arguments { AreTreesHeld state.old arguments.now }
    ensures { IsAnswered tree IsTreeKnown state.old state.new result (definition.value_call (Q.asks questions.now) (node_tree state.old node) (numbered state.old all.now) (trees_held state.old arguments.now) (meaning state.old)) }
{
    let last = behind_called(state, &node, arguments);
    let (name, call) = apart(alloc, node, last);
    let callee = named_here(alloc, questions, state, name, all)?;
    through(alloc, questions, state, call, callee, arguments)
}

#[tactic(auto, unfolding(cxx_tree::specs::Held::meaning))]
fn is_called(state: &State, what: Entity) -> bool
    ensures { result ≡ wanted.is_function (meaning state.now).graph (declares_at (state.now).types what) }
{
    is_function(state.graph(), what)
}

// Whether a bare name means nothing where it stands (3.4.2).
#[tactic(auto, using(crate::proofs::Declared::asked_none, crate::proofs::Declared::asked_some))]
fn is_asked_for(state: &State, node: &Node, all: &[FactId]) -> bool
    requires { AreFactsKnown state.now all.now }
    ensures { result ≡ definition.is_asked_for (label_at (state.now).types node.now) (numbered state.now all.now) }
{
    let _ = state;
    match all {
        [] => is_bare(node),
        _ => false,
    }
}

// Where nothing hides the types of its scope: a name that means nothing is looked for by the arguments.
fn called_none<Q: Questions>(
    alloc: Global,
    questions: &Q,
    state: &mut State,
    node: Node,
    all: &[FactId],
    arguments: &[TreeId],
) -> Result<TreeId, Stop>
    requires ready { Q.is_ready questions.now }
    requires node { IsNodeHeld state.old node }
    requires all { AreFactsKnown state.old all.now }
    requires arguments { AreTreesHeld state.old arguments.now }
    ensures { IsAnswered tree IsTreeKnown state.old state.new result (definition.called_first (Q.asks questions.now) (node_tree state.old node) (numbered state.old all.now) (trees_held state.old arguments.now) [] (meaning state.old)) }
{
    if is_asked_for(state, &node, all) {
        function_call(alloc, questions, state, node, &[], arguments)
    } else {
        value_call(alloc, questions, state, node, all, arguments)
    }
}

#[tactic(auto, using(crate::proofs::Declared::called_value, crate::proofs::Declared::called_function))]
fn called_first<Q: Questions>(
    alloc: Global,
    questions: &Q,
    state: &mut State,
    node: Node,
    all: &[FactId],
    arguments: &[TreeId],
    values: &[FactId],
) -> Result<TreeId, Stop>
    requires ready { Q.is_ready questions.now }
    requires node { IsNodeHeld state.old node }
    requires all { AreFactsKnown state.old all.now }
    requires arguments { AreTreesHeld state.old arguments.now }
    requires values { AreFactsKnown state.old values.now }
    ensures { IsAnswered tree IsTreeKnown state.old state.new result (definition.called_first (Q.asks questions.now) (node_tree state.old node) (numbered state.old all.now) (trees_held state.old arguments.now) (numbered state.old values.now) (meaning state.old)) }
{
    match values {
        [] => called_none(alloc, questions, state, node, all, arguments),
        [one, ..] => {
            let fact = fact_at(state, *one);
            let (scope, what) = (fact.scope, fact.what);
            if is_called(state, what) {
                let class = class_called(state, scope);
                functions_called(
                    alloc, questions, state, node, values, arguments, scope, class,
                )
            } else {
                value_call(alloc, questions, state, node, all, arguments)
            }
        }
    }
}

// A name that has these declarations is called.
#[tactic(auto, using(cxx_expr::proofs::Kept::later_refl), unfolding(cxx_expr::specs::Calls::called))]
fn called<Q: Questions>(
    alloc: Global,
    questions: &Q,
    state: &mut State,
    node: Node,
    arguments: &[TreeId],
    all: &[FactId],
) -> Result<TreeId, Stop>
    requires ready { Q.is_ready questions.now }
    requires node { IsNodeHeld state.old node }
    requires arguments { AreTreesHeld state.old arguments.now }
    requires all { AreFactsKnown state.old all.now }
    ensures { IsAnswered tree IsTreeKnown state.old state.new result (definition.called (Q.asks questions.now) (node_tree state.old node) (trees_held state.old arguments.now) (numbered state.old all.now) (meaning state.old)) }
{
    let values = values_among(alloc, state, all)?;
    called_first(
        alloc,
        questions,
        state,
        node,
        all,
        arguments,
        values.as_slice(),
    )
}

#[tactic(auto, using(cxx_expr::proofs::Kept::later_trans, cxx_expr::proofs::NodeKept::node_later, cxx_expr::proofs::NodeKept::node_kept, cxx_expr::proofs::Kept::trees_later, cxx_expr::proofs::Kept::trees_kept), unfolding(cxx_expr::specs::Calls::name_call))]
fn name_call<Q: Questions>(
    alloc: Global,
    questions: &Q,
    state: &mut State,
    node: Node,
    arguments: &[TreeId],
) -> Result<TreeId, Stop>
    requires ready { Q.is_ready questions.now }
    requires node { IsNodeHeld state.old node }
    requires arguments { AreTreesHeld state.old arguments.now }
    ensures { IsAnswered tree IsTreeKnown state.old state.new result (definition.name_call (Q.asks questions.now) (node_tree state.old node) (trees_held state.old arguments.now) (meaning state.old)) }
{
    let all = declared(alloc, questions, state, &node)?;
    called(alloc, questions, state, node, arguments, all.as_slice())
}

// ---- a call of a member of an object (13.3.1.1.1)

fn is_selection(number: u8) -> bool
    ensures { result ≡ definition.is_selection number }
{
    number == MEMBER || number == ARROW
}

fn names_function(state: &State, target: Option<FactId>) -> bool
    ensures { result ≡ names.is_function_at (meaning state.now).graph (target_or (number_of_option target)) }
{
    match target {
        Some(target) => is_function_at(state, target),
        None => is_function_at(state, FactId(0)),
    }
}

// Whether functions of the class of an object are called.
fn calls_member(state: &State, callee: TreeId) -> bool
    requires { callee.0 < length (trees state.now) }
    ensures { result ≡ definition.calls_member (meaning state.now).graph (tree state.now callee).label }
{
    let node = state.node(callee);
    is_selection(node.production) && names_function(state, node.target)
}

// Which function a call means that has an object.
fn asked_of_object<Q: Questions>(
    questions: &Q,
    state: &mut State,
    place: Place,
    of: TypeId,
    functions: &[FactId],
    operands: OperandList,
) -> Result<Chosen, Stop>
    requires ready { Q.is_ready questions.now }
    requires of { of.0 < length (state.old).types }
    requires functions { AreFactsKnown state.old functions.now }
    requires operands { AreOperandsBelow (length (state.old).types) operands }
    ensures { IsAnswered chosen_of IsChosen state.old state.new result ((Q.asks questions.now).call (asked_of state.old place (type_of state.old of) functions.now operands) (meaning state.old)) }
{
    let object = Operand {
        of,
        lvalue: true,
        constant: ConstantKind::No,
    };
    questions.call_member(state, place, object, functions, operands)
}

// The question of such a call, by what its arguments give.
#[tactic(auto, using(cxx_expr::proofs::Kept::later_trans, crate::proofs::Judged::object_question_is, crate::proofs::Judged::facts_known, cxx_expr::proofs::Kept::type_later, cxx_expr::proofs::Kept::type_kept))]
fn object_question<Q: Questions>(
    alloc: Global,
    questions: &Q,
    state: &mut State,
    place: Place,
    of: TypeId,
    functions: &[FactId],
    arguments: &[TreeId],
) -> Result<Chosen, Stop>
    requires ready { Q.is_ready questions.now }
    requires of { of.0 < length (state.old).types }
    requires functions { AreFactsKnown state.old functions.now }
    requires arguments { AreTreesHeld state.old arguments.now }
    ensures { IsAnswered chosen_of IsChosen state.old state.new result ((Q.asks questions.now).call (tails.object_question (Q.asks questions.now) place (type_of state.old of) (numbered state.old functions.now) (trees_held state.old arguments.now) (meaning state.old)) (meaning state.old)) }
{
    let operands = judged_each(alloc, questions, state, arguments)?;
    asked_of_object(questions, state, place, of, functions, operands)
}

// The question of a call of a member.
fn member_question<Q: Questions>(
    alloc: Global,
    questions: &Q,
    state: &mut State,
    callee: &Node,
    of: TypeId,
    functions: &[FactId],
    arguments: &[TreeId],
) -> Result<Chosen, Stop>
    requires ready { Q.is_ready questions.now }
    requires of { of.0 < length (state.old).types }
    requires functions { AreFactsKnown state.old functions.now }
    requires arguments { AreTreesHeld state.old arguments.now }
    ensures { IsAnswered chosen_of IsChosen state.old state.new result ((Q.asks questions.now).call (definition.member_question (Q.asks questions.now) (label_at (state.old).types callee.now) (type_of state.old of) (numbered state.old functions.now) (trees_held state.old arguments.now) (meaning state.old)) (meaning state.old)) }
{
    object_question(
        alloc,
        questions,
        state,
        place_in(callee),
        of,
        functions,
        arguments,
    )
}

// What is called, once it is known which function that is.
fn callee_as(state: &mut State, callee: Node, chosen: &Chosen) -> Result<TreeId, Stop>
    requires callee { IsNodeHeld state.old callee }
    requires chosen { IsChosen state.old chosen.now }
    ensures { GrowsTree state.old state.new result (definition.callee_as (node_tree state.old callee) (chosen_of state.old chosen.now) (meaning state.old)) }
{
    let meant = means_object(state, chosen.target, chosen.result);
    let mut callee = callee;
    callee.target = Some(chosen.target);
    callee.operand = Some(meant.operand);
    push(state, callee)
}

// Over what is called and the arguments behind it.
#[tactic(auto, using(cxx_expr::proofs::Kept::later_trans, cxx_expr::proofs::NodeKept::node_later, cxx_expr::proofs::NodeKept::node_kept, cxx_expr::proofs::Kept::trees_later, cxx_expr::proofs::Kept::trees_kept, crate::proofs::Chosen::chosen_later, crate::proofs::Chosen::chosen_kept))]
fn member_call_tree(
    state: &mut State,
    node: Node,
    place: Place,
    chosen: &Chosen,
    parts: TreeIdList,
) -> Result<TreeId, Stop>
    requires node { IsNodeHeld state.old node }
    requires chosen { IsChosen state.old chosen.now }
    requires parts { AreTreesHeld state.old parts }
    ensures { GrowsTree state.old state.new result (definition.member_call_tree (node_tree state.old node) place (chosen_of state.old chosen.now) (trees_held state.old parts)) }
{
    let operand = result_operand(state, chosen.result)?;
    let mut node = node;
    node.place = place;
    node.target = Some(chosen.target);
    node.call = Some(chosen.number);
    given_over(state, node, operand, parts)
}

// The name behind an object alone, by which default arguments are asked for (8.3.6).
fn name_alone(alloc: Global, node: &Node) -> Result<Path, AllocError>
    ensures { IfOk result (λ path. path_at path ≡ definition.name_alone (names.word_in (label_at [] node.now))) }
{
    let mut parts = Listed::new(alloc);
    parts.push(PathPart {
        word: Word::from_slice(alloc, word_in(node))?,
        place: place_in(node),
        arguments: None,
    })?;
    Ok(Path {
        global: false,
        parts,
    })
}

// Once what is called is known as a tree.
#[tactic(auto, using(cxx_expr::proofs::Kept::later_trans, cxx_expr::proofs::NodeKept::node_later, cxx_expr::proofs::NodeKept::node_kept, cxx_expr::proofs::Kept::trees_later, cxx_expr::proofs::Kept::trees_kept, cxx_expr::proofs::Kept::trees_more, cxx_expr::proofs::Kept::trees_below_more, crate::proofs::Chosen::chosen_later, crate::proofs::Chosen::chosen_kept), unfolding(cxx_expr::specs::Calls::member_converted))]
fn member_converted<Q: Questions>(
    alloc: Global,
    questions: &Q,
    state: &mut State,
    node: Node,
    place: Place,
    callee: TreeId,
    arguments: &[TreeId],
    chosen: &Chosen,
    behind: TreeIdList,
) -> Result<TreeId, Stop>
    requires ready { Q.is_ready questions.now }
    requires node { IsNodeHeld state.old node }
    requires callee { callee.0 < length (trees state.old) }
    requires arguments { AreTreesHeld state.old arguments.now }
    requires chosen { IsChosen state.old chosen.now }
    requires behind { AreTreesHeld state.old behind }
    ensures { IsAnswered tree IsTreeKnown state.old state.new result (definition.member_converted (Q.asks questions.now) (node_tree state.old node) place (tree state.old callee) (trees_held state.old arguments.now) (chosen_of state.old chosen.now) (trees_held state.old behind) (meaning state.old)) }
{
    let before = listed_one(alloc, callee)?;
    let parts = convert_each(
        alloc,
        questions,
        state,
        place,
        chosen.parameters.as_slice(),
        before,
        arguments,
    )?;
    let all = joined(parts, behind)?;
    member_call_tree(state, node, place, chosen, all)
}

// Once the object of what is called is that of its class.
#[tactic(auto, using(cxx_expr::proofs::Kept::later_trans, cxx_expr::proofs::NodeKept::node_later, cxx_expr::proofs::NodeKept::node_kept, cxx_expr::proofs::Kept::trees_later, cxx_expr::proofs::Kept::trees_kept, crate::proofs::Chosen::chosen_later, crate::proofs::Chosen::chosen_kept))]
fn member_meant<Q: Questions>(
    alloc: Global,
    questions: &Q,
    state: &mut State,
    node: Node,
    callee: Node,
    arguments: &[TreeId],
    chosen: &Chosen,
    behind: TreeIdList,
) -> Result<TreeId, Stop>
    requires ready { Q.is_ready questions.now }
    requires node { IsNodeHeld state.old node }
    requires callee { IsNodeHeld state.old callee }
    requires arguments { AreTreesHeld state.old arguments.now }
    requires chosen { IsChosen state.old chosen.now }
    requires behind { AreTreesHeld state.old behind }
    ensures { IsAnswered tree IsTreeKnown state.old state.new result (definition.member_meant (Q.asks questions.now) (node_tree state.old node) (node_tree state.old callee) (trees_held state.old arguments.now) (chosen_of state.old chosen.now) (trees_held state.old behind) (meaning state.old)) }
{
    let place = place_in(&callee);
    let callee = callee_as(state, callee, chosen)?;
    member_converted(
        alloc, questions, state, node, place, callee, arguments, chosen, behind,
    )
}

// Once the default arguments are there: the object is one of the class that is written and of the one that declares it.
#[tactic(auto, using(cxx_expr::proofs::Kept::later_trans, cxx_expr::proofs::NodeKept::node_later, cxx_expr::proofs::NodeKept::node_kept, cxx_expr::proofs::Kept::trees_later, cxx_expr::proofs::Kept::trees_kept, crate::proofs::Chosen::chosen_later, crate::proofs::Chosen::chosen_kept), unfolding(crate::specs::Tails::member_based))]
fn member_based<Q: Questions>(
    alloc: Global,
    questions: &Q,
    state: &mut State,
    node: Node,
    callee: Node,
    of: TypeId,
    class: Option<TypeId>,
    arguments: &[TreeId],
    chosen: &Chosen,
    behind: TreeIdList,
) -> Result<TreeId, Stop>
    requires ready { Q.is_ready questions.now }
    requires node { IsNodeHeld state.old node }
    requires callee { IsNodeHeld state.old callee }
    requires of { of.0 < length (state.old).types }
    requires class { IsTypeNumberBelow (length (state.old).types) class }
    requires arguments { AreTreesHeld state.old arguments.now }
    requires chosen { IsChosen state.old chosen.now }
    requires behind { AreTreesHeld state.old behind }
    ensures { IsAnswered tree IsTreeKnown state.old state.new result (tails.member_based (Q.asks questions.now) (node_tree state.old node) (node_tree state.old callee) (type_of state.old of) (type_of_option (state.old).types class) (trees_held state.old arguments.now) (chosen_of state.old chosen.now) (trees_held state.old behind) (meaning state.old)) }
{
    let over = based(alloc, questions, state, callee, of, class, chosen.target)?;
    member_meant(
        alloc, questions, state, node, over, arguments, chosen, behind,
    )
}

// Once the function is noted.
#[tactic(auto, using(cxx_expr::proofs::Kept::later_trans, cxx_expr::proofs::NodeKept::node_later, cxx_expr::proofs::NodeKept::node_kept, cxx_expr::proofs::Kept::trees_later, cxx_expr::proofs::Kept::trees_kept, cxx_expr::proofs::Kept::type_later, cxx_expr::proofs::Kept::type_kept, crate::proofs::Chosen::object_later, crate::proofs::Chosen::object_kept, crate::proofs::Chosen::chosen_later, crate::proofs::Chosen::chosen_kept, crate::proofs::Signed::types_length, crate::proofs::Signed::trees_length), unfolding(crate::specs::Tails::member_filled, crate::specs::Tails::member_based))]
fn member_filled<Q: Questions>(
    alloc: Global,
    questions: &Q,
    state: &mut State,
    node: Node,
    callee: Node,
    of: TypeId,
    class: Option<TypeId>,
    arguments: &[TreeId],
    chosen: &Chosen,
) -> Result<TreeId, Stop>
    requires ready { Q.is_ready questions.now }
    requires node { IsNodeHeld state.old node }
    requires callee { IsNodeHeld state.old callee }
    requires of { of.0 < length (state.old).types }
    requires class { IsTypeNumberBelow (length (state.old).types) class }
    requires arguments { AreTreesHeld state.old arguments.now }
    requires chosen { IsChosen state.old chosen.now }
    ensures { IsAnswered tree IsTreeKnown state.old state.new result (tails.member_filled (Q.asks questions.now) (node_tree state.old node) (node_tree state.old callee) (type_of state.old of) (type_of_option (state.old).types class) (trees_held state.old arguments.now) (chosen_of state.old chosen.now) (meaning state.old)) }
{
    let path = name_alone(alloc, &callee)?;
    let count = arguments.len();
    let end = chosen.parameters.len();
    let none = Listed::new(alloc);
    let behind = fallbacks(questions, state, &path, chosen.target, count, none, end)?;
    member_based(
        alloc, questions, state, node, callee, of, class, arguments, chosen, behind,
    )
}

// What the call is once it is known which function it means, given the type of the object and the class that is written.
#[tactic(auto, using(cxx_expr::proofs::Kept::later_trans, cxx_expr::proofs::NodeKept::node_later, cxx_expr::proofs::NodeKept::node_kept, cxx_expr::proofs::Kept::trees_later, cxx_expr::proofs::Kept::trees_kept, cxx_expr::proofs::Kept::type_later, cxx_expr::proofs::Kept::type_kept, crate::proofs::Chosen::object_later, crate::proofs::Chosen::object_kept, crate::proofs::Chosen::chosen_later, crate::proofs::Chosen::chosen_kept), unfolding(cxx_expr::specs::Calls::member_chosen, crate::specs::Tails::member_filled, crate::specs::Tails::member_based))]
fn member_chosen<Q: Questions>(
    alloc: Global,
    questions: &Q,
    state: &mut State,
    node: Node,
    callee: Node,
    of: TypeId,
    class: Option<TypeId>,
    arguments: &[TreeId],
    chosen: Chosen,
) -> Result<TreeId, Stop>
    requires ready { Q.is_ready questions.now }
    requires node { IsNodeHeld state.old node }
    requires callee { IsNodeHeld state.old callee }
    requires of { of.0 < length (state.old).types }
    requires class { IsTypeNumberBelow (length (state.old).types) class }
    requires arguments { AreTreesHeld state.old arguments.now }
    requires chosen { IsChosen state.old chosen }
    ensures { IsAnswered tree IsTreeKnown state.old state.new result (definition.member_chosen (Q.asks questions.now) (node_tree state.old node) (node_tree state.old callee) (type_of state.old of) (type_of_option (state.old).types class) (trees_held state.old arguments.now) (chosen_of state.old chosen) (meaning state.old)) }
{
    questions.bound(state, place_in(&callee), chosen.target)?;
    member_filled(
        alloc, questions, state, node, callee, of, class, arguments, &chosen,
    )
}

#[tactic(auto, using(cxx_expr::proofs::Kept::later_trans, cxx_expr::proofs::NodeKept::node_later, cxx_expr::proofs::NodeKept::node_kept, cxx_expr::proofs::Kept::trees_later, cxx_expr::proofs::Kept::trees_kept, cxx_expr::proofs::Kept::type_later, cxx_expr::proofs::Kept::type_kept, crate::proofs::Chosen::object_later, crate::proofs::Chosen::object_kept), unfolding(cxx_expr::specs::Calls::member_function_call))]
fn member_function_call<Q: Questions>(
    alloc: Global,
    questions: &Q,
    state: &mut State,
    node: Node,
    callee: Node,
    of: TypeId,
    class: Option<TypeId>,
    arguments: &[TreeId],
    functions: &[FactId],
) -> Result<TreeId, Stop>
    requires ready { Q.is_ready questions.now }
    requires node { IsNodeHeld state.old node }
    requires callee { IsNodeHeld state.old callee }
    requires of { of.0 < length (state.old).types }
    requires class { IsTypeNumberBelow (length (state.old).types) class }
    requires arguments { AreTreesHeld state.old arguments.now }
    requires functions { AreFactsKnown state.old functions.now }
    ensures { IsAnswered tree IsTreeKnown state.old state.new result (definition.member_function_call (Q.asks questions.now) (node_tree state.old node) (node_tree state.old callee) (type_of state.old of) (type_of_option (state.old).types class) (trees_held state.old arguments.now) (numbered state.old functions.now) (meaning state.old)) }
{
    let chosen = member_question(alloc, questions, state, &callee, of, functions, arguments)?;
    member_chosen(
        alloc, questions, state, node, callee, of, class, arguments, chosen,
    )
}

// The members with the name that is called.
#[tactic(auto, using(cxx_expr::proofs::Kept::later_refl), unfolding(cxx_expr::specs::Calls::member_among))]
fn member_among<Q: Questions>(
    alloc: Global,
    questions: &Q,
    state: &mut State,
    node: Node,
    callee: Node,
    of: TypeId,
    class: Option<TypeId>,
    arguments: &[TreeId],
    all: &[FactId],
) -> Result<TreeId, Stop>
    requires ready { Q.is_ready questions.now }
    requires node { IsNodeHeld state.old node }
    requires callee { IsNodeHeld state.old callee }
    requires of { of.0 < length (state.old).types }
    requires class { IsTypeNumberBelow (length (state.old).types) class }
    requires arguments { AreTreesHeld state.old arguments.now }
    requires all { AreFactsKnown state.old all.now }
    ensures { IsAnswered tree IsTreeKnown state.old state.new result (definition.member_among (Q.asks questions.now) (node_tree state.old node) (node_tree state.old callee) (type_of state.old of) (type_of_option (state.old).types class) (trees_held state.old arguments.now) (numbered state.old all.now) (meaning state.old)) }
{
    let functions = values_among(alloc, state, all)?;
    member_function_call(
        alloc,
        questions,
        state,
        node,
        callee,
        of,
        class,
        arguments,
        functions.as_slice(),
    )
}

// Given the type of the class that is written before the name.
#[tactic(auto, using(cxx_expr::proofs::Kept::later_refl, cxx_expr::proofs::Kept::later_trans, cxx_expr::proofs::NodeKept::node_later, cxx_expr::proofs::NodeKept::node_kept, cxx_expr::proofs::Kept::trees_later, cxx_expr::proofs::Kept::trees_kept, cxx_expr::proofs::Kept::type_later, cxx_expr::proofs::Kept::type_kept, crate::proofs::Chosen::object_later, crate::proofs::Chosen::object_kept))]
fn member_behind<Q: Questions>(
    alloc: Global,
    questions: &Q,
    state: &mut State,
    node: Node,
    callee: Node,
    of: TypeId,
    arguments: &[TreeId],
    class: ClassId,
    written: Option<TypeId>,
) -> Result<TreeId, Stop>
    requires ready { Q.is_ready questions.now }
    requires node { IsNodeHeld state.old node }
    requires callee { IsNodeHeld state.old callee }
    requires of { of.0 < length (state.old).types }
    requires arguments { AreTreesHeld state.old arguments.now }
    requires written { IsTypeNumberBelow (length (state.old).types) written }
    ensures { IsAnswered tree IsTreeKnown state.old state.new result (tails.member_behind (Q.asks questions.now) (node_tree state.old node) (node_tree state.old callee) (type_of state.old of) (trees_held state.old arguments.now) class.0 (type_of_option (state.old).types written) (meaning state.old)) }
{
    let all = declared_member(alloc, questions, state, &callee, class)?;
    member_among(
        alloc,
        questions,
        state,
        node,
        callee,
        of,
        written,
        arguments,
        all.as_slice(),
    )
}

// The members of a class.
#[tactic(auto, using(cxx_expr::proofs::Kept::later_refl, cxx_expr::proofs::Kept::later_trans, cxx_expr::proofs::NodeKept::node_later, cxx_expr::proofs::NodeKept::node_kept, cxx_expr::proofs::Kept::trees_later, cxx_expr::proofs::Kept::trees_kept, cxx_expr::proofs::Kept::type_later, cxx_expr::proofs::Kept::type_kept))]
fn member_within<Q: Questions>(
    alloc: Global,
    questions: &Q,
    state: &mut State,
    node: Node,
    callee: Node,
    of: TypeId,
    arguments: &[TreeId],
    class: ClassId,
) -> Result<TreeId, Stop>
    requires ready { Q.is_ready questions.now }
    requires node { IsNodeHeld state.old node }
    requires callee { IsNodeHeld state.old callee }
    requires of { of.0 < length (state.old).types }
    requires arguments { AreTreesHeld state.old arguments.now }
    requires class { class.0 < length (state.old).graph.classes }
    ensures { IsAnswered tree IsTreeKnown state.old state.new result (definition.member_within (Q.asks questions.now) (node_tree state.old node) (node_tree state.old callee) (type_of state.old of) (trees_held state.old arguments.now) class.0 (meaning state.old)) }
{
    let written = written(state, &callee, Some(class))?;
    member_behind(
        alloc, questions, state, node, callee, of, arguments, class, written,
    )
}

// Those of the class of the object, or of the class that is written (3.4.5).
#[tactic(auto, using(cxx_expr::proofs::Kept::later_refl, cxx_expr::proofs::Kept::later_trans, cxx_expr::proofs::NodeKept::node_later, cxx_expr::proofs::NodeKept::node_kept, cxx_expr::proofs::Kept::trees_later, cxx_expr::proofs::Kept::trees_kept, cxx_expr::proofs::Kept::type_later, cxx_expr::proofs::Kept::type_kept), unfolding(cxx_expr::specs::Calls::member_in))]
fn member_in<Q: Questions>(
    alloc: Global,
    questions: &Q,
    state: &mut State,
    node: Node,
    callee: Node,
    of: TypeId,
    arguments: &[TreeId],
    class: ClassId,
) -> Result<TreeId, Stop>
    requires ready { Q.is_ready questions.now }
    requires node { IsNodeHeld state.old node }
    requires callee { IsNodeHeld state.old callee }
    requires of { of.0 < length (state.old).types }
    requires arguments { AreTreesHeld state.old arguments.now }
    requires class { class.0 < length (state.old).graph.classes }
    ensures { IsAnswered tree IsTreeKnown state.old state.new result (definition.member_in (Q.asks questions.now) (node_tree state.old node) (node_tree state.old callee) (type_of state.old of) (trees_held state.old arguments.now) class.0 (meaning state.old)) }
{
    let within = naming(alloc, questions, state, &callee, class)?;
    member_within(alloc, questions, state, node, callee, of, arguments, within)
}

// The class of the object is that of the type of what is called.
#[tactic(auto, using(cxx_expr::proofs::Kept::later_refl))]
fn member_of<Q: Questions>(
    alloc: Global,
    questions: &Q,
    state: &mut State,
    node: Node,
    callee: Node,
    of: TypeId,
    arguments: &[TreeId],
) -> Result<TreeId, Stop>
    requires ready { Q.is_ready questions.now }
    requires node { IsNodeHeld state.old node }
    requires callee { IsNodeHeld state.old callee }
    requires of { of.0 < length (state.old).types }
    requires arguments { AreTreesHeld state.old arguments.now }
    ensures { IsAnswered tree IsTreeKnown state.old state.new result (definition.member_typed (Q.asks questions.now) (node_tree state.old node) (node_tree state.old callee) (trees_held state.old arguments.now) (Some (type_of state.old of)) (meaning state.old)) }
{
    match class_of_type(state, of) {
        None => Err(Stop::Fault(misshapen(alloc, node.start)?)),
        Some(class) => member_in(alloc, questions, state, node, callee, of, arguments, class),
    }
}

// The same of what is called with its type, where it has one.
#[tactic(auto, using(cxx_expr::proofs::Kept::later_refl))]
fn member_typed<Q: Questions>(
    alloc: Global,
    questions: &Q,
    state: &mut State,
    node: Node,
    callee: Node,
    arguments: &[TreeId],
) -> Result<TreeId, Stop>
    requires ready { Q.is_ready questions.now }
    requires node { IsNodeHeld state.old node }
    requires callee { IsNodeHeld state.old callee }
    requires arguments { AreTreesHeld state.old arguments.now }
    ensures { IsAnswered tree IsTreeKnown state.old state.new result (definition.member_typed (Q.asks questions.now) (node_tree state.old node) (node_tree state.old callee) (trees_held state.old arguments.now) (type_of_option (state.old).types callee.of) (meaning state.old)) }
{
    match callee.of {
        None => Err(Stop::Fault(misshapen(alloc, node.start)?)),
        Some(of) => member_of(alloc, questions, state, node, callee, of, arguments),
    }
}

// A call of a function of the class of an object.
#[tactic(auto, using(crate::proofs::Called::member_called, cxx_expr::proofs::Kept::later_refl))]
fn member_call<Q: Questions>(
    alloc: Global,
    questions: &Q,
    state: &mut State,
    node: Node,
    callee: TreeId,
    arguments: &[TreeId],
) -> Result<TreeId, Stop>
    requires ready { Q.is_ready questions.now }
    requires node { IsNodeHeld state.old node }
    requires callee { callee.0 < length (trees state.old) }
    requires arguments { AreTreesHeld state.old arguments.now }
    ensures { IsAnswered tree IsTreeKnown state.old state.new result (definition.member_call (Q.asks questions.now) (node_tree state.old node) (tree state.old callee) (trees_held state.old arguments.now) (meaning state.old)) }
{
    let callee = node_of(alloc, state, callee)?;
    member_typed(alloc, questions, state, node, callee, arguments)
}

// ---- a call of a member by its name without an object (13.3.1.1.1 p3)

// The type of the object: that of `*this`, where it has the members, and else of one that is made up.
fn implied_type(class: TypeId, object: Option<TypeId>) -> TypeId
    ensures is { (types : List CxxType) → type_at types result.0 ≡ definition.implied_type (type_at types class.0) (type_of_option types object) }
    ensures below { (count : ℕ) → class.0 < count → IsTypeNumberBelow count object → result.0 < count }
{
    match object {
        Some(of) => of,
        None => class,
    }
}

// The types of the arguments find nothing besides (3.4.2).
fn implied_question<Q: Questions>(
    alloc: Global,
    questions: &Q,
    state: &mut State,
    node: &Node,
    of: TypeId,
    functions: &[FactId],
    arguments: &[TreeId],
) -> Result<Chosen, Stop>
    requires ready { Q.is_ready questions.now }
    requires of { of.0 < length (state.old).types }
    requires functions { AreFactsKnown state.old functions.now }
    requires arguments { AreTreesHeld state.old arguments.now }
    ensures { IsAnswered chosen_of IsChosen state.old state.new result ((Q.asks questions.now).call (definition.implied_question (Q.asks questions.now) (label_at (state.old).types node.now) (numbered state.old functions.now) (type_of state.old of) (trees_held state.old arguments.now) (meaning state.old)) (meaning state.old)) }
{
    object_question(
        alloc, questions, state, node.place, of, functions, arguments,
    )
}

// A name over an object, as `.` would select it to be called.
fn selected_callee(
    alloc: Global,
    state: &State,
    name: Node,
    of: TypeId,
    object: TreeId,
) -> Result<Node, AllocError>
    requires name { IsNodeHeld state.now name }
    requires of { of.0 < length (state.now).types }
    requires object { object.0 < length (trees state.now) }
    ensures is { IfOk result (λ callee. node_tree state.now callee ≡ tails.selected_callee (label_at (state.now).types name) (type_of state.now of) (tree state.now object)) }
    ensures held { IfOk result (IsNodeHeld state.now) }
{
    let _ = state;
    let mut callee = name;
    callee.production = MEMBER;
    callee.spelling = Text::from_slice(alloc, b"(")?;
    callee.of = Some(of);
    callee.children = listed_one(alloc, object)?;
    Ok(callee)
}

// What is called.
#[tactic(auto, using(cxx_expr::proofs::Kept::later_trans, cxx_expr::proofs::NodeKept::node_later, cxx_expr::proofs::Kept::type_later, crate::proofs::Called::implied_callee_is))]
fn implied_callee(alloc: Global, state: &mut State, name: Node, of: TypeId) -> Result<Node, Stop>
    requires name { IsNodeHeld state.old name }
    requires of { of.0 < length (state.old).types }
    ensures { GrowsNode state.old state.new result (definition.implied_callee (node_tree state.old name).label (type_of state.old of)) }
{
    let object = object_tree(alloc, state, &name, of)?;
    Ok(selected_callee(alloc, state, name, of, object)?)
}

// Given the class that is written before its name.
#[tactic(auto, using(cxx_expr::proofs::Kept::later_trans, cxx_expr::proofs::NodeKept::node_later, cxx_expr::proofs::NodeKept::node_kept, cxx_expr::proofs::Kept::trees_later, cxx_expr::proofs::Kept::trees_kept, cxx_expr::proofs::Kept::type_later, cxx_expr::proofs::Kept::type_kept, crate::proofs::Chosen::object_later, crate::proofs::Chosen::object_kept, crate::proofs::Chosen::chosen_later, crate::proofs::Chosen::chosen_kept))]
fn implied_behind<Q: Questions>(
    alloc: Global,
    questions: &Q,
    state: &mut State,
    node: Node,
    arguments: &[TreeId],
    of: TypeId,
    class: Option<TypeId>,
    chosen: Chosen,
) -> Result<TreeId, Stop>
    requires ready { Q.is_ready questions.now }
    requires node { IsNodeHeld state.old node }
    requires arguments { AreTreesHeld state.old arguments.now }
    requires of { of.0 < length (state.old).types }
    requires class { IsTypeNumberBelow (length (state.old).types) class }
    requires chosen { IsChosen state.old chosen }
    ensures { IsAnswered tree IsTreeKnown state.old state.new result (tails.implied_behind (Q.asks questions.now) (node_tree state.old node) (trees_held state.old arguments.now) (type_of state.old of) (type_of_option (state.old).types class) (chosen_of state.old chosen) (meaning state.old)) }
{
    let last = behind_called(state, &node, arguments);
    let (name, call) = apart(alloc, node, last);
    let callee = implied_callee(alloc, state, name, of)?;
    member_chosen(
        alloc, questions, state, call, callee, of, class, arguments, chosen,
    )
}

// A function that belongs to an object is called for `*this`.
#[tactic(auto, using(cxx_expr::proofs::Kept::later_trans, cxx_expr::proofs::NodeKept::node_later, cxx_expr::proofs::NodeKept::node_kept, cxx_expr::proofs::Kept::trees_later, cxx_expr::proofs::Kept::trees_kept, cxx_expr::proofs::Kept::type_later, cxx_expr::proofs::Kept::type_kept, crate::proofs::Chosen::chosen_later, crate::proofs::Chosen::chosen_kept))]
fn implied_of<Q: Questions>(
    alloc: Global,
    questions: &Q,
    state: &mut State,
    node: Node,
    arguments: &[TreeId],
    of: TypeId,
    chosen: Chosen,
) -> Result<TreeId, Stop>
    requires ready { Q.is_ready questions.now }
    requires node { IsNodeHeld state.old node }
    requires arguments { AreTreesHeld state.old arguments.now }
    requires of { of.0 < length (state.old).types }
    requires chosen { IsChosen state.old chosen }
    ensures { IsAnswered tree IsTreeKnown state.old state.new result (definition.implied_of (Q.asks questions.now) (node_tree state.old node) (trees_held state.old arguments.now) (type_of state.old of) (chosen_of state.old chosen) (meaning state.old)) }
{
    let class = qualified(alloc, questions, state, &node)?;
    implied_behind(alloc, questions, state, node, arguments, of, class, chosen)
}

// One that belongs to an object is not called without one.
#[tactic(auto, using(cxx_expr::proofs::Kept::later_refl))]
fn implied_member<Q: Questions>(
    alloc: Global,
    questions: &Q,
    state: &mut State,
    node: Node,
    arguments: &[TreeId],
    object: Option<TypeId>,
    chosen: Chosen,
) -> Result<TreeId, Stop>
    requires ready { Q.is_ready questions.now }
    requires node { IsNodeHeld state.old node }
    requires arguments { AreTreesHeld state.old arguments.now }
    requires object { IsTypeNumberBelow (length (state.old).types) object }
    requires chosen { IsChosen state.old chosen }
    ensures { IsAnswered tree IsTreeKnown state.old state.new result (definition.implied_member (Q.asks questions.now) (node_tree state.old node) (trees_held state.old arguments.now) (type_of_option (state.old).types object) (chosen_of state.old chosen) (meaning state.old)) }
{
    match object {
        None => Err(Stop::Fault(no_fit(alloc, node.place)?)),
        Some(of) => implied_of(alloc, questions, state, node, arguments, of, chosen),
    }
}

// Whether what a call means is no static member of a class (9.4).
fn is_of_object(state: &State, target: FactId) -> bool
    ensures { result ≡ operands_of.is_none (names.static_class (meaning state.now).graph target.0) }
{
    match static_class(state, target) {
        Some(_) => false,
        None => true,
    }
}

// For a static function the object says nothing (9.4).
#[tactic(auto, unfolding(cxx_expr::specs::Calls::implied_chosen))]
fn implied_chosen<Q: Questions>(
    alloc: Global,
    questions: &Q,
    state: &mut State,
    node: Node,
    arguments: &[TreeId],
    object: Option<TypeId>,
    chosen: Chosen,
) -> Result<TreeId, Stop>
    requires ready { Q.is_ready questions.now }
    requires node { IsNodeHeld state.old node }
    requires arguments { AreTreesHeld state.old arguments.now }
    requires object { IsTypeNumberBelow (length (state.old).types) object }
    requires chosen { IsChosen state.old chosen }
    ensures { IsAnswered tree IsTreeKnown state.old state.new result (definition.implied_chosen (Q.asks questions.now) (node_tree state.old node) (trees_held state.old arguments.now) (type_of_option (state.old).types object) (chosen_of state.old chosen) (meaning state.old)) }
{
    if is_of_object(state, chosen.target) {
        implied_member(alloc, questions, state, node, arguments, object, chosen)
    } else {
        chosen_call(alloc, questions, state, node, arguments, chosen)
    }
}

// Given the class of the functions, and the object that they have.
#[tactic(auto, using(cxx_expr::proofs::Kept::later_trans, cxx_expr::proofs::NodeKept::node_later, cxx_expr::proofs::NodeKept::node_kept, cxx_expr::proofs::Kept::trees_later, cxx_expr::proofs::Kept::trees_kept, crate::proofs::Chosen::object_later, crate::proofs::Chosen::object_kept), unfolding(cxx_expr::specs::Calls::implied_call))]
fn implied_call<Q: Questions>(
    alloc: Global,
    questions: &Q,
    state: &mut State,
    node: Node,
    functions: &[FactId],
    arguments: &[TreeId],
    class: TypeId,
    object: Option<TypeId>,
) -> Result<TreeId, Stop>
    requires ready { Q.is_ready questions.now }
    requires node { IsNodeHeld state.old node }
    requires functions { AreFactsKnown state.old functions.now }
    requires arguments { AreTreesHeld state.old arguments.now }
    requires class { class.0 < length (state.old).types }
    requires object { IsTypeNumberBelow (length (state.old).types) object }
    ensures { IsAnswered tree IsTreeKnown state.old state.new result (definition.implied_call (Q.asks questions.now) (node_tree state.old node) (numbered state.old functions.now) (trees_held state.old arguments.now) (type_of state.old class) (type_of_option (state.old).types object) (meaning state.old)) }
{
    let of = implied_type(class, object);
    let chosen = implied_question(alloc, questions, state, &node, of, functions, arguments)?;
    implied_chosen(alloc, questions, state, node, arguments, object, chosen)
}

// ---- functions by their name

// The class in whose scope functions stand (9.3, 9.4).
#[tactic(auto, unfolding(cxx_this::specs::This::class_at))]
fn class_called(state: &State, scope: ScopeId) -> Option<ClassId>
    ensures is { class_or_none result ≡ class_at (meaning state.now).graph scope.0 }
    ensures there { IsClassNumberInRange (state.now).graph result }
{
    class_of_scope(state, scope)
}

// Functions of a class are called for `*this`, where that has them.
#[tactic(auto, using(cxx_expr::proofs::Kept::later_trans, cxx_expr::proofs::NodeKept::node_later, cxx_expr::proofs::NodeKept::node_kept, cxx_expr::proofs::Kept::trees_later, cxx_expr::proofs::Kept::trees_kept, cxx_expr::proofs::Kept::type_later, cxx_expr::proofs::Kept::type_kept, crate::proofs::Judged::facts_known))]
fn class_call<Q: Questions>(
    alloc: Global,
    questions: &Q,
    state: &mut State,
    node: Node,
    functions: &[FactId],
    arguments: &[TreeId],
    scope: ScopeId,
    class: ClassId,
) -> Result<TreeId, Stop>
    requires ready { Q.is_ready questions.now }
    requires node { IsNodeHeld state.old node }
    requires functions { AreFactsKnown state.old functions.now }
    requires arguments { AreTreesHeld state.old arguments.now }
    requires class { class.0 < length (state.old).graph.classes }
    ensures { IsAnswered tree IsTreeKnown state.old state.new result (definition.functions_called (Q.asks questions.now) (node_tree state.old node) (numbered state.old functions.now) (trees_held state.old arguments.now) scope.0 (Some (class_type class.0)) (meaning state.old)) }
{
    let of = type_of_class(state, class)?;
    let object = object_for(alloc, state, scope)?;
    implied_call(
        alloc, questions, state, node, functions, arguments, of, object,
    )
}

// Given the class in whose scope the first of them stands, where there is one.
fn functions_called<Q: Questions>(
    alloc: Global,
    questions: &Q,
    state: &mut State,
    node: Node,
    functions: &[FactId],
    arguments: &[TreeId],
    scope: ScopeId,
    class: Option<ClassId>,
) -> Result<TreeId, Stop>
    requires ready { Q.is_ready questions.now }
    requires node { IsNodeHeld state.old node }
    requires functions { AreFactsKnown state.old functions.now }
    requires arguments { AreTreesHeld state.old arguments.now }
    requires class { IsClassNumberInRange (state.old).graph class }
    ensures { IsAnswered tree IsTreeKnown state.old state.new result (definition.functions_called (Q.asks questions.now) (node_tree state.old node) (numbered state.old functions.now) (trees_held state.old arguments.now) scope.0 (class_or_none class) (meaning state.old)) }
{
    match class {
        None => function_call(alloc, questions, state, node, functions, arguments),
        Some(class) => {
            class_call(
                alloc, questions, state, node, functions, arguments, scope, class,
            )
        }
    }
}

// ---- both

fn split_first(
    alloc: Global,
    state: &State,
    numbers: &[TreeId],
) -> Result<Option<(TreeId, TreeIdList)>, AllocError>
    requires { AreTreesHeld state.now numbers.now }
    ensures is { IfOk result (λ parts. first_split state.now parts ≡ definition.split_first (trees_held state.now numbers.now)) }
    ensures known { IfOk result (IsFirstSplit state.now) }
{
    let _ = state;
    match numbers {
        [] => Ok(None),
        [callee, arguments @ ..] => {
            let arguments = TreeIdList::from_slice(alloc, arguments)?;
            Ok(Some((*callee, arguments)))
        }
    }
}

#[tactic(auto, using(cxx_expr::proofs::Kept::later_refl))]
fn expression_call<Q: Questions>(
    alloc: Global,
    questions: &Q,
    state: &mut State,
    node: Node,
    parts: Option<(TreeId, TreeIdList)>,
) -> Result<TreeId, Stop>
    requires ready { Q.is_ready questions.now }
    requires node { IsNodeHeld state.old node }
    requires parts { IsFirstSplit state.old parts }
    ensures { IsAnswered tree IsTreeKnown state.old state.new result (definition.expression_call (Q.asks questions.now) (node_tree state.old node) (first_split state.old parts) (meaning state.old)) }
{
    match parts {
        None => Err(Stop::Fault(misshapen(alloc, node.start)?)),
        Some((callee, arguments)) => {
            if calls_member(state, callee) {
                member_call(alloc, questions, state, node, callee, arguments.as_slice())
            } else {
                through(alloc, questions, state, node, callee, arguments.as_slice())
            }
        }
    }
}

/// A call (5.2.2): of a function by its name, which is asked for (13.3), or of what an expression gives. It stops as the
/// questions do, where what is called is no function, and where the arguments do not fit.
#[tactic(auto, using(cxx_expr::proofs::NodeKept::children_are), unfolding(cxx_expr::specs::Calls::call))]
pub fn call<Q: Questions>(
    alloc: Global,
    questions: &Q,
    state: &mut State,
    node: Node,
) -> Result<TreeId, Stop>
    requires ready { Q.is_ready questions.now }
    requires node { IsNodeHeld state.old node }
    ensures { IsAnswered tree IsTreeKnown state.old state.new result (definition.call (Q.asks questions.now) (node_tree state.old node) (meaning state.old)) }
{
    if node.path.is_none() {
        let parts = split_first(alloc, state, node.children.as_slice())?;
        return expression_call(alloc, questions, state, node, parts);
    }
    let arguments = TreeIdList::from_slice(alloc, node.children.as_slice())?;
    name_call(alloc, questions, state, node, arguments.as_slice())
}
