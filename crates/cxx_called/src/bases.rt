//! Objects as those of the class that is written before a member, and of the class that declares it (5.2.5, 10.2).

ghost use Rattle.std.specs.Prelude.{◌≡◌, ◌<◌, length, IfOk, Some};
ghost use Rattle.cxx_model.specs.Facts.Declarations.{type_of_option};
ghost use Rattle.cxx_model.specs.Facts.Fitted.{IsTypeNumberBelow};
ghost use Rattle.cxx_model.specs.Stops.{Gives};
ghost use Rattle.cxx_model.specs.Types.Trees.{reference_to as reference_of, with_cv as with_words};
ghost use Rattle.cxx_reading.specs.Initializers.{operand_of};
ghost use Rattle.cxx_standard.specs.Views.{Computes};
ghost use Rattle.cxx_tree.specs.Answered.{IsAnswered};
ghost use Rattle.cxx_tree.specs.Held.{meaning, tree, trees, type_of};
ghost use Rattle.cxx_expr.specs.Bases.{one_base as one_base_of};
ghost use Rattle.cxx_expr.specs.Calls as calls;
ghost use Rattle.cxx_expr.specs.Converting as converting;
ghost use Rattle.cxx_expr.specs.Making.{GrowsTree, GrowsType, IsTreeKnown};
ghost use Rattle.cxx_expr.specs.Nodes.{IsNodeHeld, node_tree};
ghost use Rattle.cxx_expr.specs.Operands.{object_operand};
ghost use Rattle.cxx_expr.specs.Steps as definition;
ghost use Rattle.cxx_called.specs.Tails as tails;

use crate::classes::{class_before, declaring, is_static_at, or_own};
use crate::implied::{is_derived_from, pointed_tree};
use crate::members::class_of_type;
use crate::names::place_in;
use cxx_expr::nodes::only_child;
use cxx_expr::operators::{listed_one, misshapen, no_fit};
use cxx_expr::production::{ARROW, MEMBER};
use cxx_expr::{Questions, convert, one_base};
use cxx_model::{
    ClassId, ConstantKind, Cv, FactId, Node, Operand, OutOfMemory, Place, Stop, TreeId, TypeId,
};
use cxx_standard::cv_of;
use cxx_tree::State;
use std::alloc::{AllocError, Global};

// ---- the object

/// What `->` selects from, as an object.
#[tactic(auto, using(cxx_expr::proofs::Kept::later_refl))]
pub(crate) fn object_called(
    alloc: Global,
    state: &mut State,
    callee: &Node,
    of: TypeId,
    one: TreeId,
) -> Result<TreeId, Stop>
    requires of { of.0 < length (state.old).types }
    requires one { one.0 < length (trees state.old) }
    ensures { GrowsTree state.old state.new result (definition.object_called (node_tree state.old callee.now) (type_of state.old of) (tree state.old one)) }
{
    if callee.production == ARROW {
        return pointed_tree(alloc, state, callee, of, one);
    }
    Ok(one)
}

// A member of an object, with the class that stands before it.
fn member_over(
    alloc: Global,
    state: &State,
    callee: Node,
    object: TreeId,
    class: Option<TypeId>,
) -> Result<Node, AllocError>
    requires callee { IsNodeHeld state.now callee }
    requires object { object.0 < length (trees state.now) }
    requires class { IsTypeNumberBelow (length (state.now).types) class }
    ensures is { IfOk result (λ over. node_tree state.now over ≡ definition.member_over (node_tree state.now callee) (tree state.now object) (type_of_option (state.now).types class)) }
    ensures held { IfOk result (IsNodeHeld state.now) }
{
    let _ = state;
    let mut callee = callee;
    callee.production = MEMBER;
    callee.of = class;
    callee.children = listed_one(alloc, object)?;
    Ok(callee)
}

// A type with cv words.
fn worded(state: &mut State, of: TypeId, cv: Cv) -> Result<TypeId, Stop>
    requires { of.0 < length (state.old).types }
    ensures { GrowsType state.old state.new result (with_words cv (type_of state.old of)) }
{
    match state.with_cv(of, cv) {
        Ok(of) => Ok(of),
        Err(_) => Err(Stop::OutOfMemory),
    }
}

fn reference_to(state: &mut State, of: TypeId) -> Result<TypeId, Stop>
    requires { of.0 < length (state.old).types }
    ensures { GrowsType state.old state.new result (reference_of (type_of state.old of)) }
{
    match state.reference_to(of) {
        Ok(of) => Ok(of),
        Err(_) => Err(Stop::OutOfMemory),
    }
}

// The base of an object, with the words of that.
#[tactic(auto, using(cxx_expr::proofs::Kept::later_trans))]
fn base_reference(state: &mut State, of: TypeId, base: TypeId) -> Result<TypeId, Stop>
    requires of { of.0 < length (state.old).types }
    requires base { base.0 < length (state.old).types }
    ensures { GrowsType state.old state.new result (definition.base_reference (type_of state.old of) (type_of state.old base)) }
{
    let cv = cv_of(state.types(), of);
    let object = worded(state, base, cv)?;
    reference_to(state, object)
}

// Converted to a reference to another class, with the words of the object.
#[tactic(auto, using(cxx_expr::proofs::Kept::later_trans, cxx_expr::proofs::Kept::tree_later, cxx_expr::proofs::Kept::tree_kept))]
fn converted_to<Q: Questions>(
    alloc: Global,
    questions: &Q,
    state: &mut State,
    place: Place,
    of: TypeId,
    to: TypeId,
    object: TreeId,
) -> Result<TreeId, Stop>
    requires ready { Q.is_ready questions.now }
    requires of { of.0 < length (state.old).types }
    requires to { to.0 < length (state.old).types }
    requires object { object.0 < length (trees state.old) }
    ensures { IsAnswered tree IsTreeKnown state.old state.new result (converting.convert (Q.asks questions.now) place (definition.base_reference (type_of state.old of) (type_of state.old to)) (tree state.old object) (meaning state.old)) }
{
    let reference = base_reference(state, of, to)?;
    convert(alloc, questions, state, place, reference, object)
}

// Whether a value is one of an object (3.10).
pub(crate) fn is_lvalue(state: &State, number: TreeId) -> bool
    requires { number.0 < length (trees state.now) }
    ensures { result ≡ (operand_of (tree state.now number)).lvalue }
{
    match state.node(number).operand {
        Some(operand) => operand.lvalue,
        None => false,
    }
}

/// An object of one class has one subobject of another (10.2).
pub(crate) fn has_one(
    alloc: Global,
    state: &State,
    place: Place,
    from: TypeId,
    to: TypeId,
) -> Result<(), Stop>
    requires from { from.0 < length (state.now).types }
    requires to { to.0 < length (state.now).types }
    ensures { Gives (λ done. done) result (one_base_of (meaning state.now).graph place (object_operand (type_of state.now from)) (type_of state.now to)) }
{
    let object = Operand {
        of: from,
        lvalue: true,
        constant: ConstantKind::No,
    };
    one_base(alloc, state, place, object, to)
}

// ---- whether an object is one of a class

// Whether the class of a type is that of another, or derived from it, where both are classes (10).
fn is_within(alloc: Global, state: &State, from: TypeId, to: TypeId) -> Result<bool, OutOfMemory>
    requires from { from.0 < length (state.now).types }
    requires to { to.0 < length (state.now).types }
    ensures { Computes result (definition.is_same_or_base (meaning state.now).graph (definition.class_of (type_of state.now from)) (definition.class_of (type_of state.now to))) }
{
    match class_of_type(state, from) {
        None => Ok(true),
        Some(one) => match class_of_type(state, to) {
            None => Ok(true),
            Some(other) => {
                if one.0 == other.0 {
                    Ok(true)
                } else {
                    is_derived_from(alloc, state, one, other)
                }
            }
        },
    }
}

/// An object of one class is one of another, which is the same or a base (5.2.5).
pub(crate) fn within(
    alloc: Global,
    state: &State,
    place: Place,
    from: TypeId,
    to: Option<TypeId>,
) -> Result<(), Stop>
    requires from { from.0 < length (state.now).types }
    requires to { IsTypeNumberBelow (length (state.now).types) to }
    ensures { Gives (λ done. done) result (definition.within (meaning state.now).graph place (type_of state.now from) (type_of_option (state.now).types to)) }
{
    match to {
        None => Ok(()),
        Some(to) => match is_within(alloc, state, from, to) {
            Ok(true) => Ok(()),
            Ok(false) => Err(Stop::Fault(no_fit(alloc, place)?)),
            Err(_) => Err(Stop::OutOfMemory),
        },
    }
}

/// A member that is the same for each object is one of the class that is written before it, or of the object's own, and of the
/// class that declares it (5.2.5, 9.4).
pub(crate) fn shared(
    alloc: Global,
    state: &State,
    place: Place,
    of: TypeId,
    class: Option<TypeId>,
    declared: Option<TypeId>,
) -> Result<(), Stop>
    requires of { of.0 < length (state.now).types }
    requires class { IsTypeNumberBelow (length (state.now).types) class }
    requires declared { IsTypeNumberBelow (length (state.now).types) declared }
    ensures { Gives (λ done. done) result (definition.shared (meaning state.now).graph place (type_of state.now of) (type_of_option (state.now).types class) (type_of_option (state.now).types declared)) }
{
    within(alloc, state, place, of, class)?;
    within(alloc, state, place, or_own(class, of), declared)
}

// A value is as it is, where it has one such subobject.
#[tactic(auto, using(cxx_expr::proofs::Kept::later_refl))]
fn kept_by(
    alloc: Global,
    state: &State,
    place: Place,
    from: TypeId,
    to: TypeId,
    object: TreeId,
) -> Result<TreeId, Stop>
    requires from { from.0 < length (state.now).types }
    requires to { to.0 < length (state.now).types }
    requires object { object.0 < length (trees state.now) }
    ensures { IsAnswered tree IsTreeKnown state.now state.now result (definition.kept_by (tree state.now object) (meaning state.now) (one_base_of (meaning state.now).graph place (object_operand (type_of state.now from)) (type_of state.now to))) }
{
    has_one(alloc, state, place, from, to)?;
    Ok(object)
}

// An object is converted.
#[tactic(auto, using(cxx_expr::proofs::Kept::later_refl))]
fn stepped<Q: Questions>(
    alloc: Global,
    questions: &Q,
    state: &mut State,
    place: Place,
    of: TypeId,
    from: TypeId,
    to: TypeId,
    object: TreeId,
) -> Result<TreeId, Stop>
    requires ready { Q.is_ready questions.now }
    requires of { of.0 < length (state.old).types }
    requires from { from.0 < length (state.old).types }
    requires to { to.0 < length (state.old).types }
    requires object { object.0 < length (trees state.old) }
    ensures { IsAnswered tree IsTreeKnown state.old state.new result (definition.stepped (Q.asks questions.now) place (type_of state.old of) (type_of state.old from) (type_of state.old to) (tree state.old object) (meaning state.old)) }
{
    if is_lvalue(state, object) {
        return converted_to(alloc, questions, state, place, of, to, object);
    }
    kept_by(alloc, state, place, from, to, object)
}

// Given both classes.
#[tactic(auto, using(cxx_expr::proofs::Kept::later_refl))]
fn step_between<Q: Questions>(
    alloc: Global,
    questions: &Q,
    state: &mut State,
    place: Place,
    of: TypeId,
    from: TypeId,
    to: TypeId,
    one: ClassId,
    other: ClassId,
    object: TreeId,
) -> Result<TreeId, Stop>
    requires ready { Q.is_ready questions.now }
    requires of { of.0 < length (state.old).types }
    requires from { from.0 < length (state.old).types }
    requires to { to.0 < length (state.old).types }
    requires one { one.0 < length (state.old).graph.classes }
    requires other { other.0 < length (state.old).graph.classes }
    requires object { object.0 < length (trees state.old) }
    ensures { IsAnswered tree IsTreeKnown state.old state.new result (definition.step_between (Q.asks questions.now) place (type_of state.old of) (type_of state.old from) (type_of state.old to) one.0 other.0 (tree state.old object) (meaning state.old)) }
{
    if one.0 == other.0 {
        return Ok(object);
    }
    match is_derived_from(alloc, state, one, other) {
        Ok(true) => stepped(alloc, questions, state, place, of, from, to, object),
        Ok(false) => Err(Stop::Fault(no_fit(alloc, place)?)),
        Err(_) => Err(Stop::OutOfMemory),
    }
}

/// An object of a type, as one of the class of a second type, as one of that of a third: the same, or a base (5.2.5, 10.2).
#[tactic(auto, using(cxx_expr::proofs::Kept::later_refl), unfolding(cxx_expr::specs::Steps::step))]
pub(crate) fn step<Q: Questions>(
    alloc: Global,
    questions: &Q,
    state: &mut State,
    place: Place,
    of: TypeId,
    from: TypeId,
    to: TypeId,
    object: TreeId,
) -> Result<TreeId, Stop>
    requires ready { Q.is_ready questions.now }
    requires of { of.0 < length (state.old).types }
    requires from { from.0 < length (state.old).types }
    requires to { to.0 < length (state.old).types }
    requires object { object.0 < length (trees state.old) }
    ensures { IsAnswered tree IsTreeKnown state.old state.new result (definition.step (Q.asks questions.now) place (type_of state.old of) (type_of state.old from) (type_of state.old to) (tree state.old object) (meaning state.old)) }
{
    match class_of_type(state, from) {
        None => Ok(object),
        Some(one) => match class_of_type(state, to) {
            None => Ok(object),
            Some(other) => step_between(
                alloc, questions, state, place, of, from, to, one, other, object,
            ),
        },
    }
}

// The same, where there is a class to which it leads.
#[tactic(auto, using(cxx_expr::proofs::Kept::later_refl))]
fn step_to<Q: Questions>(
    alloc: Global,
    questions: &Q,
    state: &mut State,
    place: Place,
    of: TypeId,
    from: TypeId,
    class: Option<TypeId>,
    object: TreeId,
) -> Result<TreeId, Stop>
    requires ready { Q.is_ready questions.now }
    requires of { of.0 < length (state.old).types }
    requires from { from.0 < length (state.old).types }
    requires class { IsTypeNumberBelow (length (state.old).types) class }
    requires object { object.0 < length (trees state.old) }
    ensures { IsAnswered tree IsTreeKnown state.old state.new result (definition.step_to (Q.asks questions.now) place (type_of state.old of) (type_of state.old from) (type_of_option (state.old).types class) (tree state.old object) (meaning state.old)) }
{
    match class {
        None => Ok(object),
        Some(to) => step(alloc, questions, state, place, of, from, to, object),
    }
}

// ---- the object of a function

// As one of the class that declares the function.
#[tactic(auto, using(cxx_expr::proofs::NodeKept::node_later, cxx_expr::proofs::NodeKept::node_kept, cxx_expr::proofs::Kept::type_later, cxx_expr::proofs::Kept::type_kept, crate::proofs::Chosen::object_later, crate::proofs::Chosen::object_kept), unfolding(crate::specs::Tails::based_second))]
fn based_second<Q: Questions>(
    alloc: Global,
    questions: &Q,
    state: &mut State,
    callee: Node,
    of: TypeId,
    class: Option<TypeId>,
    declared: Option<TypeId>,
    is_lvalue: bool,
    first: TreeId,
) -> Result<Node, Stop>
    requires ready { Q.is_ready questions.now }
    requires callee { IsNodeHeld state.old callee }
    requires of { of.0 < length (state.old).types }
    requires class { IsTypeNumberBelow (length (state.old).types) class }
    requires declared { IsTypeNumberBelow (length (state.old).types) declared }
    requires first { first.0 < length (trees state.old) }
    ensures { IsAnswered node_tree IsNodeHeld state.old state.new result (tails.based_second (Q.asks questions.now) (node_tree state.old callee) (type_of state.old of) (type_of_option (state.old).types class) (type_of_option (state.old).types declared) is_lvalue (tree state.old first) (meaning state.old)) }
{
    let place = place_in(&callee);
    let from = or_own(class, of);
    let second = step_to(alloc, questions, state, place, of, from, declared, first)?;
    let before = class_before(state, is_lvalue, of, class, declared);
    Ok(member_over(alloc, state, callee, second, before)?)
}

// As one of the class that is written before it.
#[tactic(auto, using(cxx_expr::proofs::Kept::later_trans, cxx_expr::proofs::NodeKept::node_later, cxx_expr::proofs::NodeKept::node_kept, cxx_expr::proofs::Kept::type_later, cxx_expr::proofs::Kept::type_kept, crate::proofs::Chosen::object_later, crate::proofs::Chosen::object_kept), unfolding(cxx_expr::specs::Calls::based_on, crate::specs::Tails::based_second))]
fn based_on<Q: Questions>(
    alloc: Global,
    questions: &Q,
    state: &mut State,
    callee: Node,
    of: TypeId,
    class: Option<TypeId>,
    declared: Option<TypeId>,
    object: TreeId,
) -> Result<Node, Stop>
    requires ready { Q.is_ready questions.now }
    requires callee { IsNodeHeld state.old callee }
    requires of { of.0 < length (state.old).types }
    requires class { IsTypeNumberBelow (length (state.old).types) class }
    requires declared { IsTypeNumberBelow (length (state.old).types) declared }
    requires object { object.0 < length (trees state.old) }
    ensures { IsAnswered node_tree IsNodeHeld state.old state.new result (calls.based_on (Q.asks questions.now) (node_tree state.old callee) (type_of state.old of) (type_of_option (state.old).types class) (type_of_option (state.old).types declared) (tree state.old object) (meaning state.old)) }
{
    let place = place_in(&callee);
    let is_lvalue = is_lvalue(state, object);
    let first = step_to(alloc, questions, state, place, of, of, class, object)?;
    based_second(
        alloc, questions, state, callee, of, class, declared, is_lvalue, first,
    )
}

#[tactic(auto, using(cxx_expr::proofs::Kept::later_trans, cxx_expr::proofs::NodeKept::node_later, cxx_expr::proofs::NodeKept::node_kept, cxx_expr::proofs::Kept::type_later, cxx_expr::proofs::Kept::type_kept, crate::proofs::Chosen::object_later, crate::proofs::Chosen::object_kept))]
fn based_over<Q: Questions>(
    alloc: Global,
    questions: &Q,
    state: &mut State,
    callee: Node,
    of: TypeId,
    class: Option<TypeId>,
    declared: Option<TypeId>,
    one: TreeId,
) -> Result<Node, Stop>
    requires ready { Q.is_ready questions.now }
    requires callee { IsNodeHeld state.old callee }
    requires of { of.0 < length (state.old).types }
    requires class { IsTypeNumberBelow (length (state.old).types) class }
    requires declared { IsTypeNumberBelow (length (state.old).types) declared }
    requires one { one.0 < length (trees state.old) }
    ensures { IsAnswered node_tree IsNodeHeld state.old state.new result (calls.based_by (Q.asks questions.now) (node_tree state.old callee) (type_of state.old of) (type_of_option (state.old).types class) (type_of_option (state.old).types declared) (Some (tree state.old one)) (meaning state.old)) }
{
    let object = object_called(alloc, state, &callee, of, one)?;
    based_on(alloc, questions, state, callee, of, class, declared, object)
}

// Behind a class, for a static function.
fn static_named(state: &State, callee: Node, class: Option<TypeId>) -> Node
    requires callee { IsNodeHeld state.now callee }
    requires class { IsTypeNumberBelow (length (state.now).types) class }
    ensures is { node_tree state.now result ≡ calls.qualified (node_tree state.now callee) (type_of_option (state.now).types class) }
    ensures held { IsNodeHeld state.now result }
{
    let _ = state;
    let mut callee = callee;
    callee.of = class;
    callee
}

// The same, where that is one of the object's class.
#[tactic(auto, using(cxx_expr::proofs::Kept::later_refl))]
fn static_over(
    alloc: Global,
    state: &State,
    callee: Node,
    of: TypeId,
    class: Option<TypeId>,
    declared: Option<TypeId>,
) -> Result<Node, Stop>
    requires callee { IsNodeHeld state.now callee }
    requires of { of.0 < length (state.now).types }
    requires class { IsTypeNumberBelow (length (state.now).types) class }
    requires declared { IsTypeNumberBelow (length (state.now).types) declared }
    ensures { IsAnswered node_tree IsNodeHeld state.now state.now result (calls.static_over (node_tree state.now callee) (type_of state.now of) (type_of_option (state.now).types class) (type_of_option (state.now).types declared) (meaning state.now)) }
{
    shared(alloc, state, place_in(&callee), of, class, declared)?;
    let before = class_before(state, false, of, class, declared);
    Ok(static_named(state, callee, before))
}

// Given the class that declares the function.
#[tactic(auto, using(cxx_expr::proofs::Kept::later_refl))]
fn based_to<Q: Questions>(
    alloc: Global,
    questions: &Q,
    state: &mut State,
    callee: Node,
    of: TypeId,
    class: Option<TypeId>,
    declared: Option<TypeId>,
    target: FactId,
) -> Result<Node, Stop>
    requires ready { Q.is_ready questions.now }
    requires callee { IsNodeHeld state.old callee }
    requires of { of.0 < length (state.old).types }
    requires class { IsTypeNumberBelow (length (state.old).types) class }
    requires declared { IsTypeNumberBelow (length (state.old).types) declared }
    ensures { IsAnswered node_tree IsNodeHeld state.old state.new result (tails.based_to (Q.asks questions.now) (node_tree state.old callee) (type_of state.old of) (type_of_option (state.old).types class) (type_of_option (state.old).types declared) target.0 (meaning state.old)) }
{
    if is_static_at(state, target) {
        return static_over(alloc, state, callee, of, class, declared);
    }
    match only_child(state, &callee) {
        None => Err(Stop::Fault(misshapen(alloc, callee.start)?)),
        Some(one) => based_over(alloc, questions, state, callee, of, class, declared, one),
    }
}

/// What is called, once it is known which function that is, given the class that is written before it: its object as one of
/// that class and of the one that declares the function (13.3.1.1.1).
#[tactic(auto, using(cxx_expr::proofs::Kept::later_trans, cxx_expr::proofs::NodeKept::node_later, cxx_expr::proofs::NodeKept::node_kept, cxx_expr::proofs::Kept::type_later, cxx_expr::proofs::Kept::type_kept, crate::proofs::Chosen::object_later, crate::proofs::Chosen::object_kept), unfolding(cxx_expr::specs::Calls::based))]
pub(crate) fn based<Q: Questions>(
    alloc: Global,
    questions: &Q,
    state: &mut State,
    callee: Node,
    of: TypeId,
    class: Option<TypeId>,
    target: FactId,
) -> Result<Node, Stop>
    requires ready { Q.is_ready questions.now }
    requires callee { IsNodeHeld state.old callee }
    requires of { of.0 < length (state.old).types }
    requires class { IsTypeNumberBelow (length (state.old).types) class }
    ensures { IsAnswered node_tree IsNodeHeld state.old state.new result (calls.based (Q.asks questions.now) (node_tree state.old callee) (type_of state.old of) (type_of_option (state.old).types class) target.0 (meaning state.old)) }
{
    let declared = declaring(state, target)?;
    based_to(alloc, questions, state, callee, of, class, declared, target)
}
