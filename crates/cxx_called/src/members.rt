//! Members of objects, and of what is pointed to (5.2.5).

ghost use Rattle.std.specs.Prelude.{ℕ, List, ◌≡◌, ◌<◌, [], Some, Ok, length, true};
ghost use Rattle.cxx_builtin.specs.Built.{IsBuiltBelow, built_at};
ghost use Rattle.cxx_model.specs.Facts.Declarations.{declares_at, type_of_option};
ghost use Rattle.cxx_model.specs.Facts.Fitted.{IsEntityBelow, IsTypeNumberBelow};
ghost use Rattle.cxx_model.specs.Facts.Graph.{IsClassNumberInRange};
ghost use Rattle.cxx_model.specs.Stops.{Gives};
ghost use Rattle.cxx_model.specs.Types.Numbers.{type_at};
ghost use Rattle.cxx_model.specs.Types.Trees.{CxxType};
ghost use Rattle.cxx_standard.specs.Views.{IsKindInRange, kind_at, operand_at};
ghost use Rattle.cxx_this.specs.Made.{MayMake};
ghost use Rattle.cxx_tree.specs.Answered.{IsAnswered};
ghost use Rattle.cxx_tree.specs.Arena.{label_at};
ghost use Rattle.cxx_tree.specs.Held.{meaning, tree, trees, type_of};
ghost use Rattle.cxx_expr.specs.Making.{AreTreesHeld, GrowsOperand, GrowsTree, IsTreeKnown, trees_held};
ghost use Rattle.cxx_expr.specs.Members as definition;
ghost use Rattle.cxx_expr.specs.Names.{path_in, word_in as word_in_label};
ghost use Rattle.cxx_expr.specs.Nodes.{IsNodeHeld, IsOneKnown, node_tree, one_tree};
ghost use Rattle.cxx_expr.specs.Operands.{is_of_class as is_of_class_tree, object_operand};
ghost use Rattle.cxx_expr.specs.Steps.{class_in as class_in_of, declaring as declaring_of};
ghost use Rattle.cxx_expr.specs.Views.{AreFactsKnown, IsClassKnown, class_of_number, class_of_option, numbered};
ghost use Rattle.cxx_called.specs.Tails as tails;
ghost use Rattle.cxx_called.specs.Views.{IsMeant, IsOfThere, means_of};

use crate::bases::{has_one, is_lvalue, object_called, shared, step, within};
use crate::classes::{class_before, declaring, is_static_at, written};
use crate::facts::{fact_at, first_or, values_among};
use crate::names::{
    Meant, is_nonstatic, means_enumerator, means_function, means_object, no_path, no_value,
    place_in,
};
use cxx_builtin::BuiltIn;
use cxx_expr::converting::convert_each;
use cxx_expr::faults::not_built_at;
use cxx_expr::nodes::{given_over, only, only_child};
use cxx_expr::operands::operand_of;
use cxx_expr::operators::{listed_one, meaning_of, misshapen, no_fit, operands_one};
use cxx_expr::production::{MEMBER, NAME};
use cxx_expr::{Questions, is_function_at};
use cxx_graph::Graph;
use cxx_model::{
    ClassId, ConstantKind, Cv, Entity, FactId, FactList, Listed, MemberKind, Node, Operand, Place,
    Stop, TreeId, TreeIdList, TypeId, TypeNode, punct,
};
use cxx_standard::{TypeKind, cv_of, kind_of};
use cxx_tree::State;
use cxx_types::TypeTable;
use std::alloc::Global;

// ---- the class of an object

// The class that a kind of types is.
fn class_in(graph: &Graph, types: &TypeTable, kind: TypeKind) -> Option<ClassId>
    requires { IsKindInRange graph.now (kind_at types.now kind) }
    ensures is { class_of_option result ≡ class_in_of (kind_at types.now kind) }
    ensures there { IsClassNumberInRange graph.now result }
{
    let _ = graph;
    let _ = types;
    match kind {
        TypeKind::Class(class) => Some(class),
        _ => None,
    }
}

fn class_of_object(state: &State, operand: Operand) -> Option<ClassId>
    requires { operand.of.0 < length (state.now).types }
    ensures is { class_of_option result ≡ definition.class_of_object (operand_at (state.now).types operand) }
    ensures there { IsClassNumberInRange (state.now).graph result }
{
    let kind = kind_of(state.graph(), state.types(), operand.of);
    class_in(state.graph(), state.types(), kind)
}

/// The class of the objects of a type.
pub(crate) fn class_of_type(state: &State, of: TypeId) -> Option<ClassId>
    requires { of.0 < length (state.now).types }
    ensures is { class_of_option result ≡ definition.class_of_object (object_operand (type_of state.now of)) }
    ensures there { IsClassNumberInRange (state.now).graph result }
{
    let object = Operand {
        of,
        lvalue: true,
        constant: ConstantKind::No,
    };
    class_of_object(state, object)
}

// ---- what a member gives

// A member that is mutable is not const by its object (7.1.1).
fn lent_cv(is_mutable: bool, cv: Cv) -> Cv
    ensures { result ≡ definition.lent_cv is_mutable cv }
{
    if is_mutable {
        Cv {
            is_const: false,
            is_volatile: cv.is_volatile,
        }
    } else {
        cv
    }
}

// A member that is no reference.
fn lent_object(
    state: &mut State,
    object: Operand,
    is_mutable: bool,
    of: TypeId,
) -> Result<Operand, Stop>
    requires object { object.of.0 < length (state.old).types }
    requires of { of.0 < length (state.old).types }
    ensures { GrowsOperand state.old state.new result (definition.lent_object (operand_at (state.old).types object) is_mutable (type_of state.old of)) }
{
    let cv = lent_cv(is_mutable, cv_of(state.types(), object.of));
    match state.with_cv(of, cv) {
        Ok(of) => Ok(Operand {
            of,
            lvalue: object.lvalue,
            constant: ConstantKind::No,
        }),
        Err(_) => Err(Stop::OutOfMemory),
    }
}

// What a nonstatic data member gives.
#[tactic(auto, using(cxx_expr::proofs::Kept::later_refl))]
fn lent_operand(
    state: &mut State,
    object: Operand,
    is_mutable: bool,
    of: TypeId,
) -> Result<Operand, Stop>
    requires object { object.of.0 < length (state.old).types }
    requires of { of.0 < length (state.old).types }
    ensures { GrowsOperand state.old state.new result (definition.lent_operand (operand_at (state.old).types object) is_mutable (type_of state.old of)) }
{
    match state.types().node(of) {
        TypeNode::Reference(to) => Ok(Operand {
            of: *to,
            lvalue: true,
            constant: ConstantKind::No,
        }),
        _ => lent_object(state, object, is_mutable, of),
    }
}

fn means_lent(
    state: &mut State,
    object: Operand,
    target: FactId,
    is_mutable: bool,
    of: TypeId,
) -> Result<Meant, Stop>
    requires object { object.of.0 < length (state.old).types }
    requires of { of.0 < length (state.old).types }
    ensures { IsAnswered means_of IsMeant state.old state.new result (Ok (definition.means_lent (operand_at (state.old).types object) target.0 is_mutable (type_of state.old of), meaning state.old)) }
{
    let operand = lent_operand(state, object, is_mutable, of)?;
    Ok(Meant {
        target,
        operand,
        is_enumerator: false,
    })
}

// A static member is the same for each object (9.4.2).
#[tactic(auto, using(cxx_expr::proofs::Kept::later_refl))]
fn means_data(
    state: &mut State,
    object: Operand,
    target: FactId,
    member: MemberKind,
    is_mutable: bool,
    of: TypeId,
) -> Result<Meant, Stop>
    requires object { object.of.0 < length (state.old).types }
    requires of { of.0 < length (state.old).types }
    ensures { IsAnswered means_of IsMeant state.old state.new result (Ok (definition.means_data (meaning state.old).graph (operand_at (state.old).types object) target.0 member is_mutable (type_of state.old of), meaning state.old)) }
{
    if is_nonstatic(member) {
        return means_lent(state, object, target, is_mutable, of);
    }
    Ok(means_object(state, target, of))
}

// Whether a name is spelled by one byte, that of the bracket which stands behind it (5.2.2).
fn spells_byte(byte: u8, spelling: &[u8]) -> bool
    ensures { result ≡ definition.spells_byte byte spelling.now }
{
    match spelling {
        [one] => *one == byte,
        _ => false,
    }
}

// Whether the bracket of arguments follows.
fn is_called(node: &Node) -> bool
    ensures { result ≡ definition.is_called (label_at [] node.now) }
{
    spells_byte(40, node.spelling.as_slice())
}

// Whether a bracket closes behind it.
fn is_closed(node: &Node) -> bool
    ensures { result ≡ definition.is_closed_by node.now.spelling }
{
    spells_byte(41, node.spelling.as_slice())
}

// A function: it is meant by what is called, and else it is named alone (9.3, 13.4).
#[tactic(auto, using(cxx_expr::proofs::Kept::later_refl))]
fn selected_function(
    alloc: Global,
    state: &mut State,
    node: &Node,
    member: MemberKind,
    target: FactId,
    of: TypeId,
    values: &[FactId],
) -> Result<Meant, Stop>
    requires of { of.0 < length (state.old).types }
    requires values { AreFactsKnown state.old values.now }
    ensures { IsAnswered means_of IsMeant state.old state.new result (definition.selected_function (word_in_label (label_at (state.old).types node.now)) node.now.spelling (meaning state.old).graph member target.0 (type_of state.old of) (numbered state.old values.now) (meaning state.old)) }
{
    if is_called(node) {
        return Ok(means_object(state, target, of));
    }
    if is_closed(node) {
        return Err(Stop::Fault(not_built_at(alloc, place_in(node))?));
    }
    means_function(alloc, state, place_in(node), member, target, of, values)
}

#[tactic(auto, using(cxx_expr::proofs::Kept::later_refl))]
fn selected_first(
    alloc: Global,
    state: &mut State,
    node: &Node,
    object: Operand,
    values: &[FactId],
    number: FactId,
    what: Entity,
) -> Result<Meant, Stop>
    requires object { object.of.0 < length (state.old).types }
    requires values { AreFactsKnown state.old values.now }
    requires below { IsEntityBelow (length (state.old).types) what }
    requires there { IsOfThere (state.old).graph what }
    ensures { IsAnswered means_of IsMeant state.old state.new result (definition.selected_first (word_in_label (label_at (state.old).types node.now)) node.now.spelling (operand_at (state.old).types object) (meaning state.old).graph (meaning state.old).here.enumeration (numbered state.old values.now) number.0 (declares_at (state.old).types what) (meaning state.old)) }
{
    match what {
        Entity::Object {
            of,
            member,
            is_mutable,
            first,
            ..
        } => means_data(
            state,
            object,
            first_or(number, first),
            member,
            is_mutable,
            of,
        ),
        Entity::Enumerator {
            number: list,
            value,
        } => means_enumerator(state, number, list, value),
        Entity::Function {
            of,
            member,
            first,
            ..
        } => {
            let target = first_or(number, first);
            selected_function(alloc, state, node, member, target, of, values)
        }
        _ => Err(Stop::Fault(not_built_at(alloc, place_in(node))?)),
    }
}

#[tactic(auto, using(cxx_expr::proofs::Kept::later_refl, crate::proofs::First::value_first))]
fn selected_value(
    alloc: Global,
    state: &mut State,
    node: &Node,
    object: Operand,
    all: &[FactId],
    values: &[FactId],
) -> Result<Meant, Stop>
    requires object { object.of.0 < length (state.old).types }
    requires all { AreFactsKnown state.old all.now }
    requires values { AreFactsKnown state.old values.now }
    ensures { IsAnswered means_of IsMeant state.old state.new result (definition.selected_value (word_in_label (label_at (state.old).types node.now)) node.now.spelling (operand_at (state.old).types object) (numbered state.old all.now) (numbered state.old values.now) (meaning state.old)) }
{
    match values {
        [] => Err(Stop::Fault(no_value(alloc, state, node, all)?)),
        [one, ..] => {
            let what = fact_at(state, *one).what;
            selected_first(alloc, state, node, object, values, *one, what)
        }
    }
}

// What a name means that has these declarations as a member of an object's class.
#[tactic(auto, using(cxx_expr::proofs::Kept::later_refl), unfolding(cxx_expr::specs::Members::selected_by))]
fn selected_by(
    alloc: Global,
    state: &mut State,
    node: &Node,
    object: Operand,
    all: &[FactId],
) -> Result<Meant, Stop>
    requires object { object.of.0 < length (state.old).types }
    requires all { AreFactsKnown state.old all.now }
    ensures { IsAnswered means_of IsMeant state.old state.new result (definition.selected_by (word_in_label (label_at (state.old).types node.now)) node.now.spelling (operand_at (state.old).types object) (numbered state.old all.now) (meaning state.old)) }
{
    let values = values_among(alloc, state, all)?;
    selected_value(alloc, state, node, object, all, values.as_slice())
}

// ---- the tree

// An enumerator is the same for each object, and it is none of its parts.
fn enumerator_tree(state: &mut State, node: Node, meant: Meant) -> Result<TreeId, Stop>
    requires node { IsNodeHeld state.old node }
    requires meant { IsMeant state.old meant }
    ensures { GrowsTree state.old state.new result (definition.enumerator_tree (node_tree state.old node) (means_of state.old meant)) }
{
    let none = Listed::new(state.alloc());
    let mut node = node;
    node.production = NAME;
    node.target = Some(meant.target);
    given_over(state, node, meant.operand, none)
}

// A member over its object, with the class that stands before its name.
fn data_tree(
    state: &mut State,
    node: Node,
    parts: TreeIdList,
    meant: Meant,
    class: Option<TypeId>,
) -> Result<TreeId, Stop>
    requires node { IsNodeHeld state.old node }
    requires parts { AreTreesHeld state.old parts }
    requires meant { IsMeant state.old meant }
    requires class { IsTypeNumberBelow (length (state.old).types) class }
    ensures { GrowsTree state.old state.new result (definition.data_tree (node_tree state.old node) (trees_held state.old parts) (means_of state.old meant) (type_of_option (state.old).types class)) }
{
    let mut node = node;
    node.of = class;
    node.target = Some(meant.target);
    given_over(state, node, meant.operand, parts)
}

// A function that is called: its type is that of the object.
fn function_tree(
    state: &mut State,
    node: Node,
    object: Operand,
    parts: TreeIdList,
    meant: Meant,
) -> Result<TreeId, Stop>
    requires node { IsNodeHeld state.old node }
    requires object { object.of.0 < length (state.old).types }
    requires parts { AreTreesHeld state.old parts }
    requires meant { IsMeant state.old meant }
    ensures { GrowsTree state.old state.new result (definition.function_tree (node_tree state.old node) (operand_at (state.old).types object) (trees_held state.old parts) (means_of state.old meant)) }
{
    let mut node = node;
    node.of = Some(object.of);
    node.target = Some(meant.target);
    given_over(state, node, meant.operand, parts)
}

// ---- the object of a data member

// Over an object that is converted.
fn placed_tree(
    alloc: Global,
    state: &mut State,
    node: Node,
    object: TreeId,
    meant: Meant,
    class: Option<TypeId>,
) -> Result<TreeId, Stop>
    requires node { IsNodeHeld state.old node }
    requires object { object.0 < length (trees state.old) }
    requires meant { IsMeant state.old meant }
    requires class { IsTypeNumberBelow (length (state.old).types) class }
    ensures { GrowsTree state.old state.new result (definition.placed_tree (node_tree state.old node) (tree state.old object) (means_of state.old meant) (type_of_option (state.old).types class)) }
{
    let parts = listed_one(alloc, object)?;
    let mut node = node;
    node.production = MEMBER;
    node.of = class;
    node.target = Some(meant.target);
    given_over(state, node, meant.operand, parts)
}

// Where a value is named behind a class, that stays.
fn class_of_value(is_lvalue: bool, class: TypeId) -> Option<TypeId>
    ensures is { (types : List CxxType) → type_of_option types result ≡ definition.class_of_value is_lvalue (type_at types class.0) }
    ensures below { (count : ℕ) → class.0 < count → IsTypeNumberBelow count result }
{
    if is_lvalue { None } else { Some(class) }
}

// The class that is written has one subobject of that which declares the member (10.2).
fn has_one_of(
    alloc: Global,
    state: &State,
    place: Place,
    class: TypeId,
    declared: Option<TypeId>,
) -> Result<(), Stop>
    requires class { class.0 < length (state.now).types }
    requires declared { IsTypeNumberBelow (length (state.now).types) declared }
    ensures { Gives (λ done. done) result (definition.has_one (meaning state.now).graph place (type_of state.now class) (type_of_option (state.now).types declared)) }
{
    match declared {
        None => Ok(()),
        Some(declared) => {
            within(alloc, state, place, class, Some(declared))?;
            has_one(alloc, state, place, class, declared)
        }
    }
}

// Given the class that declares the member.
#[tactic(auto, using(cxx_expr::proofs::Kept::later_refl))]
fn reached_from(
    alloc: Global,
    state: &mut State,
    node: Node,
    class: TypeId,
    declared: Option<TypeId>,
    meant: Meant,
    object: TreeId,
    is_lvalue: bool,
) -> Result<TreeId, Stop>
    requires node { IsNodeHeld state.old node }
    requires class { class.0 < length (state.old).types }
    requires declared { IsTypeNumberBelow (length (state.old).types) declared }
    requires meant { IsMeant state.old meant }
    requires object { object.0 < length (trees state.old) }
    ensures { IsAnswered tree IsTreeKnown state.old state.new result (tails.reached_from (node_tree state.old node) (type_of state.old class) (type_of_option (state.old).types declared) (means_of state.old meant) (tree state.old object) is_lvalue (meaning state.old)) }
{
    has_one_of(alloc, state, place_in(&node), class, declared)?;
    let before = class_of_value(is_lvalue, class);
    placed_tree(alloc, state, node, object, meant, before)
}

#[tactic(auto, using(cxx_expr::proofs::Kept::later_trans, cxx_expr::proofs::NodeKept::node_later, cxx_expr::proofs::NodeKept::node_kept, cxx_expr::proofs::Kept::type_later, cxx_expr::proofs::Kept::type_kept, cxx_expr::proofs::Kept::tree_later, cxx_expr::proofs::Kept::tree_kept, crate::proofs::Chosen::means_later, crate::proofs::Chosen::means_kept))]
fn reached(
    alloc: Global,
    state: &mut State,
    node: Node,
    class: TypeId,
    meant: Meant,
    object: TreeId,
    is_lvalue: bool,
) -> Result<TreeId, Stop>
    requires node { IsNodeHeld state.old node }
    requires class { class.0 < length (state.old).types }
    requires meant { IsMeant state.old meant }
    requires object { object.0 < length (trees state.old) }
    ensures { IsAnswered tree IsTreeKnown state.old state.new result (definition.reached (node_tree state.old node) (type_of state.old class) (means_of state.old meant) (tree state.old object) is_lvalue (meaning state.old)) }
{
    let declared = declaring(state, meant.target)?;
    reached_from(
        alloc, state, node, class, declared, meant, object, is_lvalue,
    )
}

// Over an object as one of the class that is written.
#[tactic(auto, using(cxx_expr::proofs::Kept::later_trans, cxx_expr::proofs::NodeKept::node_later, cxx_expr::proofs::NodeKept::node_kept, cxx_expr::proofs::Kept::type_later, cxx_expr::proofs::Kept::type_kept, crate::proofs::Chosen::means_later, crate::proofs::Chosen::means_kept), unfolding(cxx_expr::specs::Members::placed_on))]
fn placed_on<Q: Questions>(
    alloc: Global,
    questions: &Q,
    state: &mut State,
    node: Node,
    of: TypeId,
    class: TypeId,
    meant: Meant,
    object: TreeId,
) -> Result<TreeId, Stop>
    requires ready { Q.is_ready questions.now }
    requires node { IsNodeHeld state.old node }
    requires of { of.0 < length (state.old).types }
    requires class { class.0 < length (state.old).types }
    requires meant { IsMeant state.old meant }
    requires object { object.0 < length (trees state.old) }
    ensures { IsAnswered tree IsTreeKnown state.old state.new result (definition.placed_on (Q.asks questions.now) (node_tree state.old node) (type_of state.old of) (type_of state.old class) (means_of state.old meant) (tree state.old object) (meaning state.old)) }
{
    let place = place_in(&node);
    let is_lvalue = is_lvalue(state, object);
    let base = step(alloc, questions, state, place, of, of, class, object)?;
    reached(alloc, state, node, class, meant, base, is_lvalue)
}

#[tactic(auto, using(cxx_expr::proofs::Kept::later_trans, cxx_expr::proofs::NodeKept::node_later, cxx_expr::proofs::NodeKept::node_kept, cxx_expr::proofs::Kept::type_later, cxx_expr::proofs::Kept::type_kept, crate::proofs::Chosen::means_later, crate::proofs::Chosen::means_kept))]
fn placed_over<Q: Questions>(
    alloc: Global,
    questions: &Q,
    state: &mut State,
    node: Node,
    of: TypeId,
    class: TypeId,
    meant: Meant,
    one: TreeId,
) -> Result<TreeId, Stop>
    requires ready { Q.is_ready questions.now }
    requires node { IsNodeHeld state.old node }
    requires of { of.0 < length (state.old).types }
    requires class { class.0 < length (state.old).types }
    requires meant { IsMeant state.old meant }
    requires one { one.0 < length (trees state.old) }
    ensures { IsAnswered tree IsTreeKnown state.old state.new result (definition.placed_by (Q.asks questions.now) (node_tree state.old node) (type_of state.old of) (type_of state.old class) (means_of state.old meant) (Some (tree state.old one)) (meaning state.old)) }
{
    let object = object_called(alloc, state, &node, of, one)?;
    placed_on(alloc, questions, state, node, of, class, meant, object)
}

#[tactic(auto, using(cxx_expr::proofs::Kept::later_refl))]
fn placed_by<Q: Questions>(
    alloc: Global,
    questions: &Q,
    state: &mut State,
    node: Node,
    of: TypeId,
    class: TypeId,
    meant: Meant,
    one: Option<TreeId>,
) -> Result<TreeId, Stop>
    requires ready { Q.is_ready questions.now }
    requires node { IsNodeHeld state.old node }
    requires of { of.0 < length (state.old).types }
    requires class { class.0 < length (state.old).types }
    requires meant { IsMeant state.old meant }
    requires one { IsOneKnown state.old one }
    ensures { IsAnswered tree IsTreeKnown state.old state.new result (definition.placed_by (Q.asks questions.now) (node_tree state.old node) (type_of state.old of) (type_of state.old class) (means_of state.old meant) (one_tree state.old one) (meaning state.old)) }
{
    match one {
        None => Err(Stop::Fault(misshapen(alloc, node.start)?)),
        Some(one) => placed_over(alloc, questions, state, node, of, class, meant, one),
    }
}

// Given the class that declares the member, where no class is written before it.
#[tactic(auto, using(cxx_expr::proofs::Kept::later_refl))]
fn owned_from(
    alloc: Global,
    state: &mut State,
    node: Node,
    of: TypeId,
    declared: Option<TypeId>,
    parts: TreeIdList,
    meant: Meant,
) -> Result<TreeId, Stop>
    requires node { IsNodeHeld state.old node }
    requires of { of.0 < length (state.old).types }
    requires declared { IsTypeNumberBelow (length (state.old).types) declared }
    requires parts { AreTreesHeld state.old parts }
    requires meant { IsMeant state.old meant }
    ensures { IsAnswered tree IsTreeKnown state.old state.new result (tails.owned_from (node_tree state.old node) (type_of state.old of) (trees_held state.old parts) (means_of state.old meant) (type_of_option (state.old).types declared) (meaning state.old)) }
{
    has_one_of(alloc, state, place_in(&node), of, declared)?;
    data_tree(state, node, parts, meant, None)
}

// The object's own class has one subobject of that of the member (10.2).
#[tactic(auto, using(cxx_expr::proofs::Kept::later_trans, cxx_expr::proofs::NodeKept::node_later, cxx_expr::proofs::NodeKept::node_kept, cxx_expr::proofs::Kept::type_later, cxx_expr::proofs::Kept::type_kept, cxx_expr::proofs::Kept::trees_later, cxx_expr::proofs::Kept::trees_kept, crate::proofs::Chosen::means_later, crate::proofs::Chosen::means_kept))]
fn owned(
    alloc: Global,
    state: &mut State,
    node: Node,
    of: TypeId,
    parts: TreeIdList,
    meant: Meant,
) -> Result<TreeId, Stop>
    requires node { IsNodeHeld state.old node }
    requires of { of.0 < length (state.old).types }
    requires parts { AreTreesHeld state.old parts }
    requires meant { IsMeant state.old meant }
    ensures { IsAnswered tree IsTreeKnown state.old state.new result (definition.owned (node_tree state.old node) (type_of state.old of) (trees_held state.old parts) (means_of state.old meant) (meaning state.old)) }
{
    let declared = declaring(state, meant.target)?;
    owned_from(alloc, state, node, of, declared, parts, meant)
}

// A data member is one of the class that is written before it (5.2.5).
#[tactic(auto, using(cxx_expr::proofs::Kept::later_refl))]
fn placed<Q: Questions>(
    alloc: Global,
    questions: &Q,
    state: &mut State,
    node: Node,
    of: TypeId,
    parts: TreeIdList,
    class: Option<TypeId>,
    meant: Meant,
) -> Result<TreeId, Stop>
    requires ready { Q.is_ready questions.now }
    requires node { IsNodeHeld state.old node }
    requires of { of.0 < length (state.old).types }
    requires parts { AreTreesHeld state.old parts }
    requires class { IsTypeNumberBelow (length (state.old).types) class }
    requires meant { IsMeant state.old meant }
    ensures { IsAnswered tree IsTreeKnown state.old state.new result (definition.placed (Q.asks questions.now) (node_tree state.old node) (type_of state.old of) (trees_held state.old parts) (type_of_option (state.old).types class) (means_of state.old meant) (meaning state.old)) }
{
    match class {
        None => owned(alloc, state, node, of, parts, meant),
        Some(class) => {
            let one = only(state, parts.as_slice());
            placed_by(alloc, questions, state, node, of, class, meant, one)
        }
    }
}

// ---- any member that is not called

// The class before a static member: a function may have the name of another one.
fn static_before(
    state: &State,
    of: TypeId,
    class: Option<TypeId>,
    declared: Option<TypeId>,
    target: FactId,
) -> Option<TypeId>
    requires of { of.0 < length (state.now).types }
    requires class { IsTypeNumberBelow (length (state.now).types) class }
    requires declared { IsTypeNumberBelow (length (state.now).types) declared }
    ensures is { type_of_option (state.now).types result ≡ definition.static_before (meaning state.now).graph (type_of state.now of) (type_of_option (state.now).types class) (type_of_option (state.now).types declared) target.0 }
    ensures below { IsTypeNumberBelow (length (state.now).types) result }
{
    if is_function_at(state, target) {
        class_before(state, false, of, class, declared)
    } else {
        class
    }
}

// Given the class that declares the member.
#[tactic(auto, using(cxx_expr::proofs::Kept::later_refl))]
fn static_from(
    alloc: Global,
    state: &mut State,
    node: Node,
    of: TypeId,
    parts: TreeIdList,
    class: Option<TypeId>,
    declared: Option<TypeId>,
    meant: Meant,
) -> Result<TreeId, Stop>
    requires node { IsNodeHeld state.old node }
    requires of { of.0 < length (state.old).types }
    requires parts { AreTreesHeld state.old parts }
    requires class { IsTypeNumberBelow (length (state.old).types) class }
    requires declared { IsTypeNumberBelow (length (state.old).types) declared }
    requires meant { IsMeant state.old meant }
    ensures { IsAnswered tree IsTreeKnown state.old state.new result (definition.static_from (node_tree state.old node) (type_of state.old of) (trees_held state.old parts) (type_of_option (state.old).types class) (type_of_option (state.old).types declared) (means_of state.old meant) (meaning state.old)) }
{
    shared(alloc, state, place_in(&node), of, class, declared)?;
    let before = static_before(state, of, class, declared, meant.target);
    data_tree(state, node, parts, meant, before)
}

// A static member is the same for each object (9.4).
#[tactic(auto, using(cxx_expr::proofs::Kept::later_trans, cxx_expr::proofs::NodeKept::node_later, cxx_expr::proofs::NodeKept::node_kept, cxx_expr::proofs::Kept::type_later, cxx_expr::proofs::Kept::type_kept, cxx_expr::proofs::Kept::trees_later, cxx_expr::proofs::Kept::trees_kept, crate::proofs::Chosen::object_later, crate::proofs::Chosen::object_kept, crate::proofs::Chosen::means_later, crate::proofs::Chosen::means_kept))]
fn static_member(
    alloc: Global,
    state: &mut State,
    node: Node,
    of: TypeId,
    parts: TreeIdList,
    class: Option<TypeId>,
    meant: Meant,
) -> Result<TreeId, Stop>
    requires node { IsNodeHeld state.old node }
    requires of { of.0 < length (state.old).types }
    requires parts { AreTreesHeld state.old parts }
    requires class { IsTypeNumberBelow (length (state.old).types) class }
    requires meant { IsMeant state.old meant }
    ensures { IsAnswered tree IsTreeKnown state.old state.new result (definition.static_from (node_tree state.old node) (type_of state.old of) (trees_held state.old parts) (type_of_option (state.old).types class) (declaring_of (meaning state.old).graph meant.target.0) (means_of state.old meant) (meaning state.old)) }
{
    let declared = declaring(state, meant.target)?;
    static_from(alloc, state, node, of, parts, class, declared, meant)
}

#[tactic(auto, using(cxx_expr::proofs::Kept::later_refl))]
fn selected_object<Q: Questions>(
    alloc: Global,
    questions: &Q,
    state: &mut State,
    node: Node,
    of: TypeId,
    parts: TreeIdList,
    class: Option<TypeId>,
    meant: Meant,
) -> Result<TreeId, Stop>
    requires ready { Q.is_ready questions.now }
    requires node { IsNodeHeld state.old node }
    requires of { of.0 < length (state.old).types }
    requires parts { AreTreesHeld state.old parts }
    requires class { IsTypeNumberBelow (length (state.old).types) class }
    requires meant { IsMeant state.old meant }
    ensures { IsAnswered tree IsTreeKnown state.old state.new result (definition.selected_object (Q.asks questions.now) (node_tree state.old node) (type_of state.old of) (trees_held state.old parts) (type_of_option (state.old).types class) (means_of state.old meant) (meaning state.old)) }
{
    if is_static_at(state, meant.target) {
        return static_member(alloc, state, node, of, parts, class, meant);
    }
    placed(alloc, questions, state, node, of, parts, class, meant)
}

// An enumerator, given the class that declares it.
#[tactic(auto, using(cxx_expr::proofs::Kept::later_refl))]
fn enumerator_from(
    alloc: Global,
    state: &mut State,
    node: Node,
    of: TypeId,
    class: Option<TypeId>,
    declared: Option<TypeId>,
    meant: Meant,
) -> Result<TreeId, Stop>
    requires node { IsNodeHeld state.old node }
    requires of { of.0 < length (state.old).types }
    requires class { IsTypeNumberBelow (length (state.old).types) class }
    requires declared { IsTypeNumberBelow (length (state.old).types) declared }
    requires meant { IsMeant state.old meant }
    ensures { IsAnswered tree IsTreeKnown state.old state.new result (definition.enumerator_from (node_tree state.old node) (type_of state.old of) (type_of_option (state.old).types class) (type_of_option (state.old).types declared) (means_of state.old meant) (meaning state.old)) }
{
    shared(alloc, state, place_in(&node), of, class, declared)?;
    enumerator_tree(state, node, meant)
}

#[tactic(auto, using(cxx_expr::proofs::Kept::later_trans, cxx_expr::proofs::NodeKept::node_later, cxx_expr::proofs::NodeKept::node_kept, cxx_expr::proofs::Kept::type_later, cxx_expr::proofs::Kept::type_kept, crate::proofs::Chosen::object_later, crate::proofs::Chosen::object_kept, crate::proofs::Chosen::means_later, crate::proofs::Chosen::means_kept))]
fn enumerator_member(
    alloc: Global,
    state: &mut State,
    node: Node,
    of: TypeId,
    class: Option<TypeId>,
    meant: Meant,
) -> Result<TreeId, Stop>
    requires node { IsNodeHeld state.old node }
    requires of { of.0 < length (state.old).types }
    requires class { IsTypeNumberBelow (length (state.old).types) class }
    requires meant { IsMeant state.old meant }
    ensures { IsAnswered tree IsTreeKnown state.old state.new result (definition.enumerator_from (node_tree state.old node) (type_of state.old of) (type_of_option (state.old).types class) (declaring_of (meaning state.old).graph meant.target.0) (means_of state.old meant) (meaning state.old)) }
{
    let declared = declaring(state, meant.target)?;
    enumerator_from(alloc, state, node, of, class, declared, meant)
}

#[tactic(auto, using(cxx_expr::proofs::Kept::later_refl))]
fn selected_as<Q: Questions>(
    alloc: Global,
    questions: &Q,
    state: &mut State,
    node: Node,
    of: TypeId,
    parts: TreeIdList,
    class: Option<TypeId>,
    meant: Meant,
) -> Result<TreeId, Stop>
    requires ready { Q.is_ready questions.now }
    requires node { IsNodeHeld state.old node }
    requires of { of.0 < length (state.old).types }
    requires parts { AreTreesHeld state.old parts }
    requires class { IsTypeNumberBelow (length (state.old).types) class }
    requires meant { IsMeant state.old meant }
    ensures { IsAnswered tree IsTreeKnown state.old state.new result (definition.selected_as (Q.asks questions.now) (node_tree state.old node) (type_of state.old of) (trees_held state.old parts) (type_of_option (state.old).types class) (means_of state.old meant) meant.is_enumerator (meaning state.old)) }
{
    if meant.is_enumerator {
        return enumerator_member(alloc, state, node, of, class, meant);
    }
    selected_object(alloc, questions, state, node, of, parts, class, meant)
}

// What a member means is noted.
#[tactic(auto, using(cxx_expr::proofs::Kept::later_refl, cxx_expr::proofs::Kept::later_trans, cxx_expr::proofs::NodeKept::node_later, cxx_expr::proofs::NodeKept::node_kept, cxx_expr::proofs::Kept::trees_later, cxx_expr::proofs::Kept::trees_kept, cxx_expr::proofs::Kept::type_later, cxx_expr::proofs::Kept::type_kept, crate::proofs::Chosen::object_later, crate::proofs::Chosen::object_kept, crate::proofs::Chosen::means_later, crate::proofs::Chosen::means_kept), unfolding(cxx_expr::specs::Members::selected_noted))]
fn selected_noted<Q: Questions>(
    alloc: Global,
    questions: &Q,
    state: &mut State,
    node: Node,
    object: Operand,
    parts: TreeIdList,
    class: Option<TypeId>,
    meant: Meant,
) -> Result<TreeId, Stop>
    requires ready { Q.is_ready questions.now }
    requires node { IsNodeHeld state.old node }
    requires object { object.of.0 < length (state.old).types }
    requires parts { AreTreesHeld state.old parts }
    requires class { IsTypeNumberBelow (length (state.old).types) class }
    requires meant { IsMeant state.old meant }
    ensures { IsAnswered tree IsTreeKnown state.old state.new result (definition.selected_noted (Q.asks questions.now) (node_tree state.old node) (operand_at (state.old).types object) (trees_held state.old parts) (type_of_option (state.old).types class) (means_of state.old meant) (meaning state.old)) }
{
    questions.bound(state, place_in(&node), meant.target)?;
    selected_as(
        alloc, questions, state, node, object.of, parts, class, meant,
    )
}

// Of functions that are called the call notes which it means.
fn is_put_off(state: &State, node: &Node, meant: Meant) -> bool
    ensures { result ≡ definition.is_put_off (meaning state.now).graph (label_at (state.now).types node.now) (means_of state.now meant) }
{
    is_called(node) && is_function_at(state, meant.target)
}

#[tactic(auto, using(cxx_expr::proofs::Kept::later_refl))]
fn selected_as_meant<Q: Questions>(
    alloc: Global,
    questions: &Q,
    state: &mut State,
    node: Node,
    object: Operand,
    parts: TreeIdList,
    class: Option<TypeId>,
    meant: Meant,
) -> Result<TreeId, Stop>
    requires ready { Q.is_ready questions.now }
    requires node { IsNodeHeld state.old node }
    requires object { object.of.0 < length (state.old).types }
    requires parts { AreTreesHeld state.old parts }
    requires class { IsTypeNumberBelow (length (state.old).types) class }
    requires meant { IsMeant state.old meant }
    ensures { IsAnswered tree IsTreeKnown state.old state.new result (definition.selected_as_meant (Q.asks questions.now) (node_tree state.old node) (operand_at (state.old).types object) (trees_held state.old parts) (type_of_option (state.old).types class) (means_of state.old meant) (meaning state.old)) }
{
    if is_put_off(state, &node, meant) {
        return function_tree(state, node, object, parts, meant);
    }
    selected_noted(alloc, questions, state, node, object, parts, class, meant)
}

// ---- where its name is looked up

// The class in which the name of a node is looked up behind an object of a class.
pub(crate) fn naming<Q: Questions>(
    alloc: Global,
    questions: &Q,
    state: &mut State,
    node: &Node,
    class: ClassId,
) -> Result<ClassId, Stop>
    requires ready { Q.is_ready questions.now }
    requires class { class.0 < length (state.old).graph.classes }
    ensures { IsAnswered class_of_number IsClassKnown state.old state.new result ((Q.asks questions.now).naming class.0 (path_in (label_at (state.old).types node.now)) (meaning state.old)) }
{
    match &node.path {
        Some(path) => questions.naming(state, class, path),
        None => questions.naming(state, class, &no_path(alloc)),
    }
}

// All declarations that the name of a node means as a member of a class.
pub(crate) fn declared_member<Q: Questions>(
    alloc: Global,
    questions: &Q,
    state: &mut State,
    node: &Node,
    class: ClassId,
) -> Result<FactList, Stop>
    requires { Q.is_ready questions.now }
    ensures { IsAnswered numbered AreFactsKnown state.old state.new result ((Q.asks questions.now).member class.0 (path_in (label_at (state.old).types node.now)) (meaning state.old)) }
{
    match &node.path {
        Some(path) => questions.member(state, class, path),
        None => questions.member(state, class, &no_path(alloc)),
    }
}

/// A name that has these declarations as a member, given the object, the parts of the tree, and the class that is written
/// before it.
#[tactic(auto, using(cxx_expr::proofs::Kept::later_refl, cxx_expr::proofs::Kept::later_trans, cxx_expr::proofs::NodeKept::node_later, cxx_expr::proofs::NodeKept::node_kept, cxx_expr::proofs::Kept::operand_kept, cxx_expr::proofs::Kept::trees_later, cxx_expr::proofs::Kept::trees_kept, crate::proofs::Chosen::object_later, crate::proofs::Chosen::object_kept))]
pub(crate) fn selected_among<Q: Questions>(
    alloc: Global,
    questions: &Q,
    state: &mut State,
    node: Node,
    object: Operand,
    parts: TreeIdList,
    class: Option<TypeId>,
    all: &[FactId],
) -> Result<TreeId, Stop>
    requires ready { Q.is_ready questions.now }
    requires node { IsNodeHeld state.old node }
    requires object { object.of.0 < length (state.old).types }
    requires parts { AreTreesHeld state.old parts }
    requires class { IsTypeNumberBelow (length (state.old).types) class }
    requires all { AreFactsKnown state.old all.now }
    ensures { IsAnswered tree IsTreeKnown state.old state.new result (definition.selected_among (Q.asks questions.now) (node_tree state.old node) (operand_at (state.old).types object) (trees_held state.old parts) (type_of_option (state.old).types class) (numbered state.old all.now) (meaning state.old)) }
{
    let meant = selected_by(alloc, state, &node, object, all)?;
    selected_as_meant(alloc, questions, state, node, object, parts, class, meant)
}

// Given the type of the class that is written before it.
#[tactic(auto, using(cxx_expr::proofs::Kept::later_refl, cxx_expr::proofs::Kept::later_trans, cxx_expr::proofs::NodeKept::node_later, cxx_expr::proofs::NodeKept::node_kept, cxx_expr::proofs::Kept::operand_kept, cxx_expr::proofs::Kept::trees_later, cxx_expr::proofs::Kept::trees_kept, crate::proofs::Chosen::object_later, crate::proofs::Chosen::object_kept))]
fn selected_behind<Q: Questions>(
    alloc: Global,
    questions: &Q,
    state: &mut State,
    node: Node,
    object: Operand,
    parts: TreeIdList,
    class: ClassId,
    written: Option<TypeId>,
) -> Result<TreeId, Stop>
    requires ready { Q.is_ready questions.now }
    requires node { IsNodeHeld state.old node }
    requires object { object.of.0 < length (state.old).types }
    requires parts { AreTreesHeld state.old parts }
    requires written { IsTypeNumberBelow (length (state.old).types) written }
    ensures { IsAnswered tree IsTreeKnown state.old state.new result (tails.selected_behind (Q.asks questions.now) (node_tree state.old node) (operand_at (state.old).types object) (trees_held state.old parts) class.0 (type_of_option (state.old).types written) (meaning state.old)) }
{
    let all = declared_member(alloc, questions, state, &node, class)?;
    selected_among(
        alloc,
        questions,
        state,
        node,
        object,
        parts,
        written,
        all.as_slice(),
    )
}

// The member of a class.
#[tactic(auto, using(cxx_expr::proofs::Kept::later_refl, cxx_expr::proofs::Kept::later_trans, cxx_expr::proofs::NodeKept::node_later, cxx_expr::proofs::NodeKept::node_kept, cxx_expr::proofs::Kept::operand_kept, cxx_expr::proofs::Kept::trees_later, cxx_expr::proofs::Kept::trees_kept))]
fn selected_within<Q: Questions>(
    alloc: Global,
    questions: &Q,
    state: &mut State,
    node: Node,
    object: Operand,
    parts: TreeIdList,
    class: ClassId,
) -> Result<TreeId, Stop>
    requires ready { Q.is_ready questions.now }
    requires node { IsNodeHeld state.old node }
    requires object { object.of.0 < length (state.old).types }
    requires parts { AreTreesHeld state.old parts }
    requires class { class.0 < length (state.old).graph.classes }
    ensures { IsAnswered tree IsTreeKnown state.old state.new result (definition.selected_within (Q.asks questions.now) (node_tree state.old node) (operand_at (state.old).types object) (trees_held state.old parts) class.0 (meaning state.old)) }
{
    let written = written(state, &node, Some(class))?;
    selected_behind(alloc, questions, state, node, object, parts, class, written)
}

// That of an object's class, or of the class that is written (3.4.5).
#[tactic(auto, using(cxx_expr::proofs::Kept::later_refl, cxx_expr::proofs::Kept::later_trans, cxx_expr::proofs::NodeKept::node_later, cxx_expr::proofs::NodeKept::node_kept, cxx_expr::proofs::Kept::operand_kept, cxx_expr::proofs::Kept::trees_later, cxx_expr::proofs::Kept::trees_kept), unfolding(cxx_expr::specs::Members::selected_in))]
fn selected_in<Q: Questions>(
    alloc: Global,
    questions: &Q,
    state: &mut State,
    node: Node,
    object: Operand,
    parts: TreeIdList,
    class: ClassId,
) -> Result<TreeId, Stop>
    requires ready { Q.is_ready questions.now }
    requires node { IsNodeHeld state.old node }
    requires object { object.of.0 < length (state.old).types }
    requires parts { AreTreesHeld state.old parts }
    requires class { class.0 < length (state.old).graph.classes }
    ensures { IsAnswered tree IsTreeKnown state.old state.new result (definition.selected_in (Q.asks questions.now) (node_tree state.old node) (operand_at (state.old).types object) (trees_held state.old parts) class.0 (meaning state.old)) }
{
    let within = naming(alloc, questions, state, &node, class)?;
    selected_within(alloc, questions, state, node, object, parts, within)
}

#[tactic(auto, using(cxx_expr::proofs::Kept::later_refl))]
fn selected_from<Q: Questions>(
    alloc: Global,
    questions: &Q,
    state: &mut State,
    node: Node,
    object: Operand,
    parts: TreeIdList,
) -> Result<TreeId, Stop>
    requires ready { Q.is_ready questions.now }
    requires node { IsNodeHeld state.old node }
    requires object { object.of.0 < length (state.old).types }
    requires parts { AreTreesHeld state.old parts }
    ensures { IsAnswered tree IsTreeKnown state.old state.new result (definition.selected_from (Q.asks questions.now) (node_tree state.old node) (operand_at (state.old).types object) (trees_held state.old parts) (meaning state.old)) }
{
    match class_of_object(state, object) {
        None => Err(Stop::Fault(no_fit(alloc, node.place)?)),
        Some(class) => selected_in(alloc, questions, state, node, object, parts, class),
    }
}

// ---- `.`

#[tactic(auto, using(cxx_expr::proofs::Kept::later_trans, cxx_expr::proofs::NodeKept::node_later, cxx_expr::proofs::NodeKept::node_kept, cxx_expr::proofs::Kept::tree_later, cxx_expr::proofs::Kept::tree_kept))]
fn selected_one<Q: Questions>(
    alloc: Global,
    questions: &Q,
    state: &mut State,
    node: Node,
    one: TreeId,
) -> Result<TreeId, Stop>
    requires ready { Q.is_ready questions.now }
    requires node { IsNodeHeld state.old node }
    requires one { one.0 < length (trees state.old) }
    ensures { IsAnswered tree IsTreeKnown state.old state.new result (definition.selected_one (Q.asks questions.now) (node_tree state.old node) (Some (tree state.old one)) (meaning state.old)) }
{
    let object = operand_of(state, one)?;
    let parts = listed_one(alloc, one)?;
    selected_from(alloc, questions, state, node, object, parts)
}

/// A member of an object (5.2.5): its tree, with what it gives and which member the name means. It stops at what is no
/// object of a class, where the class has no such member or is not complete, and where the name means no value.
#[tactic(auto, using(cxx_expr::proofs::Kept::later_refl), unfolding(cxx_expr::specs::Members::selected))]
pub fn selected<Q: Questions>(
    alloc: Global,
    questions: &Q,
    state: &mut State,
    node: Node,
) -> Result<TreeId, Stop>
    requires ready { Q.is_ready questions.now }
    requires node { IsNodeHeld state.old node }
    ensures { IsAnswered tree IsTreeKnown state.old state.new result (definition.selected (Q.asks questions.now) (node_tree state.old node) (meaning state.old)) }
{
    match only_child(state, &node) {
        None => Err(Stop::Fault(misshapen(alloc, node.start)?)),
        Some(one) => selected_one(alloc, questions, state, node, one),
    }
}

// ---- `->`

// The member of what a pointer points to.
#[tactic(auto, using(cxx_expr::proofs::Kept::later_trans, cxx_expr::proofs::NodeKept::node_later, cxx_expr::proofs::NodeKept::node_kept, cxx_expr::proofs::Kept::operand_kept, cxx_expr::proofs::NodeKept::listed_is), unfolding(cxx_expr::specs::Members::pointed))]
fn pointed<Q: Questions>(
    alloc: Global,
    questions: &Q,
    state: &mut State,
    node: Node,
    one: &[TreeId],
    found: BuiltIn,
) -> Result<TreeId, Stop>
    requires ready { Q.is_ready questions.now }
    requires node { IsNodeHeld state.old node }
    requires one { AreTreesHeld state.old one.now }
    requires found { IsBuiltBelow (length (state.old).types) found }
    ensures { IsAnswered tree IsTreeKnown state.old state.new result (definition.pointed (Q.asks questions.now) (node_tree state.old node) (trees_held state.old one.now) (built_at (state.old).types found) (meaning state.old)) }
{
    let object = Operand {
        of: found.result,
        lvalue: found.lvalue,
        constant: ConstantKind::No,
    };
    let parts = convert_each(
        alloc,
        questions,
        state,
        node.place,
        found.operands.as_slice(),
        Listed::new(alloc),
        one,
    )?;
    selected_from(alloc, questions, state, node, object, parts)
}

#[tactic(auto, using(cxx_expr::proofs::Kept::later_trans, cxx_expr::proofs::NodeKept::node_later, cxx_expr::proofs::NodeKept::node_kept, cxx_expr::proofs::Kept::tree_later, cxx_expr::proofs::Kept::tree_kept, cxx_expr::proofs::Kept::trees_later, cxx_expr::proofs::Kept::trees_kept))]
fn pointed_by<Q: Questions>(
    alloc: Global,
    questions: &Q,
    state: &mut State,
    node: Node,
    one: TreeId,
) -> Result<TreeId, Stop>
    requires ready { Q.is_ready questions.now }
    requires node { IsNodeHeld state.old node }
    requires one { one.0 < length (trees state.old) }
    ensures { IsAnswered tree IsTreeKnown state.old state.new result (definition.pointed_by (Q.asks questions.now) (node_tree state.old node) (tree state.old one) (meaning state.old)) }
{
    let parts = listed_one(alloc, one)?;
    let operand = operand_of(state, one)?;
    let operands = operands_one(alloc, operand)?;
    let found = meaning_of(alloc, questions, state, node.place, punct::STAR, operands)?;
    pointed(alloc, questions, state, node, parts.as_slice(), found)
}

// Whether an operand is of a class.
fn is_of_class(state: &State, number: TreeId) -> bool
    requires { number.0 < length (trees state.now) }
    ensures { result ≡ is_of_class_tree (tree state.now number) }
{
    match state.node(number).operand {
        None => false,
        Some(operand) => class_of_object(state, operand).is_some(),
    }
}

// An operator of a class is not read yet (13.5.6).
#[tactic(auto, using(cxx_expr::proofs::Kept::later_refl))]
fn arrow_of<Q: Questions>(
    alloc: Global,
    questions: &Q,
    state: &mut State,
    node: Node,
    one: TreeId,
) -> Result<TreeId, Stop>
    requires ready { Q.is_ready questions.now }
    requires node { IsNodeHeld state.old node }
    requires one { one.0 < length (trees state.old) }
    ensures { IsAnswered tree IsTreeKnown state.old state.new result (definition.arrow_of (Q.asks questions.now) (node_tree state.old node) (Some (tree state.old one)) (meaning state.old)) }
{
    if is_of_class(state, one) {
        return Err(Stop::Fault(not_built_at(alloc, node.place)?));
    }
    pointed_by(alloc, questions, state, node, one)
}

/// A member of what a pointer points to (5.2.5), by the rules of a member of an object. It stops too at what is no pointer.
#[tactic(auto, using(cxx_expr::proofs::Kept::later_refl), unfolding(cxx_expr::specs::Members::arrow))]
pub fn arrow<Q: Questions>(
    alloc: Global,
    questions: &Q,
    state: &mut State,
    node: Node,
) -> Result<TreeId, Stop>
    requires ready { Q.is_ready questions.now }
    requires node { IsNodeHeld state.old node }
    ensures { IsAnswered tree IsTreeKnown state.old state.new result (definition.arrow (Q.asks questions.now) (node_tree state.old node) (meaning state.old)) }
{
    match only_child(state, &node) {
        None => Err(Stop::Fault(misshapen(alloc, node.start)?)),
        Some(one) => arrow_of(alloc, questions, state, node, one),
    }
}
