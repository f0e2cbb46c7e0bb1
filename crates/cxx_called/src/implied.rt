//! Members that are named without an object, in the body of a function that has one (9.3.1).

ghost use Rattle.std.specs.Prelude.{List, ◌≡◌, ◌<◌, ◌∷◌, [], codes, length, Some, IfOk};
ghost use Rattle.cxx_meaning.specs.Conversions.Derived.{is_derived as is_derived_of};
ghost use Rattle.cxx_model.specs.Facts.Declarations.{declares_at, type_of_option};
ghost use Rattle.cxx_model.specs.Facts.Fitted.{IsTypeNumberBelow};
ghost use Rattle.cxx_model.specs.Facts.Graph.{IsClassNumberInRange};
ghost use Rattle.cxx_model.specs.Types.Trees.{CxxType, pointer_to as pointer_of};
ghost use Rattle.cxx_reading.specs.Initializers.{value_operand as value_operand_of};
ghost use Rattle.cxx_reading.specs.Trees.{tree_of};
ghost use Rattle.cxx_standard.specs.Views.{Computes};
ghost use Rattle.cxx_this.specs.Made.{IsNewType, MayMake};
ghost use Rattle.cxx_tree.specs.Answered.{IsAnswered};
ghost use Rattle.cxx_tree.specs.Arena.{label_at};
ghost use Rattle.cxx_tree.specs.Held.{Held, meaning, tree, trees, type_of};
ghost use Rattle.cxx_expr.specs.Implied as definition;
ghost use Rattle.cxx_expr.specs.Making.{GrowsOperand, GrowsTree, GrowsType, IsTreeKnown};
ghost use Rattle.cxx_expr.specs.Nodes.{IsNodeHeld, node_tree};
ghost use Rattle.cxx_expr.specs.Steps.{pointed_label as pointed_label_of};
ghost use Rattle.cxx_expr.specs.Views.{AreFactsKnown, class_of_option, numbered};
ghost use Rattle.cxx_called.specs.Tails as tails;

use crate::classes::qualified;
use crate::facts::{fact_at, values_among};
use crate::members::{class_of_type, selected_among};
use crate::names::{declared, is_nonstatic, named};
use cxx_expr::converting::push;
use cxx_expr::operands::value_operand;
use cxx_expr::operators::listed_one;
use cxx_expr::production::{MEMBER, PREFIX, THIS};
use cxx_expr::{Questions, class_of_scope};
use cxx_model::{
    ClassId, ConstantKind, Entity, FactId, Listed, Node, Operand, OutOfMemory, ScopeId, Stop, Text,
    TreeId, TypeId,
};
use cxx_standard::is_derived;
use cxx_this::this_object;
use cxx_tree::State;
use std::alloc::{AllocError, Global};

// ---- the object of a member

/// Whether a class is derived from another (10).
#[tactic(auto, unfolding(cxx_tree::specs::Held::meaning))]
pub(crate) fn is_derived_from(
    alloc: Global,
    state: &State,
    class: ClassId,
    base: ClassId,
) -> Result<bool, OutOfMemory>
    requires class_known { class.0 < length (state.now).graph.classes }
    requires base_known { base.0 < length (state.now).graph.classes }
    ensures { Computes result (is_derived_of (meaning state.now).graph class.0 base.0) }
{
    is_derived(alloc, state.graph(), state.types(), class, base)
}

// Whether a class is the other, or derived from it (10).
fn is_or_derived(
    alloc: Global,
    state: &State,
    class: ClassId,
    base: Option<ClassId>,
) -> Result<bool, OutOfMemory>
    requires class_known { class.0 < length (state.now).graph.classes }
    requires base_known { IsClassNumberInRange (state.now).graph base }
    ensures { Computes result (definition.is_or_derived (meaning state.now).graph class.0 base) }
{
    match base {
        None => Ok(false),
        Some(base) => {
            if class.0 == base.0 {
                Ok(true)
            } else {
                is_derived_from(alloc, state, class, base)
            }
        }
    }
}

fn has_members_by(
    alloc: Global,
    state: &State,
    class: Option<ClassId>,
    scope: ScopeId,
) -> Result<bool, OutOfMemory>
    requires { IsClassNumberInRange (state.now).graph class }
    ensures { Computes result (definition.has_members_by (meaning state.now).graph (class_of_option class) scope.0) }
{
    match class {
        None => Ok(false),
        Some(class) => is_or_derived(alloc, state, class, class_of_scope(state, scope)),
    }
}

// Whether an object of a type has the members that a scope declares.
fn has_members(
    alloc: Global,
    state: &State,
    of: TypeId,
    scope: ScopeId,
) -> Result<bool, OutOfMemory>
    requires { of.0 < length (state.now).types }
    ensures { Computes result (definition.has_members (meaning state.now).graph (type_of state.now of) scope.0) }
{
    has_members_by(alloc, state, class_of_type(state, of), scope)
}

fn object_with(
    alloc: Global,
    state: &State,
    scope: ScopeId,
    of: TypeId,
) -> Result<Option<TypeId>, OutOfMemory>
    requires { of.0 < length (state.now).types }
    ensures is { IfOk result (λ object. type_of_option (state.now).types object ≡ definition.object_with (meaning state.now).graph scope.0 (Some (type_of state.now of))) }
    ensures below { IfOk result (λ object. IsTypeNumberBelow (length (state.now).types) object) }
{
    if has_members(alloc, state, of, scope)? {
        Ok(Some(of))
    } else {
        Ok(None)
    }
}

fn object_found(
    alloc: Global,
    state: &State,
    scope: ScopeId,
    object: Option<TypeId>,
) -> Result<Option<TypeId>, Stop>
    requires { IsTypeNumberBelow (length (state.now).types) object }
    ensures { IsNewType state.now result (definition.object_with (meaning state.now).graph scope.0 (type_of_option (state.now).types object)) }
{
    match object {
        None => Ok(None),
        Some(of) => match object_with(alloc, state, scope, of) {
            Ok(object) => Ok(object),
            Err(_) => Err(Stop::OutOfMemory),
        },
    }
}

/// The type of `*this`, where that has the members that a scope declares (9.3.1, 13.3.1.1.1 p3).
#[tactic(auto, unfolding(cxx_expr::specs::Implied::object_for))]
pub(crate) fn object_for(
    alloc: Global,
    state: &mut State,
    scope: ScopeId,
) -> Result<Option<TypeId>, Stop>
    ensures { MayMake state.old state.new result (definition.object_for (meaning state.old) scope.0) }
{
    let object = this_object(state)?;
    object_found(alloc, state, scope, object)
}

// ---- its tree, which stands for the name that is written

// The type of `this`.
fn pointer_to(state: &mut State, of: TypeId) -> Result<TypeId, Stop>
    requires { of.0 < length (state.old).types }
    ensures { GrowsType state.old state.new result (pointer_of (type_of state.old of)) }
{
    match state.pointer_to(of) {
        Ok(of) => Ok(of),
        Err(_) => Err(Stop::OutOfMemory),
    }
}

// What `this` gives.
#[tactic(auto, using(cxx_expr::proofs::Kept::later_trans))]
fn this_operand(state: &mut State, of: TypeId) -> Result<Operand, Stop>
    requires { of.0 < length (state.old).types }
    ensures { GrowsOperand state.old state.new result (value_operand_of (pointer_of (type_of state.old of))) }
{
    let pointer = pointer_to(state, of)?;
    value_operand(state, pointer)
}

#[tactic(auto, using(cxx_expr::proofs::Kept::later_trans))]
fn this_tree(alloc: Global, state: &mut State, node: &Node, of: TypeId) -> Result<TreeId, Stop>
    requires { of.0 < length (state.old).types }
    ensures { GrowsTree state.old state.new result (definition.this_tree (label_at (state.old).types node.now) (type_of state.old of)) }
{
    let operand = this_operand(state, of)?;
    let this = Node {
        production: THIS,
        children: Listed::new(alloc),
        first: node.first,
        last: node.last,
        start: node.start,
        place: node.place,
        path: None,
        operand: Some(operand),
        of: None,
        target: None,
        call: None,
        spelling: Text::from_slice(alloc, b"this")?,
    };
    push(state, this)
}

/// What a pointer points to.
pub(crate) fn pointed_tree(
    alloc: Global,
    state: &mut State,
    node: &Node,
    of: TypeId,
    pointer: TreeId,
) -> Result<TreeId, Stop>
    requires of { of.0 < length (state.old).types }
    requires pointer { pointer.0 < length (trees state.old) }
    ensures { GrowsTree state.old state.new result (tree_of (pointed_label_of (label_at (state.old).types node.now) (type_of state.old of)) (tree state.old pointer ∷ [])) }
{
    let object = Operand {
        of,
        lvalue: true,
        constant: ConstantKind::No,
    };
    let pointed = Node {
        production: PREFIX,
        children: listed_one(alloc, pointer)?,
        first: node.first,
        last: node.last,
        start: node.start,
        place: node.place,
        path: None,
        operand: Some(object),
        of: None,
        target: None,
        call: None,
        spelling: Text::from_slice(alloc, b"*")?,
    };
    push(state, pointed)
}

/// `*this`.
#[tactic(auto, using(cxx_expr::proofs::Kept::later_trans, cxx_expr::proofs::Kept::type_later, cxx_expr::proofs::Kept::type_kept))]
pub(crate) fn object_tree(
    alloc: Global,
    state: &mut State,
    node: &Node,
    of: TypeId,
) -> Result<TreeId, Stop>
    requires { of.0 < length (state.old).types }
    ensures { GrowsTree state.old state.new result (definition.object_tree (label_at (state.old).types node.now) (type_of state.old of)) }
{
    let this = this_tree(alloc, state, node, of)?;
    pointed_tree(alloc, state, node, of, this)
}

// ---- a member that is not called

// A data member of each object of its class (9.2).
fn is_data_member(what: Entity) -> bool
    ensures { (types : List CxxType) → result ≡ definition.is_data_member (declares_at types what) }
{
    match what {
        Entity::Object { member, .. } => is_nonstatic(member),
        _ => false,
    }
}

#[tactic(auto, using(cxx_expr::proofs::Kept::later_refl))]
fn object_of_fact(
    alloc: Global,
    state: &mut State,
    scope: ScopeId,
    what: Entity,
) -> Result<Option<TypeId>, Stop>
    ensures { MayMake state.old state.new result (tails.object_of_fact (meaning state.old) scope.0 (declares_at (state.old).types what)) }
{
    if is_data_member(what) {
        object_for(alloc, state, scope)
    } else {
        Ok(None)
    }
}

// The object to which the first of some declarations belongs.
#[tactic(auto, using(cxx_expr::proofs::Kept::later_refl, crate::proofs::First::object_first))]
fn object_of_first(
    alloc: Global,
    state: &mut State,
    values: &[FactId],
) -> Result<Option<TypeId>, Stop>
    requires { AreFactsKnown state.old values.now }
    ensures { MayMake state.old state.new result (definition.object_of_first (meaning state.old) (numbered state.old values.now)) }
{
    match values {
        [] => Ok(None),
        [one, ..] => {
            let fact = fact_at(state, *one);
            let (scope, what) = (fact.scope, fact.what);
            object_of_fact(alloc, state, scope, what)
        }
    }
}

// A name as `.` selects it from an object that is not written.
fn as_member(alloc: Global, name: Node) -> Result<Node, AllocError>
    ensures is { (held : Held) → IfOk result (λ member. node_tree held member ≡ tree_of (definition.member_label (label_at held.types name) (codes "this")) []) }
    ensures held { (held : Held) → IsNodeHeld held name → IfOk result (IsNodeHeld held) }
{
    let mut name = name;
    name.production = MEMBER;
    name.spelling = Text::from_slice(alloc, b"this")?;
    name.children = Listed::new(alloc);
    Ok(name)
}

// Given the class that is written before it.
#[tactic(auto, using(cxx_expr::proofs::Kept::later_trans, cxx_expr::proofs::NodeKept::node_later, cxx_expr::proofs::NodeKept::node_kept, cxx_expr::proofs::Kept::type_later, cxx_expr::proofs::Kept::type_kept, crate::proofs::Chosen::object_later, crate::proofs::Chosen::object_kept, crate::proofs::Judged::facts_known))]
fn member_selected<Q: Questions>(
    alloc: Global,
    questions: &Q,
    state: &mut State,
    node: Node,
    all: &[FactId],
    of: TypeId,
    class: Option<TypeId>,
) -> Result<TreeId, Stop>
    requires ready { Q.is_ready questions.now }
    requires node { IsNodeHeld state.old node }
    requires all { AreFactsKnown state.old all.now }
    requires of { of.0 < length (state.old).types }
    requires class { IsTypeNumberBelow (length (state.old).types) class }
    ensures { IsAnswered tree IsTreeKnown state.old state.new result (tails.member_selected (Q.asks questions.now) (node_tree state.old node).label (numbered state.old all.now) (type_of state.old of) (type_of_option (state.old).types class) (meaning state.old)) }
{
    let tree = object_tree(alloc, state, &node, of)?;
    let parts = listed_one(alloc, tree)?;
    let object = Operand {
        of,
        lvalue: true,
        constant: ConstantKind::No,
    };
    let member = as_member(alloc, node)?;
    selected_among(alloc, questions, state, member, object, parts, class, all)
}

// It is a member of `*this`, and of the class that is written before it (9.3.1).
#[tactic(auto, using(cxx_expr::proofs::Kept::later_trans, cxx_expr::proofs::NodeKept::node_later, cxx_expr::proofs::NodeKept::node_kept, cxx_expr::proofs::Kept::type_later, cxx_expr::proofs::Kept::type_kept, crate::proofs::Judged::facts_known), unfolding(cxx_expr::specs::Implied::member_named))]
fn member_named<Q: Questions>(
    alloc: Global,
    questions: &Q,
    state: &mut State,
    node: Node,
    all: &[FactId],
    of: TypeId,
) -> Result<TreeId, Stop>
    requires ready { Q.is_ready questions.now }
    requires node { IsNodeHeld state.old node }
    requires all { AreFactsKnown state.old all.now }
    requires of { of.0 < length (state.old).types }
    ensures { IsAnswered tree IsTreeKnown state.old state.new result (definition.member_named (Q.asks questions.now) (node_tree state.old node).label (numbered state.old all.now) (type_of state.old of) (meaning state.old)) }
{
    let class = qualified(alloc, questions, state, &node)?;
    member_selected(alloc, questions, state, node, all, of, class)
}

fn named_by<Q: Questions>(
    alloc: Global,
    questions: &Q,
    state: &mut State,
    node: Node,
    all: &[FactId],
    object: Option<TypeId>,
) -> Result<TreeId, Stop>
    requires ready { Q.is_ready questions.now }
    requires node { IsNodeHeld state.old node }
    requires all { AreFactsKnown state.old all.now }
    requires object { IsTypeNumberBelow (length (state.old).types) object }
    ensures { IsAnswered tree IsTreeKnown state.old state.new result (definition.named_by (Q.asks questions.now) (node_tree state.old node).label (numbered state.old all.now) (type_of_option (state.old).types object) (meaning state.old)) }
{
    match object {
        None => named(alloc, questions, state, node, all),
        Some(of) => member_named(alloc, questions, state, node, all, of),
    }
}

/// A name that has these declarations, as an expression.
#[tactic(auto, using(cxx_expr::proofs::Kept::later_refl, cxx_expr::proofs::Kept::later_trans, cxx_expr::proofs::NodeKept::node_later, cxx_expr::proofs::NodeKept::node_kept, crate::proofs::Judged::facts_known), unfolding(cxx_expr::specs::Implied::named_here))]
pub(crate) fn named_here<Q: Questions>(
    alloc: Global,
    questions: &Q,
    state: &mut State,
    node: Node,
    all: &[FactId],
) -> Result<TreeId, Stop>
    requires ready { Q.is_ready questions.now }
    requires node { IsNodeHeld state.old node }
    requires all { AreFactsKnown state.old all.now }
    ensures { IsAnswered tree IsTreeKnown state.old state.new result (definition.named_here (Q.asks questions.now) (node_tree state.old node).label (numbered state.old all.now) (meaning state.old)) }
{
    let values = values_among(alloc, state, all)?;
    let object = object_of_first(alloc, state, values.as_slice())?;
    named_by(alloc, questions, state, node, all, object)
}

/// A name as an expression (5.1): what it means, which is noted. It stops as the questions do, where the name is not
/// declared or means no value (3.3.7), where it means several functions (13.4), and at a member of a class that has no
/// object where it is named (9.3.1).
#[tactic(auto, using(cxx_expr::proofs::Kept::later_refl, cxx_expr::proofs::Kept::later_trans, cxx_expr::proofs::NodeKept::node_later, cxx_expr::proofs::NodeKept::node_kept), unfolding(cxx_expr::specs::Implied::name))]
pub fn name<Q: Questions>(
    alloc: Global,
    questions: &Q,
    state: &mut State,
    node: Node,
) -> Result<TreeId, Stop>
    requires ready { Q.is_ready questions.now }
    requires node { IsNodeHeld state.old node }
    ensures { IsAnswered tree IsTreeKnown state.old state.new result (definition.name (Q.asks questions.now) (node_tree state.old node) (meaning state.old)) }
{
    let all = declared(alloc, questions, state, &node)?;
    named_here(alloc, questions, state, node, all.as_slice())
}
