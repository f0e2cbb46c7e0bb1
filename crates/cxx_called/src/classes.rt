//! The classes that are written before members and that declare them (3.4.3.1, 10.2).

ghost use Rattle.std.specs.Prelude.{ℕ, List, ◌≡◌, ◌<◌, length, IfOk, Some};
ghost use Rattle.std.specs.List.{slice_get};
ghost use Rattle.std.specs.Option.{option_copied};
ghost use Rattle.cxx_model.specs.Facts.Declarations.{declares_at, fact_at, type_of_option};
ghost use Rattle.cxx_model.specs.Facts.Fitted.{IsTypeNumberBelow};
ghost use Rattle.cxx_model.specs.Facts.Graph.{IsClassNumberInRange};
ghost use Rattle.cxx_model.specs.Types.Numbers.{type_at};
ghost use Rattle.cxx_model.specs.Types.Trees.{CxxType};
ghost use Rattle.cxx_this.specs.Made.{MayMake};
ghost use Rattle.cxx_tree.specs.Arena.{label_at};
ghost use Rattle.cxx_tree.specs.Held.{meaning, type_of};
ghost use Rattle.cxx_expr.specs.Names as names;
ghost use Rattle.cxx_expr.specs.Steps as definition;
ghost use Rattle.cxx_expr.specs.Views.{class_of_option};

use crate::members::class_of_type;
use crate::names::{is_plain, no_path, type_of_class};
use cxx_expr::{Questions, class_of_scope};
use cxx_graph::Graph;
use cxx_model::{ClassId, Entity, Fact, FactId, MemberKind, Node, OutOfMemory, Stop, TypeId};
use cxx_tree::State;
use std::alloc::Global;

// ---- members

fn is_static(member: MemberKind) -> bool
    ensures { result ≡ names.is_static member }
{
    match member {
        MemberKind::Static => true,
        _ => false,
    }
}

// What is the same for each object of its class (9.4).
fn is_static_member(what: Entity) -> bool
    ensures { (types : List CxxType) → result ≡ names.is_static_member (declares_at types what) }
{
    match what {
        Entity::Object { member, .. } => is_static(member),
        Entity::Function { member, .. } => is_static(member),
        _ => false,
    }
}

fn fact_found(graph: &Graph, number: FactId) -> Option<&Fact>
    ensures { option_copied result ≡ slice_get graph.now.facts number.0 }
{
    graph.facts().get(number.0 as usize)
}

fn is_static_fact(state: &State, fact: &Fact) -> bool
    ensures { result ≡ definition.is_static_fact (Some (fact_at (state.now).types fact.now)) }
{
    let _ = state;
    is_static_member(fact.what)
}

/// Whether a member is the same for each object (9.4).
#[tactic(auto, using(crate::proofs::Based::static_some, crate::proofs::Based::static_none))]
pub(crate) fn is_static_at(state: &State, target: FactId) -> bool
    ensures { result ≡ definition.is_static_at (meaning state.now).graph target.0 }
{
    match fact_found(state.graph(), target) {
        Some(fact) => is_static_fact(state, fact),
        None => false,
    }
}

// ---- the class that declares a member

#[tactic(auto, using(crate::proofs::Based::declaring_some, crate::proofs::Based::declaring_none))]
fn declaring_class(state: &State, target: FactId) -> Option<ClassId>
    ensures is { names.class_or_none result ≡ definition.declaring (meaning state.now).graph target.0 }
    ensures there { IsClassNumberInRange (state.now).graph result }
{
    match fact_found(state.graph(), target) {
        Some(fact) => class_of_scope(state, fact.scope),
        None => None,
    }
}

// The type of a class, where there is one.
#[tactic(auto, using(cxx_expr::proofs::Kept::later_refl))]
fn class_type_or_none(state: &mut State, class: Option<ClassId>) -> Result<Option<TypeId>, Stop>
    requires { IsClassNumberInRange (state.old).graph class }
    ensures { MayMake state.old state.new result (names.class_or_none class) }
{
    match class {
        Some(class) => Ok(Some(type_of_class(state, class)?)),
        None => Ok(None),
    }
}

/// The type of the class that declares a member.
pub(crate) fn declaring(state: &mut State, target: FactId) -> Result<Option<TypeId>, Stop>
    ensures { MayMake state.old state.new result (definition.declaring (meaning state.old).graph target.0) }
{
    let class = declaring_class(state, target);
    class_type_or_none(state, class)
}

// ---- the class that is written before it

/// The type of the class that the qualifiers of a name mean, where it has some (3.4.3.1).
#[tactic(auto, using(cxx_expr::proofs::Kept::later_refl))]
pub(crate) fn written(
    state: &mut State,
    node: &Node,
    class: Option<ClassId>,
) -> Result<Option<TypeId>, Stop>
    requires { IsClassNumberInRange (state.old).graph class }
    ensures { MayMake state.old state.new result (definition.written (names.path_in (label_at (state.old).types node.now)) (class_of_option class)) }
{
    if is_plain(node) {
        return Ok(None);
    }
    match class {
        Some(class) => Ok(Some(type_of_class(state, class)?)),
        None => Ok(None),
    }
}

// The class that the qualifiers of a name mean where it stands.
fn qualifier<Q: Questions>(
    alloc: Global,
    questions: &Q,
    state: &State,
    node: &Node,
) -> Result<Option<ClassId>, OutOfMemory>
    requires { Q.is_ready questions.now }
    ensures is { IfOk result (λ class. class_of_option class ≡ (Q.asks questions.now).qualifier (names.path_in (label_at (state.now).types node.now)) (meaning state.now)) }
    ensures there { IfOk result (IsClassNumberInRange (state.now).graph) }
{
    match &node.path {
        Some(path) => questions.qualifier(state, path),
        None => questions.qualifier(state, &no_path(alloc)),
    }
}

/// The type of that class, where it means one.
#[tactic(auto, using(cxx_expr::proofs::Kept::later_refl))]
pub(crate) fn qualified<Q: Questions>(
    alloc: Global,
    questions: &Q,
    state: &mut State,
    node: &Node,
) -> Result<Option<TypeId>, Stop>
    requires { Q.is_ready questions.now }
    ensures { MayMake state.old state.new result (definition.written (names.path_in (label_at (state.old).types node.now)) ((Q.asks questions.now).qualifier (names.path_in (label_at (state.old).types node.now)) (meaning state.old))) }
{
    match qualifier(alloc, questions, state, node) {
        Ok(class) => written(state, node, class),
        Err(_) => Err(Stop::OutOfMemory),
    }
}

// ---- the class that the plain form writes before it

fn is_one_class(state: &State, own: TypeId, of: TypeId) -> bool
    requires own { own.0 < length (state.now).types }
    requires of { of.0 < length (state.now).types }
    ensures { result ≡ definition.is_one_class (definition.class_of (type_of state.now own)) (definition.class_of (type_of state.now of)) }
{
    match class_of_type(state, own) {
        Some(own) => match class_of_type(state, of) {
            Some(of) => own.0 == of.0,
            None => false,
        },
        None => false,
    }
}

// A class, where it is not that of an object.
fn unless_same(state: &State, own: TypeId, class: Option<TypeId>) -> Option<TypeId>
    requires own { own.0 < length (state.now).types }
    requires class { IsTypeNumberBelow (length (state.now).types) class }
    ensures is { type_of_option (state.now).types result ≡ definition.unless_same (type_of state.now own) (type_of_option (state.now).types class) }
    ensures below { IsTypeNumberBelow (length (state.now).types) result }
{
    match class {
        Some(of) => {
            if is_one_class(state, own, of) {
                None
            } else {
                Some(of)
            }
        }
        None => None,
    }
}

/// The class that the plain form writes before a member, given the type of its object, the class that is written before it and
/// the one that declares it.
pub(crate) fn class_before(
    state: &State,
    is_lvalue: bool,
    own: TypeId,
    class: Option<TypeId>,
    declared: Option<TypeId>,
) -> Option<TypeId>
    requires own { own.0 < length (state.now).types }
    requires class { IsTypeNumberBelow (length (state.now).types) class }
    requires declared { IsTypeNumberBelow (length (state.now).types) declared }
    ensures is { type_of_option (state.now).types result ≡ definition.class_before is_lvalue (type_of state.now own) (type_of_option (state.now).types class) (type_of_option (state.now).types declared) }
    ensures below { IsTypeNumberBelow (length (state.now).types) result }
{
    match class {
        Some(of) => { if is_lvalue { declared } else { Some(of) } }
        None => {
            if is_lvalue {
                None
            } else {
                unless_same(state, own, declared)
            }
        }
    }
}

/// A class, and else that of an object.
pub(crate) fn or_own(class: Option<TypeId>, own: TypeId) -> TypeId
    ensures is { (types : List CxxType) → type_at types result.0 ≡ definition.or_own (type_of_option types class) (type_at types own.0) }
    ensures below { (count : ℕ) → own.0 < count → IsTypeNumberBelow count class → result.0 < count }
{
    match class {
        Some(of) => of,
        None => own,
    }
}
