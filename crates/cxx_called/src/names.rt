//! What a name means in an expression (3.3.7, 3.4, 5.1, 7.2).

ghost use Rattle.std.specs.Prelude.{◌≡◌, ◌<◌, ◌-◌, ◌∷◌, [], length, option_map, IfOk, Ok, Some};
ghost use Rattle.std.specs.List.{slice_get};
ghost use Rattle.std.specs.Option.{option_copied};
ghost use Rattle.cxx_model.specs.Facts.Declarations.{declares_at, type_of_option};
ghost use Rattle.cxx_model.specs.Facts.Fitted.{IsEntityBelow, IsTypeNumberBelow};
ghost use Rattle.cxx_model.specs.Facts.Graph.{enumerations};
ghost use Rattle.cxx_model.specs.Stops.{Faulty};
ghost use Rattle.cxx_model.specs.Types.Integral.{promoted_of_values};
ghost use Rattle.cxx_model.specs.Types.Trees.{class_type, enumeration};
ghost use Rattle.cxx_reading.specs.Paths.{wrong_kind_at};
ghost use Rattle.cxx_reading.specs.Trees.{is_plain_path};
ghost use Rattle.cxx_tree.specs.Answered.{IsAnswered};
ghost use Rattle.cxx_tree.specs.Arena.{label_at, path_at, path_part_at};
ghost use Rattle.cxx_tree.specs.Held.{enumeration_of_option, meaning, tree, type_of};
ghost use Rattle.cxx_expr.specs.Making.{GrowsTree, GrowsType, IsTreeKnown};
ghost use Rattle.cxx_expr.specs.Names as definition;
ghost use Rattle.cxx_expr.specs.Nodes.{IsNodeHeld, node_tree};
ghost use Rattle.cxx_expr.specs.Views.{AreFactsKnown, numbered};
ghost use Rattle.cxx_called.specs.Views.{IsMeant, IsOfThere, means_of};

use crate::facts::{are_one_function, fact_at, first_or, type_of_first, values_among};
use cxx_computed::holds;
use cxx_expr::faults::fault;
use cxx_expr::nodes::given_over;
use cxx_expr::operands::plain_type;
use cxx_expr::{Questions, static_class};
use cxx_model::{
    Base, ClassId, ConstantKind, Entity, EnumId, Evidence, FactId, FactList, Fault, FaultText,
    LeftOut, Listed, MemberKind, Node, Operand, Path, PathPart, Place, Stop, TreeId, TypeId, Word,
};
use cxx_tree::{State, is_plain_path};
use std::alloc::{AllocError, Global};

/// What a name means: the entity, by its first declaration, and what the name gives.
#[derive(Clone, Copy)]
pub(crate) struct Meant {
    pub(crate) target: FactId,
    pub(crate) operand: Operand,
    /// Whether it is an enumerator (7.2).
    pub(crate) is_enumerator: bool,
}

// ---- the word that is looked up

fn last_of(parts: &[PathPart]) -> Option<&PathPart>
    ensures { option_copied result ≡ slice_get parts.now (length parts.now - 1) }
{
    parts.get(parts.len().saturating_sub(1))
}

#[tactic(auto, using(crate::proofs::Words::part_is))]
fn last_part(path: &Path) -> Option<&PathPart>
    ensures { option_map path_part_at (option_copied result) ≡ definition.last_part (path_at path.now) }
{
    last_of(path.parts.as_slice())
}

fn word_in_path(path: &Path) -> &[u8]
    ensures { result.now ≡ (definition.part_or (definition.last_part (path_at path.now))).word }
{
    match last_part(path) {
        Some(part) => part.word.as_slice(),
        None => b"",
    }
}

fn place_in_path(path: &Path) -> Place
    ensures { result ≡ (definition.part_or (definition.last_part (path_at path.now))).place }
{
    match last_part(path) {
        Some(part) => part.place,
        None => Place { line: 0, column: 0 },
    }
}

/// The last word of the name of a node.
pub(crate) fn word_in(node: &Node) -> &[u8]
    ensures { result.now ≡ (definition.word_in (label_at [] node.now)).word }
{
    match &node.path {
        Some(path) => word_in_path(path),
        None => b"",
    }
}

/// Where the last word of the name of a node stands.
pub(crate) fn place_in(node: &Node) -> Place
    ensures { result ≡ (definition.word_in (label_at [] node.now)).place }
{
    match &node.path {
        Some(path) => place_in_path(path),
        None => Place { line: 0, column: 0 },
    }
}

/// The name of a node without one.
pub(crate) fn no_path(alloc: Global) -> Path
    ensures { path_at result ≡ definition.no_path }
{
    Path {
        global: false,
        parts: Listed::new(alloc),
    }
}

/// Whether the name of a node has no qualifiers (3.4.1).
pub(crate) fn is_plain(node: &Node) -> bool
    ensures { result ≡ is_plain_path (definition.path_in (label_at [] node.now)) }
{
    match &node.path {
        Some(path) => is_plain_path(path),
        None => false,
    }
}

// ---- faults

fn several_at(alloc: Global, place: Place) -> Result<Box<Fault>, AllocError>
    ensures { IfOk result (λ at. Faulty at.value ≡ definition.several_at place) }
{
    let form = LeftOut::AddressOfSeveralFunctions;
    fault(alloc, place, FaultText::LeftOut(form))
}

fn undeclared(alloc: Global, node: &Node) -> Result<Box<Fault>, AllocError>
    ensures { IfOk result (λ at. Faulty at.value ≡ definition.no_value_at (definition.word_in (label_at [] node.now)) []) }
{
    let word = Word::from_slice(alloc, word_in(node))?;
    fault(alloc, place_in(node), FaultText::UndeclaredName(word))
}

fn wrong_kind(alloc: Global, node: &Node, other: Place) -> Result<Box<Fault>, AllocError>
    ensures { IfOk result (λ at. Faulty at.value ≡ wrong_kind_at (definition.word_in (label_at [] node.now)) other) }
{
    let word = Word::from_slice(alloc, word_in(node))?;
    let mut evidence = Listed::new(alloc);
    evidence.push(Evidence::Found(other))?;
    Ok(Box::new(
        alloc,
        Fault {
            place: place_in(node),
            text: FaultText::WrongKindOfName(word),
            evidence,
        },
    )?)
}

/// Why a name means no value.
#[tactic(auto, using(crate::proofs::Declared::no_value_first))]
pub(crate) fn no_value(
    alloc: Global,
    state: &State,
    node: &Node,
    all: &[FactId],
) -> Result<Box<Fault>, AllocError>
    requires { AreFactsKnown state.now all.now }
    ensures { IfOk result (λ at. Faulty at.value ≡ definition.no_value_at (definition.word_in (label_at (state.now).types node.now)) (numbered state.now all.now)) }
{
    match all {
        [] => undeclared(alloc, node),
        [one, ..] => wrong_kind(alloc, node, fact_at(state, *one).place),
    }
}

// ---- enumerators (7.2)

fn is_open_list(list: Option<EnumId>, number: EnumId) -> bool
    ensures { result ≡ definition.is_open_list (enumeration_of_option list) number.0 }
{
    match list {
        Some(list) => list.0 == number.0,
        None => false,
    }
}

#[tactic(auto, unfolding(cxx_tree::specs::Held::meaning))]
fn is_open(state: &State, number: EnumId) -> bool
    ensures { result ≡ definition.is_open_list (meaning state.now).here.enumeration number.0 }
{
    is_open_list(state.enumeration(), number)
}

// The first type that holds a value.
fn holder(value: i128) -> Option<Base>
    ensures { result ≡ promoted_of_values (value ∷ []) }
{
    if holds(Base::Int, value) {
        Some(Base::Int)
    } else if holds(Base::Unsigned, value) {
        Some(Base::Unsigned)
    } else if holds(Base::Long, value) {
        Some(Base::Long)
    } else if holds(Base::UnsignedLong, value) {
        Some(Base::UnsignedLong)
    } else {
        None
    }
}

fn list_type(state: &mut State, number: EnumId) -> Result<TypeId, Stop>
    requires { number.0 < enumerations (state.old).graph.facts }
    ensures { GrowsType state.old state.new result (enumeration number.0) }
{
    match state.enumeration_type(number) {
        Ok(of) => Ok(of),
        Err(_) => Err(Stop::OutOfMemory),
    }
}

fn base_or_list(state: &mut State, number: EnumId, of: Option<Base>) -> Result<TypeId, Stop>
    requires { number.0 < enumerations (state.old).graph.facts }
    ensures { GrowsType state.old state.new result (definition.base_or_list number.0 of) }
{
    match of {
        Some(of) => plain_type(state, of),
        None => list_type(state, number),
    }
}

// While the list of its enumeration is read, an enumerator is of the first type that holds its value.
fn enumerator_type(state: &mut State, number: EnumId, value: i128) -> Result<TypeId, Stop>
    requires { number.0 < enumerations (state.old).graph.facts }
    ensures { GrowsType state.old state.new result (definition.enumerator_type (meaning state.old).here.enumeration number.0 value) }
{
    if is_open(state, number) {
        base_or_list(state, number, holder(value))
    } else {
        list_type(state, number)
    }
}

/// What the name of an enumerator means.
pub(crate) fn means_enumerator(
    state: &mut State,
    target: FactId,
    number: EnumId,
    value: i128,
) -> Result<Meant, Stop>
    requires { number.0 < enumerations (state.old).graph.facts }
    ensures { IsAnswered means_of IsMeant state.old state.new result (Ok (definition.means_enumerator (meaning state.old).here.enumeration target.0 number.0 value, meaning state.old)) }
{
    let of = enumerator_type(state, number, value)?;
    Ok(Meant {
        target,
        operand: Operand {
            of,
            lvalue: false,
            constant: ConstantKind::No,
        },
        is_enumerator: true,
    })
}

// ---- by the declarations

/// What the name of an object means.
pub(crate) fn means_object(state: &State, target: FactId, own: TypeId) -> Meant
    requires { own.0 < length (state.now).types }
    ensures is { means_of state.now result ≡ definition.means_object (meaning state.now).graph target.0 (type_of state.now own) }
    ensures known { IsMeant state.now result }
{
    Meant {
        target,
        operand: Operand {
            of: type_of_first(state, target, own),
            lvalue: true,
            constant: ConstantKind::No,
        },
        is_enumerator: false,
    }
}

/// Whether a member belongs to an object of its class (9.4).
pub(crate) fn is_nonstatic(member: MemberKind) -> bool
    ensures { result ≡ definition.is_nonstatic member }
{
    match member {
        MemberKind::Nonstatic => true,
        _ => false,
    }
}

// What belongs to an object of its class is not named without one (9.3).
#[tactic(auto, using(cxx_expr::proofs::Kept::later_refl))]
fn means_object_by(
    alloc: Global,
    state: &State,
    place: Place,
    member: MemberKind,
    target: FactId,
    own: TypeId,
) -> Result<Meant, Stop>
    requires { own.0 < length (state.now).types }
    ensures { IsAnswered means_of IsMeant state.now state.now result (definition.means_object_by place (definition.is_nonstatic member) (definition.means_object (meaning state.now).graph target.0 (type_of state.now own)) (meaning state.now)) }
{
    if is_nonstatic(member) {
        return Err(Stop::Fault(fault(alloc, place, FaultText::OperandsDoNotFit)?));
    }
    Ok(means_object(state, target, own))
}

/// A function that belongs to an object of its class is not named without one (9.3).
#[tactic(auto, using(cxx_expr::proofs::Kept::later_refl))]
pub(crate) fn means_function(
    alloc: Global,
    state: &mut State,
    place: Place,
    member: MemberKind,
    target: FactId,
    own: TypeId,
    all: &[FactId],
) -> Result<Meant, Stop>
    requires own { own.0 < length (state.old).types }
    requires all { AreFactsKnown state.old all.now }
    ensures { IsAnswered means_of IsMeant state.old state.new result (definition.means_function place (meaning state.old).graph member target.0 (type_of state.old own) (numbered state.old all.now) (meaning state.old)) }
{
    if are_one_function(state, target, all) {
        return means_object_by(alloc, state, place, member, target, own);
    }
    Err(Stop::Fault(several_at(alloc, place)?))
}

#[tactic(auto, using(cxx_expr::proofs::Kept::later_refl))]
fn means_first(
    alloc: Global,
    state: &mut State,
    place: Place,
    all: &[FactId],
    number: FactId,
    what: Entity,
) -> Result<Meant, Stop>
    requires all { AreFactsKnown state.old all.now }
    requires below { IsEntityBelow (length (state.old).types) what }
    requires there { IsOfThere (state.old).graph what }
    ensures { IsAnswered means_of IsMeant state.old state.new result (definition.means_first place (meaning state.old).graph (meaning state.old).here.enumeration (numbered state.old all.now) number.0 (declares_at (state.old).types what) (meaning state.old)) }
{
    match what {
        Entity::Object {
            of,
            member,
            first,
            ..
        } => means_object_by(alloc, state, place, member, first_or(number, first), of),
        Entity::Enumerator {
            number: list,
            value,
        } => means_enumerator(state, number, list, value),
        Entity::Function {
            of,
            member,
            first,
            ..
        } => {
            let target = first_or(number, first);
            means_function(alloc, state, place, member, target, of, all)
        }
        _ => Err(Stop::Fault(several_at(alloc, place)?)),
    }
}

#[tactic(auto, using(cxx_expr::proofs::Kept::later_refl, crate::proofs::Declared::value_first))]
fn means_value(
    alloc: Global,
    state: &mut State,
    node: &Node,
    all: &[FactId],
    values: &[FactId],
) -> Result<Meant, Stop>
    requires all { AreFactsKnown state.old all.now }
    requires values { AreFactsKnown state.old values.now }
    ensures { IsAnswered means_of IsMeant state.old state.new result (definition.means_value (definition.word_in (label_at (state.old).types node.now)) (node.now).place (numbered state.old all.now) (numbered state.old values.now) (meaning state.old)) }
{
    match values {
        [] => Err(Stop::Fault(no_value(alloc, state, node, all)?)),
        [one, ..] => {
            let what = fact_at(state, *one).what;
            means_first(alloc, state, node.place, values, *one, what)
        }
    }
}

// What a name means that has these declarations.
#[tactic(auto, using(cxx_expr::proofs::Kept::later_refl), unfolding(cxx_expr::specs::Names::meant_by))]
fn meant_by(alloc: Global, state: &mut State, node: &Node, all: &[FactId]) -> Result<Meant, Stop>
    requires { AreFactsKnown state.old all.now }
    ensures { IsAnswered means_of IsMeant state.old state.new result (definition.meant_by (definition.word_in (label_at (state.old).types node.now)) (node.now).place (numbered state.old all.now) (meaning state.old)) }
{
    let values = values_among(alloc, state, all)?;
    means_value(alloc, state, node, all, values.as_slice())
}

// ---- the tree

/// The type of a class.
pub(crate) fn type_of_class(state: &mut State, class: ClassId) -> Result<TypeId, Stop>
    requires { class.0 < length (state.old).graph.classes }
    ensures { GrowsType state.old state.new result (class_type class.0) }
{
    match state.class_type(class) {
        Ok(of) => Ok(of),
        Err(_) => Err(Stop::OutOfMemory),
    }
}

// A name whose type is given.
fn named_of(
    alloc: Global,
    state: &mut State,
    node: Node,
    meant: Meant,
    of: Option<TypeId>,
) -> Result<TreeId, Stop>
    requires node { IsNodeHeld state.old node }
    requires meant { IsMeant state.old meant }
    requires of { IsTypeNumberBelow (length (state.old).types) of }
    ensures { GrowsTree state.old state.new result (definition.named_tree (node_tree state.old node).label (means_of state.old meant) (type_of_option (state.old).types of)) }
{
    let mut node = node;
    node.of = of;
    node.target = Some(meant.target);
    given_over(state, node, meant.operand, Listed::new(alloc))
}

// A name whose type is a class.
#[tactic(auto, using(cxx_expr::proofs::Kept::later_trans, cxx_expr::proofs::NodeKept::node_later, cxx_expr::proofs::NodeKept::node_kept, crate::proofs::Chosen::means_later, crate::proofs::Chosen::means_kept))]
fn named_in(
    alloc: Global,
    state: &mut State,
    node: Node,
    meant: Meant,
    class: ClassId,
) -> Result<TreeId, Stop>
    requires node { IsNodeHeld state.old node }
    requires meant { IsMeant state.old meant }
    requires class { class.0 < length (state.old).graph.classes }
    ensures { GrowsTree state.old state.new result (definition.named_tree (node_tree state.old node).label (means_of state.old meant) (Some (class_type class.0))) }
{
    let of = type_of_class(state, class)?;
    named_of(alloc, state, node, meant, Some(of))
}

// The name of a static member is of its class (9.4).
fn named_tree(alloc: Global, state: &mut State, node: Node, meant: Meant) -> Result<TreeId, Stop>
    requires node { IsNodeHeld state.old node }
    requires meant { IsMeant state.old meant }
    ensures { GrowsTree state.old state.new result (definition.named_tree (node_tree state.old node).label (means_of state.old meant) (definition.static_class (meaning state.old).graph meant.target.0)) }
{
    match static_class(state, meant.target) {
        Some(class) => named_in(alloc, state, node, meant, class),
        None => named_of(alloc, state, node, meant, None),
    }
}

/// A name that has these declarations, as an expression without an object.
#[tactic(auto, using(cxx_expr::proofs::Kept::later_refl, cxx_expr::proofs::Kept::later_trans, cxx_expr::proofs::NodeKept::node_later, cxx_expr::proofs::NodeKept::node_kept, crate::proofs::Chosen::means_later, crate::proofs::Chosen::means_kept), unfolding(cxx_expr::specs::Names::named))]
pub(crate) fn named<Q: Questions>(
    alloc: Global,
    questions: &Q,
    state: &mut State,
    node: Node,
    all: &[FactId],
) -> Result<TreeId, Stop>
    requires ready { Q.is_ready questions.now }
    requires node { IsNodeHeld state.old node }
    requires all { AreFactsKnown state.old all.now }
    ensures { IsAnswered tree IsTreeKnown state.old state.new result (definition.named (Q.asks questions.now) (node_tree state.old node).label (numbered state.old all.now) (meaning state.old)) }
{
    let meant = meant_by(alloc, state, &node, all)?;
    questions.bound(state, node.place, meant.target)?;
    named_tree(alloc, state, node, meant)
}

/// All declarations that the name of a node means (3.4).
pub(crate) fn declared<Q: Questions>(
    alloc: Global,
    questions: &Q,
    state: &mut State,
    node: &Node,
) -> Result<FactList, Stop>
    requires ready { Q.is_ready questions.now }
    ensures { IsAnswered numbered AreFactsKnown state.old state.new result ((Q.asks questions.now).name (definition.path_in (label_at (state.old).types node.now)) (meaning state.old)) }
{
    match &node.path {
        Some(path) => questions.name(state, path),
        None => {
            let path = no_path(alloc);
            questions.name(state, &path)
        }
    }
}
