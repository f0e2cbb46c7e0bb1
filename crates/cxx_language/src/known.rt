//! What an initializer makes known: the value of a constant (5.19) and the bound of an array (8.3.4).

ghost use Rattle.std.specs.Prelude.{◌≡◌, ◌<◌, ◌&&◌, not, length, true, IfOk, OnOk, List};
ghost use Rattle.std.specs.List.{slice_get};
ghost use Rattle.cxx_constant.specs.Constants.{constant as constant_of};
ghost use Rattle.cxx_constant.specs.Known.{value_at};
ghost use Rattle.cxx_declare.specs.Made.{IsReady, made, told_added};
ghost use Rattle.cxx_model.specs.declared.facts.Name.TheVariants.{Spelled};
ghost use Rattle.cxx_model.specs.Facts.Graph.{scopes};
ghost use Rattle.cxx_expr.specs.Nodes.{IsOneKnown, one_tree};
ghost use Rattle.cxx_expr.specs.Operands.{only as only_of};
ghost use Rattle.cxx_language.specs.Earlier as earlier;
ghost use Rattle.cxx_language.specs.Known as definition;
ghost use Rattle.cxx_language.specs.Noting as noting;
ghost use Rattle.cxx_language.specs.Values as values;
ghost use Rattle.cxx_model.specs.Facts.Declarations.{fact_at, spelled};
ghost use Rattle.cxx_model.specs.Types.Trees.{CxxType};
ghost use Rattle.cxx_reading.specs.Declaring.{fact_here};
ghost use Rattle.cxx_reading.specs.Trees.{CxxTree};
ghost use Rattle.cxx_standard.specs.Views.{kind_at};
ghost use Rattle.cxx_cursor.specs.Asking.{AnyKnown, IsAsked, itself};
ghost use Rattle.cxx_cursor.specs.Views.{AreTreesHeld, name_at, trees_held};
ghost use Rattle.cxx_tree.specs.Held.{meaning, tree as tree_at, trees, type_of};

use crate::declares::Declares;
use cxx_answers::typed::{entity_number, fact_of};
use cxx_answers::value_here;
use cxx_constant::ConstantFault;
use cxx_cursor::NameToken;
use cxx_graph::Graph;
use cxx_model::{
    Access, Entity, Fact, FactId, MemberKind, Name, OutOfMemory, Place, Stop, TreeId, TypeId, Word,
};
use cxx_standard::{TypeKind, cv_of, is_floating, kind_of};
use cxx_tree::State;
use cxx_units::types::is_unbounded;
use std::alloc::AllocError;

fn is_integral_kind(kind: TypeKind) -> bool
    ensures { (types : List CxxType) → result ≡ definition.is_integral_kind (kind_at types kind) }
{
    match kind {
        TypeKind::Arithmetic(of) => !is_floating(of),
        TypeKind::Enumeration(_) => true,
        _ => false,
    }
}

/// Whether objects of a type are constants (5.19, 7.1.5.1).
pub(crate) fn is_constant_type(state: &State, of: TypeId) -> bool
    requires { of.0 < length (state.now).types }
    ensures { result ≡ definition.is_constant_type (type_of state.now of) }
{
    let types = state.types();
    let cv = cv_of(types, of);
    (cv.is_const && !cv.is_volatile) && is_integral_kind(kind_of(state.graph(), types, of))
}

fn value_of(value: Result<i128, ConstantFault>) -> Option<i128>
    ensures { (all : List CxxTree) → result ≡ definition.value_of (value_at all value) }
{
    match value {
        Ok(value) => Some(value),
        Err(_) => None,
    }
}

/// The value of an integral constant expression, where it is one and has a value (5.19).
pub fn constant_value(state: &State, number: TreeId) -> Result<Option<i128>, OutOfMemory>
    requires { number.0 < length (trees state.now) }
    ensures { IfOk result (λ value. value ≡ definition.value_of (constant_of (meaning state.now).graph (tree_at state.now number))) }
{
    match value_here(state, number) {
        Ok(value) => Ok(value_of(value)),
        Err(fault) => Err(fault),
    }
}

// The one of some trees, where it is alone.
fn only(state: &State, numbers: &[TreeId]) -> Option<TreeId>
    requires { AreTreesHeld state.now numbers.now }
    ensures is { one_tree state.now result ≡ only_of (trees_held state.now numbers.now) }
    ensures known { IsOneKnown state.now result }
{
    let _ = state;
    match numbers {
        [one] => Some(*one),
        _ => None,
    }
}

// What is there has to be a constant (5.19).
#[tactic(auto, using(cxx_cursor::proofs::Kept::later_refl))]
fn constant_one<D: Declares>(
    declares: &D,
    state: &mut State,
    one: Option<TreeId>,
) -> Result<(), Stop>
    requires { IsOneKnown state.old one }
    ensures { IsAsked itself AnyKnown state.old state.new result (values.constant_one (one_tree state.old one) (meaning state.old)) }
{
    match one {
        Some(one) => declares.constant(state, one),
        None => Ok(()),
    }
}

/// What is converted to the type of an object has to be a constant (5.19), by the tree of its initializer.
#[tactic(auto, using(crate::proofs::Parts::parts_known, cxx_expr::proofs::NodeKept::children_are))]
pub(crate) fn constant_given<D: Declares>(
    declares: &D,
    state: &mut State,
    given: TreeId,
) -> Result<(), Stop>
    requires { given.0 < length (trees state.old) }
    ensures { IsAsked itself AnyKnown state.old state.new result (values.is_constant_given (tree_at state.old given) (meaning state.old)) }
{
    let one = only(state, state.node(given).children.as_slice());
    constant_one(declares, state, one)
}

fn value_of_one<D: Declares>(
    declares: &D,
    state: &State,
    one: Option<TreeId>,
) -> Result<Option<i128>, OutOfMemory>
    requires { IsOneKnown state.now one }
    ensures { IfOk result (λ value. value ≡ noting.value_of_one (meaning state.now).graph (one_tree state.now one)) }
{
    match one {
        Some(one) => declares.value(state, one),
        None => Ok(None),
    }
}

// The value of the one part of an initializer.
#[tactic(auto, using(crate::proofs::Parts::parts_value))]
fn value_of_parts<D: Declares>(
    declares: &D,
    state: &State,
    parts: &[TreeId],
) -> Result<Option<i128>, OutOfMemory>
    requires { AreTreesHeld state.now parts.now }
    ensures { IfOk result (λ value. value ≡ definition.value_of_parts (meaning state.now).graph (trees_held state.now parts.now)) }
{
    value_of_one(declares, state, only(state, parts))
}

// The value that the initializer of an object with a type makes known.
#[tactic(auto, using(crate::proofs::Parts::parts_known, cxx_expr::proofs::NodeKept::children_are))]
fn known_value<D: Declares>(
    declares: &D,
    state: &State,
    of: TypeId,
    tree: TreeId,
) -> Result<Option<i128>, OutOfMemory>
    requires of { of.0 < length (state.now).types }
    requires tree { tree.0 < length (trees state.now) }
    ensures { IfOk result (λ value. value ≡ definition.known_value (meaning state.now).graph (type_of state.now of) (tree_at state.now tree)) }
{
    if is_constant_type(state, of) {
        value_of_parts(declares, state, state.node(tree).children.as_slice())
    } else {
        Ok(None)
    }
}

/// The type of an object with the bound that its initializer gives (8.3.4).
pub(crate) fn type_known(state: &State, of: TypeId, tree: TreeId) -> TypeId
    requires of { of.0 < length (state.now).types }
    requires tree { tree.0 < length (trees state.now) }
    ensures is { type_of state.now result ≡ definition.type_known (type_of state.now of) (tree_at state.now tree) }
    ensures known { result.0 < length (state.now).types }
{
    match state.node(tree).of {
        Some(known) => known,
        None => of,
    }
}

fn is_object(what: Entity) -> bool
    ensures { result ≡ earlier.is_object what }
{
    match what {
        Entity::Object { .. } => true,
        _ => false,
    }
}

fn is_word(word: &[u8], name: &Name) -> bool
    ensures { result ≡ earlier.is_word word.now name.now }
{
    match name {
        Name::Spelled(other) => other.as_slice() == word,
        _ => false,
    }
}

// Whether a fact is there and declares an object of a name.
fn names_object(graph: &Graph, word: &[u8], number: FactId) -> bool
    ensures { result ≡ earlier.names_object word.now (slice_get graph.now.facts number.0) }
{
    match fact_of(graph, number) {
        None => false,
        Some(fact) => is_object(fact.what) && is_word(word, &fact.name),
    }
}

// A declaration in the scope where the reader stands.
fn fact_in(state: &State, place: Place, word: &[u8], what: Entity) -> Result<Fact, AllocError>
    ensures is { IfOk result (λ fact. fact ≡ made (state.now).scope place (Spelled word.now) what) }
    ensures there { OnOk result ((state.now).scope.0 < scopes (state.now).graph.facts) }
{
    let name = Name::Spelled(Word::from_slice(state.alloc(), word)?);
    Ok(Fact {
        place,
        scope: state.scope(),
        name,
        access: Access::Public,
        what,
    })
}

// A further declaration of an object.
#[tactic(auto, using(crate::proofs::Further::known_ready))]
fn known_fact(
    state: &State,
    place: Place,
    word: &[u8],
    entity: FactId,
    of: TypeId,
    value: Option<i128>,
) -> Result<Fact, AllocError>
    requires of { of.0 < length (state.now).types }
    requires named { earlier.names_object word.now (slice_get (state.now).graph.facts entity.0) ≡ true }
    ensures is { IfOk result (λ fact. fact_at (state.now).types fact ≡ fact_here (meaning state.now) (spelled word.now) place (definition.known_object entity.0 (type_of state.now of) value)) }
    ensures ready { IfOk result (IsReady state.now) }
{
    let what = Entity::Object {
        of,
        member: MemberKind::Free,
        is_mutable: false,
        value,
        first: Some(entity),
    };
    let fact = fact_in(state, place, word, what)?;
    Ok(fact)
}

#[tactic(auto, using(cxx_names::proofs::Plain::plain_fact))]
fn add(state: &mut State, fact: Fact) -> Result<(), Stop>
    requires { IsReady state.old fact }
    ensures { IsAsked itself AnyKnown state.old state.new result (told_added (fact_at (state.old).types fact) (meaning state.old)) }
{
    match state.add(fact) {
        Ok(_) => Ok(()),
        Err(stop) => Err(stop),
    }
}

// A further declaration of the object with a declaration, with its type and its value.
#[tactic(auto, using(cxx_cursor::proofs::Kept::later_refl))]
fn noted_with(
    state: &mut State,
    name: &NameToken,
    number: FactId,
    of: TypeId,
    value: Option<i128>,
) -> Result<(), Stop>
    requires { of.0 < length (state.old).types }
    ensures { IsAsked itself AnyKnown state.old state.new result (noting.noted_with (name_at name.now) number.0 (type_of state.old of) value (meaning state.old)) }
{
    let entity = entity_number(state, number);
    let word = name.spelling.as_slice();
    // No reader notes what it did not declare as an object of that name.
    if !names_object(state.graph(), word, entity) {
        return Err(Stop::OutOfMemory);
    }
    match known_fact(state, name.place, word, entity, of, value) {
        Ok(fact) => add(state, fact),
        Err(_) => Err(Stop::OutOfMemory),
    }
}

#[tactic(auto, using(cxx_cursor::proofs::Kept::later_refl))]
fn note_with(
    state: &mut State,
    name: &NameToken,
    number: FactId,
    of: TypeId,
    known: TypeId,
    value: Option<i128>,
) -> Result<(), Stop>
    requires of { of.0 < length (state.old).types }
    requires known { known.0 < length (state.old).types }
    ensures { IsAsked itself AnyKnown state.old state.new result (noting.note_with (name_at name.now) number.0 (type_of state.old of) (type_of state.old known) value (meaning state.old)) }
{
    if is_unbounded(state.types(), of) || value.is_some() {
        return noted_with(state, name, number, known, value);
    }
    Ok(())
}

/// What the initializer of the object with a declaration makes known is noted behind it, where it makes something known.
#[tactic(auto, using(cxx_cursor::proofs::Kept::later_refl), unfolding(crate::specs::Known::note_known, crate::specs::Known::noted))]
pub(crate) fn note_known<D: Declares>(
    declares: &D,
    state: &mut State,
    name: &NameToken,
    number: FactId,
    of: TypeId,
    tree: TreeId,
) -> Result<(), Stop>
    requires of { of.0 < length (state.old).types }
    requires tree { tree.0 < length (trees state.old) }
    ensures { IsAsked itself AnyKnown state.old state.new result (definition.note_known (name_at name.now) number.0 (type_of state.old of) (tree_at state.old tree) (meaning state.old)) }
{
    match known_value(declares, state, of, tree) {
        Ok(value) => {
            let known = type_known(state, of, tree);
            note_with(state, name, number, of, known, value)
        }
        Err(_) => Err(Stop::OutOfMemory),
    }
}
