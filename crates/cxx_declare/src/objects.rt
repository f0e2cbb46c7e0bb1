//! Names of types, objects and parameters (7.1.3, 8.3.5, 3.1, 3.2, 3.5).

ghost use Rattle.std.specs.Prelude.{◌≡◌, ◌<◌, length, IfErr, IfOk, Ok, OnOk, List, Option, Some};
ghost use Rattle.std.specs.List.{slice_get};
ghost use Rattle.cxx_model.specs.declared.token.TokenKind.{TokenKind};
ghost use Rattle.cxx_model.specs.declared.stop.Stop.TheVariants as stop;
ghost use Rattle.cxx_model.specs.Facts.Declarations.{CxxFact, fact_at};
ghost use Rattle.cxx_model.specs.Facts.Graph.{appended};
ghost use Rattle.cxx_model.specs.Text.Lexemes.{Lexeme};
ghost use Rattle.cxx_defined.specs.Defined.{IsOwn, IsOwnEntity};
ghost use Rattle.cxx_names.specs.Clashes.{IsPlainName};
ghost use Rattle.cxx_reading.specs.Declaring as declaring;
ghost use Rattle.cxx_reading.specs.Declaring.{added, with_definition};
ghost use Rattle.cxx_declare.specs.Made.{IsNameOf, IsReady, added_defined, linked_by, linking, object_added, object_defined_by, token, word_in};
ghost use Rattle.cxx_tree.specs.Answered.{AnyKnown, IsAnswered, IsFactKnown, fact_number, itself};
ghost use Rattle.cxx_tree.specs.Held.{Held, meaning, type_of};
ghost use Rattle.cxx_tree.specs.Later.{Later};

use crate::conflict::{definable_object, free_linked, free_object, undefined};
use crate::facts::{declare, fact_in, linked_object_fact, object_fact, word_fact};
use crate::linking::link;
use crate::parts::what_of;
use cxx_model::{Entity, Fact, FactId, MemberKind, Name, Place, Stop, TypeId};
use cxx_tree::State;

/// A name of a type is declared (7.1.3).
pub fn declare_synonym(
    state: &mut State,
    place: Place,
    word: &[u8],
    of: TypeId,
) -> Result<FactId, Stop>
    requires { of.0 < length (state.old).types }
    ensures { (kind : TokenKind) → IsAnswered fact_number IsFactKnown state.old state.new result (declaring.declare_synonym (token kind place word.now) (type_of state.old of) (meaning state.old)) }
{
    match word_fact(state, place, word, Entity::Synonym { of }) {
        Ok(fact) => declare(state, fact),
        Err(_) => Err(Stop::OutOfMemory),
    }
}

// Adds the declaration of an object in whose way nothing stands.
#[tactic(auto, using(cxx_names::proofs::Plain::plain_fact))]
fn add_object(state: &mut State, fact: Fact) -> Result<FactId, Stop>
    requires { IsReady state.old fact }
    ensures answered { IsAnswered fact_number IsFactKnown state.old state.new result (object_added (fact_at (state.old).types fact) (word_in fact.name) (meaning state.old)) }
    ensures at { IfOk result (λ number. slice_get (state.new).graph.facts number.0 ≡ Some fact) }
{
    free_object(state, &fact)?;
    state.add(fact)
}

/// An object is declared, and not defined (3.1, 3.2).
pub fn declare_object(
    state: &mut State,
    place: Place,
    word: &[u8],
    of: TypeId,
) -> Result<FactId, Stop>
    requires { of.0 < length (state.old).types }
    ensures answered { (kind : TokenKind) → IsAnswered fact_number IsFactKnown state.old state.new result (declaring.declare_object (token kind place word.now) (type_of state.old of) (meaning state.old)) }
    ensures own { IfOk result (λ number. IsOwn (slice_get (state.new).graph.facts number.0)) }
{
    match object_fact(state, place, word, of) {
        Ok(fact) => add_object(state, fact),
        Err(_) => Err(Stop::OutOfMemory),
    }
}

// Adds a declaration that is linked.
#[tactic(auto, using(cxx_names::proofs::Plain::plain_fact))]
fn add_linked(state: &mut State, fact: Fact) -> Result<FactId, Stop>
    requires { IsReady state.old fact }
    ensures { IsAnswered fact_number IsFactKnown state.old state.new result (linking (added (fact_at (state.old).types fact) (meaning state.old))) }
{
    match state.add(fact) {
        Ok(number) => link(state, number),
        Err(stop) => Err(stop),
    }
}

fn declare_linked(state: &mut State, fact: Fact) -> Result<FactId, Stop>
    requires { IsReady state.old fact }
    ensures { IsAnswered fact_number IsFactKnown state.old state.new result (linked_by (fact_at (state.old).types fact) (word_in fact.name) (meaning state.old)) }
{
    match free_linked(state, &fact) {
        Ok(()) => add_linked(state, fact),
        Err(stop) => Err(stop),
    }
}

/// The same in a block, with `extern`: it is a member of the innermost namespace (3.5).
pub fn declare_linked_object(
    state: &mut State,
    place: Place,
    word: &[u8],
    of: TypeId,
) -> Result<FactId, Stop>
    requires { of.0 < length (state.old).types }
    ensures { (kind : TokenKind) → IsAnswered fact_number IsFactKnown state.old state.new result (declaring.declare_linked_object (token kind place word.now) (type_of state.old of) (meaning state.old)) }
{
    match linked_object_fact(state, place, word, of) {
        Ok(fact) => declare_linked(state, fact),
        Err(_) => Err(Stop::OutOfMemory),
    }
}

/// A parameter is declared (8.3.5), with its name where it has one.
pub fn declare_parameter(
    state: &mut State,
    name: Name,
    place: Place,
    of: TypeId,
) -> Result<(), Stop>
    requires name { IsPlainName name }
    requires known { of.0 < length (state.old).types }
    ensures { (one : Option Lexeme) → IsNameOf one name → IsAnswered itself AnyKnown state.old state.new result (declaring.declare_parameter one place (type_of state.old of) (meaning state.old)) }
{
    let what = Entity::Object {
        of,
        member: MemberKind::Free,
        is_mutable: false,
        value: None,
        first: None,
    };
    let fact = fact_in(state.scope(), place, name, what);
    match declare(state, fact) {
        Ok(_) => Ok(()),
        Err(stop) => Err(stop),
    }
}

// Notes that a declaration is a definition (3.2).
fn note(state: &mut State, number: FactId) -> Result<(), Stop>
    requires { IsOwn (slice_get (state.old).graph.facts number.0) }
    ensures later { Later state.old state.new }
    ensures is { OnOk result (meaning state.new ≡ with_definition number.0 (meaning state.old)) }
    ensures held { OnOk result ((state.new).graph ≡ (state.old).graph) }
    ensures memory { IfErr result (λ why. why ≡ stop.OutOfMemory) }
{
    match state.add_definition(number) {
        Ok(()) => Ok(()),
        Err(_) => Err(Stop::OutOfMemory),
    }
}

fn noted(state: &mut State, number: FactId) -> Result<FactId, Stop>
    requires { IsOwn (slice_get (state.old).graph.facts number.0) }
    ensures answered { (old : Held) (fact : CxxFact) → IsAnswered fact_number IsFactKnown old state.old (Ok number) (added fact (meaning old)) → IsAnswered fact_number IsFactKnown old state.new result (added_defined fact (meaning old)) }
    ensures held { OnOk result ((state.new).graph ≡ (state.old).graph) }
{
    match note(state, number) {
        Ok(()) => Ok(number),
        Err(stop) => Err(stop),
    }
}

/// Adds a declaration that is a definition.
#[tactic(auto, using(cxx_names::proofs::Plain::plain_fact))]
pub(crate) fn add_defined(state: &mut State, fact: Fact) -> Result<FactId, Stop>
    requires ready { IsReady state.old fact }
    requires own { IsOwnEntity fact.what }
    ensures answered { IsAnswered fact_number IsFactKnown state.old state.new result (added_defined (fact_at (state.old).types fact) (meaning state.old)) }
    ensures held { OnOk result ((state.new).graph ≡ appended (state.old).graph fact) }
{
    match state.add(fact) {
        Ok(number) => noted(state, number),
        Err(stop) => Err(stop),
    }
}

fn define(state: &mut State, fact: Fact) -> Result<FactId, Stop>
    requires ready { IsReady state.old fact }
    requires own { IsOwnEntity fact.what }
    ensures { IsAnswered fact_number IsFactKnown state.old state.new result (object_defined_by fact.place (word_in fact.name) (fact_at (state.old).types fact) (meaning state.old)) }
{
    match definable_object(state, &fact) {
        Ok(()) => add_defined(state, fact),
        Err(stop) => Err(stop),
    }
}

/// An object is defined, once (3.2).
pub fn define_object(
    state: &mut State,
    place: Place,
    word: &[u8],
    of: TypeId,
) -> Result<FactId, Stop>
    requires { of.0 < length (state.old).types }
    ensures { (kind : TokenKind) → IsAnswered fact_number IsFactKnown state.old state.new result (declaring.define_object (token kind place word.now) (type_of state.old of) (meaning state.old)) }
{
    match object_fact(state, place, word, of) {
        Ok(fact) => define(state, fact),
        Err(_) => Err(Stop::OutOfMemory),
    }
}

/// An object that was declared is defined by the initializer that follows (3.1).
pub fn define_declared(
    state: &mut State,
    place: Place,
    word: &[u8],
    number: FactId,
) -> Result<(), Stop>
    requires { IsOwn (slice_get (state.old).graph.facts number.0) }
    ensures { (kind : TokenKind) → IsAnswered itself AnyKnown state.old state.new result (declaring.define_declared (token kind place word.now) number.0 (meaning state.old)) }
{
    let what = what_of(state.graph(), number);
    match undefined(state, place, word, number, what) {
        Ok(()) => note(state, number),
        Err(stop) => Err(stop),
    }
}
