//! Declarations that are made for the scope where the reader stands (3.3.1).

ghost use Rattle.std.specs.Prelude.{◌≡◌, ◌<◌, ◌++◌, ◌∷◌, [], false, length, IfOk, OnOk, None, Some};
ghost use Rattle.std.specs.List.{slice_get};
ghost use Rattle.cxx_model.specs.declared.facts.Name.TheVariants.{Spelled};
ghost use Rattle.cxx_model.specs.Facts.Declarations.{fact_at, object, spelled as spelled_name};
ghost use Rattle.cxx_model.specs.Facts.Graph.{appended, scopes};
ghost use Rattle.cxx_defined.specs.Defined.{IsOwnEntity};
ghost use Rattle.cxx_names.specs.Clashes.{IsNamedMember};
ghost use Rattle.cxx_reading.specs.Declaring as declaring;
ghost use Rattle.cxx_reading.specs.Declaring.{fact_here, linked_object_here, object_here};
ghost use Rattle.cxx_declare.specs.Made.{IsEarlierObject, IsReady, made, word_in};
ghost use Rattle.cxx_declare.specs.Opened.{told_declared};
ghost use Rattle.cxx_tree.specs.Answered.{AnyKnown, IsAnswered, IsFactKnown, fact_number, itself};
ghost use Rattle.cxx_tree.specs.Held.{meaning, type_of};

use crate::conflict::free;
use crate::members::{class_of_here, first_linked_object, first_object_here};
use crate::parts::spelled;
use cxx_model::{
    Access, ClassId, Entity, Fact, FactId, MemberKind, Name, OutOfMemory, Place, ScopeId, Stop,
    TypeId,
};
use cxx_tree::State;
use std::alloc::AllocError;

/// A fact in a scope.
pub(crate) fn fact_in(scope: ScopeId, place: Place, name: Name, what: Entity) -> Fact
    ensures { result ≡ made scope place name what }
{
    Fact {
        place,
        scope,
        name,
        access: Access::Public,
        what,
    }
}

/// A name is declared (3.3.1): what conflicts with it comes before the limit.
#[tactic(auto, using(cxx_names::proofs::Plain::plain_fact))]
pub(crate) fn declare(state: &mut State, fact: Fact) -> Result<FactId, Stop>
    requires { IsReady state.old fact }
    ensures answered { IsAnswered fact_number IsFactKnown state.old state.new result (declaring.declare (fact_at (state.old).types fact) (word_in fact.name) (meaning state.old)) }
    ensures at { IfOk result (λ number. slice_get (state.new).graph.facts number.0 ≡ Some fact) }
    ensures held { OnOk result (state.new ≡ record state.old { graph = appended (state.old).graph fact }) }
{
    free(state, &fact)?;
    state.add(fact)
}

/// The same, where its number is not asked.
pub(crate) fn tell(state: &mut State, fact: Fact) -> Result<(), Stop>
    requires { IsReady state.old fact }
    ensures answered { IsAnswered itself AnyKnown state.old state.new result (told_declared (fact_at (state.old).types fact) (word_in fact.name) (meaning state.old)) }
    ensures held { OnOk result (state.new ≡ record state.old { graph = appended (state.old).graph fact }) }
{
    match declare(state, fact) {
        Ok(_) => Ok(()),
        Err(stop) => Err(stop),
    }
}

// The declaration of an object, given the first one of it.
fn object_with(
    state: &State,
    place: Place,
    word: &[u8],
    of: TypeId,
    kind: MemberKind,
    first: Option<FactId>,
) -> Result<Fact, AllocError>
    requires known { of.0 < length (state.now).types }
    requires earlier { IsEarlierObject state.now word.now first }
    requires kind { IsNamedMember kind }
    ensures is { IfOk result (λ fact. fact_at (state.now).types fact ≡ fact_here (meaning state.now) (spelled_name word.now) place (object (type_of state.now of) kind false None first)) }
    ensures ready { IfOk result (IsReady state.now) }
    ensures own { IfOk result (λ fact. IsOwnEntity fact.what) }
    ensures named { IfOk result (λ fact. fact.name ≡ Spelled word.now) }
{
    let name = spelled(state.alloc(), word)?;
    Ok(fact_in(
        state.scope(),
        place,
        name,
        Entity::Object {
            of,
            member: kind,
            is_mutable: false,
            value: None,
            first,
        },
    ))
}

fn kind_in_class(class: Option<ClassId>) -> MemberKind
    ensures is { result ≡ declaring.kind_in_class class }
    ensures named { IsNamedMember result }
{
    match class {
        None => MemberKind::Free,
        Some(_) => MemberKind::Static,
    }
}

/// The declaration of an object (3.1), which is a static member where the reader stands in a class (9.4.2).
pub(crate) fn object_fact(
    state: &State,
    place: Place,
    word: &[u8],
    of: TypeId,
) -> Result<Fact, OutOfMemory>
    requires { of.0 < length (state.now).types }
    ensures is { IfOk result (λ fact. fact_at (state.now).types fact ≡ fact_here (meaning state.now) (spelled_name word.now) place (object_here (meaning state.now) (spelled_name word.now) (type_of state.now of))) }
    ensures ready { IfOk result (IsReady state.now) }
    ensures own { IfOk result (λ fact. IsOwnEntity fact.what) }
    ensures named { IfOk result (λ fact. fact.name ≡ Spelled word.now) }
{
    let first = first_object_here(state, word)?;
    let kind = kind_in_class(class_of_here(state));
    Ok(object_with(state, place, word, of, kind, first)?)
}

/// The declaration of an object by a block with `extern` (3.5).
pub(crate) fn linked_object_fact(
    state: &State,
    place: Place,
    word: &[u8],
    of: TypeId,
) -> Result<Fact, OutOfMemory>
    requires { of.0 < length (state.now).types }
    ensures is { IfOk result (λ fact. fact_at (state.now).types fact ≡ fact_here (meaning state.now) (spelled_name word.now) place (linked_object_here (meaning state.now) (spelled_name word.now) (type_of state.now of))) }
    ensures ready { IfOk result (IsReady state.now) }
    ensures named { IfOk result (λ fact. fact.name ≡ Spelled word.now) }
{
    let first = first_linked_object(state, word)?;
    Ok(object_with(state, place, word, of, MemberKind::Free, first)?)
}

/// A declaration of another kind, for the scope where the reader stands.
pub(crate) fn word_fact(
    state: &State,
    place: Place,
    word: &[u8],
    what: Entity,
) -> Result<Fact, AllocError>
    ensures is { IfOk result (λ fact. fact ≡ made (state.now).scope place (Spelled word.now) what) }
    ensures there { OnOk result ((state.now).scope.0 < scopes (state.now).graph.facts) }
{
    let name = spelled(state.alloc(), word)?;
    Ok(fact_in(state.scope(), place, name, what))
}
