//! Classes that are defined (9): they begin, their members are declared one after another, and they end.

ghost use Rattle.std.specs.Prelude.{◌≡◌, ◌<◌, length, IfOk, OnOk};
ghost use Rattle.cxx_model.specs.declared.facts.Entity.TheVariants as entity;
ghost use Rattle.cxx_model.specs.declared.facts.Name.TheVariants.{Spelled};
ghost use Rattle.cxx_model.specs.declared.token.TokenKind.{TokenKind};
ghost use Rattle.cxx_model.specs.Facts.Declarations.{fact_at, facts_at};
ghost use Rattle.cxx_model.specs.Facts.Fitted.{AreFactsBelow};
ghost use Rattle.cxx_model.specs.Types.Numbers.{type_at};
ghost use Rattle.cxx_model.specs.Facts.Graph.{EachMayFollow, scopes};
ghost use Rattle.cxx_defined.specs.Defined.{IsOwnEntity};
ghost use Rattle.cxx_names.specs.Plain.{ArePlain};
ghost use Rattle.cxx_declare.specs.Begun.{IsAddable, class_added, class_completed, class_known, class_reserved, ended_with, member_entity, named_within, next_class_defined, unnamed_added, unnamed_reserved};
ghost use Rattle.cxx_declare.specs.ClassDefinitions as definition;
ghost use Rattle.cxx_declare.specs.Classes.{IsNextClass};
ghost use Rattle.cxx_declare.specs.Made.{IsReady, token, word_in};
ghost use Rattle.cxx_reading.specs.Declarators.{is_function_type};
ghost use Rattle.cxx_tree.specs.Answered.{AnyKnown, IsAnswered, IsClassKnown, IsFactKnown, class_number, fact_number, itself, scope_of_option};
ghost use Rattle.cxx_tree.specs.Held.{meaning, type_of};

use crate::classes::{class_in, next_class};
use crate::conflict::{definable, free};
use crate::facts::{declare, fact_in, word_fact};
use crate::functions::{defaults_by, offered_by};
use crate::objects::add_defined;
use crate::parts::spelled;
use cxx_model::{
    Access, ClassId, Entity, Fact, FactId, FunctionFlags, MemberKind, Name, OutOfMemory, Place,
    ScopeId, Stop, TypeId, TypeNode,
};
use cxx_tree::State;
use cxx_types::TypeTable;
use std::alloc::AllocError;

// ---- it begins

// Adds its name in its own scope, and the reader stands there then (9).
fn add_injected(
    state: &mut State,
    fact: Fact,
    class: ClassId,
    inner: ScopeId,
) -> Result<ClassId, Stop>
    requires ready { IsAddable state.old fact }
    requires there { inner.0 < scopes (state.old).graph.facts }
    requires class { class.0 < length (state.old).graph.classes }
    ensures { IsAnswered class_number IsClassKnown state.old state.new result (named_within inner.0 class.0 (fact_at (state.old).types fact) (meaning state.old)) }
{
    match state.add(fact) {
        Ok(_) => {
            state.set_scope(inner);
            Ok(class)
        }
        Err(stop) => Err(stop),
    }
}

fn inject(
    state: &mut State,
    place: Place,
    word: &[u8],
    class: ClassId,
    inner: ScopeId,
) -> Result<ClassId, Stop>
    requires there { inner.0 < scopes (state.old).graph.facts }
    requires class { class.0 < length (state.old).graph.classes }
    ensures { (kind : TokenKind) → IsAnswered class_number IsClassKnown state.old state.new result (named_within inner.0 class.0 (definition.injected_name inner.0 (token kind place word.now) class.0) (meaning state.old)) }
{
    match spelled(state.alloc(), word) {
        Ok(name) => {
            let fact = fact_in(inner, place, name, Entity::Injected { class });
            add_injected(state, fact, class, inner)
        }
        Err(_) => Err(Stop::OutOfMemory),
    }
}

// Its scope begins (9.2).
fn enter_class(
    state: &mut State,
    place: Place,
    word: &[u8],
    class: ClassId,
) -> Result<ClassId, Stop>
    requires { class.0 < length (state.old).graph.classes }
    ensures { (kind : TokenKind) → IsAnswered class_number IsClassKnown state.old state.new result (definition.enter_class (token kind place word.now) class.0 (meaning state.old)) }
{
    match state.add_class_scope(class, place) {
        Ok(inner) => inject(state, place, word, class, inner),
        Err(stop) => Err(stop),
    }
}

// Adds its declaration, which is a definition (3.2).
fn define_added(
    state: &mut State,
    fact: Fact,
    place: Place,
    word: &[u8],
    class: ClassId,
) -> Result<ClassId, Stop>
    requires ready { IsReady state.old fact }
    requires own { IsOwnEntity fact.what }
    requires class { class.0 < length (state.old).graph.classes }
    ensures { (kind : TokenKind) → IsAnswered class_number IsClassKnown state.old state.new result (class_added (token kind place word.now) class.0 (fact_at (state.old).types fact) (meaning state.old)) }
{
    match add_defined(state, fact) {
        Ok(_) => enter_class(state, place, word, class),
        Err(stop) => Err(stop),
    }
}

fn define_known(
    state: &mut State,
    fact: Fact,
    place: Place,
    word: &[u8],
    class: ClassId,
) -> Result<ClassId, Stop>
    requires ready { IsReady state.old fact }
    requires own { IsOwnEntity fact.what }
    requires class { class.0 < length (state.old).graph.classes }
    ensures { (kind : TokenKind) → IsAnswered class_number IsClassKnown state.old state.new result (class_known (token kind place word.now) class.0 fact.place (word_in fact.name) (fact_at (state.old).types fact) (meaning state.old)) }
{
    match definable(state, &fact) {
        Ok(()) => define_added(state, fact, place, word, class),
        Err(stop) => Err(stop),
    }
}

// A class that this scope declares already (9.1).
fn define_again(
    state: &mut State,
    is_union: bool,
    place: Place,
    word: &[u8],
    class: ClassId,
) -> Result<ClassId, Stop>
    requires { class.0 < length (state.old).graph.classes }
    ensures { (kind : TokenKind) → IsAnswered class_number IsClassKnown state.old state.new result (definition.define_again (token kind place word.now) is_union class.0 (meaning state.old)) }
{
    match word_fact(state, place, word, Entity::Class { class, is_union }) {
        Ok(fact) => define_known(state, fact, place, word, class),
        Err(_) => Err(Stop::OutOfMemory),
    }
}

fn define_reserved(
    state: &mut State,
    fact: Fact,
    place: Place,
    word: &[u8],
    class: ClassId,
) -> Result<ClassId, Stop>
    requires { IsNextClass state.old class fact }
    ensures { (kind : TokenKind) → IsAnswered class_number IsClassKnown state.old state.new result (class_reserved (token kind place word.now) class.0 (fact_at (state.old).types fact) (meaning state.old)) }
{
    match state.reserve_class() {
        Ok(_) => define_added(state, fact, place, word, class),
        Err(stop) => Err(stop),
    }
}

fn define_next(
    state: &mut State,
    fact: Fact,
    place: Place,
    word: &[u8],
    class: ClassId,
) -> Result<ClassId, Stop>
    requires { IsNextClass state.old class fact }
    ensures { (kind : TokenKind) → IsAnswered class_number IsClassKnown state.old state.new result (next_class_defined (token kind place word.now) class.0 (word_in fact.name) (fact_at (state.old).types fact) (meaning state.old)) }
{
    match free(state, &fact) {
        Ok(()) => define_reserved(state, fact, place, word, class),
        Err(stop) => Err(stop),
    }
}

fn define_new(state: &mut State, is_union: bool, place: Place, word: &[u8]) -> Result<ClassId, Stop>
    ensures { (kind : TokenKind) → IsAnswered class_number IsClassKnown state.old state.new result (definition.define_new (token kind place word.now) is_union (meaning state.old)) }
{
    let class = next_class(state);
    match word_fact(state, place, word, Entity::Class { class, is_union }) {
        Ok(fact) => define_next(state, fact, place, word, class),
        Err(_) => Err(Stop::OutOfMemory),
    }
}

/// The definition of a class begins, at its name (9, 3.3.1): its number. The reader stands in its scope then.
pub fn begin_class(
    state: &mut State,
    is_union: bool,
    place: Place,
    word: &[u8],
) -> Result<ClassId, Stop>
    ensures { (kind : TokenKind) → IsAnswered class_number IsClassKnown state.old state.new result (definition.begin_class is_union (token kind place word.now) (meaning state.old)) }
{
    match class_in(state, state.scope(), word) {
        Some(one) => define_again(state, is_union, place, word, one.class),
        None => define_new(state, is_union, place, word),
    }
}

// ---- it begins without a name

// Its scope begins (9.2), and the reader stands there then.
fn enter_unnamed(state: &mut State, place: Place, class: ClassId) -> Result<ClassId, Stop>
    requires { class.0 < length (state.old).graph.classes }
    ensures { IsAnswered class_number IsClassKnown state.old state.new result (definition.enter_unnamed place class.0 (meaning state.old)) }
{
    match state.add_class_scope(class, place) {
        Ok(inner) => {
            state.set_scope(inner);
            Ok(class)
        }
        Err(stop) => Err(stop),
    }
}

fn add_unnamed(state: &mut State, fact: Fact, place: Place, class: ClassId) -> Result<ClassId, Stop>
    requires ready { IsReady state.old fact }
    requires own { IsOwnEntity fact.what }
    requires class { class.0 < length (state.old).graph.classes }
    ensures { IsAnswered class_number IsClassKnown state.old state.new result (unnamed_added place class.0 (fact_at (state.old).types fact) (meaning state.old)) }
{
    match add_defined(state, fact) {
        Ok(_) => enter_unnamed(state, place, class),
        Err(stop) => Err(stop),
    }
}

fn reserve_unnamed(
    state: &mut State,
    fact: Fact,
    place: Place,
    class: ClassId,
) -> Result<ClassId, Stop>
    requires { IsNextClass state.old class fact }
    ensures { IsAnswered class_number IsClassKnown state.old state.new result (unnamed_reserved place class.0 (fact_at (state.old).types fact) (meaning state.old)) }
{
    match state.reserve_class() {
        Ok(_) => add_unnamed(state, fact, place, class),
        Err(stop) => Err(stop),
    }
}

/// The definition of a class without a name begins, at its key (9): its number. The reader stands in its scope then.
pub fn begin_unnamed(state: &mut State, is_union: bool, place: Place) -> Result<ClassId, Stop>
    ensures { IsAnswered class_number IsClassKnown state.old state.new result (definition.begin_unnamed is_union place (meaning state.old)) }
{
    let class = next_class(state);
    let what = Entity::Class { class, is_union };
    let fact = fact_in(state.scope(), place, Name::Unnamed, what);
    reserve_unnamed(state, fact, place, class)
}

// ---- its members

/// What is said of a member besides its name and its type.
#[derive(Clone, Copy)]
pub struct MemberWords {
    /// By the label before it (11.1).
    pub access: Access,
    /// It belongs to no object of the class (9.4).
    pub is_static: bool,
    /// Of an object: no `const` of its class makes it one (7.1.1).
    pub is_mutable: bool,
    /// Of a function: the word `virtual` stands before it (10.3).
    pub is_virtual: bool,
    /// Of a function: `= 0` stands behind it (10.4).
    pub is_pure: bool,
}

fn member_kind(is_static: bool) -> MemberKind
    ensures { result ≡ definition.member_kind is_static }
{
    if is_static {
        MemberKind::Static
    } else {
        MemberKind::Nonstatic
    }
}

// What belongs to no object is not virtual (10.3).
fn flags_of(words: MemberWords) -> FunctionFlags
    ensures { result ≡ definition.flags_of words }
{
    FunctionFlags {
        is_virtual: words.is_virtual && !words.is_static,
        is_pure: words.is_pure && !words.is_static,
        is_explicit: false,
        is_implicit: false,
    }
}

fn is_function(types: &TypeTable, of: TypeId) -> bool
    requires { of.0 < length types.now }
    ensures { result ≡ is_function_type (type_at types.now of.0) }
{
    match types.node(of) {
        TypeNode::Function { .. } => true,
        _ => false,
    }
}

// A function, where it is one, or else a data member (9.2, 9.3).
fn member_entity(is_function: bool, words: MemberWords, of: TypeId, defaults: u32) -> Entity
    ensures { result ≡ member_entity is_function words of defaults }
{
    if is_function {
        Entity::Function {
            of,
            member: member_kind(words.is_static),
            flags: flags_of(words),
            defaults,
            first: None,
        }
    } else {
        Entity::Object {
            of,
            member: member_kind(words.is_static),
            is_mutable: words.is_mutable,
            value: None,
            first: None,
        }
    }
}

// What a member with a type is.
fn member_what(types: &TypeTable, words: MemberWords, of: TypeId, defaults: u32) -> Entity
    requires { of.0 < length types.now }
    ensures { result ≡ member_entity (is_function_type (type_at types.now of.0)) words of defaults }
{
    member_entity(is_function(types, of), words, of, defaults)
}

// How many of the last parameters have a default argument, of those that stand in the list of a declarator (8.3.6).
fn member_defaults(state: &State, list: Option<ScopeId>, of: TypeId) -> Result<u32, OutOfMemory>
    requires { of.0 < length (state.now).types }
    ensures { IfOk result (λ count. count ≡ definition.member_defaults (meaning state.now) (scope_of_option list) (type_of state.now of)) }
{
    let offers = offered_by(state, list)?;
    defaults_by(state, of, None, offers.as_slice())
}

// The declaration of a member (9.2, 9.4), where so many of its last parameters have a default argument.
fn member_with(
    state: &State,
    words: MemberWords,
    place: Place,
    word: &[u8],
    of: TypeId,
    defaults: u32,
) -> Result<Fact, AllocError>
    requires { of.0 < length (state.now).types }
    ensures is { (kind : TokenKind) → IfOk result (λ fact. fact_at (state.now).types fact ≡ definition.member_here (meaning state.now) words (token kind place word.now) (type_of state.now of) defaults) }
    ensures ready { IfOk result (IsReady state.now) }
    ensures named { IfOk result (λ fact. fact.name ≡ Spelled word.now) }
{
    let what = member_what(state.types(), words, of, defaults);
    let name = spelled(state.alloc(), word)?;
    Ok(Fact {
        place,
        scope: state.scope(),
        name,
        access: words.access,
        what,
    })
}

// The same, given the scope of the list of parameters of its declarator.
fn member_fact(
    state: &State,
    words: MemberWords,
    list: Option<ScopeId>,
    place: Place,
    word: &[u8],
    of: TypeId,
) -> Result<Fact, OutOfMemory>
    requires { of.0 < length (state.now).types }
    ensures is { (kind : TokenKind) → IfOk result (λ fact. fact_at (state.now).types fact ≡ definition.member_here (meaning state.now) words (token kind place word.now) (type_of state.now of) (definition.member_defaults (meaning state.now) (scope_of_option list) (type_of state.now of))) }
    ensures ready { IfOk result (IsReady state.now) }
    ensures named { IfOk result (λ fact. fact.name ≡ Spelled word.now) }
{
    let defaults = member_defaults(state, list, of)?;
    Ok(member_with(state, words, place, word, of, defaults)?)
}

/// A member is declared (9.2), with what is said of it besides its name and its type, and with the scope of the list of
/// parameters of its declarator, where that has one of its own (8.3.6).
pub fn declare_member(
    state: &mut State,
    words: MemberWords,
    list: Option<ScopeId>,
    place: Place,
    word: &[u8],
    of: TypeId,
) -> Result<FactId, Stop>
    requires { of.0 < length (state.old).types }
    ensures { (kind : TokenKind) → IsAnswered fact_number IsFactKnown state.old state.new result (definition.declare_member words (scope_of_option list) (token kind place word.now) (type_of state.old of) (meaning state.old)) }
{
    match member_fact(state, words, list, place, word, of) {
        Ok(fact) => declare(state, fact),
        Err(_) => Err(Stop::OutOfMemory),
    }
}

// ---- it ends

// Adds facts one after another.
fn add_each(state: &mut State, all: Vec<Fact>) -> Result<(), Stop>
    requires follow { EachMayFollow (state.old).graph (state.old).graph.facts all.items }
    requires below { AreFactsBelow (length (state.old).types) all.items }
    requires plain { ArePlain all.items }
    ensures answered { IsAnswered itself AnyKnown state.old state.new result (definition.added_each (facts_at (state.old).types all.items) (meaning state.old)) }
    ensures held { OnOk result ((state.new).graph.classes ≡ (state.old).graph.classes) }
{
    for fact in all {
        state.add(fact)?;
    }
    Ok(())
}

// It is complete (9.2), and the reader stands in the scope that holds it.
fn complete_class(state: &mut State, class: ClassId, place: Place) -> Result<(), Stop>
    requires { class.0 < length (state.old).graph.classes }
    ensures { IsAnswered itself AnyKnown state.old state.new result (class_completed class.0 place (meaning state.old)) }
{
    let fact = fact_in(
        state.scope(),
        place,
        Name::Unnamed,
        Entity::Complete { class },
    );
    match state.add(fact) {
        Ok(_) => {
            state.leave_class();
            Ok(())
        }
        Err(stop) => Err(stop),
    }
}

fn end_with(state: &mut State, all: Vec<Fact>, class: ClassId, place: Place) -> Result<(), Stop>
    requires class { class.0 < length (state.old).graph.classes }
    requires follow { EachMayFollow (state.old).graph (state.old).graph.facts all.items }
    requires below { AreFactsBelow (length (state.old).types) all.items }
    requires plain { ArePlain all.items }
    ensures { IsAnswered itself AnyKnown state.old state.new result (ended_with (facts_at (state.old).types all.items) class.0 place (meaning state.old)) }
{
    match add_each(state, all) {
        Ok(()) => complete_class(state, class, place),
        Err(stop) => Err(stop),
    }
}

/// A class ends, at the place of its name (9.2): it declares by itself what it has not declared (12.1, 12.8), and the
/// reader stands in the scope that holds it then.
pub fn end_class(state: &mut State, class: ClassId, place: Place) -> Result<(), Stop>
    requires { class.0 < length (state.old).graph.classes }
    ensures { IsAnswered itself AnyKnown state.old state.new result (definition.end_class class.0 place (meaning state.old)) }
{
    match state.implicit_members(class, place) {
        Ok(all) => end_with(state, all, class, place),
        Err(_) => Err(Stop::OutOfMemory),
    }
}
