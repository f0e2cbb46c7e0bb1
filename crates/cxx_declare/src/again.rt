//! Functions of a class that are declared again outside of it (9.3).

ghost use Rattle.std.specs.Prelude.{ℕ, ◌≡◌, ◌<◌, ◌∷◌, [], length, IfOk, IfSome, List, None, option_map};
ghost use Rattle.cxx_model.specs.declared.facts.MemberKind.TheVariants.{Nonstatic};
ghost use Rattle.cxx_model.specs.declared.token.TokenKind.{TokenKind};
ghost use Rattle.cxx_model.specs.Facts.Declarations.{declares_at, fact_at};
ghost use Rattle.cxx_model.specs.Facts.Fitted.{IsEntityBelow};
ghost use Rattle.cxx_model.specs.Types.Numbers.{AreTypesBelow, type_at, types_at};
ghost use Rattle.cxx_model.specs.Types.Same.{same_bool as same_bool_of, same_cv as same_cv_of, same_type, same_types as same_types_of};
ghost use Rattle.cxx_model.specs.Types.Trees.{CxxType};
ghost use Rattle.cxx_model.specs.Stops.{Stops};
ghost use Rattle.cxx_declare.specs.Agreed.{seen_as};
ghost use Rattle.cxx_declare.specs.Begun.{IsAddable};
ghost use Rattle.cxx_declare.specs.Made.{IsAgain, token};
ghost use Rattle.cxx_declare.specs.Outside as members;
ghost use Rattle.cxx_reading.specs.Declaring.{added};
ghost use Rattle.cxx_reading.specs.Seen.{fact_numbers, numbered_at};
ghost use Rattle.cxx_tree.specs.Answered.{IsAnswered, IsFactKnown, fact_number};
ghost use Rattle.cxx_tree.specs.Held.{meaning, type_of};

use crate::facts::fact_in;
use crate::outside::{region_of_members, stop_at};
use crate::parts::{fact_of, spelled};
use cxx_model::{Cv, Entity, Fact, FactId, MemberKind, Place, Stop, TypeId, TypeNode};
use cxx_paths::{found_in, place_among};
use cxx_tree::State;
use cxx_types::TypeTable;
use std::alloc::AllocError;

// ---- its type

fn same_bool(one: bool, two: bool) -> bool
    ensures { result ≡ same_bool_of one two }
{
    if one { two } else { !two }
}

fn same_cv(one: Cv, two: Cv) -> bool
    ensures { result ≡ same_cv_of one two }
{
    same_bool(one.is_const, two.is_const) && same_bool(one.is_volatile, two.is_volatile)
}

#[tactic(auto, using(cxx_names::proofs::Types::below_first))]
fn same_types(types: &TypeTable, ones: &[TypeId], twos: &[TypeId]) -> bool
    requires ones { AreTypesBelow (length types.now) ones.now }
    requires twos { AreTypesBelow (length types.now) twos.now }
    ensures { result ≡ same_types_of (types_at types.now ones.now) (types_at types.now twos.now) }
{
    let (mut ones, mut twos) = (ones, twos);
    while let [one, other_ones @ ..] = ones {
        let [two, other_twos @ ..] = twos else {
            return false;
        };
        if !types.same(*one, *two) {
            return false;
        }
        ones = other_ones;
        twos = other_twos;
    }
    twos.is_empty()
}

// Whether a type is that of a function, but for the words behind its parameters, and has these words there (9.3.1).
#[tactic(auto, using(crate::proofs::Worded::both_functions, crate::proofs::Worded::one_no_function, crate::proofs::Worded::two_no_function))]
fn same_worded(types: &TypeTable, cv: Cv, one: TypeId, of: TypeId) -> bool
    requires one { one.0 < length types.now }
    requires of { of.0 < length types.now }
    ensures { result ≡ same_type (type_at types.now one.0) (members.worded Nonstatic cv (type_at types.now of.0)) }
{
    match types.node(of) {
        TypeNode::Function {
            result: second,
            parameters: twos,
            ellipsis: other,
            ..
        } => match types.node(one) {
            TypeNode::Function {
                result: first,
                parameters: ones,
                ellipsis,
                cv: words,
            } => {
                types.same(*first, *second)
                    && (same_types(types, ones.as_slice(), twos.as_slice())
                        && (same_bool(*ellipsis, *other) && same_cv(*words, cv)))
            }
            _ => false,
        },
        _ => types.same(one, of),
    }
}

// The same of a static function too, of which the words say nothing.
fn same_of_kind(types: &TypeTable, member: MemberKind, cv: Cv, one: TypeId, of: TypeId) -> bool
    requires one { one.0 < length types.now }
    requires of { of.0 < length types.now }
    ensures { result ≡ same_type (type_at types.now one.0) (members.worded member cv (type_at types.now of.0)) }
{
    match member {
        MemberKind::Nonstatic => same_worded(types, cv, one, of),
        _ => types.same(one, of),
    }
}

// Whether a declaration is that of a function with a type, given the words behind the parameters.
fn is_again(types: &TypeTable, cv: Cv, of: TypeId, what: Entity) -> bool
    requires of { of.0 < length types.now }
    requires what { IsEntityBelow (length types.now) what }
    ensures { result ≡ members.is_again cv (type_at types.now of.0) (declares_at types.now what) }
{
    match what {
        Entity::Function {
            of: one,
            member,
            ..
        } => same_of_kind(types, member, cv, one, of),
        _ => false,
    }
}

// ---- its declaration

// It is declared again as it was.
fn again_what(number: FactId, what: Entity) -> Entity
    ensures is { (types : List CxxType) → declares_at types result ≡ members.again_what number.0 (declares_at types what) }
    ensures below { (count : ℕ) → IsEntityBelow count what → IsEntityBelow count result }
{
    match what {
        Entity::Function {
            of,
            member,
            flags,
            defaults,
            ..
        } => Entity::Function {
            of,
            member,
            flags,
            defaults,
            first: Some(number),
        },
        other => other,
    }
}

fn again_by(types: &TypeTable, cv: Cv, of: TypeId, number: FactId, fact: &Fact) -> Option<Entity>
    requires of { of.0 < length types.now }
    requires what { IsEntityBelow (length types.now) (fact.now).what }
    ensures is { option_map (declares_at types.now) result ≡ members.again_among cv (type_at types.now of.0) (seen_as types.now number.0 fact.now ∷ []) }
    ensures below { IfSome result (IsEntityBelow (length types.now)) }
{
    if is_again(types, cv, of, fact.what) {
        Some(again_what(number, fact.what))
    } else {
        None
    }
}

// The same of a declaration by its number.
fn again_at(state: &State, cv: Cv, of: TypeId, number: FactId) -> Option<Entity>
    requires { of.0 < length (state.now).types }
    ensures is { option_map (declares_at (state.now).types) result ≡ members.again_among cv (type_of state.now of) (numbered_at (meaning state.now).graph (number.0 ∷ [])) }
    ensures below { IfSome result (IsEntityBelow (length (state.now).types)) }
{
    match fact_of(state.graph(), number) {
        Some(fact) => again_by(state.types(), cv, of, number, fact),
        None => None,
    }
}

// The same of the first of some declarations that is one of the function.
fn again_among(state: &State, cv: Cv, of: TypeId, numbers: &[FactId]) -> Option<Entity>
    requires { of.0 < length (state.now).types }
    ensures is { option_map (declares_at (state.now).types) result ≡ members.again_among cv (type_of state.now of) (numbered_at (meaning state.now).graph (fact_numbers numbers.now)) }
    ensures below { IfSome result (IsEntityBelow (length (state.now).types)) }
{
    for number in numbers {
        if let Some(what) = again_at(state, cv, of, *number) {
            return Some(what);
        }
    }
    None
}

// The same of the declarations of the class in whose scope the reader stands.
fn again_here(state: &State, cv: Cv, of: TypeId, word: &[u8]) -> Option<Entity>
    requires { of.0 < length (state.now).types }
    ensures is { (kind : TokenKind) (place : Place) → option_map (declares_at (state.now).types) result ≡ members.again_here (meaning state.now) (token kind place word.now) cv (type_of state.now of) }
    ensures again { IfSome result (IsAgain state.now word.now) }
{
    let numbers = state
        .names()
        .declared_in(state.graph(), state.scope(), word);
    again_among(state, cv, of, numbers)
}

fn fact_again(state: &State, place: Place, word: &[u8], what: Entity) -> Result<Fact, AllocError>
    requires { IsAgain state.now word.now what }
    ensures is { (kind : TokenKind) → IfOk result (λ fact. fact_at (state.now).types fact ≡ members.again_fact (meaning state.now) (token kind place word.now) (declares_at (state.now).types what)) }
    ensures addable { IfOk result (IsAddable state.now) }
{
    let name = spelled(state.alloc(), word)?;
    Ok(fact_in(state.scope(), place, name, what))
}

fn add_again(state: &mut State, place: Place, word: &[u8], what: Entity) -> Result<FactId, Stop>
    requires { IsAgain state.old word.now what }
    ensures { (kind : TokenKind) → IsAnswered fact_number IsFactKnown state.old state.new result (added (members.again_fact (meaning state.old) (token kind place word.now) (declares_at (state.old).types what)) (meaning state.old)) }
{
    match fact_again(state, place, word, what) {
        Ok(fact) => state.add(fact),
        Err(_) => Err(Stop::OutOfMemory),
    }
}

// ---- where the class has not declared it

fn refused_among(state: &State, place: Place, word: &[u8], numbers: &[FactId]) -> Stop
    ensures { (kind : TokenKind) → Stops result (members.declared_again (token kind place word.now) (numbered_at (meaning state.now).graph (fact_numbers numbers.now)) None (meaning state.now)) }
{
    stop_at(state, place, word, place_among(state, numbers))
}

// The first of the entities that the name means there stands in the way.
fn refused_again(state: &State, place: Place, word: &[u8]) -> Stop
    ensures { (kind : TokenKind) → Stops result (members.declared_again (token kind place word.now) (members.members_here (meaning state.now) (token kind place word.now)) None (meaning state.now)) }
{
    match found_in(state, region_of_members(state), word) {
        Ok(numbers) => refused_among(state, place, word, numbers.as_slice()),
        Err(_) => Stop::OutOfMemory,
    }
}

/// A function of the class in whose scope the reader stands is declared again (9.3 p2), by its type and the words behind its
/// parameters. Where the class has not declared it, the first of the entities that the name means there stands in the way.
pub fn declare_again(
    state: &mut State,
    place: Place,
    word: &[u8],
    cv: Cv,
    of: TypeId,
) -> Result<FactId, Stop>
    requires { of.0 < length (state.old).types }
    ensures { (kind : TokenKind) → IsAnswered fact_number IsFactKnown state.old state.new result (members.declare_again (token kind place word.now) cv (type_of state.old of) (meaning state.old)) }
{
    match again_here(state, cv, of, word) {
        Some(what) => add_again(state, place, word, what),
        None => Err(refused_again(state, place, word)),
    }
}
