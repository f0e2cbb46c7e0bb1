//! Functions, with the default arguments that their declarations give (8.3.5, 8.3.6), linked in blocks (3.5).

ghost use Rattle.std.specs.Prelude.{ℕ, ◌≡◌, ◌<◌, ◌++◌, ◌∷◌, [], length, IfOk, Ok, OnOk, List, option_map};
ghost use Rattle.cxx_model.specs.declared.facts.Name.TheVariants.{Spelled};
ghost use Rattle.cxx_model.specs.declared.token.TokenKind.{TokenKind};
ghost use Rattle.cxx_model.specs.Facts.Declarations.{CxxFact, fact_at, spelled as spelled_name};
ghost use Rattle.cxx_model.specs.Stops.{Answer, Gives};
ghost use Rattle.cxx_model.specs.Types.Numbers.{type_at};
ghost use Rattle.cxx_reading.specs.Declaring as declaring;
ghost use Rattle.cxx_reading.specs.Declaring.{added, fact_here};
ghost use Rattle.cxx_reading.specs.State.{CxxState};
ghost use Rattle.cxx_reading.specs.Trees.{CxxTree};
ghost use Rattle.cxx_declare.specs.Functions as functions;
ghost use Rattle.cxx_declare.specs.Given.{added_giving, added_linking, declared_giving, declared_unread, giving_checked, linking_if, read_by, read_in};
ghost use Rattle.cxx_declare.specs.Made.{IsEarlierFunction, IsReady, token, word_in};
ghost use Rattle.cxx_tree.specs.Answered.{IsAnswered, IsFactKnown, fact_number, scope_of_option};
ghost use Rattle.cxx_tree.specs.Held.{AreOffersBelow, Held, fallback_at, meaning, offers_at, trees, type_of};
ghost use Rattle.cxx_tree.specs.Later.{Later};

use crate::conflict::free_if;
use crate::facts::fact_in;
use crate::linking::link;
use crate::members::{first_function_here, is_linked_here};
use crate::parts::{conflicting, spelled, word_of};
use cxx_model::{
    Entity, Fact, FactId, FunctionFlags, MemberKind, OutOfMemory, Place, ScopeId, Stop, TypeId,
    TypeNode,
};
use cxx_paths::place_of;
use cxx_tree::{Fallback, Offer, OfferList, State};
use cxx_types::TypeTable;
use std::alloc::{AllocError, Global};

// ---- what was read

fn add_offer(found: &mut OfferList, scope: ScopeId, one: Offer) -> Result<(), AllocError>
    ensures { OnOk result (found.new ≡ found.old ++ read_in scope.0 (one ∷ [])) }
{
    if one.scope.0 == scope.0 {
        found.push(one)?;
    }
    Ok(())
}

fn offered_in(alloc: Global, scope: ScopeId, all: &[Offer]) -> Result<OfferList, AllocError>
    ensures { IfOk result (λ found. found ≡ read_in scope.0 all.now) }
{
    let mut found = OfferList::new(alloc);
    for one in all {
        add_offer(&mut found, scope, *one)?;
    }
    Ok(found)
}

fn offered_of(alloc: Global, list: Option<ScopeId>, all: &[Offer]) -> Result<OfferList, AllocError>
    ensures { IfOk result (λ found. found ≡ read_by list all.now) }
{
    match list {
        None => Ok(OfferList::new(alloc)),
        Some(scope) => offered_in(alloc, scope, all),
    }
}

/// The default arguments that were read in the list of a declarator, where it has one.
pub(crate) fn offered_by(state: &State, list: Option<ScopeId>) -> Result<OfferList, AllocError>
    ensures is { IfOk result (λ found. offers_at (trees state.now) found ≡ functions.offered_by (scope_of_option list) (meaning state.now).offered) }
    ensures below { IfOk result (λ found. AreOffersBelow (length (trees state.now)) found) }
{
    offered_of(state.alloc(), list, state.offers())
}

// ---- each once

// What an earlier declaration of a function in the scope where the reader stands gives to a parameter.
#[tactic(auto, unfolding(cxx_tree::specs::Held::meaning))]
fn given_before(state: &State, first: Option<FactId>, index: u32) -> Option<Fallback>
    ensures { option_map (fallback_at (trees state.now)) result ≡ functions.given_before (meaning state.now) first index }
{
    match first {
        None => None,
        Some(first) => state.first_given(state.scope(), first, index),
    }
}

#[tactic(auto, unfolding(cxx_tree::specs::Held::meaning))]
fn not_given_by(
    state: &State,
    place: Place,
    word: &[u8],
    given: Option<Fallback>,
) -> Result<(), Stop>
    ensures { Gives (λ unit. unit) result (functions.not_given_by (meaning state.now) place word.now (option_map (fallback_at (trees state.now)) given)) }
{
    match given {
        None => Ok(()),
        Some(given) => {
            let other = place_of(state.graph(), given.declaration);
            Err(Stop::Fault(conflicting(state.alloc(), place, word, other)?))
        }
    }
}

fn is_fresh(
    state: &State,
    place: Place,
    word: &[u8],
    first: Option<FactId>,
    index: u32,
) -> Result<(), Stop>
    ensures { Gives (λ unit. unit) result (functions.not_given_by (meaning state.now) place word.now (functions.given_before (meaning state.now) first index)) }
{
    not_given_by(state, place, word, given_before(state, first, index))
}

// No earlier declaration of a function gives what was read (8.3.6).
fn not_given(
    state: &State,
    place: Place,
    word: &[u8],
    first: Option<FactId>,
    offers: &[Offer],
) -> Result<(), Stop>
    ensures { Gives (λ unit. unit) result (functions.not_given (meaning state.now) place word.now first (offers_at (trees state.now) offers.now)) }
{
    for one in offers {
        is_fresh(state, place, word, first, one.index)?;
    }
    Ok(())
}

// ---- how many of the last parameters have one

fn is_offered(offers: &[Offer], index: u32) -> bool
    ensures { (trees : List CxxTree) → result ≡ functions.is_offered index (offers_at trees offers.now) }
{
    for one in offers {
        if one.index == index {
            return true;
        }
    }
    false
}

fn is_given(given: Option<Fallback>) -> bool
    ensures { (trees : List CxxTree) → result ≡ functions.is_some_given (option_map (fallback_at trees) given) }
{
    given.is_some()
}

// Whether a parameter has a default argument.
fn has_default(state: &State, first: Option<FactId>, offers: &[Offer], index: u32) -> bool
    ensures { result ≡ functions.has_default (meaning state.now) first (offers_at (trees state.now) offers.now) index }
{
    is_offered(offers, index) || is_given(given_before(state, first, index))
}

fn last_run(state: &State, first: Option<FactId>, offers: &[Offer], count: u32) -> u32
    ensures { result ≡ functions.last_run (functions.has_default (meaning state.now) first (offers_at (trees state.now) offers.now)) count }
{
    let mut run = 0;
    while run < count && has_default(state, first, offers, count - 1 - run) {
        run += 1;
    }
    run
}

#[tactic(auto, using(crate::proofs::Giving::count_is))]
fn parameter_count(types: &TypeTable, of: TypeId) -> usize
    requires { of.0 < length types.now }
    ensures { result ≡ functions.parameter_count (type_at types.now of.0) }
{
    match types.node(of) {
        TypeNode::Function { parameters, .. } => parameters.len(),
        _ => 0,
    }
}

/// How many of the last parameters have a default argument (8.3.6).
pub(crate) fn defaults_by(
    state: &State,
    of: TypeId,
    first: Option<FactId>,
    offers: &[Offer],
) -> Result<u32, OutOfMemory>
    requires { of.0 < length (state.now).types }
    ensures { IfOk result (λ count. count ≡ functions.defaults_by (meaning state.now) (type_of state.now of) first (offers_at (trees state.now) offers.now)) }
{
    match u32::try_from(parameter_count(state.types(), of)) {
        Ok(count) => Ok(last_run(state, first, offers, count)),
        Err(_) => Err(OutOfMemory),
    }
}

// ---- the declaration

fn fact_with(
    state: &State,
    place: Place,
    word: &[u8],
    of: TypeId,
    first: Option<FactId>,
    defaults: u32,
) -> Result<Fact, AllocError>
    requires known { of.0 < length (state.now).types }
    requires earlier { IsEarlierFunction state.now word.now first }
    ensures is { IfOk result (λ fact. fact_at (state.now).types fact ≡ fact_here (meaning state.now) (spelled_name word.now) place (functions.function_with (type_of state.now of) defaults first)) }
    ensures ready { IfOk result (IsReady state.now) }
    ensures named { IfOk result (λ fact. fact.name ≡ Spelled word.now) }
{
    let name = spelled(state.alloc(), word)?;
    Ok(fact_in(
        state.scope(),
        place,
        name,
        Entity::Function {
            of,
            member: MemberKind::Free,
            flags: FunctionFlags {
                is_virtual: false,
                is_pure: false,
                is_explicit: false,
                is_implicit: false,
            },
            defaults,
            first,
        },
    ))
}

fn function_by(
    state: &State,
    place: Place,
    word: &[u8],
    of: TypeId,
    first: Option<FactId>,
    offers: &[Offer],
) -> Result<Fact, OutOfMemory>
    requires known { of.0 < length (state.now).types }
    requires earlier { IsEarlierFunction state.now word.now first }
    ensures is { (kind : TokenKind) → IfOk result (λ fact. fact_at (state.now).types fact ≡ functions.function_by (meaning state.now) (token kind place word.now) (type_of state.now of) first (offers_at (trees state.now) offers.now)) }
    ensures ready { IfOk result (IsReady state.now) }
    ensures named { IfOk result (λ fact. fact.name ≡ Spelled word.now) }
{
    let defaults = defaults_by(state, of, first, offers)?;
    Ok(fact_with(state, place, word, of, first, defaults)?)
}

// Nothing stands in the way of a declaration, and it gives nothing twice (3.3, 3.5, 8.3.6).
fn checked(
    state: &State,
    linked: bool,
    fact: &Fact,
    first: Option<FactId>,
    offers: &[Offer],
) -> Result<(), Stop>
    requires { IsReady state.now fact.now }
    ensures { Gives (λ unit. unit) result (giving_checked linked (meaning state.now) (fact_at (state.now).types fact.now) (word_in (fact.now).name) first (offers_at (trees state.now) offers.now)) }
{
    free_if(state, linked, fact)?;
    not_given(state, fact.place, word_of(&fact.name), first, offers)
}

fn give_all(state: &mut State, number: FactId, offers: &[Offer]) -> Result<(), OutOfMemory>
    requires { AreOffersBelow (length (trees state.old)) offers.now }
    ensures later { Later state.old state.new }
    ensures is { OnOk result (meaning state.new ≡ functions.with_all_given number.0 (offers_at (trees state.old) offers.now) (meaning state.old)) }
{
    for one in offers {
        state.add_fallback(number, one.index, one.tree)?;
    }
    Ok(())
}

// A declaration that was added gives what was read.
fn give(state: &mut State, number: FactId, offers: &[Offer]) -> Result<FactId, Stop>
    requires { AreOffersBelow (length (trees state.old)) offers.now }
    ensures { (old : Held) (fact : CxxFact) → IsAnswered fact_number IsFactKnown old state.old (Ok number) (added fact (meaning old)) → IsAnswered fact_number IsFactKnown old state.new result (added_giving fact (offers_at (trees state.old) offers.now) (meaning old)) }
{
    match give_all(state, number, offers) {
        Ok(()) => {
            state.clear_offers();
            Ok(number)
        }
        Err(_) => Err(Stop::OutOfMemory),
    }
}

#[tactic(auto, using(cxx_names::proofs::Plain::plain_fact))]
fn add_giving(state: &mut State, fact: Fact, offers: &[Offer]) -> Result<FactId, Stop>
    requires ready { IsReady state.old fact }
    requires below { AreOffersBelow (length (trees state.old)) offers.now }
    ensures { IsAnswered fact_number IsFactKnown state.old state.new result (added_giving (fact_at (state.old).types fact) (offers_at (trees state.old) offers.now) (meaning state.old)) }
{
    match state.add(fact) {
        Ok(number) => give(state, number, offers),
        Err(stop) => Err(stop),
    }
}

fn link_if(state: &mut State, linked: bool, number: FactId) -> Result<FactId, Stop>
    requires { number.0 < length (state.old).graph.facts }
    ensures { (old : Held) (reply : Answer (ℕ × CxxState)) → IsAnswered fact_number IsFactKnown old state.old (Ok number) reply → IsAnswered fact_number IsFactKnown old state.new result (linking_if linked reply) }
{
    if linked {
        link(state, number)
    } else {
        Ok(number)
    }
}

// Adds a declaration, which is linked in a block (3.5).
fn add_linking(
    state: &mut State,
    linked: bool,
    fact: Fact,
    offers: &[Offer],
) -> Result<FactId, Stop>
    requires ready { IsReady state.old fact }
    requires below { AreOffersBelow (length (trees state.old)) offers.now }
    ensures { IsAnswered fact_number IsFactKnown state.old state.new result (added_linking linked (fact_at (state.old).types fact) (offers_at (trees state.old) offers.now) (meaning state.old)) }
{
    match add_giving(state, fact, offers) {
        Ok(number) => link_if(state, linked, number),
        Err(stop) => Err(stop),
    }
}

fn declare_giving(
    state: &mut State,
    linked: bool,
    fact: Fact,
    first: Option<FactId>,
    offers: &[Offer],
) -> Result<FactId, Stop>
    requires ready { IsReady state.old fact }
    requires below { AreOffersBelow (length (trees state.old)) offers.now }
    ensures { IsAnswered fact_number IsFactKnown state.old state.new result (declared_giving linked (fact_at (state.old).types fact) (word_in fact.name) first (offers_at (trees state.old) offers.now) (meaning state.old)) }
{
    match checked(state, linked, &fact, first, offers) {
        Ok(()) => add_linking(state, linked, fact, offers),
        Err(stop) => Err(stop),
    }
}

fn declare_first(
    state: &mut State,
    linked: bool,
    place: Place,
    word: &[u8],
    of: TypeId,
    first: Option<FactId>,
    offers: &[Offer],
) -> Result<FactId, Stop>
    requires known { of.0 < length (state.old).types }
    requires earlier { IsEarlierFunction state.old word.now first }
    requires below { AreOffersBelow (length (trees state.old)) offers.now }
    ensures { (kind : TokenKind) → IsAnswered fact_number IsFactKnown state.old state.new result (functions.declare_with linked (token kind place word.now) (type_of state.old of) first (offers_at (trees state.old) offers.now) (meaning state.old)) }
{
    match function_by(state, place, word, of, first, offers) {
        Ok(fact) => declare_giving(state, linked, fact, first, offers),
        Err(_) => Err(Stop::OutOfMemory),
    }
}

fn declare_with(
    state: &mut State,
    place: Place,
    word: &[u8],
    of: TypeId,
    offers: &[Offer],
) -> Result<FactId, Stop>
    requires known { of.0 < length (state.old).types }
    requires below { AreOffersBelow (length (trees state.old)) offers.now }
    ensures { (kind : TokenKind) → IsAnswered fact_number IsFactKnown state.old state.new result (functions.declare_with (functions.is_linked_here (meaning state.old)) (token kind place word.now) (type_of state.old of) (declaring.first_member_function (meaning state.old) (declaring.home_here (meaning state.old)) (spelled_name word.now) (type_of state.old of)) (offers_at (trees state.old) offers.now) (meaning state.old)) }
{
    let linked = is_linked_here(state);
    match first_function_here(state, of, word) {
        Ok(first) => declare_first(state, linked, place, word, of, first, offers),
        Err(_) => Err(Stop::OutOfMemory),
    }
}

/// A function is declared (8.3.5), whose declarator has its own list of parameters with that scope, or none. The default
/// arguments that were read in that list are given to it, each once in a scope (8.3.6). In a block it is linked (3.5).
pub fn declare_function(
    state: &mut State,
    list: Option<ScopeId>,
    place: Place,
    word: &[u8],
    of: TypeId,
) -> Result<FactId, Stop>
    requires { of.0 < length (state.old).types }
    ensures { (kind : TokenKind) → IsAnswered fact_number IsFactKnown state.old state.new result (functions.declare_function (scope_of_option list) (token kind place word.now) (type_of state.old of) (meaning state.old)) }
{
    match offered_by(state, list) {
        Ok(offers) => declare_with(state, place, word, of, offers.as_slice()),
        Err(_) => Err(Stop::OutOfMemory),
    }
}

// ---- friends (11.4)

// Adds a declaration that gives no default argument, and is not linked.
#[tactic(auto, using(cxx_names::proofs::Plain::plain_fact))]
fn add_unread(
    state: &mut State,
    fact: Fact,
    first: Option<FactId>,
    offers: &[Offer],
) -> Result<FactId, Stop>
    requires ready { IsReady state.old fact }
    ensures { IsAnswered fact_number IsFactKnown state.old state.new result (declared_unread (fact_at (state.old).types fact) (word_in fact.name) first (offers_at (trees state.old) offers.now) (meaning state.old)) }
{
    match checked(state, false, &fact, first, offers) {
        Ok(()) => state.add(fact),
        Err(stop) => Err(stop),
    }
}

fn declare_unread_first(
    state: &mut State,
    place: Place,
    word: &[u8],
    of: TypeId,
    first: Option<FactId>,
    offers: &[Offer],
) -> Result<FactId, Stop>
    requires known { of.0 < length (state.old).types }
    requires earlier { IsEarlierFunction state.old word.now first }
    ensures { (kind : TokenKind) → IsAnswered fact_number IsFactKnown state.old state.new result (functions.declare_unread_with (token kind place word.now) (type_of state.old of) first (offers_at (trees state.old) offers.now) (meaning state.old)) }
{
    match function_by(state, place, word, of, first, offers) {
        Ok(fact) => add_unread(state, fact, first, offers),
        Err(_) => Err(Stop::OutOfMemory),
    }
}

fn declare_unread_with(
    state: &mut State,
    place: Place,
    word: &[u8],
    of: TypeId,
    offers: &[Offer],
) -> Result<FactId, Stop>
    requires known { of.0 < length (state.old).types }
    ensures { (kind : TokenKind) → IsAnswered fact_number IsFactKnown state.old state.new result (functions.declare_unread_with (token kind place word.now) (type_of state.old of) (declaring.first_member_function (meaning state.old) (declaring.home_here (meaning state.old)) (spelled_name word.now) (type_of state.old of)) (offers_at (trees state.old) offers.now) (meaning state.old)) }
{
    match first_function_here(state, of, word) {
        Ok(first) => declare_unread_first(state, place, word, of, first, offers),
        Err(_) => Err(Stop::OutOfMemory),
    }
}

/// A function of the namespace where the reader stands is declared, the default arguments of which are read later (9.2 p2). None
/// is given to it.
pub(crate) fn declare_unread(
    state: &mut State,
    list: Option<ScopeId>,
    place: Place,
    word: &[u8],
    of: TypeId,
) -> Result<FactId, Stop>
    requires { of.0 < length (state.old).types }
    ensures { (kind : TokenKind) → IsAnswered fact_number IsFactKnown state.old state.new result (functions.declare_unread (scope_of_option list) (token kind place word.now) (type_of state.old of) (meaning state.old)) }
{
    match offered_by(state, list) {
        Ok(offers) => declare_unread_with(state, place, word, of, offers.as_slice()),
        Err(_) => Err(Stop::OutOfMemory),
    }
}
