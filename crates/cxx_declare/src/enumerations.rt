//! Enumerations and their enumerators (7.2).

ghost use Rattle.std.specs.Prelude.{◌≡◌, ◌<◌, ◌++◌, ◌∷◌, [], length, true, IfSome, Ok, OnOk, Option};
ghost use Rattle.cxx_model.specs.declared.facts.Entity.TheVariants.{Enumerator};
ghost use Rattle.cxx_model.specs.declared.token.TokenKind.{TokenKind};
ghost use Rattle.cxx_model.specs.Facts.Declarations.{fact_at};
ghost use Rattle.cxx_model.specs.Facts.Fitted.{IsFactBelow};
ghost use Rattle.cxx_model.specs.Facts.Graph.{enumerations};
ghost use Rattle.cxx_model.specs.Stops.{Gives};
ghost use Rattle.cxx_model.specs.Text.Lexemes.{Lexeme};
ghost use Rattle.cxx_model.specs.Types.Integral.{one_holds as one_holds_by};
ghost use Rattle.cxx_meaning.specs.Conversions.Enumerations.{values_in};
ghost use Rattle.cxx_names.specs.Clashes.{IsPlain, IsPlainName};
ghost use Rattle.cxx_reading.specs.Declaring as declaring;
ghost use Rattle.cxx_reading.specs.Declaring.{enumerator_value};
ghost use Rattle.cxx_declare.specs.Made.{IsEnumerationThere, IsNameOf, IsReady, enumeration_number, token, told_added, value_checked, word_in};
ghost use Rattle.cxx_tree.specs.Answered.{AnyKnown, IsAnswered, itself};
ghost use Rattle.cxx_tree.specs.Held.{meaning};

use crate::conflict::free;
use crate::facts::{declare, fact_in, word_fact};
use crate::parts::overflow;
use crate::values::next_value;
use cxx_model::{Entity, EnumId, Fact, Name, Place, Stop};
use cxx_tree::State;

/// An enumeration begins, with its name where it has one (7.2). It answers its number.
pub fn declare_enumeration(state: &mut State, name: Name, place: Place) -> Result<EnumId, Stop>
    requires { IsPlainName name }
    ensures { (one : Option Lexeme) → IsNameOf one name → IsAnswered enumeration_number IsEnumerationThere state.old state.new result (declaring.declare_enumeration one place (meaning state.old)) }
{
    let number = state.names().enumerations(state.graph());
    let fact = fact_in(state.scope(), place, name, Entity::Enumeration { number });
    match declare(state, fact) {
        Ok(_) => {
            state.set_enumeration(Some(number));
            Ok(number)
        }
        Err(stop) => Err(stop),
    }
}

/// The list of an enumeration ends (7.2).
pub fn end_enumeration(state: &mut State, number: EnumId) -> Result<(), Stop>
    ensures { IsAnswered itself AnyKnown state.old state.new result (declaring.end_enumeration number.0 (meaning state.old)) }
{
    let _ = number;
    state.set_enumeration(None);
    Ok(())
}

// Whether one type holds the values of an enumeration and one more.
fn one_holds(state: &State, number: EnumId, value: &i128) -> bool
    ensures { result ≡ one_holds_by (values_in number.0 (meaning state.now).graph.facts ++ value.now ∷ []) }
{
    state.graph().one_holds(number, *value)
}

// One type holds the values of an enumeration and one more (7.2).
fn held(state: &State, place: Place, number: EnumId, value: &i128) -> Result<(), Stop>
    ensures { Gives (λ unit. unit) result (declaring.held place (one_holds_by (values_in number.0 (meaning state.now).graph.facts ++ value.now ∷ []))) }
{
    if one_holds(state, number, value) {
        Ok(())
    } else {
        Err(Stop::Fault(overflow(state.alloc(), place)?))
    }
}

// Nothing stands in the way of an enumerator.
fn checked(state: &State, fact: &Fact, number: EnumId, value: &i128) -> Result<(), Stop>
    requires below { IsFactBelow (length (state.now).types) fact.now }
    requires plain { IsPlain fact.now }
    ensures { Gives (λ unit. unit) result (value_checked (meaning state.now) (fact_at (state.now).types fact.now) (word_in (fact.now).name) number.0 value.now) }
{
    free(state, fact)?;
    held(state, fact.place, number, value)
}

#[tactic(auto, using(cxx_names::proofs::Plain::plain_fact))]
fn add(state: &mut State, fact: Fact) -> Result<(), Stop>
    requires { IsReady state.old fact }
    ensures { IsAnswered itself AnyKnown state.old state.new result (told_added (fact_at (state.old).types fact) (meaning state.old)) }
{
    match state.add(fact) {
        Ok(_) => Ok(()),
        Err(stop) => Err(stop),
    }
}

fn enumerator(number: EnumId, value: &i128) -> Entity
    ensures { result ≡ Enumerator number value.now }
{
    Entity::Enumerator {
        number,
        value: *value,
    }
}

fn declare_value(
    state: &mut State,
    number: EnumId,
    place: Place,
    word: &[u8],
    value: &i128,
) -> Result<(), Stop>
    requires { number.0 < enumerations (state.old).graph.facts }
    ensures { (kind : TokenKind) → IsAnswered itself AnyKnown state.old state.new result (declaring.declare_value number.0 (token kind place word.now) value.now (meaning state.old)) }
{
    match word_fact(state, place, word, enumerator(number, value)) {
        Ok(fact) => match checked(state, &fact, number, value) {
            Ok(()) => add(state, fact),
            Err(stop) => Err(stop),
        },
        Err(_) => Err(Stop::OutOfMemory),
    }
}

// The value of an enumerator, where it is in range.
#[tactic(auto, unfolding(cxx_tree::specs::Held::meaning))]
fn value_of(state: &State, number: EnumId, value: Option<i128>) -> Option<i128>
    ensures { IfSome result (λ known. known ≡ enumerator_value value (values_in number.0 (meaning state.now).graph.facts)) }
{
    match value {
        Some(value) => Some(value),
        None => next_value(state.names().values(state.graph(), number)),
    }
}

/// An enumerator, with the value that is written, where one is (7.2): what conflicts comes first, then that one type holds
/// all values, then the limit.
#[tactic(auto, unfolding(cxx_reading::specs::Declaring::declare_enumerator, cxx_tree::specs::Held::meaning))]
pub fn declare_enumerator(
    state: &mut State,
    number: EnumId,
    place: Place,
    word: &[u8],
    value: Option<i128>,
) -> Result<(), Stop>
    requires { number.0 < enumerations (state.old).graph.facts }
    ensures { (kind : TokenKind) → IsAnswered itself AnyKnown state.old state.new result (declaring.declare_enumerator number.0 (token kind place word.now) value (meaning state.old)) }
{
    match value_of(state, number, value) {
        Some(value) => declare_value(state, number, place, word, &value),
        // No value that one type holds is so great.
        None => Err(Stop::OutOfMemory),
    }
}
