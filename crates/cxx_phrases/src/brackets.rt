//! What a `(` begins where an operand may stand (5.4, 8.2, 13.3.1.1.1).

ghost use Rattle.std.specs.Prelude.{◌≡◌, ◌≤◌, ◌<◌, ◌+◌, ◌^◌, IfOk};
ghost use Rattle.cxx_phrases.specs.Brackets as definition;
ghost use Rattle.cxx_phrases.specs.Views.{path_in};
ghost use Rattle.cxx_reading.specs.Tokens.{path_ahead};
ghost use Rattle.cxx_cursor.specs.Asking.{AnyKnown, itself};
ghost use Rattle.cxx_cursor.specs.Reading.{IsRead, Takes};
ghost use Rattle.cxx_cursor.specs.Views.{IsTurn, turn_at};
ghost use Rattle.cxx_tree.specs.Held.{meaning};

use crate::operators::begins_expression;
use crate::phrases::Phrases;
use crate::shape::TypeShape;
use cxx_cursor::{Cursor, Turn, is_punct};
use cxx_model::{LimitKind, Stop, punct};
use cxx_tree::State;

// One more bracket, where one stands.
#[tactic(auto, unfolding(crate::specs::Brackets::opened_step))]
fn opened_step(cursor: &mut Cursor<'_>, count: u64) -> Result<Turn<u64, u64>, Stop>
    requires { count < 2 ^ 63 }
    ensures is { Takes (turn_at (λ x. x) (λ x. x)) cursor.new result (definition.opened_step count tt cursor.old) }
    ensures few { IfOk result (λ turn. IsTurn (λ n. n ≤ count + 1) (λ x. Unit {0}) turn) }
{
    if !is_punct(punct::LEFT_PARENTHESIS, cursor.kind()) {
        return Ok(Turn::Done(count));
    }
    cursor.advance();
    Ok(Turn::More(count + 1))
}

// No more brackets than there is room for.
#[tactic(auto, unfolding(crate::specs::Brackets::opened_over))]
fn opened_over(cursor: &Cursor<'_>, count: u64) -> Result<u64, Stop>
    ensures { Takes (λ x. x) cursor.now result (definition.opened_over count tt cursor.now) }
{
    if is_punct(punct::LEFT_PARENTHESIS, cursor.kind()) {
        return Err(Stop::Limit(LimitKind::Nesting));
    }
    Ok(count)
}

// Brackets that open, one behind another.
#[tactic(auto, using(cxx_cursor::proofs::Loops::turn, cxx_cursor::proofs::Loops::no_turn), unfolding(crate::specs::Brackets::opened_passed))]
fn opened_passed(cursor: &mut Cursor<'_>, room: u32) -> Result<u64, Stop>
    ensures { Takes (λ x. x) cursor.new result (definition.opened_passed room tt cursor.old) }
{
    let mut count = 0;
    for _turn in 0..room {
        match opened_step(cursor, count)? {
            Turn::More(next) => count = next,
            Turn::Done(all) => return Ok(all),
        }
    }
    opened_over(cursor, count)
}

// Whether so many brackets close.
#[tactic(auto, using(cxx_cursor::proofs::Loops::turn, cxx_cursor::proofs::Loops::no_turn), unfolding(crate::specs::Brackets::closed_passed, crate::specs::Brackets::closed_step))]
fn closed_passed(cursor: &mut Cursor<'_>, count: u64) -> Result<bool, Stop>
    ensures { Takes (λ x. x) cursor.new result (definition.closed_passed count tt cursor.old) }
{
    for _turn in 0..count {
        if !is_punct(punct::RIGHT_PARENTHESIS, cursor.kind()) {
            return Ok(false);
        }
        cursor.advance();
    }
    Ok(true)
}

#[tactic(auto, unfolding(crate::specs::Brackets::name_closed))]
fn name_closed<'a>(
    cursor: &mut Cursor<'a>,
    count: u64,
    name: &Cursor<'a>,
) -> Result<Option<Cursor<'a>>, Stop>
    ensures { Takes path_in cursor.new result (definition.name_closed count (path_ahead name.now) tt cursor.old) }
{
    if !closed_passed(cursor, count)? {
        return Ok(None);
    }
    if is_punct(punct::LEFT_PARENTHESIS, cursor.kind()) {
        return Ok(Some(name.mark()));
    }
    Ok(None)
}

#[tactic(auto, unfolding(crate::specs::Brackets::name_opened))]
fn name_opened<'a>(cursor: &mut Cursor<'a>, count: u64) -> Result<Option<Cursor<'a>>, Stop>
    ensures { Takes path_in cursor.new result (definition.name_opened count tt cursor.old) }
{
    if cursor.begins_name() && cursor.is_whole_name() {
        let name = cursor.mark();
        cursor.pass_name();
        return name_closed(cursor, count, &name);
    }
    Ok(None)
}

/// The name that stands in brackets alone before a `(`, where one does: it begins where the answer stands.
#[tactic(auto, unfolding(crate::specs::Brackets::called_name))]
pub(crate) fn called_name<'a>(
    cursor: &mut Cursor<'a>,
    room: u32,
) -> Result<Option<Cursor<'a>>, Stop>
    ensures { Takes path_in cursor.new result (definition.called_name room tt cursor.old) }
{
    let count = opened_passed(cursor, room)?;
    name_opened(cursor, count)
}

// Whether a type stands behind a bracket, and behind that what can begin an operand.
#[tactic(auto, using(cxx_cursor::proofs::Kept::later_trans, cxx_cursor::proofs::Kept::later_refl), unfolding(crate::specs::Brackets::cast_passed))]
fn cast_passed<P: Phrases>(
    phrases: &P,
    state: &mut State,
    cursor: &mut Cursor<'_>,
) -> Result<bool, Stop>
    requires ready { P.is_ready phrases.now }
    ensures { IsRead itself AnyKnown state.old state.new cursor.new result (definition.cast_passed (P.inner phrases.now) (meaning state.old) cursor.old) }
{
    match phrases.inner_type_passed(state, cursor)? {
        TypeShape::NoType => Ok(false),
        TypeShape::Closed => Ok(begins_expression(cursor.kind())),
        TypeShape::Surely => Ok(true),
    }
}

/// Whether the bracket ahead begins a cast (5.4).
#[tactic(auto, using(cxx_cursor::proofs::Kept::later_trans, cxx_cursor::proofs::Kept::later_refl), unfolding(crate::specs::Brackets::begins_cast))]
pub(crate) fn begins_cast<P: Phrases>(
    phrases: &P,
    state: &mut State,
    cursor: &Cursor<'_>,
) -> Result<bool, Stop>
    requires ready { P.is_ready phrases.now }
    ensures { IsRead itself AnyKnown state.old state.new cursor.now result (definition.begins_cast (P.inner phrases.now) (meaning state.old) cursor.now) }
{
    let mut ahead = cursor.mark();
    ahead.advance();
    cast_passed(phrases, state, &mut ahead)
}
