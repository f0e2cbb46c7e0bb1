//! A declarator behind its name (8.3.4, 8.3.5).

ghost use Rattle.std.specs.Prelude.{◌≡◌};
ghost use Rattle.cxx_heads.specs.Heads as definition;
ghost use Rattle.cxx_cursor.specs.Asking.{AnyKnown, itself};
ghost use Rattle.cxx_cursor.specs.Reading.{IsRead, Takes};
ghost use Rattle.cxx_cursor.specs.Views.{turn_at};
ghost use Rattle.cxx_tree.specs.Held.{meaning};

use crate::names::is_cv_word;
use crate::shape::Shape;
use cxx_cursor::{Cursor, Turn, is_keyword, is_punct};
use cxx_model::{Stop, TokenKind, keyword, punct};
use cxx_syntax::{Kinds, Nested, Reader, brackets_passed};
use cxx_tree::State;

// Brackets, behind which cv words may stand or not.
#[tactic(auto, using(cxx_cursor::proofs::Kept::later_refl))]
fn gone_past(
    state: &State,
    cursor: &mut Cursor<'_>,
    takes_cv: bool,
    shape: Shape,
) -> Result<Turn<Shape, bool>, Stop>
    ensures { IsRead (λ held. turn_at (λ x. x) (λ x. x)) AnyKnown state.now state.now cursor.new result (definition.gone_past takes_cv shape (meaning state.now) cursor.old) }
{
    let _ = state;
    brackets_passed(cursor)?;
    Ok(Turn::More(Shape {
        brackets: shape.brackets,
        takes_cv,
    }))
}

// A list that holds parameters (8.2).
#[tactic(auto, using(cxx_cursor::proofs::Kept::later_trans, cxx_cursor::proofs::Kept::later_refl), unfolding(crate::specs::Heads::list_step))]
fn list_step<K: Kinds, N: Nested>(
    reader: &Reader<'_, K, N>,
    state: &mut State,
    cursor: &mut Cursor<'_>,
    shape: Shape,
) -> Result<Turn<Shape, bool>, Stop>
    requires open { N.is_open reader.now.nested.now }
    ensures { IsRead (λ held. turn_at (λ x. x) (λ x. x)) AnyKnown state.old state.new cursor.new result (definition.list_step (N.inner reader.now.nested.now) shape (meaning state.old) cursor.old) }
{
    let mut ahead = cursor.mark();
    ahead.advance();
    if reader.nested.holds_parameters(state, &mut ahead)? {
        return gone_past(state, cursor, true, shape);
    }
    Ok(Turn::Done(false))
}

// Behind `throw` (15.4).
#[tactic(auto, using(cxx_cursor::proofs::Kept::later_refl), unfolding(crate::specs::Heads::exceptions_step))]
fn exceptions_step(
    state: &State,
    cursor: &mut Cursor<'_>,
    shape: Shape,
) -> Result<Turn<Shape, bool>, Stop>
    ensures { IsRead (λ held. turn_at (λ x. x) (λ x. x)) AnyKnown state.now state.now cursor.new result (definition.exceptions_step shape (meaning state.now) cursor.old) }
{
    if is_punct(punct::LEFT_PARENTHESIS, cursor.kind()) {
        return gone_past(state, cursor, false, shape);
    }
    Ok(Turn::Done(false))
}

// Parameters with the words behind them, a bound, or an end of brackets.
#[tactic(auto, using(cxx_cursor::proofs::Kept::later_trans, cxx_cursor::proofs::Kept::later_refl), unfolding(crate::specs::Heads::suffix_step))]
fn suffix_step<K: Kinds, N: Nested>(
    reader: &Reader<'_, K, N>,
    state: &mut State,
    cursor: &mut Cursor<'_>,
    shape: Shape,
) -> Result<Turn<Shape, bool>, Stop>
    requires open { N.is_open reader.now.nested.now }
    ensures { IsRead (λ held. turn_at (λ x. x) (λ x. x)) AnyKnown state.old state.new cursor.new result (definition.suffix_step (N.inner reader.now.nested.now) shape (meaning state.old) cursor.old) }
{
    let kind = cursor.kind();
    if is_punct(punct::LEFT_PARENTHESIS, kind) {
        return list_step(reader, state, cursor, shape);
    }
    if is_punct(punct::LEFT_BRACKET, kind) {
        return gone_past(state, cursor, false, shape);
    }
    if is_cv_word(kind) && shape.takes_cv {
        cursor.advance();
        return Ok(Turn::More(shape));
    }
    if is_keyword(keyword::THROW, kind) && shape.takes_cv {
        cursor.advance();
        return exceptions_step(state, cursor, shape);
    }
    if is_punct(punct::RIGHT_PARENTHESIS, kind) && !(shape.brackets == 0) {
        cursor.advance();
        return Ok(Turn::More(Shape {
            brackets: shape.brackets - 1,
            takes_cv: false,
        }));
    }
    Ok(Turn::Done(shape.brackets == 0))
}

/// Passes all that may stand behind the name of a declarator.
#[tactic(auto, using(cxx_cursor::proofs::Loops::turn, cxx_cursor::proofs::Loops::no_turn, cxx_cursor::proofs::Kept::later_trans, cxx_cursor::proofs::Kept::later_refl), unfolding(crate::specs::Heads::suffixes_passed))]
pub(crate) fn suffixes_passed<K: Kinds, N: Nested>(
    reader: &Reader<'_, K, N>,
    state: &mut State,
    cursor: &mut Cursor<'_>,
    shape: Shape,
) -> Result<bool, Stop>
    requires open { N.is_open reader.now.nested.now }
    ensures { IsRead itself AnyKnown state.old state.new cursor.new result (definition.suffixes_passed (N.inner reader.now.nested.now) shape (meaning state.old) cursor.old) }
{
    let mut shape = shape;
    for _turn in 0..cursor.count() {
        match suffix_step(reader, state, cursor, shape)? {
            Turn::More(next) => shape = next,
            Turn::Done(closed) => return Ok(closed),
        }
    }
    Ok(false)
}

// The same inside of the brackets round the name.
#[tactic(auto, using(cxx_cursor::proofs::Kept::later_trans, cxx_cursor::proofs::Kept::later_refl), unfolding(crate::specs::Heads::closing_step))]
fn closing_step<K: Kinds, N: Nested>(
    reader: &Reader<'_, K, N>,
    state: &mut State,
    cursor: &mut Cursor<'_>,
    shape: Shape,
) -> Result<Turn<Shape, bool>, Stop>
    requires open { N.is_open reader.now.nested.now }
    ensures { IsRead (λ held. turn_at (λ x. x) (λ x. x)) AnyKnown state.old state.new cursor.new result (definition.closing_step (N.inner reader.now.nested.now) shape (meaning state.old) cursor.old) }
{
    if shape.brackets == 0 {
        return Ok(Turn::Done(true));
    }
    suffix_step(reader, state, cursor, shape)
}

/// Passes the brackets round the name of a declarator, and answers whether they close.
#[tactic(auto, using(cxx_cursor::proofs::Loops::turn, cxx_cursor::proofs::Loops::no_turn, cxx_cursor::proofs::Kept::later_trans, cxx_cursor::proofs::Kept::later_refl), unfolding(crate::specs::Heads::closed_passed))]
pub(crate) fn closed_passed<K: Kinds, N: Nested>(
    reader: &Reader<'_, K, N>,
    state: &mut State,
    cursor: &mut Cursor<'_>,
    shape: Shape,
) -> Result<bool, Stop>
    requires open { N.is_open reader.now.nested.now }
    ensures { IsRead itself AnyKnown state.old state.new cursor.new result (definition.closed_passed (N.inner reader.now.nested.now) shape (meaning state.old) cursor.old) }
{
    let mut shape = shape;
    for _turn in 0..cursor.count() {
        match closing_step(reader, state, cursor, shape)? {
            Turn::More(next) => shape = next,
            Turn::Done(closed) => return Ok(closed),
        }
    }
    Ok(false)
}

// What a declaration goes on with behind a declarator.
fn goes_on(kind: TokenKind) -> bool
    ensures { result ≡ definition.goes_on kind }
{
    is_punct(punct::SEMICOLON, kind)
        || (is_punct(punct::EQUALS, kind)
            || (is_punct(punct::COMMA, kind) || is_punct(punct::LEFT_PARENTHESIS, kind)))
}

#[tactic(auto, unfolding(crate::specs::Heads::bound_step))]
fn bound_step(cursor: &mut Cursor<'_>) -> Result<Turn<(), bool>, Stop>
    ensures { Takes (turn_at (λ x. x) (λ x. x)) cursor.new result (definition.bound_step (tt {0}) tt cursor.old) }
{
    if is_punct(punct::LEFT_BRACKET, cursor.kind()) {
        brackets_passed(cursor)?;
        return Ok(Turn::More(()));
    }
    Ok(Turn::Done(goes_on(cursor.kind())))
}

/// Passes bounds, and answers whether a declaration goes on behind them.
#[tactic(auto, using(cxx_cursor::proofs::Loops::turn, cxx_cursor::proofs::Loops::no_turn), unfolding(crate::specs::Heads::bounds_passed))]
pub(crate) fn bounds_passed(cursor: &mut Cursor<'_>) -> Result<bool, Stop>
    ensures { Takes (λ x. x) cursor.new result (definition.bounds_passed tt cursor.old) }
{
    for _turn in 0..cursor.count() {
        match bound_step(cursor)? {
            Turn::More(()) => {}
            Turn::Done(answer) => return Ok(answer),
        }
    }
    Ok(false)
}
