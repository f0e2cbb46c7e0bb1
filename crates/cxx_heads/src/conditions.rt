//! Declarations in conditions (6.4).

ghost use Rattle.std.specs.Prelude.{◌≡◌};
ghost use Rattle.cxx_heads.specs.Heads as definition;
ghost use Rattle.cxx_cursor.specs.Asking.{AnyKnown, itself};
ghost use Rattle.cxx_cursor.specs.Outlines.{run_in};
ghost use Rattle.cxx_cursor.specs.Reading.{IsRead, Takes};
ghost use Rattle.cxx_cursor.specs.Views.{turn_at};
ghost use Rattle.cxx_tree.specs.Held.{meaning};

use crate::names::name_passed;
use crate::suffixes::suffixes_passed;
use cxx_cursor::{Cursor, Run, Turn, is_punct};
use cxx_model::{Stop, TokenKind, keyword, punct};
use cxx_syntax::{Kinds, Nested, Reader};
use cxx_tree::State;

// A specifier that is no part of a type, `const` and `volatile` aside.
fn is_no_part(number: u8) -> bool
    ensures { result ≡ definition.is_no_part number }
{
    match number {
        keyword::AUTO => true,
        keyword::EXTERN => true,
        keyword::REGISTER => true,
        keyword::STATIC => true,
        keyword::TYPEDEF => true,
        keyword::INLINE => true,
        keyword::FRIEND => true,
        keyword::VIRTUAL => true,
        keyword::EXPLICIT => true,
        keyword::MUTABLE => true,
        _ => false,
    }
}

fn is_no_type_word(kind: TokenKind) -> bool
    ensures { result ≡ definition.is_no_type_word kind }
{
    match kind {
        TokenKind::Keyword(number) => is_no_part(number),
        _ => false,
    }
}

#[tactic(auto, unfolding(crate::specs::Heads::type_word_step))]
fn type_word_step(cursor: &mut Cursor<'_>) -> Result<Turn<(), bool>, Stop>
    ensures { Takes (turn_at (λ x. x) (λ x. x)) cursor.new result (definition.type_word_step (tt {0}) tt cursor.old) }
{
    if is_no_type_word(cursor.kind()) {
        return Ok(Turn::Done(false));
    }
    cursor.advance();
    Ok(Turn::More(()))
}

// Whether so many tokens are all parts of a type.
#[tactic(auto, using(cxx_cursor::proofs::Loops::turn, cxx_cursor::proofs::Loops::no_turn), unfolding(crate::specs::Heads::types_alone))]
fn types_alone(cursor: &mut Cursor<'_>, count: u32) -> Result<bool, Stop>
    ensures { Takes (λ x. x) cursor.new result (definition.types_alone count tt cursor.old) }
{
    for _turn in 0..count {
        match type_word_step(cursor)? {
            Turn::More(()) => {}
            Turn::Done(alone) => return Ok(alone),
        }
    }
    Ok(true)
}

// Whether a declarator with a name stands ahead, and `=` behind all of it.
#[tactic(auto, using(cxx_cursor::proofs::Kept::later_trans, cxx_cursor::proofs::Kept::later_refl), unfolding(crate::specs::Heads::initializer_follows))]
fn initializer_follows<K: Kinds, N: Nested>(
    reader: &Reader<'_, K, N>,
    state: &mut State,
    cursor: &mut Cursor<'_>,
) -> Result<bool, Stop>
    requires open { N.is_open reader.now.nested.now }
    ensures { IsRead itself AnyKnown state.old state.new cursor.new result (definition.initializer_follows (N.inner reader.now.nested.now) (meaning state.old) cursor.old) }
{
    match name_passed(cursor)? {
        None => Ok(false),
        Some(shape) => {
            if suffixes_passed(reader, state, cursor, shape)? {
                Ok(is_punct(punct::EQUALS, cursor.kind()))
            } else {
                Ok(false)
            }
        }
    }
}

#[tactic(auto, using(cxx_cursor::proofs::Kept::later_trans, cxx_cursor::proofs::Kept::later_refl))]
fn typed_by<K: Kinds, N: Nested>(
    reader: &Reader<'_, K, N>,
    state: &mut State,
    cursor: &mut Cursor<'_>,
    run: Run,
    alone: bool,
) -> Result<bool, Stop>
    requires open { N.is_open reader.now.nested.now }
    ensures { IsRead itself AnyKnown state.old state.new cursor.new result (definition.typed_by (N.inner reader.now.nested.now) (run_in run) alone (meaning state.old) cursor.old) }
{
    if !alone {
        return Ok(false);
    }
    match run {
        Run::NoType => Ok(false),
        Run::AType => initializer_follows(reader, state, cursor),
        Run::Surely => Ok(false),
    }
}

// Behind specifiers, which began at an earlier token.
#[tactic(auto, using(cxx_cursor::proofs::Kept::later_trans, cxx_cursor::proofs::Kept::later_refl))]
fn conditioned_by<K: Kinds, N: Nested>(
    reader: &Reader<'_, K, N>,
    state: &mut State,
    cursor: &mut Cursor<'_>,
    from: &Cursor<'_>,
    run: Run,
) -> Result<bool, Stop>
    requires open { N.is_open reader.now.nested.now }
    ensures { IsRead itself AnyKnown state.old state.new cursor.new result (definition.conditioned_by (N.inner reader.now.nested.now) from.now (run_in run) (meaning state.old) cursor.old) }
{
    let count = from.count().saturating_sub(cursor.count());
    let alone = types_alone(&mut from.mark(), count)?;
    typed_by(reader, state, cursor, run, alone)
}

#[tactic(auto, using(cxx_cursor::proofs::Kept::later_trans, cxx_cursor::proofs::Kept::later_refl), unfolding(crate::specs::Heads::condition_begins))]
fn condition_begins<K: Kinds, N: Nested>(
    reader: &Reader<'_, K, N>,
    state: &mut State,
    cursor: &mut Cursor<'_>,
) -> Result<bool, Stop>
    requires ready { K.is_ready reader.now.kinds.now }
    requires open { N.is_open reader.now.nested.now }
    ensures { IsRead itself AnyKnown state.old state.new cursor.new result (definition.condition_begins (K.asks reader.now.kinds.now reader.now.room) (N.inner reader.now.nested.now) (meaning state.old) cursor.old) }
{
    let from = cursor.mark();
    let run = reader.run_passed(state, cursor)?;
    conditioned_by(reader, state, cursor, &from, run)
}

/// Whether a declaration of an object with `=` stands ahead in a condition (6.4). All else is an expression.
#[tactic(auto, using(cxx_cursor::proofs::Kept::later_trans, cxx_cursor::proofs::Kept::later_refl), unfolding(crate::specs::Heads::is_declared_condition))]
pub fn is_declared_condition<K: Kinds, N: Nested>(
    reader: &Reader<'_, K, N>,
    state: &mut State,
    cursor: &Cursor<'_>,
) -> Result<bool, Stop>
    requires ready { K.is_ready reader.now.kinds.now }
    requires open { N.is_open reader.now.nested.now }
    ensures { IsRead itself AnyKnown state.old state.new cursor.now result (definition.is_declared_condition (K.asks reader.now.kinds.now reader.now.room) (N.inner reader.now.nested.now) (meaning state.old) cursor.now) }
{
    let mut ahead = cursor.mark();
    condition_begins(reader, state, &mut ahead)
}
