//! The parts of a `for` (6.5.3).

ghost use Rattle.cxx_reading.specs.Reads.{behind, got};
ghost use Rattle.cxx_statements.specs.Statements as definition;
ghost use Rattle.cxx_cursor.specs.Asking.{IsTreeKnown};
ghost use Rattle.cxx_cursor.specs.Reading.{IsRead};
ghost use Rattle.cxx_cursor.specs.Views.{AreTreesHeld, trees_held};
ghost use Rattle.cxx_tree.specs.Held.{meaning, tree};

use crate::making::{no_part, three_trees};
use crate::parts::{Parts, Purpose, Target};
use crate::simple::plain_statement;
use crate::tests::{begins_no_object, begins_statement};
use cxx_cursor::{Cursor, is_punct};
use cxx_model::{Stop, TreeId, TreeIdList, punct};
use cxx_tree::State;

// A part that is left out, with what ends it.
#[tactic(auto, using(cxx_cursor::proofs::Kept::later_trans, cxx_cursor::proofs::Kept::later_refl))]
fn left_out(state: &mut State, cursor: &mut Cursor<'_>) -> Result<TreeId, Stop>
    ensures { IsRead tree IsTreeKnown state.old state.new cursor.new result (got (definition.no_part cursor.old) (meaning state.old) (behind cursor.old)) }
{
    let number = no_part(state, cursor)?;
    cursor.advance();
    Ok(number)
}

#[tactic(auto, using(cxx_cursor::proofs::Kept::later_trans, cxx_cursor::proofs::Kept::later_refl), unfolding(crate::specs::Statements::first_part))]
fn first_part<P: Parts>(
    parts: &P,
    state: &mut State,
    cursor: &mut Cursor<'_>,
    room: u32,
) -> Result<TreeId, Stop>
    requires ready { P.is_ready parts.now }
    ensures { IsRead tree IsTreeKnown state.old state.new cursor.new result (definition.first_part (P.asks parts.now room) (meaning state.old) cursor.old) }
{
    if is_punct(punct::SEMICOLON, cursor.kind()) {
        return left_out(state, cursor);
    }
    if begins_statement(cursor.kind()) || begins_no_object(cursor.kind()) {
        return Err(Stop::Fault(cursor.refused()?));
    }
    plain_statement(parts, state, cursor, room)
}

#[tactic(auto, using(cxx_cursor::proofs::Kept::later_trans, cxx_cursor::proofs::Kept::later_refl), unfolding(crate::specs::Statements::some_condition))]
fn some_condition<P: Parts>(
    parts: &P,
    state: &mut State,
    cursor: &mut Cursor<'_>,
    room: u32,
) -> Result<TreeId, Stop>
    requires ready { P.is_ready parts.now }
    ensures { IsRead tree IsTreeKnown state.old state.new cursor.new result (definition.some_condition (P.asks parts.now room) (meaning state.old) cursor.old) }
{
    let number = parts.expression(state, cursor, Purpose::Condition, room)?;
    let value = parts.converted(state, Target::Bool, number, room)?;
    cursor.punct(punct::SEMICOLON)?;
    Ok(value)
}

#[tactic(auto, using(cxx_cursor::proofs::Kept::later_trans, cxx_cursor::proofs::Kept::later_refl), unfolding(crate::specs::Statements::second_part))]
fn second_part<P: Parts>(
    parts: &P,
    state: &mut State,
    cursor: &mut Cursor<'_>,
    room: u32,
) -> Result<TreeId, Stop>
    requires ready { P.is_ready parts.now }
    ensures { IsRead tree IsTreeKnown state.old state.new cursor.new result (definition.second_part (P.asks parts.now room) (meaning state.old) cursor.old) }
{
    if is_punct(punct::SEMICOLON, cursor.kind()) {
        return left_out(state, cursor);
    }
    some_condition(parts, state, cursor, room)
}

#[tactic(auto, using(cxx_cursor::proofs::Kept::later_trans, cxx_cursor::proofs::Kept::later_refl), unfolding(crate::specs::Statements::some_step))]
fn some_step<P: Parts>(
    parts: &P,
    state: &mut State,
    cursor: &mut Cursor<'_>,
    room: u32,
) -> Result<TreeId, Stop>
    requires ready { P.is_ready parts.now }
    ensures { IsRead tree IsTreeKnown state.old state.new cursor.new result (definition.some_step (P.asks parts.now room) (meaning state.old) cursor.old) }
{
    let number = parts.expression(state, cursor, Purpose::Step, room)?;
    cursor.punct(punct::RIGHT_PARENTHESIS)?;
    Ok(number)
}

#[tactic(auto, using(cxx_cursor::proofs::Kept::later_trans, cxx_cursor::proofs::Kept::later_refl), unfolding(crate::specs::Statements::third_part))]
fn third_part<P: Parts>(
    parts: &P,
    state: &mut State,
    cursor: &mut Cursor<'_>,
    room: u32,
) -> Result<TreeId, Stop>
    requires ready { P.is_ready parts.now }
    ensures { IsRead tree IsTreeKnown state.old state.new cursor.new result (definition.third_part (P.asks parts.now room) (meaning state.old) cursor.old) }
{
    if is_punct(punct::RIGHT_PARENTHESIS, cursor.kind()) {
        return left_out(state, cursor);
    }
    some_step(parts, state, cursor, room)
}

/// Behind the `(`, up to its end, in a scope that is entered for it.
#[tactic(auto, using(cxx_cursor::proofs::Kept::later_trans, cxx_cursor::proofs::Kept::later_refl, crate::proofs::Kept::tree_kept, crate::proofs::Kept::tree_later), unfolding(crate::specs::Statements::loop_parts_at))]
pub(crate) fn loop_parts_at<P: Parts>(
    parts: &P,
    state: &mut State,
    cursor: &mut Cursor<'_>,
    room: u32,
) -> Result<TreeIdList, Stop>
    requires ready { P.is_ready parts.now }
    ensures { IsRead trees_held AreTreesHeld state.old state.new cursor.new result (definition.loop_parts_at (P.asks parts.now room) (meaning state.old) cursor.old) }
{
    parts.enter_block(state, room)?;
    let first = first_part(parts, state, cursor, room)?;
    let second = second_part(parts, state, cursor, room)?;
    let third = third_part(parts, state, cursor, room)?;
    Ok(three_trees(cursor.alloc(), first, second, third)?)
}
