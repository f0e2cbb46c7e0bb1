//! The expressions of statements, and conditions (6.4).

ghost use Rattle.std.specs.Prelude.{◌≡◌, ◌<◌, length};
ghost use Rattle.cxx_language.specs.Statements as definition;
ghost use Rattle.cxx_cursor.specs.Asking.{AnyKnown, IsAsked, IsTreeKnown, itself};
ghost use Rattle.cxx_cursor.specs.Reading.{IsRead};
ghost use Rattle.cxx_tree.specs.Held.{meaning, tree};

use crate::phrasing::Phrasing;
use cxx_cursor::Cursor;
use cxx_language::read_declared_condition;
use cxx_model::{Stop, TreeId};
use cxx_phrases::Level;
use cxx_statements::Purpose;
use cxx_tree::State;

#[tactic(auto, unfolding(cxx_language::specs::Statements::set_in_step))]
fn set_in_step(state: &mut State, inside: bool) -> Result<(), Stop>
    ensures { IsAsked itself AnyKnown state.old state.new result (definition.set_in_step inside (meaning state.old)) }
{
    state.set_in_step(inside);
    Ok(())
}

// What a `for` does behind each turn (6.5.3).
#[tactic(auto, using(cxx_expr::proofs::Kept::tree_kept, cxx_expr::proofs::Kept::tree_later, cxx_cursor::proofs::Kept::later_refl, cxx_cursor::proofs::Kept::later_trans), unfolding(cxx_language::specs::Statements::step_at))]
fn step_at<P: Phrasing>(
    phrasing: &P,
    state: &mut State,
    cursor: &mut Cursor<'_>,
    room: u32,
) -> Result<TreeId, Stop>
    ensures { IsRead tree IsTreeKnown state.old state.new cursor.new result (definition.step_at room (meaning state.old) cursor.old) }
{
    set_in_step(state, true)?;
    let number = phrasing.phrase(state, cursor, Level::Whole, room)?;
    set_in_step(state, false)?;
    Ok(number)
}

// An expression, or a declaration of one object (6.4).
#[tactic(auto, using(cxx_cursor::proofs::Kept::later_refl, cxx_cursor::proofs::Kept::later_trans), unfolding(cxx_language::specs::Statements::condition_at))]
fn condition_at<P: Phrasing>(
    phrasing: &P,
    state: &mut State,
    cursor: &mut Cursor<'_>,
    room: u32,
) -> Result<TreeId, Stop>
    ensures { IsRead tree IsTreeKnown state.old state.new cursor.new result (definition.condition_at room (meaning state.old) cursor.old) }
{
    if phrasing.is_condition(state, cursor, room)? {
        return read_declared_condition(phrasing, state, cursor, room);
    }
    phrasing.phrase(state, cursor, Level::Whole, room)
}

/// An expression for its purpose.
pub(crate) fn expression_for<P: Phrasing>(
    phrasing: &P,
    state: &mut State,
    cursor: &mut Cursor<'_>,
    purpose: Purpose,
    room: u32,
) -> Result<TreeId, Stop>
    ensures { IsRead tree IsTreeKnown state.old state.new cursor.new result (definition.expression_for room purpose (meaning state.old) cursor.old) }
{
    match purpose {
        Purpose::Whole => phrasing.phrase(state, cursor, Level::Whole, room),
        Purpose::Constant => phrasing.phrase(state, cursor, Level::Constant, room),
        Purpose::Condition => condition_at(phrasing, state, cursor, room),
        Purpose::Step => step_at(phrasing, state, cursor, room),
    }
}
