//! Conditions behind their bracket (6.4, 6.5.2).

ghost use Rattle.cxx_statements.specs.Statements as definition;
ghost use Rattle.cxx_statements.specs.Views.{IsTarget, target_of};
ghost use Rattle.cxx_cursor.specs.Asking.{IsTreeKnown};
ghost use Rattle.cxx_cursor.specs.Reading.{IsRead};
ghost use Rattle.cxx_tree.specs.Held.{meaning, tree};

use crate::parts::{Parts, Purpose, Target};
use cxx_cursor::Cursor;
use cxx_model::{Stop, TreeId, punct};
use cxx_tree::State;

// What was read becomes what is wanted before the bracket is looked at.
#[tactic(auto, using(cxx_cursor::proofs::Kept::later_trans, cxx_cursor::proofs::Kept::later_refl))]
fn condition_ended<P: Parts>(
    parts: &P,
    state: &mut State,
    cursor: &mut Cursor<'_>,
    target: Target,
    number: TreeId,
    room: u32,
) -> Result<TreeId, Stop>
    requires ready { P.is_ready parts.now }
    requires target { IsTarget state.old target }
    requires number { IsTreeKnown state.old number }
    ensures { IsRead tree IsTreeKnown state.old state.new cursor.new result (definition.condition_ended (P.asks parts.now room) (target_of state.old target) (tree state.old number) (meaning state.old) cursor.old) }
{
    let value = parts.converted(state, target, number, room)?;
    cursor.punct(punct::RIGHT_PARENTHESIS)?;
    Ok(value)
}

/// Behind the `(`, up to its end, in a scope that is entered for it (6.4).
#[tactic(auto, using(cxx_cursor::proofs::Kept::later_trans, cxx_cursor::proofs::Kept::later_refl, crate::proofs::Kept::target_kept, crate::proofs::Kept::target_later), unfolding(crate::specs::Statements::condition_at))]
pub(crate) fn condition_at<P: Parts>(
    parts: &P,
    state: &mut State,
    cursor: &mut Cursor<'_>,
    target: Target,
    room: u32,
) -> Result<TreeId, Stop>
    requires ready { P.is_ready parts.now }
    requires target { IsTarget state.old target }
    ensures { IsRead tree IsTreeKnown state.old state.new cursor.new result (definition.condition_at (P.asks parts.now room) (target_of state.old target) (meaning state.old) cursor.old) }
{
    parts.enter_block(state, room)?;
    let number = parts.expression(state, cursor, Purpose::Condition, room)?;
    condition_ended(parts, state, cursor, target, number, room)
}

/// Behind the `(` of a `do` (6.5.2).
#[tactic(auto, using(cxx_cursor::proofs::Kept::later_trans, cxx_cursor::proofs::Kept::later_refl), unfolding(crate::specs::Statements::last_condition_at))]
pub(crate) fn last_condition_at<P: Parts>(
    parts: &P,
    state: &mut State,
    cursor: &mut Cursor<'_>,
    room: u32,
) -> Result<TreeId, Stop>
    requires ready { P.is_ready parts.now }
    ensures { IsRead tree IsTreeKnown state.old state.new cursor.new result (definition.last_condition_at (P.asks parts.now room) (meaning state.old) cursor.old) }
{
    let number = parts.expression(state, cursor, Purpose::Whole, room)?;
    condition_ended(parts, state, cursor, Target::Bool, number, room)
}
