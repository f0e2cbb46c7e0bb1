//! The readers tied together: what stands behind a bracket, or in another statement, is read by the same readers, with one
//! room less.

ghost use Rattle.cxx_statements.specs.Knot.{Enters, Follows, IsEntrance, Nests};
ghost use Rattle.cxx_statements.specs.Statements.{body_at, too_deep as too_deep_readers, within, within_by};
ghost use Rattle.cxx_cursor.specs.Reading.{IsRead};
ghost use Rattle.cxx_cursor.specs.Views.{AreTreesHeld, trees_held};
ghost use Rattle.cxx_tree.specs.Held.{meaning};

use crate::around::Around;
use crate::behind::{Behind, Entrance, Found};
use crate::conditions::{condition_at, last_condition_at};
use crate::loop_parts::loop_parts_at;
use crate::parts::Parts;
use crate::reader::Reader;
use cxx_cursor::Cursor;
use cxx_model::{LimitKind, Stop, TreeIdList};
use cxx_tree::State;

// Where there is no room.
#[tactic(auto, using(cxx_cursor::proofs::Kept::later_refl))]
pub(crate) fn too_deep(state: &State, cursor: &Cursor<'_>, what: Entrance) -> Result<Found, Stop>
    ensures { Follows too_deep_readers what state.now cursor.now result state.now cursor.now }
{
    let _ = state;
    let _ = cursor;
    match what {
        Entrance::Condition(_) => Err(Stop::Limit(LimitKind::Nesting)),
        Entrance::LastCondition => Err(Stop::Limit(LimitKind::Nesting)),
        Entrance::LoopParts => Err(Stop::Limit(LimitKind::Nesting)),
        Entrance::SubStatement(_) => Err(Stop::Limit(LimitKind::Nesting)),
        Entrance::Statements(_) => Err(Stop::Limit(LimitKind::Nesting)),
    }
}

// What stands behind a bracket, with room for so many more.
pub(crate) fn opened<
    P: Parts,
    F: Fn(&P, &mut State, &mut Cursor<'_>, Entrance, u32) -> Result<Found, Stop>,
>(
    behind: &Behind<'_, P, F>,
    state: &mut State,
    cursor: &mut Cursor<'_>,
    what: Entrance,
) -> Result<Found, Stop>
    requires nests { Nests P.asks P.is_ready F.Fn behind.now.parts.now behind.now.room behind.now.read }
    requires known { IsEntrance state.old what }
    ensures { Follows (within_by (P.asks behind.now.parts.now behind.now.room) (within (P.asks behind.now.parts.now) behind.now.room)) what state.old cursor.old result state.new cursor.new }
{
    let reader = Reader {
        parts: behind.parts,
        room: behind.room,
        inner: behind,
    };
    match what {
        Entrance::Condition(target) => Ok(Found::Tree(condition_at(
            behind.parts,
            state,
            cursor,
            target,
            behind.room,
        )?)),
        Entrance::LastCondition => Ok(Found::Tree(last_condition_at(
            behind.parts,
            state,
            cursor,
            behind.room,
        )?)),
        Entrance::LoopParts => Ok(Found::Trees(loop_parts_at(
            behind.parts,
            state,
            cursor,
            behind.room,
        )?)),
        Entrance::SubStatement(around) => {
            Ok(Found::Statement(reader.sub_statement_at(state, cursor, around)?))
        }
        Entrance::Statements(around) => {
            Ok(Found::Statements(reader.statements_at(state, cursor, around)?))
        }
    }
}

// What stands behind a bracket that was taken, or in another statement, with room for so many more, that one counted.
#[tactic(auto, using(crate::proofs::Nesting::within_zero, crate::proofs::Nesting::within_more))]
pub(crate) fn read<P: Parts>(
    parts: &P,
    state: &mut State,
    cursor: &mut Cursor<'_>,
    what: Entrance,
    room: u32,
) -> Result<Found, Stop>
    requires { Enters P.is_ready parts.now state.old what }
    ensures { Follows (within (P.asks parts.now) room) what state.old cursor.old result state.new cursor.new }
{
    if room == 0 {
        return too_deep(state, cursor, what);
    }
    let behind = Behind {
        parts,
        room: room - 1,
        read: read::<P>,
    };
    opened(&behind, state, cursor, what)
}

/// The statements of the body of a function (6, 8.4), behind its `{` and with its `}`, in the scope where the reader stands,
/// with room for so many brackets and statements inside one another. A limit is that of nesting or one of the user's.
#[tactic(auto, unfolding(crate::specs::Statements::body_at))]
pub fn read_body<P: Parts>(
    parts: &P,
    state: &mut State,
    cursor: &mut Cursor<'_>,
    room: u32,
) -> Result<TreeIdList, Stop>
    requires { P.is_ready parts.now }
    ensures { IsRead trees_held AreTreesHeld state.old state.new cursor.new result (body_at (P.asks parts.now) room (meaning state.old) cursor.old) }
{
    let behind = Behind {
        parts,
        room,
        read: read::<P>,
    };
    let reader = Reader {
        parts,
        room,
        inner: &behind,
    };
    let around = Around {
        in_loop: false,
        breaks: false,
        switch: None,
    };
    let all = reader.statements_in(state, cursor, around)?;
    Ok(all.trees)
}
