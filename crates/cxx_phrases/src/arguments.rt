//! Lists of expressions in brackets (5.2.2, 5.2.3, 8.5).

ghost use Rattle.std.specs.Prelude.{◌≡◌, ◌++◌, [], ◌∷◌};
ghost use Rattle.cxx_phrases.specs.Arguments as definition;
ghost use Rattle.cxx_cursor.specs.Asking.{IsTreeKnown};
ghost use Rattle.cxx_cursor.specs.Reading.{IsRead};
ghost use Rattle.cxx_cursor.specs.Views.{AreTreesHeld, IsTreesTurn, trees_held, trees_turn};
ghost use Rattle.cxx_tree.specs.Held.{meaning, tree};

use crate::level::Level;
use crate::lists::with_tree;
use crate::operators::begins_expression;
use crate::phrases::Phrases;
use cxx_cursor::{Cursor, Turn, is_keyword, is_punct};
use cxx_model::limits::MOST_ARGUMENTS;
use cxx_model::{LimitKind, Listed, Stop, TreeId, TreeIdList, keyword, punct};
use cxx_tree::State;

// Behind an argument.
#[tactic(auto, using(cxx_cursor::proofs::Kept::later_refl, cxx_cursor::proofs::Kept::trees_append, cxx_cursor::proofs::Kept::trees_below_append), unfolding(crate::specs::Arguments::argument_ended))]
fn argument_ended(
    state: &State,
    cursor: &mut Cursor<'_>,
    so_far: TreeIdList,
    number: TreeId,
) -> Result<Turn<TreeIdList, TreeIdList>, Stop>
    requires so_far { AreTreesHeld state.now so_far }
    requires number { IsTreeKnown state.now number }
    ensures { IsRead trees_turn IsTreesTurn state.now state.now cursor.new result (definition.argument_ended (trees_held state.now so_far) (tree state.now number) (meaning state.now) cursor.old) }
{
    let _ = state;
    let all = with_tree(so_far, number)?;
    if is_punct(punct::COMMA, cursor.kind()) {
        cursor.advance();
        return Ok(Turn::More(all));
    }
    if is_punct(punct::RIGHT_PARENTHESIS, cursor.kind()) {
        cursor.advance();
        return Ok(Turn::Done(all));
    }
    Err(Stop::Fault(cursor.refused()?))
}

// An argument, and what separates it from the next.
#[tactic(auto, using(cxx_cursor::proofs::Kept::later_trans, cxx_cursor::proofs::Kept::later_refl, cxx_cursor::proofs::Kept::trees_kept, cxx_cursor::proofs::Kept::trees_later), unfolding(crate::specs::Arguments::argument_step))]
fn argument_step<P: Phrases>(
    phrases: &P,
    state: &mut State,
    cursor: &mut Cursor<'_>,
    so_far: TreeIdList,
) -> Result<Turn<TreeIdList, TreeIdList>, Stop>
    requires ready { P.is_ready phrases.now }
    requires so_far { AreTreesHeld state.old so_far }
    ensures { IsRead trees_turn IsTreesTurn state.old state.new cursor.new result (definition.argument_step (P.inner phrases.now) (trees_held state.old so_far) (meaning state.old) cursor.old) }
{
    let number = phrases.inner_expression(state, cursor, Level::Assignment)?;
    argument_ended(state, cursor, so_far, number)
}

// More arguments than there may be, where one can begin.
#[tactic(auto, using(cxx_cursor::proofs::Kept::later_refl), unfolding(crate::specs::Arguments::arguments_over))]
fn arguments_over(
    state: &State,
    cursor: &Cursor<'_>,
    so_far: &TreeIdList,
) -> Result<TreeIdList, Stop>
    ensures { IsRead trees_held AreTreesHeld state.now state.now cursor.now result (definition.arguments_over (trees_held state.now so_far.now) (meaning state.now) cursor.now) }
{
    let _ = state;
    let _ = so_far;
    if begins_expression(cursor.kind()) || is_keyword(keyword::THROW, cursor.kind()) {
        return Err(Stop::Limit(LimitKind::Arguments));
    }
    Err(Stop::Fault(cursor.refused()?))
}

/// At least one argument, with the end of the bracket.
#[tactic(auto, using(cxx_cursor::proofs::Loops::turn, cxx_cursor::proofs::Loops::no_turn, cxx_cursor::proofs::Kept::later_trans, cxx_cursor::proofs::Kept::later_refl), unfolding(crate::specs::Arguments::some_arguments))]
pub(crate) fn some_arguments<P: Phrases>(
    phrases: &P,
    state: &mut State,
    cursor: &mut Cursor<'_>,
) -> Result<TreeIdList, Stop>
    requires ready { P.is_ready phrases.now }
    ensures { IsRead trees_held AreTreesHeld state.old state.new cursor.new result (definition.some_arguments (P.inner phrases.now) (meaning state.old) cursor.old) }
{
    let mut so_far = Listed::new(cursor.alloc());
    for _turn in 0..MOST_ARGUMENTS {
        match argument_step(phrases, state, cursor, so_far)? {
            Turn::More(next) => so_far = next,
            Turn::Done(all) => return Ok(all),
        }
    }
    arguments_over(state, cursor, &so_far)
}

// Arguments behind their bracket.
#[tactic(auto, using(cxx_cursor::proofs::Kept::later_trans, cxx_cursor::proofs::Kept::later_refl), unfolding(crate::specs::Arguments::arguments_behind))]
fn arguments_behind<P: Phrases>(
    phrases: &P,
    state: &mut State,
    cursor: &mut Cursor<'_>,
) -> Result<TreeIdList, Stop>
    requires ready { P.is_ready phrases.now }
    ensures { IsRead trees_held AreTreesHeld state.old state.new cursor.new result (definition.arguments_behind (P.inner phrases.now) (meaning state.old) cursor.old) }
{
    if is_punct(punct::RIGHT_PARENTHESIS, cursor.kind()) {
        cursor.advance();
        return Ok(Listed::new(cursor.alloc()));
    }
    some_arguments(phrases, state, cursor)
}

/// Arguments from the bracket ahead on, with its end.
#[tactic(auto, using(cxx_cursor::proofs::Kept::later_trans, cxx_cursor::proofs::Kept::later_refl), unfolding(crate::specs::Arguments::arguments_at))]
pub(crate) fn arguments_at<P: Phrases>(
    phrases: &P,
    state: &mut State,
    cursor: &mut Cursor<'_>,
) -> Result<TreeIdList, Stop>
    requires ready { P.is_ready phrases.now }
    ensures { IsRead trees_held AreTreesHeld state.old state.new cursor.new result (definition.arguments_at (P.asks phrases.now) (P.inner phrases.now) (meaning state.old) cursor.old) }
{
    if phrases.room() == 0 {
        return Err(Stop::Limit(LimitKind::Nesting));
    }
    cursor.advance();
    arguments_behind(phrases, state, cursor)
}
