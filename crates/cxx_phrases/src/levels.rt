//! Expressions by how loosely their operators bind (5.5 to 5.19).

ghost use Rattle.std.specs.Prelude.{◌≡◌, ◌<◌, ◌-◌};
ghost use Rattle.cxx_phrases.specs.Levels as definition;
ghost use Rattle.cxx_phrases.specs.Levels.{binary_at as binary};
ghost use Rattle.cxx_phrases.specs.Views.{IsTreeTurn, tree_turn};
ghost use Rattle.cxx_cursor.specs.Asking.{IsTreeKnown};
ghost use Rattle.cxx_cursor.specs.Reading.{IsRead};
ghost use Rattle.cxx_tree.specs.Held.{meaning, tree};

use crate::forms::{conditional_asked, operator_asked};
use crate::level::Level;
use crate::operands::operand_at;
use crate::operators::{OUTERMOST, is_assignment, is_of_level, operator_ahead, selects_member};
use crate::phrases::Phrases;
use crate::production;
use cxx_cursor::{Cursor, Turn, is_keyword, is_punct};
use cxx_model::{FaultText, LeftOut, Stop, TreeId, keyword, punct};
use cxx_tree::State;

// Pointers to members are left out (5.5).
#[tactic(auto, using(cxx_cursor::proofs::Kept::later_refl), unfolding(crate::specs::Levels::no_member))]
fn no_member(state: &State, cursor: &Cursor<'_>, number: TreeId) -> Result<TreeId, Stop>
    requires known { IsTreeKnown state.now number }
    ensures { IsRead tree IsTreeKnown state.now state.now cursor.now result (definition.no_member (tree state.now number) (meaning state.now) cursor.now) }
{
    let _ = state;
    if selects_member(cursor.kind()) {
        let text = FaultText::LeftOut(LeftOut::PointerToMember);
        return Err(Stop::Fault(cursor.faulty(text)?));
    }
    Ok(number)
}

// An operand of binary operators.
#[tactic(auto, using(cxx_cursor::proofs::Kept::later_trans, cxx_cursor::proofs::Kept::later_refl), unfolding(crate::specs::Levels::member_operand))]
fn member_operand<P: Phrases>(
    phrases: &P,
    state: &mut State,
    cursor: &mut Cursor<'_>,
) -> Result<TreeId, Stop>
    requires ready { P.is_ready phrases.now }
    ensures { IsRead tree IsTreeKnown state.old state.new cursor.new result (definition.member_operand (P.asks phrases.now) (P.inner phrases.now) (meaning state.old) cursor.old) }
{
    let number = operand_at(phrases, state, cursor)?;
    no_member(state, cursor, number)
}

// An operator, which is ahead, and its right operand.
#[cycle(binary)]
#[tactic(auto, using(cxx_cursor::proofs::Kept::later_trans, cxx_cursor::proofs::Kept::later_refl, crate::proofs::Kept::tree_kept, crate::proofs::Kept::tree_later), unfolding(crate::specs::Levels::operation))]
fn operation<P: Phrases>(
    phrases: &P,
    state: &mut State,
    cursor: &mut Cursor<'_>,
    level: u32,
    from: &Cursor<'_>,
    left: TreeId,
) -> Result<Turn<TreeId, TreeId>, Stop>
    requires ready { P.is_ready phrases.now }
    requires some { 0 < level }
    requires left { IsTreeKnown state.old left }
    ensures { IsRead tree_turn IsTreeTurn state.old state.new cursor.new result (definition.operation (P.asks phrases.now) (binary (P.asks phrases.now) (P.inner phrases.now) (level - 1)) from.now (tree state.old left) (meaning state.old) cursor.old) }
{
    let spelling = operator_ahead(cursor)?;
    let place = cursor.place();
    cursor.advance();
    let right = binary_at(phrases, state, cursor, level - 1)?;
    let number = operator_asked(
        phrases,
        state,
        production::BINARY,
        spelling,
        place,
        left,
        right,
        from,
        cursor,
    )?;
    Ok(Turn::More(number))
}

// An operator of a level and its right operand, where one stands ahead.
#[cycle(binary)]
#[tactic(auto, using(cxx_cursor::proofs::Kept::later_trans, cxx_cursor::proofs::Kept::later_refl), unfolding(crate::specs::Levels::operation_step))]
fn operation_step<P: Phrases>(
    phrases: &P,
    state: &mut State,
    cursor: &mut Cursor<'_>,
    level: u32,
    from: &Cursor<'_>,
    left: TreeId,
) -> Result<Turn<TreeId, TreeId>, Stop>
    requires ready { P.is_ready phrases.now }
    requires some { 0 < level }
    requires left { IsTreeKnown state.old left }
    ensures { IsRead tree_turn IsTreeTurn state.old state.new cursor.new result (definition.operation_step (P.asks phrases.now) (binary (P.asks phrases.now) (P.inner phrases.now) (level - 1)) level from.now (tree state.old left) (meaning state.old) cursor.old) }
{
    if !is_of_level(level, cursor.kind()) {
        return Ok(Turn::Done(left));
    }
    operation(phrases, state, cursor, level, from, left)
}

// Operators of a level, from the left, behind the first operand, which began at `from`.
#[cycle(binary)]
#[tactic(auto, using(cxx_cursor::proofs::Loops::turn, cxx_cursor::proofs::Loops::no_turn, cxx_cursor::proofs::Kept::later_trans, cxx_cursor::proofs::Kept::later_refl), unfolding(crate::specs::Levels::operations_at))]
fn operations_at<P: Phrases>(
    phrases: &P,
    state: &mut State,
    cursor: &mut Cursor<'_>,
    level: u32,
    from: &Cursor<'_>,
    first: TreeId,
) -> Result<TreeId, Stop>
    requires ready { P.is_ready phrases.now }
    requires some { 0 < level }
    requires first { IsTreeKnown state.old first }
    ensures { IsRead tree IsTreeKnown state.old state.new cursor.new result (definition.operations_at (P.asks phrases.now) (binary (P.asks phrases.now) (P.inner phrases.now) (level - 1)) level from.now (tree state.old first) (meaning state.old) cursor.old) }
{
    let mut so_far = first;
    for _turn in 0..cursor.count() {
        match operation_step(phrases, state, cursor, level, from, so_far)? {
            Turn::More(next) => so_far = next,
            Turn::Done(number) => return Ok(number),
        }
    }
    Ok(so_far)
}

// Operands of a level below, and operators between them.
#[cycle(binary)]
#[tactic(auto, using(cxx_cursor::proofs::Kept::later_trans, cxx_cursor::proofs::Kept::later_refl), unfolding(crate::specs::Levels::operations_part))]
fn operations_part<P: Phrases>(
    phrases: &P,
    state: &mut State,
    cursor: &mut Cursor<'_>,
    level: u32,
) -> Result<TreeId, Stop>
    requires ready { P.is_ready phrases.now }
    requires some { 0 < level }
    ensures { IsRead tree IsTreeKnown state.old state.new cursor.new result (definition.operations_part (P.asks phrases.now) (binary (P.asks phrases.now) (P.inner phrases.now) (level - 1)) level (meaning state.old) cursor.old) }
{
    let from = cursor.mark();
    let first = binary_at(phrases, state, cursor, level - 1)?;
    operations_at(phrases, state, cursor, level, &from, first)
}

// An expression of operators up to a level (5.6 to 5.15).
#[cycle(binary)]
#[tactic(auto, using(crate::proofs::Binary::binary_zero, crate::proofs::Binary::binary_more))]
fn binary_at<P: Phrases>(
    phrases: &P,
    state: &mut State,
    cursor: &mut Cursor<'_>,
    level: u32,
) -> Result<TreeId, Stop>
    requires ready { P.is_ready phrases.now }
    ensures { IsRead tree IsTreeKnown state.old state.new cursor.new result (definition.binary_at (P.asks phrases.now) (P.inner phrases.now) level (meaning state.old) cursor.old) }
{
    if level == 0 {
        return member_operand(phrases, state, cursor);
    }
    operations_part(phrases, state, cursor, level)
}

// The conditional operator, from its `?` on (5.16).
#[tactic(auto, using(cxx_cursor::proofs::Kept::later_trans, cxx_cursor::proofs::Kept::later_refl, crate::proofs::Kept::tree_kept, crate::proofs::Kept::tree_later), unfolding(crate::specs::Levels::conditional_part))]
fn conditional_part<P: Phrases>(
    phrases: &P,
    state: &mut State,
    cursor: &mut Cursor<'_>,
    from: &Cursor<'_>,
    condition: TreeId,
) -> Result<TreeId, Stop>
    requires ready { P.is_ready phrases.now }
    requires condition { IsTreeKnown state.old condition }
    ensures { IsRead tree IsTreeKnown state.old state.new cursor.new result (definition.conditional_part (P.asks phrases.now) (P.inner phrases.now) from.now (tree state.old condition) (meaning state.old) cursor.old) }
{
    let place = cursor.place();
    cursor.advance();
    let one = phrases.inner_expression(state, cursor, Level::Whole)?;
    cursor.punct(punct::COLON)?;
    let other = phrases.inner_expression(state, cursor, Level::Assignment)?;
    conditional_asked(phrases, state, place, condition, one, other, from, cursor)
}

// What goes on with a condition.
#[tactic(auto, using(cxx_cursor::proofs::Kept::later_trans, cxx_cursor::proofs::Kept::later_refl), unfolding(crate::specs::Levels::conditional_by))]
fn conditional_by<P: Phrases>(
    phrases: &P,
    state: &mut State,
    cursor: &mut Cursor<'_>,
    from: &Cursor<'_>,
    condition: TreeId,
) -> Result<TreeId, Stop>
    requires ready { P.is_ready phrases.now }
    requires condition { IsTreeKnown state.old condition }
    ensures { IsRead tree IsTreeKnown state.old state.new cursor.new result (definition.conditional_by (P.asks phrases.now) (P.inner phrases.now) from.now (tree state.old condition) (meaning state.old) cursor.old) }
{
    if !is_punct(punct::QUESTION, cursor.kind()) {
        return Ok(condition);
    }
    conditional_part(phrases, state, cursor, from, condition)
}

/// A conditional expression (5.16).
#[tactic(auto, using(cxx_cursor::proofs::Kept::later_trans, cxx_cursor::proofs::Kept::later_refl), unfolding(crate::specs::Levels::conditional_at))]
pub(crate) fn conditional_at<P: Phrases>(
    phrases: &P,
    state: &mut State,
    cursor: &mut Cursor<'_>,
) -> Result<TreeId, Stop>
    requires ready { P.is_ready phrases.now }
    ensures { IsRead tree IsTreeKnown state.old state.new cursor.new result (definition.conditional_at (P.asks phrases.now) (P.inner phrases.now) (meaning state.old) cursor.old) }
{
    let from = cursor.mark();
    let condition = binary_at(phrases, state, cursor, OUTERMOST)?;
    conditional_by(phrases, state, cursor, &from, condition)
}

// An assignment, from its operator on (5.17).
#[tactic(auto, using(cxx_cursor::proofs::Kept::later_trans, cxx_cursor::proofs::Kept::later_refl, crate::proofs::Kept::tree_kept, crate::proofs::Kept::tree_later), unfolding(crate::specs::Levels::assignment_part))]
fn assignment_part<P: Phrases>(
    phrases: &P,
    state: &mut State,
    cursor: &mut Cursor<'_>,
    from: &Cursor<'_>,
    left: TreeId,
) -> Result<TreeId, Stop>
    requires ready { P.is_ready phrases.now }
    requires left { IsTreeKnown state.old left }
    ensures { IsRead tree IsTreeKnown state.old state.new cursor.new result (definition.assignment_part (P.asks phrases.now) (P.inner phrases.now) from.now (tree state.old left) (meaning state.old) cursor.old) }
{
    let spelling = operator_ahead(cursor)?;
    let place = cursor.place();
    cursor.advance();
    let right = phrases.inner_expression(state, cursor, Level::Assignment)?;
    operator_asked(
        phrases,
        state,
        production::ASSIGNMENT,
        spelling,
        place,
        left,
        right,
        from,
        cursor,
    )
}

// What goes on with the left side of an assignment.
#[tactic(auto, using(cxx_cursor::proofs::Kept::later_trans, cxx_cursor::proofs::Kept::later_refl), unfolding(crate::specs::Levels::assignment_by))]
fn assignment_by<P: Phrases>(
    phrases: &P,
    state: &mut State,
    cursor: &mut Cursor<'_>,
    from: &Cursor<'_>,
    left: TreeId,
) -> Result<TreeId, Stop>
    requires ready { P.is_ready phrases.now }
    requires left { IsTreeKnown state.old left }
    ensures { IsRead tree IsTreeKnown state.old state.new cursor.new result (definition.assignment_by (P.asks phrases.now) (P.inner phrases.now) from.now (tree state.old left) (meaning state.old) cursor.old) }
{
    if is_assignment(cursor.kind()) {
        return assignment_part(phrases, state, cursor, from, left);
    }
    conditional_by(phrases, state, cursor, from, left)
}

// An assignment, where no exception is thrown.
#[tactic(auto, using(cxx_cursor::proofs::Kept::later_trans, cxx_cursor::proofs::Kept::later_refl), unfolding(crate::specs::Levels::assignment_behind))]
fn assignment_behind<P: Phrases>(
    phrases: &P,
    state: &mut State,
    cursor: &mut Cursor<'_>,
) -> Result<TreeId, Stop>
    requires ready { P.is_ready phrases.now }
    ensures { IsRead tree IsTreeKnown state.old state.new cursor.new result (definition.assignment_behind (P.asks phrases.now) (P.inner phrases.now) (meaning state.old) cursor.old) }
{
    let from = cursor.mark();
    let left = binary_at(phrases, state, cursor, OUTERMOST)?;
    assignment_by(phrases, state, cursor, &from, left)
}

/// An assignment-expression (5.17); `throw` is left out (15.1).
#[tactic(auto, using(cxx_cursor::proofs::Kept::later_trans, cxx_cursor::proofs::Kept::later_refl), unfolding(crate::specs::Levels::assignment_at))]
pub(crate) fn assignment_at<P: Phrases>(
    phrases: &P,
    state: &mut State,
    cursor: &mut Cursor<'_>,
) -> Result<TreeId, Stop>
    requires ready { P.is_ready phrases.now }
    ensures { IsRead tree IsTreeKnown state.old state.new cursor.new result (definition.assignment_at (P.asks phrases.now) (P.inner phrases.now) (meaning state.old) cursor.old) }
{
    if is_keyword(keyword::THROW, cursor.kind()) {
        let text = FaultText::LeftOut(LeftOut::Exception);
        return Err(Stop::Fault(cursor.faulty(text)?));
    }
    assignment_behind(phrases, state, cursor)
}

// A comma and its right operand (5.18).
#[tactic(auto, using(cxx_cursor::proofs::Kept::later_trans, cxx_cursor::proofs::Kept::later_refl, crate::proofs::Kept::tree_kept, crate::proofs::Kept::tree_later), unfolding(crate::specs::Levels::comma_part))]
fn comma_part<P: Phrases>(
    phrases: &P,
    state: &mut State,
    cursor: &mut Cursor<'_>,
    from: &Cursor<'_>,
    left: TreeId,
) -> Result<Turn<TreeId, TreeId>, Stop>
    requires ready { P.is_ready phrases.now }
    requires left { IsTreeKnown state.old left }
    ensures { IsRead tree_turn IsTreeTurn state.old state.new cursor.new result (definition.comma_part (P.asks phrases.now) (P.inner phrases.now) from.now (tree state.old left) (meaning state.old) cursor.old) }
{
    let spelling = operator_ahead(cursor)?;
    let place = cursor.place();
    cursor.advance();
    let right = assignment_at(phrases, state, cursor)?;
    let number = operator_asked(
        phrases,
        state,
        production::ASSIGNMENT,
        spelling,
        place,
        left,
        right,
        from,
        cursor,
    )?;
    Ok(Turn::More(number))
}

// A comma and its right operand, where one stands ahead.
#[tactic(auto, using(cxx_cursor::proofs::Kept::later_trans, cxx_cursor::proofs::Kept::later_refl), unfolding(crate::specs::Levels::comma_step))]
fn comma_step<P: Phrases>(
    phrases: &P,
    state: &mut State,
    cursor: &mut Cursor<'_>,
    from: &Cursor<'_>,
    left: TreeId,
) -> Result<Turn<TreeId, TreeId>, Stop>
    requires ready { P.is_ready phrases.now }
    requires left { IsTreeKnown state.old left }
    ensures { IsRead tree_turn IsTreeTurn state.old state.new cursor.new result (definition.comma_step (P.asks phrases.now) (P.inner phrases.now) from.now (tree state.old left) (meaning state.old) cursor.old) }
{
    if !is_punct(punct::COMMA, cursor.kind()) {
        return Ok(Turn::Done(left));
    }
    comma_part(phrases, state, cursor, from, left)
}

// Commas behind the first operand, which began at `from`.
#[tactic(auto, using(cxx_cursor::proofs::Loops::turn, cxx_cursor::proofs::Loops::no_turn, cxx_cursor::proofs::Kept::later_trans, cxx_cursor::proofs::Kept::later_refl), unfolding(crate::specs::Levels::commas_at))]
fn commas_at<P: Phrases>(
    phrases: &P,
    state: &mut State,
    cursor: &mut Cursor<'_>,
    from: &Cursor<'_>,
    first: TreeId,
) -> Result<TreeId, Stop>
    requires ready { P.is_ready phrases.now }
    requires first { IsTreeKnown state.old first }
    ensures { IsRead tree IsTreeKnown state.old state.new cursor.new result (definition.commas_at (P.asks phrases.now) (P.inner phrases.now) from.now (tree state.old first) (meaning state.old) cursor.old) }
{
    let mut so_far = first;
    for _turn in 0..cursor.count() {
        match comma_step(phrases, state, cursor, from, so_far)? {
            Turn::More(next) => so_far = next,
            Turn::Done(number) => return Ok(number),
        }
    }
    Ok(so_far)
}

/// A whole expression (5.18).
#[tactic(auto, using(cxx_cursor::proofs::Kept::later_trans, cxx_cursor::proofs::Kept::later_refl), unfolding(crate::specs::Levels::whole_at))]
pub(crate) fn whole_at<P: Phrases>(
    phrases: &P,
    state: &mut State,
    cursor: &mut Cursor<'_>,
) -> Result<TreeId, Stop>
    requires ready { P.is_ready phrases.now }
    ensures { IsRead tree IsTreeKnown state.old state.new cursor.new result (definition.whole_at (P.asks phrases.now) (P.inner phrases.now) (meaning state.old) cursor.old) }
{
    let from = cursor.mark();
    let first = assignment_at(phrases, state, cursor)?;
    commas_at(phrases, state, cursor, &from, first)
}
