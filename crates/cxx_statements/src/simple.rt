//! Statements in which no other stands (6.2, 6.6, 6.7).

ghost use Rattle.cxx_statements.specs.Statements as definition;
ghost use Rattle.cxx_statements.specs.Views.{IsAround, IsStated, around_of, stated_of};
ghost use Rattle.cxx_cursor.specs.Asking.{IsTreeKnown};
ghost use Rattle.cxx_cursor.specs.Reading.{IsRead};
ghost use Rattle.cxx_cursor.specs.Views.{AreTreesHeld, trees_held};
ghost use Rattle.cxx_tree.specs.Held.{meaning, tree};

use crate::around::{Around, Stated};
use crate::making::{one_tree, statement_tree, word_tree};
use crate::parts::{Head, Parts, Purpose, Target};
use crate::production;
use cxx_cursor::{Cursor, is_keyword, is_punct};
use cxx_model::{FaultText, Listed, Stop, TreeId, TreeIdList, keyword, punct};
use cxx_tree::State;

/// An expression with its `;` (6.2).
#[tactic(auto, using(cxx_cursor::proofs::Kept::later_trans, cxx_cursor::proofs::Kept::later_refl), unfolding(crate::specs::Statements::expression_statement))]
fn expression_statement<P: Parts>(
    parts: &P,
    state: &mut State,
    cursor: &mut Cursor<'_>,
    room: u32,
) -> Result<TreeId, Stop>
    requires ready { P.is_ready parts.now }
    ensures { IsRead tree IsTreeKnown state.old state.new cursor.new result (definition.expression_statement (P.asks parts.now room) (meaning state.old) cursor.old) }
{
    let from = cursor.mark();
    let number = parts.expression(state, cursor, Purpose::Whole, room)?;
    cursor.punct(punct::SEMICOLON)?;
    let all = one_tree(cursor.alloc(), number)?;
    statement_tree(state, production::EXPRESSION_STATEMENT, all, &from, cursor)
}

/// A declaration, which has its end (6.7).
#[tactic(auto, using(cxx_cursor::proofs::Kept::later_trans, cxx_cursor::proofs::Kept::later_refl), unfolding(crate::specs::Statements::declaration_statement))]
fn declaration_statement<P: Parts>(
    parts: &P,
    state: &mut State,
    cursor: &mut Cursor<'_>,
    room: u32,
) -> Result<TreeId, Stop>
    requires ready { P.is_ready parts.now }
    ensures { IsRead tree IsTreeKnown state.old state.new cursor.new result (definition.declaration_statement (P.asks parts.now room) (meaning state.old) cursor.old) }
{
    let from = cursor.mark();
    let number = parts.declaration(state, cursor, room)?;
    let all = one_tree(cursor.alloc(), number)?;
    statement_tree(state, production::DECLARATION_STATEMENT, all, &from, cursor)
}

/// One of both (6.8).
#[tactic(auto, using(cxx_cursor::proofs::Kept::later_trans, cxx_cursor::proofs::Kept::later_refl), unfolding(crate::specs::Statements::plain_statement))]
pub(crate) fn plain_statement<P: Parts>(
    parts: &P,
    state: &mut State,
    cursor: &mut Cursor<'_>,
    room: u32,
) -> Result<TreeId, Stop>
    requires ready { P.is_ready parts.now }
    ensures { IsRead tree IsTreeKnown state.old state.new cursor.new result (definition.plain_statement (P.asks parts.now room) (meaning state.old) cursor.old) }
{
    match parts.head(state, cursor, room)? {
        Head::Declaration => declaration_statement(parts, state, cursor, room),
        Head::Expression => expression_statement(parts, state, cursor, room),
    }
}

// `;` alone (6.2).
#[tactic(auto, using(cxx_cursor::proofs::Kept::later_trans, cxx_cursor::proofs::Kept::later_refl), unfolding(crate::specs::Statements::empty_statement))]
fn empty_statement(state: &mut State, cursor: &mut Cursor<'_>) -> Result<TreeId, Stop>
    ensures { IsRead tree IsTreeKnown state.old state.new cursor.new result (definition.empty_statement (meaning state.old) cursor.old) }
{
    let from = cursor.mark();
    cursor.advance();
    let none = Listed::new(cursor.alloc());
    statement_tree(state, production::EXPRESSION_STATEMENT, none, &from, cursor)
}

// A jump with its `;` (6.6.1, 6.6.2).
#[tactic(auto, using(cxx_cursor::proofs::Kept::later_trans, cxx_cursor::proofs::Kept::later_refl, crate::proofs::Kept::around_kept, crate::proofs::Kept::around_later), unfolding(crate::specs::Statements::jump_taken))]
fn jump_taken(
    state: &mut State,
    cursor: &mut Cursor<'_>,
    word: &[u8],
    around: Around,
) -> Result<Stated, Stop>
    requires { IsAround state.old around }
    ensures { IsRead stated_of IsStated state.old state.new cursor.new result (definition.jump_taken word.now (around_of state.old around) (meaning state.old) cursor.old) }
{
    let from = cursor.mark();
    cursor.advance();
    cursor.punct(punct::SEMICOLON)?;
    let none = Listed::new(cursor.alloc());
    let tree = word_tree(state, production::JUMP, word, none, &from, cursor)?;
    Ok(Stated { tree, around })
}

// One where there is something to end or to go on with (6.6.1, 6.6.2).
#[tactic(auto, using(cxx_cursor::proofs::Kept::later_trans, cxx_cursor::proofs::Kept::later_refl), unfolding(crate::specs::Statements::jump_in))]
fn jump_in(
    state: &mut State,
    cursor: &mut Cursor<'_>,
    word: &[u8],
    is_there: bool,
    around: Around,
) -> Result<Stated, Stop>
    requires { IsAround state.old around }
    ensures { IsRead stated_of IsStated state.old state.new cursor.new result (definition.jump_in word.now is_there (around_of state.old around) (meaning state.old) cursor.old) }
{
    if !is_there {
        return Err(Stop::Fault(cursor.faulty(FaultText::OperandsDoNotFit)?));
    }
    jump_taken(state, cursor, word, around)
}

// What a function answers, with the `;` (6.6.3).
#[tactic(auto, using(cxx_cursor::proofs::Kept::later_trans, cxx_cursor::proofs::Kept::later_refl), unfolding(crate::specs::Statements::some_answer))]
fn some_answer<P: Parts>(
    parts: &P,
    state: &mut State,
    cursor: &mut Cursor<'_>,
    room: u32,
) -> Result<TreeIdList, Stop>
    requires ready { P.is_ready parts.now }
    ensures { IsRead trees_held AreTreesHeld state.old state.new cursor.new result (definition.some_answer (P.asks parts.now room) (meaning state.old) cursor.old) }
{
    let number = parts.expression(state, cursor, Purpose::Whole, room)?;
    let value = parts.converted(state, Target::Result, number, room)?;
    cursor.punct(punct::SEMICOLON)?;
    Ok(one_tree(cursor.alloc(), value)?)
}

#[tactic(auto, using(cxx_cursor::proofs::Kept::later_trans, cxx_cursor::proofs::Kept::later_refl), unfolding(crate::specs::Statements::answer))]
fn answer<P: Parts>(
    parts: &P,
    state: &mut State,
    cursor: &mut Cursor<'_>,
    room: u32,
) -> Result<TreeIdList, Stop>
    requires ready { P.is_ready parts.now }
    ensures { IsRead trees_held AreTreesHeld state.old state.new cursor.new result (definition.answer (P.asks parts.now room) (meaning state.old) cursor.old) }
{
    if is_punct(punct::SEMICOLON, cursor.kind()) {
        cursor.advance();
        return Ok(Listed::new(cursor.alloc()));
    }
    some_answer(parts, state, cursor, room)
}

// 6.6.3
#[tactic(auto, using(cxx_cursor::proofs::Kept::later_trans, cxx_cursor::proofs::Kept::later_refl, crate::proofs::Kept::around_kept, crate::proofs::Kept::around_later), unfolding(crate::specs::Statements::return_in))]
fn return_in<P: Parts>(
    parts: &P,
    state: &mut State,
    cursor: &mut Cursor<'_>,
    around: Around,
    room: u32,
) -> Result<Stated, Stop>
    requires ready { P.is_ready parts.now }
    requires around { IsAround state.old around }
    ensures { IsRead stated_of IsStated state.old state.new cursor.new result (definition.return_in (P.asks parts.now room) (around_of state.old around) (meaning state.old) cursor.old) }
{
    let from = cursor.mark();
    cursor.advance();
    let value = answer(parts, state, cursor, room)?;
    let tree = statement_tree(state, production::RETURN, value, &from, cursor)?;
    Ok(Stated { tree, around })
}

// An expression or a declaration, with what stands around it.
#[tactic(auto, using(cxx_cursor::proofs::Kept::later_trans, cxx_cursor::proofs::Kept::later_refl, crate::proofs::Kept::around_kept, crate::proofs::Kept::around_later), unfolding(crate::specs::Statements::plain_in))]
fn plain_in<P: Parts>(
    parts: &P,
    state: &mut State,
    cursor: &mut Cursor<'_>,
    around: Around,
    room: u32,
) -> Result<Stated, Stop>
    requires ready { P.is_ready parts.now }
    requires around { IsAround state.old around }
    ensures { IsRead stated_of IsStated state.old state.new cursor.new result (definition.plain_in (P.asks parts.now room) (around_of state.old around) (meaning state.old) cursor.old) }
{
    let tree = plain_statement(parts, state, cursor, room)?;
    Ok(Stated { tree, around })
}

/// `;` alone, with what stands around it.
#[tactic(auto, using(cxx_cursor::proofs::Kept::later_trans, cxx_cursor::proofs::Kept::later_refl, crate::proofs::Kept::around_kept, crate::proofs::Kept::around_later), unfolding(crate::specs::Statements::empty_in))]
pub(crate) fn empty_in(
    state: &mut State,
    cursor: &mut Cursor<'_>,
    around: Around,
) -> Result<Stated, Stop>
    requires { IsAround state.old around }
    ensures { IsRead stated_of IsStated state.old state.new cursor.new result (definition.empty_in (around_of state.old around) (meaning state.old) cursor.old) }
{
    let tree = empty_statement(state, cursor)?;
    Ok(Stated { tree, around })
}

/// A statement without labels in which no other stands.
#[tactic(auto, using(cxx_cursor::proofs::Kept::later_trans, cxx_cursor::proofs::Kept::later_refl), unfolding(crate::specs::Statements::flat_in))]
pub(crate) fn flat_in<P: Parts>(
    parts: &P,
    state: &mut State,
    cursor: &mut Cursor<'_>,
    around: Around,
    room: u32,
) -> Result<Stated, Stop>
    requires ready { P.is_ready parts.now }
    requires around { IsAround state.old around }
    ensures { IsRead stated_of IsStated state.old state.new cursor.new result (definition.flat_in (P.asks parts.now room) (around_of state.old around) (meaning state.old) cursor.old) }
{
    if is_keyword(keyword::BREAK, cursor.kind()) {
        let is_there = around.breaks;
        return jump_in(state, cursor, b"break", is_there, around);
    }
    if is_keyword(keyword::CONTINUE, cursor.kind()) {
        let is_there = around.in_loop;
        return jump_in(state, cursor, b"continue", is_there, around);
    }
    if is_keyword(keyword::RETURN, cursor.kind()) {
        return return_in(parts, state, cursor, around, room);
    }
    plain_in(parts, state, cursor, around, room)
}
