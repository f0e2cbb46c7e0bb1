//! How initializers are read (8.5), and expressions of each level.

ghost use Rattle.std.specs.Prelude.{◌≡◌, ◌++◌, [], ◌∷◌};
ghost use Rattle.cxx_phrases.specs.Initializers as definition;
ghost use Rattle.cxx_phrases.specs.Operands as operands;
ghost use Rattle.cxx_phrases.specs.Views.{IsInitializer, IsSized, initializer_of, sized_of};
ghost use Rattle.cxx_cursor.specs.Asking.{IsTreeKnown};
ghost use Rattle.cxx_cursor.specs.Reading.{IsRead};
ghost use Rattle.cxx_cursor.specs.Views.{AreTreesHeld, IsTreesTurn, trees_held, trees_turn};
ghost use Rattle.cxx_tree.specs.Held.{meaning, tree};

use crate::arguments::some_arguments;
use crate::forms::braces_tree;
use crate::initializer::Initializer;
use crate::level::Level;
use crate::levels::{assignment_at, conditional_at, whole_at};
use crate::lists::{one_tree, with_tree};
use crate::operands::{operand_at, sized_at};
use crate::phrases::Phrases;
use cxx_cursor::{Cursor, Turn, is_punct};
use cxx_model::{Form, LimitKind, Listed, Stop, TreeId, TreeIdList, TypeId, punct};
use cxx_tree::State;

// Behind a comma the end may stand.
#[tactic(auto, using(cxx_cursor::proofs::Kept::later_refl), unfolding(crate::specs::Initializers::clause_comma))]
fn clause_comma(
    state: &State,
    cursor: &mut Cursor<'_>,
    so_far: TreeIdList,
) -> Result<Turn<TreeIdList, TreeIdList>, Stop>
    requires so_far { AreTreesHeld state.now so_far }
    ensures { IsRead trees_turn IsTreesTurn state.now state.now cursor.new result (definition.clause_comma (trees_held state.now so_far) (meaning state.now) cursor.old) }
{
    let _ = state;
    if is_punct(punct::RIGHT_BRACE, cursor.kind()) {
        cursor.advance();
        return Ok(Turn::Done(so_far));
    }
    Ok(Turn::More(so_far))
}

// Behind a part.
#[tactic(auto, using(cxx_cursor::proofs::Kept::later_refl, cxx_cursor::proofs::Kept::trees_append, cxx_cursor::proofs::Kept::trees_below_append), unfolding(crate::specs::Initializers::clause_ended))]
fn clause_ended(
    state: &State,
    cursor: &mut Cursor<'_>,
    so_far: TreeIdList,
    number: TreeId,
) -> Result<Turn<TreeIdList, TreeIdList>, Stop>
    requires so_far { AreTreesHeld state.now so_far }
    requires number { IsTreeKnown state.now number }
    ensures { IsRead trees_turn IsTreesTurn state.now state.now cursor.new result (definition.clause_ended (trees_held state.now so_far) (tree state.now number) (meaning state.now) cursor.old) }
{
    let all = with_tree(so_far, number)?;
    if is_punct(punct::COMMA, cursor.kind()) {
        cursor.advance();
        return clause_comma(state, cursor, all);
    }
    if is_punct(punct::RIGHT_BRACE, cursor.kind()) {
        cursor.advance();
        return Ok(Turn::Done(all));
    }
    Err(Stop::Fault(cursor.refused()?))
}

// A part of braces, and what separates it from the next.
#[tactic(auto, using(cxx_cursor::proofs::Kept::later_trans, cxx_cursor::proofs::Kept::later_refl, cxx_cursor::proofs::Kept::trees_kept, cxx_cursor::proofs::Kept::trees_later), unfolding(crate::specs::Initializers::clause_step))]
fn clause_step<P: Phrases>(
    phrases: &P,
    state: &mut State,
    cursor: &mut Cursor<'_>,
    so_far: TreeIdList,
) -> Result<Turn<TreeIdList, TreeIdList>, Stop>
    requires ready { P.is_ready phrases.now }
    requires so_far { AreTreesHeld state.old so_far }
    ensures { IsRead trees_turn IsTreesTurn state.old state.new cursor.new result (definition.clause_step (P.inner phrases.now) (trees_held state.old so_far) (meaning state.old) cursor.old) }
{
    let number = phrases.inner_expression(state, cursor, Level::Clause)?;
    clause_ended(state, cursor, so_far, number)
}

// At least one part, with the end of the braces.
#[tactic(auto, using(cxx_cursor::proofs::Loops::turn, cxx_cursor::proofs::Loops::no_turn, cxx_cursor::proofs::Kept::later_trans, cxx_cursor::proofs::Kept::later_refl), unfolding(crate::specs::Initializers::some_clauses))]
fn some_clauses<P: Phrases>(
    phrases: &P,
    state: &mut State,
    cursor: &mut Cursor<'_>,
) -> Result<TreeIdList, Stop>
    requires ready { P.is_ready phrases.now }
    ensures { IsRead trees_held AreTreesHeld state.old state.new cursor.new result (definition.some_clauses (P.inner phrases.now) (meaning state.old) cursor.old) }
{
    let mut so_far = Listed::new(cursor.alloc());
    for _turn in 0..cursor.count() {
        match clause_step(phrases, state, cursor, so_far)? {
            Turn::More(next) => so_far = next,
            Turn::Done(all) => return Ok(all),
        }
    }
    Ok(so_far)
}

// The parts of braces behind their beginning.
#[tactic(auto, using(cxx_cursor::proofs::Kept::later_trans, cxx_cursor::proofs::Kept::later_refl), unfolding(crate::specs::Initializers::clauses_behind))]
fn clauses_behind<P: Phrases>(
    phrases: &P,
    state: &mut State,
    cursor: &mut Cursor<'_>,
) -> Result<TreeIdList, Stop>
    requires ready { P.is_ready phrases.now }
    ensures { IsRead trees_held AreTreesHeld state.old state.new cursor.new result (definition.clauses_behind (P.inner phrases.now) (meaning state.old) cursor.old) }
{
    if is_punct(punct::RIGHT_BRACE, cursor.kind()) {
        cursor.advance();
        return Ok(Listed::new(cursor.alloc()));
    }
    some_clauses(phrases, state, cursor)
}

// The parts of the braces that stand ahead, with their end (8.5.1).
#[tactic(auto, using(cxx_cursor::proofs::Kept::later_trans, cxx_cursor::proofs::Kept::later_refl), unfolding(crate::specs::Initializers::clauses_at))]
fn clauses_at<P: Phrases>(
    phrases: &P,
    state: &mut State,
    cursor: &mut Cursor<'_>,
) -> Result<TreeIdList, Stop>
    requires ready { P.is_ready phrases.now }
    ensures { IsRead trees_held AreTreesHeld state.old state.new cursor.new result (definition.clauses_at (P.asks phrases.now) (P.inner phrases.now) (meaning state.old) cursor.old) }
{
    if phrases.room() == 0 {
        return Err(Stop::Limit(LimitKind::Nesting));
    }
    cursor.advance();
    clauses_behind(phrases, state, cursor)
}

// Braces inside of braces.
#[tactic(auto, using(cxx_cursor::proofs::Kept::later_trans, cxx_cursor::proofs::Kept::later_refl), unfolding(crate::specs::Initializers::braces_at))]
fn braces_at<P: Phrases>(
    phrases: &P,
    state: &mut State,
    cursor: &mut Cursor<'_>,
) -> Result<TreeId, Stop>
    requires ready { P.is_ready phrases.now }
    ensures { IsRead tree IsTreeKnown state.old state.new cursor.new result (definition.braces_at (P.asks phrases.now) (P.inner phrases.now) (meaning state.old) cursor.old) }
{
    let from = cursor.mark();
    let parts = clauses_at(phrases, state, cursor)?;
    braces_tree(state, parts, &from, cursor)
}

// A part of braces.
#[tactic(auto, using(cxx_cursor::proofs::Kept::later_trans, cxx_cursor::proofs::Kept::later_refl), unfolding(crate::specs::Initializers::clause_at))]
fn clause_at<P: Phrases>(
    phrases: &P,
    state: &mut State,
    cursor: &mut Cursor<'_>,
) -> Result<TreeId, Stop>
    requires ready { P.is_ready phrases.now }
    ensures { IsRead tree IsTreeKnown state.old state.new cursor.new result (definition.clause_at (P.asks phrases.now) (P.inner phrases.now) (meaning state.old) cursor.old) }
{
    if is_punct(punct::LEFT_BRACE, cursor.kind()) {
        return braces_at(phrases, state, cursor);
    }
    assignment_at(phrases, state, cursor)
}

// Behind `=` without braces.
#[tactic(auto, using(cxx_cursor::proofs::Kept::later_trans, cxx_cursor::proofs::Kept::later_refl), unfolding(crate::specs::Initializers::copy_at))]
fn copy_at<P: Phrases>(
    phrases: &P,
    state: &mut State,
    cursor: &mut Cursor<'_>,
) -> Result<Initializer, Stop>
    requires ready { P.is_ready phrases.now }
    ensures { IsRead initializer_of IsInitializer state.old state.new cursor.new result (definition.copy_at (P.asks phrases.now) (P.inner phrases.now) (meaning state.old) cursor.old) }
{
    let number = assignment_at(phrases, state, cursor)?;
    let parts = one_tree(cursor.alloc(), number)?;
    Ok(Initializer {
        form: Form::Copy,
        parts,
    })
}

// Behind `=` with braces (8.5.1).
#[tactic(auto, using(cxx_cursor::proofs::Kept::later_trans, cxx_cursor::proofs::Kept::later_refl), unfolding(crate::specs::Initializers::aggregate_at))]
fn aggregate_at<P: Phrases>(
    phrases: &P,
    state: &mut State,
    cursor: &mut Cursor<'_>,
) -> Result<Initializer, Stop>
    requires ready { P.is_ready phrases.now }
    ensures { IsRead initializer_of IsInitializer state.old state.new cursor.new result (definition.aggregate_at (P.asks phrases.now) (P.inner phrases.now) (meaning state.old) cursor.old) }
{
    let parts = clauses_at(phrases, state, cursor)?;
    Ok(Initializer {
        form: Form::Aggregate,
        parts,
    })
}

// Behind `=`.
#[tactic(auto, using(cxx_cursor::proofs::Kept::later_trans, cxx_cursor::proofs::Kept::later_refl), unfolding(crate::specs::Initializers::equals_at))]
fn equals_at<P: Phrases>(
    phrases: &P,
    state: &mut State,
    cursor: &mut Cursor<'_>,
) -> Result<Initializer, Stop>
    requires ready { P.is_ready phrases.now }
    ensures { IsRead initializer_of IsInitializer state.old state.new cursor.new result (definition.equals_at (P.asks phrases.now) (P.inner phrases.now) (meaning state.old) cursor.old) }
{
    if is_punct(punct::LEFT_BRACE, cursor.kind()) {
        return aggregate_at(phrases, state, cursor);
    }
    copy_at(phrases, state, cursor)
}

// Behind `(` at least one expression stands.
#[tactic(auto, using(cxx_cursor::proofs::Kept::later_trans, cxx_cursor::proofs::Kept::later_refl), unfolding(crate::specs::Initializers::list_behind))]
fn list_behind<P: Phrases>(
    phrases: &P,
    state: &mut State,
    cursor: &mut Cursor<'_>,
) -> Result<Initializer, Stop>
    requires ready { P.is_ready phrases.now }
    ensures { IsRead initializer_of IsInitializer state.old state.new cursor.new result (definition.list_behind (P.inner phrases.now) (meaning state.old) cursor.old) }
{
    let parts = some_arguments(phrases, state, cursor)?;
    Ok(Initializer {
        form: Form::Direct,
        parts,
    })
}

// From `(` on.
#[tactic(auto, using(cxx_cursor::proofs::Kept::later_trans, cxx_cursor::proofs::Kept::later_refl), unfolding(crate::specs::Initializers::direct_at))]
fn direct_at<P: Phrases>(
    phrases: &P,
    state: &mut State,
    cursor: &mut Cursor<'_>,
) -> Result<Initializer, Stop>
    requires ready { P.is_ready phrases.now }
    ensures { IsRead initializer_of IsInitializer state.old state.new cursor.new result (definition.direct_at (P.asks phrases.now) (P.inner phrases.now) (meaning state.old) cursor.old) }
{
    if phrases.room() == 0 {
        return Err(Stop::Limit(LimitKind::Nesting));
    }
    cursor.advance();
    list_behind(phrases, state, cursor)
}

/// An initializer, from its `=` or `(` on (8.5). A limit is that of nesting or that of arguments.
#[tactic(auto, using(cxx_cursor::proofs::Kept::later_trans, cxx_cursor::proofs::Kept::later_refl), unfolding(crate::specs::Initializers::initializer_at))]
pub fn read_initializer<P: Phrases>(
    phrases: &P,
    state: &mut State,
    cursor: &mut Cursor<'_>,
) -> Result<Initializer, Stop>
    requires ready { P.is_ready phrases.now }
    ensures { IsRead initializer_of IsInitializer state.old state.new cursor.new result (definition.initializer_at (P.asks phrases.now) (P.inner phrases.now) (meaning state.old) cursor.old) }
{
    if is_punct(punct::EQUALS, cursor.kind()) {
        cursor.advance();
        return equals_at(phrases, state, cursor);
    }
    if is_punct(punct::LEFT_PARENTHESIS, cursor.kind()) {
        return direct_at(phrases, state, cursor);
    }
    Err(Stop::Fault(cursor.refused()?))
}

/// An expression of a level, with room for so many brackets and operators as the user says (5, 8.5.1). A limit is that of
/// nesting or that of arguments, or one of the user's.
#[tactic(auto, using(cxx_cursor::proofs::Kept::later_trans, cxx_cursor::proofs::Kept::later_refl))]
pub fn read_expression<P: Phrases>(
    phrases: &P,
    state: &mut State,
    cursor: &mut Cursor<'_>,
    level: Level,
) -> Result<TreeId, Stop>
    requires ready { P.is_ready phrases.now }
    ensures { IsRead tree IsTreeKnown state.old state.new cursor.new result (definition.expression_at (P.asks phrases.now) (P.inner phrases.now) level (meaning state.old) cursor.old) }
{
    match level {
        Level::Whole => whole_at(phrases, state, cursor),
        Level::Assignment => assignment_at(phrases, state, cursor),
        Level::Constant => conditional_at(phrases, state, cursor),
        Level::Operand => operand_at(phrases, state, cursor),
        Level::Clause => clause_at(phrases, state, cursor),
    }
}

/// What stands behind `sizeof`: the type, where one is written, and the trees of that, or else of the operand (5.3.3).
#[tactic(auto, using(cxx_cursor::proofs::Kept::later_trans, cxx_cursor::proofs::Kept::later_refl))]
pub fn read_sized<P: Phrases>(
    phrases: &P,
    state: &mut State,
    cursor: &mut Cursor<'_>,
) -> Result<(Option<TypeId>, TreeIdList), Stop>
    requires ready { P.is_ready phrases.now }
    ensures { IsRead sized_of IsSized state.old state.new cursor.new result (operands.sized_at (P.asks phrases.now) (P.inner phrases.now) (meaning state.old) cursor.old) }
{
    sized_at(phrases, state, cursor)
}
