//! Postfix and unary expressions and casts (5.2 to 5.4).

ghost use Rattle.std.specs.Prelude.{◌≡◌, codes};
ghost use Rattle.cxx_phrases.specs.Operands as definition;
ghost use Rattle.cxx_phrases.specs.Views.{IsSized, IsTreeTurn, sized_of, tree_turn};
ghost use Rattle.cxx_reading.specs.Shapes.{look, past};
ghost use Rattle.cxx_reading.specs.Tokens.{path_ahead};
ghost use Rattle.cxx_cursor.specs.Asking.{AnyKnown, IsTreeKnown, itself};
ghost use Rattle.cxx_cursor.specs.Reading.{IsRead};
ghost use Rattle.cxx_tree.specs.Arena.{path_at};
ghost use Rattle.cxx_tree.specs.Held.{meaning, tree};

use crate::arguments::arguments_at;
use crate::brackets::{begins_cast, called_name};
use crate::forms::{
    called_asked, cast_asked, prefix_asked, selected_asked, size_asked, step_asked, subscript_asked,
};
use crate::level::Level;
use crate::lists::one_tree;
use crate::operators::{is_prefix, is_step, operator_ahead};
use crate::phrases::Phrases;
use crate::primary::{called_at, parenthesis_at, primary_at};
use crate::production;
use crate::shape::TypeShape;
use cxx_cursor::{Cursor, Turn, is_keyword, is_punct};
use cxx_model::{FaultText, Kind, LeftOut, Path, Stop, TreeId, TreeIdList, TypeId, keyword, punct};
use cxx_tree::State;

// A call of what was read (5.2.2).
#[tactic(auto, using(cxx_cursor::proofs::Kept::later_trans, cxx_cursor::proofs::Kept::later_refl, crate::proofs::Kept::tree_kept, crate::proofs::Kept::tree_later, cxx_cursor::proofs::Kept::trees_kept, cxx_cursor::proofs::Kept::trees_later), unfolding(crate::specs::Operands::call_step))]
fn call_step<P: Phrases>(
    phrases: &P,
    state: &mut State,
    cursor: &mut Cursor<'_>,
    from: &Cursor<'_>,
    function: TreeId,
) -> Result<Turn<TreeId, TreeId>, Stop>
    requires ready { P.is_ready phrases.now }
    requires function { IsTreeKnown state.old function }
    ensures { IsRead tree_turn IsTreeTurn state.old state.new cursor.new result (definition.call_step (P.asks phrases.now) (P.inner phrases.now) from.now (tree state.old function) (meaning state.old) cursor.old) }
{
    let arguments = arguments_at(phrases, state, cursor)?;
    let number = called_asked(phrases, state, function, arguments, from, cursor)?;
    Ok(Turn::More(number))
}

// A subscript (5.2.1).
#[tactic(auto, using(cxx_cursor::proofs::Kept::later_trans, cxx_cursor::proofs::Kept::later_refl, crate::proofs::Kept::tree_kept, crate::proofs::Kept::tree_later), unfolding(crate::specs::Operands::subscript_step))]
fn subscript_step<P: Phrases>(
    phrases: &P,
    state: &mut State,
    cursor: &mut Cursor<'_>,
    from: &Cursor<'_>,
    object: TreeId,
) -> Result<Turn<TreeId, TreeId>, Stop>
    requires ready { P.is_ready phrases.now }
    requires object { IsTreeKnown state.old object }
    ensures { IsRead tree_turn IsTreeTurn state.old state.new cursor.new result (definition.subscript_step (P.asks phrases.now) (P.inner phrases.now) from.now (tree state.old object) (meaning state.old) cursor.old) }
{
    let place = cursor.place();
    cursor.advance();
    let index = phrases.inner_expression(state, cursor, Level::Whole)?;
    cursor.punct(punct::RIGHT_BRACKET)?;
    let number = subscript_asked(phrases, state, place, object, index, from, cursor)?;
    Ok(Turn::More(number))
}

// A postfix operator (5.2.6).
#[tactic(auto, using(cxx_cursor::proofs::Kept::later_trans, cxx_cursor::proofs::Kept::later_refl, crate::proofs::Kept::tree_kept, crate::proofs::Kept::tree_later), unfolding(crate::specs::Operands::step_step))]
fn step_step<P: Phrases>(
    phrases: &P,
    state: &mut State,
    cursor: &mut Cursor<'_>,
    from: &Cursor<'_>,
    operand: TreeId,
) -> Result<Turn<TreeId, TreeId>, Stop>
    requires ready { P.is_ready phrases.now }
    requires operand { IsTreeKnown state.old operand }
    ensures { IsRead tree_turn IsTreeTurn state.old state.new cursor.new result (definition.step_step (P.asks phrases.now) from.now (tree state.old operand) (meaning state.old) cursor.old) }
{
    let spelling = operator_ahead(cursor)?;
    let place = cursor.place();
    cursor.advance();
    let number = step_asked(phrases, state, spelling, place, operand, from, cursor)?;
    Ok(Turn::More(number))
}

// What names a member, with its qualifiers; the call of a destructor is left out (3.4.5, 12.4).
#[tactic(auto, using(cxx_cursor::proofs::Kept::later_refl), unfolding(crate::specs::Operands::selected_name))]
fn selected_name(state: &State, cursor: &mut Cursor<'_>) -> Result<Path, Stop>
    ensures { IsRead (λ held. path_at) AnyKnown state.now state.now cursor.new result (definition.selected_name (meaning state.now) cursor.old) }
{
    if is_punct(punct::TILDE, cursor.kind()) {
        let text = FaultText::LeftOut(LeftOut::DestructorCall);
        return Err(Stop::Fault(cursor.faulty(text)?));
    }
    cursor.path_taken(state)
}

// A member of what was read, by the number of its operator's production (5.2.5).
#[tactic(auto, using(cxx_cursor::proofs::Kept::later_trans, cxx_cursor::proofs::Kept::later_refl, crate::proofs::Kept::tree_kept, crate::proofs::Kept::tree_later), unfolding(crate::specs::Operands::selected_step))]
fn selected_step<P: Phrases>(
    phrases: &P,
    state: &mut State,
    cursor: &mut Cursor<'_>,
    number: u8,
    from: &Cursor<'_>,
    object: TreeId,
) -> Result<Turn<TreeId, TreeId>, Stop>
    requires ready { P.is_ready phrases.now }
    requires object { IsTreeKnown state.old object }
    ensures { IsRead tree_turn IsTreeTurn state.old state.new cursor.new result (definition.selected_step (P.asks phrases.now) number from.now (tree state.old object) (meaning state.old) cursor.old) }
{
    let place = cursor.place();
    cursor.advance();
    let path = selected_name(state, cursor)?;
    let number = selected_asked(phrases, state, number, place, path, object, from, cursor)?;
    Ok(Turn::More(number))
}

// What goes on with an operand.
#[tactic(auto, using(cxx_cursor::proofs::Kept::later_trans, cxx_cursor::proofs::Kept::later_refl), unfolding(crate::specs::Operands::postfix_step))]
fn postfix_step<P: Phrases>(
    phrases: &P,
    state: &mut State,
    cursor: &mut Cursor<'_>,
    from: &Cursor<'_>,
    so_far: TreeId,
) -> Result<Turn<TreeId, TreeId>, Stop>
    requires ready { P.is_ready phrases.now }
    requires so_far { IsTreeKnown state.old so_far }
    ensures { IsRead tree_turn IsTreeTurn state.old state.new cursor.new result (definition.postfix_step (P.asks phrases.now) (P.inner phrases.now) from.now (tree state.old so_far) (meaning state.old) cursor.old) }
{
    if is_punct(punct::LEFT_PARENTHESIS, cursor.kind()) {
        return call_step(phrases, state, cursor, from, so_far);
    }
    if is_punct(punct::LEFT_BRACKET, cursor.kind()) {
        return subscript_step(phrases, state, cursor, from, so_far);
    }
    if is_step(cursor.kind()) {
        return step_step(phrases, state, cursor, from, so_far);
    }
    if is_punct(punct::DOT, cursor.kind()) {
        return selected_step(phrases, state, cursor, production::MEMBER, from, so_far);
    }
    if is_punct(punct::ARROW, cursor.kind()) {
        return selected_step(phrases, state, cursor, production::ARROW, from, so_far);
    }
    Ok(Turn::Done(so_far))
}

// All that goes on with a primary expression, which began at `from`.
#[tactic(auto, using(cxx_cursor::proofs::Loops::turn, cxx_cursor::proofs::Loops::no_turn, cxx_cursor::proofs::Kept::later_trans, cxx_cursor::proofs::Kept::later_refl), unfolding(crate::specs::Operands::postfixes_at))]
fn postfixes_at<P: Phrases>(
    phrases: &P,
    state: &mut State,
    cursor: &mut Cursor<'_>,
    from: &Cursor<'_>,
    first: TreeId,
) -> Result<TreeId, Stop>
    requires ready { P.is_ready phrases.now }
    requires first { IsTreeKnown state.old first }
    ensures { IsRead tree IsTreeKnown state.old state.new cursor.new result (definition.postfixes_at (P.asks phrases.now) (P.inner phrases.now) from.now (tree state.old first) (meaning state.old) cursor.old) }
{
    let mut so_far = first;
    for _turn in 0..cursor.count() {
        match postfix_step(phrases, state, cursor, from, so_far)? {
            Turn::More(next) => so_far = next,
            Turn::Done(number) => return Ok(number),
        }
    }
    Ok(so_far)
}

// A cast (5.4).
#[tactic(auto, using(cxx_cursor::proofs::Kept::later_trans, cxx_cursor::proofs::Kept::later_refl, cxx_cursor::proofs::Kept::trees_kept, cxx_cursor::proofs::Kept::trees_later, cxx_cursor::proofs::Kept::type_kept, cxx_cursor::proofs::Kept::type_later), unfolding(crate::specs::Operands::cast_at))]
fn cast_at<P: Phrases>(
    phrases: &P,
    state: &mut State,
    cursor: &mut Cursor<'_>,
) -> Result<TreeId, Stop>
    requires ready { P.is_ready phrases.now }
    ensures { IsRead tree IsTreeKnown state.old state.new cursor.new result (definition.cast_at (P.asks phrases.now) (P.inner phrases.now) (meaning state.old) cursor.old) }
{
    let from = cursor.mark();
    cursor.advance();
    let (of, parts) = phrases.inner_type_id(state, cursor)?;
    cursor.punct(punct::RIGHT_PARENTHESIS)?;
    let operand = phrases.inner_expression(state, cursor, Level::Operand)?;
    cast_asked(phrases, state, b"(", of, parts, operand, &from, cursor)
}

// A parenthesis, and what goes on with it.
#[tactic(auto, using(cxx_cursor::proofs::Kept::later_trans, cxx_cursor::proofs::Kept::later_refl), unfolding(crate::specs::Operands::parenthesis_part))]
fn parenthesis_part<P: Phrases>(
    phrases: &P,
    state: &mut State,
    cursor: &mut Cursor<'_>,
) -> Result<TreeId, Stop>
    requires ready { P.is_ready phrases.now }
    ensures { IsRead tree IsTreeKnown state.old state.new cursor.new result (definition.parenthesis_part (P.asks phrases.now) (P.inner phrases.now) (meaning state.old) cursor.old) }
{
    let from = cursor.mark();
    let first = parenthesis_at(phrases, state, cursor)?;
    postfixes_at(phrases, state, cursor, &from, first)
}

// A cast or a parenthesis.
#[tactic(auto, using(cxx_cursor::proofs::Kept::later_trans, cxx_cursor::proofs::Kept::later_refl), unfolding(crate::specs::Operands::cast_or_parenthesis))]
fn cast_or_parenthesis<P: Phrases>(
    phrases: &P,
    state: &mut State,
    cursor: &mut Cursor<'_>,
) -> Result<TreeId, Stop>
    requires ready { P.is_ready phrases.now }
    ensures { IsRead tree IsTreeKnown state.old state.new cursor.new result (definition.cast_or_parenthesis (P.asks phrases.now) (P.inner phrases.now) (meaning state.old) cursor.old) }
{
    if begins_cast(phrases, state, cursor)? {
        return cast_at(phrases, state, cursor);
    }
    parenthesis_part(phrases, state, cursor)
}

// A call by the name that stands in brackets from `from` on (13.3.1.1.1).
#[tactic(auto, using(cxx_cursor::proofs::Kept::later_trans, cxx_cursor::proofs::Kept::later_refl), unfolding(crate::specs::Operands::called_part))]
fn called_part<P: Phrases>(
    phrases: &P,
    state: &mut State,
    cursor: &mut Cursor<'_>,
    from: &Cursor<'_>,
    name: &Cursor<'_>,
) -> Result<TreeId, Stop>
    requires ready { P.is_ready phrases.now }
    ensures { IsRead tree IsTreeKnown state.old state.new cursor.new result (definition.called_part (P.asks phrases.now) (P.inner phrases.now) from.now (path_ahead name.now) (meaning state.old) cursor.old) }
{
    let path = name.path()?;
    let first = called_at(phrases, state, cursor, b"(", from, path)?;
    postfixes_at(phrases, state, cursor, from, first)
}

// The name of a type is not called, nor is that of a namespace. What is ahead of `rest` is the bracket of the arguments.
#[tactic(auto, using(cxx_cursor::proofs::Kept::later_trans, cxx_cursor::proofs::Kept::later_refl), unfolding(crate::specs::Operands::called_or_not))]
fn called_or_not<'a, P: Phrases>(
    phrases: &P,
    state: &mut State,
    cursor: &mut Cursor<'a>,
    rest: &Cursor<'a>,
    name: &Cursor<'_>,
) -> Result<TreeId, Stop>
    requires ready { P.is_ready phrases.now }
    ensures { IsRead tree IsTreeKnown state.old state.new cursor.new result (definition.called_or_not (P.asks phrases.now) (P.inner phrases.now) cursor.old (path_ahead name.now) (meaning state.old) rest.now) }
{
    match phrases.kind(state, name)? {
        Kind::OfType => cast_or_parenthesis(phrases, state, cursor),
        Kind::Space => cast_or_parenthesis(phrases, state, cursor),
        _ => {
            let from = cursor.mark();
            *cursor = rest.mark();
            called_part(phrases, state, cursor, &from, name)
        }
    }
}

// What begins with `(`.
#[tactic(auto, using(cxx_cursor::proofs::Kept::later_trans, cxx_cursor::proofs::Kept::later_refl), unfolding(crate::specs::Operands::bracket_at))]
fn bracket_at<P: Phrases>(
    phrases: &P,
    state: &mut State,
    cursor: &mut Cursor<'_>,
) -> Result<TreeId, Stop>
    requires ready { P.is_ready phrases.now }
    ensures { IsRead tree IsTreeKnown state.old state.new cursor.new result (definition.bracket_at (P.asks phrases.now) (P.inner phrases.now) (meaning state.old) cursor.old) }
{
    let mut rest = cursor.mark();
    match called_name(&mut rest, phrases.room())? {
        Some(name) => called_or_not(phrases, state, cursor, &rest, &name),
        None => cast_or_parenthesis(phrases, state, cursor),
    }
}

// A prefix operator (5.3.1, 5.3.2).
#[tactic(auto, using(cxx_cursor::proofs::Kept::later_trans, cxx_cursor::proofs::Kept::later_refl), unfolding(crate::specs::Operands::prefix_at))]
fn prefix_at<P: Phrases>(
    phrases: &P,
    state: &mut State,
    cursor: &mut Cursor<'_>,
) -> Result<TreeId, Stop>
    requires ready { P.is_ready phrases.now }
    ensures { IsRead tree IsTreeKnown state.old state.new cursor.new result (definition.prefix_at (P.asks phrases.now) (P.inner phrases.now) (meaning state.old) cursor.old) }
{
    let from = cursor.mark();
    let spelling = operator_ahead(cursor)?;
    cursor.advance();
    let operand = phrases.inner_expression(state, cursor, Level::Operand)?;
    prefix_asked(phrases, state, spelling, operand, &from, cursor)
}

// A size (5.3.3).
#[tactic(auto, using(cxx_cursor::proofs::Kept::later_trans, cxx_cursor::proofs::Kept::later_refl), unfolding(crate::specs::Operands::size_at))]
fn size_at<P: Phrases>(
    phrases: &P,
    state: &mut State,
    cursor: &mut Cursor<'_>,
) -> Result<TreeId, Stop>
    requires ready { P.is_ready phrases.now }
    ensures { IsRead tree IsTreeKnown state.old state.new cursor.new result (definition.size_at (P.asks phrases.now) (P.inner phrases.now) (meaning state.old) cursor.old) }
{
    let from = cursor.mark();
    cursor.advance();
    let (of, parts) = phrases.inner_sized(state, cursor)?;
    size_asked(phrases, state, of, parts, &from, cursor)
}

// A primary expression, and what goes on with it.
#[tactic(auto, using(cxx_cursor::proofs::Kept::later_trans, cxx_cursor::proofs::Kept::later_refl), unfolding(crate::specs::Operands::primary_part))]
fn primary_part<P: Phrases>(
    phrases: &P,
    state: &mut State,
    cursor: &mut Cursor<'_>,
) -> Result<TreeId, Stop>
    requires ready { P.is_ready phrases.now }
    ensures { IsRead tree IsTreeKnown state.old state.new cursor.new result (definition.primary_part (P.asks phrases.now) (P.inner phrases.now) (meaning state.old) cursor.old) }
{
    let from = cursor.mark();
    let first = primary_at(phrases, state, cursor)?;
    postfixes_at(phrases, state, cursor, &from, first)
}

/// The operand of an operator (5.4).
#[tactic(auto, using(cxx_cursor::proofs::Kept::later_trans, cxx_cursor::proofs::Kept::later_refl), unfolding(crate::specs::Operands::operand_at))]
pub(crate) fn operand_at<P: Phrases>(
    phrases: &P,
    state: &mut State,
    cursor: &mut Cursor<'_>,
) -> Result<TreeId, Stop>
    requires ready { P.is_ready phrases.now }
    ensures { IsRead tree IsTreeKnown state.old state.new cursor.new result (definition.operand_at (P.asks phrases.now) (P.inner phrases.now) (meaning state.old) cursor.old) }
{
    if is_prefix(cursor.kind()) {
        return prefix_at(phrases, state, cursor);
    }
    if is_keyword(keyword::SIZEOF, cursor.kind()) {
        return size_at(phrases, state, cursor);
    }
    if is_punct(punct::LEFT_PARENTHESIS, cursor.kind()) {
        return bracket_at(phrases, state, cursor);
    }
    primary_part(phrases, state, cursor)
}

// The operand behind `sizeof`.
#[tactic(auto, using(cxx_cursor::proofs::Kept::later_trans, cxx_cursor::proofs::Kept::later_refl), unfolding(crate::specs::Operands::sized_operand))]
fn sized_operand<P: Phrases>(
    phrases: &P,
    state: &mut State,
    cursor: &mut Cursor<'_>,
) -> Result<(Option<TypeId>, TreeIdList), Stop>
    requires ready { P.is_ready phrases.now }
    ensures { IsRead sized_of IsSized state.old state.new cursor.new result (definition.sized_operand (P.asks phrases.now) (P.inner phrases.now) (meaning state.old) cursor.old) }
{
    let operand = operand_at(phrases, state, cursor)?;
    Ok((None, one_tree(cursor.alloc(), operand)?))
}

// The type behind `sizeof`.
#[tactic(auto, using(cxx_cursor::proofs::Kept::later_trans, cxx_cursor::proofs::Kept::later_refl), unfolding(crate::specs::Operands::sized_type))]
fn sized_type<P: Phrases>(
    phrases: &P,
    state: &mut State,
    cursor: &mut Cursor<'_>,
) -> Result<(Option<TypeId>, TreeIdList), Stop>
    requires ready { P.is_ready phrases.now }
    ensures { IsRead sized_of IsSized state.old state.new cursor.new result (definition.sized_type (P.inner phrases.now) (meaning state.old) cursor.old) }
{
    cursor.advance();
    let (of, parts) = phrases.inner_type_id(state, cursor)?;
    cursor.punct(punct::RIGHT_PARENTHESIS)?;
    Ok((Some(of), parts))
}

// Whether the bracket ahead holds a type (8.2).
#[tactic(auto, using(cxx_cursor::proofs::Kept::later_trans, cxx_cursor::proofs::Kept::later_refl))]
fn holds_type<P: Phrases>(
    phrases: &P,
    state: &mut State,
    cursor: &Cursor<'_>,
) -> Result<TypeShape, Stop>
    requires ready { P.is_ready phrases.now }
    ensures { IsRead itself AnyKnown state.old state.new cursor.now result (look (past (P.inner phrases.now).type_passed) (meaning state.old) cursor.now) }
{
    let mut ahead = cursor.mark();
    ahead.advance();
    phrases.inner_type_passed(state, &mut ahead)
}

/// What stands behind `sizeof`: a type in brackets, or an operand (5.3.3).
#[tactic(auto, using(cxx_cursor::proofs::Kept::later_trans, cxx_cursor::proofs::Kept::later_refl), unfolding(crate::specs::Operands::sized_at))]
pub(crate) fn sized_at<P: Phrases>(
    phrases: &P,
    state: &mut State,
    cursor: &mut Cursor<'_>,
) -> Result<(Option<TypeId>, TreeIdList), Stop>
    requires ready { P.is_ready phrases.now }
    ensures { IsRead sized_of IsSized state.old state.new cursor.new result (definition.sized_at (P.asks phrases.now) (P.inner phrases.now) (meaning state.old) cursor.old) }
{
    if !is_punct(punct::LEFT_PARENTHESIS, cursor.kind()) {
        return sized_operand(phrases, state, cursor);
    }
    match holds_type(phrases, state, cursor)? {
        TypeShape::NoType => sized_operand(phrases, state, cursor),
        TypeShape::Closed => sized_type(phrases, state, cursor),
        TypeShape::Surely => sized_type(phrases, state, cursor),
    }
}
