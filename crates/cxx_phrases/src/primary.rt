//! Primary expressions, and what stands before a bracket of arguments (5.1, 5.2.2, 5.2.3, 5.2.9 to 5.2.11).

ghost use Rattle.std.specs.Prelude.{◌≡◌, ◌<◌, length, []};
ghost use Rattle.cxx_model.specs.Types.Trees.{fundamental};
ghost use Rattle.cxx_phrases.specs.Primary as definition;
ghost use Rattle.cxx_phrases.specs.Views.{IsWritten, written_of};
ghost use Rattle.cxx_cursor.specs.Asking.{IsTreeKnown};
ghost use Rattle.cxx_phrases.specs.Making.{GrowsType};
ghost use Rattle.cxx_cursor.specs.Reading.{IsRead};
ghost use Rattle.cxx_tree.specs.Arena.{path_at};
ghost use Rattle.cxx_tree.specs.Held.{meaning, tree, type_of};

use crate::arguments::arguments_at;
use crate::forms::{
    call_asked, cast_asked, functional_asked, literal_asked, name_asked, parenthesis_asked,
    this_asked,
};
use crate::level::Level;
use crate::names::kind_ahead;
use crate::operators::{base_of_kind, is_cast_word, is_literal, is_this};
use crate::phrases::Phrases;
use cxx_cursor::{Cursor, is_punct, no_expression};
use cxx_model::{Base, Kind, Path, Stop, TreeId, TreeIdList, TypeId, punct};
use cxx_tree::State;

// A literal (2.13).
#[tactic(auto, using(cxx_cursor::proofs::Kept::later_trans, cxx_cursor::proofs::Kept::later_refl), unfolding(crate::specs::Primary::literal_part))]
fn literal_part<P: Phrases>(
    phrases: &P,
    state: &mut State,
    cursor: &mut Cursor<'_>,
) -> Result<TreeId, Stop>
    requires ready { P.is_ready phrases.now }
    ensures { IsRead tree IsTreeKnown state.old state.new cursor.new result (definition.literal_part (P.asks phrases.now) (meaning state.old) cursor.old) }
{
    let from = cursor.mark();
    cursor.advance();
    literal_asked(phrases, state, &from, cursor)
}

// `this` (9.3.2).
#[tactic(auto, using(cxx_cursor::proofs::Kept::later_trans, cxx_cursor::proofs::Kept::later_refl), unfolding(crate::specs::Primary::this_part))]
fn this_part<P: Phrases>(
    phrases: &P,
    state: &mut State,
    cursor: &mut Cursor<'_>,
) -> Result<TreeId, Stop>
    requires ready { P.is_ready phrases.now }
    ensures { IsRead tree IsTreeKnown state.old state.new cursor.new result (definition.this_part (P.asks phrases.now) (meaning state.old) cursor.old) }
{
    let from = cursor.mark();
    cursor.advance();
    this_asked(phrases, state, &from, cursor)
}

// A name that is not called (5.1).
#[tactic(auto, using(cxx_cursor::proofs::Kept::later_trans, cxx_cursor::proofs::Kept::later_refl), unfolding(crate::specs::Primary::name_at))]
fn name_at<P: Phrases>(
    phrases: &P,
    state: &mut State,
    cursor: &mut Cursor<'_>,
) -> Result<TreeId, Stop>
    requires ready { P.is_ready phrases.now }
    ensures { IsRead tree IsTreeKnown state.old state.new cursor.new result (definition.name_at (P.asks phrases.now) (meaning state.old) cursor.old) }
{
    let from = cursor.mark();
    let path = cursor.path_taken(state)?;
    name_asked(phrases, state, path, &from, cursor)
}

/// A call by a name, from its bracket on (5.2.2).
#[tactic(auto, using(cxx_cursor::proofs::Kept::later_trans, cxx_cursor::proofs::Kept::later_refl, cxx_cursor::proofs::Kept::trees_kept, cxx_cursor::proofs::Kept::trees_later), unfolding(crate::specs::Primary::called_at))]
pub(crate) fn called_at<P: Phrases>(
    phrases: &P,
    state: &mut State,
    cursor: &mut Cursor<'_>,
    spelling: &[u8],
    from: &Cursor<'_>,
    path: Path,
) -> Result<TreeId, Stop>
    requires ready { P.is_ready phrases.now }
    ensures { IsRead tree IsTreeKnown state.old state.new cursor.new result (definition.called_at (P.asks phrases.now) (P.inner phrases.now) spelling.now from.now (path_at path) (meaning state.old) cursor.old) }
{
    let arguments = arguments_at(phrases, state, cursor)?;
    call_asked(phrases, state, spelling, path, arguments, from, cursor)
}

// A call by a name.
#[tactic(auto, using(cxx_cursor::proofs::Kept::later_trans, cxx_cursor::proofs::Kept::later_refl), unfolding(crate::specs::Primary::named_call))]
fn named_call<P: Phrases>(
    phrases: &P,
    state: &mut State,
    cursor: &mut Cursor<'_>,
) -> Result<TreeId, Stop>
    requires ready { P.is_ready phrases.now }
    ensures { IsRead tree IsTreeKnown state.old state.new cursor.new result (definition.named_call (P.asks phrases.now) (P.inner phrases.now) (meaning state.old) cursor.old) }
{
    let from = cursor.mark();
    let path = cursor.path_taken(state)?;
    called_at(phrases, state, cursor, b"", &from, path)
}

// The name of no type.
#[tactic(auto, using(cxx_cursor::proofs::Kept::later_trans, cxx_cursor::proofs::Kept::later_refl), unfolding(crate::specs::Primary::value_name_at))]
fn value_name_at<P: Phrases>(
    phrases: &P,
    state: &mut State,
    cursor: &mut Cursor<'_>,
) -> Result<TreeId, Stop>
    requires ready { P.is_ready phrases.now }
    ensures { IsRead tree IsTreeKnown state.old state.new cursor.new result (definition.value_name_at (P.asks phrases.now) (P.inner phrases.now) (meaning state.old) cursor.old) }
{
    if is_punct(punct::LEFT_PARENTHESIS, cursor.behind_name().kind()) {
        return named_call(phrases, state, cursor);
    }
    name_at(phrases, state, cursor)
}

// Arguments behind a type (5.2.3).
#[tactic(auto, using(cxx_cursor::proofs::Kept::later_trans, cxx_cursor::proofs::Kept::later_refl, cxx_cursor::proofs::Kept::trees_kept, cxx_cursor::proofs::Kept::trees_later, cxx_cursor::proofs::Kept::type_kept, cxx_cursor::proofs::Kept::type_later), unfolding(crate::specs::Primary::functional_cast))]
fn functional_cast<P: Phrases>(
    phrases: &P,
    state: &mut State,
    cursor: &mut Cursor<'_>,
    from: &Cursor<'_>,
    of: TypeId,
) -> Result<TreeId, Stop>
    requires ready { P.is_ready phrases.now }
    requires of { of.0 < length (state.old).types }
    ensures { IsRead tree IsTreeKnown state.old state.new cursor.new result (definition.functional_cast (P.asks phrases.now) (P.inner phrases.now) from.now (type_of state.old of) (meaning state.old) cursor.old) }
{
    let arguments = arguments_at(phrases, state, cursor)?;
    functional_asked(phrases, state, of, arguments, from, cursor)
}

// An expression begins with the name or the word of a type in no other way.
#[tactic(auto, using(cxx_cursor::proofs::Kept::later_trans, cxx_cursor::proofs::Kept::later_refl), unfolding(crate::specs::Primary::functional_at))]
fn functional_at<P: Phrases>(
    phrases: &P,
    state: &mut State,
    cursor: &mut Cursor<'_>,
    from: &Cursor<'_>,
    of: TypeId,
) -> Result<TreeId, Stop>
    requires ready { P.is_ready phrases.now }
    requires of { of.0 < length (state.old).types }
    ensures { IsRead tree IsTreeKnown state.old state.new cursor.new result (definition.functional_at (P.asks phrases.now) (P.inner phrases.now) from.now (type_of state.old of) (meaning state.old) cursor.old) }
{
    if !is_punct(punct::LEFT_PARENTHESIS, cursor.kind()) {
        return Err(Stop::Fault(cursor.refused()?));
    }
    functional_cast(phrases, state, cursor, from, of)
}

// The name of a type.
#[tactic(auto, using(cxx_cursor::proofs::Kept::later_trans, cxx_cursor::proofs::Kept::later_refl, cxx_cursor::proofs::Kept::type_kept, cxx_cursor::proofs::Kept::type_later), unfolding(crate::specs::Primary::type_name_at))]
fn type_name_at<P: Phrases>(
    phrases: &P,
    state: &mut State,
    cursor: &mut Cursor<'_>,
) -> Result<TreeId, Stop>
    requires ready { P.is_ready phrases.now }
    ensures { IsRead tree IsTreeKnown state.old state.new cursor.new result (definition.type_name_at (P.asks phrases.now) (P.inner phrases.now) (meaning state.old) cursor.old) }
{
    let from = cursor.mark();
    let of = phrases.type_named(state, cursor)?;
    cursor.pass_name();
    functional_at(phrases, state, cursor, &from, of)
}

// A name, with qualifiers or without.
#[tactic(auto, using(cxx_cursor::proofs::Kept::later_trans, cxx_cursor::proofs::Kept::later_refl), unfolding(crate::specs::Primary::named_at))]
fn named_at<P: Phrases>(
    phrases: &P,
    state: &mut State,
    cursor: &mut Cursor<'_>,
) -> Result<TreeId, Stop>
    requires ready { P.is_ready phrases.now }
    ensures { IsRead tree IsTreeKnown state.old state.new cursor.new result (definition.named_at (P.asks phrases.now) (P.inner phrases.now) (meaning state.old) cursor.old) }
{
    match kind_ahead(phrases, state, cursor)? {
        Kind::OfType => type_name_at(phrases, state, cursor),
        Kind::Space => Err(Stop::Fault(cursor.refused()?)),
        _ => value_name_at(phrases, state, cursor),
    }
}

// The type that a word names.
fn word_type(state: &mut State, base: Base) -> Result<TypeId, Stop>
    ensures { GrowsType state.old state.new result (fundamental base) }
{
    match state.plain(base) {
        Ok(of) => Ok(of),
        Err(_) => Err(Stop::OutOfMemory),
    }
}

// A word of a type.
#[tactic(auto, using(cxx_cursor::proofs::Kept::later_trans, cxx_cursor::proofs::Kept::later_refl, cxx_cursor::proofs::Kept::type_kept, cxx_cursor::proofs::Kept::type_later), unfolding(crate::specs::Primary::word_at))]
fn word_at<P: Phrases>(
    phrases: &P,
    state: &mut State,
    cursor: &mut Cursor<'_>,
    base: Base,
) -> Result<TreeId, Stop>
    requires ready { P.is_ready phrases.now }
    ensures { IsRead tree IsTreeKnown state.old state.new cursor.new result (definition.word_at (P.asks phrases.now) (P.inner phrases.now) base (meaning state.old) cursor.old) }
{
    let from = cursor.mark();
    cursor.advance();
    let of = word_type(state, base)?;
    functional_at(phrases, state, cursor, &from, of)
}

// A cast by a word, up to its `>`.
#[tactic(auto, using(cxx_cursor::proofs::Kept::later_trans, cxx_cursor::proofs::Kept::later_refl), unfolding(crate::specs::Primary::cast_opened))]
fn cast_opened<P: Phrases>(
    phrases: &P,
    state: &mut State,
    cursor: &mut Cursor<'_>,
) -> Result<(TypeId, TreeIdList), Stop>
    requires ready { P.is_ready phrases.now }
    ensures { IsRead written_of IsWritten state.old state.new cursor.new result (definition.cast_opened (P.asks phrases.now) (meaning state.old) cursor.old) }
{
    cursor.advance();
    cursor.punct(punct::LESS)?;
    let written = phrases.type_id(state, cursor)?;
    cursor.punct(punct::GREATER)?;
    Ok(written)
}

// A cast by a word, from its `(` on.
#[tactic(auto, using(cxx_cursor::proofs::Kept::later_trans, cxx_cursor::proofs::Kept::later_refl, cxx_cursor::proofs::Kept::trees_kept, cxx_cursor::proofs::Kept::trees_later, cxx_cursor::proofs::Kept::type_kept, cxx_cursor::proofs::Kept::type_later), unfolding(crate::specs::Primary::cast_closed))]
fn cast_closed<P: Phrases>(
    phrases: &P,
    state: &mut State,
    cursor: &mut Cursor<'_>,
    from: &Cursor<'_>,
    of: TypeId,
    parts: TreeIdList,
) -> Result<TreeId, Stop>
    requires ready { P.is_ready phrases.now }
    requires written { IsWritten state.old (of, parts) }
    ensures { IsRead tree IsTreeKnown state.old state.new cursor.new result (definition.cast_closed (P.asks phrases.now) (P.inner phrases.now) from.now (written_of state.old (of, parts)) (meaning state.old) cursor.old) }
{
    cursor.punct(punct::LEFT_PARENTHESIS)?;
    let operand = phrases.inner_expression(state, cursor, Level::Whole)?;
    cursor.punct(punct::RIGHT_PARENTHESIS)?;
    cast_asked(
        phrases,
        state,
        from.spelling(),
        of,
        parts,
        operand,
        from,
        cursor,
    )
}

// A cast by a word (5.2.9 to 5.2.11).
#[tactic(auto, using(cxx_cursor::proofs::Kept::later_trans, cxx_cursor::proofs::Kept::later_refl), unfolding(crate::specs::Primary::cast_word_at))]
fn cast_word_at<P: Phrases>(
    phrases: &P,
    state: &mut State,
    cursor: &mut Cursor<'_>,
) -> Result<TreeId, Stop>
    requires ready { P.is_ready phrases.now }
    ensures { IsRead tree IsTreeKnown state.old state.new cursor.new result (definition.cast_word_at (P.asks phrases.now) (P.inner phrases.now) (meaning state.old) cursor.old) }
{
    let from = cursor.mark();
    let (of, parts) = cast_opened(phrases, state, cursor)?;
    cast_closed(phrases, state, cursor, &from, of, parts)
}

/// A parenthesis (5.1).
#[tactic(auto, using(cxx_cursor::proofs::Kept::later_trans, cxx_cursor::proofs::Kept::later_refl), unfolding(crate::specs::Primary::parenthesis_at))]
pub(crate) fn parenthesis_at<P: Phrases>(
    phrases: &P,
    state: &mut State,
    cursor: &mut Cursor<'_>,
) -> Result<TreeId, Stop>
    requires ready { P.is_ready phrases.now }
    ensures { IsRead tree IsTreeKnown state.old state.new cursor.new result (definition.parenthesis_at (P.asks phrases.now) (P.inner phrases.now) (meaning state.old) cursor.old) }
{
    let from = cursor.mark();
    cursor.advance();
    let inside = phrases.inner_expression(state, cursor, Level::Whole)?;
    cursor.punct(punct::RIGHT_PARENTHESIS)?;
    parenthesis_asked(phrases, state, inside, &from, cursor)
}

/// A primary expression, but for brackets.
#[tactic(auto, using(cxx_cursor::proofs::Kept::later_trans, cxx_cursor::proofs::Kept::later_refl), unfolding(crate::specs::Primary::primary_at, cxx_reading::specs::Constants::no_expression))]
pub(crate) fn primary_at<P: Phrases>(
    phrases: &P,
    state: &mut State,
    cursor: &mut Cursor<'_>,
) -> Result<TreeId, Stop>
    requires ready { P.is_ready phrases.now }
    ensures { IsRead tree IsTreeKnown state.old state.new cursor.new result (definition.primary_at (P.asks phrases.now) (P.inner phrases.now) (meaning state.old) cursor.old) }
{
    if is_literal(cursor.kind()) {
        return literal_part(phrases, state, cursor);
    }
    if cursor.begins_name() {
        return named_at(phrases, state, cursor);
    }
    if is_cast_word(cursor.kind()) {
        return cast_word_at(phrases, state, cursor);
    }
    if is_this(cursor.kind()) {
        return this_part(phrases, state, cursor);
    }
    match base_of_kind(cursor.kind()) {
        Some(base) => word_at(phrases, state, cursor, base),
        None => Err(Stop::Fault(no_expression(cursor)?)),
    }
}
