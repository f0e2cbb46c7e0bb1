//! Declarations and expressions where a statement begins (6.8).

ghost use Rattle.std.specs.Prelude.{◌≡◌};
ghost use Rattle.cxx_heads.specs.Heads as definition;
ghost use Rattle.cxx_cursor.specs.Asking.{AnyKnown, itself};
ghost use Rattle.cxx_cursor.specs.Outlines.{run_in};
ghost use Rattle.cxx_cursor.specs.Reading.{IsRead};
ghost use Rattle.cxx_tree.specs.Held.{meaning};

use crate::head::Head;
use crate::names::name_passed;
use crate::suffixes::{bounds_passed, closed_passed};
use cxx_cursor::{Cursor, Run, is_keyword, is_name, is_punct};
use cxx_model::{Stop, TokenKind, keyword, punct};
use cxx_syntax::{Kinds, Nested, Reader};
use cxx_tree::State;

// Whether a declarator with a name stands ahead, and behind it what a declaration goes on with.
#[tactic(auto, using(cxx_cursor::proofs::Kept::later_trans, cxx_cursor::proofs::Kept::later_refl), unfolding(crate::specs::Heads::declarator_begins))]
fn declarator_begins<K: Kinds, N: Nested>(
    reader: &Reader<'_, K, N>,
    state: &mut State,
    cursor: &mut Cursor<'_>,
) -> Result<bool, Stop>
    requires open { N.is_open reader.now.nested.now }
    ensures { IsRead itself AnyKnown state.old state.new cursor.new result (definition.declarator_begins (N.inner reader.now.nested.now) (meaning state.old) cursor.old) }
{
    match name_passed(cursor)? {
        None => Ok(false),
        Some(shape) => {
            if closed_passed(reader, state, cursor, shape)? {
                bounds_passed(cursor)
            } else {
                Ok(false)
            }
        }
    }
}

// A list of enumerators or members, behind its name where it has one (7.2, 9).
fn begins_list(cursor: &Cursor<'_>) -> bool
    ensures { result ≡ definition.begins_list cursor.now }
{
    is_punct(punct::LEFT_BRACE, cursor.kind())
        || (is_name(cursor.kind()) && is_punct(punct::LEFT_BRACE, cursor.kind_behind()))
}

#[tactic(auto, using(cxx_cursor::proofs::Kept::later_trans, cxx_cursor::proofs::Kept::later_refl))]
fn specified_by<K: Kinds, N: Nested>(
    reader: &Reader<'_, K, N>,
    state: &mut State,
    cursor: &mut Cursor<'_>,
    run: Run,
) -> Result<bool, Stop>
    requires open { N.is_open reader.now.nested.now }
    ensures { IsRead itself AnyKnown state.old state.new cursor.new result (definition.specified_by (N.inner reader.now.nested.now) (run_in run) (meaning state.old) cursor.old) }
{
    match run {
        Run::NoType => Ok(false),
        Run::AType => declarator_begins(reader, state, cursor),
        Run::Surely => Ok(begins_list(cursor)),
    }
}

#[tactic(auto, using(cxx_cursor::proofs::Kept::later_trans, cxx_cursor::proofs::Kept::later_refl), unfolding(crate::specs::Heads::specifiers_begin))]
fn specifiers_begin<K: Kinds, N: Nested>(
    reader: &Reader<'_, K, N>,
    state: &mut State,
    cursor: &mut Cursor<'_>,
) -> Result<bool, Stop>
    requires ready { K.is_ready reader.now.kinds.now }
    requires open { N.is_open reader.now.nested.now }
    ensures { IsRead itself AnyKnown state.old state.new cursor.new result (definition.specifiers_begin (K.asks reader.now.kinds.now reader.now.room) (N.inner reader.now.nested.now) (meaning state.old) cursor.old) }
{
    let run = reader.run_passed(state, cursor)?;
    specified_by(reader, state, cursor, run)
}

// A word with which nothing but a declaration begins (7.1.1, 7.1.3, 7.1.5.3).
fn declares(number: u8) -> bool
    ensures { result ≡ definition.declares number }
{
    match number {
        keyword::AUTO => true,
        keyword::EXTERN => true,
        keyword::MUTABLE => true,
        keyword::REGISTER => true,
        keyword::STATIC => true,
        keyword::TYPEDEF => true,
        keyword::ENUM => true,
        keyword::CLASS => true,
        keyword::STRUCT => true,
        keyword::UNION => true,
        _ => false,
    }
}

fn begins_declaration(kind: TokenKind) -> bool
    ensures { result ≡ definition.begins_declaration kind }
{
    match kind {
        TokenKind::Keyword(number) => declares(number),
        _ => false,
    }
}

/// Whether a declaration of objects, functions and types stands ahead where a statement begins (6.8). What is no such
/// declaration, no `using` and no `namespace` is an expression.
#[tactic(auto, using(cxx_cursor::proofs::Kept::later_trans, cxx_cursor::proofs::Kept::later_refl), unfolding(crate::specs::Heads::is_declaration))]
pub fn is_declaration<K: Kinds, N: Nested>(
    reader: &Reader<'_, K, N>,
    state: &mut State,
    cursor: &Cursor<'_>,
) -> Result<bool, Stop>
    requires ready { K.is_ready reader.now.kinds.now }
    requires open { N.is_open reader.now.nested.now }
    ensures { IsRead itself AnyKnown state.old state.new cursor.now result (definition.is_declaration (K.asks reader.now.kinds.now reader.now.room) (N.inner reader.now.nested.now) (meaning state.old) cursor.now) }
{
    if begins_declaration(cursor.kind()) {
        return Ok(true);
    }
    let mut ahead = cursor.mark();
    specifiers_begin(reader, state, &mut ahead)
}

/// What stands ahead where a statement begins with none of its keywords (6).
#[tactic(auto, using(cxx_cursor::proofs::Kept::later_trans, cxx_cursor::proofs::Kept::later_refl), unfolding(crate::specs::Heads::head_at))]
pub fn head_at<K: Kinds, N: Nested>(
    reader: &Reader<'_, K, N>,
    state: &mut State,
    cursor: &Cursor<'_>,
) -> Result<Head, Stop>
    requires ready { K.is_ready reader.now.kinds.now }
    requires open { N.is_open reader.now.nested.now }
    ensures { IsRead itself AnyKnown state.old state.new cursor.now result (definition.head_at (K.asks reader.now.kinds.now reader.now.room) (N.inner reader.now.nested.now) (meaning state.old) cursor.now) }
{
    let kind = cursor.kind();
    if is_keyword(keyword::USING, kind) {
        return Ok(Head::Using);
    }
    if is_keyword(keyword::NAMESPACE, kind) {
        return Ok(Head::Namespace);
    }
    if is_name(kind) && is_punct(punct::COLON, cursor.kind_behind()) {
        return Ok(Head::Label);
    }
    if is_declaration(reader, state, cursor)? {
        Ok(Head::Declaration)
    } else {
        Ok(Head::Expression)
    }
}
