//! Specifications of linkage (7.5).

ghost use Rattle.std.specs.Prelude.{◌≡◌};
ghost use Rattle.cxx_reading.specs.Units as definition;
ghost use Rattle.cxx_cursor.specs.Asking.{AnyKnown, itself};
ghost use Rattle.cxx_cursor.specs.Reading.{IsRead};
ghost use Rattle.cxx_tree.specs.Held.{meaning};
ghost use Rattle.cxx_units.specs.Said.{flag_turn};

use cxx_cursor::{Cursor, Turn, is_keyword};
use cxx_model::{Stop, TokenKind, keyword};
use cxx_tree::State;

fn is_text(kind: TokenKind) -> bool
    ensures { result ≡ definition.is_text kind }
{
    match kind {
        TokenKind::Text => true,
        _ => false,
    }
}

fn is_linkage(cursor: &Cursor<'_>) -> bool
    ensures { result ≡ definition.is_linkage cursor.now }
{
    is_keyword(keyword::EXTERN, cursor.kind()) && is_text(cursor.kind_behind())
}

fn is_language(spelling: &[u8]) -> bool
    ensures { result ≡ definition.is_language spelling.now }
{
    spelling == b"\"C\"".as_slice() || spelling == b"\"C++\"".as_slice()
}

// `extern` and the name of a language, once more.
#[tactic(auto, using(cxx_cursor::proofs::Kept::later_refl), unfolding(cxx_reading::specs::Units::linkage_step))]
fn linkage_step(state: &State, cursor: &mut Cursor<'_>, any: bool) -> Result<Turn<bool, bool>, Stop>
    ensures { IsRead flag_turn AnyKnown state.now state.now cursor.new result (definition.linkage_step any (meaning state.now) cursor.old) }
{
    let _ = state;
    if !is_linkage(cursor) {
        return Ok(Turn::Done(any));
    }
    cursor.advance();
    if is_language(cursor.spelling()) {
        cursor.advance();
        return Ok(Turn::More(true));
    }
    Err(Stop::Fault(cursor.refused()?))
}

/// Specifications of linkage, one after another: whether there are any.
#[tactic(auto, using(cxx_cursor::proofs::Loops::turn, cxx_cursor::proofs::Loops::no_turn, cxx_cursor::proofs::Kept::later_refl), unfolding(cxx_reading::specs::Units::linkages_passed))]
pub fn linkages_passed(state: &State, cursor: &mut Cursor<'_>) -> Result<bool, Stop>
    ensures { IsRead itself AnyKnown state.now state.now cursor.new result (definition.linkages_passed (meaning state.now) cursor.old) }
{
    let mut any = false;
    for _turn in 0..cursor.count() {
        match linkage_step(state, cursor, any)? {
            Turn::More(next) => any = next,
            Turn::Done(any) => return Ok(any),
        }
    }
    Ok(any)
}
