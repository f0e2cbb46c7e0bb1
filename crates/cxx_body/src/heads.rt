//! How a statement begins (6.8).

ghost use Rattle.std.specs.Prelude.{◌≡◌, None};
ghost use Rattle.cxx_language.specs.Statements as definition;
ghost use Rattle.cxx_cursor.specs.Asking.{AnyKnown, itself};
ghost use Rattle.cxx_cursor.specs.Reading.{IsRead};
ghost use Rattle.cxx_tree.specs.Held.{meaning};

use crate::phrasing::Phrasing;
use cxx_cursor::Cursor;
use cxx_heads as heads;
use cxx_model::{FaultText, LeftOut, Stop, TokenKind, keyword};
use cxx_statements::Head;
use cxx_tree::State;

// A statement that is left out begins with its keyword (6.6.4, 7.4, 15).
fn left_out_word(number: u8) -> Option<FaultText>
    ensures { result ≡ definition.left_out_word number }
{
    if number == keyword::GOTO {
        return Some(FaultText::LeftOut(LeftOut::Goto));
    }
    if number == keyword::ASM {
        return Some(FaultText::LeftOut(LeftOut::Asm));
    }
    if number == keyword::TRY {
        return Some(FaultText::LeftOut(LeftOut::Exception));
    }
    None
}

fn left_out(kind: TokenKind) -> Option<FaultText>
    ensures { result ≡ definition.left_out kind }
{
    match kind {
        TokenKind::Keyword(number) => left_out_word(number),
        _ => None,
    }
}

// A label that is a name is left out, which `goto` alone uses (6.1).
#[tactic(auto, using(cxx_cursor::proofs::Kept::later_refl))]
fn head_as(state: &State, cursor: &Cursor<'_>, found: heads::Head) -> Result<Head, Stop>
    ensures { IsRead itself AnyKnown state.now state.now cursor.now result (definition.head_as found (meaning state.now) cursor.now) }
{
    let _ = state;
    match found {
        heads::Head::Declaration => Ok(Head::Declaration),
        heads::Head::Using => Ok(Head::Declaration),
        heads::Head::Namespace => Ok(Head::Declaration),
        heads::Head::Label => {
            let form = FaultText::LeftOut(LeftOut::Label);
            Err(Stop::Fault(cursor.faulty(form)?))
        }
        heads::Head::Expression => Ok(Head::Expression),
    }
}

#[tactic(auto, using(cxx_cursor::proofs::Kept::later_refl, cxx_cursor::proofs::Kept::later_trans))]
fn some_head<P: Phrasing>(
    phrasing: &P,
    state: &mut State,
    cursor: &Cursor<'_>,
    room: u32,
) -> Result<Head, Stop>
    ensures { IsRead itself AnyKnown state.old state.new cursor.now result (definition.begun_by room None (meaning state.old) cursor.now) }
{
    let found = phrasing.head(state, cursor, room)?;
    head_as(state, cursor, found)
}

/// How the statement ahead begins. No token is taken.
#[tactic(auto, using(cxx_cursor::proofs::Kept::later_refl), unfolding(cxx_language::specs::Statements::statement_head))]
pub(crate) fn statement_head<P: Phrasing>(
    phrasing: &P,
    state: &mut State,
    cursor: &Cursor<'_>,
    room: u32,
) -> Result<Head, Stop>
    ensures { IsRead itself AnyKnown state.old state.new cursor.now result (definition.statement_head room (meaning state.old) cursor.now) }
{
    match left_out(cursor.kind()) {
        None => some_head(phrasing, state, cursor, room),
        Some(text) => Err(Stop::Fault(cursor.faulty(text)?)),
    }
}
