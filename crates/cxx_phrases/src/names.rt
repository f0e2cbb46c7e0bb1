//! Names, with qualifiers or without, as they stand ahead.

ghost use Rattle.cxx_phrases.specs.Phrases as asking;
ghost use Rattle.cxx_reading.specs.Tokens.{kind_of_name};
ghost use Rattle.cxx_cursor.specs.Asking.{AnyKnown, itself};
ghost use Rattle.cxx_cursor.specs.Reading.{IsRead};
ghost use Rattle.cxx_tree.specs.Held.{meaning};

use crate::phrases::Phrases;
use cxx_cursor::Cursor;
use cxx_model::{Kind, Stop};
use cxx_tree::State;

/// What the name ahead is to a reader (3.4). One that is not whole is met when it is read.
#[tactic(auto, using(cxx_cursor::proofs::Kept::later_refl), unfolding(cxx_reading::specs::Tokens::kind_of_name))]
pub(crate) fn kind_ahead<P: Phrases>(
    phrases: &P,
    state: &mut State,
    ahead: &Cursor<'_>,
) -> Result<Kind, Stop>
    requires ready { P.is_ready phrases.now }
    ensures { IsRead itself AnyKnown state.old state.new ahead.now result (kind_of_name (asking.Phrases.kind (P.asks phrases.now)) (meaning state.old) ahead.now) }
{
    if ahead.is_whole_name() {
        return phrases.kind(state, ahead);
    }
    Ok(Kind::Value)
}
