//! The unit (2.1, 3.5).

ghost use Rattle.std.specs.Prelude.{◌≡◌, ◌<◌, ◌^◌, length, IfOk};
ghost use Rattle.cxx_language.specs.Units as definition;
ghost use Rattle.cxx_model.specs.Stops.{Gives};
ghost use Rattle.cxx_model.specs.Text.Lexemes.{lexemes};
ghost use Rattle.cxx_overload.specs.Choosers.{IsNew};
ghost use Rattle.cxx_reading.specs.Reads.{count_ahead, give, repeat};
ghost use Rattle.cxx_cursor.specs.Asking.{AnyKnown, itself};
ghost use Rattle.cxx_cursor.specs.Reading.{IsRead};
ghost use Rattle.cxx_tree.specs.Held.{meaning};
ghost use Rattle.cxx_tree.specs.Told.{IsAskedBy};
ghost use Rattle.cxx_units.specs.Read.{nothing_turn, reading_of};

use crate::space::{Defines, Space};
use cxx_cursor::{Cursor, Turn, is_end};
use cxx_model::limits::MOST_NESTING;
use cxx_model::{Options, Stop, Token};
use cxx_overload::Choosing;
use cxx_tree::State;
use cxx_units::{begun, first_place, part_added, whole};
use std::alloc::Global;

// A declaration of the unit, or its end.
#[tactic(auto, using(cxx_cursor::proofs::Kept::later_refl, cxx_cursor::proofs::Kept::later_trans), unfolding(cxx_language::specs::Units::unit_step))]
fn unit_step<D: Defines>(
    declares: &D,
    state: &mut State,
    cursor: &mut Cursor<'_>,
) -> Result<Turn<(), ()>, Stop>
    ensures { IsRead nothing_turn AnyKnown state.old state.new cursor.new result (definition.unit_step (tt {0}) (meaning state.old) cursor.old) }
{
    if is_end(cursor.kind()) {
        return Ok(Turn::Done(()));
    }
    let space = Space {
        declares,
        room: MOST_NESTING,
    };
    let number = space.declaration_at(state, cursor)?;
    part_added(state, number)?;
    Ok(Turn::More(()))
}

// All declarations up to the end of the unit.
#[tactic(auto, using(cxx_cursor::proofs::Loops::turn, cxx_cursor::proofs::Loops::no_turn, cxx_cursor::proofs::Kept::later_refl, cxx_cursor::proofs::Kept::later_trans))]
fn unit_steps<D: Defines>(
    declares: &D,
    state: &mut State,
    cursor: &mut Cursor<'_>,
) -> Result<(), Stop>
    ensures { IsRead itself AnyKnown state.old state.new cursor.new result (repeat definition.unit_step give (count_ahead cursor.old) (tt {0}) (meaning state.old) cursor.old) }
{
    for _turn in 0..cursor.count() {
        match unit_step(declares, state, cursor)? {
            Turn::More(()) => {}
            Turn::Done(()) => return Ok(()),
        }
    }
    Ok(())
}

/// Reads a unit whose initializers, bounds and enumerators are expressions (2.1, 3.5): its reading, the first fault, or the
/// limit that is passed first, of the tokens with the bytes that spell them. Which function a call means is asked of the
/// chooser, which was asked nothing yet: where it tells at which places it was asked, these are the places of the calls.
#[tactic(auto, using(crate::proofs::Told::asked_by), unfolding(cxx_language::specs::Units::unit_reading))]
pub fn read_unit<D: Defines>(
    alloc: Global,
    declares: &D,
    bytes: &[u8],
    tokens: &[Token],
    options: Options,
    chooser: Choosing,
) -> Result<State, Stop>
    requires few { length tokens.now < 2 ^ 32 }
    requires new { IsNew chooser }
    ensures is { Gives (reading_of options) result (definition.unit_reading options (lexemes bytes.now tokens.now)) }
    ensures asked { IfOk result (IsAskedBy chooser) }
{
    let mut state = begun(alloc, bytes, chooser)?;
    let mut cursor = Cursor::new(alloc, bytes, tokens, first_place());
    let ended = unit_steps(declares, &mut state, &mut cursor);
    whole(options, state, ended)
}
