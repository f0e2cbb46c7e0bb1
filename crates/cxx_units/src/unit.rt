//! The state of a unit (2.1, 3.5): before its first declaration, behind each, and behind the last.

ghost use Rattle.std.specs.Prelude.{◌≡◌, ◌<◌, length, is_some, IsTrue, IfErr, IfOk};
ghost use Rattle.cxx_model.specs.declared.stop.Stop.TheVariants as stop;
ghost use Rattle.cxx_overload.specs.Choosers.{IsNew, told_by};
ghost use Rattle.cxx_model.specs.Stops.{Answer, Gives};
ghost use Rattle.cxx_model.specs.Text.Lexemes.{first_place as first_place_of_unit};
ghost use Rattle.cxx_reading.specs.Reads.{Ahead, Got};
ghost use Rattle.cxx_reading.specs.State.{CxxState, first_state};
ghost use Rattle.cxx_reading.specs.Units as definition;
ghost use Rattle.cxx_cursor.specs.Asking.{AnyKnown, IsAsked, itself};
ghost use Rattle.cxx_cursor.specs.Reading.{Answers};
ghost use Rattle.cxx_tree.specs.Held.{meaning, tree, trees};
ghost use Rattle.cxx_units.specs.Read.{reading_of};

use cxx_hash::Key;
use cxx_model::{Options, Place, Stop, TreeId};
use cxx_overload::Choosing;
use cxx_tree::State;
use std::alloc::Global;

/// The state before the first declaration. Who is asked which function a call means was asked nothing yet.
pub fn begun(alloc: Global, bytes: &[u8], chooser: Choosing) -> Result<State, Stop>
    requires { IsNew chooser }
    ensures is { IfOk result (λ state. meaning state ≡ first_state) }
    ensures tells { IfOk result (λ state. state.tells ≡ is_some (told_by chooser)) }
    ensures memory { IfErr result (λ why. why ≡ stop.OutOfMemory) }
{
    match State::new(alloc, Key::of(bytes), chooser) {
        Ok(state) => Ok(state),
        Err(_) => Err(Stop::OutOfMemory),
    }
}

/// A declaration is read by itself.
pub fn part_added(state: &mut State, number: TreeId) -> Result<(), Stop>
    requires { number.0 < length (trees state.old) }
    ensures { IsAsked itself AnyKnown state.old state.new result (definition.part_added (tree state.old number) (meaning state.old)) }
{
    match state.add_piece(number) {
        Ok(()) => Ok(()),
        Err(_) => Err(Stop::OutOfMemory),
    }
}

/// The state, where all declarations were read. Somebody is left in it who is asked which function a call means: where
/// nobody is, as where memory ran out at a call, the unit stops for want of memory.
pub fn whole(options: Options, state: State, ended: Result<(), Stop>) -> Result<State, Stop>
    ensures same { IfOk result (λ after. after ≡ state) }
    ensures asks { IfOk result (λ after. IsTrue after.asks) }
    ensures is { (end : Ahead) (reading : Answer (Got CxxState (Unit {0}))) → Answers itself AnyKnown state end ended reading → Gives (reading_of options) result (definition.read_as options reading) }
{
    let _ = options;
    match ended {
        Ok(()) => match state.settled() {
            Ok(state) => Ok(state),
            Err(_) => Err(Stop::OutOfMemory),
        },
        Err(why) => {
            state.let_go();
            Err(why)
        }
    }
}

/// Before the first token.
pub fn first_place() -> Place
    ensures { result ≡ first_place_of_unit }
{
    Place { line: 1, column: 1 }
}
