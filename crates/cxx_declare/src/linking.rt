//! Declarations of blocks that declare members of namespaces (3.5).

ghost use Rattle.std.specs.Prelude.{ℕ, ◌≡◌, ◌<◌, length, IfErr, Ok, OnOk};
ghost use Rattle.cxx_model.specs.declared.stop.Stop.TheVariants as stop;
ghost use Rattle.cxx_model.specs.Stops.{Answer};
ghost use Rattle.cxx_reading.specs.Declaring.{with_linked};
ghost use Rattle.cxx_reading.specs.State.{CxxState};
ghost use Rattle.cxx_declare.specs.Made.{linking};
ghost use Rattle.cxx_tree.specs.Answered.{IsAnswered, IsFactKnown, fact_number};
ghost use Rattle.cxx_tree.specs.Held.{Held, meaning};
ghost use Rattle.cxx_tree.specs.Later.{Later};

use cxx_model::{FactId, Stop};
use cxx_tree::State;

// Notes that a declaration is linked.
fn note(state: &mut State, number: FactId) -> Result<(), Stop>
    requires { number.0 < length (state.old).graph.facts }
    ensures later { Later state.old state.new }
    ensures is { OnOk result (meaning state.new ≡ with_linked number.0 (meaning state.old)) }
    ensures held { OnOk result ((state.new).graph ≡ (state.old).graph) }
    ensures memory { IfErr result (λ why. why ≡ stop.OutOfMemory) }
{
    match state.add_linked(number) {
        Ok(()) => Ok(()),
        Err(_) => Err(Stop::OutOfMemory),
    }
}

/// What was declared is linked.
pub(crate) fn link(state: &mut State, number: FactId) -> Result<FactId, Stop>
    requires { number.0 < length (state.old).graph.facts }
    ensures { (old : Held) (reply : Answer (ℕ × CxxState)) → IsAnswered fact_number IsFactKnown old state.old (Ok number) reply → IsAnswered fact_number IsFactKnown old state.new result (linking reply) }
{
    match note(state, number) {
        Ok(()) => Ok(number),
        Err(stop) => Err(stop),
    }
}
