//! Sizes of types (5.3.3).

ghost use Rattle.std.specs.Prelude.{◌≡◌, ◌<◌, length};
ghost use Rattle.cxx_answers.specs.Answers as definition;
ghost use Rattle.cxx_meaning.specs.Conversions.Sizes as meaning_sizes;
ghost use Rattle.cxx_sizes.specs.Noted.{Measures, Notes};
ghost use Rattle.cxx_tree.specs.Answered.{AnyKnown, IsAnswered, itself};
ghost use Rattle.cxx_tree.specs.Held.{meaning, type_of};

use cxx_meaning::SizeReason;
use cxx_model::{Stop, TypeId};
use cxx_sizes::{Layouts, SizeFault};
use cxx_tree::State;

#[tactic(auto, unfolding(cxx_tree::specs::Held::meaning))]
fn measured(layouts: &Layouts, state: &State, of: TypeId) -> Result<u64, SizeFault>
    requires of { of.0 < length (state.now).types }
    requires noted { Notes layouts.now (meaning state.now).graph.facts }
    ensures { Measures result (meaning_sizes.size_of (meaning state.now).graph (type_of state.now of)) }
{
    layouts.size_of(state.graph(), state.types(), of)
}

// A class that is not complete has none.
fn size_or_none(layouts: &Layouts, state: &State, of: TypeId) -> Result<u64, SizeReason>
    requires of { of.0 < length (state.now).types }
    requires noted { Notes layouts.now (meaning state.now).graph.facts }
    ensures { result ≡ definition.size_or_none (meaning_sizes.size_of (meaning state.now).graph (type_of state.now of)) }
{
    match measured(layouts, state, of) {
        Ok(size) => Ok(size),
        Err(SizeFault::TooLarge) => Err(SizeReason::TooLarge),
        Err(SizeFault::NoSize) => Err(SizeReason::NoSize),
        Err(SizeFault::Needs(_)) => Err(SizeReason::NoSize),
    }
}

/// How many bytes objects of a type take (5.3.3).
#[tactic(auto, using(cxx_expr::proofs::Kept::later_refl), unfolding(crate::specs::Answers::size_here))]
pub fn size_here(state: &mut State, of: TypeId) -> Result<Result<u64, SizeReason>, Stop>
    requires { of.0 < length (state.old).types }
    ensures { IsAnswered itself AnyKnown state.old state.new result (definition.size_here (type_of state.old of) (meaning state.old)) }
{
    match state.layouts() {
        Some(layouts) => Ok(size_or_none(layouts, state, of)),
        None => Err(Stop::OutOfMemory),
    }
}
