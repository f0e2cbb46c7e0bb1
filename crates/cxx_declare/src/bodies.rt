//! Bodies of functions (8.4), in the scope of the parameters.

ghost use Rattle.std.specs.Prelude.{◌≡◌, ◌<◌, length, Ok, Some};
ghost use Rattle.cxx_model.specs.Facts.Graph.{scopes};
ghost use Rattle.cxx_reading.specs.Declaring as declaring;
ghost use Rattle.cxx_reading.specs.Declaring.{at_scope, with_result};
ghost use Rattle.cxx_tree.specs.Answered.{AnyKnown, IsAnswered, itself};
ghost use Rattle.cxx_tree.specs.Held.{meaning, type_of};
ghost use Rattle.cxx_tree.specs.Later.{Later};

use cxx_model::{FactId, ScopeId, Stop, TypeId};
use cxx_tree::State;

// The reader stands in the scope of the parameters of a function that returns a type.
#[tactic(auto, using(cxx_tree::proofs::Steps::Later_trans))]
fn stand_in(state: &mut State, list: ScopeId, of: TypeId)
    requires scope { list.0 < scopes (state.old).graph.facts }
    requires of { of.0 < length (state.old).types }
    ensures later { Later state.old state.new }
    ensures is { meaning state.new ≡ at_scope list.0 (with_result (Some (type_of state.old of)) (meaning state.old)) }
    ensures held { (state.new).graph ≡ (state.old).graph }
{
    state.set_result(Some(of));
    state.set_scope(list);
}

/// A body begins in the scope of the parameters of its function, by a declaration of that (8.4).
#[tactic(auto, using(cxx_tree::proofs::Steps::Later_trans), unfolding(cxx_reading::specs::Declaring::begin_body))]
pub fn begin_body(state: &mut State, list: ScopeId, number: FactId, of: TypeId) -> Result<(), Stop>
    requires scope { list.0 < scopes (state.old).graph.facts }
    requires number { number.0 < length (state.old).graph.facts }
    requires of { of.0 < length (state.old).types }
    ensures { IsAnswered itself AnyKnown state.old state.new result (declaring.begin_body list.0 number.0 (type_of state.old of) (meaning state.old)) }
{
    stand_in(state, list, of);
    state.enter_block(Some(number))
}

/// Behind it the reader stands in a scope again.
#[tactic(auto, using(cxx_tree::proofs::Steps::Later_trans), unfolding(cxx_reading::specs::Declaring::end_body))]
pub fn end_body(state: &mut State, scope: ScopeId)
    requires { scope.0 < scopes (state.old).graph.facts }
    ensures later { Later state.old state.new }
    ensures is { declaring.end_body scope.0 (meaning state.old) ≡ Ok (tt, meaning state.new) }
{
    state.set_result(None);
    state.set_scope(scope);
}
