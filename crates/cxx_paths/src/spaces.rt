//! Namespaces among declarations that were found.

ghost use Rattle.std.specs.Prelude.{◌≡◌, ◌<◌, IfSome, option_map};
ghost use Rattle.cxx_model.specs.Facts.Graph.{scopes};
ghost use Rattle.cxx_names.specs.Looked.{scope_number};
ghost use Rattle.cxx_reading.specs.Paths.{first_space as first_space_in};
ghost use Rattle.cxx_reading.specs.Seen.{fact_numbers, numbered_at};
ghost use Rattle.cxx_tree.specs.Held.{meaning};

use cxx_model::{FactId, ScopeId};
use cxx_names::first_space;
use cxx_tree::State;

/// The first namespace among some declarations, by its scope.
pub fn space_among(state: &State, numbers: &[FactId]) -> Option<ScopeId>
    ensures is { option_map scope_number result ≡ first_space_in (numbered_at (meaning state.now).graph (fact_numbers numbers.now)) }
    ensures there { IfSome result (λ inner. inner.0 < scopes (state.now).graph.facts) }
{
    let graph = state.graph();
    graph.in_range();
    first_space(graph, numbers)
}
