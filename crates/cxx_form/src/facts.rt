//! Declarations by their numbers.
ghost use Rattle.std.specs.Prelude.{◌≡◌, ◌<◌, Some, length, IfSome};
ghost use Rattle.std.specs.List.{slice_get};
ghost use Rattle.std.specs.Option.{option_copied};
ghost use Rattle.cxx_model.specs.Facts.Declarations.{fact_at};
ghost use Rattle.cxx_model.specs.Facts.Fitted.{IsFactBelow};
ghost use Rattle.cxx_form.specs.Views.{facts_in};

use cxx_model::{Fact, FactId};
use cxx_tree::State;

/// The declaration with a number.
pub(crate) fn fact(state: &State, number: FactId) -> &Fact
    requires { number.0 < length (state.now).graph.facts }
    ensures held { slice_get (state.now).graph.facts number.0 ≡ Some result.now }
    ensures is { slice_get (facts_in state.now) number.0 ≡ Some (fact_at (state.now).types result.now) }
    ensures below { IsFactBelow (length (state.now).types) result.now }
{
    &state.graph().facts()[number.0 as usize]
}

/// The declaration with a number, where there is one.
pub(crate) fn find(state: &State, number: FactId) -> Option<&Fact>
    ensures is { option_copied result ≡ slice_get (state.now).graph.facts number.0 }
    ensures below { IfSome result (λ fact. IsFactBelow (length (state.now).types) fact.now) }
{
    if number.0 >= state.graph().length() {
        return None;
    }
    Some(fact(state, number))
}
