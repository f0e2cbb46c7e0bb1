//! Lists without repetition.

ghost use Rattle.std.specs.Prelude.{◌≡◌, OnOk};
ghost use Rattle.cxx_meaning.specs.Lookups.Gathered.{holds_scope as holds, with_fact as placed};
ghost use Rattle.cxx_members.specs.Places.{place_in};

use cxx_model::{FactId, ScopeId};
use std::alloc::AllocError;

/// Whether a scope is among some.
pub fn holds_scope(scopes: &[ScopeId], scope: ScopeId) -> bool
    ensures { result ≡ holds scopes.now scope }
{
    for other in scopes {
        if scope.0 == other.0 {
            return true;
        }
    }
    false
}

// The place of the first fact that is not before this one.
fn place_of(facts: &[FactId], fact: FactId) -> usize
    ensures { result ≡ place_in fact facts.now }
{
    let mut place = 0;
    for other in facts {
        if other.0 >= fact.0 {
            return place;
        }
        place += 1;
    }
    place
}

/// Adds a fact in its place, where it is not there yet.
pub(crate) fn add_fact(facts: &mut Vec<FactId>, fact: FactId) -> Result<(), AllocError>
    ensures { OnOk result (facts.new.items ≡ placed fact facts.old.items) }
{
    let place = place_of(facts, fact);
    if place == facts.len() {
        facts.push(fact)?;
    } else if facts[place].0 != fact.0 {
        facts.insert(place, fact)?;
    }
    Ok(())
}
