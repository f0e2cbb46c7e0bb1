//! Ascending lists of facts, each once.

ghost use Rattle.std.specs.Prelude.{◌≡◌, OnOk};
ghost use Rattle.cxx_meaning.specs.Lookups.Gathered.{with_fact as placed};
ghost use Rattle.cxx_adl.specs.Places.{fact_place_in};

use cxx_model::FactId;
use std::alloc::AllocError;

// The place of the first fact that is not before this one.
fn fact_place_of(facts: &[FactId], fact: FactId) -> usize
    ensures { result ≡ fact_place_in fact facts.now }
{
    let mut place = 0;
    for other in facts {
        if other.0 >= fact.0 {
            return place;
        }
        place += 1;
    }
    place
}

/// Adds a fact in its place, where it is not there yet.
pub(crate) fn add_fact(facts: &mut Vec<FactId>, fact: FactId) -> Result<(), AllocError>
    ensures { OnOk result (facts.new.items ≡ placed fact facts.old.items) }
{
    let place = fact_place_of(facts, fact);
    if place == facts.len() {
        facts.push(fact)?;
    } else if facts[place].0 != fact.0 {
        facts.insert(place, fact)?;
    }
    Ok(())
}
