//! What a lookup finds in the declarations that it sees (3.4).

ghost use Rattle.std.specs.Prelude.{◌≡◌, find, map, not, length, IfOk};
ghost use Rattle.cxx_meaning.specs.Lookups.Sightings.{both_functions as are_both_functions, found_of, is_function_at as is_a_function_at, looked_up as looked_up_in, odd_pair as odd_pair_of};
ghost use Rattle.cxx_members.specs.Sighted.{AreBelow, sighting_at};
ghost use Rattle.cxx_found.specs.Views.{IsSeeking, graph_of, types_of};

use crate::seeking::Seeking;
use cxx_members::Sighting;
use cxx_model::{FactId, FactList, Found};
use std::alloc::AllocError;

impl Seeking<'_> {
    #[tactic(auto, using(cxx_members::proofs::Kept::fact_is), unfolding(cxx_meaning::specs::Lookups::Sightings::is_function_at))]
    fn is_function_at(&self, number: FactId) -> bool
        requires { IsSeeking self.now }
        ensures { result ≡ is_a_function_at (graph_of self.now) number }
    {
        match self.fact(number) {
            Some(fact) => self.looking.is_function(fact.what),
            None => false,
        }
    }

    fn both_functions(&self, one: FactId, two: FactId) -> bool
        requires { IsSeeking self.now }
        ensures { result ≡ are_both_functions (graph_of self.now) one two }
    {
        self.is_function_at(one) && self.is_function_at(two)
    }

    fn odd_one(&self, one: FactId, others: &[FactId]) -> Option<FactId>
        requires { IsSeeking self.now }
        ensures { result ≡ find (λ two. not (are_both_functions (graph_of self.now) one two)) others.now }
    {
        for two in others {
            if !self.both_functions(one, *two) {
                return Some(*two);
            }
        }
        None
    }

    // The least of some facts, and the least other one that is no overload of it.
    #[tactic(auto, unfolding(cxx_meaning::specs::Lookups::Sightings::odd_pair))]
    fn odd_pair(&self, facts: &[FactId]) -> Option<(FactId, FactId)>
        requires { IsSeeking self.now }
        ensures { result ≡ odd_pair_of (graph_of self.now) facts.now }
    {
        match facts {
            [] => None,
            [one, others @ ..] => match self.odd_one(*one, others) {
                Some(two) => Some((*one, two)),
                None => None,
            },
        }
    }

    #[tactic(auto, unfolding(cxx_meaning::specs::Lookups::Sightings::found_of))]
    fn found_among(&self, facts: Vec<FactId>) -> Found
        requires { IsSeeking self.now }
        ensures { result ≡ found_of (graph_of self.now) facts.items }
    {
        let odd = self.odd_pair(&facts);
        if facts.is_empty() {
            return Found::Empty;
        }
        match odd {
            None => Found::Set(FactList::from_vec(facts)),
            Some((one, two)) => Found::Ambiguous(one, two),
        }
    }

    /// What a lookup finds in the declarations that it sees.
    pub fn looked_up(&self, sightings: &[Sighting]) -> Result<Found, AllocError>
        requires seeking { IsSeeking self.now }
        requires below { AreBelow (length (types_of self.now)) sightings.now }
        ensures { IfOk result (λ found. found ≡ looked_up_in (graph_of self.now) (map (sighting_at (types_of self.now)) sightings.now)) }
    {
        let kept = self.looking.unhidden(sightings)?;
        let facts = self.looking.entities(&kept)?;
        Ok(self.found_among(facts))
    }
}
