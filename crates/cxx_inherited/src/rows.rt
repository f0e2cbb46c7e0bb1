//! The declarations of a name in the scopes of a class.

ghost use Rattle.std.specs.Prelude.{◌≡◌, [], ◌∷◌, OnOk, IfOk};
ghost use Rattle.std.specs.List.{list_any};
ghost use Rattle.cxx_meaning.specs.Lookups.Gathered.{with_fact, with_facts};
ghost use Rattle.cxx_meaning.specs.Lookups.Member.{declares_member, members_in};
ghost use Rattle.cxx_members.specs.Places.{place_in};
ghost use Rattle.cxx_members.specs.Sighted.{Adds};
ghost use Rattle.cxx_inherited.specs.Rows.{declared_in_any, is_sighted, row_of, sighted_in};
ghost use Rattle.cxx_inherited.specs.Views.{IsSeeking, graph_of, name_of, types_of, wanted_of};

use crate::seeking::Seeking;
use cxx_members::Sighting;
use cxx_model::{ClassId, FactId, ScopeId};
use std::alloc::AllocError;

// The place of the first fact that is not before this one.
fn place_of(facts: &[FactId], fact: FactId) -> usize
    ensures { result ≡ place_in fact facts.now }
{
    let mut place = 0;
    for other in facts {
        if other.0 >= fact.0 {
            return place;
        }
        place += 1;
    }
    place
}

// Adds a fact in its place, where it is not there yet.
fn add_fact(facts: &mut Vec<FactId>, fact: FactId) -> Result<(), AllocError>
    ensures { OnOk result (facts.new.items ≡ with_fact fact facts.old.items) }
{
    let place = place_of(facts, fact);
    if place == facts.len() {
        facts.push(fact)?;
    } else if facts[place].0 != fact.0 {
        facts.insert(place, fact)?;
    }
    Ok(())
}

// Adds some facts, each in its place.
#[tactic(auto, unfolding(cxx_meaning::specs::Lookups::Gathered::with_facts))]
fn add_facts(facts: &mut Vec<FactId>, more: &[FactId]) -> Result<(), AllocError>
    ensures { OnOk result (facts.new.items ≡ with_facts facts.old.items more.now) }
{
    for fact in more {
        add_fact(facts, *fact)?;
    }
    Ok(())
}

impl Seeking<'_> {
    // The declarations of the name in one of some scopes, in order.
    #[tactic(auto, using(crate::proofs::Declaring::rows_are))]
    fn rows(&self, scopes: &[ScopeId]) -> Result<Vec<FactId>, AllocError>
        requires { IsSeeking self.now }
        ensures { IfOk result (λ numbers. numbers.items ≡ declared_in_any (graph_of self.now) scopes.now (name_of self.now)) }
    {
        let mut numbers = Vec::new(self.looking.alloc);
        for scope in scopes {
            add_facts(&mut numbers, self.row(*scope))?;
        }
        Ok(numbers)
    }

    fn add_seen(&self, number: FactId, found: &mut Vec<Sighting>) -> Result<(), AllocError>
        requires { IsSeeking self.now }
        ensures { OnOk result (Adds (types_of self.now) found.old.items found.new.items (sighted_in (graph_of self.now) (wanted_of self.now) (number ∷ []))) }
    {
        let one = self.seen(number);
        self.looking.add_sighting(found, one)
    }

    // Adds those of some declarations that are of what is wanted.
    #[tactic(auto, using(cxx_members::proofs::Adding::adds_none, crate::proofs::Declaring::row_more))]
    fn add_row(&self, numbers: &[FactId], found: &mut Vec<Sighting>) -> Result<(), AllocError>
        requires { IsSeeking self.now }
        ensures { OnOk result (Adds (types_of self.now) found.old.items found.new.items (sighted_in (graph_of self.now) (wanted_of self.now) numbers.now)) }
    {
        for number in numbers {
            self.add_seen(*number, found)?;
        }
        Ok(())
    }

    // Adds the declarations of the name in some scopes that are of what is wanted.
    #[tactic(auto, using(crate::proofs::Declaring::one_row))]
    fn add_rows(&self, scopes: &[ScopeId], found: &mut Vec<Sighting>) -> Result<(), AllocError>
        requires { IsSeeking self.now }
        ensures { OnOk result (Adds (types_of self.now) found.old.items found.new.items (sighted_in (graph_of self.now) (wanted_of self.now) (declared_in_any (graph_of self.now) scopes.now (name_of self.now)))) }
    {
        match scopes {
            [scope] => self.add_row(self.row(*scope), found),
            _ => {
                let numbers = self.rows(scopes)?;
                self.add_row(&numbers, found)
            }
        }
    }

    /// Adds the declarations of the name in a class.
    #[tactic(auto, using(crate::proofs::Declaring::members_are))]
    pub fn add_members(&self, class: ClassId, found: &mut Vec<Sighting>) -> Result<(), AllocError>
        requires { IsSeeking self.now }
        ensures { OnOk result (Adds (types_of self.now) found.old.items found.new.items (members_in (graph_of self.now) (wanted_of self.now) (name_of self.now) class)) }
    {
        self.add_rows(self.scopes(class), found)
    }

    // ---- whether there is one

    fn any_seen(&self, numbers: &[FactId]) -> bool
        requires { IsSeeking self.now }
        ensures { result ≡ list_any (is_sighted (graph_of self.now) (wanted_of self.now)) numbers.now }
    {
        for number in numbers {
            if self.seen(*number).is_some() {
                return true;
            }
        }
        false
    }

    fn any_row_seen(&self, scopes: &[ScopeId]) -> bool
        requires { IsSeeking self.now }
        ensures { result ≡ list_any (λ scope. list_any (is_sighted (graph_of self.now) (wanted_of self.now)) (row_of (graph_of self.now) (name_of self.now) scope)) scopes.now }
    {
        for scope in scopes {
            if self.any_seen(self.row(*scope)) {
                return true;
            }
        }
        false
    }

    /// Whether a class itself declares the name.
    #[tactic(auto, using(crate::proofs::Declaring::declares_is))]
    pub fn declares(&self, class: ClassId) -> bool
        requires { IsSeeking self.now }
        ensures { result ≡ declares_member (graph_of self.now) (wanted_of self.now) (name_of self.now) class }
    {
        self.any_row_seen(self.scopes(class))
    }
}
