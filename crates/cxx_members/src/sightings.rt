//! The declarations of a name that a lookup sees.

ghost use Rattle.std.specs.Prelude.{◌≡◌, ◌+◌, ◌<◌, [], length, map, option_map, IfSome, List, OnOk, IfOk};
ghost use Rattle.cxx_model.specs.Types.Trees.{CxxType};
ghost use Rattle.cxx_model.specs.Facts.Declarations.{declares_at, name_at, fact_at};
ghost use Rattle.cxx_model.specs.Facts.Fitted.{IsNameBelow, IsFactBelow, IsEntityBelow};
ghost use Rattle.cxx_model.specs.Facts.Entities.{meant_by, is_seen as is_seen_at};
ghost use Rattle.cxx_meaning.specs.Lookups.Gathered.{before};
ghost use Rattle.std.specs.List.{slice_get};
ghost use Rattle.cxx_meaning.specs.Lookups.Sightings.{is_by_friend as is_made_by_friend, befriends as befriends_by, sighting_in as sighted_in, sighting_of, standing, wanted_one as wanted_alone};
ghost use Rattle.cxx_members.specs.Views.{IsLooking, graph_of, facts_of, wanted_at};
ghost use Rattle.cxx_members.specs.Sighted.{Adds, given_at, meant_at, sighting_at};

use crate::looking::Looking;
use crate::wanted::Wanted;
use cxx_model::{Entity, Fact, FactId, Name, ScopeId, Steps};
use std::alloc::AllocError;
use std::sync::ledger::Ledger;

/// A declaration of a name: its scope, the fact itself, and the fact for which it stands (7.3.3).
#[derive(Clone, Copy)]
pub struct Sighting {
    pub scope: ScopeId,
    pub itself: FactId,
    pub meant: FactId,
    pub what: Entity,
}

/// What a fact stands for.
#[derive(Clone, Copy)]
pub struct Meant {
    pub number: FactId,
    pub what: Entity,
}

/// A name that is looked up, and what for.
#[derive(Clone, Copy)]
pub struct Sought<'a> {
    pub wanted: Wanted,
    pub name: &'a Name,
}

impl Looking<'_> {
    /// Whether a fact is seen at a cut.
    pub fn is_seen(&self, cut: u32, number: u32, fact: &Fact) -> bool
        requires { IsLooking self.now }
        ensures { result ≡ is_seen_at (facts_of self.now) cut number (fact_at self.now.types.now fact.now) }
    {
        number < cut || !self.is_space(fact.scope)
    }

    #[tactic(auto, using(crate::proofs::Kept::fact_is))]
    fn meant<L: Ledger>(&self, number: u32, what: Entity, steps: &mut Steps<L>) -> Meant
        requires looking { IsLooking self.now }
        requires below { IsEntityBelow (length self.now.types.now) what }
        ensures is { meant_at self.now.types.now result ≡ meant_by (facts_of self.now) number (declares_at self.now.types.now what) }
        ensures below { IsEntityBelow (length self.now.types.now) result.what }
    {
        match what {
            Entity::Using { target } => match self.fact(u64::from(target.0), steps) {
                Some(fact) => Meant {
                    number: target,
                    what: fact.what,
                },
                None => Meant {
                    number: target,
                    what,
                },
            },
            _ => Meant {
                number: FactId(number),
                what,
            },
        }
    }

    pub fn sighting<L: Ledger>(&self, number: u32, fact: &Fact, steps: &mut Steps<L>) -> Sighting
        requires looking { IsLooking self.now }
        requires below { IsFactBelow (length self.now.types.now) fact.now }
        ensures is { sighting_at self.now.types.now result ≡ sighting_of (facts_of self.now) number (fact_at self.now.types.now fact.now) }
        ensures below { IsEntityBelow (length self.now.types.now) result.what }
    {
        let meant = self.meant(number, fact.what, steps);
        Sighting {
            scope: fact.scope,
            itself: FactId(number),
            meant: meant.number,
            what: meant.what,
        }
    }

    // Whether only a friend declaration, which stands directly behind it, makes a declaration of a namespace.
    #[tactic(auto, using(crate::proofs::Kept::fact_is), unfolding(cxx_meaning::specs::Lookups::Sightings::is_by_friend))]
    fn is_by_friend<L: Ledger>(&self, number: u32, fact: &Fact, steps: &mut Steps<L>) -> bool
        requires { IsLooking self.now }
        ensures { result ≡ is_made_by_friend (facts_of self.now) number (fact_at self.now.types.now fact.now) }
    {
        if !self.is_space(fact.scope) {
            return false;
        }
        match self.fact(u64::from(number) + 1, steps) {
            Some(next) => befriends(next.what, number),
            None => false,
        }
    }

    /// What is wanted of a declaration.
    pub fn wanted_one(&self, wanted: Wanted, sighting: Sighting) -> Option<Sighting>
        requires below { IsEntityBelow (length self.now.types.now) sighting.what }
        ensures is { option_map (sighting_at self.now.types.now) result ≡ wanted_alone (graph_of self.now) (wanted_at wanted) (sighting_at self.now.types.now sighting) }
        ensures below { IfSome result (λ one. IsEntityBelow (length self.now.types.now) one.what) }
    {
        if self.is_wanted(wanted, sighting.what) {
            Some(sighting)
        } else {
            None
        }
    }

    // A declaration of a name in a scope that is seen at a cut.
    #[tactic(auto, unfolding(cxx_meaning::specs::Lookups::Sightings::sighting_in))]
    fn sighting_in<L: Ledger>(
        &self,
        cut: u32,
        sought: &Sought,
        scope: ScopeId,
        number: u32,
        fact: &Fact,
        steps: &mut Steps<L>,
    ) -> Option<Sighting>
        requires looking { IsLooking self.now }
        requires name { IsNameBelow (length self.now.types.now) sought.now.name.now }
        requires fact { IsFactBelow (length self.now.types.now) fact.now }
        ensures is { option_map (sighting_at self.now.types.now) result ≡ sighted_in (graph_of self.now) cut (wanted_at sought.now.wanted) (name_at self.now.types.now sought.now.name.now) scope number (fact_at self.now.types.now fact.now) }
        ensures below { IfSome result (λ one. IsEntityBelow (length self.now.types.now) one.what) }
    {
        if fact.scope.0 == scope.0
            && (self.is_named(sought.name, fact)
                && (self.is_seen(cut, number, fact) && !self.is_by_friend(number, fact, steps)))
        {
            let sighting = self.sighting(number, fact, steps);
            self.wanted_one(sought.wanted, sighting)
        } else {
            None
        }
    }

    /// Adds a sighting, where there is one.
    #[tactic(auto, using(crate::proofs::Adding::adds_one, crate::proofs::Adding::adds_none))]
    pub fn add_sighting(
        &self,
        found: &mut Vec<Sighting>,
        one: Option<Sighting>,
    ) -> Result<(), AllocError>
        requires { IfSome one (λ one. IsEntityBelow (length self.now.types.now) one.what) }
        ensures { OnOk result (Adds self.now.types.now found.old.items found.new.items (before (option_map (sighting_at self.now.types.now) one) [])) }
    {
        let _ = self.alloc;
        match one {
            None => Ok(()),
            Some(one) => {
                found.push(one)?;
                Ok(())
            }
        }
    }

    // Adds a fact, where it is a declaration of the name in the scope that is seen at the cut.
    #[tactic(auto, using(crate::proofs::Kept::fact_is))]
    fn add_if_standing<L: Ledger>(
        &self,
        cut: u32,
        sought: &Sought,
        scope: ScopeId,
        number: u32,
        found: &mut Vec<Sighting>,
        steps: &mut Steps<L>,
    ) -> Result<(), AllocError>
        requires looking { IsLooking self.now }
        requires name { IsNameBelow (length self.now.types.now) sought.now.name.now }
        ensures { OnOk result (Adds self.now.types.now found.old.items found.new.items (given_at (sighted_in (graph_of self.now) cut (wanted_at sought.now.wanted) (name_at self.now.types.now sought.now.name.now) scope) number (slice_get (facts_of self.now) number))) }
    {
        let one = match self.fact(u64::from(number), steps) {
            None => None,
            Some(fact) => self.sighting_in(cut, sought, scope, number, fact, steps),
        };
        self.add_sighting(found, one)
    }

    /// Adds the declarations of a name in a scope that are seen at a cut.
    #[tactic(auto, using(crate::proofs::Adding::adds_more, crate::proofs::Adding::adds_all), unfolding(cxx_meaning::specs::Lookups::Sightings::standing))]
    pub fn add_standing<L: Ledger>(
        &self,
        cut: u32,
        sought: &Sought,
        scope: ScopeId,
        found: &mut Vec<Sighting>,
        steps: &mut Steps<L>,
    ) -> Result<(), AllocError>
        requires looking { IsLooking self.now }
        requires name { IsNameBelow (length self.now.types.now) sought.now.name.now }
        ensures { OnOk result (Adds self.now.types.now found.old.items found.new.items (standing (graph_of self.now) cut (wanted_at sought.now.wanted) (name_at self.now.types.now sought.now.name.now) scope)) }
    {
        for number in 0..self.graph.length() {
            self.add_if_standing(cut, sought, scope, number, found, steps)?;
        }
        Ok(())
    }
}

// Whether a fact is a friend declaration of the one with a number.
fn befriends(what: Entity, number: u32) -> bool
    ensures { (types : List CxxType) → result ≡ befriends_by number (declares_at types what) }
{
    match what {
        Entity::Friend { target, .. } => target.0 == number,
        _ => false,
    }
}
