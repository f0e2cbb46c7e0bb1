//! Qualified lookup in a namespace (3.4.3.2), and what a using-declaration brings (7.3.3).

ghost use Rattle.std.specs.Prelude.{◌≡◌, length, map, IfOk, OnOk};
ghost use Rattle.cxx_meaning.specs.Lookups.Gathered.{with_scopes};
ghost use Rattle.cxx_meaning.specs.Lookups.Ordinary.{found_in_sightings};
ghost use Rattle.cxx_meaning.specs.Lookups.Qualified.{brought_by, brought_in, leads_to, searched as searched_from, sightings_of, standing_in};
ghost use Rattle.cxx_meaning.specs.Lookups.Sightings.{looked_up as looked_up_in};
ghost use Rattle.cxx_members.specs.Sighted.{Adds, AreBelow, sighting_at};
ghost use Rattle.cxx_found.specs.Rows.{has_one, sighted_in};
ghost use Rattle.cxx_found.specs.Views.{IsNearBelow, IsSeeking, cut_of, found_near, graph_of, name_of, types_of, wanted_of};

use crate::nearest::Nearest;
use crate::seeking::Seeking;
use crate::shown::{add_scope, add_scopes, no_scopes, scope_at};
use cxx_hash::Key;
use cxx_members::Sighting;
use cxx_model::{FactId, FactList, Found, ScopeId};
use indexmap::IndexSet;
use std::alloc::AllocError;

impl Seeking<'_> {
    // Whether one of some declarations is of what is wanted.
    fn has_seen(&self, numbers: &[FactId]) -> bool
        requires { IsSeeking self.now }
        ensures { result ≡ has_one (sighted_in (graph_of self.now) (wanted_of self.now) numbers.now) }
    {
        for number in numbers {
            if self.seen(*number).is_some() {
                return true;
            }
        }
        false
    }

    // Adds the namespaces to which a namespace leads, where they are not there yet.
    #[tactic(auto, using(crate::proofs::Searching::leads_nowhere, crate::proofs::Searching::leads_on))]
    fn add_leads(
        &self,
        space: ScopeId,
        spaces: &mut IndexSet<ScopeId, Key>,
    ) -> Result<(), AllocError>
        requires { IsSeeking self.now }
        ensures { OnOk result (spaces.new.keys ≡ with_scopes spaces.old.keys (leads_to (graph_of self.now) (cut_of self.now) (wanted_of self.now) (name_of self.now) space)) }
    {
        if self.has_seen(self.row(space)) {
            return Ok(());
        }
        add_scopes(spaces, self.nominated(space))
    }

    // The namespaces in which the name is searched, each once.
    #[tactic(auto, using(cxx_scopes::proofs::Spreading::turn_first, cxx_scopes::proofs::Spreading::turn_done, cxx_scopes::proofs::Spreading::turn_over), unfolding(cxx_meaning::specs::Lookups::Qualified::searched))]
    fn searched(&self, space: ScopeId) -> Result<IndexSet<ScopeId, Key>, AllocError>
        requires { IsSeeking self.now }
        ensures { IfOk result (λ spaces. spaces.keys ≡ searched_from (graph_of self.now) (cut_of self.now) (wanted_of self.now) (name_of self.now) space) }
    {
        let mut found = no_scopes(self.looking.alloc);
        add_scope(&mut found, space)?;
        for place in 0..self.looking.graph.length() {
            match scope_at(&found, place as usize) {
                None => return Ok(found),
                Some(one) => self.add_leads(one, &mut found)?,
            }
        }
        Ok(found)
    }

    // Adds the declarations in some namespaces.
    #[tactic(auto, using(cxx_members::proofs::Adding::adds_none, cxx_scopes::proofs::Searching::standing_more), unfolding(cxx_meaning::specs::Lookups::Qualified::standing_in))]
    fn add_standing_in(
        &self,
        spaces: &[ScopeId],
        found: &mut Vec<Sighting>,
    ) -> Result<(), AllocError>
        requires { IsSeeking self.now }
        ensures { OnOk result (Adds (types_of self.now) found.old.items found.new.items (standing_in (graph_of self.now) (cut_of self.now) (wanted_of self.now) (name_of self.now) spaces.now)) }
    {
        for space in spaces {
            self.add_standing(*space, found)?;
        }
        Ok(())
    }

    // The declarations that a qualified lookup sees.
    #[tactic(auto, using(cxx_members::proofs::Adding::adds_to_none))]
    fn sightings_of(&self, space: ScopeId) -> Result<Vec<Sighting>, AllocError>
        requires { IsSeeking self.now }
        ensures is { IfOk result (λ found. map (sighting_at (types_of self.now)) found.items ≡ sightings_of (graph_of self.now) (cut_of self.now) (wanted_of self.now) (name_of self.now) space) }
        ensures below { IfOk result (λ found. AreBelow (length (types_of self.now)) found.items) }
    {
        let spaces = self.searched(space)?;
        let mut found = Vec::new(self.looking.alloc);
        self.add_standing_in(spaces.as_slice(), &mut found)?;
        Ok(found)
    }

    // What is found in a namespace and those to which it leads.
    fn far(&self, space: ScopeId) -> Result<Nearest, AllocError>
        requires { IsSeeking self.now }
        ensures is { IfOk result (λ near. found_near (types_of self.now) (graph_of self.now) near ≡ found_in_sightings (graph_of self.now) (sightings_of (graph_of self.now) (cut_of self.now) (wanted_of self.now) (name_of self.now) space)) }
        ensures below { IfOk result (IsNearBelow (length (types_of self.now))) }
    {
        let sightings = self.sightings_of(space)?;
        Ok(self.nearest_of(sightings))
    }

    // The same; a namespace that declares the name itself leads nowhere.
    fn in_space(&self, space: ScopeId) -> Result<Nearest, AllocError>
        requires { IsSeeking self.now }
        ensures is { IfOk result (λ near. found_near (types_of self.now) (graph_of self.now) near ≡ found_in_sightings (graph_of self.now) (sightings_of (graph_of self.now) (cut_of self.now) (wanted_of self.now) (name_of self.now) space)) }
        ensures below { IfOk result (IsNearBelow (length (types_of self.now))) }
    {
        let own = self.among(self.row(space))?;
        if !own.is_nothing() {
            return Ok(own);
        }
        if self.nominated(space).is_empty() {
            return Ok(own);
        }
        self.far(space)
    }

    /// What the name means behind `::` in a namespace.
    pub fn qualified(&self, space: ScopeId) -> Result<Found, AllocError>
        requires { IsSeeking self.now }
        ensures { IfOk result (λ found. found ≡ looked_up_in (graph_of self.now) (sightings_of (graph_of self.now) (cut_of self.now) (wanted_of self.now) (name_of self.now) space)) }
    {
        let near = self.in_space(space)?;
        let found = self.found_by(near)?;
        Ok(found)
    }

    // All entities, where a lookup finds something.
    fn brought_by(&self, found: Found, sightings: &[Sighting]) -> Result<Found, AllocError>
        requires { AreBelow (length (types_of self.now)) sightings.now }
        ensures { IfOk result (λ brought. brought ≡ brought_by found (map (sighting_at (types_of self.now)) sightings.now)) }
    {
        match found {
            Found::Set(_facts) => Ok(Found::Set(FactList::from_vec(
                self.looking.entities(sightings)?,
            ))),
            Found::Member(class, of) => Ok(Found::Member(class, of)),
            Found::Ambiguous(one, two) => Ok(Found::Ambiguous(one, two)),
            Found::Empty => Ok(Found::Empty),
        }
    }

    /// What a using-declaration brings from a namespace.
    pub fn brought(&self, space: ScopeId) -> Result<Found, AllocError>
        requires { IsSeeking self.now }
        ensures { IfOk result (λ found. found ≡ brought_in (graph_of self.now) (sightings_of (graph_of self.now) (cut_of self.now) (wanted_of self.now) (name_of self.now) space)) }
    {
        let sightings = self.sightings_of(space)?;
        let found = self.looked_up(&sightings)?;
        self.brought_by(found, &sightings)
    }
}
