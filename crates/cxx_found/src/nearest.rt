//! What is found in one scope that is no class's.

ghost use Rattle.std.specs.Prelude.{◌≡◌, ℕ, [], ◌∷◌, List, None, Ok, is_none, length, map, option_map, IfOk, OnOk};
ghost use Rattle.cxx_model.specs.Facts.Declarations.{CxxGraph};
ghost use Rattle.cxx_model.specs.Types.Trees.{CxxType};
ghost use Rattle.cxx_meaning.specs.Lookups.Member.{class_of_scope};
ghost use Rattle.cxx_meaning.specs.Lookups.Ordinary.{found_in_scope, found_in_sightings, sightings_at, standing_if, standing_shown};
ghost use Rattle.cxx_members.specs.Sighted.{Adds, AreBelow, sighting_at};
ghost use Rattle.cxx_found.specs.Rows.{sighted_in};
ghost use Rattle.cxx_found.specs.Views.{IsNearBelow, IsSeeking, cut_of, facts_of, found_near, graph_of, name_of, or_nothing, shown_of, types_of, wanted_of};

use crate::seeking::Seeking;
use crate::shown::Shown;
use cxx_members::Sighting;
use cxx_model::{FactId, FactList, Found, ScopeId};
use std::alloc::AllocError;

/// What is found in some declarations, where there is none, or one entity.
#[derive(Clone, Copy)]
pub(crate) enum Alone {
    Nothing,
    /// The fact by which an entity is named.
    One(FactId),
    Several,
}

/// What is found in a scope: nothing, one entity by its fact, or what is found in some declarations.
#[derive(Drop)]
pub(crate) enum Nearest {
    Nothing,
    One(FactId),
    Several(Vec<Sighting>),
}

impl Nearest {
    /// Whether nothing is found.
    pub fn is_nothing(&self) -> bool
        ensures { (types : List CxxType) (graph : CxxGraph) → result ≡ is_none (found_near types graph self.now) }
    {
        match self {
            Nearest::Nothing => true,
            Nearest::One(_) => false,
            Nearest::Several(sightings) => sightings.is_empty(),
        }
    }
}

impl Seeking<'_> {
    /// What is found in some declarations.
    pub fn nearest_of(&self, sightings: Vec<Sighting>) -> Nearest
        requires { AreBelow (length (types_of self.now)) sightings.items }
        ensures is { found_near (types_of self.now) (graph_of self.now) result ≡ found_in_sightings (graph_of self.now) (map (sighting_at (types_of self.now)) sightings.items) }
        ensures below { IsNearBelow (length (types_of self.now)) result }
    {
        match self.alone_in(&sightings) {
            Alone::Nothing => Nearest::Nothing,
            Alone::One(fact) => Nearest::One(fact),
            Alone::Several => Nearest::Several(sightings),
        }
    }

    /// What is found in those of some declarations that are of what is wanted.
    pub fn among(&self, numbers: &[FactId]) -> Result<Nearest, AllocError>
        requires { IsSeeking self.now }
        ensures is { IfOk result (λ near. found_near (types_of self.now) (graph_of self.now) near ≡ found_in_sightings (graph_of self.now) (sighted_in (graph_of self.now) (wanted_of self.now) numbers.now)) }
        ensures below { IfOk result (IsNearBelow (length (types_of self.now))) }
    {
        match self.alone(numbers) {
            Alone::Nothing => Ok(Nearest::Nothing),
            Alone::One(fact) => Ok(Nearest::One(fact)),
            Alone::Several => {
                let mut found = Vec::new(self.looking.alloc);
                self.add_row(numbers, &mut found)?;
                Ok(Nearest::Several(found))
            }
        }
    }

    // What is found in a scope that is no class's, in which no other namespace shows.
    fn own(&self, scope: ScopeId) -> Result<Nearest, AllocError>
        requires seeking { IsSeeking self.now }
        requires none { class_of_scope (facts_of self.now) scope ≡ None }
        ensures is { IfOk result (λ near. found_in_scope (graph_of self.now) (wanted_of self.now) (name_of self.now) (cut_of self.now) [] scope ≡ Ok (found_near (types_of self.now) (graph_of self.now) near)) }
        ensures below { IfOk result (IsNearBelow (length (types_of self.now))) }
    {
        self.among(self.row(scope))
    }

    // Adds the declarations in a namespace, where it shows in a scope.
    fn add_if_shown(
        &self,
        one: Shown,
        scope: ScopeId,
        found: &mut Vec<Sighting>,
    ) -> Result<(), AllocError>
        requires { IsSeeking self.now }
        ensures { OnOk result (Adds (types_of self.now) found.old.items found.new.items (standing_if (graph_of self.now) (cut_of self.now) (wanted_of self.now) (name_of self.now) scope (shown_of one))) }
    {
        if one.there.0 == scope.0 {
            self.add_standing(one.space, found)
        } else {
            Ok(())
        }
    }

    // Adds the declarations in the namespaces that show in a scope.
    #[tactic(auto, using(cxx_members::proofs::Adding::adds_none, cxx_scopes::proofs::Shows::shown_more), unfolding(cxx_meaning::specs::Lookups::Ordinary::standing_shown))]
    fn add_shown_standing(
        &self,
        shown: &[Shown],
        scope: ScopeId,
        found: &mut Vec<Sighting>,
    ) -> Result<(), AllocError>
        requires { IsSeeking self.now }
        ensures { OnOk result (Adds (types_of self.now) found.old.items found.new.items (standing_shown (graph_of self.now) (cut_of self.now) (wanted_of self.now) (name_of self.now) scope (map shown_of shown.now))) }
    {
        for one in shown {
            self.add_if_shown(*one, scope, found)?;
        }
        Ok(())
    }

    // Adds the declarations of a scope: those in it, and those that show there.
    #[tactic(auto, using(cxx_members::proofs::Adding::adds_both), unfolding(cxx_meaning::specs::Lookups::Ordinary::sightings_at))]
    fn add_sightings_at(
        &self,
        shown: &[Shown],
        scope: ScopeId,
        found: &mut Vec<Sighting>,
    ) -> Result<(), AllocError>
        requires { IsSeeking self.now }
        ensures { OnOk result (Adds (types_of self.now) found.old.items found.new.items (sightings_at (graph_of self.now) (cut_of self.now) (wanted_of self.now) (name_of self.now) (map shown_of shown.now) scope)) }
    {
        self.add_standing(scope, found)?;
        self.add_shown_standing(shown, scope, found)
    }

    // What is found in a scope that is no class's, of itself and by what shows there.
    fn with_shown(&self, shown: &[Shown], scope: ScopeId) -> Result<Nearest, AllocError>
        requires seeking { IsSeeking self.now }
        requires none { class_of_scope (facts_of self.now) scope ≡ None }
        ensures is { IfOk result (λ near. found_in_scope (graph_of self.now) (wanted_of self.now) (name_of self.now) (cut_of self.now) (map shown_of shown.now) scope ≡ Ok (found_near (types_of self.now) (graph_of self.now) near)) }
        ensures below { IfOk result (IsNearBelow (length (types_of self.now))) }
    {
        let mut found = Vec::new(self.looking.alloc);
        self.add_sightings_at(shown, scope, &mut found)?;
        Ok(self.nearest_of(found))
    }

    /// What is found in a scope that is no class's, of itself and by what shows there.
    pub fn declared_at(&self, shown: &[Shown], scope: ScopeId) -> Result<Nearest, AllocError>
        requires seeking { IsSeeking self.now }
        requires none { class_of_scope (facts_of self.now) scope ≡ None }
        ensures is { IfOk result (λ near. found_in_scope (graph_of self.now) (wanted_of self.now) (name_of self.now) (cut_of self.now) (map shown_of shown.now) scope ≡ Ok (found_near (types_of self.now) (graph_of self.now) near)) }
        ensures below { IfOk result (IsNearBelow (length (types_of self.now))) }
    {
        if shown.is_empty() {
            self.own(scope)
        } else {
            self.with_shown(shown, scope)
        }
    }

    /// What was found, in full.
    #[tactic(auto, using(crate::proofs::Alone::all_found))]
    pub fn found_by(&self, near: Nearest) -> Result<Found, AllocError>
        requires seeking { IsSeeking self.now }
        requires below { IsNearBelow (length (types_of self.now)) near }
        ensures { IfOk result (λ found. found ≡ or_nothing (found_near (types_of self.now) (graph_of self.now) near)) }
    {
        match near {
            Nearest::Nothing => Ok(Found::Empty),
            Nearest::One(fact) => {
                let mut facts = Vec::new(self.looking.alloc);
                facts.push(fact)?;
                Ok(Found::Set(FactList::from_vec(facts)))
            }
            Nearest::Several(sightings) => self.looked_up(&sightings),
        }
    }
}
