//! The declarations that a name means, and what it is to a reader (3.3.7).

ghost use Rattle.std.specs.Prelude.{◌≡◌, nat_lt, List, length, IfOk};
ghost use Rattle.std.specs.List.{filter};
ghost use Rattle.cxx_model.specs.Facts.Declarations.{graph_at};
ghost use Rattle.cxx_model.specs.Types.Trees.{CxxType};
ghost use Rattle.cxx_reading.specs.Seen.{fact_numbers, found_or_none, kind_of_found as kind_of_all, members_of as members_of_found, numbered_at, set_in, sought_from};
ghost use Rattle.cxx_names.specs.Index.{numbers_in};
ghost use Rattle.cxx_found.specs.Here.{IsHereBelow, found_here, or_nowhere};
ghost use Rattle.cxx_found.specs.Views.{IsNearBelow, IsSeeking, found_near, graph_of, name_of, or_nothing, types_of, wanted_of};

use crate::here::Here;
use crate::nearest::Nearest;
use crate::seeking::Seeking;
use cxx_graph::Graph;
use cxx_model::{FactList, Found, Kind, MemberFound, ScopeId};
use cxx_names::kind_of_found;
use std::alloc::{AllocError, Global};

// Those of some facts that are among so many.
fn known(facts: FactList, count: u32) -> FactList
    ensures { result ≡ filter (λ fact. nat_lt fact.0 count) facts }
{
    let mut facts = facts.into_vec();
    facts.retain(|fact| fact.0 < count);
    FactList::from_vec(facts)
}

// The facts of what was found as a member.
fn members_of(alloc: Global, of: MemberFound) -> FactList
    ensures { result ≡ members_of_found of }
{
    match of {
        MemberFound::Set(facts, _path) => facts,
        _ => FactList::new(alloc),
    }
}

// The facts of what was found, where it is a set, also as a member.
fn set_of(alloc: Global, graph: &Graph, found: Found) -> FactList
    ensures numbered { (types : List CxxType) → numbered_at (graph_at types graph.now) (fact_numbers result) ≡ set_in (graph_at types graph.now) found }
    ensures numbers { (types : List CxxType) → numbers_in (set_in (graph_at types graph.now) found) ≡ result }
{
    match found {
        Found::Set(facts) => known(facts, graph.length()),
        Found::Member(_class, of) => known(members_of(alloc, of), graph.length()),
        _ => FactList::new(alloc),
    }
}

impl Seeking<'_> {
    /// The first declarations of the entities that the name means from a scope.
    pub fn set(&self, scope: ScopeId) -> Result<FactList, AllocError>
        requires { IsSeeking self.now }
        ensures numbered { IfOk result (λ all. numbered_at (graph_of self.now) (fact_numbers all) ≡ set_in (graph_of self.now) (sought_from (graph_of self.now) (wanted_of self.now) scope.0 (name_of self.now))) }
        ensures numbers { IfOk result (λ all. numbers_in (set_in (graph_of self.now) (sought_from (graph_of self.now) (wanted_of self.now) scope.0 (name_of self.now))) ≡ all) }
    {
        let found = self.sought(scope)?;
        Ok(set_of(self.looking.alloc, self.looking.graph, found))
    }

    fn kind_of_member(&self, of: &MemberFound) -> Kind
        ensures { result ≡ kind_of_all (graph_of self.now) (numbered_at (graph_of self.now) (fact_numbers (members_of_found of.now))) }
    {
        match of {
            MemberFound::Set(facts, _) => kind_of_found(self.looking.graph, facts.as_slice()),
            _ => Kind::Value,
        }
    }

    fn kind_of(&self, found: Found) -> Kind
        ensures { result ≡ kind_of_all (graph_of self.now) (set_in (graph_of self.now) found) }
    {
        match found {
            Found::Set(facts) => kind_of_found(self.looking.graph, facts.as_slice()),
            Found::Member(_class, of) => self.kind_of_member(&of),
            _ => Kind::Value,
        }
    }

    #[tactic(auto, using(crate::proofs::Alone::all_found))]
    fn kind_by(&self, near: Nearest) -> Result<Kind, AllocError>
        requires seeking { IsSeeking self.now }
        requires below { IsNearBelow (length (types_of self.now)) near }
        ensures { IfOk result (λ kind. kind ≡ kind_of_all (graph_of self.now) (set_in (graph_of self.now) (or_nothing (found_near (types_of self.now) (graph_of self.now) near)))) }
    {
        match near {
            Nearest::Nothing => Ok(Kind::Value),
            Nearest::One(fact) => Ok(kind_of_found(self.looking.graph, &[fact])),
            Nearest::Several(sightings) => {
                let found = self.looked_up(&sightings)?;
                Ok(self.kind_of(found))
            }
        }
    }

    #[tactic(auto, using(crate::proofs::Inside::member_set))]
    fn kind_there(&self, here: Here) -> Result<Kind, AllocError>
        requires seeking { IsSeeking self.now }
        requires below { IsHereBelow (length (types_of self.now)) here }
        ensures { IfOk result (λ kind. kind ≡ kind_of_all (graph_of self.now) (set_in (graph_of self.now) (found_or_none (or_nowhere (found_here (types_of self.now) (graph_of self.now) here))))) }
    {
        match here {
            Here::Declared(near) => self.kind_by(near),
            Here::Member(_class, of) => Ok(self.kind_of_member(&of)),
            Here::Needs(_class) => Ok(Kind::Value),
        }
    }

    /// What the name is to a reader, from a scope.
    pub fn kind(&self, scope: ScopeId) -> Result<Kind, AllocError>
        requires { IsSeeking self.now }
        ensures { IfOk result (λ kind. kind ≡ kind_of_all (graph_of self.now) (set_in (graph_of self.now) (sought_from (graph_of self.now) (wanted_of self.now) scope.0 (name_of self.now)))) }
    {
        let here = self.nearest(scope)?;
        let kind = self.kind_there(here)?;
        Ok(kind)
    }
}
