//! What a lookup reads: the facts of a graph, the index of their names, and the table of their types.

ghost use Rattle.std.specs.Prelude.{◌≡◌, ◌<◌, ◌+◌, List, [], ◌∷◌, length, option_map, Some, IfSome, OnOk};
ghost use Rattle.std.specs.List.{slice_get};
ghost use Rattle.std.specs.Option.{option_copied};
ghost use Rattle.cxx_model.specs.Facts.Conflicts.{same_name};
ghost use Rattle.cxx_model.specs.Facts.Declarations.{declares_at, fact_at, name_at, spelled};
ghost use Rattle.cxx_model.specs.Facts.Entities.{is_space as is_space_kind};
ghost use Rattle.cxx_model.specs.Facts.Fitted.{IsEntityBelow, IsFactBelow};
ghost use Rattle.cxx_meaning.specs.Lookups.Scopes.{kind_of, parent_of};
ghost use Rattle.cxx_model.specs.Types.Trees.{CxxType};
ghost use Rattle.cxx_meaning.specs.Lookups.Associated.{is_target as is_target_named, target_by};
ghost use Rattle.cxx_meaning.specs.Lookups.Sightings.{befriends as befriends_by, is_by_friend as is_made_by_friend, is_named as is_named_so, sighting_of, standing};
ghost use Rattle.cxx_members.specs.Sighted.{Adds, sighting_at};
ghost use Rattle.cxx_found.specs.Rows.{sighted, sighted_in};
ghost use Rattle.cxx_found.specs.Views.{IsSeeking, cut_of, facts_of, graph_of, name_of, types_of, wanted_of};

use cxx_graph::Graph;
use cxx_members::{Looking, Sighting, Wanted};
use cxx_model::{Entity, Fact, FactId, Name, ScopeId};
use cxx_names::{MetWord, Names, declares_name};
use std::alloc::AllocError;

/// A spelled name that is looked up, what for, and where.
#[derive(Clone, Copy)]
pub(crate) struct Seeking<'a> {
    pub looking: Looking<'a>,
    pub names: &'a Names,
    pub wanted: Wanted,
    pub word: &'a [u8],
    /// What the word is among the names that were met.
    pub met: MetWord,
}

// The fact that stands behind one.
fn next_of(graph: &Graph, number: FactId) -> Option<&Fact>
    ensures { option_copied result ≡ slice_get graph.now.facts (number.0 + 1) }
{
    graph.facts().get(number.0 as usize + 1)
}

// Whether a fact is a friend declaration of the one with a number (11.4).
fn befriends(what: Entity, number: FactId) -> bool
    ensures { (types : List CxxType) → result ≡ befriends_by number.0 (declares_at types what) }
{
    match what {
        Entity::Friend { target, .. } => target.0 == number.0,
        _ => false,
    }
}

// Whether a fact has a name that is spelled so.
fn is_spelled(fact: &Fact, word: &[u8]) -> bool
    ensures { (types : List CxxType) → result ≡ same_name (name_at types fact.now.name) (spelled word.now) }
{
    match &fact.name {
        Name::Spelled(own) => own.as_slice() == word,
        _ => false,
    }
}

fn fact_of(graph: &Graph, number: FactId) -> Option<&Fact>
    ensures { option_copied result ≡ slice_get graph.now.facts number.0 }
{
    graph.facts().get(number.0 as usize)
}

impl Seeking<'_> {
    /// The fact with a number.
    pub fn fact(&self, number: FactId) -> Option<&Fact>
        requires { IsSeeking self.now }
        ensures is { option_copied result ≡ slice_get self.now.looking.graph.now.facts number.0 }
        ensures below { IfSome result (λ fact. IsFactBelow (length (types_of self.now)) fact.now) }
    {
        fact_of(self.looking.graph, number)
    }

    // A declaration, and the fact for which it stands (7.3.3).
    #[tactic(auto, using(cxx_members::proofs::Kept::fact_is))]
    fn sighting(&self, number: FactId, fact: &Fact) -> Sighting
        requires seeking { IsSeeking self.now }
        requires below { IsFactBelow (length (types_of self.now)) fact.now }
        ensures is { sighting_at (types_of self.now) result ≡ sighting_of (facts_of self.now) number.0 (fact_at (types_of self.now) fact.now) }
        ensures below { IsEntityBelow (length (types_of self.now)) result.what }
    {
        match fact.what {
            Entity::Using { target } => match self.fact(target) {
                Some(meant) => Sighting {
                    scope: fact.scope,
                    itself: number,
                    meant: target,
                    what: meant.what,
                },
                None => Sighting {
                    scope: fact.scope,
                    itself: number,
                    meant: target,
                    what: fact.what,
                },
            },
            _ => Sighting {
                scope: fact.scope,
                itself: number,
                meant: number,
                what: fact.what,
            },
        }
    }

    // Whether a fact declares the name.
    fn is_named(&self, fact: &Fact) -> bool
        ensures { result ≡ is_named_so (name_of self.now) (fact_at (types_of self.now) fact.now) }
    {
        declares_name(fact.what) && is_spelled(fact, self.word)
    }

    // Whether only a friend declaration, which stands directly behind it, makes a declaration of a namespace (7.3.1.2).
    #[tactic(auto, using(cxx_members::proofs::Kept::fact_is), unfolding(cxx_meaning::specs::Lookups::Sightings::is_by_friend))]
    fn is_by_friend(&self, number: FactId, fact: &Fact) -> bool
        requires { IsSeeking self.now }
        ensures { result ≡ is_made_by_friend (facts_of self.now) number.0 (fact_at (types_of self.now) fact.now) }
    {
        if !self.is_space(fact.scope) {
            return false;
        }
        match next_of(self.looking.graph, number) {
            Some(next) => befriends(next.what, number),
            None => false,
        }
    }

    // Whether a fact declares the name in a namespace.
    fn is_target(&self, fact: &Fact) -> bool
        requires { IsSeeking self.now }
        ensures { result ≡ is_target_named (graph_of self.now) (name_of self.now) (fact_at (types_of self.now) fact.now) }
    {
        self.is_space(fact.scope) && self.is_named(fact)
    }

    // A declaration that is seen, where it is of what is wanted.
    fn shown(&self, number: FactId, fact: &Fact) -> Option<Sighting>
        requires seeking { IsSeeking self.now }
        requires below { IsFactBelow (length (types_of self.now)) fact.now }
        ensures is { option_map (sighting_at (types_of self.now)) result ≡ sighted (graph_of self.now) (wanted_of self.now) number.0 (Some (fact_at (types_of self.now) fact.now)) }
        ensures below { IfSome result (λ one. IsEntityBelow (length (types_of self.now)) one.what) }
    {
        if self.is_by_friend(number, fact) {
            return None;
        }
        let one = self.sighting(number, fact);
        self.looking.wanted_one(self.wanted, one)
    }

    /// What a friend declaration declares, where that has the name (11.4).
    #[tactic(auto, using(cxx_members::proofs::Kept::fact_is))]
    pub fn befriended(&self, target: FactId) -> Option<Sighting>
        requires { IsSeeking self.now }
        ensures is { option_map (sighting_at (types_of self.now)) result ≡ target_by (graph_of self.now) (name_of self.now) (Some target) }
        ensures below { IfSome result (λ one. IsEntityBelow (length (types_of self.now)) one.what) }
    {
        match self.fact(target) {
            Some(fact) => {
                if self.is_target(fact) {
                    Some(self.sighting(target, fact))
                } else {
                    None
                }
            }
            None => None,
        }
    }

    /// The declaration with a number, where it is of what is wanted.
    #[tactic(auto, using(cxx_members::proofs::Kept::fact_is))]
    pub fn seen(&self, number: FactId) -> Option<Sighting>
        requires { IsSeeking self.now }
        ensures is { option_map (sighting_at (types_of self.now)) result ≡ sighted (graph_of self.now) (wanted_of self.now) number.0 (slice_get (facts_of self.now) number.0) }
        ensures below { IfSome result (λ one. IsEntityBelow (length (types_of self.now)) one.what) }
    {
        match self.fact(number) {
            Some(fact) => self.shown(number, fact),
            None => None,
        }
    }

    fn add_seen(&self, number: FactId, found: &mut Vec<Sighting>) -> Result<(), AllocError>
        requires { IsSeeking self.now }
        ensures { OnOk result (Adds (types_of self.now) found.old.items found.new.items (sighted_in (graph_of self.now) (wanted_of self.now) (number ∷ []))) }
    {
        let one = self.seen(number);
        self.looking.add_sighting(found, one)
    }

    /// Adds those of some declarations that are of what is wanted.
    #[tactic(auto, using(cxx_members::proofs::Adding::adds_none, crate::proofs::Rows::row_more))]
    pub fn add_row(&self, numbers: &[FactId], found: &mut Vec<Sighting>) -> Result<(), AllocError>
        requires { IsSeeking self.now }
        ensures { OnOk result (Adds (types_of self.now) found.old.items found.new.items (sighted_in (graph_of self.now) (wanted_of self.now) numbers.now)) }
    {
        for number in numbers {
            self.add_seen(*number, found)?;
        }
        Ok(())
    }

    /// The declarations of the name in a scope.
    #[tactic(auto, using(crate::proofs::Rows::standing_is))]
    pub fn row(&self, scope: ScopeId) -> &[FactId]
        requires { IsSeeking self.now }
        ensures { standing (graph_of self.now) (cut_of self.now) (wanted_of self.now) (name_of self.now) scope ≡ sighted_in (graph_of self.now) (wanted_of self.now) result.now }
    {
        self.names
            .declared_as(self.looking.graph, scope, self.word, self.met)
    }

    /// Adds the declarations of the name in a scope that are of what is wanted.
    pub fn add_standing(&self, scope: ScopeId, found: &mut Vec<Sighting>) -> Result<(), AllocError>
        requires { IsSeeking self.now }
        ensures { OnOk result (Adds (types_of self.now) found.old.items found.new.items (standing (graph_of self.now) (cut_of self.now) (wanted_of self.now) (name_of self.now) scope)) }
    {
        self.add_row(self.row(scope), found)
    }

    /// The scope that holds a scope; that of the unit holds itself (3.3).
    pub fn outer(&self, scope: ScopeId) -> ScopeId
        requires { IsSeeking self.now }
        ensures { result ≡ parent_of (facts_of self.now) scope }
    {
        if scope.0 < self.names.scopes(self.looking.graph).0 {
            self.names.parent(self.looking.graph, scope)
        } else {
            ScopeId(0)
        }
    }

    /// Whether a scope is that of a namespace.
    pub fn is_space(&self, scope: ScopeId) -> bool
        requires { IsSeeking self.now }
        ensures { result ≡ is_space_kind (kind_of (facts_of self.now) scope) }
    {
        self.names.is_space(self.looking.graph, scope)
    }
}
