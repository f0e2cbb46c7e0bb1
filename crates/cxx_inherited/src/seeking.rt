//! What a lookup reads: the facts of a graph, the index of their names, and the table of their types.

ghost use Rattle.std.specs.Prelude.{◌≡◌, length, option_map, IfSome};
ghost use Rattle.std.specs.List.{slice_get};
ghost use Rattle.std.specs.Option.{is_some, option_copied};
ghost use Rattle.cxx_model.specs.Facts.Declarations.{fact_at};
ghost use Rattle.cxx_model.specs.Facts.Fitted.{IsEntityBelow, IsFactBelow};
ghost use Rattle.cxx_meaning.specs.Lookups.Sightings.{sighting_of};
ghost use Rattle.cxx_members.specs.Sighted.{sighting_at};
ghost use Rattle.cxx_inherited.specs.Rows.{is_sighted, row_of, sighted};
ghost use Rattle.cxx_inherited.specs.Views.{IsSeeking, facts_of, graph_of, name_of, scopes_of_class, types_of, wanted_of};

use cxx_graph::Graph;
use cxx_members::{Looking, Sighting, Wanted};
use cxx_model::{ClassId, Entity, Fact, FactId, ScopeId};
use cxx_names::{MetWord, Names};

/// A spelled name that is looked up, and what for.
#[derive(Clone, Copy)]
pub(crate) struct Seeking<'a> {
    pub looking: Looking<'a>,
    pub names: &'a Names,
    pub wanted: Wanted,
    pub word: &'a [u8],
    /// What the word is among the names that were met.
    pub met: MetWord,
}

fn fact_of(graph: &Graph, number: FactId) -> Option<&Fact>
    ensures { option_copied result ≡ slice_get graph.now.facts number.0 }
{
    graph.facts().get(number.0 as usize)
}

impl Seeking<'_> {
    /// The fact with a number.
    #[tactic(auto, using(cxx_members::proofs::Kept::fact_below))]
    pub fn fact(&self, number: FactId) -> Option<&Fact>
        requires { IsSeeking self.now }
        ensures is { option_copied result ≡ slice_get self.now.looking.graph.now.facts number.0 }
        ensures below { IfSome result (λ fact. IsFactBelow (length (types_of self.now)) fact.now) }
    {
        fact_of(self.looking.graph, number)
    }

    // A declaration, and the fact for which it stands (7.3.3).
    #[tactic(auto, using(cxx_members::proofs::Kept::fact_is))]
    fn sighting(&self, number: FactId, fact: &Fact) -> Sighting
        requires seeking { IsSeeking self.now }
        requires below { IsFactBelow (length (types_of self.now)) fact.now }
        ensures is { sighting_at (types_of self.now) result ≡ sighting_of (facts_of self.now) number.0 (fact_at (types_of self.now) fact.now) }
        ensures below { IsEntityBelow (length (types_of self.now)) result.what }
    {
        match fact.what {
            Entity::Using { target } => match self.fact(target) {
                Some(meant) => Sighting {
                    scope: fact.scope,
                    itself: number,
                    meant: target,
                    what: meant.what,
                },
                None => Sighting {
                    scope: fact.scope,
                    itself: number,
                    meant: target,
                    what: fact.what,
                },
            },
            _ => Sighting {
                scope: fact.scope,
                itself: number,
                meant: number,
                what: fact.what,
            },
        }
    }

    /// The declaration with a number, where it is of what is wanted.
    #[tactic(auto, using(cxx_members::proofs::Kept::fact_is))]
    pub fn seen(&self, number: FactId) -> Option<Sighting>
        requires { IsSeeking self.now }
        ensures is { option_map (sighting_at (types_of self.now)) result ≡ sighted (graph_of self.now) (wanted_of self.now) number.0 (slice_get (facts_of self.now) number.0) }
        ensures below { IfSome result (λ one. IsEntityBelow (length (types_of self.now)) one.what) }
    {
        match self.fact(number) {
            Some(fact) => {
                let one = self.sighting(number, fact);
                self.looking.wanted_one(self.wanted, one)
            }
            None => None,
        }
    }

    /// The declarations of the name in a scope, in order.
    #[tactic(auto, using(crate::proofs::Declaring::row_is))]
    pub fn row(&self, scope: ScopeId) -> &[FactId]
        requires { IsSeeking self.now }
        ensures { result.now ≡ row_of (graph_of self.now) (name_of self.now) scope }
    {
        self.names
            .declared_as(self.looking.graph, scope, self.word, self.met)
    }

    /// The scopes of a class, in order (9.2).
    pub fn scopes(&self, class: ClassId) -> &[ScopeId]
        requires { IsSeeking self.now }
        ensures { result.now ≡ scopes_of_class self.now class }
    {
        self.names.scopes_of_class(self.looking.graph, class)
    }
}
