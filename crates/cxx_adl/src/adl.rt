//! Argument-dependent lookup of a name (3.4.2).

ghost use Rattle.std.specs.Prelude.{◌≡◌, ◌<◌, ◌∷◌, [], length, List, OnOk};
ghost use Rattle.std.specs.List.{slice_get};
ghost use Rattle.cxx_model.specs.declared.types.FactId.{FactId as FactNumber};
ghost use Rattle.cxx_model.specs.declared.types.ScopeId.{ScopeId as ScopeNumber};
ghost use Rattle.cxx_model.specs.Types.Trees.{CxxType};
ghost use Rattle.cxx_model.specs.Facts.Declarations.{declares_at, fact_at, graph_at, name_at};
ghost use Rattle.cxx_model.specs.Facts.Entities.{is_seen as is_seen_at};
ghost use Rattle.cxx_model.specs.Facts.Fitted.{IsFactBelow, IsGraphBelow, IsNameBelow};
ghost use Rattle.cxx_meaning.specs.Lookups.Associated.{adl as adl_of, befriended, is_target as is_target_named, standing_in_each, target_by, target_of as target_among};
ghost use Rattle.cxx_meaning.specs.Lookups.Gathered.{gathered, with_facts};
ghost use Rattle.cxx_meaning.specs.Lookups.Sightings.{befriends as befriends_by, is_by_friend as is_made_by_friend, sighting_in, sighting_of, standing};
ghost use Rattle.cxx_meaning.specs.Lookups.Wanted.{any_name};
ghost use Rattle.cxx_adl.specs.Answers.{Answers};
ghost use Rattle.cxx_adl.specs.Functions.{firsts};
ghost use Rattle.cxx_adl.specs.Standing.{given_at, sighting_list, stands};
ghost use Rattle.cxx_adl.specs.Views.{facts_of, graph_of, holders_of};

use crate::asking::Asking;
use crate::facts::add_fact;
use crate::functions::Meant;
use crate::numbers::is_among;
use crate::scopes::Holder;
use cxx_graph::Graph;
use cxx_model::{Associated, Entity, Fact, FactId, FactList, Name, ScopeId, Steps, Wait};
use cxx_types::TypeTable;
use std::alloc::{AllocError, Global};
use std::sync::ledger::Ledger;

impl Asking<'_> {
    // Adds the first fact of a function or a function template.
    #[tactic(auto, unfolding(cxx_meaning::specs::Lookups::Gathered::with_facts))]
    fn add_function(&self, found: &mut Vec<FactId>, meant: Meant) -> Result<(), AllocError>
        ensures { (scope : ScopeNumber) (itself : FactNumber) → OnOk result (found.new.items ≡ with_facts found.old.items (firsts (graph_of self.now) (record { scope = scope; itself = itself; meant = meant.number; what = declares_at self.now.types.now meant.what } ∷ []))) }
    {
        match self.first_of(meant) {
            Some(fact) => add_fact(found, fact),
            None => Ok(()),
        }
    }

    // Adds the function for which a fact stands.
    fn add_meant<L: Ledger>(
        &self,
        number: FactId,
        fact: &Fact,
        found: &mut Vec<FactId>,
        steps: &mut Steps<L>,
    ) -> Result<(), AllocError>
        requires { IsGraphBelow (length self.now.types.now) self.now.graph.now }
        ensures { OnOk result (found.new.items ≡ with_facts found.old.items (firsts (graph_of self.now) (sighting_of (facts_of self.now) number.0 (fact_at self.now.types.now fact.now) ∷ []))) }
    {
        let meant = self.meant(number, fact.what, steps);
        self.add_function(found, meant)
    }

    // ---- namespaces

    // Whether a fact is seen at a cut.
    fn is_seen(&self, holders: &[Holder], cut: FactId, number: FactId, fact: &Fact) -> bool
        requires { holders.now ≡ holders_of self.now.graph.now.facts }
        ensures { result ≡ is_seen_at (facts_of self.now) cut.0 number.0 (fact_at self.now.types.now fact.now) }
    {
        number.0 < cut.0 || !self.is_space(holders, fact.scope)
    }

    // Whether only a friend declaration, which stands directly behind it, makes a declaration of a namespace.
    #[tactic(auto, using(crate::proofs::Bases::fact_is), unfolding(cxx_meaning::specs::Lookups::Sightings::is_by_friend))]
    fn is_by_friend<L: Ledger>(
        &self,
        holders: &[Holder],
        number: FactId,
        fact: &Fact,
        steps: &mut Steps<L>,
    ) -> bool
        requires graph { IsGraphBelow (length self.now.types.now) self.now.graph.now }
        requires holders { holders.now ≡ holders_of self.now.graph.now.facts }
        ensures { result ≡ is_made_by_friend (facts_of self.now) number.0 (fact_at self.now.types.now fact.now) }
    {
        if !self.is_space(holders, fact.scope) {
            return false;
        }
        match self.read(u64::from(number.0) + 1, steps) {
            Some(next) => befriends(next.what, number),
            None => false,
        }
    }

    // Whether a fact is a declaration of a name in a scope that is seen at a cut.
    fn is_standing<L: Ledger>(
        &self,
        holders: &[Holder],
        cut: FactId,
        name: &Name,
        scope: ScopeId,
        number: FactId,
        fact: &Fact,
        steps: &mut Steps<L>,
    ) -> bool
        requires graph { IsGraphBelow (length self.now.types.now) self.now.graph.now }
        requires holders { holders.now ≡ holders_of self.now.graph.now.facts }
        requires name { IsNameBelow (length self.now.types.now) name.now }
        requires fact { IsFactBelow (length self.now.types.now) fact.now }
        ensures { result ≡ stands (graph_of self.now) cut.0 (name_at self.now.types.now name.now) scope number.0 (fact_at self.now.types.now fact.now) }
    {
        fact.scope.0 == scope.0
            && (self.is_named(name, fact)
                && (self.is_seen(holders, cut, number, fact)
                    && !self.is_by_friend(holders, number, fact, steps)))
    }

    // Adds a function that a fact declares, where it stands in the scope.
    #[tactic(auto, using(crate::proofs::Standing::stands_true, crate::proofs::Standing::stands_false, crate::proofs::Bases::fact_is), unfolding(cxx_meaning::specs::Lookups::Gathered::with_facts))]
    fn add_if_standing<L: Ledger>(
        &self,
        holders: &[Holder],
        cut: FactId,
        name: &Name,
        scope: ScopeId,
        number: FactId,
        found: &mut Vec<FactId>,
        steps: &mut Steps<L>,
    ) -> Result<(), AllocError>
        requires graph { IsGraphBelow (length self.now.types.now) self.now.graph.now }
        requires holders { holders.now ≡ holders_of self.now.graph.now.facts }
        requires name { IsNameBelow (length self.now.types.now) name.now }
        ensures { OnOk result (found.new.items ≡ with_facts found.old.items (firsts (graph_of self.now) (given_at (sighting_in (graph_of self.now) cut.0 any_name (name_at self.now.types.now name.now) scope) number.0 (slice_get (facts_of self.now) number.0)))) }
    {
        match self.read(u64::from(number.0), steps) {
            None => Ok(()),
            Some(fact) => {
                if self.is_standing(holders, cut, name, scope, number, fact, steps) {
                    self.add_meant(number, fact, found, steps)
                } else {
                    Ok(())
                }
            }
        }
    }

    // Adds the functions of a name in a scope that are seen at a cut.
    #[tactic(auto, using(crate::proofs::Standing::facts_more, crate::proofs::Standing::standing_are), unfolding(cxx_meaning::specs::Lookups::Gathered::with_facts))]
    fn add_standing<L: Ledger>(
        &self,
        holders: &[Holder],
        cut: FactId,
        name: &Name,
        scope: ScopeId,
        found: &mut Vec<FactId>,
        steps: &mut Steps<L>,
    ) -> Result<(), AllocError>
        requires graph { IsGraphBelow (length self.now.types.now) self.now.graph.now }
        requires holders { holders.now ≡ holders_of self.now.graph.now.facts }
        requires name { IsNameBelow (length self.now.types.now) name.now }
        ensures { OnOk result (found.new.items ≡ with_facts found.old.items (firsts (graph_of self.now) (standing (graph_of self.now) cut.0 any_name (name_at self.now.types.now name.now) scope))) }
    {
        for number in self.graph.facts_of(scope) {
            self.add_if_standing(holders, cut, name, scope, *number, found, steps)?;
        }
        Ok(())
    }

    // Adds the functions of a name in some namespaces that are seen at a cut.
    #[tactic(auto, using(crate::proofs::Standing::spaces_more), unfolding(cxx_meaning::specs::Lookups::Gathered::with_facts, cxx_meaning::specs::Lookups::Associated::standing_in_each))]
    fn add_in_spaces<L: Ledger>(
        &self,
        holders: &[Holder],
        cut: FactId,
        name: &Name,
        spaces: &[u32],
        found: &mut Vec<FactId>,
        steps: &mut Steps<L>,
    ) -> Result<(), AllocError>
        requires graph { IsGraphBelow (length self.now.types.now) self.now.graph.now }
        requires holders { holders.now ≡ holders_of self.now.graph.now.facts }
        requires name { IsNameBelow (length self.now.types.now) name.now }
        ensures { OnOk result (found.new.items ≡ with_facts found.old.items (firsts (graph_of self.now) (standing_in_each (graph_of self.now) cut.0 (name_at self.now.types.now name.now) spaces.now))) }
    {
        for space in spaces {
            self.add_standing(holders, cut, name, ScopeId(*space), found, steps)?;
        }
        Ok(())
    }

    // ---- friends

    // Whether a fact is a declaration of a name in a namespace.
    fn is_target(&self, holders: &[Holder], name: &Name, fact: &Fact) -> bool
        requires holders { holders.now ≡ holders_of self.now.graph.now.facts }
        requires name { IsNameBelow (length self.now.types.now) name.now }
        requires fact { IsFactBelow (length self.now.types.now) fact.now }
        ensures { result ≡ is_target_named (graph_of self.now) (name_at self.now.types.now name.now) (fact_at self.now.types.now fact.now) }
    {
        self.is_space(holders, fact.scope) && self.is_named(name, fact)
    }

    // Adds the function that a friend declaration declares, where it is of the name.
    #[tactic(auto, using(crate::proofs::Standing::target_none, crate::proofs::Standing::target_other, crate::proofs::Standing::target_is, crate::proofs::Bases::fact_is), unfolding(cxx_meaning::specs::Lookups::Gathered::with_facts))]
    fn add_target<L: Ledger>(
        &self,
        holders: &[Holder],
        name: &Name,
        target: FactId,
        found: &mut Vec<FactId>,
        steps: &mut Steps<L>,
    ) -> Result<(), AllocError>
        requires graph { IsGraphBelow (length self.now.types.now) self.now.graph.now }
        requires holders { holders.now ≡ holders_of self.now.graph.now.facts }
        requires name { IsNameBelow (length self.now.types.now) name.now }
        ensures { OnOk result (found.new.items ≡ with_facts found.old.items (firsts (graph_of self.now) (sighting_list (target_by (graph_of self.now) (name_at self.now.types.now name.now) (Some target))))) }
    {
        match self.read(u64::from(target.0), steps) {
            None => Ok(()),
            Some(fact) => {
                if self.is_target(holders, name, fact) {
                    self.add_meant(target, fact, found, steps)
                } else {
                    Ok(())
                }
            }
        }
    }

    // Adds the function of the name that a fact declares as a friend of one of some classes.
    #[tactic(auto, using(crate::proofs::Bases::fact_is), unfolding(cxx_meaning::specs::Lookups::Gathered::with_facts, cxx_meaning::specs::Lookups::Associated::befriended))]
    fn add_if_friend<L: Ledger>(
        &self,
        holders: &[Holder],
        name: &Name,
        classes: &[u32],
        number: u32,
        found: &mut Vec<FactId>,
        steps: &mut Steps<L>,
    ) -> Result<(), AllocError>
        requires graph { IsGraphBelow (length self.now.types.now) self.now.graph.now }
        requires holders { holders.now ≡ holders_of self.now.graph.now.facts }
        requires name { IsNameBelow (length self.now.types.now) name.now }
        ensures { OnOk result (found.new.items ≡ with_facts found.old.items (firsts (graph_of self.now) (given_at (befriended (graph_of self.now) (name_at self.now.types.now name.now) classes.now) number (slice_get (facts_of self.now) number)))) }
    {
        match self.read(u64::from(number), steps) {
            None => Ok(()),
            Some(fact) => match target_of(classes, fact.what) {
                None => Ok(()),
                Some(target) => self.add_target(holders, name, target, found, steps),
            },
        }
    }

    // Adds the functions of a name that some classes declare as friends.
    #[tactic(auto, using(crate::proofs::Standing::friends_more, crate::proofs::Standing::friends_all))]
    fn add_friends<L: Ledger>(
        &self,
        holders: &[Holder],
        name: &Name,
        classes: &[u32],
        found: &mut Vec<FactId>,
        steps: &mut Steps<L>,
    ) -> Result<(), AllocError>
        requires graph { IsGraphBelow (length self.now.types.now) self.now.graph.now }
        requires holders { holders.now ≡ holders_of self.now.graph.now.facts }
        requires name { IsNameBelow (length self.now.types.now) name.now }
        ensures { OnOk result (found.new.items ≡ with_facts found.old.items (firsts (graph_of self.now) (gathered (befriended (graph_of self.now) (name_at self.now.types.now name.now) classes.now) 0 (facts_of self.now)))) }
    {
        for number in 0..self.graph.length() {
            self.add_if_friend(holders, name, classes, number, found, steps)?;
        }
        Ok(())
    }
}

// Whether a fact is a friend declaration of the one with a number.
fn befriends(what: Entity, number: FactId) -> bool
    ensures { (types : List CxxType) → result ≡ befriends_by number.0 (declares_at types what) }
{
    match what {
        Entity::Friend { target, .. } => target.0 == number.0,
        _ => false,
    }
}

// What a friend declaration of one of some classes declares.
fn target_of(classes: &[u32], what: Entity) -> Option<FactId>
    ensures { (types : List CxxType) → result ≡ target_among classes.now (declares_at types what) }
{
    match what {
        Entity::Friend { class, target } => {
            if is_among(classes, class.0) {
                Some(target)
            } else {
                None
            }
        }
        _ => None,
    }
}

/// The functions and function templates of a name that are seen at a cut in the associated namespaces, without their
/// directives, and those that the associated classes declare as friends (3.4.2). Each is named by its first fact; they
/// ascend. No class is needed for it.
#[tactic(auto, using(crate::proofs::Standing::adl_is))]
pub fn adl_set<L: Ledger>(
    alloc: Global,
    graph: &Graph,
    types: &TypeTable,
    sets: &Associated,
    name: &Name,
    cut: FactId,
    steps: &mut Steps<L>,
) -> Result<FactList, Wait>
    requires graph_below { IsGraphBelow (length types.now) graph.now }
    requires name_below { IsNameBelow (length types.now) name.now }
    ensures { Answers result (Ok (adl_of (graph_at types.now graph.now) sets.now (name_at types.now name.now) cut.0)) }
{
    let asking = Asking {
        alloc,
        graph,
        types,
    };
    let holders = asking.read_holders(steps)?;
    let mut found = Vec::new(alloc);
    asking.add_in_spaces(
        &holders,
        cut,
        name,
        sets.spaces.as_slice(),
        &mut found,
        steps,
    )?;
    asking.add_friends(&holders, name, sets.classes.as_slice(), &mut found, steps)?;
    Ok(FactList::from_vec(found))
}
