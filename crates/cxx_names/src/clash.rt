//! The first declaration with which a new one conflicts (3.3), among those of its name.

ghost use Rattle.std.specs.Prelude.{◌≡◌, ◌&&◌, ◌||◌, not, [], ◌∷◌, length, None, Some, option_map, if◌then◌else◌, List};
ghost use Rattle.std.specs.Option.{option_to_list};
ghost use Rattle.cxx_model.specs.declared.facts.Name.TheVariants.{Spelled as SpelledName};
ghost use Rattle.cxx_model.specs.Facts.Conflicts.{conflicts, first_conflict as first_conflict_of, is_closed as is_closed_by};
ghost use Rattle.cxx_model.specs.Facts.Declarations.{CxxFact, fact_at, facts_at, graph_at, spelled};
ghost use Rattle.cxx_model.specs.Facts.Fitted.{IsFactBelow, IsGraphBelow};
ghost use Rattle.cxx_model.specs.Types.Trees.{CxxType};
ghost use Rattle.cxx_reading.specs.Linked.{clash_among, rescoped};
ghost use Rattle.cxx_reading.specs.Seen.{declared_in as declared_by, fact_numbers, numbered_at};
ghost use Rattle.cxx_names.specs.Clashes.{IsPlain, NoTemplates, conflict_in, conflict_in_scopes, number_in, sooner as sooner_of};
ghost use Rattle.cxx_names.specs.Index.{Notes};
ghost use Rattle.cxx_names.specs.Looked.{looked_up};

use crate::alike::is_ended;
use crate::looked::fact_of;
use crate::meant::Meaning;
use crate::names::Names;
use crate::pair::{of_one_name, stand_together};
use cxx_graph::Graph;
use cxx_model::{Fact, FactId, Name, ScopeId};
use cxx_types::TypeTable;

fn sooner(one: Option<FactId>, two: Option<FactId>) -> Option<FactId>
    ensures { option_map number_in result ≡ sooner_of (option_map number_in one) (option_map number_in two) }
{
    match one {
        None => two,
        Some(first) => match two {
            None => Some(first),
            Some(second) => {
                if second.0 < first.0 {
                    Some(second)
                } else {
                    Some(first)
                }
            }
        },
    }
}

// Two declarations of one name in one scope, which is that of parameters or where they may not stand together.
fn is_clash(one_scope: bool, one_name: bool, parameters: bool, stand: bool) -> bool
    ensures { result ≡ (one_scope && (one_name && (parameters || not stand))) }
{
    one_scope && (one_name && (parameters || !stand))
}

fn either(one: bool, two: bool) -> bool
    ensures { result ≡ (one || two) }
{
    one || two
}

impl Names {
    // Whether a scope is that of a class whose end was read (9.2).
    #[tactic(auto, using(crate::proofs::Clashing::closed_is))]
    fn is_closed(&self, graph: &Graph, scope: ScopeId) -> bool
        requires { Notes self.now graph.now.facts }
        ensures { (types : List CxxType) → result ≡ is_closed_by (facts_at types graph.now.facts) scope.0 }
    {
        match self.kept.class_of(scope) {
            Some(class) => is_ended(graph, class),
            None => false,
        }
    }

    // Whether a new declaration conflicts with another with a number, as if that stood in some scope.
    fn clashes(
        &self,
        graph: &Graph,
        types: &TypeTable,
        number: FactId,
        scope: ScopeId,
        old: &Fact,
        new: &Fact,
    ) -> bool
        requires noted { Notes self.now graph.now.facts }
        requires below { IsGraphBelow (length types.now) graph.now }
        requires old { IsFactBelow (length types.now) old.now }
        requires new { IsFactBelow (length types.now) new.now }
        requires plain { IsPlain new.now }
        requires templates { NoTemplates graph.now.facts }
        ensures { result ≡ conflicts (graph_at types.now graph.now) number.0 (rescoped scope.0 (fact_at types.now old.now)) (fact_at types.now new.now) }
    {
        let first = self.kept.is_parameters(scope);
        let second = self.kept.is_parameters(new.scope);
        let in_class = either(self.kept.is_class(scope), self.kept.is_class(new.scope));
        let closed = either(
            self.is_closed(graph, scope),
            self.is_closed(graph, new.scope),
        );
        let earlier = Meaning {
            number,
            what: old.what,
        };
        let later = Meaning {
            number: FactId(graph.length()),
            what: new.what,
        };
        let stands = stand_together(graph, types, in_class, closed, earlier, later);
        let named = of_one_name(old, new);
        let one = self.kept.is_one_scope(scope, new.scope);
        is_clash(one, named, either(first, second), stands)
    }

    #[tactic(auto, using(crate::proofs::Clashing::fact_below))]
    fn clashes_at(&self, graph: &Graph, types: &TypeTable, number: FactId, new: &Fact) -> bool
        requires noted { Notes self.now graph.now.facts }
        requires below { IsGraphBelow (length types.now) graph.now }
        requires new { IsFactBelow (length types.now) new.now }
        requires plain { IsPlain new.now }
        requires templates { NoTemplates graph.now.facts }
        ensures { (if result then Some number.0 else None) ≡ conflict_in (graph_at types.now graph.now) (fact_at types.now new.now) (looked_up types.now graph.now.facts (number ∷ [])) }
    {
        match fact_of(graph, number) {
            Some(fact) => self.clashes(graph, types, number, fact.scope, fact, new),
            None => false,
        }
    }

    #[tactic(auto, using(crate::proofs::Clashing::fact_below))]
    fn clashes_here(&self, graph: &Graph, types: &TypeTable, number: FactId, new: &Fact) -> bool
        requires noted { Notes self.now graph.now.facts }
        requires below { IsGraphBelow (length types.now) graph.now }
        requires new { IsFactBelow (length types.now) new.now }
        requires plain { IsPlain new.now }
        requires templates { NoTemplates graph.now.facts }
        ensures { (if result then Some number.0 else None) ≡ clash_among (graph_at types.now graph.now) (fact_at types.now new.now) (looked_up types.now graph.now.facts (number ∷ [])) }
    {
        match fact_of(graph, number) {
            Some(fact) => self.clashes(graph, types, number, new.scope, fact, new),
            None => false,
        }
    }

    // The first of some declarations with which a new one conflicts, as if they stood in its scope.
    fn first_here(
        &self,
        graph: &Graph,
        types: &TypeTable,
        numbers: &[FactId],
        new: &Fact,
    ) -> Option<FactId>
        requires noted { Notes self.now graph.now.facts }
        requires below { IsGraphBelow (length types.now) graph.now }
        requires new { IsFactBelow (length types.now) new.now }
        requires plain { IsPlain new.now }
        requires templates { NoTemplates graph.now.facts }
        ensures { option_map number_in result ≡ clash_among (graph_at types.now graph.now) (fact_at types.now new.now) (looked_up types.now graph.now.facts numbers.now) }
    {
        for number in numbers {
            if self.clashes_here(graph, types, *number, new) {
                return Some(*number);
            }
        }
        None
    }

    /// The first of some declarations with which a new one conflicts, as if they stood in its scope (3.5).
    #[tactic(auto, using(crate::proofs::Looking::numbered_is))]
    pub fn clash_among(
        &self,
        graph: &Graph,
        types: &TypeTable,
        numbers: &[FactId],
        new: &Fact,
    ) -> Option<FactId>
        requires noted { Notes self.now graph.now.facts }
        requires below { IsGraphBelow (length types.now) graph.now }
        requires new { IsFactBelow (length types.now) new.now }
        requires plain { IsPlain new.now }
        requires templates { NoTemplates graph.now.facts }
        ensures { option_map number_in result ≡ clash_among (graph_at types.now graph.now) (fact_at types.now new.now) (numbered_at (graph_at types.now graph.now) (fact_numbers numbers.now)) }
    {
        self.first_here(graph, types, numbers, new)
    }

    // The first of some declarations with which a new one conflicts.
    fn first_of(
        &self,
        graph: &Graph,
        types: &TypeTable,
        numbers: &[FactId],
        new: &Fact,
    ) -> Option<FactId>
        requires noted { Notes self.now graph.now.facts }
        requires below { IsGraphBelow (length types.now) graph.now }
        requires new { IsFactBelow (length types.now) new.now }
        requires plain { IsPlain new.now }
        requires templates { NoTemplates graph.now.facts }
        ensures { option_map number_in result ≡ conflict_in (graph_at types.now graph.now) (fact_at types.now new.now) (looked_up types.now graph.now.facts numbers.now) }
    {
        for number in numbers {
            if self.clashes_at(graph, types, *number, new) {
                return Some(*number);
            }
        }
        None
    }

    // Declarations of a name in a scope, with which the same declarations conflict as with all of them.
    fn representatives_in(&self, graph: &Graph, scope: ScopeId, word: &[u8]) -> &[FactId]
        requires { Notes self.now graph.now.facts }
        ensures { (types : List CxxType) (new : CxxFact) → conflict_in (graph_at types graph.now) new (looked_up types graph.now.facts result.now) ≡ conflict_in (graph_at types graph.now) new (declared_by (graph_at types graph.now) scope.0 (spelled word.now)) }
    {
        let _ = graph;
        self.words.met_as(word).row_in(&self.representatives, scope)
    }

    // The sooner of a declaration and the first one of a name in a scope with which a new one conflicts.
    fn sooner_in(
        &self,
        graph: &Graph,
        types: &TypeTable,
        scope: ScopeId,
        word: &[u8],
        new: &Fact,
        best: Option<FactId>,
    ) -> Option<FactId>
        requires noted { Notes self.now graph.now.facts }
        requires below { IsGraphBelow (length types.now) graph.now }
        requires new { IsFactBelow (length types.now) new.now }
        requires plain { IsPlain new.now }
        requires templates { NoTemplates graph.now.facts }
        ensures { option_map number_in result ≡ sooner_of (option_map number_in best) (conflict_in (graph_at types.now graph.now) (fact_at types.now new.now) (declared_by (graph_at types.now graph.now) scope.0 (spelled word.now))) }
    {
        let here = self.representatives_in(graph, scope, word);
        let first = self.first_of(graph, types, here, new);
        sooner(best, first)
    }

    // The same in each of some scopes.
    fn soonest_in(
        &self,
        graph: &Graph,
        types: &TypeTable,
        scopes: &[ScopeId],
        word: &[u8],
        new: &Fact,
        best: Option<FactId>,
    ) -> Option<FactId>
        requires noted { Notes self.now graph.now.facts }
        requires below { IsGraphBelow (length types.now) graph.now }
        requires new { IsFactBelow (length types.now) new.now }
        requires plain { IsPlain new.now }
        requires templates { NoTemplates graph.now.facts }
        ensures { option_map number_in result ≡ conflict_in_scopes (graph_at types.now graph.now) (fact_at types.now new.now) (spelled word.now) scopes.now (option_map number_in best) }
    {
        let mut best = best;
        for scope in scopes {
            best = self.sooner_in(graph, types, *scope, word, new, best);
        }
        best
    }

    // The same in a scope, where there is one.
    fn soonest_held(
        &self,
        graph: &Graph,
        types: &TypeTable,
        scope: Option<ScopeId>,
        word: &[u8],
        new: &Fact,
        best: Option<FactId>,
    ) -> Option<FactId>
        requires noted { Notes self.now graph.now.facts }
        requires below { IsGraphBelow (length types.now) graph.now }
        requires new { IsFactBelow (length types.now) new.now }
        requires plain { IsPlain new.now }
        requires templates { NoTemplates graph.now.facts }
        ensures { option_map number_in result ≡ conflict_in_scopes (graph_at types.now graph.now) (fact_at types.now new.now) (spelled word.now) (option_to_list scope) (option_map number_in best) }
    {
        match scope {
            Some(scope) => self.sooner_in(graph, types, scope, word, new, best),
            None => best,
        }
    }

    // The first declaration of a name with which a new one conflicts.
    fn first_named(
        &self,
        graph: &Graph,
        types: &TypeTable,
        word: &[u8],
        new: &Fact,
    ) -> Option<FactId>
        requires noted { Notes self.now graph.now.facts }
        requires below { IsGraphBelow (length types.now) graph.now }
        requires new { IsFactBelow (length types.now) new.now }
        requires plain { IsPlain new.now }
        requires templates { NoTemplates graph.now.facts }
        requires named { new.now.name ≡ SpelledName word.now }
        ensures { option_map number_in result ≡ first_conflict_of (graph_at types.now graph.now) (fact_at types.now new.now) }
    {
        let scope = new.scope;
        let own = self.sooner_in(graph, types, scope, word, new, None);
        let holder = self.kept.holder_of_block(scope);
        let held = self.soonest_held(graph, types, holder, word, new, own);
        let blocks = self.kept.blocks.row(&scope);
        self.soonest_in(graph, types, blocks, word, new, held)
    }

    /// The first declaration with which a new one conflicts (3.3).
    #[tactic(auto, using(crate::proofs::Clashing::unnamed_nothing))]
    pub fn first_conflict(&self, graph: &Graph, types: &TypeTable, new: &Fact) -> Option<FactId>
        requires noted { Notes self.now graph.now.facts }
        requires below { IsGraphBelow (length types.now) graph.now }
        requires new { IsFactBelow (length types.now) new.now }
        requires plain { IsPlain new.now }
        requires templates { NoTemplates graph.now.facts }
        ensures { option_map number_in result ≡ first_conflict_of (graph_at types.now graph.now) (fact_at types.now new.now) }
    {
        match &new.name {
            Name::Spelled(word) => self.first_named(graph, types, word.as_slice(), new),
            _ => None,
        }
    }
}
