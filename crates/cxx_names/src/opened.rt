//! Namespaces (7.3.1) and using-directives (7.3.4).

ghost use Rattle.std.specs.Prelude.{◌≡◌, [], ◌∷◌, List, Some, false, length, option_map};
ghost use Rattle.cxx_model.specs.Facts.Conflicts.{same_name};
ghost use Rattle.cxx_model.specs.Facts.Declarations.{facts_at, graph_at, name_at, spelled};
ghost use Rattle.cxx_model.specs.Types.Trees.{CxxType};
ghost use Rattle.cxx_meaning.specs.Lookups.Directives.{nominated};
ghost use Rattle.cxx_reading.specs.Classes.{open_of};
ghost use Rattle.cxx_reading.specs.Linked.{home_of, is_space_at};
ghost use Rattle.cxx_reading.specs.Spaces.{first_opening, is_original_by, opened_among, opened_before as opened_by, unnamed_before as unnamed_by};
ghost use Rattle.cxx_names.specs.Index.{Notes};
ghost use Rattle.cxx_names.specs.Looked.{first_at, is_open_at, looked_up, scope_number};

use crate::looked::fact_of;
use crate::names::Names;
use cxx_graph::Graph;
use cxx_model::{Entity, FactId, Name, ScopeId};

fn is_spelled(name: &Name, word: &[u8]) -> bool
    ensures { (types : List CxxType) → result ≡ same_name (name_at types name.now) (spelled word.now) }
{
    match name {
        Name::Spelled(one) => one.as_slice() == word,
        _ => false,
    }
}

// Whether a declaration has a name in a scope.
fn is_original_at(graph: &Graph, number: FactId, scope: ScopeId, word: &[u8]) -> bool
    ensures { (types : List CxxType) → result ≡ is_original_by scope.0 (spelled word.now) (first_at types graph.now.facts (Some number)) }
{
    match fact_of(graph, number) {
        Some(fact) => fact.scope.0 == scope.0 && is_spelled(&fact.name, word),
        None => false,
    }
}

impl Names {
    /// The namespaces that the using-directives of a scope nominate, in order (7.3.4).
    #[tactic(auto, using(crate::proofs::Openings::nominated_are, crate::proofs::Openings::nominated_all))]
    pub fn directives(&self, graph: &Graph, scope: ScopeId) -> &[ScopeId]
        requires { Notes self.now graph.now.facts }
        ensures seen { (types : List CxxType) → result.now ≡ nominated (facts_at types graph.now.facts) (length graph.now.facts) scope }
        ensures all { (types : List CxxType) → result.now ≡ nominated (facts_at types graph.now.facts) (length (facts_at types graph.now.facts)) scope }
    {
        let _ = graph;
        self.kept.spaces.directives.row(&scope)
    }

    /// Whether a scope may have a using-directive: where not, none has.
    #[tactic(auto, using(crate::proofs::Openings::nominated_none, crate::proofs::Openings::nominated_none_all))]
    pub fn has_directives(&self, graph: &Graph) -> bool
        requires { Notes self.now graph.now.facts }
        ensures seen { result ≡ false → (types : List CxxType) (scope : ScopeId) → nominated (facts_at types graph.now.facts) (length graph.now.facts) scope ≡ [] }
        ensures all { result ≡ false → (types : List CxxType) (scope : ScopeId) → nominated (facts_at types graph.now.facts) (length (facts_at types graph.now.facts)) scope ≡ [] }
    {
        let _ = graph;
        !self.kept.spaces.directives.is_empty()
    }

    /// Whether a scope is that of a namespace.
    #[tactic(auto, using(crate::proofs::Openings::space_is))]
    pub fn is_space(&self, graph: &Graph, scope: ScopeId) -> bool
        requires { Notes self.now graph.now.facts }
        ensures { (types : List CxxType) → result ≡ is_space_at (graph_at types graph.now) scope.0 }
    {
        let _ = graph;
        self.kept.is_space(scope)
    }

    /// The innermost namespace round a scope (7.3.1).
    pub fn home(&self, graph: &Graph, scope: ScopeId) -> ScopeId
        requires { Notes self.now graph.now.facts }
        ensures { (types : List CxxType) → result.0 ≡ home_of (graph_at types graph.now) scope.0 }
    {
        let mut now = scope;
        for _turn in 0..scope.0 {
            if self.is_space(graph, now) {
                return now;
            }
            if now.0 == 0 {
                return now;
            }
            now = self.kept.outer(now);
        }
        if self.is_space(graph, now) {
            return now;
        }
        ScopeId(0)
    }

    // Whether a scope is that of no class and of no parameters.
    #[tactic(auto, using(crate::proofs::Outer::open_is))]
    fn is_open(&self, graph: &Graph, scope: ScopeId) -> bool
        requires { Notes self.now graph.now.facts }
        ensures { (types : List CxxType) → result ≡ is_open_at (graph_at types graph.now) scope.0 }
    {
        let _ = graph;
        self.kept.is_open(scope)
    }

    /// The innermost scope round another one, or itself, that is that of no class and of no parameters (3.3.1).
    pub fn open_scope(&self, graph: &Graph, scope: ScopeId) -> ScopeId
        requires { Notes self.now graph.now.facts }
        ensures { (types : List CxxType) → result.0 ≡ open_of (graph_at types graph.now) scope.0 }
    {
        let mut now = scope;
        for _turn in 0..scope.0 {
            if self.is_open(graph, now) {
                return now;
            }
            if now.0 == 0 {
                return now;
            }
            now = self.kept.outer(now);
        }
        if self.is_open(graph, now) {
            return now;
        }
        ScopeId(0)
    }

    // Whether a namespace has a name in a scope as its own.
    fn is_original(&self, graph: &Graph, inner: ScopeId, scope: ScopeId, word: &[u8]) -> bool
        requires { Notes self.now graph.now.facts }
        ensures { (types : List CxxType) → result ≡ is_original_by scope.0 (spelled word.now) (first_opening inner.0 (facts_at types graph.now.facts)) }
    {
        match self.kept.spaces.first_opening(inner) {
            Some(first) => is_original_at(graph, first, scope, word),
            None => false,
        }
    }

    fn opened_at(
        &self,
        graph: &Graph,
        scope: ScopeId,
        word: &[u8],
        number: FactId,
    ) -> Option<ScopeId>
        requires { Notes self.now graph.now.facts }
        ensures { (types : List CxxType) → option_map scope_number result ≡ opened_among (graph_at types graph.now) scope.0 (spelled word.now) (looked_up types graph.now.facts (number ∷ [])) }
    {
        match fact_of(graph, number) {
            Some(fact) => match fact.what {
                Entity::Namespace { inner } => {
                    if self.is_original(graph, inner, scope, word) {
                        Some(inner)
                    } else {
                        None
                    }
                }
                _ => None,
            },
            None => None,
        }
    }

    // The first namespace among some declarations that has a name in a scope as its own.
    #[tactic(auto, using(crate::proofs::Openings::opened_more))]
    fn first_opened(
        &self,
        graph: &Graph,
        scope: ScopeId,
        word: &[u8],
        numbers: &[FactId],
    ) -> Option<ScopeId>
        requires { Notes self.now graph.now.facts }
        ensures { (types : List CxxType) → option_map scope_number result ≡ opened_among (graph_at types graph.now) scope.0 (spelled word.now) (looked_up types graph.now.facts numbers.now) }
    {
        for number in numbers {
            if let Some(found) = self.opened_at(graph, scope, word, *number) {
                return Some(found);
            }
        }
        None
    }

    /// The namespace that has a name in a scope as its own (7.3.1), not as another one (7.3.2).
    #[tactic(auto, unfolding(cxx_reading::specs::Spaces::opened_before))]
    pub fn opened_before(&self, graph: &Graph, scope: ScopeId, word: &[u8]) -> Option<ScopeId>
        requires { Notes self.now graph.now.facts }
        ensures { (types : List CxxType) → option_map scope_number result ≡ opened_by (graph_at types graph.now) scope.0 (spelled word.now) }
    {
        self.first_opened(graph, scope, word, self.declared_in(graph, scope, word))
    }

    /// The unnamed namespace of a scope (7.3.1.1).
    pub fn unnamed_before(&self, graph: &Graph, scope: ScopeId) -> Option<ScopeId>
        requires { Notes self.now graph.now.facts }
        ensures { (types : List CxxType) → option_map scope_number result ≡ unnamed_by (graph_at types graph.now) scope.0 }
    {
        let _ = graph;
        self.kept.spaces.first_unnamed(scope)
    }
}
