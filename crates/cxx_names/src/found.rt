//! What is declared in a scope, and what declarations that were found are (3.3, 3.3.7, 3.4.4).

ghost use Rattle.std.specs.Prelude.{◌≡◌, ◌<◌, List, length, option_map};
ghost use Rattle.std.specs.List.{slice_get};
ghost use Rattle.cxx_model.specs.Facts.Conflicts.{are_parameters};
ghost use Rattle.cxx_model.specs.Facts.Declarations.{facts_at, graph_at, spelled};
ghost use Rattle.cxx_model.specs.Facts.Entities.{scope_kinds};
ghost use Rattle.cxx_model.specs.Facts.Fitted.{IsGraphBelow};
ghost use Rattle.cxx_model.specs.Types.Numbers.{type_at};
ghost use Rattle.cxx_model.specs.Types.Trees.{CxxType};
ghost use Rattle.cxx_meaning.specs.Conversions.Enumerations.{values_in};
ghost use Rattle.cxx_meaning.specs.Lookups.Associated.{scope_of_class as scope_of_a_class, scope_of_enumeration as scope_of_one};
ghost use Rattle.cxx_meaning.specs.Lookups.Member.{class_of_scope as class_of_one};
ghost use Rattle.cxx_reading.specs.Declaring.{enumeration_in, first_function as first_function_by, first_object as first_object_by};
ghost use Rattle.cxx_reading.specs.Seen.{fact_numbers, kind_of_found as kind_of_all, declared_in as declared_by, numbered_at, parent_of};
ghost use Rattle.cxx_reading.specs.Paths.{first_space as first_space_by};
ghost use Rattle.cxx_names.specs.Holders.{held_from};
ghost use Rattle.cxx_names.specs.Index.{Notes, friends_of, numbers_in, of_class};
ghost use Rattle.cxx_reading.specs.Classes.{first_class as first_class_by};
ghost use Rattle.cxx_names.specs.Looked.{class_named_at, enumeration_number, looked_up, scope_number};
ghost use Rattle.cxx_names.specs.Words.{IsMetAs};

use crate::looked::{
    NamedClass, first_class_of, first_enumeration_of, first_function_of, first_object_of,
    first_space_of, kind_of,
};
use crate::names::Names;
use crate::words::MetWord;
use cxx_graph::Graph;
use cxx_model::{ClassId, EnumId, FactId, Kind, ScopeId, TypeId};
use cxx_types::TypeTable;

/// What declarations that were found are to a reader (3.3.7).
#[tactic(auto, using(crate::proofs::Looking::numbered_is))]
pub fn kind_of_found(graph: &Graph, numbers: &[FactId]) -> Kind
    ensures { (types : List CxxType) → result ≡ kind_of_all (graph_at types graph.now) (numbered_at (graph_at types graph.now) (fact_numbers numbers.now)) }
{
    kind_of(graph, numbers)
}

/// The first of declarations that were found that is one of an object.
#[tactic(auto, using(crate::proofs::Looking::numbered_is))]
pub fn first_object(graph: &Graph, numbers: &[FactId]) -> Option<FactId>
    ensures { (types : List CxxType) → result ≡ first_object_by (numbered_at (graph_at types graph.now) (fact_numbers numbers.now)) }
{
    first_object_of(graph, numbers)
}

/// The first of declarations that were found that is one of the function with the parameters of a type (13.1).
#[tactic(auto, using(crate::proofs::Looking::numbered_is))]
pub fn first_function(
    graph: &Graph,
    types: &TypeTable,
    of: TypeId,
    numbers: &[FactId],
) -> Option<FactId>
    requires of { of.0 < length types.now }
    requires below { IsGraphBelow (length types.now) graph.now }
    ensures { result ≡ first_function_by (type_at types.now of.0) (numbered_at (graph_at types.now graph.now) (fact_numbers numbers.now)) }
{
    first_function_of(graph, types, of, numbers)
}

/// The first enumeration among declarations that were found (7.1.5.3).
#[tactic(auto, using(crate::proofs::Looking::numbered_is))]
pub fn first_enumeration(graph: &Graph, numbers: &[FactId]) -> Option<EnumId>
    ensures { (types : List CxxType) → option_map enumeration_number result ≡ enumeration_in (numbered_at (graph_at types graph.now) (fact_numbers numbers.now)) }
{
    first_enumeration_of(graph, numbers)
}

/// The first class among declarations that were found (7.1.5.3).
#[tactic(auto, using(crate::proofs::Looking::numbered_is))]
pub fn first_class(graph: &Graph, numbers: &[FactId]) -> Option<NamedClass>
    ensures { (types : List CxxType) → option_map class_named_at result ≡ first_class_by (numbered_at (graph_at types graph.now) (fact_numbers numbers.now)) }
{
    first_class_of(graph, numbers)
}

/// The first namespace among declarations that were found (3.4.6).
#[tactic(auto, using(crate::proofs::Looking::numbered_is))]
pub fn first_space(graph: &Graph, numbers: &[FactId]) -> Option<ScopeId>
    ensures { (types : List CxxType) → option_map scope_number result ≡ first_space_by (numbered_at (graph_at types graph.now) (fact_numbers numbers.now)) }
{
    first_space_of(graph, numbers)
}

impl Names {
    /// What a word is among the spellings that were met, for looks into more scopes than one.
    pub fn met_as(&self, word: &[u8]) -> MetWord
        ensures { IsMetAs self.now.words word.now result }
    {
        self.words.met_as(word)
    }

    /// The declarations of a spelled name in a scope, in order, by what it is among the spellings that were met.
    #[tactic(auto, using(crate::proofs::Looking::numbered_is))]
    pub fn declared_as(&self, graph: &Graph, scope: ScopeId, word: &[u8], met: MetWord) -> &[FactId]
        requires noted { Notes self.now graph.now.facts }
        requires met { IsMetAs self.now.words word.now met }
        ensures numbers { (types : List CxxType) → result.now ≡ numbers_in (declared_by (graph_at types graph.now) scope.0 (spelled word.now)) }
        ensures facts { (types : List CxxType) → looked_up types graph.now.facts result.now ≡ declared_by (graph_at types graph.now) scope.0 (spelled word.now) }
        ensures numbered { (types : List CxxType) → numbered_at (graph_at types graph.now) (fact_numbers result.now) ≡ declared_by (graph_at types graph.now) scope.0 (spelled word.now) }
    {
        let _ = graph;
        self.words.row_of(scope, word, met)
    }

    /// The declarations of a spelled name in a scope, in order.
    #[tactic(auto, using(crate::proofs::Looking::numbered_is))]
    pub fn declared_in(&self, graph: &Graph, scope: ScopeId, word: &[u8]) -> &[FactId]
        requires { Notes self.now graph.now.facts }
        ensures numbers { (types : List CxxType) → result.now ≡ numbers_in (declared_by (graph_at types graph.now) scope.0 (spelled word.now)) }
        ensures facts { (types : List CxxType) → looked_up types graph.now.facts result.now ≡ declared_by (graph_at types graph.now) scope.0 (spelled word.now) }
        ensures numbered { (types : List CxxType) → numbered_at (graph_at types graph.now) (fact_numbers result.now) ≡ declared_by (graph_at types graph.now) scope.0 (spelled word.now) }
    {
        let _ = graph;
        self.words.row(scope, word)
    }

    /// The scopes of a class, in order (9.2).
    pub fn scopes_of_class(&self, graph: &Graph, class: ClassId) -> &[ScopeId]
        requires { Notes self.now graph.now.facts }
        ensures { result.now ≡ of_class class (held_from 0 graph.now.facts) }
    {
        let _ = graph;
        self.kept.scopes_of_class(class)
    }

    /// The declarations of what a class befriends, in order (11.4).
    pub fn friends_of_class(&self, graph: &Graph, class: ClassId) -> &[FactId]
        requires { Notes self.now graph.now.facts }
        ensures { result.now ≡ of_class class (friends_of graph.now.facts) }
    {
        let _ = graph;
        self.kept.friends_of_class(class)
    }

    /// The scope that holds a scope (3.3); that of the unit holds itself.
    pub fn parent(&self, graph: &Graph, scope: ScopeId) -> ScopeId
        requires { Notes self.now graph.now.facts }
        ensures { (types : List CxxType) → result.0 ≡ parent_of (graph_at types graph.now) scope.0 }
    {
        let _ = graph;
        match self.kept.noted(scope) {
            Some(noted) => noted.parent,
            None => scope,
        }
    }

    /// Whether a scope is that of the parameters of a function (3.3.2).
    #[tactic(auto, using(crate::proofs::Clashing::parameters_are))]
    pub fn is_parameters(&self, graph: &Graph, scope: ScopeId) -> bool
        requires { Notes self.now graph.now.facts }
        ensures { (types : List CxxType) → result ≡ are_parameters (slice_get (scope_kinds (facts_at types graph.now.facts)) scope.0) }
    {
        let _ = graph;
        self.kept.is_parameters(scope)
    }

    /// The values of the enumerators of an enumeration, in order (7.2).
    pub fn values(&self, graph: &Graph, number: EnumId) -> &[i128]
        requires { Notes self.now graph.now.facts }
        ensures { (types : List CxxType) → result.now ≡ values_in number.0 (facts_at types graph.now.facts) }
    {
        let _ = graph;
        self.kept.values.row(&number)
    }

    /// The scope in which an enumeration is declared (7.2).
    pub fn scope_of_enumeration(&self, graph: &Graph, number: EnumId) -> Option<ScopeId>
        requires { Notes self.now graph.now.facts }
        ensures { (types : List CxxType) → result ≡ scope_of_one (graph_at types graph.now) number.0 }
    {
        graph.in_range();
        self.kept.scope_of(number)
    }

    /// The scope in which a class is declared first (9.1).
    #[tactic(auto, using(crate::proofs::Outer::class_scope_is))]
    pub fn scope_of_class(&self, graph: &Graph, class: ClassId) -> Option<ScopeId>
        requires { Notes self.now graph.now.facts }
        ensures { (types : List CxxType) → result ≡ scope_of_a_class (graph_at types graph.now) class.0 }
    {
        let _ = graph;
        self.kept.scope_of_class(class)
    }

    /// The class to which a scope belongs (9.2).
    #[tactic(auto, using(crate::proofs::Outer::scope_class_is))]
    pub fn class_of_scope(&self, graph: &Graph, scope: ScopeId) -> Option<ClassId>
        requires { Notes self.now graph.now.facts }
        ensures { (types : List CxxType) → result ≡ class_of_one (facts_at types graph.now.facts) scope }
    {
        let _ = graph;
        self.kept.class_of(scope)
    }

    /// The first declaration of the object that has a name in a scope (3).
    pub fn first_object(&self, graph: &Graph, scope: ScopeId, word: &[u8]) -> Option<FactId>
        requires { Notes self.now graph.now.facts }
        ensures { (types : List CxxType) → result ≡ first_object_by (declared_by (graph_at types graph.now) scope.0 (spelled word.now)) }
    {
        first_object_of(graph, self.declared_in(graph, scope, word))
    }

    /// The first declaration of the function with the parameters of a type that has a name in a scope (13.1).
    pub fn first_function(
        &self,
        graph: &Graph,
        types: &TypeTable,
        of: TypeId,
        scope: ScopeId,
        word: &[u8],
    ) -> Option<FactId>
        requires noted { Notes self.now graph.now.facts }
        requires below { IsGraphBelow (length types.now) graph.now }
        requires of { of.0 < length types.now }
        ensures { result ≡ first_function_by (type_at types.now of.0) (declared_by (graph_at types.now graph.now) scope.0 (spelled word.now)) }
    {
        first_function_of(graph, types, of, self.declared_in(graph, scope, word))
    }
}
