//! The public lookups.

ghost use Rattle.std.specs.Prelude.{◌≡◌, ◌<◌, length};
ghost use Rattle.cxx_model.specs.Facts.Declarations.{graph_at, name_at};
ghost use Rattle.cxx_model.specs.Facts.Fitted.{Fitted, IsNameBelow};
ghost use Rattle.cxx_meaning.specs.Lookups.Wanted.{any_name};
ghost use Rattle.cxx_meaning.specs.Lookups.Member.{member as member_of};
ghost use Rattle.cxx_meaning.specs.Lookups.Ordinary.{ordinary as ordinary_of};
ghost use Rattle.cxx_meaning.specs.Lookups.Qualified.{qualified as qualified_of, brought as brought_of};
ghost use Rattle.cxx_members.specs.Answers.{Answers};
ghost use Rattle.cxx_members.specs.Views.{wanted_at};
ghost use Rattle.cxx_scopes.specs.Views.{Notes};

use crate::index::ScopeIndex;
use crate::ordinary::ordinary_at;
use crate::qualified::{brought_from, qualified_in};
use cxx_graph::Graph;
use cxx_members::{Looking, Sought, Wanted};
use cxx_model::{ClassId, FactId, Found, MemberFound, Name, ScopeId, Steps, Wait};
use cxx_types::TypeTable;
use std::alloc::Global;
use std::sync::ledger::Ledger;

impl ScopeIndex {
    /// What a name means where it stands, by itself (3.4.1, 7.3.4). `Needs` names the class that has to be complete first.
    pub fn ordinary<L: Ledger>(
        &self,
        alloc: Global,
        graph: &Graph,
        types: &TypeTable,
        scope: ScopeId,
        name: &Name,
        cut: FactId,
        steps: &mut Steps<L>,
    ) -> Result<Found, Wait>
        requires noted { Notes self.now graph.now.facts }
        requires fitted { Fitted graph.now types.now }
        requires name { IsNameBelow (length types.now) name.now }
        ensures { Answers result (ordinary_of (graph_at types.now graph.now) any_name scope (name_at types.now name.now) cut.0) }
    {
        self.ordinary_for(alloc, graph, types, Wanted::Any, scope, name, cut, steps)
    }

    /// The same, for what is wanted alone.
    pub fn ordinary_for<L: Ledger>(
        &self,
        alloc: Global,
        graph: &Graph,
        types: &TypeTable,
        wanted: Wanted,
        scope: ScopeId,
        name: &Name,
        cut: FactId,
        steps: &mut Steps<L>,
    ) -> Result<Found, Wait>
        requires noted { Notes self.now graph.now.facts }
        requires fitted { Fitted graph.now types.now }
        requires name { IsNameBelow (length types.now) name.now }
        ensures { Answers result (ordinary_of (graph_at types.now graph.now) (wanted_at wanted) scope (name_at types.now name.now) cut.0) }
    {
        let sought = Sought { wanted, name };
        let looking = Looking {
            alloc,
            graph,
            types,
            scopes: self.members.scopes(),
        };
        ordinary_at(&looking, cut.0, &sought, scope, steps)
    }

    /// What a name means behind `::` in a namespace (3.4.3.2).
    pub fn qualified<L: Ledger>(
        &self,
        alloc: Global,
        graph: &Graph,
        types: &TypeTable,
        space: ScopeId,
        name: &Name,
        cut: FactId,
        steps: &mut Steps<L>,
    ) -> Result<Found, Wait>
        requires noted { Notes self.now graph.now.facts }
        requires fitted { Fitted graph.now types.now }
        requires name { IsNameBelow (length types.now) name.now }
        ensures { Answers result (qualified_of (graph_at types.now graph.now) any_name space (name_at types.now name.now) cut.0) }
    {
        self.qualified_for(alloc, graph, types, Wanted::Any, space, name, cut, steps)
    }

    /// The same, for what is wanted alone.
    pub fn qualified_for<L: Ledger>(
        &self,
        alloc: Global,
        graph: &Graph,
        types: &TypeTable,
        wanted: Wanted,
        space: ScopeId,
        name: &Name,
        cut: FactId,
        steps: &mut Steps<L>,
    ) -> Result<Found, Wait>
        requires noted { Notes self.now graph.now.facts }
        requires fitted { Fitted graph.now types.now }
        requires name { IsNameBelow (length types.now) name.now }
        ensures { Answers result (qualified_of (graph_at types.now graph.now) (wanted_at wanted) space (name_at types.now name.now) cut.0) }
    {
        let sought = Sought { wanted, name };
        let looking = Looking {
            alloc,
            graph,
            types,
            scopes: self.members.scopes(),
        };
        Ok(qualified_in(&looking, cut.0, &sought, space, steps)?)
    }

    /// What a using-declaration of a namespace or a block brings from a namespace: all entities of the name, also those that others hide (7.3.3).
    pub fn brought<L: Ledger>(
        &self,
        alloc: Global,
        graph: &Graph,
        types: &TypeTable,
        space: ScopeId,
        name: &Name,
        cut: FactId,
        steps: &mut Steps<L>,
    ) -> Result<Found, Wait>
        requires noted { Notes self.now graph.now.facts }
        requires fitted { Fitted graph.now types.now }
        requires name { IsNameBelow (length types.now) name.now }
        ensures { Answers result (brought_of (graph_at types.now graph.now) space (name_at types.now name.now) cut.0) }
    {
        let sought = Sought {
            wanted: Wanted::Any,
            name,
        };
        let looking = Looking {
            alloc,
            graph,
            types,
            scopes: self.members.scopes(),
        };
        Ok(brought_from(&looking, cut.0, &sought, space, steps)?)
    }

    /// What a name means as a member of a class (10.2).
    pub fn member<L: Ledger>(
        &self,
        alloc: Global,
        graph: &Graph,
        types: &TypeTable,
        class: ClassId,
        name: &Name,
        steps: &mut Steps<L>,
    ) -> Result<MemberFound, Wait>
        requires noted { Notes self.now graph.now.facts }
        requires fitted { Fitted graph.now types.now }
        requires name { IsNameBelow (length types.now) name.now }
        ensures { Answers result (member_of (graph_at types.now graph.now) any_name class (name_at types.now name.now)) }
    {
        self.members.member(alloc, graph, types, class, name, steps)
    }

    /// The same, for what is wanted alone.
    pub fn member_for<L: Ledger>(
        &self,
        alloc: Global,
        graph: &Graph,
        types: &TypeTable,
        wanted: Wanted,
        class: ClassId,
        name: &Name,
        steps: &mut Steps<L>,
    ) -> Result<MemberFound, Wait>
        requires noted { Notes self.now graph.now.facts }
        requires fitted { Fitted graph.now types.now }
        requires name { IsNameBelow (length types.now) name.now }
        ensures { Answers result (member_of (graph_at types.now graph.now) (wanted_at wanted) class (name_at types.now name.now)) }
    {
        self.members
            .member_for(alloc, graph, types, wanted, class, name, steps)
    }
}
