//! The public lookup of members, and what other lookups read.

ghost use Rattle.std.specs.Prelude.{◌≡◌, ◌<◌, length};
ghost use Rattle.cxx_model.specs.Facts.Declarations.{graph_at, name_at};
ghost use Rattle.cxx_model.specs.Facts.Fitted.{Fitted, IsNameBelow};
ghost use Rattle.cxx_meaning.specs.Lookups.Wanted.{any_name};
ghost use Rattle.cxx_meaning.specs.Lookups.Member.{member as member_of};
ghost use Rattle.cxx_members.specs.Answers.{Answers};
ghost use Rattle.cxx_members.specs.Views.{Notes, wanted_at};

use crate::index::{MemberIndex, Noted};
use crate::looking::Looking;
use crate::sightings::Sought;
use crate::wanted::Wanted;
use cxx_graph::Graph;
use cxx_model::{ClassId, MemberFound, Name, Steps, Wait};
use cxx_types::TypeTable;
use std::alloc::Global;
use std::sync::ledger::Ledger;

impl MemberIndex {
    /// The scopes that it noted, in order.
    pub fn scopes(&self) -> &[Noted]
        ensures { result.now ≡ self.now.scopes.items }
    {
        self.scopes.as_slice()
    }

    /// What a name means as a member of a class (10.2).
    pub fn member<L: Ledger>(
        &self,
        alloc: Global,
        graph: &Graph,
        types: &TypeTable,
        class: ClassId,
        name: &Name,
        steps: &mut Steps<L>,
    ) -> Result<MemberFound, Wait>
        requires noted { Notes self.now graph.now.facts }
        requires fitted { Fitted graph.now types.now }
        requires name { IsNameBelow (length types.now) name.now }
        ensures { Answers result (member_of (graph_at types.now graph.now) any_name class (name_at types.now name.now)) }
    {
        self.member_for(alloc, graph, types, Wanted::Any, class, name, steps)
    }

    /// The same, for what is wanted alone.
    pub fn member_for<L: Ledger>(
        &self,
        alloc: Global,
        graph: &Graph,
        types: &TypeTable,
        wanted: Wanted,
        class: ClassId,
        name: &Name,
        steps: &mut Steps<L>,
    ) -> Result<MemberFound, Wait>
        requires noted { Notes self.now graph.now.facts }
        requires fitted { Fitted graph.now types.now }
        requires name { IsNameBelow (length types.now) name.now }
        ensures { Answers result (member_of (graph_at types.now graph.now) (wanted_at wanted) class (name_at types.now name.now)) }
    {
        let sought = Sought { wanted, name };
        let looking = Looking {
            alloc,
            graph,
            types,
            scopes: self.scopes.as_slice(),
        };
        looking.member(&sought, class, steps)
    }
}
