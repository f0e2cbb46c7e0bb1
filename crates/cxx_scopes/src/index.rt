ghost use Rattle.std.specs.Prelude.{◌≡◌, ◌+◌, ◌<◌, [], length, take, OnOk, OnErr};
ghost use Rattle.cxx_scopes.specs.Views.{Notes};

use cxx_graph::Graph;
use cxx_members::MemberIndex;
use cxx_model::{FactId, OutOfMemory};
use std::alloc::Global;

/// What lookups keep of the facts of a graph. It notes each fact as it is added.
#[derive(Drop)]
pub struct ScopeIndex {
    pub(crate) members: MemberIndex,
}

impl ScopeIndex {
    /// An index of no facts.
    pub fn new(alloc: Global) -> ScopeIndex
        ensures { Notes result [] }
    {
        ScopeIndex {
            members: MemberIndex::new(alloc),
        }
    }

    /// Notes the next fact of a graph. An `Err` changes nothing.
    pub fn note(&mut self, graph: &Graph, number: FactId) -> Result<(), OutOfMemory>
        requires known { number.0 < length graph.now.facts }
        requires noted { Notes self.old (take number.0 graph.now.facts) }
        ensures ok { OnOk result (Notes self.new (take (number.0 + 1) graph.now.facts)) }
        ensures err { OnErr result (Notes self.new (take number.0 graph.now.facts)) }
    {
        self.members.note(graph, number)
    }
}
