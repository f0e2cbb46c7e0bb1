ghost use Rattle.std.specs.Prelude.{◌≡◌, ◌+◌, ◌<◌, [], length, take, OnOk, OnErr};
ghost use Rattle.cxx_members.specs.Views.{Notes, noted_of};

use cxx_graph::Graph;
use cxx_model::{Entity, Fact, FactId, OutOfMemory, ScopeId, ScopeKind};
use std::alloc::Global;

/// A scope, and the one that holds it.
#[derive(Clone, Copy)]
pub struct Noted {
    pub kind: ScopeKind,
    pub parent: ScopeId,
}

/// What lookups keep of the facts of a graph. It notes each fact as it is added.
#[derive(Drop)]
pub struct MemberIndex {
    pub(crate) scopes: Vec<Noted>,
}

impl MemberIndex {
    /// An index of no facts.
    pub fn new(alloc: Global) -> MemberIndex
        ensures { Notes result [] }
    {
        MemberIndex {
            scopes: Vec::new(alloc),
        }
    }

    /// Notes the next fact of a graph. An `Err` changes nothing.
    pub fn note(&mut self, graph: &Graph, number: FactId) -> Result<(), OutOfMemory>
        requires known { number.0 < length graph.now.facts }
        requires noted { Notes self.old (take number.0 graph.now.facts) }
        ensures ok { OnOk result (Notes self.new (take (number.0 + 1) graph.now.facts)) }
        ensures err { OnErr result (Notes self.new (take number.0 graph.now.facts)) }
    {
        let noted = noted_in(&graph.facts()[number.0 as usize]);
        if let Some(noted) = noted {
            self.scopes.push(noted)?;
        }
        Ok(())
    }
}

// What is kept of a fact.
fn noted_in(fact: &Fact) -> Option<Noted>
    ensures { result ≡ noted_of fact.now }
{
    match fact.what {
        Entity::Scope { kind, .. } => Some(Noted {
            kind,
            parent: fact.scope,
        }),
        _ => None,
    }
}
