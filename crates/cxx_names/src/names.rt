ghost use Rattle.std.specs.Prelude.{◌≡◌, ◌+◌, ◌↔◌, [], List, length, Err, IfOk, OnOk, OnErr};
ghost use Rattle.cxx_model.specs.Facts.Declarations.{facts_at, graph_at};
ghost use Rattle.cxx_model.specs.Facts.Graph.{InRange, appended, enumerations as enumerations_in, scopes as scopes_in};
ghost use Rattle.cxx_model.specs.Types.Trees.{CxxType};
ghost use Rattle.cxx_reading.specs.Declaring.{enumeration_count, scope_count};
ghost use Rattle.cxx_names.specs.Index.{AreSameNames, HasNoted, Notes};
ghost use Rattle.cxx_names.specs.Roles.{representative_by, role_by};
ghost use Rattle.cxx_names.specs.Words.{IsNumbered};
ghost use Rattle.cxx_names.specs.declared.names.Names.{Names as NamesBefore};

use crate::entry::{Entry, Spelling};
use crate::filed::Filed;
use crate::kept::Kept;
use crate::role::{has_role, role_of};
use crate::words::Words;
use cxx_graph::{AddFault, Graph};
use cxx_hash::Key;
use cxx_model::{Entity, EnumId, Fact, FactId, OutOfMemory, ScopeId};
use std::alloc::Global;

/// How many facts and reserved classes there may be together.
const LIMIT: u32 = 2_097_152;

/// What is kept beside the facts of a graph, so that no question about names goes over them all.
#[derive(Drop)]
pub struct Names {
    pub(crate) words: Words,
    // Of the declarations of each name in each scope those that stand for all of them where conflicts are looked for.
    pub(crate) representatives: Filed<Spelling, FactId>,
    pub(crate) kept: Kept,
}

impl Names {
    /// Of no facts. What is looked up is hashed by the key.
    pub fn new(alloc: Global, key: Key) -> Names
        ensures { Notes result [] }
    {
        Names {
            words: Words::new(alloc, key),
            representatives: Filed::new(alloc, key),
            kept: Kept::new(alloc, key),
        }
    }

    // Keeps what is to be kept of one more fact. An `Err` changes nothing of what is kept.
    fn note(&mut self, one: Entry) -> Result<(), OutOfMemory>
        ensures noted { OnOk result (HasNoted self.old self.new one) }
        ensures same { OnErr result (AreSameNames self.old self.new) }
    {
        self.words.add(one.name)?;
        if let Err(fault) = self.representatives.add(one.representative) {
            self.words.take_back(one.name);
            return Err(fault);
        }
        if let Err(fault) = self.kept.note(one) {
            self.representatives.take_back(one.representative);
            self.words.take_back(one.name);
            return Err(fault);
        }
        Ok(())
    }

    // Takes back what was kept of the last fact.
    fn take_back(&mut self, one: Entry)
        ensures { (before : NamesBefore) → HasNoted before self.old one → AreSameNames before self.new }
    {
        self.words.take_back(one.name);
        self.representatives.take_back(one.representative);
        self.kept.take_back(one);
    }

    /// How many scopes there are: the number of the next one.
    #[tactic(auto, using(crate::proofs::Counting::scopes_below, crate::proofs::Counting::scopes_counted, crate::proofs::Counting::scopes_are))]
    pub fn scopes(&self, graph: &Graph) -> ScopeId
        requires { Notes self.now graph.now.facts }
        ensures kept { result.0 ≡ length self.now.kept.scopes.items }
        ensures counted { result.0 ≡ scopes_in graph.now.facts }
        ensures is { (types : List CxxType) → result.0 ≡ scope_count (graph_at types graph.now) }
    {
        let _most = graph.length();
        ScopeId(self.kept.scopes.len() as u32)
    }

    /// How many enumerations there are: the number of the next one.
    #[tactic(auto, using(crate::proofs::Counting::enumerations_below, crate::proofs::Counting::enumerations_are, crate::proofs::Counting::enumerations_counted))]
    pub fn enumerations(&self, graph: &Graph) -> EnumId
        requires { Notes self.now graph.now.facts }
        ensures counted { result.0 ≡ enumerations_in graph.now.facts }
        ensures is { (types : List CxxType) → result.0 ≡ enumeration_count (facts_at types graph.now.facts) }
    {
        let _most = graph.length();
        EnumId(self.kept.enumerations.len() as u32)
    }

    // The spelled name that a fact declares, if it does. Its spelling is met.
    fn meet(&mut self, graph: &Graph, fact: &Fact) -> Result<Option<Spelling>, OutOfMemory>
        requires { Notes self.old graph.now.facts }
        ensures noted { Notes self.new graph.now.facts }
        ensures number { IfOk result (IsNumbered self.new.words.spellings.keys fact.now) }
    {
        let _ = graph;
        self.words.meet(fact)
    }

    // What is filed of a declaration where conflicts are looked for: nothing if an earlier one stands for it.
    fn representative(
        &self,
        graph: &Graph,
        what: Entity,
        number: FactId,
        name: Option<Spelling>,
    ) -> Option<(Spelling, FactId)>
        ensures { result ≡ representative_by graph.now.facts self.now.representatives.rows.entries (role_by number.0 what) number name }
    {
        match name {
            Some(spelling) => {
                let earlier = self.representatives.row(&spelling);
                if has_role(graph, earlier, role_of(number, what)) {
                    None
                } else {
                    Some((spelling, number))
                }
            }
            None => None,
        }
    }

    /// Appends a fact to a graph, and keeps what is to be kept of it. An `Err` changes nothing.
    pub fn add(&mut self, graph: &mut Graph, fact: Fact) -> Result<FactId, AddFault>
        requires range { InRange (appended graph.old fact) }
        requires noted { Notes self.old graph.old.facts }
        ensures number { IfOk result (λ number. number.0 ≡ length graph.old.facts) }
        ensures appended { OnOk result (graph.new ≡ appended graph.old fact) }
        ensures unchanged { OnErr result (graph.new ≡ graph.old) }
        ensures noted { Notes self.new graph.new.facts }
        ensures limit { (result ≡ Err AddFault.Limit) ↔ (length graph.old.facts + length graph.old.classes ≡ 2097152) }
    {
        let length = graph.length();
        if length.saturating_add(graph.class_count()) == LIMIT {
            return Err(AddFault::Limit);
        }
        let name = self.meet(graph, &fact)?;
        let number = FactId(length);
        let representative = self.representative(graph, fact.what, number, name);
        let one = Entry::of(&fact, name, representative, number, self.scopes(graph).0);
        self.note(one)?;
        match graph.add(fact) {
            Ok(number) => Ok(number),
            Err(fault) => {
                self.take_back(one);
                Err(fault)
            }
        }
    }
}
