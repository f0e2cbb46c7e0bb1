ghost use Rattle.std.specs.Prelude.{◌≡◌, ◌<◌, ◌∷◌, ◌++◌, List, [], length, OnOk, OnErr};
ghost use Rattle.std.specs.List.{slice_get};
ghost use Rattle.std.specs.Option.{option_copied};
ghost use Rattle.cxx_model.specs.declared.facts.Fact.{Fact as OneFact};
ghost use Rattle.cxx_model.specs.declared.types.FactId.{FactId as Number};
ghost use Rattle.cxx_model.specs.Types.Trees.{CxxType};
ghost use Rattle.cxx_linked.specs.Links.{FilesLinked, Links, holds_fact, linked_to};
ghost use Rattle.cxx_names.specs.Index.{Notes};
ghost use Rattle.cxx_names.specs.Words.{AreSameRows, IsSound, word_row};

use cxx_graph::Graph;
use cxx_hash::Key;
use cxx_model::{Fact, FactId, OutOfMemory, ScopeId};
use cxx_names::{Names, Words};
use indexmap::IndexSet;
use std::alloc::Global;

/// The numbers of the declarations that are linked (3.5), by their namespaces and the names that they declare.
#[derive(Drop)]
pub struct Linkages {
    pub(crate) words: Words,
    pub(crate) known: IndexSet<FactId, Key>,
}

fn fact_of(graph: &Graph, number: FactId) -> Option<&Fact>
    ensures { option_copied result ≡ slice_get graph.now.facts number.0 }
{
    graph.facts().get(number.0 as usize)
}

impl Linkages {
    /// Of no declarations. What is looked up is hashed by the key.
    pub fn new(alloc: Global, key: Key) -> Linkages
        ensures { (facts : List OneFact) → Links result facts [] }
    {
        Linkages {
            words: Words::new(alloc, key),
            known: IndexSet::with_hasher(alloc, key),
        }
    }

    /// The linked declarations that declare a member of a namespace with a name, in order.
    pub fn row(&self, space: ScopeId, word: &[u8]) -> &[FactId]
        ensures is { result.now ≡ word_row self.now.words space word.now }
        ensures linked { (facts : List OneFact) (linked : List Number) (types : List CxxType) → Links self.now facts linked → result.now ≡ linked_to types facts space.0 word.now linked }
    {
        self.words.row(space, word)
    }

    /// Whether a declaration is linked.
    pub fn has(&self, number: FactId) -> bool
        ensures is { result ≡ holds_fact self.now.known.keys number }
        ensures linked { (facts : List OneFact) (linked : List Number) → Links self.now facts linked → result ≡ holds_fact linked number }
    {
        self.known.contains(&number)
    }

    // Files one more under its namespace and its name, where it has one. An `Err` changes nothing of what is filed.
    fn file(&mut self, graph: &Graph, names: &Names, number: FactId) -> Result<(), OutOfMemory>
        requires sound { IsSound self.old.words }
        requires noted { Notes names.now graph.now.facts }
        ensures sound { IsSound self.new.words }
        ensures more { OnOk result (FilesLinked self.old.words self.new.words graph.now.facts number) }
        ensures same { OnErr result (AreSameRows self.old.words self.new.words) }
        ensures known { self.new.known ≡ self.old.known }
    {
        match fact_of(graph, number) {
            Some(fact) => self
                .words
                .file(names.home(graph, fact.scope), &fact.name, number),
            None => Ok(()),
        }
    }

    /// Adds a fact that is linked. An `Err` changes nothing.
    pub fn add(&mut self, graph: &Graph, names: &Names, number: FactId) -> Result<(), OutOfMemory>
        requires there { number.0 < length graph.now.facts }
        requires sound { IsSound self.old.words }
        requires noted { Notes names.now graph.now.facts }
        ensures more { (linked : List Number) → Links self.old graph.now.facts linked → OnOk result (Links self.new graph.now.facts (linked ++ number ∷ [])) }
        ensures same { (facts : List OneFact) (linked : List Number) → Links self.old facts linked → OnErr result (Links self.new facts linked) }
    {
        self.known.reserve(1)?;
        self.file(graph, names, number)?;
        self.known.insert(number)?;
        Ok(())
    }
}
