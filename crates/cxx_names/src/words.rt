ghost use Rattle.std.specs.Prelude.{ℕ, ◌≡◌, List, [], Some, true, IfOk, OnOk, OnErr};
ghost use Rattle.cxx_model.specs.declared.types.ScopeId.{ScopeId as ScopeNumber};
ghost use Rattle.cxx_names.specs.Words.{AreSameRows, AreSameWords, Files, HasMet, HasWord, IsMetAs, IsNumberOf, IsNumbered, IsSound, KnowsMore, number_among, numbered_row, spelled_word, word_row};
ghost use Rattle.cxx_names.specs.declared.words.Words.{Words as WordsBefore};

use crate::entry::{Spelling, declared_word, filed_name};
use crate::filed::Filed;
use cxx_hash::Key;
use cxx_model::{Fact, FactId, Name, OutOfMemory, ScopeId};
use indexmap::IndexSet;
use std::alloc::Global;

/// Declarations by scopes and spelled names.
#[derive(Drop)]
pub struct Words {
    // Each spelling that was met, once.
    pub(crate) spellings: IndexSet<Vec<u8>, Key>,
    pub(crate) rows: Filed<Spelling, FactId>,
    alloc: Global,
}

/// What a word is among the spellings that were met.
#[derive(Clone, Copy)]
pub struct MetWord {
    // Its number, if it was met.
    pub(crate) number: Option<usize>,
}

// The number of a spelling, which is met now if it was not before.
fn meet(
    spellings: &mut IndexSet<Vec<u8>, Key>,
    alloc: Global,
    word: &[u8],
) -> Result<usize, OutOfMemory>
    ensures more { KnowsMore spellings.old.keys spellings.new.keys }
    ensures number { IfOk result (λ number. number_among spellings.new.keys word.now ≡ Some number) }
{
    if let Some(number) = spellings.get_index_of(word) {
        return Ok(number);
    }
    let (number, _) = spellings.insert_full(Vec::from_slice(alloc, word)?)?;
    Ok(number)
}

impl MetWord {
    /// What is filed under the word in a scope.
    pub(crate) fn row_in(self, rows: &Filed<Spelling, FactId>, scope: ScopeId) -> &[FactId]
        ensures { result.now ≡ numbered_row rows.now.rows.entries scope self.number }
    {
        match self.number {
            Some(number) => rows.row(&Spelling { scope, number }),
            None => &[],
        }
    }
}

impl Words {
    /// Of no declarations. What is looked up is hashed by the key.
    pub fn new(alloc: Global, key: Key) -> Words
        ensures rows { result.rows.rows.entries ≡ [] }
        ensures sound { IsSound result }
        ensures empty { (scope : ScopeNumber) (word : List ℕ) → word_row result scope word ≡ [] }
    {
        Words {
            spellings: IndexSet::with_hasher(alloc, key),
            rows: Filed::new(alloc, key),
            alloc,
        }
    }

    /// What a word is among the spellings that were met, for looks into more scopes than one.
    pub fn met_as(&self, word: &[u8]) -> MetWord
        ensures { IsMetAs self.now word.now result }
    {
        MetWord {
            number: self.spellings.get_index_of(word),
        }
    }

    /// The declarations of a name in a scope, in order, by what it is among the spellings that were met.
    pub fn row_of(&self, scope: ScopeId, word: &[u8], met: MetWord) -> &[FactId]
        requires { IsMetAs self.now word.now met }
        ensures { result.now ≡ word_row self.now scope word.now }
    {
        let _ = word;
        met.row_in(&self.rows, scope)
    }

    /// The declarations of a name in a scope, in order.
    pub fn row(&self, scope: ScopeId, word: &[u8]) -> &[FactId]
        ensures { result.now ≡ word_row self.now scope word.now }
    {
        self.row_of(scope, word, self.met_as(word))
    }

    /// The spelled name that a fact declares, if it does, in its scope. Its spelling is met.
    pub(crate) fn meet(&mut self, fact: &Fact) -> Result<Option<Spelling>, OutOfMemory>
        ensures met { HasMet self.old self.new }
        ensures number { IfOk result (IsNumbered self.new.spellings.keys fact.now) }
    {
        match declared_word(fact) {
            Some(word) => {
                let number = meet(&mut self.spellings, self.alloc, word)?;
                Ok(Some(Spelling {
                    scope: fact.scope,
                    number,
                }))
            }
            None => Ok(None),
        }
    }

    // The spelling of a name in a scope, where it has one. It is met.
    fn met(&mut self, scope: ScopeId, name: &Name) -> Result<Option<Spelling>, OutOfMemory>
        ensures met { HasMet self.old self.new }
        ensures number { IfOk result (IsNumberOf self.new.spellings.keys scope (spelled_word name.now true)) }
    {
        match name {
            Name::Spelled(word) => {
                let number = meet(&mut self.spellings, self.alloc, word.as_slice())?;
                Ok(Some(Spelling { scope, number }))
            }
            _ => Ok(None),
        }
    }

    /// Files one more declaration under a scope and a name, where that is spelled. An `Err` changes nothing of what is
    /// filed.
    #[tactic(auto, using(crate::proofs::Known::sound_met, crate::proofs::Known::sound_more, crate::proofs::Known::sound_same, crate::proofs::Known::files_one, crate::proofs::Known::files_none))]
    pub fn file(&mut self, scope: ScopeId, name: &Name, number: FactId) -> Result<(), OutOfMemory>
        requires { IsSound self.old }
        ensures sound { IsSound self.new }
        ensures more { OnOk result (Files self.old self.new scope name.now number) }
        ensures same { OnErr result (AreSameRows self.old self.new) }
    {
        let spelling = self.met(scope, name)?;
        self.add(filed_name(spelling, number))
    }

    /// Files one more declaration, where it has a spelled name. An `Err` changes nothing of what is filed.
    pub(crate) fn add(&mut self, name: Option<(Spelling, FactId)>) -> Result<(), OutOfMemory>
        ensures more { OnOk result (HasWord self.old self.new name) }
        ensures same { OnErr result (AreSameWords self.old self.new) }
    {
        self.rows.add(name)
    }

    /// Takes back what was filed last.
    pub(crate) fn take_back(&mut self, name: Option<(Spelling, FactId)>)
        ensures { (before : WordsBefore) → HasWord before self.old name → AreSameWords before self.new }
    {
        self.rows.take_back(name);
    }
}
