ghost use Rattle.std.specs.Prelude.{◌≡◌, [], List, OnOk, OnErr, true};
ghost use Rattle.std.specs.Global.{Vec as List_in_memory};
ghost use Rattle.cxx_names.specs.Filed.{AreSame, IsMore, IsMoreBy, row as row_of};

use cxx_hash::Key;
use cxx_model::OutOfMemory;
use indexmap::IndexMap;
use std::alloc::Global;
use std::hash::Hash;

/// Lists by key, each of which grows at its end. What is filed under no key is empty.
#[derive(Drop)]
pub(crate) struct Filed<K: Eq + Hash, V> {
    pub(crate) rows: IndexMap<K, Vec<V>, Key>,
    alloc: Global,
}

impl<K: Eq + Hash + Copy, V: Copy> Filed<K, V> {
    pub(crate) fn new(alloc: Global, key: Key) -> Filed<K, V>
        ensures { result.rows.entries ≡ [] }
    {
        Filed {
            rows: IndexMap::with_hasher(alloc, key),
            alloc,
        }
    }

    /// What is filed under a key, in order.
    pub(crate) fn row(&self, key: &K) -> &[V]
        ensures { result.now ≡ row_of K.eq self.now.rows.entries key.now }
    {
        match self.rows.get(key) {
            Some(values) => values.as_slice(),
            None => &[],
        }
    }

    /// Whether nothing is filed at all.
    #[tactic(auto, using(crate::proofs::Openings::nothing_filed))]
    pub(crate) fn is_empty(&self) -> bool
        ensures { result ≡ true → (key : K) → row_of K.eq self.now.rows.entries key ≡ [] }
    {
        self.rows.is_empty()
    }

    /// Files one more value, behind those of its key. An `Err` changes nothing of what is filed.
    fn push(&mut self, key: K, value: V) -> Result<(), OutOfMemory>
        ensures more { OnOk result (IsMore K.eq self.old.rows.entries self.new.rows.entries key value) }
        ensures same { OnErr result (AreSame K.eq self.old.rows.entries self.new.rows.entries) }
    {
        if let Some(values) = self.rows.get_mut(&key) {
            values.push(value)?;
            return Ok(());
        }
        let mut values = Vec::new(self.alloc);
        values.push(value)?;
        self.rows.insert(key, values)?;
        Ok(())
    }

    // Takes back what was filed last under a key.
    fn pop(&mut self, key: K)
        ensures { (before : List (K × List_in_memory V)) (value : V) → IsMore K.eq before self.old.rows.entries key value → AreSame K.eq before self.new.rows.entries }
    {
        if let Some(values) = self.rows.get_mut(&key) {
            let _ = values.pop();
        }
    }

    /// Files a value under a key, where there is one. An `Err` changes nothing of what is filed.
    pub(crate) fn add(&mut self, entry: Option<(K, V)>) -> Result<(), OutOfMemory>
        ensures more { OnOk result (IsMoreBy K.eq self.old.rows.entries self.new.rows.entries entry) }
        ensures same { OnErr result (AreSame K.eq self.old.rows.entries self.new.rows.entries) }
    {
        match entry {
            Some((key, value)) => self.push(key, value),
            None => Ok(()),
        }
    }

    /// Takes back what was filed last.
    pub(crate) fn take_back(&mut self, entry: Option<(K, V)>)
        ensures { (before : List (K × List_in_memory V)) → IsMoreBy K.eq before self.old.rows.entries entry → AreSame K.eq before self.new.rows.entries }
    {
        if let Some(one) = entry {
            self.pop(one.0);
        }
    }
}
