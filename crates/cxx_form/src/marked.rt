//! Lists of declarations by keys.
ghost use Rattle.std.specs.Prelude.{◌≡◌, [], OnOk};
ghost use Rattle.cxx_form.specs.Marked.{row_by, IsMarkedMore};

use cxx_hash::Key;
use cxx_model::FactId;
use indexmap::IndexMap;
use std::alloc::{AllocError, Global};
use std::hash::Hash;

/// Lists of the numbers of facts, by keys; each grows at its end. What stands under no key is empty.
#[derive(Drop)]
pub(crate) struct Marked<K: Eq + Hash> {
    pub(crate) rows: IndexMap<K, Vec<FactId>, Key>,
    alloc: Global,
}

impl<K: Eq + Hash + Drop> Marked<K> {
    pub(crate) fn new(alloc: Global, key: Key) -> Marked<K>
        ensures { result.rows.entries ≡ [] }
    {
        Marked {
            rows: IndexMap::with_hasher(alloc, key),
            alloc,
        }
    }

    /// What stands under a key, in order.
    pub(crate) fn row(&self, key: &K) -> &[FactId]
        ensures { result.now ≡ row_by K.eq self.now.rows.entries key.now }
    {
        match self.rows.get(key) {
            Some(numbers) => numbers.as_slice(),
            None => &[],
        }
    }

    /// Adds a number under a key.
    pub(crate) fn push(&mut self, key: K, number: FactId) -> Result<(), AllocError>
        ensures { OnOk result (IsMarkedMore K.eq self.old.rows.entries self.new.rows.entries key number) }
    {
        if let Some(numbers) = self.rows.get_mut(&key) {
            numbers.push(number)?;
            return Ok(());
        }
        let mut numbers = Vec::new(self.alloc);
        numbers.push(number)?;
        self.rows.insert(key, numbers)?;
        Ok(())
    }
}
