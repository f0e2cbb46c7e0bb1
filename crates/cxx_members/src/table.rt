//! The ways of all classes to a name, fact after fact (10.2).

ghost use Rattle.std.specs.Prelude.{◌≡◌, ◌<◌, [], false, ℕ, List, length, slice_index_or, OnOk, None};
ghost use Rattle.cxx_meaning.specs.Lookups.Member.{Way as WayMeant, at_base, with_base};
ghost use Rattle.cxx_model.specs.Types.Trees.{CxxType};
ghost use Rattle.cxx_model.specs.Facts.Declarations.{CxxFact, declares_at};
ghost use Rattle.cxx_members.specs.Tables.{IsSound, IsTable, entry_of, holds as is_one_of};
ghost use Rattle.cxx_members.specs.Ways.{AreKnown, latest, three_at};

use crate::ways::{Record, Three, Way, join, latest_of, through_three};
use cxx_model::{ClassId, Entity, NumberList};
use std::alloc::{AllocError, Global};

/// What is known of the ways of all classes: their paths, and the latest record of each class. A class without a record
/// has itself as its only way, where it declares the name.
#[derive(Drop)]
pub(crate) struct Table {
    pub paths: Vec<NumberList>,
    pub records: Vec<Record>,
    pub holders: Vec<ClassId>,
}

fn holds(holders: &[ClassId], class: ClassId) -> bool
    ensures { result ≡ is_one_of holders.now class }
{
    for other in holders {
        if class.0 == other.0 {
            return true;
        }
    }
    false
}

fn own_three(holders: &[ClassId], class: ClassId) -> Three
    ensures is { (paths : List (List ℕ)) → slice_index_or paths 0 [] ≡ [] → three_at paths result ≡ entry_of paths holders.now class None }
    ensures known { (count : ℕ) → 0 < count → AreKnown count result }
{
    if holds(holders, class) {
        Three {
            first: Some(Way {
                path: 0,
                holder: class,
            }),
            second: None,
            other: None,
        }
    } else {
        Three {
            first: None,
            second: None,
            other: None,
        }
    }
}

impl Table {
    /// The ways of a class.
    #[tactic(auto, using(crate::proofs::Tables::latest_known))]
    pub fn entry(&self, class: ClassId) -> Three
        requires { IsSound self.now.paths.items self.now.records.items }
        ensures is { three_at self.now.paths.items result ≡ entry_of self.now.paths.items self.now.holders.items class (latest class None self.now.records.items) }
        ensures known { AreKnown (length self.now.paths.items) result }
    {
        match latest_of(&self.records, class) {
            Some(three) => three,
            None => own_three(&self.holders, class),
        }
    }

    // The ways of a class that does not declare the name are those through one more base.
    #[tactic(auto, using(crate::proofs::Tables::sound_more))]
    fn add_through(
        &mut self,
        alloc: Global,
        derived: ClassId,
        parent: ClassId,
        index: u32,
    ) -> Result<(), AllocError>
        requires { IsSound self.old.paths.items self.old.records.items }
        ensures sound { OnOk result (IsSound self.new.paths.items self.new.records.items) }
        ensures holders { OnOk result (self.new.holders.items ≡ self.old.holders.items) }
        ensures table { OnOk result ((now : ClassId → List WayMeant) → IsTable self.old.paths.items self.old.holders.items self.old.records.items now → is_one_of self.old.holders.items derived ≡ false → IsTable self.new.paths.items self.old.holders.items self.new.records.items (at_base (is_one_of self.old.holders.items) derived parent index now)) }
    {
        let own = self.entry(derived);
        let base = self.entry(parent);
        let more = through_three(alloc, &mut self.paths, index, base)?;
        self.records.push(Record {
            class: derived,
            ways: join(own, more),
        })?;
        Ok(())
    }

    // One more base.
    fn add_base(
        &mut self,
        alloc: Global,
        derived: ClassId,
        parent: ClassId,
        index: u32,
    ) -> Result<(), AllocError>
        requires { IsSound self.old.paths.items self.old.records.items }
        ensures sound { OnOk result (IsSound self.new.paths.items self.new.records.items) }
        ensures holders { OnOk result (self.new.holders.items ≡ self.old.holders.items) }
        ensures table { OnOk result ((now : ClassId → List WayMeant) → IsTable self.old.paths.items self.old.holders.items self.old.records.items now → IsTable self.new.paths.items self.old.holders.items self.new.records.items (at_base (is_one_of self.old.holders.items) derived parent index now)) }
    {
        if holds(&self.holders, derived) || self.entry(parent).first.is_none() {
            return Ok(());
        }
        self.add_through(alloc, derived, parent, index)
    }

    /// One more fact.
    #[tactic(auto, unfolding(cxx_meaning::specs::Lookups::Member::with_base))]
    pub fn add(&mut self, alloc: Global, what: Entity) -> Result<(), AllocError>
        requires { IsSound self.old.paths.items self.old.records.items }
        ensures sound { OnOk result (IsSound self.new.paths.items self.new.records.items) }
        ensures holders { OnOk result (self.new.holders.items ≡ self.old.holders.items) }
        ensures table { OnOk result ((types : List CxxType) (fact : CxxFact) (now : ClassId → List WayMeant) → fact.what ≡ declares_at types what → IsTable self.old.paths.items self.old.holders.items self.old.records.items now → IsTable self.new.paths.items self.old.holders.items self.new.records.items (with_base (is_one_of self.old.holders.items) fact now)) }
    {
        match what {
            Entity::Ancestor {
                class,
                parent,
                index,
                ..
            } => self.add_base(alloc, class, parent, index),
            _ => Ok(()),
        }
    }
}
