//! The ways of the classes that a class reaches, base after base (10.2).

ghost use Rattle.std.specs.Prelude.{◌≡◌, ◌<◌, [], false, reverse, ℕ, Bool, List, length, slice_index_or, OnOk, IfOk};
ghost use Rattle.std.specs.List.{slice_get};
ghost use Rattle.cxx_model.specs.declared.types.ClassId.{ClassId as ClassNumber};
ghost use Rattle.cxx_model.specs.Facts.Declarations.{CxxFact, declares_at};
ghost use Rattle.cxx_meaning.specs.Lookups.Member.{Way as WayMeant, at_base, declares_member, ways as ways_of, with_base};
ghost use Rattle.cxx_members.specs.Tables.{ways_given};
ghost use Rattle.cxx_members.specs.Ways.{three_of};
ghost use Rattle.cxx_inherited.specs.Tables.{IsSound, IsTable, entry_of, kept_of, own_by, ways_by};
ghost use Rattle.cxx_inherited.specs.Views.{IsSeeking, facts_of, graph_of, name_of, types_of, wanted_of};
ghost use Rattle.cxx_inherited.specs.Ways.{AreKnown, three_at};

use crate::paths::Paths;
use crate::seeking::Seeking;
use crate::ways::{Three, Way, join, through_three};
use cxx_model::{ClassId, Entity, FactId};
use std::alloc::{AllocError, Global};
use std::collections::BTreeMap;

/// What is known of the ways of classes: their paths, and the ways of each class by its number. A class of which nothing is
/// kept has itself as its only way, where it declares the name.
#[derive(Drop)]
pub(crate) struct Table {
    pub paths: Paths,
    pub records: BTreeMap<u32, Three>,
}

fn own_three(declares: bool, class: ClassId) -> Three
    ensures is { (paths : List (List ℕ)) (own : ClassNumber → Bool) → slice_index_or paths 0 [] ≡ [] → declares ≡ own class → three_at paths result ≡ three_of (own_by own class) }
    ensures known { (count : ℕ) → 0 < count → AreKnown count result }
{
    if declares {
        Three {
            first: Some(Way {
                path: 0,
                holder: class,
            }),
            second: None,
            other: None,
        }
    } else {
        Three {
            first: None,
            second: None,
            other: None,
        }
    }
}

impl Table {
    #[tactic(auto, using(crate::proofs::Keeping::table_first))]
    fn new(alloc: Global) -> Table
        ensures sound { IsSound result.paths result.records }
        ensures table { (declares : ClassNumber → Bool) → IsTable result.paths declares result.records (own_by declares) }
    {
        Table {
            paths: Paths::new(alloc),
            records: BTreeMap::new(alloc),
        }
    }
}

impl Seeking<'_> {
    /// The ways of a class.
    pub fn entry(&self, table: &Table, class: ClassId) -> Three
        requires seeking { IsSeeking self.now }
        requires sound { IsSound table.now.paths table.now.records }
        ensures is { three_at table.now.paths result ≡ entry_of table.now.paths (declares_member (graph_of self.now) (wanted_of self.now) (name_of self.now)) class (kept_of table.now.records class.0) }
        ensures known { AreKnown (length table.now.paths) result }
    {
        match table.records.get(&class.0) {
            Some(three) => *three,
            None => own_three(self.declares(class), class),
        }
    }

    // The ways of a class that does not declare the name are those through one more base.
    fn add_through(
        &self,
        table: &mut Table,
        derived: ClassId,
        parent: ClassId,
        index: u32,
    ) -> Result<(), AllocError>
        requires seeking { IsSeeking self.now }
        requires sound { IsSound table.old.paths table.old.records }
        requires free { declares_member (graph_of self.now) (wanted_of self.now) (name_of self.now) derived ≡ false }
        ensures sound { OnOk result (IsSound table.new.paths table.new.records) }
        ensures table { OnOk result ((now : ClassNumber → List WayMeant) → IsTable table.old.paths (declares_member (graph_of self.now) (wanted_of self.now) (name_of self.now)) table.old.records now → IsTable table.new.paths (declares_member (graph_of self.now) (wanted_of self.now) (name_of self.now)) table.new.records (at_base (declares_member (graph_of self.now) (wanted_of self.now) (name_of self.now)) derived parent index now)) }
    {
        let own = self.entry(table, derived);
        let base = self.entry(table, parent);
        let more = through_three(&mut table.paths, index, base)?;
        table.records.insert(derived.0, join(own, more))?;
        Ok(())
    }

    // One more base.
    fn add_base(
        &self,
        table: &mut Table,
        derived: ClassId,
        parent: ClassId,
        index: u32,
    ) -> Result<(), AllocError>
        requires seeking { IsSeeking self.now }
        requires sound { IsSound table.old.paths table.old.records }
        ensures sound { OnOk result (IsSound table.new.paths table.new.records) }
        ensures table { OnOk result ((now : ClassNumber → List WayMeant) → IsTable table.old.paths (declares_member (graph_of self.now) (wanted_of self.now) (name_of self.now)) table.old.records now → IsTable table.new.paths (declares_member (graph_of self.now) (wanted_of self.now) (name_of self.now)) table.new.records (at_base (declares_member (graph_of self.now) (wanted_of self.now) (name_of self.now)) derived parent index now)) }
    {
        if self.entry(table, parent).first.is_none() || self.declares(derived) {
            return Ok(());
        }
        self.add_through(table, derived, parent, index)
    }

    // One more fact.
    #[tactic(auto, unfolding(cxx_meaning::specs::Lookups::Member::with_base))]
    fn add_what(&self, table: &mut Table, what: Entity) -> Result<(), AllocError>
        requires seeking { IsSeeking self.now }
        requires sound { IsSound table.old.paths table.old.records }
        ensures sound { OnOk result (IsSound table.new.paths table.new.records) }
        ensures table { OnOk result ((fact : CxxFact) (now : ClassNumber → List WayMeant) → fact.what ≡ declares_at (types_of self.now) what → IsTable table.old.paths (declares_member (graph_of self.now) (wanted_of self.now) (name_of self.now)) table.old.records now → IsTable table.new.paths (declares_member (graph_of self.now) (wanted_of self.now) (name_of self.now)) table.new.records (with_base (declares_member (graph_of self.now) (wanted_of self.now) (name_of self.now)) fact now)) }
    {
        match what {
            Entity::Ancestor {
                class,
                parent,
                index,
                ..
            } => self.add_base(table, class, parent, index),
            _ => Ok(()),
        }
    }

    // The fact with a number.
    #[tactic(auto, using(cxx_members::proofs::Kept::fact_is))]
    fn add_numbered(&self, table: &mut Table, number: u32) -> Result<(), AllocError>
        requires seeking { IsSeeking self.now }
        requires sound { IsSound table.old.paths table.old.records }
        ensures sound { OnOk result (IsSound table.new.paths table.new.records) }
        ensures table { OnOk result ((now : ClassNumber → List WayMeant) → IsTable table.old.paths (declares_member (graph_of self.now) (wanted_of self.now) (name_of self.now)) table.old.records now → IsTable table.new.paths (declares_member (graph_of self.now) (wanted_of self.now) (name_of self.now)) table.new.records (ways_given (declares_member (graph_of self.now) (wanted_of self.now) (name_of self.now)) now (slice_get (facts_of self.now) number))) }
    {
        match self.fact(FactId(number)) {
            None => Ok(()),
            Some(fact) => self.add_what(table, fact.what),
        }
    }

    // The facts with some numbers, in order.
    fn table_of(&self, numbers: &[u32]) -> Result<Table, AllocError>
        requires seeking { IsSeeking self.now }
        ensures sound { IfOk result (λ table. IsSound table.paths table.records) }
        ensures table { IfOk result (λ table. IsTable table.paths (declares_member (graph_of self.now) (wanted_of self.now) (name_of self.now)) table.records (ways_by (declares_member (graph_of self.now) (wanted_of self.now) (name_of self.now)) (facts_of self.now) (own_by (declares_member (graph_of self.now) (wanted_of self.now) (name_of self.now))) numbers.now)) }
    {
        let mut table = Table::new(self.looking.alloc);
        for number in numbers {
            self.add_numbered(&mut table, *number)?;
        }
        Ok(table)
    }

    /// The ways of a class, and those of the classes that it reaches.
    pub fn table(&self, class: ClassId) -> Result<Table, AllocError>
        requires seeking { IsSeeking self.now }
        ensures sound { IfOk result (λ table. IsSound table.paths table.records) }
        ensures is { IfOk result (λ table. entry_of table.paths (declares_member (graph_of self.now) (wanted_of self.now) (name_of self.now)) class (kept_of table.records class.0) ≡ three_of (ways_of (graph_of self.now) (wanted_of self.now) (name_of self.now) class)) }
    {
        let mut numbers = self.reached(class)?;
        numbers.reverse();
        let table = self.table_of(&numbers)?;
        Ok(table)
    }
}
