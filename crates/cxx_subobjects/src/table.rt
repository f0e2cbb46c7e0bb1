//! For each class the first two paths to its subobjects of one base class (10.1). All its paths are never listed.
ghost use Rattle.std.specs.Prelude.{◌≡◌, ◌≤◌, ◌++◌, [], ℕ, List, Some, length, IfOk, OnOk};
ghost use Rattle.std.specs.BTreeMap.{get};
ghost use Rattle.std.specs.Ordering.{nat_cmp};
ghost use Rattle.cxx_subobjects.specs.Direct.{through_base};
ghost use Rattle.cxx_subobjects.specs.Steps.{AreEarlier, Grows, paths_of};
ghost use Rattle.cxx_subobjects.specs.Table.{AreKnown, IsKnown, IsTable, behind, entry_of, joined, kept_at, own_kept};

use crate::bases::Subobjects;
use crate::direct::DirectBase;
use crate::steps::{Step, lengthened, path};
use cxx_model::{ClassId, OutOfMemory};
use std::alloc::{AllocError, Global};
use std::collections::BTreeMap;

/// The first two paths, by their numbers.
#[derive(Clone, Copy)]
pub(crate) enum Kept {
    None,
    One(usize),
    Several(usize, usize),
}

// Of a class that is the base class itself, or of another one, before its bases are looked at.
fn own(class: u32, base: u32) -> Kept
    ensures { result ≡ own_kept class base }
{
    if class == base {
        Kept::One(0)
    } else {
        Kept::None
    }
}

// Of some paths and more behind them.
fn join(one: Kept, two: Kept) -> Kept
    ensures is { (paths : List (List ℕ)) → kept_at paths result ≡ joined (kept_at paths one) (kept_at paths two) }
    ensures known { (count : ℕ) → IsKnown count one → IsKnown count two → IsKnown count result }
{
    match one {
        Kept::None => two,
        Kept::One(first) => match two {
            Kept::None => one,
            Kept::One(second) => Kept::Several(first, second),
            Kept::Several(second, _) => Kept::Several(first, second),
        },
        Kept::Several(_, _) => one,
    }
}

// With the position of a base in front.
fn through(steps: &mut Vec<Step>, index: u32, kept: Kept) -> Result<Kept, AllocError>
    requires { IsKnown (length steps.old.items) kept }
    ensures is { IfOk result (λ longer. kept_at (paths_of steps.new.items) longer ≡ behind index (kept_at (paths_of steps.old.items) kept)) }
    ensures known { IfOk result (λ longer. IsKnown (length steps.new.items) longer) }
    ensures grows { OnOk result (Grows steps.old.items steps.new.items) }
    ensures earlier { OnOk result (AreEarlier steps.old.items → AreEarlier steps.new.items) }
{
    match kept {
        Kept::None => Ok(Kept::None),
        Kept::One(only) => Ok(Kept::One(lengthened(steps, index, only)?)),
        Kept::Several(one, two) => {
            let first = lengthened(steps, index, one)?;
            let second = lengthened(steps, index, two)?;
            Ok(Kept::Several(first, second))
        }
    }
}

/// What is known of the paths to one base class.
#[derive(Drop)]
pub(crate) struct Table {
    base: ClassId,
    steps: Vec<Step>,
    known: BTreeMap<u32, Kept>,
}

impl Table {
    pub fn new(alloc: Global, base: ClassId) -> Table
        ensures base { result.base ≡ base }
        ensures steps { result.steps.items ≡ [] }
        ensures known { result.known.entries ≡ [] }
    {
        Table {
            base,
            steps: Vec::new(alloc),
            known: BTreeMap::new(alloc),
        }
    }

    fn entry(&self, class: ClassId) -> Kept
        ensures { result ≡ entry_of self.now.base.0 (get nat_cmp self.now.known) class.0 }
    {
        match self.known.get(&class.0) {
            Some(kept) => *kept,
            None => own(class.0, self.base.0),
        }
    }

    /// One more direct base.
    pub fn add(&mut self, direct: DirectBase) -> Result<(), OutOfMemory>
        requires { AreKnown self.old.steps.items (get nat_cmp self.old.known) }
        ensures base { self.new.base ≡ self.old.base }
        ensures known { OnOk result (AreKnown self.new.steps.items (get nat_cmp self.new.known)) }
        ensures table { OnOk result ((paths : ℕ → List (List ℕ)) → IsTable self.old.base.0 self.old.steps.items (get nat_cmp self.old.known) paths → IsTable self.old.base.0 self.new.steps.items (get nat_cmp self.new.known) (λ class. paths class ++ through_base paths class (Some direct))) }
    {
        let own = self.entry(direct.class);
        let base = self.entry(direct.parent);
        let more = through(&mut self.steps, direct.index, base)?;
        self.known.insert(direct.class.0, join(own, more))?;
        Ok(())
    }

    /// What is known of a class.
    pub fn found(&self, alloc: Global, class: ClassId) -> Result<Subobjects, OutOfMemory>
        requires { AreKnown self.now.steps.items (get nat_cmp self.now.known) }
        ensures { IfOk result (λ found. found ≡ kept_at (paths_of self.now.steps.items) (entry_of self.now.base.0 (get nat_cmp self.now.known) class.0)) }
    {
        match self.entry(class) {
            Kept::None => Ok(Subobjects::None),
            Kept::One(only) => Ok(Subobjects::One(path(alloc, &self.steps, only)?)),
            Kept::Several(one, two) => {
                let first = path(alloc, &self.steps, one)?;
                let second = path(alloc, &self.steps, two)?;
                Ok(Subobjects::Several(first, second))
            }
        }
    }
}
