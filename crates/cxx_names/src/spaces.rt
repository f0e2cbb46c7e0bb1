ghost use Rattle.std.specs.Prelude.{◌≡◌, [], OnOk, OnErr};
ghost use Rattle.std.specs.List.{slice_get};
ghost use Rattle.cxx_names.specs.Filed.{row};
ghost use Rattle.cxx_names.specs.Index.{AreSameSpaces, HasSpaces, KeepsSpaces, same_scope};
ghost use Rattle.cxx_names.specs.declared.spaces.Spaces.{Spaces as SpacesBefore};

use crate::entry::SpaceEntry;
use crate::filed::Filed;
use cxx_hash::Key;
use cxx_model::{FactId, OutOfMemory, ScopeId};
use std::alloc::Global;

/// The namespaces and the using-directives of a unit.
#[derive(Drop)]
pub(crate) struct Spaces {
    // 7.3.4: the namespaces that the directives of each scope nominate.
    pub(crate) directives: Filed<ScopeId, ScopeId>,
    // 7.3.1: the declarations of each namespace, by its scope.
    pub(crate) openings: Filed<ScopeId, FactId>,
    // 7.3.1.1: the unnamed namespaces of each scope.
    pub(crate) unnamed: Filed<ScopeId, ScopeId>,
}

impl Spaces {
    pub(crate) fn new(alloc: Global, key: Key) -> Spaces
        ensures { KeepsSpaces result [] }
    {
        Spaces {
            directives: Filed::new(alloc, key),
            openings: Filed::new(alloc, key),
            unnamed: Filed::new(alloc, key),
        }
    }

    /// The first declaration of a namespace, by its scope.
    pub(crate) fn first_opening(&self, inner: ScopeId) -> Option<FactId>
        ensures { result ≡ slice_get (row same_scope self.now.openings.rows.entries inner) 0 }
    {
        match self.openings.row(&inner).get(0) {
            Some(first) => Some(*first),
            None => None,
        }
    }

    /// The first unnamed namespace of a scope.
    pub(crate) fn first_unnamed(&self, scope: ScopeId) -> Option<ScopeId>
        ensures { result ≡ slice_get (row same_scope self.now.unnamed.rows.entries scope) 0 }
    {
        match self.unnamed.row(&scope).get(0) {
            Some(first) => Some(*first),
            None => None,
        }
    }

    /// Keeps what is to be kept of one more fact. An `Err` changes nothing of what is kept.
    pub(crate) fn note(&mut self, one: SpaceEntry) -> Result<(), OutOfMemory>
        ensures noted { OnOk result (HasSpaces self.old self.new one) }
        ensures same { OnErr result (AreSameSpaces self.old self.new) }
    {
        self.directives.add(one.directive)?;
        if let Err(fault) = self.openings.add(one.opening) {
            self.directives.take_back(one.directive);
            return Err(fault);
        }
        if let Err(fault) = self.unnamed.add(one.unnamed) {
            self.openings.take_back(one.opening);
            self.directives.take_back(one.directive);
            return Err(fault);
        }
        Ok(())
    }

    /// Takes back what was kept of the last fact.
    pub(crate) fn take_back(&mut self, one: SpaceEntry)
        ensures { (before : SpacesBefore) → HasSpaces before self.old one → AreSameSpaces before self.new }
    {
        self.directives.take_back(one.directive);
        self.openings.take_back(one.opening);
        self.unnamed.take_back(one.unnamed);
    }
}
