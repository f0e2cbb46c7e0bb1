//! What using-directives show, and where (7.3.4).

ghost use Rattle.std.specs.Prelude.{◌≡◌, ◌&&◌, ◌++◌, ◌∷◌, [], length, map, IfOk, OnOk};
ghost use Rattle.std.specs.List.{slice_get};
ghost use Rattle.cxx_meaning.specs.Lookups.Directives.{nominated, reached as reached_from, shown_from, shows};
ghost use Rattle.cxx_meaning.specs.Lookups.Gathered.{holds_scope as holds, with_scope, with_scopes};
ghost use Rattle.cxx_model.specs.Facts.Entities.{is_space};
ghost use Rattle.cxx_meaning.specs.Lookups.Scopes.{chain, first_common, kind_of};
ghost use Rattle.cxx_found.specs.Views.{IsSeeking, cut_of, facts_of, shown_of};

use crate::seeking::Seeking;
use cxx_hash::Key;
use cxx_model::ScopeId;
use indexmap::IndexSet;
use std::alloc::{AllocError, Global};

/// A namespace, and the one in which its names show.
#[derive(Clone, Copy)]
pub(crate) struct Shown {
    pub there: ScopeId,
    pub space: ScopeId,
}

// ---- lists of scopes without repetition

/// A list of no scopes that tells at once whether it holds one.
pub(crate) fn no_scopes(alloc: Global) -> IndexSet<ScopeId, Key>
    ensures { result.keys ≡ [] }
{
    IndexSet::with_hasher(alloc, Key::of(&[]))
}

/// The scope at a place of a list.
pub(crate) fn scope_at(scopes: &IndexSet<ScopeId, Key>, place: usize) -> Option<ScopeId>
    ensures { result ≡ slice_get scopes.now.keys place }
{
    scopes.get_index(place).copied()
}

/// Adds a scope at the end, where it is not there yet.
pub(crate) fn add_scope(
    scopes: &mut IndexSet<ScopeId, Key>,
    scope: ScopeId,
) -> Result<(), AllocError>
    ensures { OnOk result (scopes.new.keys ≡ with_scope scopes.old.keys scope) }
{
    scopes.insert(scope)?;
    Ok(())
}

/// Adds each of some scopes at the end, where it is not there yet.
#[tactic(auto, unfolding(cxx_meaning::specs::Lookups::Gathered::with_scopes))]
pub(crate) fn add_scopes(
    scopes: &mut IndexSet<ScopeId, Key>,
    others: &[ScopeId],
) -> Result<(), AllocError>
    ensures { OnOk result (scopes.new.keys ≡ with_scopes scopes.old.keys others.now) }
{
    for scope in others {
        add_scope(scopes, *scope)?;
    }
    Ok(())
}

fn push_shown(shown: &mut Vec<Shown>, one: Shown) -> Result<(), AllocError>
    ensures { OnOk result (map shown_of shown.new.items ≡ map shown_of shown.old.items ++ shown_of one ∷ []) }
{
    shown.push(one)?;
    Ok(())
}

impl Seeking<'_> {
    /// The namespaces that the directives of a scope nominate.
    pub fn nominated(&self, scope: ScopeId) -> &[ScopeId]
        requires { IsSeeking self.now }
        ensures { result.now ≡ nominated (facts_of self.now) (cut_of self.now) scope }
    {
        if self.names.has_directives(self.looking.graph) {
            self.names.directives(self.looking.graph, scope)
        } else {
            &[]
        }
    }

    // The namespaces that are reached from a scope, each once.
    #[tactic(auto, using(cxx_scopes::proofs::Spreading::turn_first, cxx_scopes::proofs::Spreading::turn_more, cxx_scopes::proofs::Spreading::turn_done, cxx_scopes::proofs::Spreading::turn_over), unfolding(cxx_meaning::specs::Lookups::Directives::reached))]
    fn reached(&self, scope: ScopeId) -> Result<IndexSet<ScopeId, Key>, AllocError>
        requires { IsSeeking self.now }
        ensures { IfOk result (λ spaces. spaces.keys ≡ reached_from (facts_of self.now) (cut_of self.now) scope) }
    {
        let mut found = no_scopes(self.looking.alloc);
        add_scopes(&mut found, self.nominated(scope))?;
        for place in 0..self.looking.graph.length() {
            match scope_at(&found, place as usize) {
                None => return Ok(found),
                Some(space) => add_scopes(&mut found, self.nominated(space))?,
            }
        }
        Ok(found)
    }

    // Whether a scope is one of another and those around it.
    #[tactic(auto, using(cxx_members::proofs::Kept::up_more, cxx_members::proofs::Kept::up_unit, cxx_members::proofs::Kept::up_last))]
    fn is_round(&self, scope: ScopeId, inner: ScopeId) -> bool
        requires { IsSeeking self.now }
        ensures { result ≡ holds (chain (facts_of self.now) inner) scope }
    {
        let mut now = inner;
        for turn in 0..inner.0 {
            if scope.0 == now.0 {
                return true;
            }
            if now.0 == 0 {
                return false;
            }
            now = self.outer(now);
        }
        scope.0 == now.0
    }

    fn is_common(&self, scope: ScopeId, space: ScopeId) -> bool
        requires { IsSeeking self.now }
        ensures { result ≡ is_space (kind_of (facts_of self.now) scope) && holds (chain (facts_of self.now) space) scope }
    {
        self.is_space(scope) && self.is_round(scope, space)
    }

    // The nearest namespace that encloses a scope and a namespace.
    #[tactic(auto, using(cxx_members::proofs::Kept::up_more, cxx_members::proofs::Kept::up_unit, cxx_members::proofs::Kept::up_last), unfolding(cxx_meaning::specs::Lookups::Scopes::first_common))]
    fn common(&self, scope: ScopeId, space: ScopeId) -> ScopeId
        requires { IsSeeking self.now }
        ensures { result ≡ first_common (facts_of self.now) (chain (facts_of self.now) scope) (chain (facts_of self.now) space) }
    {
        let mut now = scope;
        for turn in 0..scope.0 {
            if self.is_common(now, space) {
                return now;
            }
            if now.0 == 0 {
                return ScopeId(0);
            }
            now = self.outer(now);
        }
        if self.is_common(now, space) {
            now
        } else {
            ScopeId(0)
        }
    }

    // A namespace, with the one in which it shows from a scope.
    fn shown_at(&self, scope: ScopeId, space: ScopeId) -> Shown
        requires { IsSeeking self.now }
        ensures { shown_of result ≡ shown_from (facts_of self.now) (chain (facts_of self.now) scope) space }
    {
        Shown {
            there: self.common(scope, space),
            space,
        }
    }

    // Adds each of the namespaces that are reached from a scope, with the one in which it shows.
    fn add_reached(
        &self,
        scope: ScopeId,
        reached: &[ScopeId],
        shown: &mut Vec<Shown>,
    ) -> Result<(), AllocError>
        requires { IsSeeking self.now }
        ensures { OnOk result (map shown_of shown.new.items ≡ map shown_of shown.old.items ++ map (shown_from (facts_of self.now) (chain (facts_of self.now) scope)) reached.now) }
    {
        for space in reached {
            let one = self.shown_at(scope, *space);
            push_shown(shown, one)?;
        }
        Ok(())
    }

    /// Adds what is reached from a scope, each with the namespace in which it shows.
    #[tactic(auto, using(crate::proofs::Shows::shows_nothing), unfolding(cxx_meaning::specs::Lookups::Directives::shows))]
    pub fn add_shown(&self, scope: ScopeId, shown: &mut Vec<Shown>) -> Result<(), AllocError>
        requires { IsSeeking self.now }
        ensures { OnOk result (map shown_of shown.new.items ≡ map shown_of shown.old.items ++ shows (facts_of self.now) (cut_of self.now) scope) }
    {
        if self.nominated(scope).is_empty() {
            return Ok(());
        }
        let reached = self.reached(scope)?;
        self.add_reached(scope, reached.as_slice(), shown)
    }
}
