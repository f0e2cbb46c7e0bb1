//! Lists of scopes without repetition.

ghost use Rattle.std.specs.Prelude.{◌≡◌, OnOk};
ghost use Rattle.std.specs.List.{slice_get};
ghost use Rattle.cxx_meaning.specs.Lookups.Gathered.{with_scope as joined, with_scopes as joined_all};

use cxx_members::holds_scope;
use cxx_model::ScopeId;
use std::alloc::AllocError;

/// The scope at a place of a list.
pub(crate) fn scope_at(scopes: &[ScopeId], place: usize) -> Option<ScopeId>
    ensures { result ≡ slice_get scopes.now place }
{
    scopes.get(place).copied()
}

/// Adds a scope at the end, where it is not there yet.
pub(crate) fn add_scope(scopes: &mut Vec<ScopeId>, scope: ScopeId) -> Result<(), AllocError>
    ensures { OnOk result (scopes.new.items ≡ joined scopes.old.items scope) }
{
    if !holds_scope(scopes, scope) {
        scopes.push(scope)?;
    }
    Ok(())
}

/// Adds each of some scopes at the end, where it is not there yet.
#[tactic(auto, unfolding(cxx_meaning::specs::Lookups::Gathered::with_scopes))]
pub(crate) fn add_scopes(scopes: &mut Vec<ScopeId>, others: &[ScopeId]) -> Result<(), AllocError>
    ensures { OnOk result (scopes.new.items ≡ joined_all scopes.old.items others.now) }
{
    for scope in others {
        add_scope(scopes, *scope)?;
    }
    Ok(())
}
