//! What a lookup reads: the facts of a graph, its scopes, and the table of its types.

ghost use Rattle.std.specs.Prelude.{◌≡◌, ◌+◌, ◌<◌, length, IfOk, IfSome};
ghost use Rattle.std.specs.List.{slice_get};
ghost use Rattle.std.specs.Option.{option_copied};
ghost use Rattle.cxx_model.specs.Facts.Entities.{is_space as is_space_kind};
ghost use Rattle.cxx_model.specs.Facts.Fitted.{IsFactBelow};
ghost use Rattle.cxx_meaning.specs.Lookups.Scopes.{kind_of, parent_of, chain as chain_of, first_common as first_common_of};
ghost use Rattle.cxx_meaning.specs.Lookups.Member.{class_of_scope};
ghost use Rattle.cxx_members.specs.Views.{IsLooking, facts_of, scopes_of};

use crate::index::Noted;
use crate::lists::holds_scope;
use cxx_graph::Graph;
use cxx_model::{ClassId, Fact, FactId, ScopeId, ScopeKind, Steps};
use cxx_types::TypeTable;
use std::alloc::{AllocError, Global};
use std::sync::ledger::Ledger;

#[derive(Clone, Copy)]
pub struct Looking<'a> {
    pub alloc: Global,
    pub graph: &'a Graph,
    pub types: &'a TypeTable,
    pub scopes: &'a [Noted],
}

impl Looking<'_> {
    /// The fact with a number, where there is one.
    #[tactic(auto, using(crate::proofs::Kept::fact_below))]
    pub fn fact<L: Ledger>(&self, number: u64, steps: &mut Steps<L>) -> Option<&Fact>
        requires { IsLooking self.now }
        ensures is { option_copied result ≡ slice_get self.now.graph.now.facts number }
        ensures below { IfSome result (λ fact. IsFactBelow (length self.now.types.now) fact.now) }
    {
        if number < u64::from(self.graph.length()) {
            Some(self.graph.fact(FactId(number as u32), steps))
        } else {
            None
        }
    }

    fn noted(&self, scope: ScopeId) -> Option<Noted>
        requires { IsLooking self.now }
        ensures { result ≡ slice_get (scopes_of self.now.graph.now.facts) scope.0 }
    {
        match self.scopes.get(scope.0 as usize) {
            Some(noted) => Some(*noted),
            None => None,
        }
    }

    #[tactic(auto, using(crate::proofs::Kept::kind_is))]
    pub fn kind(&self, scope: ScopeId) -> Option<ScopeKind>
        requires { IsLooking self.now }
        ensures { result ≡ kind_of (facts_of self.now) scope }
    {
        match self.noted(scope) {
            Some(noted) => Some(noted.kind),
            None => None,
        }
    }

    #[tactic(auto, using(crate::proofs::Kept::parent_is))]
    fn parent(&self, scope: ScopeId) -> ScopeId
        requires { IsLooking self.now }
        ensures { result ≡ parent_of (facts_of self.now) scope }
    {
        match self.noted(scope) {
            Some(noted) => noted.parent,
            None => ScopeId(0),
        }
    }

    /// Whether a scope is that of a namespace.
    pub fn is_space(&self, scope: ScopeId) -> bool
        requires { IsLooking self.now }
        ensures { result ≡ is_space_kind (kind_of (facts_of self.now) scope) }
    {
        match self.kind(scope) {
            Some(ScopeKind::Space) => true,
            _ => false,
        }
    }

    /// The class to which a scope belongs.
    pub fn class_of(&self, scope: ScopeId) -> Option<ClassId>
        requires { IsLooking self.now }
        ensures { result ≡ class_of_scope (facts_of self.now) scope }
    {
        match self.kind(scope) {
            Some(ScopeKind::Class(class)) => Some(class),
            _ => None,
        }
    }

    /// A scope and those around it, to that of the unit.
    #[tactic(auto, using(crate::proofs::Kept::chain_more, crate::proofs::Kept::up_unit, crate::proofs::Kept::up_last))]
    pub fn chain(&self, scope: ScopeId) -> Result<Vec<ScopeId>, AllocError>
        requires { IsLooking self.now }
        ensures { IfOk result (λ scopes. scopes.items ≡ chain_of (facts_of self.now) scope) }
    {
        let mut scopes = Vec::new(self.alloc);
        let mut now = scope;
        for turn in 0..scope.0 {
            scopes.push(now)?;
            if now.0 == 0 {
                return Ok(scopes);
            }
            now = self.parent(now);
        }
        scopes.push(now)?;
        Ok(scopes)
    }

    /// The first namespace of some scopes that stands among others.
    #[tactic(auto, unfolding(cxx_meaning::specs::Lookups::Scopes::first_common))]
    pub fn first_common(&self, ones: &[ScopeId], others: &[ScopeId]) -> ScopeId
        requires { IsLooking self.now }
        ensures { result ≡ first_common_of (facts_of self.now) ones.now others.now }
    {
        for one in ones {
            if self.is_space(*one) && holds_scope(others, *one) {
                return *one;
            }
        }
        ScopeId(0)
    }
}
