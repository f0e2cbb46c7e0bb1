//! The scopes of a graph, and the innermost namespace of each (7.3.1).

ghost use Rattle.std.specs.Prelude.{◌≡◌, IfOk};
ghost use Rattle.std.specs.List.{slice_get};
ghost use Rattle.cxx_model.specs.Facts.Entities.{is_space as is_space_kind};
ghost use Rattle.cxx_meaning.specs.Lookups.Member.{class_of_scope};
ghost use Rattle.cxx_meaning.specs.Lookups.Scopes.{home as home_of, kind_of, parent_of};
ghost use Rattle.cxx_adl.specs.Views.{holders_of, holder_by, facts_of};

use crate::asking::Asking;
use cxx_model::{ClassId, Entity, Fact, FactId, ScopeId, ScopeKind, Steps};
use std::alloc::AllocError;
use std::sync::ledger::Ledger;

/// A scope: of what it is, and the one that holds it.
#[derive(Clone, Copy)]
pub(crate) struct Holder {
    pub kind: ScopeKind,
    pub parent: ScopeId,
}

impl Asking<'_> {
    /// The scopes, in order.
    #[tactic(auto, using(crate::proofs::Holding::holders_none, crate::proofs::Holding::holders_some))]
    pub fn holders(&self) -> Result<Vec<Holder>, AllocError>
        ensures { IfOk result (λ holders. holders.items ≡ holders_of self.now.graph.now.facts) }
    {
        let mut holders = Vec::new(self.alloc);
        for fact in self.graph.facts() {
            if let Some(holder) = holder_in(fact) {
                holders.push(holder)?;
            }
        }
        Ok(holders)
    }

    /// The scopes, in order. Each fact that is read takes a step.
    #[tactic(auto, using(crate::proofs::Holding::read_none, crate::proofs::Holding::read_some, crate::proofs::Holding::read_all))]
    pub fn read_holders<L: Ledger>(&self, steps: &mut Steps<L>) -> Result<Vec<Holder>, AllocError>
        ensures { IfOk result (λ holders. holders.items ≡ holders_of self.now.graph.now.facts) }
    {
        let mut holders = Vec::new(self.alloc);
        for number in 0..self.graph.length() {
            let fact = self.graph.fact(FactId(number), steps);
            if let Some(holder) = holder_in(fact) {
                holders.push(holder)?;
            }
        }
        Ok(holders)
    }

    fn holder(&self, holders: &[Holder], scope: ScopeId) -> Option<Holder>
        requires { holders.now ≡ holders_of self.now.graph.now.facts }
        ensures { result ≡ slice_get (holders_of self.now.graph.now.facts) scope.0 }
    {
        holders.get(scope.0 as usize).copied()
    }

    #[tactic(auto, using(crate::proofs::Holding::kind_is))]
    fn kind(&self, holders: &[Holder], scope: ScopeId) -> Option<ScopeKind>
        requires { holders.now ≡ holders_of self.now.graph.now.facts }
        ensures { result ≡ kind_of (facts_of self.now) scope }
    {
        match self.holder(holders, scope) {
            Some(holder) => Some(holder.kind),
            None => None,
        }
    }

    #[tactic(auto, using(crate::proofs::Holding::parent_is))]
    fn parent(&self, holders: &[Holder], scope: ScopeId) -> ScopeId
        requires { holders.now ≡ holders_of self.now.graph.now.facts }
        ensures { result ≡ parent_of (facts_of self.now) scope }
    {
        match self.holder(holders, scope) {
            Some(holder) => holder.parent,
            None => ScopeId(0),
        }
    }

    /// Whether a scope is that of a namespace.
    pub fn is_space(&self, holders: &[Holder], scope: ScopeId) -> bool
        requires { holders.now ≡ holders_of self.now.graph.now.facts }
        ensures { result ≡ is_space_kind (kind_of (facts_of self.now) scope) }
    {
        match self.kind(holders, scope) {
            Some(ScopeKind::Space) => true,
            _ => false,
        }
    }

    /// The class to which a scope belongs (9.2).
    pub fn class_of(&self, holders: &[Holder], scope: ScopeId) -> Option<ClassId>
        requires { holders.now ≡ holders_of self.now.graph.now.facts }
        ensures { result ≡ class_of_scope (facts_of self.now) scope }
    {
        match self.kind(holders, scope) {
            Some(ScopeKind::Class(class)) => Some(class),
            _ => None,
        }
    }

    /// The innermost namespace of a scope.
    #[tactic(auto, using(crate::proofs::Homes::home_here, crate::proofs::Homes::home_unit, crate::proofs::Homes::home_up, crate::proofs::Homes::home_last, crate::proofs::Homes::home_first))]
    pub fn home(&self, holders: &[Holder], scope: ScopeId) -> ScopeId
        requires { holders.now ≡ holders_of self.now.graph.now.facts }
        ensures { result ≡ home_of (facts_of self.now) scope }
    {
        let mut now = scope;
        for turn in 0..scope.0 {
            if self.is_space(holders, now) {
                return now;
            }
            if now.0 == 0 {
                return ScopeId(0);
            }
            now = self.parent(holders, now);
        }
        if self.is_space(holders, now) {
            now
        } else {
            ScopeId(0)
        }
    }
}

// What a fact makes, where it makes a scope.
fn holder_in(fact: &Fact) -> Option<Holder>
    ensures { result ≡ holder_by fact.now.scope fact.now.what }
{
    match fact.what {
        Entity::Scope { kind, .. } => Some(Holder {
            kind,
            parent: fact.scope,
        }),
        _ => None,
    }
}
